// Lines of numbers. A line's newline is looked for up to that newline, then the line is read once.
ghost use Rattle.std.specs.Prelude.{◌≡◌, drop};
ghost use Rattle.aiger.specs.Form as form;
ghost use Rattle.aiger.specs.Answers.{number_of, gate_of};

use crate::numbers::{Fault, byte, space};
use crate::reader::number_at;

// A circuit's literal: 2v is variable v, 2v+1 its inverse; 0 and 1 are constants. The scope names it as a struct of one field.
#[derive(Clone, Copy, Debug, PartialEq, Eq, PartialOrd, Ord)]
pub struct Lit(pub u16);

// The left is the AND of the rights.
#[derive(Clone, Copy, Debug, PartialEq, Eq)]
pub struct Gate {
    pub left: Lit,
    pub right0: Lit,
    pub right1: Lit,
}

// Whether a newline stands at the position or behind it. Inlined, since every line that is read asks it; that saves a few instructions a line.
#[inline(always)]
#[tactic(auto, using(crate::proofs::AtPosition::newline_end, crate::proofs::AtPosition::any_from))]
pub fn newline_left(s: &[u8], from: usize) -> bool
    ensures { result ≡ form.newline_left (drop from s.now) }
{
    from <= s.len() && s[from..].contains(&b'\n')
}

// A space and the number behind it.
#[tactic(auto, unfolding(crate::specs::Form::further))]
pub fn further(s: &[u8], at: usize) -> Result<(u16, usize), Fault>
    ensures { number_of s.now result ≡ form.further (drop at s.now) }
{
    let p = space(s, at)?;
    number_at(s, p)
}

// A line of one number. It and the lines of a gate and a header are three functions, since each is held to a reader of the definition, and a function cannot be one.
#[tactic(auto, unfolding(crate::specs::Form::line))]
pub fn line_of_number(s: &[u8], at: usize) -> Result<(u16, usize), Fault>
    ensures { number_of s.now result ≡ form.line form.number (drop at s.now) }
{
    if !newline_left(s, at) {
        return Err(Fault::NoNewline);
    }
    let (n, p) = number_at(s, at)?;
    let end = byte(s, p, b'\n')?;
    Ok((n, end))
}

// A line of a gate.
#[tactic(auto, unfolding(crate::specs::Form::line, crate::specs::Form::gate))]
pub fn line_of_gate(s: &[u8], at: usize) -> Result<(Gate, usize), Fault>
    ensures { gate_of s.now result ≡ form.line form.gate (drop at s.now) }
{
    if !newline_left(s, at) {
        return Err(Fault::NoNewline);
    }
    let (left, p) = number_at(s, at)?;
    let (right0, q) = further(s, p)?;
    let (right1, t) = further(s, q)?;
    let end = byte(s, t, b'\n')?;
    let gate = Gate {
        left: Lit(left),
        right0: Lit(right0),
        right1: Lit(right1),
    };
    Ok((gate, end))
}
