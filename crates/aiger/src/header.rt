// Line 1, `aag M I L O A`, and its limits.
ghost use Rattle.std.specs.Prelude.{◌≡◌, drop};
ghost use Rattle.aiger.specs.Form as form;
ghost use Rattle.aiger.specs.Net as net;
ghost use Rattle.aiger.specs.Answers.{step_of, sizes_of, header_of};

use crate::lines::{further, newline_left};
use crate::numbers::{Fault, byte};

// M, I, L, O and A.
#[derive(Clone, Copy, Debug, PartialEq, Eq)]
pub struct Sizes {
    pub vars: u16,
    pub inputs: u16,
    pub latches: u16,
    pub outputs: u16,
    pub gates: u16,
}

// The word `aag`.
#[tactic(auto, unfolding(crate::specs::Form::word))]
fn word(s: &[u8], at: usize) -> Result<usize, Fault>
    ensures { step_of s.now result ≡ form.word (drop at s.now) }
{
    let p = byte(s, at, b'a')?;
    let q = byte(s, p, b'a')?;
    byte(s, q, b'g')
}

// The five numbers after the word.
#[tactic(auto, unfolding(crate::specs::Form::five))]
fn five(s: &[u8], at: usize) -> Result<(Sizes, usize), Fault>
    ensures { header_of s.now result ≡ form.five (drop at s.now) }
{
    let (vars, p) = further(s, at)?;
    let (inputs, q) = further(s, p)?;
    let (latches, t) = further(s, q)?;
    let (outputs, u) = further(s, t)?;
    let (gates, end) = further(s, u)?;
    let sizes = Sizes {
        vars,
        inputs,
        latches,
        outputs,
        gates,
    };
    Ok((sizes, end))
}

// The whole line.
#[tactic(auto, unfolding(crate::specs::Form::line, crate::specs::Form::header))]
pub fn line_of_header(s: &[u8], at: usize) -> Result<(Sizes, usize), Fault>
    ensures { header_of s.now result ≡ form.line form.header (drop at s.now) }
{
    if !newline_left(s, at) {
        return Err(Fault::NoNewline);
    }
    let p = word(s, at)?;
    let (sizes, q) = five(s, p)?;
    let end = byte(s, q, b'\n')?;
    Ok((sizes, end))
}

// I + A is compared with M in 32 bits, so that the sum cannot wrap.
pub fn limits(h: Sizes) -> bool
    ensures { result ≡ net.limits (sizes_of h) }
{
    let i = h.inputs as u32;
    let a = h.gates as u32;
    let m = h.vars as u32;
    h.vars <= 1024 && h.outputs <= 1024 && h.latches == 0 && i + a <= m
}
