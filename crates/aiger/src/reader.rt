// "The reader carries the lent text and its position together". Its functions only take it apart and call `number`.
ghost use Rattle.std.specs.Prelude.{◌≡◌, drop};
ghost use Rattle.aiger.specs.Form as form;
ghost use Rattle.aiger.specs.Answers.{number_of};

use crate::numbers::{Fault, number};

#[derive(Clone, Copy)]
pub struct Reader<'a> {
    pub text: &'a [u8],
    pub at: usize,
}

fn opened<'a>(text: &'a [u8], at: usize) -> Reader<'a>
    ensures { (result.text ≡ text.entry) × (result.at ≡ at) }
{
    Reader { text, at }
}

// The number at the reader's position, with the next position.
fn next_number<'a>(r: Reader<'a>) -> Result<(u16, usize), Fault>
    ensures { number_of r.entry.text.now result ≡ form.number (drop r.entry.at r.entry.text.now) }
{
    number(r.text, r.at)
}

// The same from a plain slice and a position, so that callers need not know of the struct.
pub fn number_at(s: &[u8], at: usize) -> Result<(u16, usize), Fault>
    ensures { number_of s.now result ≡ form.number (drop at s.now) }
{
    next_number(opened(s, at))
}
