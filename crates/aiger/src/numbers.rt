// Bytes and numbers. A position counts bytes from the text's start and stands for what is left of the text there. The functions take the text and the position apart, since
// the scope wants the `Reader` that holds both to be thin, over functions that do.
ghost use Rattle.std.specs.Prelude.{◌≡◌, drop};
ghost use Rattle.aiger.specs.Form as form;
ghost use Rattle.aiger.specs.Answers.{step_of, number_of};

// Which of the scope's (a), (b), (c) a line breaks.
#[derive(Clone, Copy, Debug, PartialEq, Eq)]
pub enum Fault {
    NoNewline,
    BadNumber,
    Other,
}

fn is_digit(x: u8) -> bool
    ensures { result ≡ form.digit x }
{
    b'0' <= x && x <= b'9'
}

// The digits that go on from the number `first`, with the next position.
#[tactic(auto, using(crate::proofs::AtPosition::digits_all, crate::proofs::AtPosition::digits_stop, crate::proofs::AtPosition::digits_within, crate::proofs::AtPosition::digits_over))]
fn digits(s: &[u8], from: usize, first: u16) -> Result<(u16, usize), Fault>
    ensures { number_of s.now result ≡ form.digits first (drop from s.now) }
{
    let mut n = first;
    for at in from..s.len() {
        let x = s[at];
        if !is_digit(x) {
            return Ok((n, at));
        }
        let more = (n as u32) * 10 + ((x - b'0') as u32);
        if 65535 < more {
            return Err(Fault::BadNumber);
        }
        n = more as u16;
    }
    Ok((n, s.len()))
}

// What stands behind a 0 that begins a number.
#[tactic(auto, using(crate::proofs::AtPosition::zero_end, crate::proofs::AtPosition::zero_more, crate::proofs::AtPosition::zero_stop))]
fn zero_alone(s: &[u8], at: usize) -> Result<(u16, usize), Fault>
    ensures { number_of s.now result ≡ form.zero_alone (drop at s.now) }
{
    if at < s.len() && is_digit(s[at]) {
        return Err(Fault::BadNumber);
    }
    Ok((0, at))
}

// The number at the position, with the next position.
#[tactic(auto, using(crate::proofs::AtPosition::number_end, crate::proofs::AtPosition::number_zero, crate::proofs::AtPosition::number_no, crate::proofs::AtPosition::number_on))]
pub fn number(s: &[u8], at: usize) -> Result<(u16, usize), Fault>
    ensures { number_of s.now result ≡ form.number (drop at s.now) }
{
    if s.len() <= at {
        return Err(Fault::BadNumber);
    }
    let x = s[at];
    if x == b'0' {
        return zero_alone(s, at + 1);
    }
    if !is_digit(x) {
        return Err(Fault::BadNumber);
    }
    digits(s, at + 1, (x - b'0') as u16)
}

// The space before a further number of the line.
#[tactic(auto, using(crate::proofs::AtPosition::space_end, crate::proofs::AtPosition::space_is, crate::proofs::AtPosition::space_line, crate::proofs::AtPosition::space_other))]
pub fn space(s: &[u8], at: usize) -> Result<usize, Fault>
    ensures { step_of s.now result ≡ form.space (drop at s.now) }
{
    if s.len() <= at {
        return Err(Fault::BadNumber);
    }
    match s[at] {
        b' ' => Ok(at + 1),
        b'\n' => Err(Fault::BadNumber),
        _ => Err(Fault::Other),
    }
}

// The byte `b`, which is due at the position.
#[tactic(auto, using(crate::proofs::AtPosition::byte_end, crate::proofs::AtPosition::byte_is, crate::proofs::AtPosition::byte_other))]
pub fn byte(s: &[u8], at: usize, b: u8) -> Result<usize, Fault>
    ensures { step_of s.now result ≡ form.byte b (drop at s.now) }
{
    if at < s.len() && s[at] == b {
        return Ok(at + 1);
    }
    Err(Fault::Other)
}
