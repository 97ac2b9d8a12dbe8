// The text of an output and of a refusal, piece by piece.
ghost use Rattle.std.specs.Prelude.{◌+◌, ◌<◌, ◌≤◌, ◌≡◌, [], ◌∷◌, ◌++◌, map, length};
ghost use Rattle.verdicts.specs.Calls.{verdict_1};
ghost use Rattle.endings.specs.Answers.{judged, answer_of_judged};
ghost use Rattle.printing.specs.Text as text;
ghost use Rattle.arrayvec.specs.ArrayString.{array_string_len};

use arrayvec::ArrayString;
use endings::Verdict;

// Text in fixed memory, with room for a pattern of 1,024 digits and 16 bytes about it. It is pushed, and not printed by an `impl Display`: by its clauses a `write!` may
// fail, and what is printed here never does.
pub type Line = ArrayString<1040>;

// A number of at most k digits and one. The library's printing of a number is another text from 10,000 on, which the definition `decimal` speaks of too.
#[tactic(auto, using(crate::proofs::Digits::decimals))]
fn push_decimal(line: &mut Line, k: usize, n: usize)
    requires { array_string_len line.old + k < 1040 }
    ensures { line.new.bytes ≡ line.old.bytes ++ text.decimal k n }
{
    if k > 0 && n >= 10 {
        push_decimal(line, k - 1, n / 10);
    }
    line.push(char::from(b'0' + (n % 10) as u8));
}

// The verdict, as the number that is printed (`heading` in specs/Text.antt takes it so), and the output.
fn heading(verdict: u8, o: usize) -> Line
    requires { verdict < 3 }
    ensures { result.bytes ≡ text.heading verdict o }
{
    let mut line = Line::new();
    line.push(char::from(b'0' + verdict));
    line.push_str("\nb");
    push_decimal(&mut line, 3, o);
    line.push_str("\n");
    line
}

// An input's value.
fn digit(value: u8) -> &'static str
    ensures { result.now ≡ text.digit value ∷ [] }
{
    if value == 0 { "0" } else { "1" }
}

// The values of all inputs.
fn push_digits(line: &mut Line, pattern: &[u8])
    requires { array_string_len line.old + length pattern.now ≤ 1040 }
    ensures { line.new.bytes ≡ line.old.bytes ++ map text.digit pattern.now }
{
    for value in pattern {
        line.push_str(digit(*value));
    }
}

// The verdict alone.
pub fn verdict_alone(verdict: u8, o: usize) -> Line
    requires { verdict < 3 }
    ensures { result.bytes ≡ text.heading verdict o ++ text.dot }
{
    let mut line = heading(verdict, o);
    line.push_str(".\n");
    line
}

// Verdict 1: an empty line, since there are no latches, and the input values in file order.
fn verdict_one(o: usize, pattern: &[u8]) -> Line
    requires { length pattern.now ≤ 1024 }
    ensures { result.bytes ≡ text.block (verdict_1 0) o pattern.now }
{
    let mut line = heading(1, o);
    line.push_str("\n");
    push_digits(&mut line, pattern);
    line.push_str("\n.\n");
    line
}

// The block of output o.
pub fn block(verdict: Verdict, o: usize, pattern: &[u8]) -> Line
    requires { length pattern.now ≤ 1024 }
    ensures { result.bytes ≡ text.block (answer_of_judged (judged verdict)) o pattern.now }
{
    match verdict {
        Verdict::Never(_) => verdict_alone(0, o),
        Verdict::Can(_) => verdict_one(o, pattern),
        Verdict::RoomOut => verdict_alone(2, o),
    }
}

// The number of a refusal.
pub fn refused(number: u16) -> Line
    ensures { result.bytes ≡ text.refused number }
{
    let mut line = Line::new();
    line.push_str("refused ");
    push_decimal(&mut line, 1, number as usize);
    line.push_str("\n");
    line
}
