// For the calls from C: what C sees of an answer, 0 with the out-parameters written, or the refusal's number with the out-parameters as they were. A refusal is
// anything that has a number: those of tables, texts and circuits, and a number itself.
// Each answer has other out-parameters, so each has a function. One for all would take a closure that writes them: that is no plainer, and a contract cannot
// say what a closure taken by value has written.
#![tactic(auto)]

ghost use Rattle.std.specs.Prelude.{◌≡◌, ℕ};
ghost use Rattle.table.specs.Answers as table;
ghost use Rattle.aiger.specs.Answers as text;
ghost use Rattle.endings.specs.Answers as circuit;
ghost use Rattle.shown.specs.Seen.{answered_by, valued_by, sought_by, judged_by, counted_by};
ghost use Rattle.shown.specs.Seen.{seen, show_made, show_value, show_one, show_verdict, show_counts};

use endings::Verdict;
use table::Row;

// A refusal that has a number, which is what C sees of it.
pub trait HasNumber: Drop {
    ghost number: { Self → ℕ };

    fn number(&self) -> u32
        ensures { result ≡ number self.now };
}

// Any number.
impl HasNumber for u16 {
    ghost number = { λ n. n };

    fn number(&self) -> u32 {
        u32::from(*self)
    }
}

impl HasNumber for table::Refusal {
    ghost number = { table.number_of_refusal };

    fn number(&self) -> u32 {
        *self as u32
    }
}

impl HasNumber for aiger::refusal::Refusal {
    ghost number = { text.number_of_refusal };

    fn number(&self) -> u32 {
        u16::from(*self).into()
    }
}

impl HasNumber for endings::Refusal {
    ghost number = { circuit.number_of_refusal };

    fn number(&self) -> u32 {
        u16::from(*self).into()
    }
}

// A number, with the count of rows then in use.
pub fn made<W: HasNumber>(r: Result<Row, W>, count: usize, row: &mut u16, used: &mut usize) -> u32
    ensures { show_made (answered_by W.number r count) (row.old, used.old) ≡ seen result (row.new, used.new) }
{
    match r {
        Ok(k) => {
            *row = k.0;
            *used = count;
            0
        }
        Err(why) => why.number(),
    }
}

// A value: the byte 0 or 1.
pub fn value<W: HasNumber>(r: Result<bool, W>, out: &mut u8) -> u32
    ensures { show_value (valued_by W.number r) out.old ≡ seen result out.new }
{
    match r {
        Ok(b) => {
            *out = b.into();
            0
        }
        Err(why) => why.number(),
    }
}

// That a one was found: it is in the assignment that was lent.
pub fn one<W: HasNumber>(r: Result<(), W>) -> u32
    ensures { show_one (sought_by W.number r) tt ≡ seen result tt }
{
    match r {
        Ok(()) => 0,
        Err(why) => why.number(),
    }
}

// A verdict: 0, the output is never 1; 1, it can be; 2, room ran out, with no count of rows.
pub fn verdict<W: HasNumber>(r: Result<Verdict, W>, out: &mut u32, rows: &mut usize) -> u32
    ensures { show_verdict (judged_by W.number r) (out.old, rows.old) ≡ seen result (out.new, rows.new) }
{
    match r {
        Ok(Verdict::Never(n)) => {
            *out = 0;
            *rows = n;
            0
        }
        Ok(Verdict::Can(n)) => {
            *out = 1;
            *rows = n;
            0
        }
        Ok(Verdict::RoomOut) => {
            *out = 2;
            0
        }
        Err(why) => why.number(),
    }
}

// How many inputs and outputs a circuit has.
pub fn counts<W: HasNumber>(
    r: Result<(u16, u16), W>,
    inputs: &mut usize,
    outputs: &mut usize,
) -> u32
    ensures { show_counts (counted_by W.number r) (inputs.old, outputs.old) ≡ seen result (inputs.new, outputs.new) }
{
    match r {
        Ok((i, o)) => {
            *inputs = i.into();
            *outputs = o.into();
            0
        }
        Err(why) => why.number(),
    }
}
