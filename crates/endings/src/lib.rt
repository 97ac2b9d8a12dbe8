// For the crates above: what the circuit call answers, and how it ends after what was made.
#![tactic(auto)]

pub mod pattern;

ghost use Rattle.std.specs.Prelude.{◌≡◌, length, take};
ghost use Rattle.table.specs.Made.{made_of};
ghost use Rattle.table.specs.Views.{slices_of};
ghost use Rattle.aiger.specs.Answers.{literals_in};
ghost use Rattle.checks.specs.Checks.{OnlyRows};
ghost use Rattle.verdicts.specs.Calls.{rows_made};
ghost use Rattle.endings.specs.Answers.{Answered, judged, answer_of_judged, number_of_refusal};
ghost use Rattle.endings.specs.Inner.{end_of, EndAsked};
ghost use Rattle.endings.specs.declared.Refusal.TheVariants.{Table, Text};

use crate::pattern::write_pattern;
use aiger::lines::Lit;
use checks::finish::free_rows;
use table::{NoRoom, Row, Table};

// What the circuit call answers: the output is never 1, or it can be, each with the count of rows made; or room ran out.
#[derive(Clone, Copy)]
pub enum Verdict {
    Never(usize),
    Can(usize),
    RoomOut,
}

// Why it is refused: the table, the text, an output that is not there, or a pattern of another length.
#[derive(Clone, Copy)]
pub enum Refusal {
    Table(table::Refusal),
    Text(aiger::refusal::Refusal),
    NoOutput,
    PatternLength,
}

impl From<table::Refusal> for Refusal {
    ghost from_gives = { λ why e. e ≡ Table why };

    fn from(why: table::Refusal) -> Refusal {
        Refusal::Table(why)
    }
}

impl From<aiger::refusal::Refusal> for Refusal {
    ghost from_gives = { λ why e. e ≡ Text why };

    fn from(why: aiger::refusal::Refusal) -> Refusal {
        Refusal::Text(why)
    }
}

// The paper's number of a refusal.
impl From<Refusal> for u16 {
    ghost from_gives = { λ why n. n ≡ number_of_refusal why };

    fn from(why: Refusal) -> u16 {
        match why {
            Refusal::Table(of_table) => of_table as u16,
            Refusal::Text(of_text) => of_text.into(),
            Refusal::NoOutput => 14,
            Refusal::PatternLength => 15,
        }
    }
}

// How the call ends after what was made: a pattern only for verdict 1, and zeros where room has run out.
pub fn ended(
    t: &mut Table<'_>,
    n: u16,
    made: Result<Row, NoRoom>,
    inputs: &[Lit],
    pattern: &mut [u8],
) -> Verdict
    requires { EndAsked (made_of made t.old.count) n (slices_of t.old) (literals_in inputs.now) (length pattern.old) }
    ensures answered { Answered (end_of (made_of made t.old.count) n (take (length pattern.old) (literals_in inputs.now)) (slices_of t.old) pattern.old)
        (judged result) (slices_of t.new) pattern.new }
    ensures count { rows_made (answer_of_judged (judged result)) ≡ t.new.count }
    ensures only_rows { OnlyRows t.old t.new }
{
    let Ok(k) = made else {
        t.count = 0;
        free_rows(t);
        return Verdict::RoomOut;
    };
    if k.0 == 0 {
        return Verdict::Never(t.count);
    }
    write_pattern(&t.rows(), n, k, inputs, pattern);
    Verdict::Can(t.count)
}
