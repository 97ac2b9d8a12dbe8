// The public calls on a table that need no arithmetic: the variable x_v, the value of a number at an assignment, and a one of it. Each clause of a call is one fact.
#![tactic(auto)]

ghost use Rattle.std.specs.Prelude.{◌≡◌, length, replicate, OnErr};
ghost use Rattle.table.specs.Answers.{answered_of};
ghost use Rattle.table.specs.Calls.{left};
ghost use Rattle.table.specs.Views.{slices_seen, slices_of, SameLoans};
ghost use Rattle.numbers.specs.Answers.{valued_of, sought_of};
ghost use Rattle.table.specs.Tables.{LiveIn};
ghost use Rattle.checks.specs.Steps.{StepsTo};
ghost use Rattle.numbers.specs.Calls.{variable_checked, variable_call, all_bits, value_call, one_left, one_call, OneMeans};

use assignments::evaluate::value_at;
use assignments::seek::one_of;
use checks::call::call;
use checks::check::check;
use table::rows::{Node, View};
use table::{Refusal, Row, Table, Var};

// The variable x_v.
pub fn variable(n: usize, t: &mut Table<'_>, v: Var) -> Result<Row, Refusal>
    ensures v_value { variable_call n t.old.count (slices_of t.old) v.0 ≡ left (answered_of result t.new.count) (slices_of t.new) }
    ensures count { OnErr result (t.new.count ≡ t.old.count) }
    ensures same { SameLoans t.old t.new }
    ensures work_after { t.new.work.now ≡ replicate (length t.old.work.now) 0 }
{
    let steps = move |t: &mut Table<'_>, n: u16| -> Result<Row, Refusal>
        requires { LiveIn n t.old }
        ensures { StepsTo (variable_checked n t.old.count (slices_of t.old) v.0) result t.old t.new }
    {
        if n <= v.0 {
            return Err(Refusal::BadVariable);
        }
        Ok(t.make(Node {
            v,
            t: Row(1),
            e: Row(0),
        })?)
    };
    call(n, t, steps)
}

// Value and one only read the table, so they take a `View` of it beside the working slice, and not a closure: their answers and what they write differ.

// Whether all bytes are 0 or 1.
fn all_bits(bytes: &[u8]) -> bool
    ensures { all_bits bytes.now ≡ result }
{
    bytes.iter().all(|b| *b < 2)
}

#[tactic(auto, using(checks::proofs::Findings::refused_by, checks::proofs::Findings::all_fine), unfolding(crate::specs::Calls::value_call))]
fn value_checked(
    n: usize,
    view: &View<'_>,
    work: &mut [u64],
    f: Row,
    bytes: &[u8],
) -> Result<bool, Refusal>
    ensures { value_call n view.now.count (slices_seen view.now) f.0 bytes.now ≡ valued_of result }
{
    if bytes.len() != n {
        return Err(Refusal::OutOfRange);
    }
    let rows = check(n, view, work)?;
    if !rows.has(f) {
        return Err(Refusal::NotInUse);
    }
    if !all_bits(bytes) {
        return Err(Refusal::NotABit);
    }
    Ok(value_at(&rows, bytes, f))
}

// The value of the number f at an assignment.
pub fn value(
    n: usize,
    view: &View<'_>,
    work: &mut [u64],
    f: Row,
    bytes: &[u8],
) -> Result<bool, Refusal>
    ensures bytes_value { value_call n view.now.count (slices_seen view.now) f.0 bytes.now ≡ valued_of result }
    ensures work_after { work.new ≡ replicate (length work.old) 0 }
{
    let value = value_checked(n, view, work, f, bytes);
    work.fill(0);
    value
}

#[tactic(auto, using(checks::proofs::Findings::refused_by, checks::proofs::Findings::all_fine), unfolding(crate::specs::Calls::one_call))]
fn one_checked(
    n: usize,
    view: &View<'_>,
    work: &mut [u64],
    f: Row,
    bytes: &mut [u8],
) -> Result<(), Refusal>
    ensures { one_call n view.now.count (slices_seen view.now) f.0 bytes.old ≡ one_left (sought_of result) bytes.new }
{
    if bytes.len() != n {
        return Err(Refusal::OutOfRange);
    }
    let rows = check(n, view, work)?;
    if !rows.has(f) {
        return Err(Refusal::NotInUse);
    }
    if f.0 == 0 {
        return Err(Refusal::NoOne);
    }
    one_of(&rows, f, bytes);
    Ok(())
}

// A one of the number f: the least.
#[tactic(auto, using(crate::proofs::Meanings::one_call_means))]
pub fn one(
    n: usize,
    view: &View<'_>,
    work: &mut [u64],
    f: Row,
    bytes: &mut [u8],
) -> Result<(), Refusal>
    ensures bytes_value { one_call n view.now.count (slices_seen view.now) f.0 bytes.old ≡ one_left (sought_of result) bytes.new }
    ensures one_means { OneMeans (sought_of result) view.now.count (slices_seen view.now) f.0 bytes.new }
    ensures work_after { work.new ≡ replicate (length work.old) 0 }
{
    let found = one_checked(n, view, work, f, bytes);
    work.fill(0);
    found
}
