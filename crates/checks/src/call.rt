// For the crates above: a call that may append.
ghost use Rattle.std.specs.Prelude.{◌≡◌, ℕ, length, replicate, OnErr};
ghost use Rattle.steps.specs.Table.{Slices};
ghost use Rattle.table.specs.Answers.{answered_of};
ghost use Rattle.table.specs.Calls.{Left, left};
ghost use Rattle.table.specs.Views.{slices_of, SameLoans};
ghost use Rattle.checks.specs.Steps.{MayStep, Keeps, ComesTo, checked_call};

use crate::check::check_table;
use crate::finish::free_rows;
use table::{Refusal, Row, Table};

#[tactic(auto, using(crate::proofs::Findings::refused_by, crate::proofs::Findings::all_fine, crate::proofs::Checking::in_range_vars))]
fn checked<F>(n: usize, t: &mut Table<'_>, steps: F) -> Result<Row, Refusal>
where
    F: FnOnce(&mut Table<'_>, u16) -> Result<Row, Refusal>,
    requires may_step { MayStep n (F.pre steps) }
    requires keeps { Keeps n (F.post steps) }
    ensures call { (done : ℕ → Slices → Left) → ComesTo n done (F.post steps)
        → checked_call n done t.old ≡ left (answered_of result t.new.count) (slices_of t.new) }
    ensures count { OnErr result (t.new.count ≡ t.old.count) }
    ensures same { SameLoans t.old t.new }
    ensures same_length { length t.new.work.now ≡ length t.old.work.now }
{
    check_table(n, t)?;
    let count = t.count;
    let made = steps(t, n as u16);
    if let Err(why) = made {
        t.count = count;
        if why == Refusal::RoomOut {
            free_rows(t);
        }
    }
    made
}

// The checks, the steps, and zeros in the working slice. On Err the rows in use are those at entry; where room has run out, the free rows are zeroed.
pub fn call<F>(n: usize, t: &mut Table<'_>, steps: F) -> Result<Row, Refusal>
where
    F: FnOnce(&mut Table<'_>, u16) -> Result<Row, Refusal>,
    requires may_step { MayStep n (F.pre steps) }
    requires keeps { Keeps n (F.post steps) }
    ensures call { (done : ℕ → Slices → Left) → ComesTo n done (F.post steps)
        → checked_call n done t.old ≡ left (answered_of result t.new.count) (slices_of t.new) }
    ensures count { OnErr result (t.new.count ≡ t.old.count) }
    ensures same { SameLoans t.old t.new }
    ensures work_after { t.new.work.now ≡ replicate (length t.old.work.now) 0 }
{
    let made = checked(n, t, steps);
    t.work.fill(0);
    made
}
