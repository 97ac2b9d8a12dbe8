// The calls sum and product. They differ in the written steps that are taken, and in nothing else. Each clause of a call is one fact.
#![tactic(auto)]

ghost use Rattle.std.specs.Prelude.{◌≡◌, ◌&&◌, length, replicate, OnErr};
ghost use Rattle.std.specs.Bool.{xor};
ghost use Rattle.steps.specs.Steps.{Steps};
ghost use Rattle.table.specs.Answers.{answered_of};
ghost use Rattle.table.specs.Calls.{in_use, left};
ghost use Rattle.table.specs.Tables.{LiveIn};
ghost use Rattle.table.specs.Views.{slices_of, SameLoans};
ghost use Rattle.checks.specs.Steps.{StillLent, StepsTo};
ghost use Rattle.pairs.specs.Calls.{pair_checked, pair_call, sum_call, product_call, Answered};
ghost use Rattle.pairs.specs.Inner.{MayTake, Takes};

use checks::call::call;
use table::{NoRoom, Refusal, Row, Table};

// The call on f and g with these written steps.
fn pair<F>(n: usize, t: &mut Table<'_>, f: Row, g: Row, written: F) -> Result<Row, Refusal>
where
    F: FnOnce(&mut Table<'_>, u16, Row, Row) -> Result<Row, NoRoom>,
    requires may_take { MayTake n f g (F.pre written) }
    requires takes { (m : Steps) × Takes n f g (F.post written) m }
    ensures call { (m : Steps) → Takes n f g (F.post written) m
        → pair_call n m t.old.count (slices_of t.old) f.0 g.0 ≡ left (answered_of result t.new.count) (slices_of t.new) }
    ensures count { OnErr result (t.new.count ≡ t.old.count) }
    ensures same { SameLoans t.old t.new }
    ensures work_after { t.new.work.now ≡ replicate (length t.old.work.now) 0 }
{
    let steps = move |t: &mut Table<'_>, n: u16| -> Result<Row, Refusal>
        requires live { LiveIn n t.old }
        requires may_take { MayTake n f g (F.pre written) }
        requires takes { (m : Steps) × Takes n f g (F.post written) m }
        ensures kept { StillLent t.old t.new }
        ensures steps { (m : Steps) → Takes n f g (F.post written) m
            → StepsTo (pair_checked m t.old.count (slices_of t.old) f.0 g.0) result t.old t.new }
    {
        let rows = t.rows();
        if !rows.has(f) || !rows.has(g) {
            return Err(Refusal::NotInUse);
        }
        Ok(written(t, n, f, g)?)
    };
    call(n, t, steps)
}

// The sum f + g.
pub fn sum(n: usize, t: &mut Table<'_>, f: Row, g: Row) -> Result<Row, Refusal>
    ensures answered { Answered xor (sum_call n t.old.count (slices_of t.old) f.0 g.0) (answered_of result t.new.count) t.old.count
        (slices_of t.old) (slices_of t.new) f.0 g.0 }
    ensures count { OnErr result (t.new.count ≡ t.old.count) }
    ensures same { SameLoans t.old t.new }
    ensures work_after { t.new.work.now ≡ replicate (length t.old.work.now) 0 }
{
    pair(n, t, f, g, sums::written::sum)
}

// The product f·g.
pub fn product(n: usize, t: &mut Table<'_>, f: Row, g: Row) -> Result<Row, Refusal>
    ensures answered { Answered ◌&&◌ (product_call n t.old.count (slices_of t.old) f.0 g.0) (answered_of result t.new.count) t.old.count
        (slices_of t.old) (slices_of t.new) f.0 g.0 }
    ensures count { OnErr result (t.new.count ≡ t.old.count) }
    ensures same { SameLoans t.old t.new }
    ensures work_after { t.new.work.now ≡ replicate (length t.old.work.now) 0 }
{
    pair(n, t, f, g, products::written::product)
}
