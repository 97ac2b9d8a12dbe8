// For the crates above: the written steps of the sum, with its results remembered.
ghost use Rattle.std.specs.Prelude.{◌≡◌};
ghost use Rattle.steps.specs.Steps.{sum};
ghost use Rattle.table.specs.Tables.{KeptIn};
ghost use Rattle.sums.specs.Inner.{PairIn, Apart, SumKey};

use crate::parts::split;
use table::memory::{Operation, key, remember};
use table::rows::Node;
use table::{NoRoom, Row, Table};

// A sum has one key for both orders: its steps are the same either way round.
fn sum_key(f: Row, g: Row) -> u64
    ensures { SumKey f.0 g.0 result }
{
    if f < g {
        key(Operation::Sum, f, g)
    } else {
        key(Operation::Sum, g, f)
    }
}

// The sum f + g.
#[cycle(sum_sum_deep)]
pub fn sum(t: &mut Table<'_>, n: u16, f: Row, g: Row) -> Result<Row, NoRoom>
    requires { PairIn n t.old f.0 g.0 }
    ensures { KeptIn n (sum n f.0 g.0) result t.old t.new }
{
    if f.0 == 0 {
        return Ok(g);
    }
    if g.0 == 0 {
        return Ok(f);
    }
    if f == g {
        return Ok(Row(0));
    }
    // The product and the normal form look up and remember alike. One function for all three would take the steps as a closure, whose clauses are longer than these lines.
    let slot = t.slot(sum_key(f, g));
    if let Some(k) = t.recall(slot) {
        return Ok(k);
    }
    let k = sum_deep(t, n, f, g)?;
    remember(t.work, slot, k);
    Ok(k)
}

// The same where neither number is 0 and they are not equal: the sums of the then-parts and of the else-parts, make.
#[cycle(sum_sum_deep)]
fn sum_deep(t: &mut Table<'_>, n: u16, f: Row, g: Row) -> Result<Row, NoRoom>
    requires pair { PairIn n t.old f.0 g.0 }
    requires apart { Apart f.0 g.0 }
    ensures { KeptIn n (sum n f.0 g.0) result t.old t.new }
{
    let p = split(&t.rows(), n, f, g);
    let then_part = sum(t, n, p.ft, p.gt)?;
    let else_part = sum(t, n, p.fe, p.ge)?;
    t.make(Node {
        v: p.v,
        t: then_part,
        e: else_part,
    })
}
