// For the crates above: the written steps of the normal form, with its results remembered.
#![tactic(auto)]

ghost use Rattle.steps.specs.Steps.{normal};
ghost use Rattle.steps.specs.Table.{rows_of};
ghost use Rattle.table.specs.Tables.{KeptIn};
ghost use Rattle.table.specs.Views.{slices_of};
ghost use Rattle.products.specs.Inner.{ThreeIn};
ghost use Rattle.reduction.specs.Inner.{AskedIn, ReducesIn, Proper, BelowIn, MeetIn, RestIn, TookIn, below_steps, join_steps, rest_steps, meet_steps};

use leads::{fill, lead_at};
use products::written::product;
use sums::written::sum;
use table::memory::{Operation, key, remember};
use table::rows::Node;
use table::{NoRoom, Row, Table};

// The product of the first two, and that plus the third. (`sum_three` of products begins with a sum; one function for both would be longer than the two lines.)
fn join(t: &mut Table<'_>, n: u16, a: Row, b: Row, c: Row) -> Result<Row, NoRoom>
    requires { ThreeIn n t.old a.0 b.0 c.0 }
    ensures { KeptIn n (join_steps n a.0 b.0 c.0) result t.old t.new }
{
    let d = product(t, n, a, b)?;
    sum(t, n, d, c)
}

// The normal form of p by the system f, whose table is in the working slice.
#[cycle(meet_rest_normal_below_normal_deep_normal_form_normal_meet)]
fn normal_form(t: &mut Table<'_>, n: u16, p: Row, f: Row) -> Result<Row, NoRoom>
    requires { ReducesIn n t.old p.0 f.0 }
    ensures { KeptIn n (normal n p.0 f.0) result t.old t.new }
{
    if p.0 < 2 {
        return Ok(p);
    }
    let lent: &Table<'_> = t;
    let rows = lent.rows();
    let v = rows.row(n, p).v;
    let g = lead_at(&rows, lent.work, n, f, v);
    if g.0 == 1 {
        return Ok(p);
    }
    // like the sum, where it is said why this is no function of its own
    let slot = t.slot(key(Operation::NormalForm, p, g));
    if let Some(k) = t.recall(slot) {
        return Ok(k);
    }
    let k = normal_deep(t, n, p, g)?;
    remember(t.work, slot, k);
    Ok(k)
}

// The same where p is no constant and the first lead of f is at its root or behind it.
#[cycle(meet_rest_normal_below_normal_deep_normal_form_normal_meet)]
fn normal_deep(t: &mut Table<'_>, n: u16, p: Row, f: Row) -> Result<Row, NoRoom>
    requires reduces { ReducesIn n t.old p.0 f.0 }
    requires proper { Proper n (rows_of (slices_of t.old) t.old.count) p.0 f.0 }
    ensures { KeptIn n (normal n p.0 f.0) result t.old t.new }
{
    let rows = t.rows();
    let x = rows.row(n, p);
    let y = rows.row(n, f);
    if x.v < y.v {
        return normal_below(t, n, x, f);
    }
    normal_meet(t, n, x, y)
}

// The row x, whose root is before the first lead of f: the normal forms of its parts, make with its own root.
#[cycle(meet_rest_normal_below_normal_deep_normal_form_normal_meet)]
fn normal_below(t: &mut Table<'_>, n: u16, x: Node, f: Row) -> Result<Row, NoRoom>
    requires { BelowIn n t.old x.v.0 x.t.0 x.e.0 f.0 }
    ensures { KeptIn n (below_steps n x.v.0 x.t.0 x.e.0 f.0) result t.old t.new }
{
    let then_part = normal_form(t, n, x.t, f)?;
    let else_part = normal_form(t, n, x.e, f)?;
    t.make(Node {
        v: x.v,
        t: then_part,
        e: else_part,
    })
}

// The row x, whose root is the lead of the system's row y: y's tail, then x's parts by the other equations, the tail put in the lead's place.
#[cycle(meet_rest_normal_below_normal_deep_normal_form_normal_meet)]
fn normal_meet(t: &mut Table<'_>, n: u16, x: Node, y: Node) -> Result<Row, NoRoom>
    requires { MeetIn n t.old x.v.0 x.t.0 x.e.0 y.t.0 y.e.0 }
    ensures { KeptIn n (meet_steps n x.t.0 x.e.0 y.t.0 y.e.0) result t.old t.new }
{
    let others = y.t;
    let a = normal_form(t, n, y.e, others)?;
    let b = normal_form(t, n, x.t, others)?;
    meet_rest(t, n, a, b, x, others)
}

// After a and b: the else-part of x by the other equations f, a·b, and that plus it.
#[cycle(meet_rest_normal_below_normal_deep_normal_form_normal_meet)]
fn meet_rest(t: &mut Table<'_>, n: u16, a: Row, b: Row, x: Node, f: Row) -> Result<Row, NoRoom>
    requires { RestIn n t.old a.0 b.0 x.v.0 x.e.0 f.0 }
    ensures { KeptIn n (rest_steps n a.0 b.0 x.e.0 f.0) result t.old t.new }
{
    let c = normal_form(t, n, x.e, f)?;
    join(t, n, a, b, c)
}

// The normal form of p by the system f.
pub fn reduce(t: &mut Table<'_>, n: u16, p: Row, f: Row) -> Result<Row, NoRoom>
    requires { AskedIn n t.old p.0 f.0 }
    ensures { TookIn n (normal n p.0 f.0) result t.old t.new }
{
    // the rows are lent, so the working slice, which is written, is taken out of the table meanwhile
    let work = std::mem::take(&mut t.work);
    fill(&t.rows(), work, n, f);
    t.work = work;
    normal_form(t, n, p, f)
}
