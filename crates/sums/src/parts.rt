// For the crates above: two numbers taken apart at the lesser of their roots.
ghost use Rattle.table.specs.Views.{viewed, shown};
ghost use Rattle.sums.specs.Inner.{InUse, Split};

use std::cmp::Ordering;
use table::rows::Rows;
use table::{Row, Var};

// The lesser root, and the parts of f and g there: of one that has another root the then-part is 0 and the else-part is itself.
#[derive(Clone, Copy)]
pub struct Parts {
    pub v: Var,
    pub ft: Row,
    pub gt: Row,
    pub fe: Row,
    pub ge: Row,
}

// f and g, taken apart.
pub fn split(rows: &Rows<'_>, n: u16, f: Row, g: Row) -> Parts
    requires { InUse rows.now.count (viewed rows.now) f.0 g.0 }
    ensures { Split n (shown rows.now) f.0 g.0 result.v.0 result.ft.0 result.gt.0 result.fe.0 result.ge.0 }
{
    let a = rows.row(n, f);
    let b = rows.row(n, g);
    match a.v.cmp(&b.v) {
        Ordering::Less => Parts {
            v: a.v,
            ft: a.t,
            gt: Row(0),
            fe: a.e,
            ge: g,
        },
        Ordering::Greater => Parts {
            v: b.v,
            ft: Row(0),
            gt: b.t,
            fe: f,
            ge: b.e,
        },
        Ordering::Equal => Parts {
            v: a.v,
            ft: a.t,
            gt: b.t,
            fe: a.e,
            ge: b.e,
        },
    }
}
