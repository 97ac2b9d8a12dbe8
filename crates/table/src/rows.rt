// For the crates above: rows in use, read from the three slices.
ghost use Rattle.std.specs.Prelude.{◌≡◌, ◌<◌, ◌≤◌, ◌+◌};
ghost use Rattle.steps.specs.Table.{slices};
ghost use Rattle.table.specs.Lent.{Lent};

use crate::{Row, Var};

// The row (v, t, e).
#[derive(Clone, Copy, PartialEq, Eq)]
pub struct Node {
    pub v: Var,
    pub t: Row,
    pub e: Row,
}

// A table that is lent to be read, not yet checked.
#[derive(Clone, Copy)]
pub struct View<'a> {
    pub vs: &'a [u16],
    pub ts: &'a [u16],
    pub es: &'a [u16],
    pub count: usize,
}

// The first rows of a table whose lengths and count are in range, to be read. It has the fields of a `View` itself, so that the fact about them can name them.
#[derive(Clone, Copy)]
pub struct Rows<'a> {
    pub vs: &'a [u16],
    pub ts: &'a [u16],
    pub es: &'a [u16],
    pub count: usize,
    ghost lent: { Lent count (slices vs.now ts.now es.now) },
}

impl<'a> Rows<'a> {
    ghost use Rattle.steps.specs.Rows.{row, alike};
    ghost use Rattle.steps.specs.Table.{row_at};
    ghost use Rattle.table.specs.Calls.{in_use};
    ghost use Rattle.table.specs.Views.{triple, viewed, shown};

    // The rows before row i.
    pub fn before(&self, i: usize) -> Rows<'a>
        requires { i ≤ self.now.count }
        ensures rows { viewed result ≡ viewed self.now }
        ensures count { result.count ≡ i }
    {
        Rows {
            vs: self.vs,
            ts: self.ts,
            es: self.es,
            count: i,
        }
    }

    // Whether k is 0, 1 or the number of a row.
    pub fn has(&self, k: Row) -> bool
        ensures { in_use self.now.count k.0 ≡ result }
    {
        (k.0 as usize) < self.count + 2
    }

    // Row i.
    pub fn node(&self, i: usize) -> Node
        requires { i < self.now.count }
        ensures { row_at (viewed self.now) i ≡ triple result }
    {
        Node {
            v: Var(self.vs[i]),
            t: Row(self.ts[i]),
            e: Row(self.es[i]),
        }
    }

    // Whether row i is x.
    pub fn is(&self, i: usize, x: Node) -> bool
        requires { i < self.now.count }
        ensures { alike (row_at (viewed self.now) i) (triple x) ≡ result }
    {
        self.node(i) == x
    }

    // The row of the number k; a constant has the row (n, 0, k).
    pub fn row(&self, n: u16, k: Row) -> Node
        requires { k.0 < self.now.count + 2 }
        ensures { row n (shown self.now) k.0 ≡ triple result }
    {
        if k.0 < 2 {
            return Node {
                v: Var(n),
                t: Row(0),
                e: k,
            };
        }
        self.node(k.0 as usize - 2)
    }
}
