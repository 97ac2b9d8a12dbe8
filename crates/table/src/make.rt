// For the crates above: the written step Make.
ghost use Rattle.std.specs.Prelude.{◌≡◌, length};
ghost use Rattle.steps.specs.Rows.{find};
ghost use Rattle.steps.specs.Steps.{make, append};
ghost use Rattle.steps.specs.Table.{rows_of};
ghost use Rattle.table.specs.Lent.{Lent};
ghost use Rattle.table.specs.Index.{Indexed, Belongs};
ghost use Rattle.table.specs.Views.{triple, viewed, shown, slices_seen, slices_of};
ghost use Rattle.table.specs.Inner.{Finds};
ghost use Rattle.table.specs.Tables.{TakenIn, EnteredIn};

use crate::index::{Bucket, enter, find, index_words};
use crate::rows::{Node, Rows, View};
use crate::{NoRoom, Row, Table};

impl Table<'_> {
    // The table, to be read.
    pub fn view(&self) -> View<'_>
        ensures slices { slices_seen result ≡ slices_of self.now }
        ensures count { result.count ≡ self.now.count }
    {
        View {
            vs: self.vs,
            ts: self.ts,
            es: self.es,
            count: self.count,
        }
    }

    // The rows in use.
    pub fn rows(&self) -> Rows<'_>
        requires { Lent self.now.count (slices_of self.now) }
        ensures rows { viewed result ≡ slices_of self.now }
        ensures count { result.count ≡ self.now.count }
        ensures shown { shown result ≡ rows_of (slices_of self.now) self.now.count }
    {
        let View { vs, ts, es, count } = self.view();
        Rows { vs, ts, es, count }
    }

    // The row x behind the rows in use.
    fn append(&mut self, x: Node) -> Result<Row, NoRoom>
        requires { Lent self.old.count (slices_of self.old) }
        ensures { TakenIn (append (triple x)) result self.old self.new }
    {
        let i = self.count;
        if self.vs.len() <= i {
            return Err(NoRoom);
        }
        self.vs[i] = x.v.0;
        self.ts[i] = x.t.0;
        self.es[i] = x.e.0;
        self.count = i + 1;
        Ok(Row((i + 2) as u16))
    }

    // The row x, which is like none in use, behind them and in its bucket of their index.
    fn add(&mut self, b: Bucket, x: Node) -> Result<Row, NoRoom>
        requires indexed { Indexed self.old.count (slices_of self.old) self.old.work.now }
        requires belongs { Belongs (length self.old.vs.now) (length self.old.work.now) (triple x) b.words b.number }
        requires is_new { find (rows_of (slices_of self.old) self.old.count) (triple x) ≡ 0 }
        ensures { EnteredIn (append (triple x)) result self.old self.new }
    {
        let i = self.count;
        if self.vs.len() <= i {
            return Err(NoRoom); // before anything is written
        }
        enter(self.work, b, i);
        self.append(x)
    }

    // The row x, in its bucket of the index of the rows in use.
    fn find(&self, b: Bucket, x: Node) -> Option<Row>
        requires indexed { Indexed self.now.count (slices_of self.now) self.now.work.now }
        requires belongs { Belongs (length self.now.vs.now) (length self.now.work.now) (triple x) b.words b.number }
        ensures { Finds result (rows_of (slices_of self.now) self.now.count) (triple x) }
    {
        find(&self.rows(), self.work, b, x)
    }

    // The written step Make.
    pub fn make(&mut self, x: Node) -> Result<Row, NoRoom>
        requires { Indexed self.old.count (slices_of self.old) self.old.work.now }
        ensures { EnteredIn (make x.v.0 x.t.0 x.e.0) result self.old self.new }
    {
        if x.t.0 == 0 {
            return Ok(x.e);
        }
        let b = Bucket::of(index_words(self.vs.len(), self.work.len()), x);
        match self.find(b, x) {
            Some(k) => Ok(k),
            None => self.add(b, x),
        }
    }
}
