// For the crates above: the checks that every call on a table makes first.
ghost use Rattle.std.specs.Prelude.{◌≡◌, length, IfOk, IfSome};
ghost use Rattle.steps.specs.Sound.{fits};
ghost use Rattle.steps.specs.Table.{rows_of};
ghost use Rattle.table.specs.Index.{Indexed, Belongs};
ghost use Rattle.table.specs.Calls.{in_range};
ghost use Rattle.table.specs.Views.{triple, slices_seen, viewed, shown, slices_of};
ghost use Rattle.checks.specs.Checks.{parts_fit, is_some, RowsOf, Prepared, SoundChecked, Checked, OnlyWork};

use table::index::{Bucket, enter, find, index_words};
use table::memory::words_used;
use table::rows::{Node, Rows, View};
use table::{Refusal, Table};

// The rows, if N, the lengths and the count are in range.
#[tactic(auto, unfolding(table::specs::Calls::in_range))]
fn in_range<'a>(n: usize, view: &View<'a>) -> Option<Rows<'a>>
    ensures is { in_range n view.now.count (slices_seen view.now) ≡ is_some result }
    ensures rows { IfSome result (RowsOf view.now) }
{
    let rows = view.vs.len();
    if n <= 1024
        && rows <= 8192
        && view.ts.len() == rows
        && view.es.len() == rows
        && view.count <= rows
    {
        Some(Rows {
            vs: view.vs,
            ts: view.ts,
            es: view.es,
            count: view.count,
        })
    } else {
        None
    }
}

// Whether the row x behind these has its variable in range and parts among them with roots behind its own.
#[tactic(auto, using(steps::proofs::Table::rows_of_next))]
fn parts_fit(rows: &Rows<'_>, n: u16, x: Node) -> bool
    ensures { parts_fit n (shown rows.now) (triple x) ≡ result }
{
    let next = rows.count + 2;
    x.v.0 < n
        && (x.t.0 as usize) < next
        && (x.e.0 as usize) < next
        && x.t.0 != 0
        && x.v.0 < rows.row(n, x.t).v.0
        && x.v.0 < rows.row(n, x.e).v.0
}

// Whether the row x, which belongs in the bucket b of the rows' index, may stand behind these.
#[tactic(auto, unfolding(steps::specs::Sound::fits))]
fn row_fits(rows: &Rows<'_>, work: &[u64], n: u16, b: Bucket, x: Node) -> bool
    requires indexed { Indexed rows.now.count (viewed rows.now) work.now }
    requires belongs { Belongs (length rows.now.vs.now) (length work.now) (triple x) b.words b.number }
    ensures { fits n (shown rows.now) (triple x) ≡ result }
{
    parts_fit(rows, n, x) && find(rows, work, b, x).is_none()
}

// Whether the rows are sound. Where they are, the working slice then begins with their index.
fn rows_sound(rows: &Rows<'_>, n: u16, work: &mut [u64]) -> bool
    requires { Prepared rows.now.count (viewed rows.now) work.old }
    ensures { SoundChecked result n rows.now.count (viewed rows.now) work.new }
{
    let words = index_words(rows.vs.len(), work.len());
    // by index, at which the row is read and entered
    for i in 0..rows.count {
        let x = rows.node(i);
        let b = Bucket::of(words, x);
        if !row_fits(&rows.before(i), work, n, b, x) {
            return false;
        }
        enter(work, b, i);
    }
    true
}

// The checks of every call on a table. Where they find nothing, the working slice is ready for the inner functions.
#[tactic(auto, using(table::proofs::Words::reach_fits, crate::proofs::Checking::in_range_vars))]
pub fn check<'a>(n: usize, view: &View<'a>, work: &mut [u64]) -> Result<Rows<'a>, Refusal>
    ensures checked { Checked result n view.now.count (slices_seen view.now) work.new }
    ensures rows { IfOk result (RowsOf view.now) }
{
    let rows = in_range(n, view).ok_or(Refusal::OutOfRange)?;
    let used = words_used(rows.vs.len(), work.len());
    work[..used].fill(0);
    if rows_sound(&rows, n as u16, work) {
        Ok(rows)
    } else {
        Err(Refusal::Unsound)
    }
}

// The same of a table that may be written.
pub fn check_table(n: usize, t: &mut Table<'_>) -> Result<(), Refusal>
    ensures checked { Checked result n t.old.count (slices_of t.old) t.new.work.now }
    ensures only_work { OnlyWork t.old t.new }
{
    let work = std::mem::take(&mut t.work);
    let checked = check(n, &t.view(), work).map(|_| ());
    t.work = work;
    checked
}
