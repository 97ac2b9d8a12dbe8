// For the crates above: the index of the rows in the first words of the working slice.
ghost use Rattle.std.specs.Prelude.{◌≡◌, ◌<◌, ◌/◌, ◌%◌, length, get_or};
ghost use Rattle.steps.specs.Rows.{Row as Triple};
ghost use Rattle.table.specs.Index.{index_size, index_words, bucket, Indexed, Belongs, Linkable, enter};
ghost use Rattle.table.specs.Inner.{Finds};
ghost use Rattle.table.specs.Views.{triple, viewed, shown};

use crate::Row;
use crate::rows::{Node, Rows};

// A bucket of the index: its number, with the count of the index's words. No words are no index, as in the definition `Belongs`.
#[derive(Clone, Copy)]
pub struct Bucket {
    pub words: usize,
    pub number: usize,
}

// How many words the index of a table of so many rows has.
#[tactic(auto, unfolding(crate::specs::Index::index_size))]
fn index_size(rows: usize) -> usize
    ensures { index_size rows ≡ result }
{
    if 1024 < rows {
        return 8192;
    }
    if 64 < rows {
        return 1024;
    }
    64
}

// And in a working slice of len words.
#[tactic(auto, unfolding(crate::specs::Index::index_words))]
pub fn index_words(rows: usize, len: usize) -> usize
    ensures { index_words rows len ≡ result }
{
    let size = index_size(rows);
    if len < size { 0 } else { size }
}

impl Bucket {
    // The bucket of a row in an index of so many words.
    #[tactic(auto, unfolding(crate::specs::Index::bucket))]
    pub fn of(words: usize, x: Node) -> Bucket
        ensures words { result.words ≡ words }
        ensures number { bucket words (triple x) ≡ result.number }
    {
        let hash = (x.v.0 as usize * 40503 + x.t.0 as usize * 48271 + x.e.0 as usize * 69621) / 16;
        let number = match words {
            8192 => hash % 8192,
            1024 => hash % 1024,
            _ => hash % 64,
        };
        Bucket { words, number }
    }
}

// The newest row of the bucket b, 0 for none: the words and `newest_in` hold it so.
fn head(work: &[u64], b: usize) -> usize
    requires { b < length work.now }
    ensures { get_or work.now b 0 / 65536 ≡ result }
{
    (work[b] / 65536) as usize
}

// The newest row before row i in its bucket, 0 for none as above.
fn older(work: &[u64], i: usize) -> usize
    requires { i < length work.now }
    ensures { get_or work.now i 0 % 65536 ≡ result }
{
    (work[i] % 65536) as usize
}

// The row x, from row 0 on.
fn search(rows: &Rows<'_>, x: Node) -> Option<Row>
    ensures { Finds result (shown rows.now) (triple x) }
{
    // the index is what is looked for
    for i in 0..rows.count {
        if rows.is(i, x) {
            return Some(Row((i + 2) as u16));
        }
    }
    None
}

// The row x: in its bucket of the rows' index, if there is one.
pub fn find(rows: &Rows<'_>, work: &[u64], b: Bucket, x: Node) -> Option<Row>
    requires indexed { Indexed rows.now.count (viewed rows.now) work.now }
    requires belongs { Belongs (length rows.now.vs.now) (length work.now) (triple x) b.words b.number }
    ensures { Finds result (shown rows.now) (triple x) }
{
    if b.words == 0 {
        return search(rows, x);
    }
    let mut k = head(work, b.number);
    // a walk along links, from newer rows to older: no index is counted
    while 0 < k {
        let i = k - 2;
        if rows.is(i, x) {
            return Some(Row(k as u16));
        }
        k = older(work, i);
    }
    None
}

// Enters row i into its bucket.
pub fn enter(work: &mut [u64], b: Bucket, i: usize)
    requires linkable { Linkable b.words i work.old }
    requires inside { 0 < b.words → b.number < b.words }
    ensures { (r : Triple) → bucket b.words r ≡ b.number → enter b.words i r work.old ≡ work.new }
{
    if b.words == 0 {
        return;
    }
    let k = b.number;
    let newest = work[k] / 65536;
    work[i] = work[i] / 65536 * 65536 + newest;
    work[k] = (i as u64 + 2) * 65536 + work[k] % 65536;
}
