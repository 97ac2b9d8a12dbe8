// For the crates above: remembered results, in the words of the working slice behind the index.
ghost use Rattle.std.specs.Prelude.{◌≡◌, ◌+◌, ◌*◌, ◌-◌, ◌<◌, length, set};
ghost use Rattle.table.specs.Memory.{memory_size, reach, code_of, key_of, Size, Place, Recalls};

use crate::index::index_words;
use crate::{Row, Table};

// The operations whose results are remembered.
#[derive(Clone, Copy)]
pub enum Operation {
    Sum = 1,
    Product = 2,
    NormalForm = 3,
}

// The word that may remember a result, and the key under which it does.
#[derive(Clone, Copy)]
pub struct Slot {
    pub at: usize,
    pub key: u64,
}

// The key of an operation on f and g.
pub fn key(op: Operation, f: Row, g: Row) -> u64
    ensures { key_of (code_of op) f.0 g.0 ≡ result }
{
    (op as u64 * 65536 + f.0 as u64) * 65536 + g.0 as u64
}

// How many words remember results, of so many behind the index, for a table of so many rows.
#[tactic(auto, unfolding(crate::specs::Memory::memory_size))]
fn memory_size(rows: usize, free: usize) -> usize
    ensures { memory_size rows free ≡ result }
{
    if free < 128 {
        return 0;
    }
    if free < 2048 {
        return 128;
    }
    if rows <= 64 {
        return 128;
    }
    if free < 16384 {
        return 2048;
    }
    if rows <= 1024 {
        return 2048;
    }
    16384
}

// The word for a key among m.
fn word(m: usize, key: u64) -> usize
    ensures { Size m → result < m }
{
    let hash = (key % 65536 * 40503 + key / 65536 % 262144 * 48271) / 16;
    match m {
        16384 => (hash % 16384) as usize,
        2048 => (hash % 2048) as usize,
        _ => (hash % 128) as usize,
    }
}

impl Slot {
    // Where the result under the key stands, for a table of so many rows and a working slice of len words; where nothing is remembered, behind its end, as `Place` says.
    pub fn of(rows: usize, len: usize, key: u64) -> Slot
        ensures place { Place rows len result.at }
        ensures key { result.key ≡ key }
    {
        let h = index_words(rows, len);
        let m = memory_size(rows, len - h);
        let at = if m == 0 { len } else { h + word(m, key) };
        Slot { at, key }
    }
}

// The result that is remembered.
pub fn recall(work: &[u64], slot: Slot) -> Option<Row>
    ensures { Recalls result work.now slot.at slot.key }
{
    let w = *work.get(slot.at)?;
    if w / 65536 == slot.key {
        Some(Row((w % 65536) as u16))
    } else {
        None
    }
}

impl Table<'_> {
    // Where the result under the key stands.
    pub fn slot(&self, key: u64) -> Slot
        ensures place { Place (length self.now.vs.now) (length self.now.work.now) result.at }
        ensures key { result.key ≡ key }
    {
        Slot::of(self.vs.len(), self.work.len(), key)
    }

    // The result that is remembered there.
    pub fn recall(&self, slot: Slot) -> Option<Row>
        ensures { Recalls result self.now.work.now slot.at slot.key }
    {
        recall(self.work, slot)
    }
}

// Remembers the result k.
pub fn remember(work: &mut [u64], slot: Slot, k: Row)
    requires { slot.key < 65536 * 65536 * 4 }
    ensures { set work.old slot.at (slot.key * 65536 + k.0) ≡ work.new }
{
    if slot.at < work.len() {
        work[slot.at] = slot.key * 65536 + k.0 as u64;
    }
}

// How many words of the working slice a table of so many rows uses.
pub fn words_used(rows: usize, len: usize) -> usize
    ensures { reach rows len ≡ result }
{
    let h = index_words(rows, len);
    h + memory_size(rows, len - h)
}
