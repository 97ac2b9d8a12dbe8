// The value of a number at an assignment: the rows are evaluated from row 0 on, each once.
ghost use Rattle.std.specs.Prelude.{◌≡◌, ◌+◌, ◌<◌, ◌≤◌, length};
ghost use Rattle.steps.specs.Rows.{value, bit};
ghost use Rattle.table.specs.Views.{viewed, shown};
ghost use Rattle.assignments.specs.Bytes.{assigned};
ghost use Rattle.assignments.specs.Inner.{Lasting, bit_of, Evaluated, Evaluable};

use table::Row;
use table::rows::Rows;

// The value of the number k, where the values of the rows stand in a slice.
#[tactic(auto, unfolding(crate::specs::Inner::bit_of))]
fn bit_of(values: &[u8], k: Row) -> u8
    requires { k.0 < length values.now + 2 }
    ensures { bit_of values.now k.0 ≡ result }
{
    if k.0 < 2 {
        return k.0 as u8;
    }
    values[k.0 as usize - 2]
}

// The value of row i: x_v·t + e.
fn row_value(rows: &Rows<'_>, i: usize, bytes: &[u8], values: &[u8]) -> u8
    requires { Evaluable rows.now.count i (viewed rows.now) bytes.now values.now }
    ensures { bit (value (assigned bytes.now) (shown rows.now) (i + 2)) ≡ result }
{
    let x = rows.node(i);
    let e = bit_of(values, x.e);
    if bytes[x.v.0 as usize] != 1 {
        return e;
    }
    let t = bit_of(values, x.t);
    if t == e { 0 } else { 1 }
}

// The values of the first rows.
fn row_values(rows: &Rows<'_>, upto: usize, bytes: &[u8], values: &mut [u8])
    requires lasting { Lasting rows.now.count (viewed rows.now) bytes.now }
    requires upto { upto ≤ rows.now.count }
    requires long { length values.old ≡ 8192 }
    ensures { Evaluated rows.now.count upto (viewed rows.now) bytes.now values.new }
{
    // by index, at which the row is read and its value written
    for i in 0..upto {
        values[i] = row_value(rows, i, bytes, values);
    }
}

// The value of the number f.
#[tactic(auto, using(crate::proofs::Values::value_const))]
pub fn value_at(rows: &Rows<'_>, bytes: &[u8], f: Row) -> bool
    requires lasting { Lasting rows.now.count (viewed rows.now) bytes.now }
    requires used { f.0 < rows.now.count + 2 }
    ensures { value (assigned bytes.now) (shown rows.now) f.0 ≡ result }
{
    if f.0 < 2 {
        return f.0 == 1;
    }
    // a place for every row that a table can hold: the project uses no heap
    let mut values = [0u8; 8192];
    let i = f.0 as usize - 2;
    row_values(rows, i + 1, bytes, &mut values);
    values[i] == 1
}
