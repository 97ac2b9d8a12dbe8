// For the crates above: finding a one. At each row the else-part is followed unless it is 0.
ghost use Rattle.std.specs.Prelude.{◌≡◌, ◌+◌, ◌<◌, length, replicate};
ghost use Rattle.steps.specs.One.{one};
ghost use Rattle.table.specs.Views.{viewed, shown};
ghost use Rattle.assignments.specs.Bytes.{bytes_of};
ghost use Rattle.assignments.specs.Inner.{Lasting};

use table::Row;
use table::rows::Rows;

// Follows the rows from the number f on, and sets to 1 what is 1 in the one that is found; the other bytes are zeros.
fn follow(rows: &Rows<'_>, f: Row, bytes: &mut [u8])
    requires lasting { Lasting rows.now.count (viewed rows.now) bytes.old }
    requires used { f.0 < rows.now.count + 2 }
    requires zeros { bytes.old ≡ replicate (length bytes.old) 0 }
    ensures { bytes.new ≡ bytes_of (length bytes.old) (one (shown rows.now) f.0) }
{
    let mut k = f;
    // a walk from row to row: no index is counted
    while 2 <= k.0 {
        let x = rows.node(k.0 as usize - 2);
        if x.e.0 == 0 {
            bytes[x.v.0 as usize] = 1;
            k = x.t;
        } else {
            k = x.e;
        }
    }
}

// The one of the number f, as bytes.
pub fn one_of(rows: &Rows<'_>, f: Row, bytes: &mut [u8])
    requires lasting { Lasting rows.now.count (viewed rows.now) bytes.old }
    requires used { f.0 < rows.now.count + 2 }
    ensures { bytes.new ≡ bytes_of (length bytes.old) (one (shown rows.now) f.0) }
{
    bytes.fill(0);
    follow(rows, f, bytes);
}
