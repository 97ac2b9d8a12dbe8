// For the program: what it prints of an output or a refusal, as a line of text. Nothing here is a call of the scope.
#![tactic(auto)]

mod line;

ghost use Rattle.std.specs.Prelude.{◌≡◌, length, IfOk, OnErr};
ghost use Rattle.table.specs.Views.{slices_of, SameLoans, SameLengths};
ghost use Rattle.aiger.specs.Circuit.{circuit_of};
ghost use Rattle.aiger.specs.Net as net;
ghost use Rattle.outputs.specs.Inner.{Built, OutputOf};
ghost use Rattle.printing.specs.Inner.{NoneFits, Prints, PrintsRefusal};

pub use crate::line::Line;
use crate::line::{block, refused, verdict_alone};
use aiger::net::Net;
use aiger::refusal::Refusal;
use outputs::judge;
use table::{NoRoom, Row, Table};

// The block of output o, from the system of a net or from the want of room for it. Where there is none, nothing is asked, and the text is that of every circuit none of whose
// outputs fits.
pub fn print(
    t: &mut Table<'_>,
    made: Result<(&Net<'_>, Row), NoRoom>,
    o: usize,
    pattern: &mut [u8],
) -> Line
    requires output { IfOk made (λ m. OutputOf (slices_of t.old) m.0.now t.old.count m.1.0 o (length pattern.old)) }
    ensures prints { IfOk made.entry (λ m. Prints (circuit_of m.0.now) (slices_of t.old) o pattern.old result.bytes) }
    ensures prints_full { OnErr made.entry ((c : net.Net) → NoneFits c (slices_of t.old) → Prints c (slices_of t.old) o pattern.old result.bytes) }
    ensures stands { IfOk made.entry (λ m. Built (slices_of t.new) m.0.now t.new.count m.1.0) }
    ensures stands_full { OnErr made.entry ((c : net.Net) → NoneFits c (slices_of t.old) → NoneFits c (slices_of t.new)) }
    ensures count { t.new.count ≡ t.old.count }
    ensures same { SameLoans t.old t.new }
    ensures lengths { SameLengths t.old t.new }
{
    match made {
        Ok((net, system)) => {
            let verdict = judge(net, t, system, o, pattern);
            block(verdict, o, pattern)
        }
        Err(NoRoom) => verdict_alone(2, o),
    }
}

// The line of a refused text.
pub fn print_refusal(why: Refusal) -> Line
    ensures { PrintsRefusal why result.bytes }
{
    refused(u16::from(why))
}
