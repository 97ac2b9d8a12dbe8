// For the program: every output of a circuit is judged from one system, which is built once. Nothing here is a call of the scope; each verdict is the circuit
// call's, from an empty table of the same size.
#![tactic(auto)]

ghost use Rattle.std.specs.Prelude.{◌≡◌, length, take};
ghost use Rattle.table.specs.Lent.{Lent};
ghost use Rattle.table.specs.Made.{made_of};
ghost use Rattle.table.specs.Views.{slices_of, SameLoans, SameLengths};
ghost use Rattle.aiger.specs.Answers.{literals_in};
ghost use Rattle.aiger.specs.Circuit.{circuit_of};
ghost use Rattle.endings.specs.Answers.{judged};
ghost use Rattle.outputs.specs.Inner.{Builds, output_from, FromAsked, Ended, OutputOf, JudgedAs};

use aiger::lines::Lit;
use aiger::net::Net;
use checks::check::check_table;
use endings::Verdict;
use endings::pattern::write_pattern;
use gates::system::{build, literal};
use reduction::reduce;
use table::{NoRoom, Row, Table};

// The system of all gates, from row 0 on.
pub fn system(net: &Net<'_>, t: &mut Table<'_>) -> Result<Row, NoRoom>
    requires { Lent 0 (slices_of t.old) }
    ensures builds { Builds (made_of result t.new.count) (slices_of t.old) (slices_of t.new) net.now }
    ensures same { SameLoans t.old t.new }
    ensures lengths { SameLengths t.old t.new }
{
    let n = net.sizes.vars;
    t.count = 0;
    let Ok(()) = check_table(n as usize, t) else {
        return Err(NoRoom); // never: an empty table in range is sound
    };
    build(t, n, net.gates())
}

// The output of the literal l, from the system: a pattern only where it can be 1.
fn judge_from(
    t: &mut Table<'_>,
    n: u16,
    l: Lit,
    system: Row,
    inputs: &[Lit],
    pattern: &mut [u8],
) -> Verdict
    requires { FromAsked n t.old.count (slices_of t.old) t.old.work.now l.0 system.0 (literals_in inputs.now) (length pattern.old) }
    ensures ended { Ended (output_from n l.0 system.0) n (take (length pattern.old) (literals_in inputs.now)) (judged result) t.old.count
        (slices_of t.old) (slices_of t.new) pattern.old pattern.new }
    ensures same { SameLoans t.old t.new }
    ensures same_length { length t.new.work.now ≡ length t.old.work.now }
{
    let Ok(p) = literal(t, n, l) else {
        return Verdict::RoomOut; // none for the literal
    };
    let Ok(k) = reduce(t, n, p, system) else {
        return Verdict::RoomOut; // none for its normal form
    };
    if k.0 == 0 {
        return Verdict::Never(t.count);
    }
    write_pattern(&t.rows(), n, k, inputs, pattern);
    Verdict::Can(t.count)
}

// The verdict for output o, from the system's rows: the check enters them anew, so that nothing is remembered of rows behind them, and they are again the rows in use at the end.
pub fn judge(net: &Net<'_>, t: &mut Table<'_>, system: Row, o: usize, pattern: &mut [u8]) -> Verdict
    requires { OutputOf (slices_of t.old) net.now t.old.count system.0 o (length pattern.old) }
    ensures judged { JudgedAs (circuit_of net.now) o (judged result) t.old.count
        (slices_of t.old) (slices_of t.new) pattern.old pattern.new }
    ensures count { t.new.count ≡ t.old.count }
    ensures same { SameLoans t.old t.new }
    ensures lengths { SameLengths t.old t.new }
{
    let n = net.sizes.vars;
    let count = t.count;
    let Ok(()) = check_table(n as usize, t) else {
        return Verdict::RoomOut; // never: the system's rows are sound
    };
    let verdict = judge_from(t, n, net.outputs()[o], system, net.inputs(), pattern);
    t.count = count;
    verdict
}
