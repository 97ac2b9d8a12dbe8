// The circuit call: a text becomes a net, the net's gates a system in the lent table, and one output is judged by it. Each clause of a call is one fact.
#![tactic(auto)]

mod output;

ghost use Rattle.std.specs.Prelude.{◌≡◌, true, length, replicate};
ghost use Rattle.table.specs.Views.{slices_of, SameLoans};
ghost use Rattle.aiger.specs.Net as net;
ghost use Rattle.aiger.specs.Circuit.{circuit_of};
ghost use Rattle.verdicts.specs.Calls.{lengths_fine, judge, circuit_call};
ghost use Rattle.endings.specs.Answers.{Answered, judged_of};
ghost use Rattle.circuit.specs.Inner.{Counted, IfText};

use crate::output::output;
use aiger::net::{Net, Places};
use checks::check::check_table;
use endings::{Refusal, Verdict, ended};
use nets::read_net;
use table::Table;

// Whether the three slices have one length, and are not too long.
#[tactic(auto, unfolding(verdicts::specs::Calls::lengths_fine))]
fn lengths_fine(t: &Table<'_>) -> bool
    ensures { lengths_fine (slices_of t.now) ≡ result }
{
    let rows = t.vs.len();
    rows <= 8192 && t.ts.len() == rows && t.es.len() == rows
}

// The verdict for output o of a net, from an empty table: any empty table is sound, and the check readies the working slice.
fn judge(net: &Net<'_>, t: &mut Table<'_>, o: usize, pattern: &mut [u8]) -> Result<Verdict, Refusal>
    requires { lengths_fine (slices_of t.old) ≡ true }
    ensures answered { Answered (judge (circuit_of net.now) (slices_of t.old) o pattern.old) (judged_of result) (slices_of t.new) pattern.new }
    ensures count { Counted result t.old.count t.new.count }
    ensures text { IfText (λ _. ⊥) result }
    ensures same { SameLoans t.old t.new }
    ensures same_length { length t.new.work.now ≡ length t.old.work.now }
{
    let l = *net.outputs().get(o).ok_or(Refusal::NoOutput)?;
    let inputs = net.inputs();
    if pattern.len() != inputs.len() {
        return Err(Refusal::PatternLength);
    }
    let n = net.sizes.vars;
    t.count = 0;
    check_table(n as usize, t)?;
    let made = output(t, n, net.gates(), l);
    Ok(ended(t, n, made, inputs, pattern))
}

// The text is read only for a table of fine lengths.
#[tactic(auto, unfolding(verdicts::specs::Calls::circuit_call))]
fn judge_text(
    text: &[u8],
    t: &mut Table<'_>,
    o: usize,
    pattern: &mut [u8],
) -> Result<Verdict, Refusal>
    ensures answered { Answered (circuit_call text.now (slices_of t.old) o pattern.old) (judged_of result) (slices_of t.new) pattern.new }
    ensures count { Counted result t.old.count t.new.count }
    ensures text { IfText (λ w. net.circuit text.now ≡ net.refused w) result }
    ensures same { SameLoans t.old t.new }
    ensures same_length { length t.new.work.now ≡ length t.old.work.now }
{
    if !lengths_fine(t) {
        return Err(Refusal::Table(table::Refusal::OutOfRange));
    }
    let mut places = Places::new();
    let (net, _) = read_net(text, &mut places)?;
    judge(&net, t, o, pattern)
}

// The circuit call. The count of the table's rows is not read, since the call starts from an empty table.
pub fn circuit(
    text: &[u8],
    t: &mut Table<'_>,
    o: usize,
    pattern: &mut [u8],
) -> Result<Verdict, Refusal>
    ensures answered { Answered (circuit_call text.now (slices_of t.old) o pattern.old) (judged_of result) (slices_of t.new) pattern.new }
    ensures count { Counted result t.old.count t.new.count }
    ensures text { IfText (λ w. net.circuit text.now ≡ net.refused w) result }
    ensures same { SameLoans t.old t.new }
    ensures work_after { t.new.work.now ≡ replicate (length t.old.work.now) 0 }
{
    let verdict = judge_text(text, t, o, pattern);
    t.work.fill(0);
    verdict
}
