// The calls equation and normal form. Each clause of a call is one fact.
#![tactic(auto)]

ghost use Rattle.std.specs.Prelude.{◌≡◌, ◌<◌, ◌+◌, length, replicate, OnErr};
ghost use Rattle.table.specs.Answers.{answered_of};
ghost use Rattle.table.specs.Calls.{Does};
ghost use Rattle.table.specs.Tables.{LiveIn};
ghost use Rattle.table.specs.Views.{shown, slices_of, SameLoans};
ghost use Rattle.checks.specs.Steps.{StepsTo};
ghost use Rattle.normal.specs.Calls.{Questioned, in_order, equation_checked, equation_call, Adds, normal_checked, normal_call, Reduced};

use checks::call::call;
use reduction::reduce;
use table::rows::{Node, Rows};
use table::{Refusal, Row, Table, Var};

// What both calls ask of a number and a system: they are in use, and the system is not 0.
fn questions(rows: &Rows<'_>, k: Row, system: Row) -> Result<(), Refusal>
    ensures { Questioned result rows.now.count k.0 system.0 }
{
    if !rows.has(k) || !rows.has(system) {
        return Err(Refusal::NotInUse);
    }
    if system.0 == 0 {
        return Err(Refusal::SystemZero);
    }
    Ok(())
}

// Whether there is such a lead, and it is before the system's leads and the tail's root.
fn in_order(rows: &Rows<'_>, n: u16, lead: Var, system: Row, tail: Row) -> bool
    requires system { system.0 < rows.now.count + 2 }
    requires tail { tail.0 < rows.now.count + 2 }
    ensures { in_order n (shown rows.now) lead.0 system.0 tail.0 ≡ result }
{
    lead.0 < n && lead < rows.row(n, system).v && lead < rows.row(n, tail).v
}

// The system with the equation x_lead + tail = 0 added.
pub fn equation(
    n: usize,
    t: &mut Table<'_>,
    lead: Var,
    system: Row,
    tail: Row,
) -> Result<Row, Refusal>
    ensures does { Does (Adds t.old.count (slices_of t.old) lead.0 system.0 tail.0)
        (equation_call n t.old.count (slices_of t.old) lead.0 system.0 tail.0)
        (answered_of result t.new.count) (slices_of t.new) }
    ensures count { OnErr result (t.new.count ≡ t.old.count) }
    ensures same { SameLoans t.old t.new }
    ensures work_after { t.new.work.now ≡ replicate (length t.old.work.now) 0 }
{
    let steps = move |t: &mut Table<'_>, n: u16| -> Result<Row, Refusal>
        requires { LiveIn n t.old }
        ensures { StepsTo (equation_checked n t.old.count (slices_of t.old) lead.0 system.0 tail.0) result t.old t.new }
    {
        let rows = t.rows();
        questions(&rows, tail, system)?;
        if !in_order(&rows, n, lead, system, tail) {
            return Err(Refusal::BadVariable);
        }
        Ok(t.make(Node {
            v: lead,
            t: system,
            e: tail,
        })?)
    };
    call(n, t, steps)
}

// The normal form of p by the system f.
pub fn normal_form(n: usize, t: &mut Table<'_>, p: Row, f: Row) -> Result<Row, Refusal>
    ensures does { Does (Reduced t.old.count (slices_of t.old) p.0 f.0)
        (normal_call n t.old.count (slices_of t.old) p.0 f.0)
        (answered_of result t.new.count) (slices_of t.new) }
    ensures count { OnErr result (t.new.count ≡ t.old.count) }
    ensures same { SameLoans t.old t.new }
    ensures work_after { t.new.work.now ≡ replicate (length t.old.work.now) 0 }
{
    let steps = move |t: &mut Table<'_>, n: u16| -> Result<Row, Refusal>
        requires { LiveIn n t.old }
        ensures { StepsTo (normal_checked n t.old.count (slices_of t.old) p.0 f.0) result t.old t.new }
    {
        questions(&t.rows(), p, f)?;
        Ok(reduce(t, n, p, f)?)
    };
    call(n, t, steps)
}
