// For the crate above only, the written steps of the normal form: what is left of a system once the leads below a variable are skipped. The working slice has a table of it
// where it is long enough, in the n words behind the remembered results; else the leads are walked through.
#![tactic(auto)]

ghost use Rattle.std.specs.Prelude.{◌<◌};
ghost use Rattle.table.specs.Lent.{Numbered};
ghost use Rattle.table.specs.Memory.{Live};
ghost use Rattle.table.specs.Views.{viewed, shown};
ghost use Rattle.leads.specs.Inner.{Skips, Past, System, Walking, Reducing, Filled};

use table::memory::words_used;
use table::rows::Rows;
use table::{Row, Var};

// What is left of the system f, lead by lead.
fn walk(rows: &Rows<'_>, n: u16, f: Row, v: Var) -> Row
    requires { Walking n rows.now.count (viewed rows.now) f.0 v.0 }
    ensures { Skips n (shown rows.now) v.0 f.0 result.0 }
{
    let mut g = f;
    let mut a = rows.row(n, g);
    // a walk along then-parts: no index is counted
    while a.v < v {
        g = a.t;
        a = rows.row(n, g);
    }
    g
}

// What is left of the system f once the leads below v are skipped.
pub fn lead_at(rows: &Rows<'_>, work: &[u64], n: u16, f: Row, v: Var) -> Row
    requires { (Reducing n rows.now.count (viewed rows.now) work.now f.0) × (v.0 < n) }
    ensures { Skips n (shown rows.now) v.0 f.0 result.0 }
{
    if v <= rows.row(n, f).v {
        return f;
    }
    let from = words_used(rows.vs.len(), work.len());
    if work.len() - from < n as usize {
        return walk(rows, n, f, v);
    }
    Row(work[from + v.0 as usize] as u16)
}

// What is left of g, whose leads are at v or behind it, once a lead at v is skipped, too.
fn past(rows: &Rows<'_>, n: u16, g: Row, v: Var) -> Row
    requires { Numbered rows.now.count (viewed rows.now) g.0 }
    ensures { Past n (shown rows.now) v.0 g.0 result.0 }
{
    let a = rows.row(n, g);
    if v < a.v {
        return g;
    }
    a.t
}

// Writes the table of the system f, where there is room for it.
pub fn fill(rows: &Rows<'_>, work: &mut [u64], n: u16, f: Row)
    requires { (Live n rows.now.count (viewed rows.now) work.old) × (System rows.now.count f.0) }
    ensures { Filled n rows.now.count (viewed rows.now) work.old work.new f.0 }
{
    let from = words_used(rows.vs.len(), work.len());
    if work.len() - from < n as usize {
        return;
    }
    let mut g = f;
    for v in 0..n {
        work[from + v as usize] = g.0 as u64;
        g = past(rows, n, g, Var(v));
    }
}
