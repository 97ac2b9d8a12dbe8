// The calls as C sees them, declared in include/mg.h: each makes the public call of its name and shows the answer. The promise is the public call's own. Parameters are C's:
// slices and numbers one by one, of which each makes a `Table` or a `View`.
#![tactic(auto)]

ghost use Rattle.std.specs.Prelude.{◌≡◌, ◌&&◌, length, replicate};
ghost use Rattle.std.specs.Bool.{xor};
ghost use Rattle.steps.specs.Table.{slices};
ghost use Rattle.table.specs.Calls.{left, Does};
ghost use Rattle.numbers.specs.Calls.{variable_call, value_call, one_call, one_left, OneMeans};
ghost use Rattle.pairs.specs.Calls.{sum_call, product_call, Answered};
ghost use Rattle.normal.specs.Calls.{equation_call, Adds, normal_call, Reduced};
ghost use Rattle.aiger.specs.Answers.{text_call};
ghost use Rattle.verdicts.specs.Calls.{circuit_call};
ghost use Rattle.endings.specs.Answers as judged;
ghost use Rattle.shown.specs.Seen.{Shows, show_made, show_value, show_one, show_verdict, show_counts};

use table::rows::View;
use table::{Row, Table, Var};

// The variable x_v.
#[unsafe(no_mangle)]
pub extern "C" fn mg_variable(
    n: usize,
    vs: &mut [u16],
    ts: &mut [u16],
    es: &mut [u16],
    count: usize,
    work: &mut [u64],
    v: u16,
    row: &mut u16,
    used: &mut usize,
) -> u32
    ensures shows { Shows show_made
        (λ r. variable_call n count (slices vs.old ts.old es.old) v ≡
        left r (slices vs.new ts.new es.new))
        result (row.old, used.old) (row.new, used.new) }
    ensures work_after { work.new ≡ replicate (length work.old) 0 }
{
    let mut t = Table {
        vs,
        ts,
        es,
        count,
        work,
    };
    let r = numbers::variable(n, &mut t, Var(v));
    shown::made(r, t.count, row, used)
}

// The sum f + g.
#[unsafe(no_mangle)]
pub extern "C" fn mg_sum(
    n: usize,
    vs: &mut [u16],
    ts: &mut [u16],
    es: &mut [u16],
    count: usize,
    work: &mut [u64],
    f: u16,
    g: u16,
    row: &mut u16,
    used: &mut usize,
) -> u32
    ensures shows { Shows show_made
        (λ r. Answered xor (sum_call n count (slices vs.old ts.old es.old) f g) r count
        (slices vs.old ts.old es.old)
        (slices vs.new ts.new es.new) f g)
        result (row.old, used.old) (row.new, used.new) }
    ensures work_after { work.new ≡ replicate (length work.old) 0 }
{
    let mut t = Table {
        vs,
        ts,
        es,
        count,
        work,
    };
    let r = pairs::sum(n, &mut t, Row(f), Row(g));
    shown::made(r, t.count, row, used)
}

// The product f·g.
#[unsafe(no_mangle)]
pub extern "C" fn mg_product(
    n: usize,
    vs: &mut [u16],
    ts: &mut [u16],
    es: &mut [u16],
    count: usize,
    work: &mut [u64],
    f: u16,
    g: u16,
    row: &mut u16,
    used: &mut usize,
) -> u32
    ensures shows { Shows show_made
        (λ r. Answered ◌&&◌ (product_call n count (slices vs.old ts.old es.old) f g) r count
        (slices vs.old ts.old es.old)
        (slices vs.new ts.new es.new) f g)
        result (row.old, used.old) (row.new, used.new) }
    ensures work_after { work.new ≡ replicate (length work.old) 0 }
{
    let mut t = Table {
        vs,
        ts,
        es,
        count,
        work,
    };
    let r = pairs::product(n, &mut t, Row(f), Row(g));
    shown::made(r, t.count, row, used)
}

// The value of f at an assignment.
#[unsafe(no_mangle)]
pub extern "C" fn mg_value(
    n: usize,
    vs: &[u16],
    ts: &[u16],
    es: &[u16],
    count: usize,
    work: &mut [u64],
    f: u16,
    bytes: &[u8],
    value: &mut u8,
) -> u32
    ensures shows { Shows show_value
        (λ r. value_call n count (slices vs.now ts.now es.now) f bytes.now ≡ r)
        result value.old value.new }
    ensures work_after { work.new ≡ replicate (length work.old) 0 }
{
    let view = View { vs, ts, es, count };
    let r = numbers::value(n, &view, work, Row(f), bytes);
    shown::value(r, value)
}

// A one of f: the least.
#[unsafe(no_mangle)]
pub extern "C" fn mg_one(
    n: usize,
    vs: &[u16],
    ts: &[u16],
    es: &[u16],
    count: usize,
    work: &mut [u64],
    f: u16,
    bytes: &mut [u8],
) -> u32
    ensures shows { Shows show_one
        (λ r. (one_call n count (slices vs.now ts.now es.now) f bytes.old ≡ one_left r bytes.new)
        × OneMeans r count (slices vs.now ts.now es.now) f bytes.new)
        result tt tt }
    ensures work_after { work.new ≡ replicate (length work.old) 0 }
{
    let view = View { vs, ts, es, count };
    let r = numbers::one(n, &view, work, Row(f), bytes);
    shown::one(r)
}

// The system with the equation x_lead + tail = 0 added.
#[unsafe(no_mangle)]
pub extern "C" fn mg_equation(
    n: usize,
    vs: &mut [u16],
    ts: &mut [u16],
    es: &mut [u16],
    count: usize,
    work: &mut [u64],
    lead: u16,
    system: u16,
    tail: u16,
    row: &mut u16,
    used: &mut usize,
) -> u32
    ensures shows { Shows show_made
        (λ r. Does (Adds count (slices vs.old ts.old es.old) lead system tail)
        (equation_call n count (slices vs.old ts.old es.old) lead system tail) r
        (slices vs.new ts.new es.new))
        result (row.old, used.old) (row.new, used.new) }
    ensures work_after { work.new ≡ replicate (length work.old) 0 }
{
    let mut t = Table {
        vs,
        ts,
        es,
        count,
        work,
    };
    let r = normal::equation(n, &mut t, Var(lead), Row(system), Row(tail));
    shown::made(r, t.count, row, used)
}

// The normal form of p by a system.
#[unsafe(no_mangle)]
pub extern "C" fn mg_normal_form(
    n: usize,
    vs: &mut [u16],
    ts: &mut [u16],
    es: &mut [u16],
    count: usize,
    work: &mut [u64],
    p: u16,
    system: u16,
    row: &mut u16,
    used: &mut usize,
) -> u32
    ensures shows { Shows show_made
        (λ r. Does (Reduced count (slices vs.old ts.old es.old) p system)
        (normal_call n count (slices vs.old ts.old es.old) p system) r
        (slices vs.new ts.new es.new))
        result (row.old, used.old) (row.new, used.new) }
    ensures work_after { work.new ≡ replicate (length work.old) 0 }
{
    let mut t = Table {
        vs,
        ts,
        es,
        count,
        work,
    };
    let r = normal::normal_form(n, &mut t, Row(p), Row(system));
    shown::made(r, t.count, row, used)
}

// The verdict for one output of a circuit's text.
#[unsafe(no_mangle)]
pub extern "C" fn mg_circuit(
    text: &[u8],
    vs: &mut [u16],
    ts: &mut [u16],
    es: &mut [u16],
    work: &mut [u64],
    o: usize,
    pattern: &mut [u8],
    verdict: &mut u32,
    rows: &mut usize,
) -> u32
    ensures shows { Shows show_verdict
        (λ r. judged.Answered (circuit_call text.now (slices vs.old ts.old es.old) o pattern.old) r
        (slices vs.new ts.new es.new) pattern.new)
        result (verdict.old, rows.old) (verdict.new, rows.new) }
    ensures work_after { work.new ≡ replicate (length work.old) 0 }
{
    let mut t = Table {
        vs,
        ts,
        es,
        count: 0,
        work,
    };
    let r = circuit::circuit(text, &mut t, o, pattern);
    shown::verdict(r, verdict, rows)
}

// I and O of a circuit's text.
#[unsafe(no_mangle)]
pub extern "C" fn mg_text(text: &[u8], inputs: &mut usize, outputs: &mut usize) -> u32
    ensures { Shows show_counts
        (λ r. r ≡ text_call text.now)
        result (inputs.old, outputs.old) (inputs.new, outputs.new) }
{
    let r = nets::text(text);
    shown::counts(r, inputs, outputs)
}
