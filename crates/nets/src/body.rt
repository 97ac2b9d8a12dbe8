// The lines after the header, read into lent places that hold any net. A mark is kept for each variable that is defined. Each loop counts k, which is the place in the array and tells the line.
// Text and position stand apart as in aiger's numbers.rt.
ghost use Rattle.std.specs.Prelude.{◌≡◌, ◌≤◌, true, List, [], drop, ℕ, length};
ghost use Rattle.aiger.specs.Form as form;
ghost use Rattle.aiger.specs.Net as net;
ghost use Rattle.aiger.specs.Answers.{lits_of, sizes_of, literals_in};
ghost use Rattle.aiger.specs.Circuit.{net_of};
ghost use Rattle.aiger.specs.Marked.{Marks, number_read, gate_read, placed, literals_read, InputsRead, GatesRead, checked_of};

use crate::defined::Defined;
use aiger::header::Sizes;
use aiger::lines::{Gate, Lit, line_of_gate, line_of_number};
use aiger::net::{Net, Places};
use aiger::refusal::Refusal;

// Whether a gate may follow the one of left `last`.
fn in_order(last: Lit, g: Gate) -> bool
    ensures { result ≡ net.in_order last.0 (lits_of g) }
{
    let v = g.left.0 / 2;
    last < g.left && g.right0.0 / 2 < v && g.right1.0 / 2 < v
}

// The number on line `n`, with the next position. The scope names this form for a read: `let .. else` takes number and position apart, else returns the refusal.
fn number_line(s: &[u8], at: usize, n: usize) -> Result<(u16, usize), Refusal>
    ensures { number_read s.now result ≡ net.on_line n form.number (drop at s.now) }
{
    let line = line_of_number(s, at);
    let Ok((number, next)) = line else {
        return Err(Refusal::Form(line.unwrap_err(), n));
    };
    Ok((number, next))
}

// The gate on line `n`, with the next position. Like the number, but held to another reader of the definition.
fn gate_line(s: &[u8], at: usize, n: usize) -> Result<(Gate, usize), Refusal>
    ensures { gate_read s.now result ≡ net.on_line n form.gate (drop at s.now) }
{
    let line = line_of_gate(s, at);
    let Ok((gate, next)) = line else {
        return Err(Refusal::Form(line.unwrap_err(), n));
    };
    Ok((gate, next))
}

// The input lines, from line 2 on, into the first `count` places.
#[tactic(auto, using(aiger::proofs::LiteralLines::inputs_stop, aiger::proofs::LiteralLines::inputs_defined, aiger::proofs::LiteralLines::inputs_next, aiger::proofs::LiteralLines::inputs_end))]
fn read_inputs(
    s: &[u8],
    from: usize,
    count: usize,
    inputs: &mut [Lit; 1024],
    defined: &mut Defined,
) -> Result<usize, Refusal>
    requires few { count ≤ 1024 }
    requires none { Marks defined.old.marks [] }
    ensures same { defined.new.highest ≡ defined.old.highest }
    ensures read { InputsRead s.now from defined.old.highest count defined.new.marks (placed inputs.new result) }
{
    let mut at = from;
    for k in 0..count {
        let (number, next) = number_line(s, at, 2 + k)?;
        let l = Lit(number);
        if !defined.allows(l) {
            return Err(Refusal::Literal(2 + k));
        }
        inputs[k] = l;
        defined.define(l);
        at = next;
    }
    Ok(at)
}

// The output lines, from line n on, into the first `count` places.
#[tactic(auto, using(aiger::proofs::LiteralLines::outputs_stop, aiger::proofs::LiteralLines::outputs_next, aiger::proofs::LiteralLines::outputs_end))]
fn read_outputs(
    s: &[u8],
    from: usize,
    n: usize,
    count: usize,
    outputs: &mut [Lit; 1024],
) -> Result<usize, Refusal>
    requires line { n ≤ 4096 }
    requires few { count ≤ 1024 }
    ensures { literals_read s.now count (placed outputs.new result) ≡ net.output_lines n count [] (drop from s.now) }
{
    let mut at = from;
    for k in 0..count {
        let (number, next) = number_line(s, at, n + k)?;
        outputs[k] = Lit(number);
        at = next;
    }
    Ok(at)
}

// The gate lines, from line n on, into the first `count` places.
#[tactic(auto, using(aiger::proofs::GateLines::rights_low))]
fn read_gates(
    s: &[u8],
    from: usize,
    n: usize,
    count: usize,
    gates: &mut [Gate; 1024],
    defined: &mut Defined,
) -> Result<usize, Refusal>
    requires line { n ≤ 4096 }
    requires few { count ≤ 1024 }
    ensures same { defined.new.highest ≡ defined.old.highest }
    ensures read { (ls : List ℕ) → Marks defined.old.marks ls →
        GatesRead s.now from defined.old.highest n count ls defined.new.marks (placed gates.new result) }
{
    let mut at = from;
    let mut last = Lit(0);
    for k in 0..count {
        let (g, next) = gate_line(s, at, n + k)?;
        let is_new = defined.allows(g.left);
        let is_ordered = in_order(last, g);
        if !is_new {
            return Err(Refusal::Literal(n + k)); // the left
        }
        if !is_ordered {
            return Err(Refusal::Order(n + k)); // the order
        }
        if !defined.has_rights(g) {
            return Err(Refusal::Literal(n + k)); // a right
        }
        gates[k] = g;
        defined.define(g.left);
        last = g.left;
        at = next;
    }
    Ok(at)
}

// After the last gate: the outputs, from line n on, are in range and defined.
fn check_outputs(defined: &Defined, n: usize, outputs: &[Lit]) -> Result<(), Refusal>
    requires line { n ≤ 4096 }
    requires few { length outputs.now ≤ 1024 }
    ensures { (ls : List ℕ) → Marks defined.now.marks ls →
        result ≡ checked_of (net.unknown_output defined.now.highest ls n (literals_in outputs.now)) }
{
    for (k, l) in outputs.iter().enumerate() {
        if !defined.knows(*l) {
            return Err(Refusal::Literal(n + k));
        }
    }
    Ok(())
}

// The lines after the header, up to the last gate.
#[tactic(auto, unfolding(aiger::specs::Net::body))]
pub fn read_body<'a>(
    s: &[u8],
    from: usize,
    sizes: Sizes,
    places: &'a mut Places,
) -> Result<(Net<'a>, usize), Refusal>
    requires { net.limits (sizes_of sizes) ≡ true }
    ensures { net_of s.now result ≡ net.body (sizes_of sizes) (drop from s.now) }
{
    let i = sizes.inputs as usize;
    let o = sizes.outputs as usize;
    let a = sizes.gates as usize;
    let mut defined = Defined::new(sizes.vars);
    let p = read_inputs(s, from, i, &mut places.inputs, &mut defined)?;
    let q = read_outputs(s, p, i + 2, o, &mut places.outputs)?;
    let end = read_gates(s, q, i + o + 2, a, &mut places.gates, &mut defined)?;
    check_outputs(&defined, i + 2, &places.outputs[..o])?;
    let net = Net {
        sizes,
        input_places: &places.inputs,
        output_places: &places.outputs,
        gate_places: &places.gates,
    };
    Ok((net, end))
}
