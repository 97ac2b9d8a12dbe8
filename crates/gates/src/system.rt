// For the crate above: the written steps of a literal and of a gate, and the system of all gates.
ghost use Rattle.std.specs.Prelude.{◌≡◌, OnErr};
ghost use Rattle.table.specs.Tables.{KeptIn};
ghost use Rattle.aiger.specs.Answers.{lits_of, gates_in};
ghost use Rattle.verdicts.specs.Systems.{literal_steps, gate_steps, build};
ghost use Rattle.gates.specs.Inner.{LiteralIn, JoinedIn, GateIn, BuildIn, joined_steps};

use aiger::lines::{Gate, Lit};
use products::written::product;
use table::rows::Node;
use table::{NoRoom, Row, Table, Var};

// The literal l: 0 and 1 are themselves, the others are the rows (n - v, 1, 0) and (n - v, 1, 1) of their variable v.
pub fn literal(t: &mut Table<'_>, n: u16, l: Lit) -> Result<Row, NoRoom>
    requires { LiteralIn n t.old l.0 }
    ensures steps { KeptIn n (literal_steps n l.0) result t.old t.new }
    ensures count { OnErr result (t.new.count ≡ t.old.count) }
{
    if l.0 < 2 {
        return Ok(Row(l.0));
    }
    t.make(Node {
        v: Var(n - l.0 / 2),
        t: Row(1),
        e: Row(l.0 % 2),
    })
}

// The product of a gate's rights, and its equation added to the system.
fn joined(t: &mut Table<'_>, n: u16, left: Lit, system: Row, f: Row, g: Row) -> Result<Row, NoRoom>
    requires { JoinedIn n t.old left.0 system.0 f.0 g.0 }
    ensures { KeptIn n (joined_steps n left.0 system.0 f.0 g.0) result t.old t.new }
{
    let tail = product(t, n, f, g)?;
    t.make(Node {
        v: Var(n - left.0 / 2),
        t: system,
        e: tail,
    })
}

// A gate: right0, right1, their product, then the equation is added to the system.
pub fn gate(t: &mut Table<'_>, n: u16, g: Gate, system: Row) -> Result<Row, NoRoom>
    requires { GateIn n t.old (lits_of g) system.0 }
    ensures { KeptIn n (gate_steps n (lits_of g) system.0) result t.old t.new }
{
    let f = literal(t, n, g.right0)?;
    let h = literal(t, n, g.right1)?;
    joined(t, n, g.left, system, f, h)
}

// The system of the gates, in their order, from an empty table.
pub fn build(t: &mut Table<'_>, n: u16, gates: &[Gate]) -> Result<Row, NoRoom>
    requires { BuildIn n t.old (gates_in gates.now) }
    ensures { KeptIn n (build n (gates_in gates.now) 1) result t.old t.new }
{
    let mut system = Row(1);
    // By index, and with the error written out: the edits `gates_from_the_last` and `full_as_an_answer` change these places, and keep the names that the proof cites.
    for i in 0..gates.len() {
        let Ok(next) = gate(t, n, gates[i], system) else {
            return Err(NoRoom);
        };
        system = next;
    }
    Ok(system)
}
