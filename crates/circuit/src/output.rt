// An output's normal form by the system of all gates, from an empty table.
ghost use Rattle.aiger.specs.Answers.{gates_in};
ghost use Rattle.reduction.specs.Inner.{TookIn};
ghost use Rattle.verdicts.specs.Systems.{output_steps};
ghost use Rattle.circuit.specs.Inner.{OutputIn};

use aiger::lines::{Gate, Lit};
use gates::system::{build, literal};
use reduction::reduce;
use table::{NoRoom, Row, Table};

// The system, the output's literal, and its normal form.
pub fn output(t: &mut Table<'_>, n: u16, gates: &[Gate], l: Lit) -> Result<Row, NoRoom>
    requires { OutputIn n t.old (gates_in gates.now) l.0 }
    ensures { TookIn n (output_steps n (gates_in gates.now) l.0) result t.old t.new }
{
    let system = build(t, n, gates)?;
    let p = literal(t, n, l)?;
    reduce(t, n, p, system)
}
