// For the crates above: the pattern that makes an output 1.
ghost use Rattle.std.specs.Prelude.{◌≡◌, length, take};
ghost use Rattle.steps.specs.One.{one};
ghost use Rattle.table.specs.Views.{viewed, shown};
ghost use Rattle.aiger.specs.Answers.{literals_in};
ghost use Rattle.endings.specs.Inner.{bytes_at, PatternAsked};

use aiger::lines::Lit;
use assignments::seek::one_of;
use table::rows::Rows;
use table::{Row, Var};

// Writes the values of the inputs, in their order, in the one of the number k: input variable v is ring variable n - v.
pub fn write_pattern(rows: &Rows<'_>, n: u16, k: Row, inputs: &[Lit], pattern: &mut [u8])
    requires { PatternAsked n rows.now.count (viewed rows.now) k.0 (literals_in inputs.now) (length pattern.old) }
    ensures { pattern.new ≡ bytes_at n (one (shown rows.now) k.0) (take (length pattern.old) (literals_in inputs.now)) }
{
    // a place for every variable: the project uses no heap
    let mut ones = [0u8; 1024];
    one_of(rows, k, &mut ones);
    // one index for both slices: `zip` would lend the pattern, of which the invariant speaks
    for i in 0..pattern.len() {
        let v = Var(n - inputs[i].0 / 2);
        pattern[i] = ones[v.0 as usize];
    }
}
