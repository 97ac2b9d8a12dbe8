// A net, as it is read from an accepted text. The reading itself stands in the crate nets.
ghost use Rattle.std.specs.Prelude.{◌≡◌, true};
ghost use Rattle.aiger.specs.Net.{limits};
ghost use Rattle.aiger.specs.Accepted.{Accepted, Accepted-prop};
ghost use Rattle.aiger.specs.Answers.{sizes_of, net_in};

use crate::header::Sizes;
use crate::lines::{Gate, Lit};

// Places for any net, lent to what reads it: a net stays where it was read, and no array is moved. The project uses no heap.
#[derive(Drop)]
pub struct Places {
    pub inputs: [Lit; 1024],
    pub outputs: [Lit; 1024],
    pub gates: [Gate; 1024],
}

impl Places {
    ghost use Rattle.std.specs.Prelude.{All};

    // Nothing is read yet.
    pub fn new() -> Places
        ensures inputs { All (λ l. l.0 ≡ 0) result.inputs }
        ensures outputs { All (λ l. l.0 ≡ 0) result.outputs }
        ensures gates { All (λ g. g.left.0 ≡ 0) result.gates }
    {
        let none = Gate {
            left: Lit(0),
            right0: Lit(0),
            right1: Lit(0),
        };
        Places {
            inputs: [Lit(0); 1024],
            outputs: [Lit(0); 1024],
            gates: [none; 1024],
        }
    }
}

// The net of an accepted text: the first I inputs, O outputs and A gates of the places that it was read into.
#[derive(Clone, Copy)]
pub struct Net<'a> {
    pub sizes: Sizes,
    pub input_places: &'a [Lit; 1024],
    pub output_places: &'a [Lit; 1024],
    pub gate_places: &'a [Gate; 1024],
    pub ghost small: { limits (sizes_of sizes) ≡ true },
    pub ghost accepted: { Accepted (net_in sizes input_places.now output_places.now gate_places.now) } by { Accepted-prop (net_in sizes input_places.now output_places.now gate_places.now) },
}

// Three accessors of one shape: each is held to a definition of its own.
impl Net<'_> {
    ghost use Rattle.std.specs.Prelude.{length};
    ghost use Rattle.aiger.specs.Answers.{literals_in, gates_in};
    ghost use Rattle.aiger.specs.Circuit.{circuit_of};

    // The inputs, in the order of their lines.
    pub fn inputs(&self) -> &[Lit]
        ensures are { literals_in result.now ≡ (circuit_of self.now).inputs }
        ensures counted { length result.now ≡ self.now.sizes.inputs }
    {
        let places = self.input_places;
        &places[..self.sizes.inputs as usize]
    }

    // The outputs, in the order of their lines.
    pub fn outputs(&self) -> &[Lit]
        ensures are { literals_in result.now ≡ (circuit_of self.now).outputs }
        ensures counted { length result.now ≡ self.now.sizes.outputs }
    {
        let places = self.output_places;
        &places[..self.sizes.outputs as usize]
    }

    // The gates, in the order of their lines.
    pub fn gates(&self) -> &[Gate]
        ensures are { gates_in result.now ≡ (circuit_of self.now).gates }
        ensures counted { length result.now ≡ self.now.sizes.gates }
    {
        let places = self.gate_places;
        &places[..self.sizes.gates as usize]
    }
}
