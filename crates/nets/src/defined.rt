// Which variables the literals read so far define.
ghost use Rattle.std.specs.Prelude.{◌≡◌, ◌≤◌, ◌/◌, ◌++◌, List, [], ◌∷◌, ℕ};
ghost use Rattle.aiger.specs.Net as net;
ghost use Rattle.aiger.specs.Answers.{lits_of};
ghost use Rattle.aiger.specs.Marked.{Marks, Fresh};

use aiger::lines::{Gate, Lit};

// A mark for each variable up to 1,024, and the highest that the header allows.
#[derive(Drop)]
pub struct Defined {
    pub highest: u16,
    pub marks: [bool; 1025],
    ghost low: { highest ≤ 1024 },
}

impl Defined {
    // Variable 0, of the constants, needs no definition.
    #[tactic(auto, using(aiger::proofs::Marking::marks_start))]
    pub fn new(highest: u16) -> Defined
        requires { highest ≤ 1024 }
        ensures same { result.highest ≡ highest }
        ensures none { Marks result.marks [] }
    {
        let mut marks = [false; 1025];
        marks[0] = true;
        Defined { highest, marks }
    }

    fn has(&self, v: u16) -> bool
        requires { v ≤ 1024 }
        ensures { (ls : List ℕ) → Marks self.now.marks ls → result ≡ net.defined ls v }
    {
        self.marks[v as usize]
    }

    // Whether an input or a gate may define `l` next.
    pub fn allows(&self, l: Lit) -> bool
        ensures { Fresh self.now.marks self.now.highest l.0 result }
    {
        l.0 % 2 == 0 && 2 <= l.0 && l.0 <= 2 * self.highest + 1 && !self.has(l.0 / 2)
    }

    // Whether an output may name `l`.
    pub fn knows(&self, l: Lit) -> bool
        ensures { (ls : List ℕ) → Marks self.now.marks ls → result ≡ net.known self.now.highest ls l.0 }
    {
        l.0 <= 2 * self.highest + 1 && self.has(l.0 / 2)
    }

    // Whether both rights of a gate are defined.
    pub fn has_rights(&self, g: Gate) -> bool
        requires first { g.right0.0 / 2 ≤ 1024 }
        requires second { g.right1.0 / 2 ≤ 1024 }
        ensures { (ls : List ℕ) → Marks self.now.marks ls → result ≡ net.rights_defined ls (lits_of g) }
    {
        self.has(g.right0.0 / 2) && self.has(g.right1.0 / 2)
    }

    // The line of `l` is read.
    #[tactic(auto, using(aiger::proofs::Marking::marked))]
    pub fn define(&mut self, l: Lit)
        requires { l.0 / 2 ≤ 1024 }
        ensures same { self.new.highest ≡ self.old.highest }
        ensures more { (ls : List ℕ) → Marks self.old.marks ls → Marks self.new.marks (ls ++ l.0 ∷ []) }
    {
        self.marks[(l.0 / 2) as usize] = true;
    }
}
