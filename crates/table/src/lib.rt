// The lent table and its rows. Its modules are for the crates above, which nobody else is offered; the public calls on a table stand in the crates numbers,
// pairs and normal.
#![tactic(auto)]

ghost use Rattle.std.specs.Prelude.{◌≡◌};
ghost use Rattle.table.specs.declared.Refusal.TheVariants.{RoomOut};

pub mod index;
pub mod make;
pub mod memory;
pub mod rows;

// A number: 0, 1, or 2 more than the place of a row. The scope names it and `Var` as structs of one field.
#[derive(Clone, Copy, PartialEq, Eq, PartialOrd, Ord)]
pub struct Row(pub u16);

// The index of a ring variable, so named by the scope.
#[derive(Clone, Copy, PartialEq, Eq, PartialOrd, Ord)]
pub struct Var(pub u16);

// A table as a caller lends it (the scope's calls take just these slices): three slices of one length, for variable, then and else, with the count of rows in use, and the working slice.
// N is no part of it, as in the scope, whose calls take it beside the table. What the inner functions ask of it (`LiveIn`) is no invariant of the type: it would have to hold after each
// single write, and Make changes row, index and count one after another.
#[derive(Drop)]
pub struct Table<'a> {
    pub vs: &'a mut [u16],
    pub ts: &'a mut [u16],
    pub es: &'a mut [u16],
    pub count: usize,
    pub work: &'a mut [u64],
}

// Room has run out.
#[derive(Clone, Copy)]
pub struct NoRoom;

// Why a call on a table is refused. The numbers are those that C sees, so a cast gives them; the refusals of texts and circuits carry more, and convert by `From`.
#[derive(Clone, Copy, PartialEq, Eq)]
pub enum Refusal {
    // N, lengths or count out of range
    OutOfRange = 1,
    // the table isn't sound
    Unsound = 2,
    // a number isn't 0, 1 or a row in use
    NotInUse = 3,
    // a system is 0
    SystemZero = 4,
    // a variable is out of range or out of order
    BadVariable = 5,
    // no one of 0
    NoOne = 6,
    // room has run out
    RoomOut = 7,
    // a byte isn't 0 or 1
    NotABit = 8,
}

impl From<NoRoom> for Refusal {
    ghost from_gives = { λ _ e. e ≡ RoomOut };

    fn from(_: NoRoom) -> Refusal {
        Refusal::RoomOut
    }
}
