// Why a text is refused.
ghost use Rattle.std.specs.Prelude.{◌≡◌};
ghost use Rattle.aiger.specs.Answers.{number_of_refusal};

use crate::numbers::Fault;

// The reason, and the line at which the text is refused.
#[derive(Clone, Copy, Debug, PartialEq, Eq)]
pub enum Refusal {
    TooLong,
    Form(Fault, usize),
    Limits,
    Literal(usize),
    Order(usize),
}

// The paper's number of a refusal.
impl From<Refusal> for u16 {
    ghost from_gives = { λ why n. n ≡ number_of_refusal why };

    fn from(why: Refusal) -> u16 {
        match why {
            Refusal::TooLong => 9,
            Refusal::Form(_, _) => 10,
            Refusal::Limits => 11,
            Refusal::Literal(_) => 12,
            Refusal::Order(_) => 13,
        }
    }
}
