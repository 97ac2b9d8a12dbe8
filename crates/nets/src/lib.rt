// A text becomes a net, or is refused, by the scope, 'AIGER text'; the text call. `read_net` is only for the crates of this project that stand above.
#![tactic(auto)]

mod body;
mod defined;

ghost use Rattle.std.specs.Prelude.{◌≡◌};
ghost use Rattle.aiger.specs.Net as net;
ghost use Rattle.aiger.specs.Circuit.{net_of};
ghost use Rattle.aiger.specs.Answers.{text_call, answer_of_text, counts_of};

use crate::body::read_body;
use aiger::header::{limits, line_of_header};
use aiger::net::{Net, Places};
use aiger::refusal::Refusal;

// The net of a text, read into the places, with the position behind its last gate line. Only for the crates of this project that stand above: it is no call of the scope.
#[tactic(auto, unfolding(aiger::specs::Net::circuit))]
pub fn read_net<'a>(s: &[u8], places: &'a mut Places) -> Result<(Net<'a>, usize), Refusal>
    ensures { net_of s.now result ≡ net.circuit s.now }
{
    if 32768 < s.len() {
        return Err(Refusal::TooLong);
    }
    // a fault becomes a refusal in the form that the scope names
    let line = line_of_header(s, 0);
    let Ok((sizes, end)) = line else {
        return Err(Refusal::Form(line.unwrap_err(), 1));
    };
    if !limits(sizes) {
        return Err(Refusal::Limits);
    }
    read_body(s, end, sizes, places)
}

// The text call: the scope's checks from 9 to the output literals, then I and O.
pub fn text(s: &[u8]) -> Result<(u16, u16), Refusal>
    ensures answer { answer_of_text result ≡ text_call s.now }
    ensures exact { result ≡ counts_of (net.circuit s.now) }
{
    let mut places = Places::new();
    let (net, _) = read_net(s, &mut places)?;
    Ok((net.inputs().len() as u16, net.outputs().len() as u16))
}
