// Combinational ASCII AIGER by the scope, 'AIGER text': what a text means, and the reading of its lines. Nothing here knows of tables. The text call
// stands in the crate nets; the modules here are for the crates above.
#![tactic(auto)]

pub mod header;
pub mod lines;
pub mod net;
pub mod numbers;
mod reader;
pub mod refusal;
