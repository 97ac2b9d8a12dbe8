// A circuit's gates become the system in a table. Its module is for the crate above, which nobody else is offered: no call of the scope is here.
#![tactic(auto)]

pub mod system;
