// For the crates above: two numbers taken apart, and the written steps of the sum.
#![tactic(auto)]

pub mod parts;
pub mod written;
