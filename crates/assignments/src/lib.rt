// For the crates above: the value of a number at an assignment, and the assignment that is its one.
#![tactic(auto)]

pub mod evaluate;
pub mod seek;
