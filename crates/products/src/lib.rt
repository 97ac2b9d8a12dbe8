// For the crates above: the written steps of the product.
#![tactic(auto)]

pub mod written;
