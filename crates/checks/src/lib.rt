// For the crates above: what every call on a table does first and last. It checks what is lent, zeros the free rows where room has run out, and the working slice; `call` does so for every call that may append.
#![tactic(auto)]

pub mod call;
pub mod check;
pub mod finish;
