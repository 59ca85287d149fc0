// Sessions: rows that grow and shrink, child by child.
#![tactic(auto)]

pub mod session;
