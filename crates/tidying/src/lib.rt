// A sheet with each model written in its one way: document 02, W4.
#![tactic(auto)]

pub mod refusal;
pub mod write;
