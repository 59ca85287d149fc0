// One way to write a model: document 02, W4.
#![tactic(auto)]

mod atom;
pub mod fault;
mod head;
mod names;
mod order;
mod tidy;
pub mod write;
