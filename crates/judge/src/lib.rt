// The judge: model texts, and what they say of rows.
#![tactic(auto)]

mod ahead;
mod attribute;
mod cursor;
mod depth;
pub mod fault;
pub mod first_fault;
mod lexeme;
pub mod next;
mod packed;
mod reader;
pub mod reading;
pub mod reply;
pub mod row;
mod table;
mod tally;
