// The listing of a cue list by a sheet.
#![tactic(auto)]

mod line;
pub mod listing;
pub mod refusal;
mod total;
