// Sheet and cue list, above the judge.
#![tactic(auto)]

pub mod cues;
pub mod number;
pub mod refusal;
pub mod sheet;
mod whole;
