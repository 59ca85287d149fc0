// The desk: a model text and a children text in, a number out; or, in a lent row, the names that may come next.
#![tactic(auto)]

pub mod answer;
pub mod child;
