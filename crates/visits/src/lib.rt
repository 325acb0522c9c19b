//! Visits to one plan: what visitors ask, what they are answered, and whole lists of visits.
#![tactic(auto)]

pub mod replay;
pub mod visit;
