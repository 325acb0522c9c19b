//! The commands of a desk script, what can be wrong with a line of one, and an item as a line names it.
#![tactic(auto)]

pub mod command;
pub mod fault;
pub mod listed;
