//! From a plan file to its windows: what the program `windows` tells of a file.
#![tactic(auto)]

pub mod line;
pub mod outcome;
