//! Lines of text on the stack: words and decimal numbers, one behind the other.
#![tactic(auto)]

pub mod line;
