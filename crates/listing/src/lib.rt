//! The text that describes one resource: a line with the bit time, then a line for each row.
#![tactic(auto)]

pub mod fault;
#[cfg(test)]
mod tests;
pub mod text;
