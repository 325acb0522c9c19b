//! A desk script: one line read into a command.
#![tactic(auto)]

pub mod read;
#[cfg(test)]
mod tests;
