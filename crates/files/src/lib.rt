//! Plan files: the bytes of a plan, read into one and written from one. docs/FORMAT.md has the format.
#![tactic(auto)]

pub mod again;
mod file;
pub mod read;
mod record;
mod words;
pub mod write;
