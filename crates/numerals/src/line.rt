//! A line of text on the stack.
use fronts::Front;

mod build;
pub mod shown;

/// A line of at most 128 bytes.
#[derive(Clone, Copy)]
pub struct Line {
    text: Front<u8, 128>,
}
