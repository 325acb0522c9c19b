//! What the reading of lines shares: the number that a word writes, the words of a line, the lines to pass over, the count of lines, and what is said of a line that cannot be read.
#![tactic(auto)]

ghost use Rattle.std.specs.Prelude.{◌≡◌, ◌+◌, IfOk, MatchBool, MatchOption};
ghost use Rattle.words.specs.Spoken.{Reads, Unreadable, Words, PassedOver, Worded, texts, newlines};

use std::alloc::{AllocError, Global};

pub mod faults;
pub mod numbers;

/// The number that a word writes in decimal, if it is one up to `most`.
pub fn number_up_to(word: &str, most: u32) -> Option<u32>
    ensures { MatchOption result (Unreadable (most + 1) word.now) (Reads most word.now) }
{
    if word.starts_with('+') {
        return None;
    }
    word.parse().ok().filter(|n| *n <= most)
}

/// Whether a line is a comment, or blank.
pub fn is_passed_over(line: &str) -> bool
    ensures { MatchBool result (PassedOver line.now) (Worded line.now) }
{
    line.starts_with('#') || line.split_whitespace().next().is_none()
}

/// The words of a line.
pub fn words_of<'a>(heap: Global, line: &'a str) -> Result<Vec<&'a str>, AllocError>
    ensures { IfOk result (λ v. Words line.now (texts v.items)) }
{
    line.split_whitespace().collect(heap)
}

/// The line, counted from 1, that the bytes before it lead to.
pub fn line_after(before: &[u8]) -> usize
    ensures { result ≡ 1 + newlines before.now }
{
    1 + before.iter().filter(|byte| **byte == b'\n').count()
}
