//! What is wrong with a line, and the number of the line.
ghost use Rattle.std.specs.Prelude.{◌≡◌, ◌+◌, take, MatchResult};
ghost use Rattle.std.specs.Str.Lossy.{utf8_valid_len};
ghost use Rattle.words.specs.Spoken.{newlines};

use crate::line_after;
use std::fmt;

/// What is wrong, and with which line, counted from 1.
#[derive(Clone, Copy, Debug)]
pub struct AtLine<E> {
    pub line: usize,
    pub wrong: E,
}

impl<E: fmt::Display> fmt::Display for AtLine<E> {
    fn fmt<W: fmt::Write>(&self, f: &mut fmt::Formatter<W>) -> fmt::Result {
        let AtLine { line, wrong } = self;
        write!(f, "line {line}: {wrong}")
    }
}

/// The text that bytes are, or what is wrong with the first line that is no text.
pub fn text_of<'a, E: Drop>(bytes: &'a [u8], wrong: E) -> Result<&'a str, AtLine<E>>
    ensures { MatchResult result (λ text. text.now ≡ bytes.now) (λ fault. (fault.line ≡ 1 + newlines (take (utf8_valid_len bytes.now) bytes.now)) × (fault.wrong ≡ wrong)) }
{
    std::str::from_utf8(bytes).map_err(|error| AtLine {
        line: line_after(&bytes[..error.valid_up_to()]),
        wrong,
    })
}
