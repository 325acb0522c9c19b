//! A line as `Display` shows it.
ghost use Rattle.std.specs.Prelude.{Some};
ghost use Rattle.numerals.specs.Lines.{text_of};

use crate::line::Line;
use std::fmt;
use std::str::from_utf8;

impl fmt::Display for Line {
    ghost output = { λ line. Some (text_of line) };

    /// Words that are no UTF-8 are an error.
    fn fmt<W: fmt::Write>(&self, f: &mut fmt::Formatter<W>) -> fmt::Result {
        match from_utf8(self.as_slice()) {
            Ok(text) => f.write_str(text),
            Err(_) => Err(fmt::Error),
        }
    }
}
