//! The texts as `Display` shows them.
ghost use Rattle.std.specs.Prelude.{Some};
ghost use Rattle.texts.specs.Texts.{refusal_text, table_text};

use crate::lines::{refusal_line, row_line, sweeps_line};
use crate::{SentBack, Windows};
use std::fmt;

impl fmt::Display for SentBack {
    ghost output = { λ sent. Some (refusal_text sent) };

    fn fmt<W: fmt::Write>(&self, f: &mut fmt::Formatter<W>) -> fmt::Result {
        let text = refusal_line(*self);
        write!(f, "{text}")
    }
}

impl fmt::Display for Windows<'_> {
    ghost output = { λ windows. Some (table_text windows.sweeps windows.rows.now) };

    fn fmt<W: fmt::Write>(&self, f: &mut fmt::Formatter<W>) -> fmt::Result {
        let first = sweeps_line(self.sweeps);
        write!(f, "{first}")?;
        for row in self.rows {
            let line = row_line(row);
            write!(f, "{line}")?;
        }
        Ok(())
    }
}
