//! What can be wrong with a text that is read, and the message that says it.
ghost use Rattle.std.specs.Prelude.{◌≡◌};
ghost use Rattle.listing.specs.declared.fault.Wrong.TheVariants.{Number, Memory};

use std::alloc::{AllocError, AllocFailed};
use std::fmt;
use thiserror::Error;
use words::faults::AtLine;
use words::numbers::{NoNumber, Quantity};

/// One of the five numbers of a row.
#[derive(Clone, Copy, Debug)]
pub enum Field {
    Priority,
    Period,
    Jitter,
    Least,
    Greatest,
}

impl fmt::Display for Field {
    fn fmt<W: fmt::Write>(&self, f: &mut fmt::Formatter<W>) -> fmt::Result {
        f.write_str(match self {
            Field::Priority => "priority",
            Field::Period => "period",
            Field::Jitter => "jitter",
            Field::Least => "least",
            Field::Greatest => "greatest",
        })
    }
}

impl Quantity for Field {
    ghost most = { λ _. 4294967295 };

    fn most(&self) -> u32 {
        u32::MAX
    }
}

/// What is wrong with a line. What was found instead borrows the text.
#[derive(Clone, Copy, Debug, Error)]
pub enum Wrong<'a> {
    /// The bytes of the line are no text.
    #[error("expected text in UTF-8")]
    Encoding,
    /// The line is no bit time.
    #[error("expected a bit time from 0 to 255, found {0:?}")]
    BitTime(&'a str),
    /// The text ends where the bit time should stand.
    #[error("expected a bit time from 0 to 255, found the end of the text")]
    End,
    /// The line has another number of words than a row.
    #[error("expected 5 numbers (priority, period, jitter, least, greatest), found {0}")]
    Count(usize),
    /// A word is no number.
    #[error("{0}")]
    Number(NoNumber<'a, Field>),
    /// There is no memory for what the line says.
    #[error("there is no memory left")]
    Memory,
}

// Written out: derived ones say nothing of the error that they give.
impl<'a> From<NoNumber<'a, Field>> for Wrong<'a> {
    ghost from_gives = { λ word wrong. wrong ≡ Number word };

    fn from(word: NoNumber<'a, Field>) -> Self {
        Wrong::Number(word)
    }
}

impl From<AllocError> for Wrong<'_> {
    ghost from_gives = { λ _ wrong. wrong ≡ Memory };

    fn from(_error: AllocError) -> Self {
        Wrong::Memory
    }
}

impl<T: Drop> From<AllocFailed<T>> for Wrong<'_> {
    ghost from_gives = { λ _ wrong. wrong ≡ Memory };

    fn from(_refused: AllocFailed<T>) -> Self {
        Wrong::Memory
    }
}

/// What is wrong, and with which line.
pub type Fault<'a> = AtLine<Wrong<'a>>;
