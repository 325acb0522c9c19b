//! What can be wrong with a line of a script, and the message that says it.
ghost use Rattle.std.specs.Prelude.{◌≡◌};
ghost use Rattle.commands.specs.declared.fault.Wrong.TheVariants.{Memory, Numeral};
ghost use Rattle.commands.specs.Limits.{most_of};

use std::alloc::{AllocError, AllocFailed};
use std::fmt;
use thiserror::Error;
use words::numbers::{NoNumber, Quantity};

/// What a number of a line stands for.
#[derive(Clone, Copy, Debug)]
pub enum Field {
    Number,
    Resource,
    Priority,
    Least,
    Greatest,
    Bytes,
    Predecessor,
    Period,
    Delay,
    BitTime,
    Budget,
    Switch,
    Rows,
}

impl Quantity for Field {
    ghost most = { most_of };

    fn most(&self) -> u32 {
        match self {
            Field::Number | Field::Resource | Field::Predecessor => u32::from(u16::MAX),
            Field::BitTime => u32::from(u8::MAX),
            Field::Switch => 1000,
            _ => u32::MAX,
        }
    }
}

impl fmt::Display for Field {
    fn fmt<W: fmt::Write>(&self, f: &mut fmt::Formatter<W>) -> fmt::Result {
        f.write_str(match self {
            Field::Number => "item number",
            Field::Resource => "resource",
            Field::Priority => "priority",
            Field::Least => "least demand",
            Field::Greatest => "greatest demand",
            Field::Bytes => "data bytes",
            Field::Predecessor => "predecessor",
            Field::Period => "period",
            Field::Delay => "delay",
            Field::BitTime => "bit time",
            Field::Budget => "budget",
            Field::Switch => "switch",
            Field::Rows => "rows",
        })
    }
}

/// The form of a line: its first word, and what stands after it.
#[derive(Clone, Copy, Debug)]
pub enum Form {
    Open,
    Place,
    Withdraw,
    Retime,
    Undo,
    Settle,
    Items,
}

impl fmt::Display for Form {
    fn fmt<W: fmt::Write>(&self, f: &mut fmt::Formatter<W>) -> fmt::Result {
        f.write_str(match self {
            Form::Open => "open and bit times",
            Form::Place =>
                "place NUMBER RESOURCE PRIORITY task LEAST GREATEST PREDECESSOR PERIOD DELAY, or frame BYTES in place of task LEAST GREATEST",
            Form::Withdraw => "withdraw NUMBER",
            Form::Retime =>
                "retime NUMBER task LEAST GREATEST, or frame BYTES in place of task LEAST GREATEST",
            Form::Undo => "undo with nothing after it",
            Form::Settle => "settle BUDGET, settle BUDGET SWITCH or settle BUDGET SWITCH ROWS",
            Form::Items => "items with nothing after it",
        })
    }
}

/// What is wrong with a line. What was found instead borrows the line.
#[derive(Clone, Copy, Debug, Error)]
pub enum Wrong<'a> {
    /// The first word is no command.
    #[error("expected open, place, withdraw, retime, undo, settle or items, found {0:?}")]
    Command(&'a str),
    /// The words do not have the form of their command.
    #[error("expected {0}")]
    Shape(Form),
    /// A word is no number that may stand there.
    #[error("{0}")]
    Numeral(NoNumber<'a, Field>),
    /// There is no memory for what the line says.
    #[error("there is no memory left")]
    Memory,
}

// Written out: derived ones say nothing of the error, which contracts name.
impl<'a> From<NoNumber<'a, Field>> for Wrong<'a> {
    ghost from_gives = { λ word wrong. wrong ≡ Numeral word };

    fn from(word: NoNumber<'a, Field>) -> Self {
        Wrong::Numeral(word)
    }
}

impl From<AllocError> for Wrong<'_> {
    ghost from_gives = { λ _ wrong. wrong ≡ Memory };

    fn from(_error: AllocError) -> Self {
        Wrong::Memory
    }
}

impl<T: Drop> From<AllocFailed<T>> for Wrong<'_> {
    ghost from_gives = { λ _ wrong. wrong ≡ Memory };

    fn from(_refused: AllocFailed<T>) -> Self {
        Wrong::Memory
    }
}
