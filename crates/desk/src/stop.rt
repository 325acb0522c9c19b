//! Why a script ends before its last line.
use commands::fault::Wrong;
use std::alloc::AllocError;
use thiserror::Error;
use words::faults::AtLine;

/// What is wrong with the line at which a script ends.
#[derive(Clone, Copy, Debug, Error)]
pub(crate) enum Reason<'a> {
    #[error("expected text in UTF-8")]
    Encoding,
    #[error("{0}")]
    Line(#[from] Wrong<'a>),
    #[error("expected open before any visit")]
    NoPlan,
    #[error("expected a switch of 0 to 1000 ticks")]
    Switch,
    #[error("there is no memory left")]
    Memory(#[from(alloc)] AllocError),
    /// A checked plan fails to replay only for want of memory.
    #[error("there is no memory left")]
    Unreplayed,
}

/// The line at which a script ends, and why.
pub(crate) type Stop<'a> = AtLine<Reason<'a>>;
