//! The texts of answers: a settled table, and why something was sent back.
//! Each is shown by `Display` and written into a caller's buffer, both as specs/Texts.antt defines it.
#![tactic(auto)]

ghost use Rattle.std.specs.Prelude.{◌≡◌};
ghost use Rattle.texts.specs.Numbers.{sent_number};

use buffers::BufferFault;
use items::Refusal;
use layout::FileFault;
use settle::{Fault, WindowRow};

pub mod buffer;
mod lines;
pub mod shown;

/// Why something was sent back: by a call of a plan, a settle, a reader of a file, or a writer into a buffer.
#[derive(Clone, Copy)]
pub enum SentBack {
    Plan(Refusal),
    Settle(Fault),
    File(FileFault),
    Buffer(BufferFault),
}

impl SentBack {
    /// The number under which it is reported.
    pub fn number(&self) -> u8
        ensures { result ≡ sent_number self.now }
    {
        match self {
            SentBack::Plan(refusal) => refusal.number(),
            SentBack::Settle(fault) => fault.number(),
            SentBack::File(fault) => fault.number(),
            SentBack::Buffer(fault) => fault.number(),
        }
    }
}

/// What a settle gave: the count of its sweeps, and the rows of its table.
#[derive(Clone, Copy)]
pub struct Windows<'a> {
    pub sweeps: u32,
    pub rows: &'a [WindowRow],
}
