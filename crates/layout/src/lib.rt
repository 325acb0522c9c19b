//! The plan file, byte by byte: what it holds, why a reader sends one back, and that a plan and its file determine each other.
#![tactic(auto)]

ghost use Rattle.std.specs.Prelude.{◌≡◌};
ghost use Rattle.layout.specs.Faults.{file_number};
ghost use Rattle.layout.specs.Stands.{FilesStand};

/// Why a file is sent back.
#[derive(Clone, Copy)]
pub enum FileFault {
    /// It has fewer than 4 bytes, or not as many as its sizes ask for.
    Length,
    /// It has not 1 to 16 resources, or more than 256 items.
    Sizes,
    /// A bit time is above 100.
    BitTime,
    /// The record at a place, counted from 0, is no next item of the plan.
    Record(u16),
}

impl FileFault {
    /// The number under which the fault is reported.
    pub fn number(&self) -> u8
        ensures { result ≡ file_number self.now }
    {
        // Matched by hand: an enum with a value in a variant does not cast to a number.
        match self {
            FileFault::Length => 20,
            FileFault::Sizes => 21,
            FileFault::BitTime => 2,
            FileFault::Record(_) => 22,
        }
    }
}

/// A plan and its file determine each other, and a list of bytes is a plan's file exactly if nothing is wrong in it.
pub fn files_stand()
    ensures { FilesStand }
{}
