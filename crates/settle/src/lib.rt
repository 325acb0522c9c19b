//! Settling a plan: sweeps over its windows until a sweep alters nothing, and the verdict on a settled item.
#![tactic(auto)]

ghost use Rattle.std.specs.Prelude.{◌≡◌};
ghost use Rattle.settle.specs.Faults.{fault_number};

mod rows;
pub mod settling;
mod sweeps;
pub mod verdict;
mod windows;

/// One row of a caller's table: an item's release window and its finish window, counted from the arrival of its chain.
#[derive(Clone, Copy, Default)]
pub struct WindowRow {
    pub number: u16,
    pub open: u64,
    pub close: u64,
    pub finish_open: u64,
    pub finish_close: u64,
}

/// Why a settle is sent back.
#[derive(Clone, Copy)]
pub enum Fault {
    /// The budget is not 1 to 10,000.
    Budget,
    /// The table is shorter than the items.
    TableShort,
    /// A sweep, counted from 1, has no worst response for an item: the lowest such, and its resource.
    Unbounded {
        item: u16,
        resource: u16,
        sweep: u32,
    },
    /// The budget's last sweep altered a window.
    Unsettled,
}

impl Fault {
    /// The number under which the fault is reported.
    pub fn number(&self) -> u8
        ensures { result ≡ fault_number self.now }
    {
        // Matched by hand: an enum with a value in a variant does not cast to a number.
        match self {
            Fault::Budget => 16,
            Fault::TableShort => 17,
            Fault::Unbounded { .. } => 18,
            Fault::Unsettled => 19,
        }
    }
}
