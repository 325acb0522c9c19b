//! The commands of a script.
use items::{Item, Work};

/// What one line of a script asks for.
#[derive(Drop)]
pub enum Command {
    /// A plan over resources of these bit times.
    Open(Vec<u8>),
    Place(Item),
    Withdraw(u16),
    Retime(u16, Work),
    Undo,
    Settle {
        budget: u32,
        switch: u16,
        rows: usize,
    },
    Items,
}
