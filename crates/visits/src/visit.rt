//! What a visitor asks of a plan, and what is answered.
ghost use Rattle.std.specs.Prelude.{◌≡◌, vec_items};

use items::{Item, Refusal, Work};
use settle::{Fault, WindowRow};
use texts::Windows;

/// What a visitor asks. A settle brings its rule, its budget of sweeps, and how many rows its table has.
#[derive(Drop)]
pub enum Visit<R> {
    Place(Item),
    Withdraw(u16),
    Retime(u16, Work),
    Undo,
    Settle(R, u32, usize),
    Items,
}

/// What a settle gives: so many sweeps were made, and these are the windows of the items.
#[derive(Drop)]
pub struct SettledTable {
    pub sweeps: u32,
    pub rows: Vec<WindowRow>,
}

impl SettledTable {
    /// The table, to be shown or written.
    pub fn shown(&self) -> Windows<'_>
        ensures sweeps { result.sweeps ≡ self.now.sweeps }
        ensures rows { result.rows.now ≡ vec_items self.now.rows }
    {
        Windows {
            sweeps: self.sweeps,
            rows: self.rows.as_slice(),
        }
    }
}

/// What a visitor is answered.
#[derive(Drop)]
pub enum Answer {
    /// The edit or the undo was done; or it was refused, and nothing changed.
    Edited(Result<(), Refusal>),
    /// The settle gave a table. It lies here in its parts, so that an answer is no larger than a `SettledTable`.
    Settled { sweeps: u32, rows: Vec<WindowRow> },
    /// The settle was sent back.
    Unsettled(Fault),
    /// The standing items.
    Listed(Vec<Item>),
}

pub mod answers;
