// The plan: up to 256 items over 1 to 16 resources, with a journal of its last 32 edits.
// No plan can exist whose items are not valid, or whose journal leads back to items that are not.
#![tactic(auto)]

ghost use Rattle.items.specs.Journal.{WellKept};
ghost use Rattle.plan.specs.States.{state_of};

use crate::journal::Journal;
use crate::table::Table;
use fronts::Front;

mod edits;
mod journal;
mod readers;
mod table;

/// A plan. It begins with `open`; `place`, `withdraw` and `retime` edit it, and `undo` takes edits back.
/// Every call takes any arguments, and a refused one leaves all as it was.
#[derive(Clone, Copy)]
pub struct Plan {
    /// The bit time of each resource.
    resources: Front<u8, 16>,
    inner: Table,
    journal: Journal,
    ghost kept: { ∥ WellKept (state_of resources inner journal) ∥₁ },
}
