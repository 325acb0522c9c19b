// What a plan tells of itself.
ghost use Rattle.std.specs.Prelude.{◌≡◌, length};
ghost use Rattle.plan.specs.Views.{view};

use crate::Plan;
use items::Item;

impl Plan {
    /// The standing items, ascending by number.
    pub fn items(&self) -> &[Item]
        ensures { result.now ≡ (view self.now).items }
    {
        self.inner.items.as_slice()
    }

    /// The bit times of the resources, the first resource first.
    pub fn bit_times(&self) -> &[u8]
        ensures { result.now ≡ (view self.now).bits }
    {
        self.resources.as_slice()
    }

    /// How many edits can be taken back.
    pub fn undoable(&self) -> usize
        ensures { result ≡ length (view self.now).journal }
    {
        self.journal.entries.len()
    }
}
