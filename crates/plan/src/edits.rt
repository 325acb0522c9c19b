// Opening a plan, and what changes it.
ghost use Rattle.std.specs.Prelude.{◌≡◌};
ghost use Rattle.items.specs.Journal.{visited, answer, fresh};
ghost use Rattle.items.specs.Ledger.{edit, undo, placed, withdrawn, retimed};
ghost use Rattle.items.specs.Refusals.{as_result};
ghost use Rattle.plan.specs.Views.{view, Opened};

use crate::Plan;
use crate::journal::Journal;
use crate::table::Table;
use fronts::Front;
use items::{Entry, Item, Refusal, Work, lists};

impl Plan {
    /// An empty plan over resources of these bit times: 0 marks a processor, any other a bus.
    /// Refused unless there are 1 to 16 resources and no bit time is above 100.
    pub fn open(bit_times: &[u8]) -> Result<Plan, Refusal>
        ensures { Opened bit_times.now result }
    {
        conditions::check_open(bit_times)?;
        Ok(Plan {
            resources: Front::of(bit_times, 0),
            inner: Table::empty(),
            journal: Journal::empty(),
        })
    }

    /// Adds the item, and notes the edit. Refused by the first condition met, in the order of `conditions::check_place`.
    pub fn place(&mut self, item: Item) -> Result<(), Refusal>
        ensures answer { result ≡ as_result (answer (view self.old) (edit (placed item))) }
        ensures state { view self.new ≡ visited (view self.old) (edit (placed item)) }
    {
        conditions::check_place(self.bit_times(), self.items(), &item)?;
        self.inner.put(item);
        self.journal.note(Entry {
            number: item.number,
            before: None,
        });
        Ok(())
    }

    /// Removes the item of that number, and notes the edit. Refused if it does not stand or has a successor.
    pub fn withdraw(&mut self, number: u16) -> Result<(), Refusal>
        ensures answer { result ≡ as_result (answer (view self.old) (edit (withdrawn number))) }
        ensures state { view self.new ≡ visited (view self.old) (edit (withdrawn number)) }
    {
        conditions::check_withdraw(self.items(), number)?;
        let before = self.inner.strike(number);
        self.journal.note(Entry { number, before });
        Ok(())
    }

    /// Replaces the work of the item of that number and nothing else, and notes the edit.
    /// Refused if it does not stand, or the work does not fit its resource or the bounds.
    pub fn retime(&mut self, number: u16, work: Work) -> Result<(), Refusal>
        ensures answer { result ≡ as_result (answer (view self.old) (edit (retimed number work))) }
        ensures state { view self.new ≡ visited (view self.old) (edit (retimed number work)) }
    {
        let items = self.items();
        let Some(at) = lists::place_of(items, number) else {
            return Err(Refusal::NotStanding);
        };
        let before = items[at];
        conditions::check_retime(self.bit_times(), &before, work)?;
        self.inner.rework(at, work);
        self.journal.note(Entry {
            number,
            before: Some(before),
        });
        Ok(())
    }

    /// Takes the latest edit in the journal back, and strikes it there. Refused if the journal is empty.
    pub fn undo(&mut self) -> Result<(), Refusal>
        ensures answer { result ≡ as_result (answer (view self.old) undo) }
        ensures state { view self.new ≡ visited (view self.old) undo }
    {
        let Some(newest) = self.journal.strike() else {
            return Err(Refusal::NothingToUndo);
        };
        let _ = self.inner.strike(newest.number);
        if let Some(record) = newest.before {
            self.inner.put(record);
        }
        Ok(())
    }

    /// Empties the journal: what stands now is what the plan begins with.
    pub fn forget(&mut self)
        ensures { view self.new ≡ fresh (view self.old).bits (view self.old).items }
    {
        self.journal = Journal::empty();
    }
}
