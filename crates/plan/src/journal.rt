// The journal: the entries of the last 32 edits, the newest first.
ghost use Rattle.std.specs.Prelude.{◌≡◌, [], ◌∷◌, MatchOption};
ghost use Rattle.items.specs.Journal.{noted};
ghost use Rattle.plan.specs.Journals.{entries_in};

use fronts::Front;
use items::Entry;

/// The entries that are noted, 32 at most.
#[derive(Clone, Copy)]
pub struct Journal {
    pub entries: Front<Entry, 32>,
}

impl Journal {
    /// A journal in which nothing is noted.
    pub fn empty() -> Journal
        ensures { entries_in result ≡ [] }
    {
        let none = Entry {
            number: 0,
            before: None,
        };
        Journal {
            entries: Front::empty(none),
        }
    }

    /// Notes an edit; where 32 are noted already, the oldest goes.
    pub fn note(&mut self, entry: Entry)
        ensures { entries_in self.new ≡ noted entry (entries_in self.old) }
    {
        self.entries.truncate(31);
        self.entries.insert(0, entry);
    }

    /// Strikes the newest entry, if there is one.
    pub fn strike(&mut self) -> Option<Entry>
        ensures { MatchOption result ((entries_in self.old ≡ []) × (entries_in self.new ≡ [])) (λ e. entries_in self.old ≡ e ∷ entries_in self.new) }
    {
        if self.entries.len() == 0 {
            return None;
        }
        Some(self.entries.remove(0))
    }
}
