// The table of items: they stand ascending by number.
ghost use Rattle.std.specs.Prelude.{◌≡◌, ◌<◌, [], length, set};
ghost use Rattle.items.specs.Items.{item_at, item_of, with_item, without_item, reworked};
ghost use Rattle.plan.specs.Tables.{items_in};

use fronts::Front;
use items::{Item, Work, lists};

/// The items that stand, 256 at most.
#[derive(Clone, Copy)]
pub struct Table {
    pub items: Front<Item, 256>,
}

impl Table {
    /// A table in which no item stands.
    pub fn empty() -> Table
        ensures { items_in result ≡ [] }
    {
        let none = Item {
            number: 0,
            resource: 0,
            priority: 0,
            work: Work::Task(0, 0),
            predecessor: 0,
            period: 0,
            delay: 0,
        };
        Table {
            items: Front::empty(none),
        }
    }

    /// Puts the item into its place by number.
    #[tactic(auto, using(items::proofs::Places::with_at_rank))]
    pub fn put(&mut self, item: Item)
        requires { length (items_in self.old) < 256 }
        ensures { items_in self.new ≡ with_item item (items_in self.old) }
    {
        let at = lists::rank_of(self.items.as_slice(), item.number);
        self.items.insert(at, item);
    }

    /// Takes the item of that number out, if it stands.
    pub fn strike(&mut self, number: u16) -> Option<Item>
        ensures value { result ≡ item_of number (items_in self.old) }
        ensures list { items_in self.new ≡ without_item number (items_in self.old) }
    {
        let at = lists::place_of(self.items.as_slice(), number)?;
        Some(self.items.remove(at))
    }

    /// Gives the item at that place other work.
    pub fn rework(&mut self, at: usize, work: Work)
        requires { at < length (items_in self.old) }
        ensures { items_in self.new ≡ set (items_in self.old) at (reworked work (item_at (items_in self.old) at)) }
    {
        let items = &mut self.items;
        items.slots[at].set_work(work);
    }
}
