//! The chains of a plan: where each item's predecessor stands, and the period that it has from its head.
ghost use Rattle.std.specs.Prelude.{◌≡◌, ◌<◌, ◌≤◌, length};
ghost use Rattle.items.specs.Items.{item_at};
ghost use Rattle.tables.specs.Demands.{place_of};
ghost use Rattle.consult.specs.Chains.{SomeValid, link_of, Linked, Timed};

use items::Item;

/// The place of the predecessor of the item at a place.
pub(crate) fn link_at(items: &[Item], at: usize) -> Option<u16>
    requires valid { SomeValid items.now }
    requires within { at < length items.now }
    ensures { result ≡ link_of items.now (item_at items.now at) }
{
    match items.binary_search_by_key(&items[at].predecessor, |item| item.number) {
        Ok(place) => Some(place as u16),
        Err(_) => None,
    }
}

/// The place of the item of a number, or the length if no item has it.
pub fn place_of_number(items: &[Item], number: u16) -> usize
    ensures place { result ≡ place_of number items.now }
    ensures within { result ≤ length items.now }
{
    for (at, item) in items.iter().enumerate() {
        if item.number == number {
            return at;
        }
    }
    items.len()
}

/// The place of each item's predecessor, in the front of `places`; a head, whose predecessor is 0, has none. The items need not be valid.
pub fn links(items: &[Item], places: &mut [Option<u16>; 256])
    requires { length items.now ≤ 256 }
    ensures { Linked items.now places.new }
{
    for (at, item) in items.iter().enumerate() {
        places[at] = if item.predecessor == 0 {
            None
        } else {
            Some(place_of_number(items, item.predecessor) as u16)
        };
    }
}

/// The period of each item, its head's, in the front of `ticks`. A predecessor stands lower, so its period is there already.
pub fn periods(items: &[Item], places: &[Option<u16>; 256], ticks: &mut [u32; 256])
    requires { (SomeValid items.now) × (Linked items.now places.now) }
    ensures { Timed items.now ticks.new }
{
    for (at, item) in items.iter().enumerate() {
        let place = usize::from(places[at].unwrap_or(0));
        ticks[at] = if item.predecessor == 0 {
            item.period
        } else {
            ticks[place]
        };
    }
}
