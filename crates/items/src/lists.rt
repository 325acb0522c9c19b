// What is looked up in a list of items, each by one walk over it: the list may be in any order, so none is a binary search.
ghost use Rattle.std.specs.Prelude.{◌≡◌, ◌≤◌, false, length, MatchOption};
ghost use Rattle.items.specs.Conditions.{stands, priority_used, has_successor};
ghost use Rattle.items.specs.Places.{rank, First};

use crate::Item;

/// Whether an item of that resource has that priority.
pub fn priority_used(items: &[Item], resource: u16, priority: u32) -> bool
    ensures { result ≡ priority_used resource priority items.now }
{
    items.iter().any(|item| item.resource == resource && item.priority == priority)
}

/// Whether an item follows the one of that number.
pub fn has_successor(items: &[Item], number: u16) -> bool
    ensures { result ≡ has_successor number items.now }
{
    items.iter().any(|item| item.predecessor == number)
}

/// The place of the item of that number.
pub fn place_of(items: &[Item], number: u16) -> Option<usize>
    ensures { MatchOption result (stands number items.now ≡ false) (First number items.now) }
{
    items.iter().position(|item| item.number == number)
}

/// Whether an item of that number stands.
pub fn stands(items: &[Item], number: u16) -> bool
    ensures { result ≡ stands number items.now }
{
    items.iter().any(|item| item.number == number)
}

/// The place for an item of that number: before the first item of a higher one.
pub fn rank_of(items: &[Item], number: u16) -> usize
    ensures value { result ≡ rank number items.now }
    ensures bound { result ≤ length items.now }
{
    items
        .iter()
        .position(|item| number < item.number)
        .unwrap_or(items.len())
}
