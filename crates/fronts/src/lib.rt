//! A list of at most so many elements, in the front of an array of that length.
#![tactic(auto)]

ghost use Rattle.std.specs.Prelude.{◌≡◌, ◌+◌, ◌<◌, ◌≤◌, [], ◌++◌, length, take, ⊤, slice_index_or, insert, remove};

use std::alloc::AllocError;

#[cfg(test)]
mod tests;

/// A list of at most `N` elements, in the front of an array. It is `Copy`, as an `arrayvec::ArrayVec` is not.
#[derive(Copy)]
pub struct Front<T, const N: usize> {
    /// What stands behind the first `count` means nothing.
    pub slots: [T; N],
    count: usize,
    ghost whole: { length slots ≡ N },
    ghost within: { count ≤ N },
}

// Written out: a derive is refused where a generic struct has a ghost field.
impl<T: Copy, const N: usize> Clone for Front<T, N> {
    ghost is_clone = { λ f g. g ≡ f };

    ghost is_infallible = { λ _. ⊤ };

    fn clone(&self) -> Result<Self, AllocError> {
        Ok(*self)
    }
}

impl<T: Copy, const N: usize> Front<T, N> {
    ghost use Rattle.fronts.specs.Listed.{listed};

    /// The empty list, with the blank in every slot.
    pub fn empty(blank: T) -> Self
        ensures { listed result ≡ [] }
    {
        Front {
            slots: [blank; N],
            count: 0,
        }
    }

    /// The list of these elements, with the blank in the slots behind them.
    pub fn of(elements: &[T], blank: T) -> Self
        requires { length elements.now ≤ N }
        ensures { listed result ≡ elements.now }
    {
        // Filled before it is a list: where a list that was made is filled, a caller keeps two copies more of what holds it.
        let mut slots = [blank; N];
        slots[..elements.len()].copy_from_slice(elements);
        Front {
            slots,
            count: elements.len(),
        }
    }

    /// How many elements the list has.
    pub fn len(&self) -> usize
        ensures { result ≡ length (listed self.now) }
    {
        self.as_slice().len()
    }

    /// The elements.
    pub fn as_slice(&self) -> &[T]
        ensures { result.now ≡ listed self.now }
    {
        &self.slots[..self.count]
    }

    /// Puts the element in at that place; those from there on go one up.
    pub fn insert(&mut self, at: usize, element: T)
        requires place { at ≤ length (listed self.old) }
        requires room { length (listed self.old) < N }
        ensures { listed self.new ≡ insert (listed self.old) at element }
    {
        self.slots.copy_within(at..self.count, at + 1);
        self.slots[at] = element;
        self.count += 1;
    }

    /// Takes the element at that place out; those behind it go one down.
    pub fn remove(&mut self, at: usize) -> T
        requires { at < length (listed self.old) }
        ensures value { result ≡ slice_index_or (listed self.old) at result }
        ensures list { listed self.new ≡ remove (listed self.old) at }
    {
        let element = self.slots[at];
        self.slots.copy_within(at + 1..self.count, at);
        self.count -= 1;
        element
    }

    /// Keeps no more than the first `len` elements.
    pub fn truncate(&mut self, len: usize)
        ensures list { listed self.new ≡ take len (listed self.old) }
        ensures few { length (listed self.new) ≤ len }
    {
        self.count = self.count.min(len);
    }

    /// Puts the elements behind the list, in their order.
    pub fn append(&mut self, more: &[T])
        requires { length (listed self.old) + length more.now ≤ N }
        ensures { listed self.new ≡ listed self.old ++ more.now }
    {
        let end = self.count + more.len();
        let slots = &mut self.slots[..];
        slots[self.count..end].copy_from_slice(more);
        self.count = end;
    }
}
