//! The record of one item in a file: eight bytes in the first of its parallel arrays, and sixteen in the second.
ghost use Rattle.std.specs.Prelude.{◌≡◌, ◌+◌, ◌<◌, ◌≤◌, length};
ghost use Rattle.layout.specs.Reading.{items_in, first_at, second_at, resource_in, on_bus, item_in, descends, has_spare};

use crate::file::PlanFile;
use crate::words::{u16_at, u32_at};
use conditions::bit_time;
use items::{Item, Work};

/// The item at a place of a file.
#[derive(Clone, Copy)]
pub(crate) struct ItemRecord<'a> {
    pub(crate) file: PlanFile<'a>,
    pub(crate) place: usize,
    ghost within: { place < items_in file.bytes.now },
}

impl ItemRecord<'_> {
    /// Where the record begins in the first array.
    fn first_at(&self) -> usize
        ensures value { result ≡ first_at self.now.file.bytes.now self.now.place }
        ensures within { result + 8 ≤ length self.now.file.bytes.now }
    {
        4 + self.file.resources + 8 * self.place
    }

    /// Where it begins in the second.
    fn second_at(&self) -> usize
        ensures value { result ≡ second_at self.now.file.bytes.now self.now.place }
        ensures within { result + 16 ≤ length self.now.file.bytes.now }
    {
        4 + self.file.resources + 8 * self.file.items + 16 * self.place
    }

    /// The number of the item.
    fn number(&self) -> u16
        ensures { result ≡ (item_in self.now.file.bytes.now self.now.place).number }
    {
        u16_at(self.file.bytes, self.first_at())
    }

    /// The resource of the item.
    fn resource(&self) -> u16
        ensures { result ≡ resource_in self.now.file.bytes.now self.now.place }
    {
        u16_at(self.file.bytes, self.first_at() + 2)
    }

    /// Whether that resource is a bus.
    fn on_bus(&self) -> bool
        ensures { result ≡ on_bus self.now.file.bytes.now self.now.place }
    {
        bit_time(self.file.bit_times(), self.resource()) != 0
    }

    /// The work of the item: a frame's on a bus, else a task's.
    fn work(&self) -> Work
        ensures { result ≡ (item_in self.now.file.bytes.now self.now.place).work }
    {
        let second = self.second_at();
        let word = u32_at(self.file.bytes, second);
        if self.on_bus() {
            Work::Frame(word)
        } else {
            Work::Task(word, u32_at(self.file.bytes, second + 4))
        }
    }

    /// The item.
    pub(crate) fn item(&self) -> Item
        ensures { result ≡ item_in self.now.file.bytes.now self.now.place }
    {
        let bytes = self.file.bytes;
        let first = self.first_at();
        let second = self.second_at();
        Item {
            number: self.number(),
            resource: self.resource(),
            priority: u32::from(u16_at(bytes, first + 4)),
            work: self.work(),
            predecessor: u16_at(bytes, first + 6),
            period: u32_at(bytes, second + 8),
            delay: u32_at(bytes, second + 12),
        }
    }

    /// Whether its number is not above that of the item before it.
    pub(crate) fn descends(&self) -> bool
        ensures { result ≡ descends self.now.file.bytes.now self.now.place }
    {
        self.place > 0 && self.number() <= self.file.record(self.place - 1).number()
    }

    /// Whether it is a frame's, with a second word that is not 0.
    pub(crate) fn has_spare(&self) -> bool
        ensures { result ≡ has_spare self.now.file.bytes.now self.now.place }
    {
        self.on_bus() && u32_at(self.file.bytes, self.second_at() + 4) != 0
    }
}
