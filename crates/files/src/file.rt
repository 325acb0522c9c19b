//! A plan file, read where it lies: a struct over the caller's bytes.
ghost use Rattle.std.specs.Prelude.{◌≡◌, ◌<◌, Some, MatchResult};
ghost use Rattle.layout.specs.Reading.{Fitted, head_fault, items_in, bits_of};

use crate::record::ItemRecord;
use crate::words::u16_at;
use layout::FileFault;

/// The bytes of a file whose sizes are in range and ask for just its length.
#[derive(Clone, Copy)]
pub(crate) struct PlanFile<'a> {
    pub(crate) bytes: &'a [u8],
    pub(crate) resources: usize,
    pub(crate) items: usize,
    ghost fitted: { Fitted bytes.now resources items },
}

impl<'a> PlanFile<'a> {
    /// The file over these bytes, unless its sizes or its length are at fault.
    pub(crate) fn over(bytes: &'a [u8]) -> Result<PlanFile<'a>, FileFault>
        ensures { MatchResult result (λ file. file.bytes.now ≡ bytes.now) (λ fault. head_fault bytes.now ≡ Some fault) }
    {
        if bytes.len() < 4 {
            return Err(FileFault::Length);
        }
        let resources = u16_at(bytes, 0) as usize;
        let items = u16_at(bytes, 2) as usize;
        if !(1..=16).contains(&resources) || items > 256 {
            return Err(FileFault::Sizes);
        }
        if bytes.len() != 4 + resources + 24 * items {
            return Err(FileFault::Length);
        }
        Ok(PlanFile {
            bytes,
            resources,
            items,
        })
    }

    /// How many items it has.
    pub(crate) fn count(&self) -> usize
        ensures { result ≡ items_in self.now.bytes.now }
    {
        self.items
    }

    /// The bit times of its resources.
    pub(crate) fn bit_times(&self) -> &'a [u8]
        ensures { result.now ≡ bits_of self.now.bytes.now }
    {
        &self.bytes[4..4 + self.resources]
    }

    /// The record of the item at a place.
    pub(crate) fn record(&self, place: usize) -> ItemRecord<'a>
        requires { place < items_in self.now.bytes.now }
        ensures { (result.file.bytes.now ≡ self.now.bytes.now) × (result.place ≡ place) }
    {
        ItemRecord { file: *self, place }
    }
}
