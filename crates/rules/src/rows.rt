//! The rows of a resource, all checked, and one of them that is meant.
ghost use Rattle.std.specs.Prelude.{◌≡◌, ◌<◌, length};
ghost use Rattle.service.specs.Rows.{row};
ghost use Rattle.bounds.specs.Equations.{longest};
ghost use Rattle.rules.specs.Workable.{Workable};

use service::Record;
use service::row::Row;

/// Each record is a row, and they are 256 at most.
#[derive(Clone, Copy)]
pub struct Rows<'a> {
    pub records: &'a [Record],
    ghost workable: { Workable records.now },
}

impl<'a> Rows<'a> {
    /// The longest frame at or below a priority.
    pub(crate) fn longest_from(&self, priority: u32) -> u32
        ensures { result ≡ longest priority self.now.records.now }
    {
        let mut most = 0;
        for told in self.records {
            if priority <= told.priority {
                most = told.greatest.max(most);
            }
        }
        most
    }
}

/// One row, by its place among the rows of its resource.
#[derive(Clone, Copy)]
pub struct Meant<'a> {
    pub rows: Rows<'a>,
    pub place: usize,
    ghost within: { place < length rows.records.now },
}

impl<'a> Meant<'a> {
    /// The row itself.
    pub(crate) fn row(&self) -> Row
        ensures { result.told ≡ row self.now.rows.records.now self.now.place }
    {
        Row {
            told: self.rows.records[self.place],
        }
    }
}
