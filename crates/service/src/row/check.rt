//! Rows from records: the check of one, of all, and of what a rule is told.
ghost use Rattle.std.specs.Prelude.{◌≡◌, true, MatchOption, MatchResult};
ghost use Rattle.service.specs.Rows.{row, IsRow};
ghost use Rattle.service.specs.Answers.{is_row, all_rows, admitted, Refused};

use crate::row::Row;
use crate::{Record, Response};

/// The longest period, and the most jitter.
const LONGEST: u32 = 10_000_000;

/// The largest demand of a row.
pub const HEAVIEST: u32 = 20_000_000;

/// The most rows that a rule works with.
const MOST_ROWS: usize = 256;

impl Record {
    /// Whether the record can be a row.
    pub fn is_row(&self) -> bool
        ensures { result ≡ is_row self.now }
    {
        self.period >= 1
            && self.period <= LONGEST
            && self.jitter <= LONGEST
            && self.least >= 1
            && self.least <= self.greatest
            && self.greatest <= HEAVIEST
    }
}

impl Row {
    /// The row of a record, if the record can be one.
    pub fn of(from: &Record) -> Option<Row>
        ensures { MatchOption result (IsRow from.now → ⊥) (λ w. w.told ≡ from.now) }
    {
        if from.is_row() {
            Some(Row { told: *from })
        } else {
            None
        }
    }

    /// The row at the place meant, or what every rule answers where it has no numbers of its own to give.
    pub fn meant(records: &[Record], place: usize) -> Result<Row, Response>
        ensures { MatchResult result (λ w. (admitted records.now place ≡ true) × (w.told ≡ row records.now place)) (Refused records.now place) }
    {
        if !are_rows(records) || place >= records.len() {
            return Err(Response::unbounded(1));
        }
        if records.len() > MOST_ROWS {
            return Err(Response::unbounded(records[place].least));
        }
        Row::of(&records[place]).ok_or(Response::unbounded(1))
    }
}

/// Whether every record can be a row.
pub fn are_rows(records: &[Record]) -> bool
    ensures { result ≡ all_rows records.now }
{
    // A loop, since `all` costs a fifth more at 16 rows (docs/SPEED.md).
    for told in records {
        if !told.is_row() {
            return false;
        }
    }
    true
}
