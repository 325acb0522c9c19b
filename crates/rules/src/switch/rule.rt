//! The rule that a switch makes of the rule below it.
ghost use Rattle.std.specs.Prelude.{◌≡◌, ◌<◌, ◌≤◌, MatchResult};
ghost use Rattle.rules.specs.Switches.{switched_allows, switched};
ghost use Rattle.rules.specs.Switched.{switched_lawful};

use crate::rows::Rows;
use crate::switch::Switch;
use crate::switch::rows::{has_room, lengthen};
use service::row::Row;
use service::{Record, Response, Rule};

/// The most ticks of a switch.
const MOST: u16 = 1000;

impl<R> Switch<R> {
    /// A switch of 0 to 1,000 ticks over a rule; beyond that the rule is handed back.
    pub fn over(below: R, ticks: u16) -> Result<Switch<R>, R>
        ensures { MatchResult result (λ s. (s.below ≡ below) × (s.ticks ≡ ticks)) (λ back. (back ≡ below) × (1000 < ticks)) }
    {
        if ticks > MOST {
            return Err(below);
        }
        Ok(Switch { below, ticks })
    }
}

impl<R: Rule> Rule for Switch<R> {
    ghost allows = { λ s bit records x. switched_allows s.ticks (R.Rule.allows s.below bit) records x };

    ghost numbers = { λ s. switched s.ticks (R.Rule.numbers s.below) };

    ghost lawful = { λ s bit. switched_lawful s.ticks _ _ _ (R.Rule.lawful s.below bit) };

    fn respond(&self, bit_time: u8, records: &[Record], place: usize) -> Response {
        if self.ticks == 0 {
            return self.below.respond(bit_time, records, place);
        }
        match Row::meant(records, place) {
            Err(answer) => answer,
            Ok(row) => {
                if !has_room(records, self.ticks) {
                    return Response::unbounded(row.told.least);
                }
                // No heap: the longer rows stand in the front of an array.
                let mut scratch = [Record::default(); 256];
                lengthen(&Rows { records }, self.ticks, &mut scratch);
                self.below
                    .respond(bit_time, &scratch[0..records.len()], place)
            }
        }
    }
}
