//! The processor rule: the job of highest priority is served in every tick.
ghost use Rattle.std.specs.Prelude.{◌≡◌};
ghost use Rattle.bounds.specs.Equations.{processor_worst};
ghost use Rattle.bounds.specs.Runs.{Processor as ProcessorRun};
ghost use Rattle.rules.specs.Answers.{processor_numbers};
ghost use Rattle.rules.specs.Lawful.{processor_lawful};

use crate::demand::Demand;
use crate::rows::{Meant, Rows};
use service::row::Row;
use service::{Record, Response, Rule};

#[derive(Clone, Copy)]
pub struct Processor;

/// The worst response of the row meant.
fn worst_at(meant: Meant) -> Option<u32>
    ensures { result ≡ processor_worst meant.entry.rows.records.now meant.entry.place }
{
    let row = meant.row();
    let demand = Demand {
        priority: row.told.priority,
        base: row.told.greatest,
        more: 0,
    };
    demand.response(&meant.rows, &row, 0)
}

// The bus's `respond` has these two arms too: the contract of one function for both would be longer, with a ghost function beside the closure that finds the worst.
impl Rule for Processor {
    ghost allows = { λ _ _ records x. ProcessorRun records x };

    ghost numbers = { λ _. processor_numbers };

    ghost lawful = { λ _ _. processor_lawful };

    fn respond(&self, _bit_time: u8, records: &[Record], place: usize) -> Response {
        match Row::meant(records, place) {
            Err(answer) => answer,
            Ok(row) => Response {
                least: row.told.least,
                worst: worst_at(Meant {
                    rows: Rows { records },
                    place,
                }),
            },
        }
    }
}
