//! The bus rule: a frame once begun is served to its end; else the one of highest priority begins.
ghost use Rattle.std.specs.Prelude.{◌≡◌};
ghost use Rattle.bounds.specs.Equations.{bus_worst};
ghost use Rattle.bounds.specs.Runs.{Bus as BusRun};
ghost use Rattle.rules.specs.Answers.{bus_numbers};
ghost use Rattle.rules.specs.Lawful.{bus_lawful};

use crate::demand::Demand;
use crate::rows::{Meant, Rows};
use service::row::Row;
use service::{Record, Response, Rule};

/// The bit time that marks a processor.
const NO_BUS: u8 = 0;

#[derive(Clone, Copy)]
pub struct Bus;

/// The worst response of the row meant.
fn worst_at(bit_time: u8, meant: Meant) -> Option<u32>
    ensures { result ≡ bus_worst bit_time meant.entry.rows.records.now meant.entry.place }
{
    if bit_time == NO_BUS {
        return None;
    }
    let row = meant.row();
    let wait = Demand {
        priority: row.told.priority,
        base: meant.rows.longest_from(row.told.priority),
        more: bit_time,
    };
    wait.response(&meant.rows, &row, row.told.greatest)
}

impl Rule for Bus {
    ghost allows = { λ _ _ records x. BusRun records x };

    ghost numbers = { λ _. bus_numbers };

    ghost lawful = { λ _ bit. bus_lawful bit };

    fn respond(&self, bit_time: u8, records: &[Record], place: usize) -> Response {
        match Row::meant(records, place) {
            Err(answer) => answer,
            Ok(row) => Response {
                least: row.told.least,
                worst: worst_at(
                    bit_time,
                    Meant {
                        rows: Rows { records },
                        place,
                    },
                ),
            },
        }
    }
}
