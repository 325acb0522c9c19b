//! The rows under a switch: each greatest demand is longer by twice its ticks.
ghost use Rattle.std.specs.Prelude.{◌≡◌, ◌+◌, ◌*◌, ◌≤◌, true, length, take};
ghost use Rattle.rules.specs.Switches.{longer, roomy, all_longer};

use crate::rows::Rows;
use service::Record;
use service::row::check::HEAVIEST;

/// Whether every row has room for a switch of these ticks.
pub(crate) fn has_room(records: &[Record], ticks: u16) -> bool
    ensures { result ≡ roomy ticks records.now }
{
    let most = HEAVIEST - 2 * u32::from(ticks);
    records.iter().all(|told| told.greatest <= most)
}

/// The record with twice the ticks on its greatest demand.
fn lengthened(mut told: Record, ticks: u16) -> Record
    requires { told.greatest + 2 * ticks ≤ 20000000 }
    ensures { result ≡ longer ticks told }
{
    told.greatest += 2 * u32::from(ticks);
    told
}

/// The longer rows, in the front of the scratch.
pub(crate) fn lengthen(rows: &Rows, ticks: u16, scratch: &mut [Record; 256])
    requires { roomy ticks rows.now.records.now ≡ true }
    ensures { take (length rows.now.records.now) scratch.new ≡ all_longer ticks rows.now.records.now }
{
    // By index: the library says nothing of what is written through an adapter of `iter_mut`.
    for (at, told) in rows.records.iter().enumerate() {
        scratch[at] = lengthened(*told, ticks);
    }
}
