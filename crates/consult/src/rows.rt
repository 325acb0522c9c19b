//! The rows that a rule is told of a resource: each item's row of no jitter, laid down once, and the rows of one resource with the jitters of a table.
ghost use Rattle.std.specs.Prelude.{◌≡◌, ℕ, ◌≤◌, List, length, take};
ghost use Rattle.items.specs.Conditions.{bit_time_of};
ghost use Rattle.items.specs.Valid.{Valid, ValidItem};
ghost use Rattle.tables.specs.Demands.{rows_on};
ghost use Rattle.consult.specs.Chains.{Linked, Timed};
ghost use Rattle.consult.specs.Rows.{still_row, widened, Based};
ghost use Rattle.consult.specs.Windows.{front, span_of};

use crate::chains::link_at;
use crate::network::Network;
use crate::window::Window;
use crate::work::demands_of;
use items::Item;
use service::{Record, Rule};

/// An item's row of no jitter.
fn base_row(bits: &[u8], item: &Item, period: u32) -> Record
    requires { ValidItem bits.now item.now }
    ensures { result ≡ still_row (bit_time_of bits.now item.now.resource) item.now period }
{
    let bit_time = bits[usize::from(item.resource) - 1];
    let demands = demands_of(item.work, bit_time);
    Record {
        priority: item.priority,
        period,
        jitter: 0,
        least: demands.least,
        greatest: demands.greatest,
    }
}

/// Each item's row of no jitter, in the front of `base`, from its head's period.
pub fn base_rows(bits: &[u8], items: &[Item], ticks: &[u32; 256], base: &mut [Record; 256])
    requires { (Valid bits.now items.now) × (Timed items.now ticks.now) }
    ensures { Based bits.now items.now base.new }
{
    for (at, item) in items.iter().enumerate() {
        base[at] = base_row(bits, item, ticks[at]);
    }
}

#[tactic(auto, using(crate::proofs::Links::place_low))]
/// What windows do not change: the place of each item's predecessor, and each item's row of no jitter.
/// A predecessor stands lower, so its row, with the period of both, is there already.
pub fn lay_down(
    bits: &[u8],
    items: &[Item],
    places: &mut [Option<u16>; 256],
    base: &mut [Record; 256],
)
    requires { Valid bits.now items.now }
    ensures linked { Linked items.now places.new }
    ensures based { Based bits.now items.now base.new }
{
    // By index: a row needs the rows before it, which a loop over `base.iter_mut()` borrows.
    for (at, item) in items.iter().enumerate() {
        let link = link_at(items, at);
        places[at] = link;
        let period = match link {
            Some(place) => base[usize::from(place)].period,
            None => item.period,
        };
        base[at] = base_row(bits, item, period);
    }
}

/// A row with the jitter of a window.
fn widen(row: Record, window: Window) -> Record
    ensures { result ≡ widened (span_of window) row }
{
    Record {
        jitter: window.jitter(),
        ..row
    }
}

/// The rows of a resource with the jitters of a table, in the front of `rows`, and how many they are.
pub fn rows_on(
    items: &[Item],
    base: &[Record; 256],
    windows: &[Window],
    resource: u16,
    rows: &mut [Record; 256],
) -> usize
    requires few { length items.now ≤ 256 }
    requires sized { length items.now ≤ length windows.now }
    ensures count { result ≤ length items.now }
    ensures told { (bits : List ℕ) → Based bits items.now base.now → take result rows.new ≡ rows_on bits items.now resource items.now (front (length items.now) windows.now) }
{
    // Counted by hand: a `Front` would be filled with blanks for every resource of every sweep.
    let mut count = 0;
    for (at, item) in items.iter().enumerate() {
        if item.resource == resource {
            rows[count] = widen(base[at], windows[at]);
            count += 1;
        }
    }
    count
}

impl<'a, R: Rule> Network<'a, R> {
    /// The rows of a resource with the jitters of a table, in the front of `rows`.
    pub fn rows_on<'r>(
        &self,
        windows: &[Window],
        resource: u16,
        rows: &'r mut [Record; 256],
    ) -> &'r [Record]
        requires { length self.now.items.now ≤ length windows.now }
        ensures { result.now ≡ rows_on self.now.bits.now self.now.items.now resource self.now.items.now (front (length self.now.items.now) windows.now) }
    {
        let count = rows_on(self.items, &self.base, windows, resource, rows);
        &rows[..count]
    }
}
