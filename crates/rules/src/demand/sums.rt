//! The sums of a demand: what is asked in a stretch, what is asked at least, and how steeply it rises.
ghost use Rattle.std.specs.Prelude.{◌≡◌, ℕ, ◌+◌, ◌^◌, ◌<◌, ◌≤◌, min, nat_lt};
ghost use Rattle.std.specs.Fn.{FnReturnsAt};
ghost use Rattle.service.specs.declared.Record.{Record};
ghost use Rattle.service.specs.declared.row.Row.{Row};
ghost use Rattle.bounds.specs.Numbers.{Under};
ghost use Rattle.bounds.specs.Equations.{asks, summed};
ghost use Rattle.rules.specs.Demands.{demanded, once, steep, slopes, Full, RisesBy};
ghost use Rattle.std.proofs.Common.{arith};
ghost use Rattle.service.proofs.Checks.{rows_since};
ghost use Rattle.bounds.proofs.Sums.{above_grows};

use crate::climb::Step;
use crate::demand::Demand;
use crate::rows::Rows;
use crate::ticks::Ticks;
use service::Record;
use service::row::Row;

/// One, where slopes are counted.
const ONE: u64 = 4294967296;

/// What a row's jobs can ask for in a stretch of `n` ticks, counting `more` ticks further.
fn asked(row: &Row, n: Ticks, more: u8) -> u64
    ensures value { result ≡ asks more n.count row.now.told }
    ensures bound { result ≤ 2 ^ 50 }
{
    let Record {
        period,
        jitter,
        greatest,
        ..
    } = row.told;
    let span = n.count + jitter + u32::from(more);
    u64::from((span + (period - 1)) / period) * u64::from(greatest)
}

/// How steeply a row's demand rises, in parts of 2 ^ 32 a tick, rounded down.
fn steepness(row: &Row) -> u64
    ensures value { result ≡ steep row.now.told }
    ensures bound { result ≤ 2 ^ 57 }
{
    u64::from(row.told.greatest) * ONE / u64::from(row.told.period)
}

impl Demand {
    /// Whether a row's jobs are waited for: it goes before the demand's priority.
    fn waits_for(&self, row: &Row) -> bool
        ensures { result ≡ nat_lt row.now.told.priority self.now.priority }
    {
        row.told.priority < self.priority
    }

    /// The base, and what `of` gives for each row that is waited for.
    fn add_up<F: Fn(&Row) -> u64>(&self, rows: &Rows, of: F) -> u64
        requires callable { F.IsAlwaysCallable of }
        requires bound { (w : Row) (v : ℕ) → FnReturnsAt F.Fn of w v → v ≤ 2 ^ 50 }
        ensures { (f : Record → ℕ) → ((w : Row) (v : ℕ) → FnReturnsAt F.Fn of w v → v ≡ f w.told) → result ≡ self.now.base + summed f self.now.priority rows.now.records.now }
    {
        let mut sum = u64::from(self.base);
        for told in rows.records {
            let row = Row { told: *told };
            if self.waits_for(&row) {
                sum += of(&row);
            }
        }
        sum
    }

    /// How steeply the higher rows' demand rises, in parts of 2 ^ 32 a tick, each rounded down, and 2 ^ 32 at most.
    // Not by `add_up`: 256 slopes may pass 64 bits, so this loop ends once it has the most that is answered.
    fn slope(&self, rows: &Rows) -> u64
        ensures value { result ≡ min (slopes self.now rows.now.records.now) (2 ^ 32) }
        ensures slow { RisesBy self.now rows.now.records.now result }
    {
        let mut sum = 0u64;
        for told in rows.records {
            let row = Row { told: *told };
            if self.waits_for(&row) {
                sum += steepness(&row);
                if sum >= ONE {
                    return ONE;
                }
            }
        }
        sum
    }
}

impl Step for Demand {
    ghost to = { demanded };

    ghost rises = { λ d rs works m n h. omega (arith, above_grows d.priority d.more rs (rows_since rs works.all) m n h) };

    fn step(&self, rows: &Rows, n: Ticks) -> u64 {
        self.add_up(rows, |row| asked(row, n, self.more))
    }

    fn start(&self, rows: &Rows) -> u64
        ensures under { Under (demanded self.now rows.now.records.now) result }
        ensures value { result ≡ once self.now rows.now.records.now }
    {
        self.add_up(rows, |row| u64::from(row.told.greatest))
    }

    fn leap(&self, rows: &Rows) -> u64
        ensures under { Under (demanded self.now rows.now.records.now) result }
        ensures beyond { Full self.now rows.now.records.now → 10000000 < result }
    {
        let slope = self.slope(rows);
        if slope == ONE {
            return u64::MAX;
        }
        u64::from(self.base) * ONE / (ONE - slope)
    }
}
