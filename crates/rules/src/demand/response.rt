//! The response that a demand leads to.
ghost use Rattle.std.specs.Prelude.{◌≡◌};
ghost use Rattle.bounds.specs.Numbers.{solution};
ghost use Rattle.bounds.specs.Equations.{fitting, plus};
ghost use Rattle.rules.specs.Demands.{demanded};

use crate::climb::climb;
use crate::demand::Demand;
use crate::rows::Rows;
use crate::ticks::Ticks;
use service::Record;
use service::row::Row;

impl Demand {
    /// The smallest solution and the `after` ticks that follow it, if they fit the row's period beside its jitter.
    pub(crate) fn response(&self, rows: &Rows, row: &Row, after: u32) -> Option<u32>
        ensures { result ≡ fitting row.now.told (plus after (solution (demanded self.now rows.now.records.now) row.now.told.period)) }
    {
        let Record { period, jitter, .. } = row.told;
        let room = period.checked_sub(jitter)?.checked_sub(after)?;
        let wait = climb(self, rows, Ticks { count: room })?;
        Some(wait.count + after)
    }
}
