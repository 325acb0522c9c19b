//! The climb to the smallest solution of any step that never falls as its number rises.
ghost use Rattle.std.specs.Prelude.{◌≡◌, ℕ, ◌≤◌, List, MatchOption};
ghost use Rattle.service.specs.declared.Record.{Record};
ghost use Rattle.bounds.specs.Numbers.{Rises, Under, Smallest, NoneUpTo};
ghost use Rattle.rules.specs.Workable.{Workable};

use crate::rows::Rows;
use crate::ticks::Ticks;

/// After how many steps a climb asks for a leap.
const PATIENCE: u32 = 15;

/// A step over the checked rows of a resource. Its solutions are the numbers that it leaves where they are.
pub trait Step {
    /// Where the step leads from a number.
    ghost to: { Self → List Record → ℕ → ℕ };

    fn step(&self, rows: &Rows, n: Ticks) -> u64
        ensures { result ≡ to self.now rows.now.records.now n.count };

    /// A number at hand that no solution is below.
    fn start(&self, rows: &Rows) -> u64
        ensures { Under (to self.now rows.now.records.now) result };

    /// Another such number, larger where a climb is long, and dearer to find.
    fn leap(&self, rows: &Rows) -> u64
        ensures { Under (to self.now rows.now.records.now) result };

    ghost rises: { (s : Self) (rs : List Record) → Workable rs → Rises (to s rs) };
}

/// The smallest solution up to the limit, or none if there is none up to it.
pub(crate) fn climb<S: Step>(s: &S, rows: &Rows, limit: Ticks) -> Option<Ticks>
    ensures { MatchOption result (NoneUpTo (S.Step.to s.now rows.now.records.now) limit.count) (λ n. Smallest (S.Step.to s.now rows.now.records.now) n.count × (n.count ≤ limit.count)) }
{
    let most = u64::from(limit.count);
    let mut n = s.start(rows);
    let mut steps = 0u32;
    'rise: while n <= most {
        let here = Ticks { count: n as u32 };
        let next = s.step(rows, here);
        if next == n {
            return Some(here);
        }
        steps = steps.saturating_add(1);
        n = if steps == PATIENCE {
            next.max(s.leap(rows))
        } else {
            next
        };
    }
    None
}
