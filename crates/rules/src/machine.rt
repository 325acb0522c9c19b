//! The rule of a machine: processors under a switch, and buses.
ghost use Rattle.std.specs.Prelude.{◌≡◌, ◌<◌, MatchOption};

use crate::bus::Bus;
use crate::pair::Pair;
use crate::processor::Processor;
use crate::switch::Switch;

pub type Machine = Pair<Switch<Processor>, Bus>;

/// The rule with a switch of 0 to 1,000 ticks; none beyond.
pub fn machine(ticks: u16) -> Option<Machine>
    ensures { MatchOption result (1000 < ticks) (λ rule. rule.first.ticks ≡ ticks) }
{
    let first = Switch::over(Processor, ticks).ok()?;
    Some(Pair { first, second: Bus })
}
