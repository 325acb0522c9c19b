//! The windows of a plan file, under the pair of the processor rule, with a switch of 0 ticks over it, and the bus rule.
ghost use Rattle.std.specs.Prelude.{◌≡◌, IfOk};
ghost use Rattle.timing.specs.Told.{Told};

use crate::outcome::Outcome;
use files::read::read;
use items::MOST_ITEMS;
use rules::machine::{Machine, machine};
use settle::settling::MOST_SWEEPS;
use std::alloc::{AllocError, Global};
use texts::SentBack;
use visits::visit::answers::visit;
use visits::visit::{Answer, SettledTable, Visit};

/// The rule with a switch of 0 ticks.
pub fn line_rule() -> Machine
    ensures { result.first.ticks ≡ 0 }
{
    match machine(0) {
        Some(rule) => rule,
        None => unreachable(),
    }
}

/// Reads a plan file and settles its plan. Only want of memory leaves it without an outcome.
pub fn windows_of(heap: Global, file: &[u8]) -> Result<Outcome, AllocError>
    ensures { IfOk result (Told file.now) }
{
    let mut plan = match read(file) {
        Ok(plan) => plan,
        Err(fault) => return Ok(Err(SentBack::File(fault))),
    };
    match visit(
        heap,
        &mut plan,
        &Visit::Settle(line_rule(), MOST_SWEEPS, MOST_ITEMS),
    )? {
        Answer::Settled { sweeps, rows } => Ok(Ok(SettledTable { sweeps, rows })),
        Answer::Unsettled(fault) => Ok(Err(SentBack::Settle(fault))),
        _ => unreachable(),
    }
}
