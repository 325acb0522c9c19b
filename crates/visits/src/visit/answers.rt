//! One visit and its answer.
ghost use Rattle.std.specs.Prelude.{◌≡◌, IfOk};
ghost use Rattle.items.specs.Journal.{answer, visited};
ghost use Rattle.plan.specs.Views.{view};
ghost use Rattle.visits.specs.Visits.{asked};
ghost use Rattle.visits.specs.Answers.{SettlesAs, Right};

use crate::visit::{Answer, SettledTable, Visit};
use items::MOST_ITEMS;
use plan::Plan;
use service::Rule;
use settle::settling::settle;
use settle::{Fault, WindowRow};
use std::alloc::{AllocError, Global};

/// What a settle comes to.
fn settled<R: Rule>(
    heap: Global,
    plan: &Plan,
    rule: &R,
    budget: u32,
    rows: usize,
) -> Result<Result<SettledTable, Fault>, AllocError>
    ensures { IfOk result (SettlesAs (R.Rule.allows rule.now) (R.Rule.numbers rule.now) (view plan.now).bits (view plan.now).items budget rows) }
{
    let mut table = vec![in heap; WindowRow::default(); rows.min(MOST_ITEMS)]?;
    match settle(plan, rule, budget, table.as_mut_slice()) {
        Ok(sweeps) => {
            table.truncate(plan.items().len());
            Ok(Ok(SettledTable {
                sweeps,
                rows: table,
            }))
        }
        Err(fault) => Ok(Err(fault)),
    }
}

/// One visit: what is asked is done, and answered. Only want of memory leaves it without an answer.
pub fn visit<R: Rule>(heap: Global, plan: &mut Plan, visit: &Visit<R>) -> Result<Answer, AllocError>
    ensures answer { IfOk result (Right R.Rule.allows R.Rule.numbers (answer (view plan.old) (asked visit.now)) (view plan.old).bits (view plan.old).items visit.now) }
    ensures state { view plan.new ≡ visited (view plan.old) (asked visit.now) }
{
    Ok(match visit {
        Visit::Place(item) => Answer::Edited(plan.place(*item)),
        Visit::Withdraw(number) => Answer::Edited(plan.withdraw(*number)),
        Visit::Retime(number, work) => Answer::Edited(plan.retime(*number, *work)),
        Visit::Undo => Answer::Edited(plan.undo()),
        Visit::Settle(rule, budget, rows) => {
            match settled(heap, plan, rule, *budget, *rows)? {
                Ok(SettledTable { sweeps, rows }) => Answer::Settled { sweeps, rows },
                Err(fault) => Answer::Unsettled(fault),
            }
        }
        Visit::Items => Answer::Listed(Vec::from_slice(heap, plan.items())?),
    })
}
