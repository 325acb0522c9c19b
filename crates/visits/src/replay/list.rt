//! A whole list of visits to a plan just opened.
ghost use Rattle.std.specs.Prelude.{◌≡◌, [], None, MatchResult};
ghost use Rattle.items.specs.Conditions.{open_refusal};
ghost use Rattle.plan.specs.Views.{view};
ghost use Rattle.visits.specs.Replays.{Replayed};
ghost use Rattle.visits.specs.Openings.{Stopped};

use crate::replay::{Replay, Stop};
use crate::visit::Visit;
use crate::visit::answers::visit;
use plan::Plan;
use service::Rule;
use std::alloc::Global;

/// Opens a plan over these bit times and makes every visit, each under its own rule.
pub fn replay<R: Rule>(heap: Global, bit_times: &[u8], visits: &[Visit<R>]) -> Result<Replay, Stop>
    ensures { MatchResult result (λ done. (open_refusal bit_times.now ≡ None) × Replayed R.Rule.allows R.Rule.numbers bit_times.now [] visits.now done.answers.items (view done.plan).items) (Stopped bit_times.now) }
{
    let mut plan = Plan::open(bit_times)?;
    let mut answers = Vec::new(heap);
    for told in visits {
        answers.push(visit(heap, &mut plan, told)?)?;
    }
    Ok(Replay { plan, answers })
}
