//! The settle call.
ghost use Rattle.plan.specs.Views.{view};
ghost use Rattle.settle.specs.Settled.{Settled};

use crate::sweeps::Sweeps;
use crate::{Fault, WindowRow};
use consult::network::Network;
use consult::window::Window;
use plan::Plan;
use service::{Response, Rule};

/// What stands in the answers at first.
// A constant, as the rows of `consult` are.
const NONE: Response = Response {
    least: 0,
    worst: None,
};

/// The most sweeps of a budget.
pub const MOST_SWEEPS: u32 = 10_000;

/// Sweeps over the windows of a plan's items until a sweep alters nothing, within a budget of 1 to 10,000 sweeps.
/// Writes number, release window and finish window of each item, ascending, into the front of the table, and answers the count of sweeps.
/// At a fault the table is as it was.
pub fn settle<R: Rule>(
    plan: &Plan,
    rule: &R,
    budget: u32,
    table: &mut [WindowRow],
) -> Result<u32, Fault>
    ensures { Settled (R.Rule.allows rule.now) (R.Rule.numbers rule.now) (view plan.now).bits (view plan.now).items budget table.old table.new result }
{
    if budget == 0 || budget > MOST_SWEEPS {
        return Err(Fault::Budget);
    }
    let items = plan.items();
    if table.len() < items.len() {
        return Err(Fault::TableShort);
    }
    // Not by `new`, from which the arrays would be moved.
    let mut network = Network::of_none(rule, plan.bit_times());
    network.take(items);
    let mut sweeps = Sweeps {
        network: &network,
        windows: [Window::EMPTY; 256],
        next: [Window::EMPTY; 256],
        stale: [true; 16],
        answers: [NONE; 256],
    };
    let count = sweeps.run(budget)?;
    sweeps.write(table);
    Ok(count)
}
