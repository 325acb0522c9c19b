//! Tables of release windows, the runs of a plan's items, and what windows promise: the theory below the settle call.
#![tactic(auto)]

ghost use Rattle.tables.specs.Stands.{Sound, Settling};

use service::Rule;

/// Every allowed run keeps to the finish windows of a steady table, whatever the rule.
pub fn windows_hold<R: Rule>(rule: &R)
    ensures { Sound (R.Rule.allows rule.now) (R.Rule.numbers rule.now) }
{}

/// The sweeps come to the least steady table, or show that there is none, whatever the rule.
pub fn sweeps_settle<R: Rule>(rule: &R)
    ensures { Settling (R.Rule.allows rule.now) (R.Rule.numbers rule.now) }
{}
