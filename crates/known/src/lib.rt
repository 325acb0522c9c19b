//! Plans with known windows: what a settle of each comes to, by the definitions that its contract cites.
#![tactic(auto)]

ghost use Rattle.known.specs.Once.{OneWay};
ghost use Rattle.known.specs.Stands.{KnownPlans};

/// Known plans, with the sweeps and finish windows or the fault that a settle of each comes to.
pub fn known_plans_stand()
    ensures { KnownPlans }
{}

/// What a settle comes to is its only answer, whatever the rule and the plan.
pub fn settles_one_way()
    ensures { OneWay }
{}
