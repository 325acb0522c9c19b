//! The response equations of a processor and a bus, the runs that they allow, and theorems on both.
#![tactic(auto)]

ghost use Rattle.bounds.specs.Known.{KnownResponses};
ghost use Rattle.bounds.specs.Stands.{WorstsAreSmallest};

/// The worst responses are the smallest solutions of their equations, where these fit the period.
pub fn worsts_are_smallest()
    ensures { WorstsAreSmallest }
{}

/// Known responses, found by the equations.
pub fn known_responses_stand()
    ensures { KnownResponses }
{}
