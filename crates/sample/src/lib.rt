//! A proved instance: what the promises on runs assume can be met.
#![tactic(auto)]

ghost use Rattle.sample.specs.Stands.{Sample};

/// A plan with a chain over two processors and a bus, its steady table, and an allowed run of it in which both arrivals
/// come to the end of the chain.
pub fn sample_stands()
    ensures { Sample }
{}
