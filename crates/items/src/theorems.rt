// What is proved of a plan's calls over every list of visits: each function stands for the theorem in its contract.
ghost use Rattle.items.specs.Stands.{OpensValid, EditsKeepValid, VisitsKeep, VisitsFollow, FollowsLedger, Undoes32};

/// A plan that opens is valid.
#[tactic(auto, using(crate::proofs::Kept::opens_valid))]
pub fn opening_is_valid()
    ensures { OpensValid }
{}

/// An accepted edit leaves a valid plan valid.
#[tactic(auto, using(crate::proofs::Kept::edits_keep_valid))]
pub fn editing_stays_valid()
    ensures { EditsKeepValid }
{}

/// Every visit leaves the items valid, and so they are with any entries of the journal taken back.
#[tactic(auto, using(crate::proofs::Kept::visits_keep))]
pub fn visit_keeps()
    ensures { VisitsKeep }
{}

/// A visit gets the ledger's answer and leaves what the ledger says.
#[tactic(auto, using(crate::proofs::Tracking::visits_follow))]
pub fn visit_follows()
    ensures { VisitsFollow }
{}

/// After any visits the items and the next answer are the ledger's.
#[tactic(auto, using(crate::proofs::Tracking::follows_ledger))]
pub fn plan_follows_ledger()
    ensures { FollowsLedger }
{}

/// Of 33 placements 32 can be taken back, and no more.
pub fn undoes_32()
    ensures { Undoes32 }
{}
