//! The plan after its visits, and why there may be none.
ghost use Rattle.std.specs.Prelude.{◌≡◌};
ghost use Rattle.visits.specs.declared.replay.Stop.TheVariants.{Unopened, Memory};

use crate::visit::Answer;
use items::Refusal;
use plan::Plan;
use std::alloc::{AllocError, AllocFailed};

/// The plan after its visits, and their answers.
#[derive(Drop)]
pub struct Replay {
    pub plan: Plan,
    pub answers: Vec<Answer>,
}

/// Why there is no replay.
#[derive(Drop)]
pub enum Stop {
    /// The plan cannot be opened.
    Unopened(Refusal),
    /// Want of memory.
    Memory,
}

// By hand: the contract of `replay` names the variant, and a derived `From` says nothing of it.
impl From<Refusal> for Stop {
    ghost from_gives = { λ refusal stop. stop ≡ Unopened refusal };

    fn from(refusal: Refusal) -> Self {
        Stop::Unopened(refusal)
    }
}

impl From<AllocError> for Stop {
    ghost from_gives = { λ _ stop. stop ≡ Memory };

    fn from(_error: AllocError) -> Self {
        Stop::Memory
    }
}

impl<T: Drop> From<AllocFailed<T>> for Stop {
    ghost from_gives = { λ _ stop. stop ≡ Memory };

    fn from(_refused: AllocFailed<T>) -> Self {
        Stop::Memory
    }
}

pub mod list;
