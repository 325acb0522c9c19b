//! A rule that is one of two, so that one list can hold rules of two types.
ghost use Rattle.rules.specs.Layers.{allows_of_either, of_either};
ghost use Rattle.rules.specs.declared.either.Either.TheVariants.{This, That};

use service::{Record, Response, Rule};

// Not the crate `either`'s: an impl of `Rule` for a type of another crate would have to stand with the trait.
#[derive(Clone, Copy, Drop)]
pub enum Either<A, B> {
    This(A),
    That(B),
}

impl<A: Rule, B: Rule> Rule for Either<A, B> {
    ghost allows = { λ s bit records x. allows_of_either A.Rule.allows B.Rule.allows s bit records x };

    ghost numbers = { λ s. of_either A.Rule.numbers B.Rule.numbers s };

    ghost lawful = { elim [
      | This a ↦ A.Rule.lawful a
      | That b ↦ B.Rule.lawful b
    ] };

    fn respond(&self, bit_time: u8, records: &[Record], place: usize) -> Response {
        match self {
            Either::This(rule) => rule.respond(bit_time, records, place),
            Either::That(rule) => rule.respond(bit_time, records, place),
        }
    }
}
