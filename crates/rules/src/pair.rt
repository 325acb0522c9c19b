//! A pair of rules: bit time 0 goes to the first, any other to the second.
ghost use Rattle.rules.specs.Layers.{allows_by_bit, numbers_by_bit};
ghost use Rattle.std.specs.Prelude.{zero, suc};

use service::{Record, Response, Rule};

#[derive(Clone, Copy, Drop)]
pub struct Pair<A, B> {
    pub first: A,
    pub second: B,
}

impl<A: Rule, B: Rule> Rule for Pair<A, B> {
    ghost allows = { λ s bit records x. allows_by_bit (A.Rule.allows s.first) (B.Rule.allows s.second) bit records x };

    ghost numbers = { λ s. numbers_by_bit (A.Rule.numbers s.first) (B.Rule.numbers s.second) };

    ghost lawful = { λ s.
        elim [
          | zero ↦ A.Rule.lawful s.first zero
          | suc bit ↦ B.Rule.lawful s.second (suc bit)
        ] };

    fn respond(&self, bit_time: u8, records: &[Record], place: usize) -> Response {
        if bit_time == 0 {
            self.first.respond(bit_time, records, place)
        } else {
            self.second.respond(bit_time, records, place)
        }
    }
}
