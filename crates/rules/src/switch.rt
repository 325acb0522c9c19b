//! A switch over a rule: each job pays for being switched to and away from.
ghost use Rattle.std.specs.Prelude.{◌≤◌};

#[derive(Drop)]
pub struct Switch<R> {
    below: R,
    ticks: u16,
    ghost small: { ticks ≤ 1000 },
}

pub mod rows;
pub mod rule;
