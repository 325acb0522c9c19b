//! A number of ticks that is no larger than the longest period.
ghost use Rattle.std.specs.Prelude.{◌≤◌};

#[derive(Clone, Copy)]
pub struct Ticks {
    pub count: u32,
    ghost within: { count ≤ 10000000 },
}
