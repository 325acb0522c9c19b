//! A release window, counted from the arrival.
ghost use Rattle.std.specs.Prelude.{◌+◌, ◌≤◌};

mod length;

#[derive(Clone, Copy, PartialEq)]
pub struct Window {
    pub open: u64,
    pub close: u64,
    ghost ordered: { «open» ≤ close },
    ghost narrow: { close ≤ «open» + 10000000 },
    ghost high: { «open» ≤ 5120000000 },
}
