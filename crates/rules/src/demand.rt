//! What a row waits for: a base, and the jobs of the rows above its priority.
ghost use Rattle.std.specs.Prelude.{◌≤◌};

#[derive(Clone, Copy)]
pub struct Demand {
    /// Rows of a smaller number are waited for.
    pub priority: u32,
    /// What is waited for once.
    pub base: u32,
    /// How many ticks further arrivals count.
    pub more: u8,
    ghost base_low: { 1 ≤ base },
    ghost base_high: { base ≤ 20000000 },
}

pub mod response;
pub mod sums;
