//! What an item's work asks of its resource.
ghost use Rattle.std.specs.Prelude.{◌≡◌};
ghost use Rattle.items.specs.Valid.{ValidWork};
ghost use Rattle.tables.specs.Demands.{least_of, greatest_of};

use items::Work;

/// The smallest and the largest demand of a job, in ticks.
#[derive(Clone, Copy)]
pub struct Demands {
    pub least: u32,
    pub greatest: u32,
}

/// The demands of work on a resource of this bit time.
pub fn demands_of(work: Work, bit_time: u8) -> Demands
    requires { ValidWork bit_time work }
    ensures least { result.least ≡ least_of bit_time work }
    ensures greatest { result.greatest ≡ greatest_of bit_time work }
{
    match work {
        Work::Task(least, greatest) => Demands { least, greatest },
        Work::Frame(bytes) => Demands {
            least: (47 + 8 * bytes) * u32::from(bit_time),
            greatest: (55 + 10 * bytes) * u32::from(bit_time),
        },
    }
}
