//! What a service rule is: what it is told of one resource, what it answers, and what it must show.
#![tactic(auto)]

ghost use Rattle.std.specs.Prelude.{◌≡◌, ℕ, List, None};
ghost use Rattle.service.specs.Traces.{Trace};
ghost use Rattle.service.specs.Numbers.{Numbers};
ghost use Rattle.service.specs.Laws.{LawfulRule};
ghost use Rattle.service.specs.declared.Record.{Record};

pub mod row;

/// What a rule is told of one item on its resource, before it is checked. Times are in ticks.
#[derive(Clone, Copy, Default)]
#[repr(C)]
pub struct Record {
    /// The smaller goes first.
    pub priority: u32,
    /// At least so far apart are any two arrivals.
    pub period: u32,
    /// The length of a release window.
    pub jitter: u32,
    /// The smallest demand of a job.
    pub least: u32,
    /// The largest demand of a job.
    pub greatest: u32,
}

/// The least response, and the worst one if there is a bound.
#[derive(Clone, Copy, Default)]
pub struct Response {
    pub least: u32,
    pub worst: Option<u32>,
}

impl Response {
    /// A least response with no bound.
    pub fn unbounded(least: u32) -> Response
        ensures least { result.least ≡ least }
        ensures worst { result.worst ≡ None }
    {
        Response { least, worst: None }
    }
}

/// A way to serve the jobs of one resource: the runs that it allows, and the two numbers that hold in all of them.
pub trait Rule {
    /// The runs that the rule allows on a resource of a bit time and with these records.
    ghost allows: { Self → ℕ → List Record → Trace → Type 0 };

    /// The least and the worst response of the row at a place.
    ghost numbers: { Self → Numbers };

    // A bit time of 0 is a processor's: C callers and plan files hand over the byte, and the bus's equations count with it.
    fn respond(&self, bit_time: u8, records: &[Record], place: usize) -> Response
        ensures least { result.least ≡ (numbers self.now).least bit_time records.now place }
        ensures worst { result.worst ≡ (numbers self.now).worst bit_time records.now place };

    ghost lawful: { (s : Self) → LawfulRule (allows s) (numbers s) };
}
