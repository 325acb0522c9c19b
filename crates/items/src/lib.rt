// What a plan is made of: items with their work, the refusals of a plan's calls, the entries of a journal.
// The specs say what the calls of a plan mean; `theorems` proves what holds of them over every list of visits.
#![tactic(auto)]

ghost use Rattle.std.specs.Prelude.{◌≡◌};
ghost use Rattle.items.specs.Items.{reworked};
ghost use Rattle.items.specs.Refusals.{number_of};

pub mod lists;
pub mod theorems;

/// The most items of a plan.
pub const MOST_ITEMS: usize = 256;

/// What an item asks of its resource.
#[derive(Clone, Copy)]
pub enum Work {
    /// Least and greatest demand, in ticks.
    Task(u32, u32),
    /// Data bytes.
    Frame(u32),
}

/// One item of a plan: a task or a frame, the head of a chain or a follower in it.
// Zeros and no `Option`: this is what is offered, and a follower with a period of its own must be sayable to be refused; file and script write 0 for a head's predecessor.
#[derive(Clone, Copy)]
pub struct Item {
    pub number: u16,
    /// Counted from 1.
    pub resource: u16,
    /// The smaller goes first.
    pub priority: u32,
    pub work: Work,
    /// The number of the item before it in its chain; 0 at a head.
    pub predecessor: u16,
    /// 0 but at a head.
    pub period: u32,
    /// 0 but at a head.
    pub delay: u32,
}

impl Item {
    /// Replaces the work, and nothing else.
    pub fn set_work(&mut self, work: Work)
        ensures { self.new ≡ reworked work self.old }
    {
        self.work = work;
    }
}

/// What a journal holds of an edit: the number that it was about, and the record that stood under it before.
#[derive(Clone, Copy)]
pub struct Entry {
    pub number: u16,
    pub before: Option<Item>,
}

/// Why a call of a plan is sent back.
#[derive(Clone, Copy)]
pub enum Refusal {
    ResourceCount = 1,
    BitTime = 2,
    Number = 3,
    NumberStands = 4,
    NoResource = 5,
    Priority = 6,
    PriorityUsed = 7,
    WrongKind = 8,
    WorkRange = 9,
    Predecessor = 10,
    Timing = 11,
    PlanFull = 12,
    NotStanding = 13,
    HasSuccessor = 14,
    NothingToUndo = 15,
}

impl Refusal {
    /// The number under which the refusal is reported.
    pub fn number(&self) -> u8
        ensures { result ≡ number_of self.now }
    {
        *self as u8
    }
}
