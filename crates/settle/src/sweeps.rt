//! The sweeps of a settle.
ghost use Rattle.std.specs.Prelude.{◌≡◌, ◌-◌, ◌≤◌, true, length, replicate};
ghost use Rattle.consult.specs.Windows.{front};
ghost use Rattle.tables.specs.Tables.{blank};
ghost use Rattle.settle.specs.Settled.{Ends};
ghost use Rattle.settle.specs.Sweeps.{Fresh, Made, Swept, Left};

use crate::Fault;
use crate::windows::{altered, lead, lowest_unbounded, renew_windows, stale_resources};
use consult::network::Network;
use consult::window::Window;
use service::{Response, Rule};

/// Where the sweeps over a network stand.
#[derive(Drop)]
pub(crate) struct Sweeps<'a, R: Rule> {
    pub network: &'a Network<'a, R>,
    /// A window for each item, in the front.
    pub windows: [Window; 256],
    /// The windows that come next, in the front. A field, since an array of its own for each sweep is a copy for each.
    pub next: [Window; 256],
    /// The resources for which the answers no longer hold, the first resource first.
    pub stale: [bool; 16],
    /// The rule's answer for each item, in the front.
    pub answers: [Response; 256],
    pub ghost fresh: { Fresh (R.Rule.numbers network.now.rule.now) network.now.bits.now network.now.items.now (front (length network.now.items.now) windows) stale answers },
}

impl<'a, R: Rule> Sweeps<'a, R> {
    /// The first table, from the answers to empty windows.
    fn begin(&mut self)
        requires empty { front (length self.old.network.now.items.now) self.old.windows ≡ blank (R.Rule.numbers self.old.network.now.rule.now) self.old.network.now.bits.now self.old.network.now.items.now }
        requires next { front (length self.old.network.now.items.now) self.old.next ≡ blank (R.Rule.numbers self.old.network.now.rule.now) self.old.network.now.bits.now self.old.network.now.items.now }
        requires stale { self.old.stale ≡ replicate 16 true }
        ensures same { self.new.network ≡ self.old.network }
        ensures first { Made (R.Rule.numbers self.new.network.now.rule.now) self.new.network.now.bits.now self.new.network.now.items.now 0 (front (length self.new.network.now.items.now) self.new.windows) }
    {
        self.network.consult(&self.windows, &mut self.answers);
        lead(self.network, &self.answers, &mut self.windows);
        self.stale = stale_resources(self.network, &self.next, &self.windows);
    }

    /// The sweep of a number, counted from 1: consults the rule on the items of the stale resources and renews the windows.
    /// Answers whether a window altered.
    fn sweep(&mut self, number: u32) -> Result<bool, Fault>
        requires low { 1 ≤ number }
        requires made { Made (R.Rule.numbers self.old.network.now.rule.now) self.old.network.now.bits.now self.old.network.now.items.now (number - 1) (front (length self.old.network.now.items.now) self.old.windows) }
        ensures same { self.new.network ≡ self.old.network }
        ensures swept { Swept (R.Rule.numbers self.new.network.now.rule.now) self.new.network.now.bits.now self.new.network.now.items.now number (front (length self.new.network.now.items.now) self.new.windows) self.new.answers result }
    {
        let count = self.network.items.len();
        self.network
            .renew(&self.windows, &self.stale, &mut self.answers);
        if let Some(place) = lowest_unbounded(&self.answers, count) {
            let item = self.network.items[place];
            return Err(Fault::Unbounded {
                item: item.number,
                resource: item.resource,
                sweep: number,
            });
        }
        renew_windows(self.network, &self.windows, &self.answers, &mut self.next);
        if !altered(&self.windows, &self.next, count) {
            return Ok(false);
        }
        self.stale = stale_resources(self.network, &self.windows, &self.next);
        self.windows = self.next;
        Ok(true)
    }

    /// The sweeps from empty windows on, until one alters nothing or the budget is spent: how many there were.
    pub fn run(&mut self, budget: u32) -> Result<u32, Fault>
        requires empty { front (length self.old.network.now.items.now) self.old.windows ≡ blank (R.Rule.numbers self.old.network.now.rule.now) self.old.network.now.bits.now self.old.network.now.items.now }
        requires next { front (length self.old.network.now.items.now) self.old.next ≡ blank (R.Rule.numbers self.old.network.now.rule.now) self.old.network.now.bits.now self.old.network.now.items.now }
        requires stale { self.old.stale ≡ replicate 16 true }
        ensures same { self.new.network ≡ self.old.network }
        ensures ends { Ends (R.Rule.numbers self.new.network.now.rule.now) self.new.network.now.bits.now self.new.network.now.items.now budget result }
        ensures left { Left (R.Rule.numbers self.new.network.now.rule.now) self.new.network.now.bits.now self.new.network.now.items.now (front (length self.new.network.now.items.now) self.new.windows) self.new.answers result }
    {
        self.begin();
        for number in 1..=budget {
            if !self.sweep(number)? {
                return Ok(number);
            }
        }
        Err(Fault::Unsettled)
    }
}
