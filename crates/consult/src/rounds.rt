//! A round of consulting: the rule's answer for every item of one resource, of the resources marked, or of all.
ghost use Rattle.std.specs.Prelude.{◌≤◌, length};
ghost use Rattle.items.specs.Conditions.{bit_time_of};
ghost use Rattle.tables.specs.Demands.{rows_on};
ghost use Rattle.consult.specs.Answers.{AnsweredOn, Renewed, Answered};
ghost use Rattle.consult.specs.Windows.{front};

use crate::network::{NO_ROW, Network};
use crate::window::Window;
use service::{Record, Response, Rule};

// The windows are a slice, of any length that covers the items: an array of 256 would ask more of callers.
impl<'a, R: Rule> Network<'a, R> {
    /// The answers for the items on a resource, each by its place among them; the other answers stay.
    fn ask_each(&self, bit_time: u8, rows: &[Record], resource: u16, answers: &mut [Response; 256])
        ensures { AnsweredOn (R.Rule.numbers self.now.rule.now) bit_time rows.now resource self.now.items.now answers.old answers.new }
    {
        // Counted by hand: after `enumerate`, `filter` and `enumerate` again the loop would take `(place, (at, _))`, and lose the item.
        let mut place = 0;
        for (at, item) in self.items.iter().enumerate() {
            if item.resource == resource {
                answers[at] = self.rule.respond(bit_time, rows, place);
                place += 1;
            }
        }
    }

    /// The answers for the items on a resource, from the rows that the windows give it; the other answers stay. `rows` is scratch.
    pub fn consult_on(
        &self,
        windows: &[Window],
        resource: u16,
        rows: &mut [Record; 256],
        answers: &mut [Response; 256],
    )
        requires sized { length self.now.items.now ≤ length windows.now }
        requires low { 1 ≤ resource }
        requires high { resource ≤ length self.now.bits.now }
        ensures { AnsweredOn (R.Rule.numbers self.now.rule.now) (bit_time_of self.now.bits.now resource) (rows_on self.now.bits.now self.now.items.now resource self.now.items.now (front (length self.now.items.now) windows.now)) resource self.now.items.now answers.old answers.new }
    {
        let bit_time = self.bits[usize::from(resource) - 1];
        let rows = self.rows_on(windows, resource, rows);
        self.ask_each(bit_time, rows, resource, answers);
    }

    /// The answers for the items of the stale resources; the other answers stay.
    pub fn renew(&self, windows: &[Window], stale: &[bool; 16], answers: &mut [Response; 256])
        requires { length self.now.items.now ≤ length windows.now }
        ensures { Renewed (R.Rule.numbers self.now.rule.now) self.now.bits.now self.now.items.now (front (length self.now.items.now) windows.now) stale.now answers.old answers.new }
    {
        // With no item there is nothing to ask, and no scratch to fill.
        if self.items.is_empty() {
            return;
        }
        let mut rows = [NO_ROW; 256];
        // By number: bit times and marks are both looked up by it, one of them in the call.
        for resource in 1..=self.bits.len() as u16 {
            if stale[usize::from(resource) - 1] {
                self.consult_on(windows, resource, &mut rows, answers);
            }
        }
    }

    /// The answers for all items.
    pub fn consult(&self, windows: &[Window], answers: &mut [Response; 256])
        requires { length self.now.items.now ≤ length windows.now }
        ensures { Answered (R.Rule.numbers self.now.rule.now) self.now.bits.now self.now.items.now (front (length self.now.items.now) windows.now) answers.new }
    {
        self.renew(windows, &[true; 16], answers);
    }
}
