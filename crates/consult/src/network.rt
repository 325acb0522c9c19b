//! The items of a plan with the rule of its resources, and what is laid down of them once for every table of windows.
ghost use Rattle.std.specs.Prelude.{◌≡◌, []};
ghost use Rattle.items.specs.Valid.{Valid};
ghost use Rattle.items.proofs.Valid.{valid_prop};
ghost use Rattle.consult.specs.Chains.{Linked};
ghost use Rattle.consult.specs.Rows.{Based};

use crate::rows::lay_down;
use items::Item;
use service::{Record, Rule};

/// What stands in the rows at first.
// A constant, since 256 calls of `default` in its place double the time of a settle of three items.
pub(crate) const NO_ROW: Record = Record {
    priority: 0,
    period: 0,
    jitter: 0,
    least: 0,
    greatest: 0,
};

/// The resources and the items of a valid plan, the rule, and what no window changes.
#[derive(Drop)]
pub struct Network<'a, R: Rule> {
    pub rule: &'a R,
    /// The bit times of the resources, the first resource first.
    pub bits: &'a [u8],
    pub items: &'a [Item],
    /// Where the predecessor of each item stands; a head has none.
    pub links: [Option<u16>; 256],
    /// Each item's row of no jitter.
    pub base: [Record; 256],
    pub ghost valid: { Valid bits.now items.now } by { valid_prop bits.now items.now },
    pub ghost linked: { Linked items.now links },
    pub ghost based: { Based bits.now items.now base },
}

impl<'a, R: Rule> Network<'a, R> {
    /// The network of a plan that has no item yet.
    pub fn of_none(rule: &'a R, bits: &'a [u8]) -> Self
        requires { Valid bits.now [] }
        ensures rule { result.rule.now ≡ rule.now }
        ensures bits { result.bits.now ≡ bits.now }
        ensures items { result.items.now ≡ [] }
    {
        Network {
            rule,
            bits,
            items: &[],
            links: [None; 256],
            base: [NO_ROW; 256],
        }
    }

    /// Takes these items in place of those that it has, and lays down each one's link and row.
    pub fn take(&mut self, items: &'a [Item])
        requires { Valid self.old.bits.now items.now }
        ensures rule { self.new.rule ≡ self.old.rule }
        ensures bits { self.new.bits ≡ self.old.bits }
        ensures items { self.new.items ≡ items.entry }
    {
        lay_down(self.bits, items, &mut self.links, &mut self.base);
        self.items = items;
    }

    /// Lays down each item's link and row. Where a move of the arrays counts, make one of no items and have it take them.
    pub fn new(rule: &'a R, bits: &'a [u8], items: &'a [Item]) -> Self
        requires { Valid bits.now items.now }
        ensures rule { result.rule.now ≡ rule.now }
        ensures bits { result.bits.now ≡ bits.now }
        ensures items { result.items.now ≡ items.now }
    {
        let mut network = Network::of_none(rule, bits);
        network.take(items);
        network
    }
}
