// The conditions on which a call is refused, looked at one after the other.
#![tactic(auto)]

ghost use Rattle.std.specs.Prelude.{◌≡◌, if◌then◌else◌};
ghost use Rattle.items.specs.Refusals.{as_result};
ghost use Rattle.items.specs.Conditions.{outside, some_above, bit_time_of, wrong_kind, work_outside, bad_predecessor, bad_timing, first_met, open_refusal, place_refusal, withdraw_refusal, retime_checks};

use items::{Item, MOST_ITEMS, Refusal, Work, lists};

/// The refusal where the condition is met.
fn refuse_if(met: bool, refusal: Refusal) -> Result<(), Refusal>
    ensures { result ≡ (if met then Err refusal else Ok tt) }
{
    if met { Err(refusal) } else { Ok(()) }
}

/// Whether the number lies outside the two bounds.
fn outside(low: usize, high: usize, n: usize) -> bool
    ensures { result ≡ outside low high n }
{
    !(low..=high).contains(&n)
}

/// Whether some bit time is above the limit.
fn some_above(limit: u8, bit_times: &[u8]) -> bool
    ensures { result ≡ some_above limit bit_times.now }
{
    bit_times.iter().any(|bit_time| limit < *bit_time)
}

/// The bit time of a resource, counted from 1; 0, a processor's, where there is none.
// The definition says so too, and callers refuse such a resource beside it, so that an `Option` would be taken off again.
pub fn bit_time(bit_times: &[u8], resource: u16) -> u8
    ensures { result ≡ bit_time_of bit_times.now resource }
{
    let place = resource.saturating_sub(1) as usize;
    bit_times.get(place).copied().unwrap_or(0)
}

/// Whether a task is for a bus, or a frame for a processor.
fn wrong_kind(bit_time: u8, work: Work) -> bool
    ensures { result ≡ wrong_kind bit_time work }
{
    match work {
        Work::Task(_, _) => bit_time != 0,
        Work::Frame(_) => bit_time == 0,
    }
}

/// Whether demands or data bytes lie outside their bounds.
fn work_outside(work: Work) -> bool
    ensures { result ≡ work_outside work }
{
    match work {
        Work::Task(least, greatest) => least < 1 || greatest < least || greatest > 10_000_000,
        Work::Frame(bytes) => bytes > 8,
    }
}

/// Whether the item has a predecessor that is no standing item of lower number.
fn bad_predecessor(item: &Item, items: &[Item]) -> bool
    ensures { result ≡ bad_predecessor item.now items.now }
{
    item.predecessor != 0
        && !(item.predecessor < item.number && lists::stands(items, item.predecessor))
}

/// Whether a head's period or delay lies outside its bounds, or another item has one.
fn bad_timing(item: &Item) -> bool
    ensures { result ≡ bad_timing item.now }
{
    if item.predecessor == 0 {
        !(1..=10_000_000).contains(&item.period) || item.delay > 10_000_000
    } else {
        item.period != 0 || item.delay != 0
    }
}

/// The conditions on opening a plan.
pub fn check_open(bit_times: &[u8]) -> Result<(), Refusal>
    ensures { result ≡ as_result (open_refusal bit_times.now) }
{
    refuse_if(outside(1, 16, bit_times.len()), Refusal::ResourceCount)?;
    refuse_if(some_above(100, bit_times), Refusal::BitTime)
}

/// The conditions on placing an item.
pub fn check_place(bit_times: &[u8], items: &[Item], item: &Item) -> Result<(), Refusal>
    ensures { result ≡ as_result (place_refusal bit_times.now items.now item.now) }
{
    refuse_if(outside(1, 999, item.number as usize), Refusal::Number)?;
    refuse_if(lists::stands(items, item.number), Refusal::NumberStands)?;
    refuse_if(
        outside(1, bit_times.len(), item.resource as usize),
        Refusal::NoResource,
    )?;
    refuse_if(item.priority > 2047, Refusal::Priority)?;
    refuse_if(
        lists::priority_used(items, item.resource, item.priority),
        Refusal::PriorityUsed,
    )?;
    refuse_if(
        wrong_kind(bit_time(bit_times, item.resource), item.work),
        Refusal::WrongKind,
    )?;
    refuse_if(work_outside(item.work), Refusal::WorkRange)?;
    refuse_if(bad_predecessor(item, items), Refusal::Predecessor)?;
    refuse_if(bad_timing(item), Refusal::Timing)?;
    refuse_if(items.len() >= MOST_ITEMS, Refusal::PlanFull)
}

/// The conditions on withdrawing an item.
pub fn check_withdraw(items: &[Item], number: u16) -> Result<(), Refusal>
    ensures { result ≡ as_result (withdraw_refusal items.now number) }
{
    refuse_if(!lists::stands(items, number), Refusal::NotStanding)?;
    refuse_if(lists::has_successor(items, number), Refusal::HasSuccessor)
}

/// The conditions on giving a standing item other work.
pub fn check_retime(bit_times: &[u8], item: &Item, work: Work) -> Result<(), Refusal>
    ensures { result ≡ as_result (first_met (retime_checks bit_times.now item.now work)) }
{
    refuse_if(
        wrong_kind(bit_time(bit_times, item.resource), work),
        Refusal::WrongKind,
    )?;
    refuse_if(work_outside(work), Refusal::WorkRange)
}
