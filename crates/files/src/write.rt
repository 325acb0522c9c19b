//! Writing a plan's file.
ghost use Rattle.std.specs.Prelude.{◌≡◌, ◌<◌, ◌++◌, length};
ghost use Rattle.buffers.specs.Fronts.{Written};
ghost use Rattle.plan.specs.Views.{view};
ghost use Rattle.layout.specs.Bytes.{laid};
ghost use Rattle.layout.specs.Format.{first_word, second_word, first_record, second_record, file_of};

use buffers::layouts::{Layout, put_each};
use buffers::{BufferFault, check_room, put};
use items::{Item, Work};
use plan::Plan;

/// The two words of an item's work.
fn words_of(work: Work) -> (u32, u32)
    ensures { (result.0 ≡ first_word work) × (result.1 ≡ second_word work) }
{
    match work {
        Work::Task(least, greatest) => (least, greatest),
        Work::Frame(bytes) => (bytes, 0),
    }
}

/// An item's record in the first array.
fn first_record(item: &Item) -> [u8; 8]
    ensures { result ≡ first_record item.now }
{
    let [a, b] = item.number.to_le_bytes();
    let [c, d] = item.resource.to_le_bytes();
    let [e, f, _, _] = item.priority.to_le_bytes();
    let [g, h] = item.predecessor.to_le_bytes();
    [a, b, c, d, e, f, g, h]
}

/// And in the second.
fn second_record(item: &Item) -> [u8; 16]
    ensures { result ≡ second_record item.now }
{
    let (first, second) = words_of(item.work);
    let [a, b, c, d] = first.to_le_bytes();
    let [e, f, g, h] = second.to_le_bytes();
    let [i, j, k, l] = item.period.to_le_bytes();
    let [m, n, o, p] = item.delay.to_le_bytes();
    [a, b, c, d, e, f, g, h, i, j, k, l, m, n, o, p]
}

/// The layout of an item in the first array.
struct FirstRecord;

impl Layout<Item> for FirstRecord {
    ghost bytes = { first_record };

    fn put(buffer: &mut [u8], at: usize, item: &Item) -> usize {
        put(buffer, at, &first_record(item))
    }
}

/// And in the second.
struct SecondRecord;

impl Layout<Item> for SecondRecord {
    ghost bytes = { second_record };

    fn put(buffer: &mut [u8], at: usize, item: &Item) -> usize {
        put(buffer, at, &second_record(item))
    }
}

/// The two sizes.
fn sizes(resources: usize, items: usize) -> [u8; 4]
    ensures { result ≡ laid 2 resources ++ laid 2 items }
{
    let [a, b, ..] = resources.to_le_bytes();
    let [c, d, ..] = items.to_le_bytes();
    [a, b, c, d]
}

/// How many bytes a plan's file has.
#[tactic(auto, using(plan::proofs::Kept::plan_valid, layout::proofs::Laid::length_is))]
pub fn size_of(plan: &Plan) -> usize
    ensures { result ≡ length (file_of (view plan.now).bits (view plan.now).items) }
{
    4 + plan.bit_times().len() + 24 * plan.items().len()
}

/// Writes a plan's file into the front of a buffer, and answers how many bytes it has.
/// Sent back if the buffer is too short, and then it is as it was.
pub fn write(plan: &Plan, buffer: &mut [u8]) -> Result<usize, BufferFault>
    ensures { Written (file_of (view plan.now).bits (view plan.now).items) buffer.old buffer.new result }
{
    check_room(buffer, size_of(plan))?;
    let bits = plan.bit_times();
    let items = plan.items();
    let mut end = put(buffer, 0, &sizes(bits.len(), items.len()));
    end = put(buffer, end, bits);
    end = put_each::<Item, FirstRecord>(buffer, end, items);
    Ok(put_each::<Item, SecondRecord>(buffer, end, items))
}
