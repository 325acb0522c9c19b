//! Reading a text: a line with the bit time, then a line for each row.
ghost use Rattle.std.specs.Prelude.{ℕ, List, IfOk, MatchResult, OnOk};
ghost use Rattle.words.specs.Spoken.{Writes, Unreadable, texts};
ghost use Rattle.listing.specs.Said.{Trims, RowWords, Takes, Says};
ghost use Rattle.listing.specs.Texts.{RowWrong};

use crate::fault::{Fault, Field, Wrong};
use service::Record;
use std::alloc::Global;
use words::faults::{AtLine, text_of};
use words::numbers::number_of;
use words::{is_passed_over, number_up_to, words_of};

/// What a text says of one resource.
#[derive(Drop)]
pub struct Resource {
    pub bit_time: u8,
    pub records: Vec<Record>,
}

/// The bit time that a line says.
fn bit_time_of<'a>(line: &'a str) -> Result<u8, Wrong<'a>>
    ensures { (word : List ℕ) × Trims line.now word × MatchResult result (λ n. Writes word n) (λ _. Unreadable 256 word) }
{
    let found = line.trim();
    match number_up_to(found, 255) {
        Some(n) => Ok(n as u8),
        None => Err(Wrong::BitTime(found)),
    }
}

/// The row that five words say.
fn record_of<'a>(words: &[&'a str]) -> Result<Record, Wrong<'a>>
    ensures { MatchResult result (RowWords (texts words.now)) (RowWrong (texts words.now)) }
{
    let [priority, period, jitter, least, greatest] = words else {
        return Err(Wrong::Count(words.len()));
    };
    Ok(Record {
        priority: number_of(Field::Priority, priority)?,
        period: number_of(Field::Period, period)?,
        jitter: number_of(Field::Jitter, jitter)?,
        least: number_of(Field::Least, least)?,
        greatest: number_of(Field::Greatest, greatest)?,
    })
}

/// What the lines so far said.
#[derive(Drop)]
struct Reader {
    bit_time: Option<u8>,
    records: Vec<Record>,
}

impl Reader {
    /// Takes what the next line says.
    fn take<'a>(&mut self, heap: Global, line: &'a str) -> Result<(), Wrong<'a>>
        ensures { OnOk result (Takes self.old.bit_time self.old.records.items line.now self.new.bit_time self.new.records.items) }
    {
        if is_passed_over(line) {
            return Ok(());
        }
        match self.bit_time {
            None => self.bit_time = Some(bit_time_of(line)?),
            Some(_) => {
                let words = words_of(heap, line)?;
                self.records.push(record_of(words.as_slice())?)?;
            }
        }
        Ok(())
    }
}

/// What a text says, or what is wrong with the first line that cannot be read.
fn resource_of<'a>(heap: Global, text: &'a str) -> Result<Resource, Fault<'a>>
    ensures { IfOk result (λ told. Says text.now told.bit_time told.records.items) }
{
    let mut reader = Reader {
        bit_time: None,
        records: Vec::new(heap),
    };
    // Kept beside the loop, since a walk of its own to count them would double the time of a text of comments.
    let mut lines = 0usize;
    for (at, said) in text.lines().enumerate() {
        if let Err(wrong) = reader.take(heap, said) {
            return Err(AtLine {
                line: at + 1,
                wrong,
            });
        }
        lines = at + 1;
    }
    let Reader { bit_time, records } = reader;
    match bit_time {
        Some(bit_time) => Ok(Resource { bit_time, records }),
        None => Err(AtLine {
            line: lines.saturating_add(1),
            wrong: Wrong::End,
        }),
    }
}

/// What bytes say, which have to be text.
pub fn read<'a>(heap: Global, bytes: &'a [u8]) -> Result<Resource, Fault<'a>>
    ensures { IfOk result (λ told. Says bytes.now told.bit_time told.records.items) }
{
    let text = text_of(bytes, Wrong::Encoding)?;
    resource_of(heap, text)
}
