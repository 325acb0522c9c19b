//! What the rules answer for every row of a resource, and the text that is printed of it.
ghost use Rattle.std.specs.Prelude.{◌≡◌, ℕ, length, IfOk, Some, string_bytes};
ghost use Rattle.responses.specs.Answered.{Answered, least_of, worst_of, answer_line, answer_lines};

use rules::bus::Bus;
use rules::pair::Pair;
use rules::processor::Processor;
use service::{Record, Response, Rule};
use std::alloc::{AllocError, Global};
use std::fmt;

/// What a rule answers for each place.
fn ask<R: Rule>(
    heap: Global,
    rule: &R,
    bit_time: u8,
    records: &[Record],
) -> Result<Vec<Response>, AllocError>
    ensures { IfOk result (λ v. Answered ((R.Rule.numbers rule.now).least bit_time records.now) ((R.Rule.numbers rule.now).worst bit_time records.now) (length records.now) v.items) }
{
    (0..records.len())
        .map(|place| rule.respond(bit_time, records, place))
        .collect(heap)
}

/// The answers for a processor at bit time 0, for a bus at any other.
pub fn answers(heap: Global, bit_time: u8, records: &[Record]) -> Result<Vec<Response>, AllocError>
    ensures { IfOk result (λ v. Answered (least_of records.now) (worst_of bit_time records.now) (length records.now) v.items) }
{
    let rule = Pair {
        first: Processor,
        second: Bus,
    };
    ask(heap, &rule, bit_time, records)
}

/// The answer for a place, counted from 1, as it is printed.
#[derive(Clone, Copy)]
struct Line {
    place: usize,
    answer: Response,
}

impl fmt::Display for Line {
    ghost output = { λ l. Some (answer_line l.place l.answer) };

    fn fmt<W: fmt::Write>(&self, f: &mut fmt::Formatter<W>) -> fmt::Result {
        let Line { place, answer } = *self;
        let least = answer.least;
        match answer.worst {
            Some(worst) => write!(f, "{place} {least} {worst}"),
            None => write!(f, "{place} {least} none"),
        }
    }
}

/// A line for each answer.
pub fn report(heap: Global, answers: &[Response]) -> Result<String, fmt::Error>
    ensures { IfOk result (λ text. string_bytes text ≡ answer_lines 1 answers.now) }
{
    let mut text = String::new(heap);
    for (at, answer) in answers.iter().enumerate() {
        let line = Line {
            place: at + 1,
            answer: *answer,
        };
        writeln!(text, "{line}")?;
    }
    Ok(text)
}
