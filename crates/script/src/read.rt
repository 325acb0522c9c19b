//! Reading a line of a script.
ghost use Rattle.std.specs.Prelude.{◌+◌, ◌<◌, ◌≤◌, ◌∷◌, length, MatchResult};
ghost use Rattle.words.specs.Spoken.{Reads, texts};
ghost use Rattle.commands.specs.Limits.{most_of};
ghost use Rattle.commands.specs.declared.fault.Form.TheVariants as forms;
ghost use Rattle.script.specs.Fields.{Misread};
ghost use Rattle.script.specs.Commands.{WorkWords, Given, Amiss, Said, SaysCommand, Faulty, CommandLine, LineWrong};

use commands::command::Command;
use commands::fault::{Field, Form, Wrong};
use items::{Item, Work};
use std::alloc::Global;
use words::numbers::number_of;
use words::words_of;

/// The number that the word at a place writes for a field, or another where the words end before it.
fn number_at<'a>(
    words: &[&'a str],
    at: usize,
    field: Field,
    otherwise: u32,
) -> Result<u32, Wrong<'a>>
    requires { otherwise ≤ most_of field }
    ensures { MatchResult result (λ n. Given (texts words.now) at otherwise n × (n ≤ most_of field)) (Misread (texts words.now)) }
{
    match words.get(at) {
        Some(word) => Ok(number_of(field, word)?),
        None => Ok(otherwise),
    }
}

/// The work that a word and the numbers after it say, in a line of that form.
fn work_of<'a>(form: Form, kind: &str, numbers: &[&'a str]) -> Result<Work, Wrong<'a>>
    ensures { MatchResult result (WorkWords (kind.now ∷ texts numbers.now) 0 (length numbers.now + 1)) (Amiss form (texts numbers.now)) }
{
    match (kind, numbers) {
        ("task", [least, greatest]) => {
            let least = number_of(Field::Least, least)?;
            let greatest = number_of(Field::Greatest, greatest)?;
            Ok(Work::Task(least, greatest))
        }
        ("frame", [bytes]) => Ok(Work::Frame(number_of(Field::Bytes, bytes)?)),
        _ => Err(Wrong::Shape(form)),
    }
}

/// `place NUMBER RESOURCE PRIORITY WORK PREDECESSOR PERIOD DELAY`.
fn place_of<'a>(words: &[&'a str]) -> Result<Command, Wrong<'a>>
    ensures { MatchResult result (Said forms.Place (texts words.now)) (Amiss forms.Place (texts words.now)) }
{
    let [
        _,
        number,
        resource,
        priority,
        kind,
        numbers @ ..,
        predecessor,
        period,
        delay,
    ] = words
    else {
        return Err(Wrong::Shape(Form::Place));
    };
    let number = number_of(Field::Number, number)?;
    let resource = number_of(Field::Resource, resource)?;
    let priority = number_of(Field::Priority, priority)?;
    let work = work_of(Form::Place, kind, numbers)?;
    let predecessor = number_of(Field::Predecessor, predecessor)?;
    let period = number_of(Field::Period, period)?;
    let delay = number_of(Field::Delay, delay)?;
    Ok(Command::Place(Item {
        number: number as u16,
        resource: resource as u16,
        priority,
        work,
        predecessor: predecessor as u16,
        period,
        delay,
    }))
}

/// `withdraw NUMBER`.
fn withdraw_of<'a>(words: &[&'a str]) -> Result<Command, Wrong<'a>>
    ensures { MatchResult result (Said forms.Withdraw (texts words.now)) (Amiss forms.Withdraw (texts words.now)) }
{
    let [_, number] = words else {
        return Err(Wrong::Shape(Form::Withdraw));
    };
    let number = number_of(Field::Number, number)?;
    Ok(Command::Withdraw(number as u16))
}

/// `retime NUMBER WORK`.
fn retime_of<'a>(words: &[&'a str]) -> Result<Command, Wrong<'a>>
    ensures { MatchResult result (Said forms.Retime (texts words.now)) (Amiss forms.Retime (texts words.now)) }
{
    let [_, number, kind, numbers @ ..] = words else {
        return Err(Wrong::Shape(Form::Retime));
    };
    let number = number_of(Field::Number, number)?;
    let work = work_of(Form::Retime, kind, numbers)?;
    Ok(Command::Retime(number as u16, work))
}

/// `settle BUDGET`, then perhaps `SWITCH`, then perhaps `ROWS`.
fn settle_of<'a>(words: &[&'a str]) -> Result<Command, Wrong<'a>>
    ensures { MatchResult result (Said forms.Settle (texts words.now)) (Amiss forms.Settle (texts words.now)) }
{
    if words.len() < 2 || words.len() > 4 {
        return Err(Wrong::Shape(Form::Settle));
    }
    Ok(Command::Settle {
        budget: number_of(Field::Budget, words[1])?,
        switch: number_at(words, 2, Field::Switch, 0)? as u16,
        rows: number_at(words, 3, Field::Rows, 256)? as usize,
    })
}

/// `open`, then a bit time for each resource.
fn open_of<'a>(heap: Global, words: &[&'a str]) -> Result<Command, Wrong<'a>>
    requires { 0 < length words.now }
    ensures { MatchResult result (Said forms.Open (texts words.now)) (Amiss forms.Open (texts words.now)) }
{
    // No chain: of one that collects into a Result no clause says that it fails where an item does.
    let mut bits = Vec::new(heap);
    for word in &words[1..] {
        let bit = number_of(Field::BitTime, word)?;
        bits.push(bit as u8)?;
    }
    Ok(Command::Open(bits))
}

/// The command that words say.
fn command_in<'a>(heap: Global, words: &[&'a str]) -> Result<Command, Wrong<'a>>
    ensures { MatchResult result (SaysCommand (texts words.now)) (Faulty (texts words.now)) }
{
    match words {
        [] => Err(Wrong::Command("")),
        ["open", ..] => open_of(heap, words),
        ["place", ..] => place_of(words),
        ["withdraw", ..] => withdraw_of(words),
        ["retime", ..] => retime_of(words),
        ["settle", ..] => settle_of(words),
        ["undo"] => Ok(Command::Undo),
        ["undo", ..] => Err(Wrong::Shape(Form::Undo)),
        ["items"] => Ok(Command::Items),
        ["items", ..] => Err(Wrong::Shape(Form::Items)),
        [word, ..] => Err(Wrong::Command(word)),
    }
}

/// The command that a line says.
pub fn command_of<'a>(heap: Global, line: &'a str) -> Result<Command, Wrong<'a>>
    ensures { MatchResult result (CommandLine line.now) (LineWrong line.now) }
{
    let words = words_of(heap, line)?;
    command_in(heap, words.as_slice())
}
