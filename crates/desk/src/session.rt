//! A plan that is open: what was asked of it, and what is said of the answers.
use commands::listed::Listed;
use items::{Item, Refusal};
use rules::machine::Machine;
use std::alloc::{AllocError, Global};
use texts::{SentBack, Windows};
use visits::replay::Stop;
use visits::replay::list::replay;
use visits::visit::{Answer, Visit};

/// What is said of an accepted edit or undo.
fn done(visit: &Visit<Machine>) -> &'static str {
    match visit {
        Visit::Place(_) => "placed",
        Visit::Withdraw(_) => "withdrawn",
        Visit::Retime(_, _) => "retimed",
        Visit::Undo => "undone",
        _ => "done",
    }
}

/// A line that tells why something was sent back.
pub(crate) fn say_sent(said: &mut String, sent: SentBack) -> Result<(), AllocError> {
    write!(said, "{sent}")
}

/// A line for each item, in the form in which a script places it.
fn say_items(said: &mut String, items: &[Item]) -> Result<(), AllocError> {
    for item in items {
        let listed = Listed(*item);
        writeln!(said, "{listed}")?;
    }
    Ok(())
}

/// What a visit is answered.
fn say(said: &mut String, visit: &Visit<Machine>, answer: &Answer) -> Result<(), AllocError> {
    match answer {
        Answer::Edited(Ok(())) => {
            let done = done(visit);
            writeln!(said, "{done}")
        }
        Answer::Edited(Err(refusal)) => say_sent(said, SentBack::Plan(*refusal)),
        Answer::Settled { sweeps, rows } => {
            let windows = Windows {
                sweeps: *sweeps,
                rows: rows.as_slice(),
            };
            write!(said, "{windows}")
        }
        Answer::Unsettled(fault) => say_sent(said, SentBack::Settle(*fault)),
        Answer::Listed(items) => say_items(said, items.as_slice()),
    }
}

/// A plan that was opened, and what was asked since.
#[derive(Drop)]
pub(crate) struct Session {
    bit_times: Vec<u8>,
    // The visits stand beside the turns and not in them, since a replay takes them in a row.
    visits: Vec<Visit<Machine>>,
    /// For each line the refusal of an opening, or none where it is the next visit.
    turns: Vec<Option<Refusal>>,
}

impl Session {
    pub(crate) fn new(heap: Global, bit_times: Vec<u8>) -> Session {
        Session {
            bit_times,
            visits: Vec::new(heap),
            turns: Vec::new(heap),
        }
    }

    /// Notes a visit.
    pub(crate) fn visit(&mut self, visit: Visit<Machine>) -> Result<(), AllocError> {
        self.visits.push(visit)?;
        self.turns.push(None)?;
        Ok(())
    }

    /// Notes that an opening was refused: this plan stays.
    pub(crate) fn refuse(&mut self, refusal: Refusal) -> Result<(), AllocError> {
        self.turns.push(Some(refusal))?;
        Ok(())
    }

    /// Replays the session, and says what each of its lines is answered.
    pub(crate) fn tell(&self, heap: Global, said: &mut String) -> Result<(), Stop> {
        let done = replay(heap, self.bit_times.as_slice(), self.visits.as_slice())?;
        writeln!(said, "opened")?;
        let mut answered = self.visits.iter().zip(done.answers.iter());
        for turn in &self.turns {
            if let Some(refusal) = turn {
                say_sent(said, SentBack::Plan(*refusal))?;
            } else if let Some((visit, answer)) = answered.next() {
                say(said, visit, answer)?;
            }
        }
        Ok(())
    }
}
