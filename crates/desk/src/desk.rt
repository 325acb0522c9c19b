//! What was said so far, and the session that is open.
use crate::session::{Session, say_sent};
use crate::stop::{Reason, Stop};
use commands::command::Command;
use conditions::check_open;
use rules::machine::machine;
use script::read::command_of;
use std::alloc::Global;
use texts::SentBack;
use visits::replay;
use visits::visit::Visit;
use words::faults::{AtLine, text_of};
use words::is_passed_over;

#[derive(Drop)]
pub(crate) struct Desk {
    pub(crate) said: String,
    session: Option<Session>,
}

impl Desk {
    pub(crate) fn new(heap: Global) -> Desk {
        Desk {
            said: String::new(heap),
            session: None,
        }
    }

    /// Ends the open session, if there is one.
    pub(crate) fn close(&mut self, heap: Global) -> Result<(), replay::Stop> {
        match self.session.take() {
            None => Ok(()),
            Some(session) => session.tell(heap, &mut self.said),
        }
    }

    /// Opens a plan over the bit times, or notes the refusal.
    fn open(&mut self, heap: Global, bit_times: Vec<u8>) -> Result<(), Reason<'static>> {
        if let Err(refusal) = check_open(bit_times.as_slice()) {
            match &mut self.session {
                None => say_sent(&mut self.said, SentBack::Plan(refusal))?,
                Some(session) => session.refuse(refusal)?,
            }
            return Ok(());
        }
        self.close(heap).map_err(|_| Reason::Unreplayed)?;
        self.session = Some(Session::new(heap, bit_times));
        Ok(())
    }

    /// Takes what a line asks.
    fn take<'a>(&mut self, heap: Global, line: &'a str) -> Result<(), Reason<'a>> {
        if is_passed_over(line) {
            return Ok(());
        }
        let visit = match command_of(heap, line)? {
            Command::Open(bit_times) => return self.open(heap, bit_times),
            Command::Place(item) => Visit::Place(item),
            Command::Withdraw(number) => Visit::Withdraw(number),
            Command::Retime(number, work) => Visit::Retime(number, work),
            Command::Undo => Visit::Undo,
            Command::Items => Visit::Items,
            Command::Settle {
                budget,
                switch,
                rows,
            } => Visit::Settle(machine(switch).ok_or(Reason::Switch)?, budget, rows),
        };
        match &mut self.session {
            None => Err(Reason::NoPlan),
            Some(session) => Ok(session.visit(visit)?),
        }
    }

    /// Takes every line of a text, up to the first that cannot be read.
    fn take_all<'a>(&mut self, heap: Global, text: &'a str) -> Result<(), Stop<'a>> {
        // A function over any taker of lines, for this loop and the listing's, would be longer than both.
        for (at, asked) in text.lines().enumerate() {
            if let Err(wrong) = self.take(heap, asked) {
                return Err(AtLine {
                    line: at + 1,
                    wrong,
                });
            }
        }
        Ok(())
    }

    /// Takes every line of the bytes, which have to be text.
    pub(crate) fn hear<'a>(&mut self, heap: Global, bytes: &'a [u8]) -> Result<(), Stop<'a>> {
        let text = text_of(bytes, Reason::Encoding)?;
        self.take_all(heap, text)
    }
}
