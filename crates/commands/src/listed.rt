//! An item as a script names it: the words after `place`.
ghost use Rattle.std.specs.Prelude.{Some};
ghost use Rattle.commands.specs.Listed.{work_words, item_words};

use items::{Item, Work};
use std::fmt;

/// The work of an item, to be shown as a script names it.
#[derive(Clone, Copy)]
struct Named(Work);

impl fmt::Display for Named {
    ghost output = { λ n. Some (work_words n.0) };

    fn fmt<W: fmt::Write>(&self, f: &mut fmt::Formatter<W>) -> fmt::Result {
        match self.0 {
            Work::Task(least, greatest) => write!(f, "task {least} {greatest}"),
            Work::Frame(bytes) => write!(f, "frame {bytes}"),
        }
    }
}

/// An item, to be shown in the form in which a script places it.
#[derive(Clone, Copy)]
pub struct Listed(pub Item);

impl fmt::Display for Listed {
    ghost output = { λ l. Some (item_words l.0) };

    fn fmt<W: fmt::Write>(&self, f: &mut fmt::Formatter<W>) -> fmt::Result {
        let Item {
            number,
            resource,
            priority,
            work,
            predecessor,
            period,
            delay,
        } = self.0;
        let work = Named(work);
        write!(
            f,
            "{number} {resource} {priority} {work} {predecessor} {period} {delay}"
        )
    }
}
