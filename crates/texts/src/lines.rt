//! The lines of the texts, on the stack.
ghost use Rattle.std.specs.Prelude.{◌≡◌, ◌+◌, ◌≤◌, ◌++◌, length};
ghost use Rattle.numerals.specs.Lines.{text_of, HasRoom};
ghost use Rattle.texts.specs.Texts.{sweeps_line, row_line, detail_words, refusal_text};

use crate::SentBack;
use layout::FileFault;
use numerals::line::Line;
use settle::{Fault, WindowRow};

/// The first line of a table.
pub(crate) fn sweeps_line(sweeps: u32) -> Line
    ensures { text_of result ≡ sweeps_line sweeps }
{
    let mut line = Line::new();
    line.field(b"sweeps ", u64::from(sweeps));
    line.end();
    line
}

/// The line of a row.
pub(crate) fn row_line(row: &WindowRow) -> Line
    ensures { text_of result ≡ row_line row.now }
{
    let mut line = Line::new();
    line.number(u64::from(row.number));
    line.field(b" ", row.finish_open);
    line.field(b" ", row.finish_close);
    line.end();
    line
}

/// Writes what is said of a refusal besides its number.
fn add_detail(line: &mut Line, sent: SentBack)
    requires { HasRoom line.old 83 }
    ensures text { text_of line.new ≡ text_of line.old ++ detail_words sent }
    ensures len { length (text_of line.new) ≤ length (text_of line.old) + 83 }
{
    match sent {
        SentBack::Settle(
            Fault::Unbounded {
                item,
                resource,
                sweep,
            },
        ) => {
            line.field(b" item ", u64::from(item));
            line.field(b" resource ", u64::from(resource));
            line.field(b" sweep ", u64::from(sweep));
        }
        SentBack::File(FileFault::Record(place)) => line.field(b" place ", u64::from(place)),
        _ => {}
    }
}

/// The line of a refusal.
pub(crate) fn refusal_line(sent: SentBack) -> Line
    ensures { text_of result ≡ refusal_text sent }
{
    let mut line = Line::new();
    line.field(b"refused ", u64::from(sent.number()));
    add_detail(&mut line, sent);
    line.end();
    line
}
