//! The rows of a caller's table, written from windows and answers.
ghost use Rattle.std.specs.Prelude.{◌≡◌, ℕ, ◌<◌, ◌≤◌, length};
ghost use Rattle.items.specs.Items.{item_at};
ghost use Rattle.tables.specs.Demands.{span};
ghost use Rattle.consult.specs.Windows.{span_of, spans_of};
ghost use Rattle.consult.specs.Answers.{answer};
ghost use Rattle.settle.specs.Rows.{row_at, row_for};

use crate::WindowRow;
use crate::sweeps::Sweeps;
use consult::window::Window;
use service::{Response, Rule};

/// The row of an item: its release window, and its finish window after the answer.
fn row_of(number: u16, window: Window, answer: Response) -> WindowRow
    ensures { result ≡ row_for number (span_of window) answer }
{
    WindowRow {
        number,
        open: window.open,
        close: window.close,
        finish_open: window.open + u64::from(answer.least),
        finish_close: window.close + u64::from(answer.worst.unwrap_or(0)),
    }
}

impl<'a, R: Rule> Sweeps<'a, R> {
    /// Writes a row for each item into the front of the table.
    pub(crate) fn write(&self, table: &mut [WindowRow])
        requires { length self.now.network.now.items.now ≤ length table.old }
        ensures rows { (k : ℕ) → k < length self.now.network.now.items.now → row_at table.new k ≡ row_for (item_at self.now.network.now.items.now k).number (span (spans_of self.now.windows) k) (answer self.now.answers k) }
        ensures rest { (k : ℕ) → length self.now.network.now.items.now ≤ k → row_at table.new k ≡ row_at table.old k }
    {
        // By index: the library says nothing of what is written through an adapter of `iter_mut`.
        for (at, item) in self.network.items.iter().enumerate() {
            table[at] = row_of(item.number, self.windows[at], self.answers[at]);
        }
    }
}
