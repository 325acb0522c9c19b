//! The texts as they are written into a caller's buffer: all of a text, or nothing.
ghost use Rattle.std.specs.Prelude.{◌≡◌, ◌+◌, ◌<◌, ◌≤◌, length, MatchResult};
ghost use Rattle.buffers.specs.Fronts.{Written};
ghost use Rattle.texts.specs.Texts.{row_line, refusal_text, table_text};

use crate::lines::{refusal_line, row_line, sweeps_line};
use crate::{SentBack, Windows};
use buffers::layouts::{Layout, put_each};
use buffers::{BufferFault, put};
use settle::WindowRow;

/// Writes the text of a refusal into the front of the buffer, and answers how many bytes it has.
pub fn write_refusal(sent: SentBack, buffer: &mut [u8]) -> Result<usize, BufferFault>
    ensures { Written (refusal_text sent) buffer.old buffer.new result }
{
    refusal_line(sent).write_into(buffer)
}

/// Takes so many bytes off a room.
fn take_off(room: usize, size: usize) -> Result<usize, BufferFault>
    ensures { MatchResult result (λ left. left + size ≡ room) (λ _. room < size) }
{
    room.checked_sub(size).ok_or(BufferFault::TooShort)
}

/// Refuses a room of fewer bytes than the text of a table has.
fn check_room(windows: &Windows, room: usize) -> Result<(), BufferFault>
    ensures { MatchResult result (λ _. length (table_text windows.now.sweeps windows.now.rows.now) ≤ room) (λ _. room < length (table_text windows.now.sweeps windows.now.rows.now)) }
{
    let mut left = take_off(room, sweeps_line(windows.sweeps).as_slice().len())?;
    for row in windows.rows {
        left = take_off(left, row_line(row).as_slice().len())?;
    }
    Ok(())
}

/// The layout of a row as its line.
struct RowLine;

impl Layout<WindowRow> for RowLine {
    ghost bytes = { row_line };

    fn put(buffer: &mut [u8], at: usize, row: &WindowRow) -> usize {
        put(buffer, at, row_line(row).as_slice())
    }
}

/// Writes the text of a table into the front of the buffer, and answers how many bytes it has.
pub fn write_windows(windows: Windows, buffer: &mut [u8]) -> Result<usize, BufferFault>
    ensures { Written (table_text windows.entry.sweeps windows.entry.rows.now) buffer.old buffer.new result }
{
    check_room(&windows, buffer.len())?;
    let behind = put(buffer, 0, sweeps_line(windows.sweeps).as_slice());
    Ok(put_each::<WindowRow, RowLine>(buffer, behind, windows.rows))
}
