//! Writing a plan and reading it back.
ghost use Rattle.std.specs.Prelude.{◌≡◌, ◌<◌, length, MatchResult};
ghost use Rattle.items.specs.Journal.{fresh};
ghost use Rattle.plan.specs.Views.{view};
ghost use Rattle.layout.specs.Format.{file_of};

use crate::read::read;
use crate::write::write;
use buffers::BufferFault;
use plan::Plan;

/// Writes a plan into the front of a buffer and reads it back: the same plan, with an empty journal.
/// Sent back only if the buffer is too short.
pub fn reread(plan: &Plan, buffer: &mut [u8]) -> Result<Plan, BufferFault>
    ensures { MatchResult result (λ p. view p ≡ fresh (view plan.now).bits (view plan.now).items) (λ _. length buffer.old < length (file_of (view plan.now).bits (view plan.now).items)) }
{
    let size = write(plan, buffer)?;
    match read(&buffer[0..size]) {
        Ok(same) => Ok(same),
        Err(_) => unreachable(),
    }
}
