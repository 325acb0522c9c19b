//! A caller's buffer of bytes: what is written goes into its front, and the rest stays as it was.
#![tactic(auto)]

ghost use Rattle.std.specs.Prelude.{◌≡◌, ◌+◌, ◌<◌, ◌≤◌, length, MatchResult};
ghost use Rattle.buffers.specs.Faults.{buffer_number};
ghost use Rattle.buffers.specs.Fronts.{Pasted, Written};

pub mod layouts;

/// Why a writer of text or of a file is sent back.
#[derive(Clone, Copy)]
pub enum BufferFault {
    /// The buffer is shorter than what is to be written.
    TooShort = 23,
}

impl BufferFault {
    /// The number under which the fault is reported.
    pub fn number(&self) -> u8
        ensures { result ≡ buffer_number self.now }
    {
        *self as u8
    }
}

/// Refuses a buffer of fewer bytes than are to be written.
pub fn check_room(buffer: &[u8], size: usize) -> Result<(), BufferFault>
    ensures { MatchResult result (λ _. size ≤ length buffer.now) (λ _. length buffer.now < size) }
{
    if buffer.len() < size {
        Err(BufferFault::TooShort)
    } else {
        Ok(())
    }
}

/// Writes the bytes from a place of the buffer on, and answers the place behind them.
pub fn put(buffer: &mut [u8], at: usize, bytes: &[u8]) -> usize
    requires { at + length bytes.now ≤ length buffer.old }
    ensures place { result ≡ at + length bytes.now }
    ensures bytes { Pasted at bytes.now buffer.old buffer.new }
{
    let end = at + bytes.len();
    buffer[at..end].copy_from_slice(bytes);
    end
}

/// Writes the bytes into the front of the buffer, and answers how many they are.
pub fn write_front(buffer: &mut [u8], bytes: &[u8]) -> Result<usize, BufferFault>
    ensures { Written bytes.now buffer.old buffer.new result }
{
    check_room(buffer, bytes.len())?;
    Ok(put(buffer, 0, bytes))
}
