//! Numbers at their places in a file, the low byte first.
ghost use Rattle.std.specs.Prelude.{◌≡◌, ◌+◌, ◌≤◌, length};
ghost use Rattle.layout.specs.Bytes.{word};

use byteorder::{ByteOrder, LittleEndian};

// Two functions, since `byteorder` has a method for each width.

/// The number of 16 bits at a place.
pub(crate) fn u16_at(bytes: &[u8], at: usize) -> u16
    requires { at + 2 ≤ length bytes.now }
    ensures { result ≡ word 2 bytes.now at }
{
    LittleEndian::read_u16(&bytes[at..])
}

/// The number of 32 bits at a place.
pub(crate) fn u32_at(bytes: &[u8], at: usize) -> u32
    requires { at + 4 ≤ length bytes.now }
    ensures { result ≡ word 4 bytes.now at }
{
    LittleEndian::read_u32(&bytes[at..])
}
