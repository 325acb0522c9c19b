//! Bytes as hexadecimal digits: two for each byte, the high one first.
#![tactic(auto)]

ghost use Rattle.std.specs.Prelude.{◌≡◌, ℕ, List, IfOk, Some, vec_items};
ghost use Rattle.std.specs.Option.{option_map};
ghost use Rattle.hexadecimal.specs.Digits.{pair_byte, unhex, hex_text, Bytes};

use std::alloc::{AllocError, Global};
use std::fmt;

/// The byte that two digits write, if they are digits.
fn byte_of(high: u8, low: u8) -> Option<u8>
    ensures { result ≡ pair_byte high low }
{
    let high = char::from(high).to_digit(16)?;
    let low = char::from(low).to_digit(16)?;
    Some((16 * high + low) as u8)
}

/// The bytes that a word writes: none if it has an odd number of digits, or another character.
pub fn bytes_of(heap: Global, word: &str) -> Result<Option<Vec<u8>>, AllocError>
    ensures reads { IfOk result (λ o. option_map vec_items o ≡ unhex word.now) }
    ensures back { (bytes : List ℕ) → Bytes bytes → word.now ≡ hex_text bytes → IfOk result (λ o. option_map vec_items o ≡ Some bytes) }
{
    let mut digits = word.as_bytes();
    let mut bytes = Vec::new(heap);
    // No chain: of one that collects into an Option no clause says that it fails where an item does.
    while let [high, low, rest @ ..] = digits {
        let Some(byte) = byte_of(*high, *low) else {
            return Ok(None);
        };
        bytes.push(byte)?;
        digits = rest;
    }
    Ok(digits.is_empty().then_some(bytes))
}

/// Bytes, to be shown as lower-case digits.
#[derive(Clone, Copy)]
pub struct Hex<'a>(pub &'a [u8]);

impl fmt::Display for Hex<'_> {
    ghost output = { λ h. Some (hex_text h.0.now) };

    fn fmt<W: fmt::Write>(&self, f: &mut fmt::Formatter<W>) -> fmt::Result {
        for &byte in self.0 {
            write!(f, "{byte:02x}")?;
        }
        Ok(())
    }
}
