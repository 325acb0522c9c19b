//! Values of a type as bytes, one behind the other.
ghost use Rattle.std.specs.Prelude.{◌≡◌, ℕ, ◌+◌, ◌≤◌, List, length};
ghost use Rattle.std.specs.List.{flat_map};
ghost use Rattle.buffers.specs.Fronts.{Pasted};

/// A way to lay out a value as bytes.
pub trait Layout<T> {
    ghost bytes: { T → List ℕ };

    /// Writes the bytes of a value from a place of the buffer on, and answers the place behind them.
    fn put(buffer: &mut [u8], at: usize, value: &T) -> usize
        requires { at + length (bytes value.now) ≤ length buffer.old }
        ensures place { result ≡ at + length (bytes value.now) }
        ensures bytes { Pasted at (bytes value.now) buffer.old buffer.new };
}

/// Writes the bytes of each value, the first from a place of the buffer on, and answers the place behind the last.
pub fn put_each<T, L: Layout<T>>(buffer: &mut [u8], at: usize, values: &[T]) -> usize
    requires { at + length (flat_map L.bytes values.now) ≤ length buffer.old }
    ensures place { result ≡ at + length (flat_map L.bytes values.now) }
    ensures bytes { Pasted at (flat_map L.bytes values.now) buffer.old buffer.new }
{
    let mut end = at;
    for value in values {
        end = L::put(buffer, end, value);
    }
    end
}
