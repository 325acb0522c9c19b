//! How long a window is, and the one of no length at the arrival.
ghost use Rattle.std.specs.Prelude.{◌≡◌};
ghost use Rattle.consult.specs.Windows.{jitter_of, span_of};

use super::Window;

impl Window {
    /// Every item's window at first.
    pub const EMPTY: Window = Window { open: 0, close: 0 };

    /// How long it is.
    pub fn jitter(self) -> u32
        ensures { result ≡ jitter_of (span_of self) }
    {
        (self.close - self.open) as u32
    }
}
