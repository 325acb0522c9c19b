//! The number that a word writes for a quantity, or what is wrong with it.
ghost use Rattle.std.specs.Prelude.{◌≡◌, ℕ, MatchResult};
ghost use Rattle.words.specs.Spoken.{Reads};
ghost use Rattle.words.specs.Misread.{WordWrong};

use crate::number_up_to;
use std::fmt;

/// What a number of a line stands for. It is shown by its name.
pub trait Quantity: Copy + fmt::Debug + fmt::Display {
    /// The largest number that may stand there.
    ghost most: { Self → ℕ };

    fn most(&self) -> u32
        ensures { result ≡ most self.now };
}

/// A word that is no number which may stand for the quantity.
#[derive(Clone, Copy, Debug)]
pub struct NoNumber<'a, Q> {
    pub quantity: Q,
    pub found: &'a str,
}

impl<Q: Quantity> fmt::Display for NoNumber<'_, Q> {
    fn fmt<W: fmt::Write>(&self, f: &mut fmt::Formatter<W>) -> fmt::Result {
        let NoNumber { quantity, found } = *self;
        let most = quantity.most();
        write!(
            f,
            "expected a number from 0 to {most} for the {quantity}, found {found:?}"
        )
    }
}

/// The number that a word writes for a quantity.
pub fn number_of<'a, Q: Quantity>(quantity: Q, word: &'a str) -> Result<u32, NoNumber<'a, Q>>
    ensures { MatchResult result (Reads (Q.most quantity) word.now) (WordWrong (Q.most quantity) quantity word.now) }
{
    number_up_to(word, quantity.most()).ok_or(NoNumber {
        quantity,
        found: word,
    })
}
