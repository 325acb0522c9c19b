//! The verdict on an item: how its finish window lies against two bounds.
ghost use Rattle.std.specs.Prelude.{◌≡◌};
ghost use Rattle.settle.specs.Verdicts.{verdict_number, Judged};

use crate::WindowRow;
use items::Refusal;

/// How a finish window lies against two bounds.
#[derive(Clone, Copy)]
pub struct Verdict {
    /// It opens below the first.
    pub early: bool,
    /// It closes above the second.
    pub late: bool,
}

impl Verdict {
    /// 0, plus 1 if it opens early, plus 2 if it closes late.
    pub fn number(&self) -> u8
        ensures { result ≡ verdict_number self.now }
    {
        u8::from(self.early) + 2 * u8::from(self.late)
    }
}

/// The verdict on the item's first row in the table; refused if it has none.
pub fn judge(table: &[WindowRow], item: u16, earliest: u64, latest: u64) -> Result<Verdict, Refusal>
    ensures { Judged table.now item earliest latest result }
{
    let Some(at) = table.iter().position(|row| row.number == item) else {
        return Err(Refusal::NotStanding);
    };
    let row = table[at];
    Ok(Verdict {
        early: row.finish_open < earliest,
        late: row.finish_close > latest,
    })
}
