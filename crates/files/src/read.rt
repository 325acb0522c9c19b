//! Reading a plan from its file.
ghost use Rattle.std.specs.Prelude.{◌≡◌, ℕ, ◌<◌, false, take, MatchResult};
ghost use Rattle.plan.specs.Views.{view};
ghost use Rattle.layout.specs.Reading.{bits_of, items_of, bad_record, Admitted, IsSentBack, ReadsAs, NoFile};

use crate::file::PlanFile;
use crate::record::ItemRecord;
use layout::FileFault;
use plan::Plan;

/// Takes the record as the next item of the plan.
fn admit(plan: &mut Plan, next: ItemRecord) -> Result<(), FileFault>
    requires bits { (view plan.old).bits ≡ bits_of next.file.bytes.now }
    requires items { (view plan.old).items ≡ take next.place (items_of next.file.bytes.now) }
    requires good { (j : ℕ) → j < next.place → bad_record next.file.bytes.now j ≡ false }
    ensures { Admitted next.entry.file.bytes.now next.entry.place (view plan.new) result }
{
    if next.descends() || plan.place(next.item()).is_err() || next.has_spare() {
        return Err(FileFault::Record(next.place as u16));
    }
    Ok(())
}

/// The plan whose file these bytes are, with an empty journal; or why they are the file of none.
pub fn read(bytes: &[u8]) -> Result<Plan, FileFault>
    ensures { MatchResult result (λ p. ReadsAs bytes.now (view p)) (λ fault. IsSentBack bytes.now fault × NoFile bytes.now) }
{
    let file = PlanFile::over(bytes)?;
    let Ok(mut plan) = Plan::open(file.bit_times()) else {
        return Err(FileFault::BitTime);
    };
    // An iterator over the records would be a type of its own with this one use.
    for place in 0..file.count() {
        admit(&mut plan, file.record(place))?;
    }
    plan.forget();
    Ok(plan)
}
