//! The calls that the speed comparison makes of the proved libraries, as C functions.
#![tactic(auto)]

ghost use Rattle.std.specs.Prelude.{◌≡◌};
ghost use Rattle.service.specs.Answers.{answered_worst};
ghost use Rattle.bounds.specs.Equations.{processor_worst, bus_worst};
ghost use Rattle.rules.specs.Layers.{by_bit};
ghost use Rattle.speed.specs.Answers.{worst_or_0};

use rules::bus::Bus;
use rules::pair::Pair;
use rules::processor::Processor;
use service::{Record, Rule};

// 0 for none, since C has no `Option`.
/// The worst response of the row at a place under the pair of the processor and the bus rule, or 0 if there is none.
#[unsafe(no_mangle)]
pub extern "C" fn proved_worst(bit_time: u8, records: &[Record], place: usize) -> u32
    ensures { result ≡ worst_or_0 (by_bit (λ _. answered_worst processor_worst) (λ bit. answered_worst (bus_worst bit)) bit_time records.now place) }
{
    let rule = Pair {
        first: Processor,
        second: Bus,
    };
    rule.respond(bit_time, records, place).worst.unwrap_or(0)
}
