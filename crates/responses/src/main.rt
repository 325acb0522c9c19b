//! Prints the least and the worst response of each row of one resource, which standard input describes.
#![tactic(auto)]

ghost use Rattle.std.specs.Prelude.{◌≡◌, IfErr};
ghost use Rattle.std.specs.Process.{exit_status};

mod answers;

use console::{fail, hear, status_of, tell};
use std::process::ExitCode;

/// Answers the text on standard input.
fn run(rt: &HostRuntime) -> Result<(), ExitCode>
    ensures { IfErr result (λ status. exit_status status ≡ 1) }
{
    let heap = rt.alloc();
    let bytes = hear(rt)?;
    let resource = listing::text::read(heap, bytes.as_slice()).map_err(|fault| fail(rt, fault))?;
    let Ok(answers) = answers::answers(heap, resource.bit_time, resource.records.as_slice()) else {
        return Err(fail(rt, "there is no memory left for the answers"));
    };
    let Ok(report) = answers::report(heap, answers.as_slice()) else {
        return Err(fail(rt, "there is no memory left for the report"));
    };
    tell(rt, report)
}

fn main(rt: HostRuntime) -> ExitCode {
    status_of(run(&rt))
}
