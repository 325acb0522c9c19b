//! The desk: a script of visits to plans on standard input, an answer for each line on standard output.
//! Plans are opened one after the other; each is replayed with its visits, by one call.
#![tactic(auto)]

ghost use Rattle.std.specs.Prelude.{◌≡◌, IfErr};
ghost use Rattle.std.specs.Process.{exit_status};

mod desk;
mod session;
mod stop;

use console::{fail, hear, status_of, tell};
use std::process::ExitCode;

/// Answers the script on standard input.
fn run(rt: &HostRuntime) -> Result<(), ExitCode>
    ensures { IfErr result (λ status. exit_status status ≡ 1) }
{
    let heap = rt.alloc();
    let bytes = hear(rt)?;
    let mut desk = desk::Desk::new(heap);
    let stopped = desk.hear(heap, bytes.as_slice());
    let finished = desk.close(heap);
    tell(rt, desk.said)?;
    if let Err(stop) = stopped {
        return Err(fail(rt, stop));
    }
    if finished.is_err() {
        return Err(fail(rt, "there is no memory left"));
    }
    Ok(())
}

fn main(rt: HostRuntime) -> ExitCode {
    status_of(run(&rt))
}
