//! Reads a plan file on standard input, and prints its windows or why it is sent back.
#![tactic(auto)]

ghost use Rattle.std.specs.Prelude.{◌≡◌, IfErr};
ghost use Rattle.std.specs.Process.{exit_status};

use console::{fail, hear, status_of, tell};
use std::process::ExitCode;
use texts::SentBack;
use timing::line::windows_of;

/// Prints the refusal, and gives the status of a failure.
fn refuse(rt: &HostRuntime, sent: SentBack) -> Result<(), ExitCode>
    ensures { IfErr result (λ status. exit_status status ≡ 1) }
{
    tell(rt, sent)?;
    Err(ExitCode::FAILURE)
}

/// Tells of the plan file on standard input.
fn run(rt: &HostRuntime) -> Result<(), ExitCode>
    ensures { IfErr result (λ status. exit_status status ≡ 1) }
{
    let bytes = hear(rt)?;
    let outcome = windows_of(rt.alloc(), bytes.as_slice()).map_err(|_| fail(
        rt,
        "there is no memory left",
    ))?;
    match outcome {
        Ok(table) => tell(rt, table.shown()),
        Err(sent) => refuse(rt, sent),
    }
}

fn main(rt: HostRuntime) -> ExitCode {
    status_of(run(&rt))
}
