//! What the programs share: reading all of standard input, printing, and ending with a message.
#![tactic(auto)]

ghost use Rattle.std.specs.Prelude.{◌≡◌, IfErr, MatchResult};
ghost use Rattle.std.specs.Process.{exit_status};

use std::fmt::Display;
use std::io::Read;
use std::process::ExitCode;

/// Writes the message to standard error, and gives the status of a failure.
pub fn fail(rt: &HostRuntime, message: impl Display + Drop) -> ExitCode
    ensures { exit_status result ≡ 1 }
{
    let _ = eprintln!(rt; "{message}");
    ExitCode::FAILURE
}

/// All bytes of standard input. Where it cannot be read a message says so, and the status of a failure comes back.
pub fn hear(rt: &HostRuntime) -> Result<Vec<u8>, ExitCode>
    ensures { IfErr result (λ status. exit_status status ≡ 1) }
{
    let mut bytes = Vec::new(rt.alloc());
    rt.stdin().read_to_end(&mut bytes).map_err(|error| fail(
        rt,
        format_args!("standard input cannot be read: {error}"),
    ))?;
    Ok(bytes)
}

/// Prints a text. Where it cannot be written a message says so, and the status of a failure comes back.
pub fn tell(rt: &HostRuntime, text: impl Display + Drop) -> Result<(), ExitCode>
    ensures { IfErr result (λ status. exit_status status ≡ 1) }
{
    print!(rt; "{text}").map_err(|error| fail(
        rt,
        format_args!("standard output cannot be written: {error}"),
    ))
}

/// The status of a program that came to its end, or failed with a status.
pub fn status_of(run: Result<(), ExitCode>) -> ExitCode
    ensures { MatchResult run (λ _. exit_status result ≡ 0) (λ status. result ≡ status) }
{
    // Not by returning the `Result` from `main`, which would print its error a second time.
    match run {
        Ok(()) => ExitCode::SUCCESS,
        Err(status) => status,
    }
}
