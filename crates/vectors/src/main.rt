//! Runs plan files of an independent model, and compares what is told of them with what the model says.
//! Each argument names two files of data/: a plan file, and the text that is expected of it.
#![tactic(auto)]

use buffers::BufferFault;
use std::alloc::Global;
use std::{env, fs};
use texts::buffer::{write_refusal, write_windows};
use timing::line::windows_of;
use timing::outcome::Outcome;

/// Writes the text of an outcome into the front of a buffer, and answers how many bytes it has.
fn write_outcome(outcome: &Outcome, buffer: &mut [u8]) -> Result<usize, BufferFault> {
    match outcome {
        Ok(table) => write_windows(table.shown(), buffer),
        Err(sent) => write_refusal(*sent, buffer),
    }
}

/// Whether a plan file is told of just as expected.
fn agrees(heap: Global, file: &[u8], expected: &[u8]) -> anyhow::Result<bool> {
    let outcome = windows_of(heap, file)?;
    let mut text = vec![in heap; 0u8; expected.len()]?;
    let written = write_outcome(&outcome, text.as_mut_slice());
    Ok(written.ok() == Some(expected.len()) && text.as_slice() == expected)
}

/// Runs the plan file of that name.
fn run_one(rt: &HostRuntime, name: &str) -> anyhow::Result<()> {
    let heap = rt.alloc();
    let file = fs::read(rt, format!(in heap; "{name}.plan")?)?;
    let expected = fs::read(rt, format!(in heap; "{name}.expected")?)?;
    let found = if agrees(heap, file.as_slice(), expected.as_slice())? {
        "ok"
    } else {
        "differs"
    };
    println!(rt; "{name} {found}")?;
    Ok(())
}

/// Runs every plan file that is named.
fn run(rt: &HostRuntime) -> anyhow::Result<()> {
    for name in env::args(rt)?.skip(1) {
        run_one(rt, name.as_str())?;
    }
    Ok(())
}

fn main(rt: HostRuntime) -> anyhow::Result<()> {
    run(&rt)
}
