// Replays a log of requests to a library, and prints the answers.
#![tactic(auto)]

use std::alloc::AllocError;
use std::io::Read;
use std::process::ExitCode;
use std::{env, fs, io};
use thiserror::Error;

// Why the program ends with status 1.
#[derive(Debug, Drop, Error)]
enum Failure {
    #[error("cannot read {0}: {1}")]
    Unreadable(String, io::Error),
    #[error(transparent)]
    Io(#[from] io::Error),
    #[error(transparent)]
    Memory(#[from(alloc)] AllocError),
}

// All of standard input.
fn read_input(rt: &HostRuntime) -> io::Result<Vec<u8>> {
    let mut log = Vec::new(rt.alloc());
    rt.stdin().read_to_end(&mut log)?;
    Ok(log)
}

// The log: the file that the first argument names, or standard input.
fn read_log(rt: &HostRuntime) -> Result<Vec<u8>, Failure> {
    match env::args(rt)?.nth(1) {
        Some(path) => {
            fs::read(rt, path.as_str()).map_err(|error| Failure::Unreadable(path, error))
        }
        None => Ok(read_input(rt)?),
    }
}

fn run(rt: &HostRuntime) -> Result<(), Failure> {
    let log = read_log(rt)?;
    let output = session::replay(rt.alloc(), log.as_slice())?;
    rt.print(output)?;
    Ok(())
}

fn main(rt: HostRuntime) -> io::Result<ExitCode> {
    if let Err(error) = run(&rt) {
        eprintln!(rt; "lizghomi: {error}")?;
        return Ok(ExitCode::FAILURE);
    }
    Ok(ExitCode::SUCCESS)
}
