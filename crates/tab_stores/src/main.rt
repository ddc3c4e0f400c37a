//! The program: reads files of cases from the folder in which it runs, goes through the calls of each line over disks in memory,
//! and prints a line a file, or the first answer that differs from the written one.
#![tactic(auto)]

mod commands;
mod counters;
mod disks;
mod forged_calls;
mod forging;
mod frames;
mod keeping;
mod map_calls;
mod mapping;
mod name_calls;
mod naming;
mod replies;
mod runs;
mod server_calls;
mod services;
mod serving;
mod spans;
mod steps;
mod stops;
mod tallying;
mod texts;
mod walks;
mod yards;

use std::process::ExitCode;
use std::{fs, io};
use stops::Stop;
use walks::Walk;

/// The files, in the order in which they are run.
const FILES: [&str; 10] = [
    "makings",
    "appends",
    "compactions",
    "openings",
    "counters",
    "yards",
    "names",
    "maps",
    "servers",
    "forged",
];

/// The status where an answer differs from the written one.
const DIFFERS: u8 = 1;

/// The status where a file cannot be read as cases. No later file is run.
const UNREAD: u8 = 2;

fn main(rt: HostRuntime) -> ExitCode {
    let mut status = 0;
    for file in FILES {
        if status < UNREAD {
            status = run_file(&rt, file).unwrap_or(UNREAD).max(status);
        }
    }
    ExitCode::from(status)
}

/// Runs a file, and gives the status.
fn run_file(rt: &HostRuntime, file: &str) -> io::Result<u8> {
    let path = format!(in rt.alloc(); "{file}.cases")?;
    match fs::read_to_string(rt, path.as_str()) {
        Ok(lines) => run_lines(rt, file, lines.as_str()),
        Err(_) => no_file(rt, path.as_str()),
    }
}

fn no_file(rt: &HostRuntime, path: &str) -> io::Result<u8> {
    println!(rt; "{path}: no file of UTF-8 text has this name")?;
    Ok(UNREAD)
}

/// Runs the lines of a file, prints what came of it, and gives the status.
fn run_lines(rt: &HostRuntime, file: &str, lines: &str) -> io::Result<u8> {
    let mut walk = Walk::new(rt.alloc());
    let ended = walk.run(lines);
    report(rt, file, &walk, ended)
}

fn report(rt: &HostRuntime, file: &str, walk: &Walk, ended: Result<(), Stop>) -> io::Result<u8> {
    match ended {
        Ok(()) => {
            println!(rt; "{file}: {} cases as written", walk.compared)?;
            Ok(0)
        }
        Err(Stop::Differs) => {
            println!(rt; "{file}.cases:{}: came {:?}", walk.line, walk.came)?;
            Ok(DIFFERS)
        }
        Err(Stop::Unread(why)) => {
            println!(rt; "{file}.cases:{}: not read: {why}", walk.line)?;
            Ok(UNREAD)
        }
    }
}
