//! The program: reads a file of cases a subject from the folder in which it runs, asks the libraries what each line comes to,
//! and prints a line a file, or the first answer that differs from the written one.
#![tactic(auto)]

mod answers;
mod bodies;
mod entities;
mod escapes;
mod filters;
mod groups;
mod keys;
mod messages;
mod moments;
mod multiparts;
mod outside;
mod pages;
mod queries;
mod rows;
mod signatures;
mod stops;
mod subjects;
mod table_names;
mod values;
mod walks;

use std::process::ExitCode;
use std::{fs, io};
use stops::Stop;
use subjects::SUBJECTS;
use walks::Walk;

/// The status where an answer differs from the written one.
const DIFFERS: u8 = 1;

/// The status where a file cannot be read as cases. No later file is run.
const UNREAD: u8 = 2;

fn main(rt: HostRuntime) -> ExitCode {
    let mut status = 0;
    for subject in SUBJECTS {
        if status < UNREAD {
            status = run_file(&rt, subject).unwrap_or(UNREAD).max(status);
        }
    }
    ExitCode::from(status)
}

/// Runs the file of a subject, and gives the status.
fn run_file(rt: &HostRuntime, subject: &str) -> io::Result<u8> {
    let path = format!(in rt.alloc(); "{subject}.cases")?;
    run_path(rt, subject, path.as_str())
}

fn run_path(rt: &HostRuntime, subject: &str, path: &str) -> io::Result<u8> {
    match fs::read_to_string(rt, path) {
        Ok(lines) => run_lines(rt, subject, lines.as_str()),
        Err(_) => no_file(rt, path),
    }
}

fn no_file(rt: &HostRuntime, path: &str) -> io::Result<u8> {
    println!(rt; "{path}: no file of UTF-8 text has this name")?;
    Ok(UNREAD)
}

/// Runs the lines of a subject, prints what came of it, and gives the status.
fn run_lines(rt: &HostRuntime, subject: &str, lines: &str) -> io::Result<u8> {
    let mut walk = Walk::new(rt.alloc(), subject);
    let ended = walk.run(lines);
    report(rt, subject, &walk, ended)
}

fn report(
    rt: &HostRuntime,
    subject: &str,
    walk: &Walk<'_>,
    ended: Result<(), Stop>,
) -> io::Result<u8> {
    match ended {
        Ok(()) => {
            println!(rt; "{subject}: {} cases as written", walk.compared)?;
            Ok(0)
        }
        Err(Stop::Differs) => {
            println!(rt;
                "{subject}.cases:{}: due {:?}, came {:?}",
                walk.line, walk.due, walk.came
            )?;
            Ok(DIFFERS)
        }
        Err(Stop::Unread(why)) => {
            println!(rt; "{subject}.cases:{}: not read: {why}", walk.line)?;
            Ok(UNREAD)
        }
    }
}
