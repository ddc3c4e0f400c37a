//! The program: holds each talk of the files that standard input names with the service, and prints a line a file. The files
//! lie where it runs, or in the folder that its argument names.
#![tactic(auto)]

mod escapes;
mod messages;
mod readers;
mod repeats;
mod replies;
mod reports;
mod runs;
mod service;
mod talks;
mod unreadable;

use anyhow::{Result, bail};
use readers::Reader;
use reports::{print_as_written, print_difference};
use runs::hold;
use std::process::ExitCode;
use std::rt::{Env, Files};
use std::{env, fs};
use talks::Talk;
use unreadable::Unreadable;

/// The file of the replies that several talks share.
const REPLIES: &str = "replies";

fn main(rt: HostRuntime) -> ExitCode {
    match hold_all(&rt) {
        Ok(true) => ExitCode::SUCCESS,
        Ok(false) => ExitCode::FAILURE,
        Err(error) => {
            let _ = println!(rt; "{error}");
            ExitCode::FAILURE
        }
    }
}

/// Holds the talks of all files, and answers whether all went as written.
fn hold_all(rt: &(impl Input + Print + Env + Files + AllocGlobal)) -> Result<bool> {
    let folder = folder_of(rt)?;
    let folder = folder.as_str();
    let mut reader = Reader::new(rt.alloc());
    read_file(rt, &mut reader, folder, REPLIES)?;
    let mut is_as_written = true;
    for name in rt.lines(rt.alloc()) {
        let name = name?;
        let talks = read_file(rt, &mut reader, folder, name.as_str())?;
        if !hold_talks(rt, name.as_str(), talks)? {
            is_as_written = false;
        }
    }
    Ok(is_as_written)
}

/// Holds the talks of one file, prints how they went, and answers whether all went as written.
fn hold_talks(rt: &(impl Print + AllocGlobal), name: &str, talks: Vec<Talk>) -> Result<bool> {
    let count = talks.len();
    let mut replies: usize = 0;
    for talk in talks {
        replies = replies.saturating_add(talk.replies);
        if let Some(difference) = hold(rt.alloc(), talk)? {
            print_difference(rt, name, &difference)?;
            return Ok(false);
        }
    }
    print_as_written(rt, name, replies, count)?;
    Ok(true)
}

/// The folder that the first argument names, and otherwise the one where the program runs.
fn folder_of(rt: &(impl Env + AllocGlobal)) -> Result<String> {
    match env::args(rt)?.nth(1) {
        Some(folder) => Ok(folder),
        None => Ok(String::from_str(rt.alloc(), ".")?),
    }
}

/// Reads the file of that name, and answers its talks.
fn read_file(
    rt: &(impl Files + AllocGlobal),
    reader: &mut Reader,
    folder: &str,
    name: &str,
) -> Result<Vec<Talk>> {
    let path = format!(in rt.alloc(); "{folder}/{name}.talk")?;
    let text = match fs::read_to_string(rt, path.as_str()) {
        Ok(text) => text,
        Err(error) => bail!("{path}: {error}"),
    };
    match reader.read(text.as_str()) {
        Ok(talks) => Ok(talks),
        Err(Unreadable { line, why }) => bail!("{path}:{line}: {why}"),
    }
}
