//! The program: runs a command over standard input, standard output, disks in memory or in files, and the clock of the system.
#![tactic(auto)]

mod clocks;
mod files;
mod invocations;
mod sinks;
mod sources;

ghost use Rattle.std.specs.Prelude.{◌≡◌, ℕ, ◌+◌, ◌*◌, ◌≤◌, List, [], IfOk, Ok, All, vec_len, String as TheString};
ghost use Rattle.std.specs.declared.alloc.Global.{Global as TheGlobal};
ghost use Rattle.tab_cli.specs.Invocations.{IsInvocation};

use clocks::RealClock;
use files::FileDisk;
use invocations::{Invocation, read_invocation};
use itoa::Buffer;
use sinks::StdSink;
use sources::StdSource;
use std::alloc::Global;
use std::process::ExitCode;
use std::{env, io};
use tab_drive::{is_command, run};
use tab_outside::{Disk, MemDisk, Memory};

/// What is printed at wrong words, as the commands print it too.
const USAGE: &str = "usage: init / drive ACCOUNT KEY / load ACCOUNT COUNT / show\n";

/// The status at wrong words.
const WRONG_WORDS: u8 = 1;

/// The status at want of memory.
const NO_MEMORY: u8 = 7;

/// The folder's word that asks for disks in memory.
const IN_MEMORY: &str = "-";

/// The pairs of disks of a store that are no server's: the map's and the names'.
const SHARED_PAIRS: usize = 2;

fn main(rt: HostRuntime) -> ExitCode {
    let status = match run_arguments(&rt) {
        Ok(status) => status,
        Err(Memory) => {
            print(&rt, "out of memory\n");
            NO_MEMORY
        }
    };
    ExitCode::from(status)
}

/// Runs what the process's arguments ask for and answers the status.
fn run_arguments(rt: &HostRuntime) -> Result<u8, Memory> {
    match arguments(rt)? {
        Some(arguments) => answer(rt, arguments.as_slice()),
        None => Ok(refuse(rt)),
    }
}

/// Runs what the arguments ask for, of which the first is the program's name, and answers the status.
fn answer(rt: &HostRuntime, arguments: &[String]) -> Result<u8, Memory>
    ensures wrong { ((folder : List ℕ) (servers : ℕ) (command : List (TheString TheGlobal)) → IsInvocation arguments.now folder servers command → ⊥) → result ≡ Ok WRONG_WORDS }
{
    match read_invocation(arguments) {
        Some(invocation) => serve(rt, invocation),
        None => Ok(refuse(rt)),
    }
}

/// The arguments, or None where one of them is not UTF-8.
fn arguments(rt: &HostRuntime) -> Result<Option<Vec<String>>, Memory> {
    match env::args(rt) {
        Ok(arguments) => match arguments.collect(rt.alloc()) {
            Ok(arguments) => Ok(Some(arguments)),
            Err(_) => Err(Memory),
        },
        Err(error) if error.kind() == io::ErrorKind::OutOfMemory => Err(Memory),
        Err(_) => Ok(None),
    }
}

/// Prints the usage and answers the status of wrong words.
fn refuse(rt: &HostRuntime) -> u8
    ensures { result ≡ WRONG_WORDS }
{
    print(rt, USAGE);
    WRONG_WORDS
}

/// Runs the command and answers its status. No file is touched where the words are no command's.
fn serve(rt: &HostRuntime, invocation: Invocation<'_>) -> Result<u8, Memory>
    requires some { 1 ≤ invocation.servers }
    requires few { invocation.servers ≤ 8 }
{
    match is_command(rt.alloc(), invocation.command) {
        Ok(true) if invocation.folder == IN_MEMORY => serve_in_memory(rt, invocation),
        Ok(true) => serve_in_folder(rt, invocation),
        Ok(false) => Ok(refuse(rt)),
        Err(_) => Err(Memory),
    }
}

/// Makes a store over disks in memory, and runs the command over it.
fn serve_in_memory(rt: &HostRuntime, invocation: Invocation<'_>) -> Result<u8, Memory>
    requires few { invocation.servers ≤ 8 }
{
    let mut yard = memory_yard(rt.alloc(), invocation.servers)?;
    let init = init_words(rt.alloc())?;
    let status = run_over(rt, &init, &mut yard)?;
    if status != 0 {
        return Ok(status);
    }
    run_over(rt, invocation.command, &mut yard)
}

/// Runs the command over the disks of the folder.
fn serve_in_folder(rt: &HostRuntime, invocation: Invocation<'_>) -> Result<u8, Memory>
    requires few { invocation.servers ≤ 8 }
{
    let mut yard = folder_yard(rt, invocation.folder, invocation.servers)?;
    run_over(rt, invocation.command, &mut yard)
}

/// The words of the command that makes a store.
fn init_words(alloc: Global) -> Result<Vec<String>, Memory> {
    let mut words = Vec::new(alloc);
    words.push(String::from_str(alloc, "init")?)?;
    Ok(words)
}

/// Runs a command over disks and answers its status.
fn run_over<D: Disk>(
    rt: &HostRuntime,
    command: &[String],
    yard: &mut Vec<D>,
) -> Result<u8, Memory> {
    let mut input = StdSource::new(rt.alloc(), rt.stdin())?;
    let mut output = StdSink::new(rt.stdout());
    let mut clock = RealClock::new(rt)?;
    let ended = run(
        rt.alloc(),
        command,
        &mut input,
        &mut output,
        yard,
        &mut clock,
    );
    Ok(ended.status)
}

/// The disks of a store of so many servers in the files of a folder.
fn folder_yard(rt: &HostRuntime, folder: &str, servers: usize) -> Result<Vec<FileDisk>, Memory>
    requires few { servers ≤ 8 }
    ensures count { IfOk result (λ yard. vec_len yard ≡ 2 * (servers + 2)) }
{
    let mut yard = Vec::new(rt.alloc());
    for number in 0..2 * (servers + SHARED_PAIRS) {
        let path = disk_path(rt.alloc(), folder, number)?;
        let disk = FileDisk::open(rt, path.as_str());
        if yard.push(disk).is_err() {
            return Err(Memory);
        }
    }
    Ok(yard)
}

/// The path of a disk's file.
fn disk_path(alloc: Global, folder: &str, number: usize) -> Result<String, Memory> {
    let mut digits = Buffer::new();
    let mut path = String::from_str(alloc, folder)?;
    path.push_str("/disk")?;
    path.push_str(digits.format(number))?;
    Ok(path)
}

/// The empty disks of a store of so many servers, a pair for each beside the shared ones.
fn memory_yard(alloc: Global, servers: usize) -> Result<Vec<MemDisk>, Memory>
    requires few { servers ≤ 8 }
    ensures count { IfOk result (λ yard. vec_len yard ≡ 2 * (servers + 2)) }
    ensures empty { IfOk result (λ yard. All (λ disk. disk.log ≡ []) yard.items) }
{
    let mut yard = Vec::new(alloc);
    for _ in 0..2 * (servers + SHARED_PAIRS) {
        let disk = MemDisk::new(alloc, Vec::new(alloc));
        if yard.push(disk).is_err() {
            return Err(Memory);
        }
    }
    Ok(yard)
}

/// Prints the text. A failure to print changes no status.
fn print(rt: &HostRuntime, text: &str) {
    let _ = rt.print(text);
}
