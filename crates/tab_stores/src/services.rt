//! The disks of a whole service: two for its map, two for its names, and two for each server.

use crate::disks::{empty, on_disk};
use crate::stops::{NO_MEMORY, Stop, UNKNOWN};
use crate::texts::{add, add_number, number, split_word};
use std::alloc::Global;
use tab_core::{Core, InitRefused};
use tab_outside::{Disk, MemDisk};

/// Goes through the calls of a line, over no disks to begin with.
pub fn serve(alloc: Global, calls: &str, pick: u64, came: &mut String) -> Result<(), Stop> {
    let mut disks = Vec::new(alloc);
    for call in calls.split('|') {
        on_service(alloc, &mut disks, call.trim_ascii(), pick, came)?;
    }
    Ok(())
}

/// Does a call: `servers COUNT` adds the empty disks of so many servers, of the map and of the names, `init` makes a store over them,
/// `restart` restarts all, `lengths` tells how long each is, and the calls on a disk stand in `on_disk`.
fn on_service(
    alloc: Global,
    disks: &mut Vec<MemDisk>,
    call: &str,
    pick: u64,
    came: &mut String,
) -> Result<(), Stop> {
    match split_word(call) {
        ("servers", count) => add_servers(alloc, disks, number(count)?),
        ("init", "") => init(alloc, disks, came),
        ("restart", "") => restart(disks, pick),
        ("lengths", "") => lengths(alloc, disks, came),
        (word, given) => on_one(alloc, disks, word, given, came),
    }
}

/// Two disks for each server, and four more.
fn add_servers(alloc: Global, disks: &mut Vec<MemDisk>, servers: u64) -> Result<(), Stop> {
    for _ in 0..servers.saturating_add(2) {
        add_pair(alloc, disks)?;
    }
    Ok(())
}

fn add_pair(alloc: Global, disks: &mut Vec<MemDisk>) -> Result<(), Stop> {
    disks.push(empty(alloc))?;
    disks.push(empty(alloc))?;
    Ok(())
}

fn init(alloc: Global, disks: &mut Vec<MemDisk>, came: &mut String) -> Result<(), Stop> {
    let result = Core::init(alloc, disks);
    add_result(alloc, came, result)
}

fn restart(disks: &mut Vec<MemDisk>, pick: u64) -> Result<(), Stop> {
    for disk in disks.iter_mut() {
        if !disk.restart(pick) {
            return Err(UNKNOWN);
        }
    }
    Ok(())
}

fn lengths(alloc: Global, disks: &mut Vec<MemDisk>, came: &mut String) -> Result<(), Stop> {
    let mut part = String::from_str(alloc, "lengths")?;
    for disk in disks.iter_mut() {
        add_length(disk, &mut part)?;
    }
    add(came, part.as_str())
}

fn add_length(disk: &mut MemDisk, part: &mut String) -> Result<(), Stop> {
    let Ok(length) = disk.len() else {
        return Err(UNKNOWN);
    };
    write!(part, " {length}")?;
    Ok(())
}

/// Does a call on the disk of the number that is given first.
fn on_one(
    alloc: Global,
    disks: &mut Vec<MemDisk>,
    word: &str,
    given: &str,
    came: &mut String,
) -> Result<(), Stop> {
    let (of, behind) = split_word(given);
    match disks.get_mut(number(of)? as usize) {
        Some(disk) => on_disk(alloc, disk, word, behind, came),
        None => Err(Stop::Unread("no disk has this number")),
    }
}

fn add_result(alloc: Global, came: &mut String, res: Result<(), InitRefused>) -> Result<(), Stop> {
    match res {
        Ok(()) => add(came, "made"),
        Err(InitRefused::NotEmpty { disk }) => add_number(alloc, came, "NotEmpty", disk),
        Err(InitRefused::DiskFault { disk }) => add_number(alloc, came, "DiskFault", disk),
        Err(InitRefused::Memory) => Err(NO_MEMORY),
    }
}
