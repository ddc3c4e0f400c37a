//! Two disks in memory, and the calls on them.

use crate::stops::{NO_MEMORY, Stop, UNKNOWN};
use crate::texts::{add_bytes, area, bytes, number, split_word};
use std::alloc::Global;
use tab_outside::{Disk, MemDisk};

/// The disks of area 0 and of area 1.
#[derive(Drop)]
pub struct Disks {
    pub a: MemDisk,
    pub b: MemDisk,
}

/// That a disk in memory refused what it should do.
const NO_DISK: Stop = Stop::Unread("a disk refused this");

impl Disks {
    /// Two empty disks.
    pub fn new(alloc: Global) -> Disks {
        Disks {
            a: empty(alloc),
            b: empty(alloc),
        }
    }

    /// Does a call: `restart` or `restart PICK` restarts both disks, and the others are for that of an area, as `on_disk` does them.
    pub fn call(
        &mut self,
        alloc: Global,
        call: &str,
        pick: u64,
        came: &mut String,
    ) -> Result<(), Stop> {
        match split_word(call) {
            ("restart", "") => self.restart(pick),
            ("restart", pick) => self.restart(number(pick)?),
            (word, given) => {
                let (of, behind) = split_word(given);
                match area(of)? {
                    0 => on_disk(alloc, &mut self.a, word, behind, came),
                    _ => on_disk(alloc, &mut self.b, word, behind, came),
                }
            }
        }
    }

    /// Restarts both disks.
    pub fn restart(&mut self, pick: u64) -> Result<(), Stop> {
        if self.a.restart(pick) && self.b.restart(pick) {
            Ok(())
        } else {
            Err(NO_DISK)
        }
    }
}

/// A disk without bytes.
pub fn empty(alloc: Global) -> MemDisk {
    MemDisk::new(alloc, Vec::new(alloc))
}

/// Does a call on a disk, which is named behind the word: `put BYTES` is a disk of these bytes, `cut COUNT` one of the first bytes of
/// what was there, `write OFFSET BYTES` writes and syncs, `show` tells the bytes, and `fail CALL` and `stop CALL` let a call fail.
pub fn on_disk(
    alloc: Global,
    disk: &mut MemDisk,
    word: &str,
    given: &str,
    came: &mut String,
) -> Result<(), Stop> {
    match word {
        "put" => {
            *disk = disk_of(alloc, &bytes(alloc, given)?)?;
            Ok(())
        }
        "cut" => cut(alloc, disk, number(given)?),
        "write" => {
            let (at, piece) = split_word(given);
            written(disk, number(at)?, &bytes(alloc, piece)?)
        }
        "show" => add_bytes(alloc, came, &read(alloc, disk)?),
        "fail" => armed(disk.arm_fail(number(given)?)),
        "stop" => armed(disk.arm_stop(number(given)?)),
        _ => Err(UNKNOWN),
    }
}

fn armed(is_armed: bool) -> Result<(), Stop> {
    if is_armed { Ok(()) } else { Err(NO_DISK) }
}

/// A disk of these bytes.
fn disk_of(alloc: Global, bytes: &[u8]) -> Result<MemDisk, Stop> {
    let mut disk = empty(alloc);
    written(&mut disk, 0, bytes)?;
    Ok(disk)
}

fn written(disk: &mut MemDisk, at: u64, piece: &[u8]) -> Result<(), Stop> {
    if disk.write_at(at, piece).is_ok() && disk.sync().is_ok() {
        Ok(())
    } else {
        Err(NO_DISK)
    }
}

/// All bytes of a disk.
fn read(alloc: Global, disk: &mut MemDisk) -> Result<Vec<u8>, Stop> {
    let Ok(size) = disk.len() else {
        return Err(NO_DISK);
    };
    let mut bytes = Vec::new(alloc);
    let Ok(()) = bytes.resize(size as usize, 0) else {
        return Err(NO_MEMORY);
    };
    match disk.read_at(0, &mut bytes) {
        Ok(_) => Ok(bytes),
        Err(_) => Err(NO_DISK),
    }
}

fn cut(alloc: Global, disk: &mut MemDisk, count: u64) -> Result<(), Stop> {
    let mut bytes = read(alloc, disk)?;
    bytes.truncate(count as usize);
    *disk = disk_of(alloc, &bytes)?;
    Ok(())
}
