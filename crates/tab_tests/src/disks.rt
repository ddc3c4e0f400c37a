//! A disk in memory: each call failed and stopped at each number, each picture of a restart, and what is armed twice.

use std::alloc::Global;
use std::test::Fail;
use tab_outside::{Disk, Failed, MemDisk};

/// How many bytes of the disk are read.
const SIZE: usize = 10;

/// What an arming does: the next call of this number stops, or fails.
#[derive(Clone, Copy)]
enum Arm {
    Stop(u64),
    Fail(u64),
}

impl Arm {
    fn of(stops: bool, call: u64) -> Arm {
        if stops {
            Arm::Stop(call)
        } else {
            Arm::Fail(call)
        }
    }

    /// The first call that fails.
    fn first(self) -> u64 {
        match self {
            Arm::Stop(call) | Arm::Fail(call) => call.max(1),
        }
    }

    fn stops_at(self, call: u64) -> bool {
        matches!(self, Arm::Stop(_)) && self.first() <= call
    }

    fn fails_at(self, call: u64) -> bool {
        self.first() == call || self.stops_at(call)
    }

    /// Whether what the call writes stands. A write that is stopped in does, and a sync does not.
    fn stands_at(self, call: u64) -> bool {
        !self.fails_at(call) || (self.stops_at(call) && self.first() == call && call != 3)
    }
}

fn armed(disk: &mut MemDisk, arm: Arm) -> bool {
    match arm {
        Arm::Stop(call) => disk.arm_stop(call),
        Arm::Fail(call) => disk.arm_fail(call),
    }
}

/// The writes among the calls that each try makes in turn: two that overlap, a sync, two that overlap, and one that
/// begins past the end.
fn write_of(call: u64) -> Option<(usize, &'static [u8])> {
    match call {
        1 => Some((0, b"abcd")),
        2 => Some((2, b"xy")),
        4 => Some((1, b"123")),
        5 => Some((3, b"zz")),
        6 => Some((7, b"end")),
        _ => None,
    }
}

fn write(disk: &mut MemDisk, at: usize, piece: &[u8]) -> Result<(), Failed> {
    disk.write_at(at as u64, piece)
}

fn make(disk: &mut MemDisk, call: u64) -> Result<(), Failed> {
    match write_of(call) {
        Some((at, piece)) => write(disk, at, piece),
        None => disk.sync(),
    }
}

/// A plain picture with one write more, or with a byte throughout its range.
fn stand(picture: &mut [u8; SIZE], at: usize, piece: &[u8], byte: Option<u8>) {
    for i in 0..SIZE {
        if i < at {
            if picture[i] == b'-' {
                picture[i] = 0;
            }
        } else if let Some(each) = piece.get(i - at) {
            picture[i] = byte.unwrap_or(*each);
        }
    }
}

/// Makes the call in the four plain pictures, where it stands.
fn follow(pictures: &mut [[u8; SIZE]; 4], call: u64) {
    match write_of(call) {
        Some((at, piece)) => {
            stand(&mut pictures[1], at, piece, None);
            stand(&mut pictures[2], at, piece, Some(0xa5));
            stand(&mut pictures[3], at, piece, Some(0x01));
        }
        None => *pictures = [pictures[1]; 4],
    }
}

/// Makes the six calls, and tells whether each failed where it should and whether the disk says that it is stopped.
fn calls_fail(disk: &mut MemDisk, arm: Arm) -> bool {
    let mut fail = true;
    for call in 1..=6_u64 {
        let failed = make(disk, call).is_err();
        fail &= failed == arm.fails_at(call) && disk.stopped() == arm.stops_at(call);
    }
    fail
}

/// The pictures that the calls leave.
fn pictures(arm: Arm) -> [[u8; SIZE]; 4] {
    let mut pictures = [[b'-'; SIZE]; 4];
    for call in 1..=6_u64 {
        if arm.stands_at(call) {
            follow(&mut pictures, call);
        }
    }
    pictures
}

fn restarts(disk: &mut MemDisk, pick: u64) -> bool {
    disk.restart(pick) && !disk.stopped()
}

fn bytes_of(disk: &mut MemDisk) -> Option<[u8; SIZE]> {
    let mut buf = [b'-'; SIZE];
    match disk.read_at(0, &mut buf) {
        Ok(_) => Some(buf),
        Err(_) => None,
    }
}

/// Whether an armed disk fails where it should, and restarts into the picture.
fn is_as_armed(alloc: Global, arm: Arm, pick: u64) -> bool {
    let mut disk = MemDisk::new(alloc, Vec::new(alloc));
    armed(&mut disk, arm)
        && disk.has_stops()
        && calls_fail(&mut disk, arm)
        && restarts(&mut disk, pick)
        && bytes_of(&mut disk) == Some(pictures(arm)[(pick % 4) as usize])
}

#[test]
fn each_call_fails_or_stops_and_each_picture_comes(rt: HostRuntime) -> Result<(), Fail> {
    for stops in [false, true] {
        for call in 0..=7_u64 {
            for pick in 0..4_u64 {
                assert!(rt;
                    is_as_armed(rt.alloc(), Arm::of(stops, call), pick),
                    "{pick} after {call}"
                );
            }
        }
    }
    Ok(())
}

/// A read of five bytes from here on, over dashes: the bytes, and how many came.
fn read(disk: &mut MemDisk, at: u64) -> ([u8; 5], Option<usize>) {
    let mut buf = *b"-----";
    let read = disk.read_at(at, &mut buf).ok();
    (buf, read)
}

/// What such a read of `abcd` gives, from 1, 2 or 3 on.
fn due(at: u64, fails: bool) -> ([u8; 5], Option<usize>) {
    match at {
        _ if fails => (*b"-----", None),
        1 => (*b"bcd--", Some(3)),
        2 => (*b"cd---", Some(2)),
        _ => (*b"d----", Some(1)),
    }
}

/// A disk that has `abcd`.
fn filled(alloc: Global) -> Option<MemDisk> {
    let mut disk = MemDisk::new(alloc, Vec::new(alloc));
    match write(&mut disk, 0, b"abcd") {
        Ok(()) => Some(disk),
        Err(_) => None,
    }
}

fn reads_fail(disk: &mut MemDisk, arm: Arm) -> bool {
    let mut fail = true;
    for at in 1..=3_u64 {
        fail &= read(disk, at) == due(at, arm.fails_at(at));
    }
    fail
}

fn reads_as_armed(alloc: Global, arm: Arm) -> bool {
    match filled(alloc) {
        Some(mut disk) => armed(&mut disk, arm) && reads_fail(&mut disk, arm),
        None => false,
    }
}

#[test]
fn each_read_fails_or_stops_and_leaves_what_was_lent(rt: HostRuntime) -> Result<(), Fail> {
    for stops in [false, true] {
        for call in 1..=4_u64 {
            assert!(rt; reads_as_armed(rt.alloc(), Arm::of(stops, call)), "{call}");
        }
    }
    Ok(())
}

/// A disk whose fifth call fails.
fn fifth_fails(alloc: Global) -> Option<MemDisk> {
    match Vec::from_slice(alloc, [5].as_slice()) {
        Ok(fails) => Some(MemDisk::new(alloc, fails)),
        Err(_) => None,
    }
}

fn armed_often(disk: &mut MemDisk) -> bool {
    disk.arm_fail(1) && disk.arm_fail(2) && disk.arm_stop(9) && disk.arm_stop(7) && disk.arm_stop(8)
}

/// Whether the second and the fifth call fail, and all from the seventh on.
fn lengths_fail(disk: &mut MemDisk) -> bool {
    let mut fail = true;
    for call in 1..=8_u64 {
        let fails = call == 2 || call == 5 || 7 <= call;
        fail &= disk.len().is_err() == fails && disk.stopped() == (7 <= call);
    }
    fail
}

/// Whether a write of no bytes adds none, and one past the furthest end fails.
fn ends_far(disk: &mut MemDisk) -> bool {
    write(disk, 3, b"").is_ok() && disk.len() == Ok(0) && write(disk, (1 << 62) - 1, b"ab").is_err()
}

fn counts_once(disk: &mut MemDisk) -> bool {
    armed_often(disk) && lengths_fail(disk) && disk.restart(0) && ends_far(disk)
}

#[test]
fn of_two_stops_the_sooner_counts_and_of_two_failures_the_later(
    rt: HostRuntime,
) -> Result<(), Fail> {
    let Some(mut disk) = fifth_fails(rt.alloc()) else {
        return Err(Fail::from("a disk is made"));
    };
    assert!(rt; counts_once(&mut disk));
    Ok(())
}
