//! The calls on disks and on a store over them.

use crate::disks::Disks;
use crate::frames::{base, prepared};
use crate::stops::{Stop, UNKNOWN};
use crate::texts::{add, add_place, add_refused, area, number, split_word};
use crate::yards::{Yard, disks_of};
use std::alloc::Global;
use tab_codec::{Frame, Prepared};
use tab_journal::{SERVER_KIND, Store, StoreRefused};
use tab_outside::MemDisk;

/// Does a call on two disks or on a store: `init` makes a store of server 0 in which range 1 begins, `open` opens it, `close` and
/// `restart` leave its disks.
pub fn step(
    alloc: Global,
    yard: Yard,
    call: &str,
    pick: u64,
    came: &mut String,
) -> Result<Yard, Stop> {
    match yard {
        Yard::Closed(disks) => on_disks(alloc, disks, call, pick, came),
        Yard::Open(store) => on_store(alloc, store, call, pick, came),
    }
}

fn on_disks(
    alloc: Global,
    disks: Disks,
    call: &str,
    pick: u64,
    came: &mut String,
) -> Result<Yard, Stop> {
    match call {
        "" => Ok(Yard::Closed(disks)),
        "init" => init(alloc, disks, came),
        "open" => open(alloc, disks, came),
        _ => called(alloc, disks, call, pick, came),
    }
}

fn called(
    alloc: Global,
    disks: Disks,
    call: &str,
    pick: u64,
    came: &mut String,
) -> Result<Yard, Stop> {
    let mut disks = disks;
    disks.call(alloc, call, pick, came)?;
    Ok(Yard::Closed(disks))
}

fn init(alloc: Global, disks: Disks, came: &mut String) -> Result<Yard, Stop> {
    let base = base(alloc)?;
    match Store::init(alloc, disks.a, disks.b, SERVER_KIND, 0, &base) {
        Ok(store) => {
            add(came, "made")?;
            Ok(Yard::Open(store))
        }
        Err(back) => {
            add_refused(alloc, came, back.refused)?;
            Ok(Yard::Closed(Disks {
                a: back.a,
                b: back.b,
            }))
        }
    }
}

fn open(alloc: Global, disks: Disks, came: &mut String) -> Result<Yard, Stop> {
    match Store::open_store(alloc, disks.a, disks.b, SERVER_KIND, 0) {
        Ok((store, frames)) => {
            add_frames(alloc, came, &frames)?;
            Ok(Yard::Open(store))
        }
        Err(back) => {
            add_refused(alloc, came, back.refused)?;
            Ok(Yard::Closed(Disks {
                a: back.a,
                b: back.b,
            }))
        }
    }
}

fn on_store(
    alloc: Global,
    store: Store<MemDisk>,
    call: &str,
    pick: u64,
    came: &mut String,
) -> Result<Yard, Stop> {
    match split_word(call) {
        ("close", "") => Ok(Yard::Closed(disks_of(store))),
        ("restart", _) => called(alloc, disks_of(store), call, pick, came),
        _ => {
            let mut store = store;
            call_store(alloc, &mut store, call, came)?;
            Ok(Yard::Open(store))
        }
    }
}

/// `append RANGE`, `compact RANGE ..` to copies of these numbers, `reopen`, `place FRAME`, `end`, `failed`, and `fail AREA CALL` and
/// `stop AREA CALL`, which let a call on the disk of an area fail.
fn call_store(
    alloc: Global,
    store: &mut Store<MemDisk>,
    call: &str,
    came: &mut String,
) -> Result<(), Stop> {
    match split_word(call) {
        ("append", given) => append(alloc, store, given, came),
        ("compact", given) => compact(alloc, store, given, came),
        ("reopen", "") => reopen(alloc, store, came),
        ("end", "") => add_place(alloc, came, "end", store.end()),
        ("place", given) => place(alloc, store, number(given)? as usize, came),
        ("failed", "") => add(came, if store.failed() { "failed" } else { "running" }),
        ("fail", given) => arm(store, given, false),
        ("stop", given) => arm(store, given, true),
        _ => Err(UNKNOWN),
    }
}

/// That a call is for a store that runs.
const FAILED: Stop = Stop::Unread("the store has failed");

fn append(
    alloc: Global,
    store: &mut Store<MemDisk>,
    given: &str,
    came: &mut String,
) -> Result<(), Stop> {
    let prepared = prepared(alloc, number(given)?)?;
    if store.failed() {
        return Err(FAILED);
    }
    let result = store.append(&prepared);
    add_result(alloc, came, result)
}

fn compact(
    alloc: Global,
    store: &mut Store<MemDisk>,
    given: &str,
    came: &mut String,
) -> Result<(), Stop> {
    let pieces = pieces(alloc, given)?;
    if store.failed() {
        return Err(FAILED);
    }
    let result = store.rewrite(&pieces);
    add_result(alloc, came, result)
}

fn pieces(alloc: Global, given: &str) -> Result<Vec<Prepared>, Stop> {
    let mut pieces = Vec::new(alloc);
    for range in given.split_whitespace() {
        push_piece(alloc, &mut pieces, range)?;
    }
    Ok(pieces)
}

fn push_piece(alloc: Global, pieces: &mut Vec<Prepared>, range: &str) -> Result<(), Stop> {
    let piece = prepared(alloc, number(range)?)?;
    pieces.push(piece)?;
    Ok(())
}

fn reopen(alloc: Global, store: &mut Store<MemDisk>, came: &mut String) -> Result<(), Stop> {
    match store.reopen(alloc) {
        Ok(frames) => add_frames(alloc, came, &frames),
        Err(refused) => add_refused(alloc, came, refused),
    }
}

fn place(
    alloc: Global,
    store: &Store<MemDisk>,
    frame: usize,
    came: &mut String,
) -> Result<(), Stop> {
    match store.place(frame) {
        Some(place) => add_place(alloc, came, "gate", place),
        None => add(came, "no gate"),
    }
}

fn arm(store: &mut Store<MemDisk>, given: &str, stops: bool) -> Result<(), Stop> {
    let (of, call) = split_word(given);
    let area = area(of)?;
    let call = number(call)?;
    let is_armed = if stops {
        store.arm_stop(area, call)
    } else {
        store.arm_fail(area, call)
    };
    if is_armed { Ok(()) } else { Err(UNKNOWN) }
}

fn add_result(alloc: Global, came: &mut String, res: Result<(), StoreRefused>) -> Result<(), Stop> {
    match res {
        Ok(()) => add(came, "done"),
        Err(refused) => add_refused(alloc, came, refused),
    }
}

/// Adds the numbers of the ranges that begin.
fn add_frames(alloc: Global, came: &mut String, frames: &[Frame]) -> Result<(), Stop> {
    let mut part = String::from_str(alloc, "frames")?;
    for frame in frames {
        match frame {
            Frame::Begin { range, .. } => write!(part, " {range}")?,
            _ => part.push_str(" other")?,
        }
    }
    add(came, part.as_str())
}
