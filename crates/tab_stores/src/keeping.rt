//! A counter that is kept over two disks.

ghost use Rattle.std.specs.Prelude.{◌≡◌, IfOk, IfSome};
ghost use Rattle.tab_stores.specs.Counting.{IsKept};

use crate::counters::Counter;
use crate::disks::Disks;
use crate::frames::count_of;
use crate::stops::{NO_MEMORY, Stop, UNKNOWN};
use crate::texts::{add, add_number, area, number, split_word};
use std::alloc::Global;
use tab_journal::{Kept, KeptRefused, SERVER_KIND, Store};
use tab_outside::MemDisk;

type KeptCounter = Kept<MemDisk, Counter>;

/// That a call is for a store that runs, or for one that has failed.
const OTHERWISE: Stop = Stop::Unread("the store runs, or has failed");

/// Opens the disks, keeps the counter that their frames tell, and does the calls.
pub fn keep(
    alloc: Global,
    disks: Disks,
    calls: &str,
    pick: u64,
    came: &mut String,
) -> Result<(), Stop> {
    let mut kept = opened(alloc, disks, came)?;
    for call in calls.split('|') {
        kept = walked(alloc, kept, call.trim_ascii(), pick, came)?;
    }
    Ok(())
}

/// Opens the store of two disks, and keeps the counter that its frames tell.
fn opened(alloc: Global, disks: Disks, came: &mut String) -> Result<KeptCounter, Stop>
    ensures { IfOk result IsKept }
{
    match Store::open_store(alloc, disks.a, disks.b, SERVER_KIND, 0) {
        Ok((store, frames)) => {
            let count = count_of(&frames);
            add_number(alloc, came, "count", count)?;
            Ok(Kept::new(store, Counter { count }))
        }
        Err(_) => Err(Stop::Unread("no store was opened")),
    }
}

/// Does a call. `restart` restarts the disks and opens them again.
fn walked(
    alloc: Global,
    kept: KeptCounter,
    call: &str,
    pick: u64,
    came: &mut String,
) -> Result<KeptCounter, Stop>
    requires { IsKept kept }
    ensures { IfOk result IsKept }
{
    match split_word(call) {
        ("restart", "") => restarted(alloc, kept, pick, came),
        (word, given) => {
            let mut kept = kept;
            call_kept(alloc, &mut kept, word, given, came)?;
            Ok(kept)
        }
    }
}

fn restarted(
    alloc: Global,
    kept: KeptCounter,
    pick: u64,
    came: &mut String,
) -> Result<KeptCounter, Stop>
    ensures { IfOk result IsKept }
{
    let (a, b) = kept.into_disks();
    let mut disks = Disks { a, b };
    disks.restart(pick)?;
    opened(alloc, disks, came)
}

/// `raise NUMBER` counts up to a greater number, `settle` reads the store anew, `checkpoint` rewrites it, `count` tells the counter,
/// `doubt` the number of which it is open whether it stands, and `fail AREA CALL` and `stop AREA CALL` let a call on the disk of an area fail.
fn call_kept(
    alloc: Global,
    kept: &mut KeptCounter,
    word: &str,
    given: &str,
    came: &mut String,
) -> Result<(), Stop>
    requires { IsKept kept.old }
    ensures { IsKept kept.new }
{
    match word {
        "raise" => raise(alloc, kept, number(given)?, came),
        "settle" => settle(alloc, kept, came),
        "checkpoint" => checkpoint(alloc, kept, came),
        "count" => add_number(alloc, came, "count", kept.held().count),
        "doubt" => add_doubt(alloc, came, kept.doubt()),
        "failed" => add(came, if kept.failed() { "failed" } else { "running" }),
        "fail" => arm(kept, given, false),
        "stop" => arm(kept, given, true),
        _ => Err(UNKNOWN),
    }
}

fn raise(alloc: Global, kept: &mut KeptCounter, count: u64, came: &mut String) -> Result<(), Stop>
    requires { IsKept kept.old }
    ensures { IsKept kept.new }
{
    if kept.failed() || count <= kept.held().count {
        return Err(OTHERWISE);
    }
    let result = kept.change(alloc, count);
    add_result(alloc, came, result)
}

fn settle(alloc: Global, kept: &mut KeptCounter, came: &mut String) -> Result<(), Stop>
    requires { IsKept kept.old }
    ensures { IsKept kept.new }
{
    if !kept.failed() {
        return Err(OTHERWISE);
    }
    match kept.settle(alloc) {
        Ok(true) => add(came, "stands"),
        Ok(false) => add(came, "settled"),
        Err(refused) => add_refusal(alloc, came, refused),
    }
}

fn checkpoint(alloc: Global, kept: &mut KeptCounter, came: &mut String) -> Result<(), Stop>
    requires { IsKept kept.old }
    ensures { IsKept kept.new }
{
    if kept.failed() {
        return Err(OTHERWISE);
    }
    let result = kept.checkpoint(alloc);
    add_result(alloc, came, result)
}

fn arm(kept: &mut KeptCounter, given: &str, stops: bool) -> Result<(), Stop>
    requires { IsKept kept.old }
    ensures { IsKept kept.new }
{
    let (of, call) = split_word(given);
    let area = area(of)?;
    let call = number(call)?;
    let is_armed = if stops {
        kept.arm_stop(area, call)
    } else {
        kept.arm_fail(area, call)
    };
    if is_armed { Ok(()) } else { Err(UNKNOWN) }
}

fn add_doubt(alloc: Global, came: &mut String, doubt: Option<&u64>) -> Result<(), Stop> {
    match doubt {
        Some(count) => add_number(alloc, came, "doubt", *count),
        None => add(came, "no doubt"),
    }
}

fn add_result(alloc: Global, came: &mut String, res: Result<(), KeptRefused>) -> Result<(), Stop> {
    match res {
        Ok(()) => add(came, "done"),
        Err(refused) => add_refusal(alloc, came, refused),
    }
}

fn add_refusal(alloc: Global, came: &mut String, refused: KeptRefused) -> Result<(), Stop> {
    match refused {
        KeptRefused::DiskFault { area } => add_number(alloc, came, "DiskFault", area as u64),
        KeptRefused::Damaged { area, .. } => add_number(alloc, came, "Damaged", area as u64),
        KeptRefused::EpochSpent => add(came, "EpochSpent"),
        KeptRefused::Memory => Err(NO_MEMORY),
    }
}
