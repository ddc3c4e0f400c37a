//! The calls on two disks of a map of ranges, and on the map that is open over them.

use crate::disks::Disks;
use crate::mapping::Mapping;
use crate::stops::{NO_MEMORY, Stop, UNKNOWN};
use crate::texts::{add, add_number, add_refused, area, number, split_word};
use std::alloc::Global;
use tab_codec::RangeRow;
use tab_history::MapRefused;
use tab_keys::{Key, KeyText};

/// Two disks, or a map that is open over them.
#[derive(Drop)]
enum Plain {
    Closed(Disks),
    Open(Mapping),
}

/// Goes through the calls of a line, over two empty disks to begin with.
pub fn chart(alloc: Global, calls: &str, pick: u64, came: &mut String) -> Result<(), Stop> {
    let mut plain = Plain::Closed(Disks::new(alloc));
    for call in calls.split('|') {
        plain = step(alloc, plain, call.trim_ascii(), pick, came)?;
    }
    Ok(())
}

fn step(
    alloc: Global,
    plain: Plain,
    call: &str,
    pick: u64,
    came: &mut String,
) -> Result<Plain, Stop> {
    match plain {
        Plain::Closed(disks) => on_disks(alloc, disks, call, pick, came),
        Plain::Open(mapping) => on_map(alloc, mapping, call, pick, came),
    }
}

/// `open SERVERS` opens the map over so many servers; else as for disks.
fn on_disks(
    alloc: Global,
    disks: Disks,
    call: &str,
    pick: u64,
    came: &mut String,
) -> Result<Plain, Stop> {
    match split_word(call) {
        ("open", servers) => open(alloc, disks, number(servers)?, came),
        _ => called(alloc, disks, call, pick, came),
    }
}

fn called(
    alloc: Global,
    disks: Disks,
    call: &str,
    pick: u64,
    came: &mut String,
) -> Result<Plain, Stop> {
    let mut disks = disks;
    disks.call(alloc, call, pick, came)?;
    Ok(Plain::Closed(disks))
}

fn open(alloc: Global, disks: Disks, servers: u64, came: &mut String) -> Result<Plain, Stop> {
    match Mapping::open(alloc, disks, servers.min(255) as u8) {
        Ok(mapping) => {
            add(came, "opened")?;
            Ok(Plain::Open(mapping))
        }
        Err(back) => {
            add_refused(alloc, came, back.refused)?;
            Ok(Plain::Closed(Disks {
                a: back.a,
                b: back.b,
            }))
        }
    }
}

fn on_map(
    alloc: Global,
    mapping: Mapping,
    call: &str,
    pick: u64,
    came: &mut String,
) -> Result<Plain, Stop> {
    match split_word(call) {
        ("close", "") => Ok(Plain::Closed(mapping.closed())),
        ("restart", _) => called(alloc, mapping.closed(), call, pick, came),
        (word, given) => {
            let mut mapping = mapping;
            call_map(alloc, &mut mapping, word, given, came)?;
            Ok(Plain::Open(mapping))
        }
    }
}

/// `route TABLE TEXT` tells the range of the key whose partition key is this text and whose row key is empty, `rows` tells each range with
/// its server, `settle` reads the store anew where it has failed, and `checkpoint` rewrites it.
fn call_map(
    alloc: Global,
    mapping: &mut Mapping,
    word: &str,
    given: &str,
    came: &mut String,
) -> Result<(), Stop> {
    match word {
        "route" => route(alloc, mapping, given, came),
        "rows" => add_rows(alloc, came, mapping.rows()),
        "settle" => settle(alloc, mapping, came),
        "checkpoint" => checkpoint(alloc, mapping, came),
        "failed" => add(
            came,
            if mapping.failed() {
                "failed"
            } else {
                "running"
            },
        ),
        "fail" => arm(mapping, given, false),
        "stop" => arm(mapping, given, true),
        _ => Err(UNKNOWN),
    }
}

fn key_text(alloc: Global, text: &str) -> Result<KeyText, Stop> {
    match KeyText::new(alloc, text) {
        Ok(text) => Ok(text),
        Err(_) => Err(Stop::Unread("a key is wanted")),
    }
}

/// The key of a table's number and a partition key.
fn key(alloc: Global, given: &str) -> Result<Key, Stop> {
    let (table, text) = split_word(given);
    let table = number(table)?;
    key_in(alloc, table, text)
}

fn key_in(alloc: Global, table: u64, text: &str) -> Result<Key, Stop> {
    let pk = key_text(alloc, text)?;
    let rk = key_text(alloc, "")?;
    Ok(Key { table, pk, rk })
}

fn route(alloc: Global, mapping: &Mapping, given: &str, came: &mut String) -> Result<(), Stop> {
    let key = key(alloc, given)?;
    add_number(alloc, came, "range", mapping.route(&key).range)
}

fn add_rows(alloc: Global, came: &mut String, rows: &[RangeRow]) -> Result<(), Stop> {
    let mut part = String::from_str(alloc, "rows")?;
    for row in rows {
        write!(part, " {} on {}", row.range, row.server)?;
    }
    add(came, part.as_str())
}

fn settle(alloc: Global, mapping: &mut Mapping, came: &mut String) -> Result<(), Stop> {
    let result = mapping.settle(alloc);
    add_result(alloc, came, result)
}

fn checkpoint(alloc: Global, mapping: &mut Mapping, came: &mut String) -> Result<(), Stop> {
    let result = mapping.checkpoint(alloc);
    add_result(alloc, came, result)
}

fn arm(mapping: &mut Mapping, given: &str, stops: bool) -> Result<(), Stop> {
    let (of, call) = split_word(given);
    let area = area(of)?;
    let call = number(call)?;
    let is_armed = if stops {
        mapping.arm_stop(area, call)
    } else {
        mapping.arm_fail(area, call)
    };
    if is_armed { Ok(()) } else { Err(UNKNOWN) }
}

fn add_result(alloc: Global, came: &mut String, res: Result<(), MapRefused>) -> Result<(), Stop> {
    match res {
        Ok(()) => add(came, "done"),
        Err(refused) => add_refusal(alloc, came, refused),
    }
}

/// The refusals of a settling and of a checkpoint.
fn add_refusal(alloc: Global, came: &mut String, refused: MapRefused) -> Result<(), Stop> {
    match refused {
        MapRefused::DiskFault { disk } => add_number(alloc, came, "DiskFault", disk),
        MapRefused::Damaged { disk, .. } => add_number(alloc, came, "Damaged", disk),
        MapRefused::EpochSpent => add(came, "EpochSpent"),
        MapRefused::Memory => Err(NO_MEMORY),
        _ => Err(UNKNOWN),
    }
}
