//! The calls on two disks of a range server, and on the server that is open over them.

use crate::commands::command;
use crate::disks::Disks;
use crate::replies::{add_answer, add_range, add_result};
use crate::serving::Serving;
use crate::spans::{area_text, listed};
use crate::stops::{Stop, UNKNOWN};
use crate::texts::{add, add_refused, area, number, split_word};
use std::alloc::Global;

/// Two disks, or a server that is open over them.
#[derive(Drop)]
enum Rack {
    Closed(Disks),
    Open(Serving),
}

/// Goes through the calls of a line, over two empty disks to begin with.
pub fn hold(alloc: Global, calls: &str, pick: u64, came: &mut String) -> Result<(), Stop> {
    let mut rack = Rack::Closed(Disks::new(alloc));
    for call in calls.split('|') {
        rack = step(alloc, rack, call.trim_ascii(), pick, came)?;
    }
    Ok(())
}

fn step(alloc: Global, rack: Rack, call: &str, pick: u64, came: &mut String) -> Result<Rack, Stop> {
    match rack {
        Rack::Closed(disks) => on_disks(alloc, disks, call, pick, came),
        Rack::Open(serving) => on_server(alloc, serving, call, pick, came),
    }
}

/// `init NUMBER RANGE=LO..HI ..` makes disks on which the ranges of this server are whole and have no rows, `open NUMBER RANGE=LO..HI ..`
/// opens it with these ranges; else as for disks.
fn on_disks(
    alloc: Global,
    disks: Disks,
    call: &str,
    pick: u64,
    came: &mut String,
) -> Result<Rack, Stop> {
    match split_word(call) {
        ("init", given) => made(alloc, disks, given, came),
        ("open", given) => open(alloc, disks, given, came),
        _ => called(alloc, disks, call, pick, came),
    }
}

fn called(
    alloc: Global,
    disks: Disks,
    call: &str,
    pick: u64,
    came: &mut String,
) -> Result<Rack, Stop> {
    let mut disks = disks;
    disks.call(alloc, call, pick, came)?;
    Ok(Rack::Closed(disks))
}

pub fn server_number(text: &str) -> Result<u8, Stop> {
    let number = number(text)?;
    Ok(number.min(255) as u8)
}

fn made(alloc: Global, disks: Disks, given: &str, came: &mut String) -> Result<Rack, Stop> {
    let mut disks = disks;
    make(alloc, &mut disks, given, came)?;
    Ok(Rack::Closed(disks))
}

/// Area 0 has the frames under epoch 1, and the gate of area 1 stands closed.
pub fn make(alloc: Global, disks: &mut Disks, given: &str, came: &mut String) -> Result<(), Stop> {
    let (server, ranges) = split_word(given);
    let ranges = listed(alloc, ranges)?;
    let text = area_text(alloc, server_number(server)?, &ranges)?;
    let call = format!(in alloc; "put 0 {}", text.as_str())?;
    disks.call(alloc, call.as_str(), 0, came)?;
    disks.call(alloc, "put 1 00", 0, came)
}

fn open(alloc: Global, disks: Disks, given: &str, came: &mut String) -> Result<Rack, Stop> {
    let (server, ranges) = split_word(given);
    let server = server_number(server)?;
    let ranges = listed(alloc, ranges)?;
    match Serving::open(alloc, disks, server, &ranges) {
        Ok(serving) => {
            add(came, "opened")?;
            Ok(Rack::Open(serving))
        }
        Err(back) => {
            add_refused(alloc, came, back.refused)?;
            Ok(Rack::Closed(Disks {
                a: back.a,
                b: back.b,
            }))
        }
    }
}

fn on_server(
    alloc: Global,
    serving: Serving,
    call: &str,
    pick: u64,
    came: &mut String,
) -> Result<Rack, Stop> {
    match split_word(call) {
        ("close", "") => Ok(Rack::Closed(serving.closed())),
        ("restart", _) => called(alloc, serving.closed(), call, pick, came),
        (word, given) => {
            let mut serving = serving;
            call_server(alloc, &mut serving, word, given, came)?;
            Ok(Rack::Open(serving))
        }
    }
}

/// `settle` reads the store anew where it has failed, `checkpoint` rewrites it, `fail AREA CALL` and `stop AREA CALL` let a call on the
/// disk of an area fail; `seal`, `give_back`, `serve`, `retire`, `in` and `out` are those of `turn`, `rows`, `settled`, `failed` and
/// `stopped` those of `ask`, and all else is a command.
fn call_server(
    alloc: Global,
    serving: &mut Serving,
    word: &str,
    given: &str,
    came: &mut String,
) -> Result<(), Stop> {
    match word {
        "settle" => settle(alloc, serving, came),
        "checkpoint" => checkpoint(alloc, serving, came),
        "fail" => arm(serving, given, false),
        "stop" => arm(serving, given, true),
        "seal" | "give_back" | "serve" | "retire" | "in" | "out" => {
            turn(serving, word, number(given)?, came)
        }
        "rows" | "settled" | "failed" | "stopped" => ask(alloc, serving, word, given, came),
        _ => act(alloc, serving, word, given, came),
    }
}

/// Changes the mark of a range, lets go of it, or hands its tally in or out: `yes` where that was done.
fn turn(serving: &mut Serving, word: &str, range: u64, came: &mut String) -> Result<(), Stop> {
    let is_done = match word {
        "seal" => serving.seal(range),
        "give_back" => serving.give_back(range),
        "serve" => serving.serve_range(range),
        "retire" => serving.retire(range),
        "in" => serving.hand_in(range),
        _ => serving.hand_out(range),
    };
    add_is(came, is_done)
}

pub fn add_is(came: &mut String, is: bool) -> Result<(), Stop> {
    add(came, if is { "yes" } else { "no" })
}

/// `rows RANGE` tells the next tick and the rows of a range, `settled RANGE TICK` whether its next tick is past this one, `failed` whether
/// the store has to be read anew, and `stopped` whether a call has met a stop.
fn ask(
    alloc: Global,
    serving: &Serving,
    word: &str,
    given: &str,
    came: &mut String,
) -> Result<(), Stop> {
    match word {
        "rows" => rows(alloc, serving, number(given)?, came),
        "settled" => settled(serving, given, came),
        "failed" => add(
            came,
            if serving.failed() {
                "failed"
            } else {
                "running"
            },
        ),
        _ => add_is(came, serving.stopped()),
    }
}

fn rows(alloc: Global, serving: &Serving, range: u64, came: &mut String) -> Result<(), Stop> {
    match serving.rows_of(range) {
        Some((rows, next_tick)) => add_range(alloc, came, Some((rows.as_slice(), next_tick))),
        None => add_range(alloc, came, None),
    }
}

fn settled(serving: &Serving, given: &str, came: &mut String) -> Result<(), Stop> {
    let (range, tick) = split_word(given);
    let range = number(range)?;
    let tick = number(tick)?;
    add_is(came, serving.settled(range, tick))
}

fn settle(alloc: Global, serving: &mut Serving, came: &mut String) -> Result<(), Stop> {
    let result = serving.settle(alloc);
    add_result(alloc, came, result)
}

fn checkpoint(alloc: Global, serving: &mut Serving, came: &mut String) -> Result<(), Stop> {
    let result = serving.checkpoint(alloc);
    add_result(alloc, came, result)
}

fn arm(serving: &mut Serving, given: &str, stops: bool) -> Result<(), Stop> {
    let (of, call) = split_word(given);
    let area = area(of)?;
    let call = number(call)?;
    let is_armed = if stops {
        serving.arm_stop(area, call)
    } else {
        serving.arm_fail(area, call)
    };
    if is_armed { Ok(()) } else { Err(UNKNOWN) }
}

/// A command at moment 0, or behind `at NOW` at that one.
fn act(
    alloc: Global,
    serving: &mut Serving,
    word: &str,
    given: &str,
    came: &mut String,
) -> Result<(), Stop> {
    match word {
        "at" => act_later(alloc, serving, given, came),
        _ => act_at(alloc, serving, 0, (word, given), came),
    }
}

fn act_later(
    alloc: Global,
    serving: &mut Serving,
    given: &str,
    came: &mut String,
) -> Result<(), Stop> {
    let (now, call) = split_word(given);
    let now = number(now)?;
    act_at(alloc, serving, now, split_word(call), came)
}

fn act_at(
    alloc: Global,
    serving: &mut Serving,
    now: u64,
    call: (&str, &str),
    came: &mut String,
) -> Result<(), Stop> {
    let (word, given) = call;
    let command = command(alloc, word, given)?;
    let result = serving.act(alloc, &command, now);
    add_answer(alloc, came, result)
}
