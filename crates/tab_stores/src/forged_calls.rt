//! The calls on a range server whose disks give other bytes once one of their calls has failed.

use crate::commands::command;
use crate::disks::Disks;
use crate::forging::{Forger, Forging};
use crate::replies::{add_answer, add_range, add_result};
use crate::server_calls::{add_is, make, server_number};
use crate::spans::listed;
use crate::stops::{Stop, UNKNOWN};
use crate::tallying::Unnumbered;
use crate::texts::{add, area, number, split_word};
use std::alloc::Global;
use tab_server::Server;

/// A server over such disks.
#[derive(Drop)]
struct Forged {
    server: Server<Forger, Unnumbered>,
}

/// Goes through a line `AREA AT BITS NUMBER RANGE=LO..HI .. | CALL ..`: the disk of the area turns these bits of the byte at this offset,
/// and the calls are those on the server of this number whose ranges are whole and have no rows.
pub fn hold_forged(alloc: Global, line: &str, came: &mut String) -> Result<(), Stop> {
    let Some((given, calls)) = line.split_once('|') else {
        return Err(UNKNOWN);
    };
    let mut forged = opened(alloc, given.trim_ascii(), came)?;
    for call in calls.split('|') {
        let (word, given) = split_word(call.trim_ascii());
        forged.call(alloc, word, given, came)?;
    }
    Ok(())
}

fn opened(alloc: Global, given: &str, came: &mut String) -> Result<Forged, Stop> {
    let (of, rest) = split_word(given);
    let (at, rest) = split_word(rest);
    let (bits, made) = split_word(rest);
    let forging = Forging {
        at: number(at)?,
        bits: number(bits)?.min(255) as u8,
    };
    let mut disks = Disks::new(alloc);
    make(alloc, &mut disks, made, came)?;
    over(alloc, forgers(disks, area(of)?, forging), made)
}

/// The disks, of which that of an area has the forging.
fn forgers(disks: Disks, area: u8, forging: Forging) -> (Forger, Forger) {
    let none = Forging { at: 0, bits: 0 };
    match area {
        0 => (Forger::new(disks.a, forging), Forger::new(disks.b, none)),
        _ => (Forger::new(disks.a, none), Forger::new(disks.b, forging)),
    }
}

fn over(alloc: Global, disks: (Forger, Forger), made: &str) -> Result<Forged, Stop> {
    let (server, ranges) = split_word(made);
    let server = server_number(server)?;
    let ranges = listed(alloc, ranges)?;
    let (a, b) = disks;
    match Server::recover(alloc, a, b, server, &ranges) {
        Ok(server) => Ok(Forged { server }),
        Err(_) => Err(Stop::Unread("a server is refused")),
    }
}

impl Forged {
    /// The words are those of a server over disks in memory.
    fn call(
        &mut self,
        alloc: Global,
        word: &str,
        given: &str,
        came: &mut String,
    ) -> Result<(), Stop> {
        match word {
            "settle" => self.settle(alloc, came),
            "checkpoint" => self.checkpoint(alloc, came),
            "fail" => self.arm(given, false),
            "stop" => self.arm(given, true),
            "seal" | "give_back" | "retire" | "in" | "out" => {
                self.turn(word, number(given)?, came)
            }
            "rows" | "settled" | "failed" | "stopped" => self.ask(alloc, word, given, came),
            "at" => self.act_later(alloc, given, came),
            _ => self.act(alloc, 0, (word, given), came),
        }
    }

    fn settle(&mut self, alloc: Global, came: &mut String) -> Result<(), Stop> {
        let result = self.server.settle(alloc);
        add_result(alloc, came, result)
    }

    fn checkpoint(&mut self, alloc: Global, came: &mut String) -> Result<(), Stop> {
        let result = self.server.checkpoint(alloc);
        add_result(alloc, came, result)
    }

    fn arm(&mut self, given: &str, stops: bool) -> Result<(), Stop> {
        let (of, call) = split_word(given);
        let area = area(of)?;
        let call = number(call)?;
        let is_armed = if stops {
            self.server.arm_stop(area, call)
        } else {
            self.server.arm_fail(area, call)
        };
        if is_armed { Ok(()) } else { Err(UNKNOWN) }
    }

    fn turn(&mut self, word: &str, range: u64, came: &mut String) -> Result<(), Stop> {
        let is_done = match word {
            "seal" => self.server.seal(range),
            "give_back" => self.server.give_back(range),
            "retire" => self.server.retire(range),
            "in" => self.server.hand_in(range, Unnumbered).is_ok(),
            _ => self.server.hand_out(range).is_some(),
        };
        add_is(came, is_done)
    }

    fn ask(&self, alloc: Global, word: &str, given: &str, came: &mut String) -> Result<(), Stop> {
        match word {
            "rows" => self.rows(alloc, number(given)?, came),
            "settled" => self.settled(given, came),
            "failed" => self.failed(came),
            _ => add_is(came, self.server.stopped()),
        }
    }

    fn rows(&self, alloc: Global, range: u64, came: &mut String) -> Result<(), Stop> {
        match self.server.rows_of(range) {
            Some((rows, next_tick)) => add_range(alloc, came, Some((rows.as_slice(), next_tick))),
            None => add_range(alloc, came, None),
        }
    }

    fn settled(&self, given: &str, came: &mut String) -> Result<(), Stop> {
        let (range, tick) = split_word(given);
        let range = number(range)?;
        let tick = number(tick)?;
        add_is(came, self.server.settled(range, tick))
    }

    fn failed(&self, came: &mut String) -> Result<(), Stop> {
        let failed = self.server.failed();
        add(came, if failed { "failed" } else { "running" })
    }

    fn act_later(&mut self, alloc: Global, given: &str, came: &mut String) -> Result<(), Stop> {
        let (now, call) = split_word(given);
        let now = number(now)?;
        self.act(alloc, now, split_word(call), came)
    }

    /// A command at a moment.
    fn act(
        &mut self,
        alloc: Global,
        now: u64,
        call: (&str, &str),
        came: &mut String,
    ) -> Result<(), Stop> {
        let (word, given) = call;
        let command = command(alloc, word, given)?;
        let result = self.server.act(alloc, &command, now);
        add_answer(alloc, came, result)
    }
}
