//! The loop over a schedule: one event after another is read, taken and answered.
ghost use Rattle.std.specs.Prelude.{◌≡◌, ◌<◌, ◌≤◌, ◌-◌, ◌^◌, IfNone, IfSome, IfOk, OnErr, Some};
ghost use Rattle.tab_outside.specs.Faults.{Rose};
ghost use Rattle.tab_history.specs.Legality.{Legal};
ghost use Rattle.tab_core.specs.Courses.{first_state};
ghost use Rattle.tab_drive.specs.RunStates.{RunState};
ghost use Rattle.tab_drive.specs.Sessions.{Keeps};
ghost use Rattle.tab_drive.specs.Runs.{traffic, EventServed, StopsServing, Stops};

use crate::outgoing::write_outgoing;
use crate::reading::{NextEvent, Unread, next_event};
use crate::session::Session;
use std::alloc::Global;
use tab_auth::Keys;
use tab_history::History;
use tab_json::Scratch;
use tab_keys::Memory;
use tab_outside::{Sink, Source};

/// Why a schedule was read no further.
#[derive(Clone, Copy, Debug, PartialEq, Eq)]
pub enum RunStop {
    /// Its last line was read.
    End,
    /// The next event is refused.
    Refused,
    /// The source failed.
    ReadFault,
    /// The sink failed.
    WriteFault,
    /// No memory was found.
    Memory,
}

/// Room that is kept from event to event, so that none of them takes it anew.
#[derive(Drop)]
pub struct Room {
    /// For what is read of a body.
    scratch: Scratch,
    /// For what is written.
    output: Vec<u8>,
}

impl Room {
    fn new(alloc: Global) -> Room {
        Room {
            scratch: Scratch::new(alloc),
            output: Vec::new(alloc),
        }
    }
}

/// Reads the next event, takes it, and writes what it gives, by way of the room that is kept.
pub fn serve_event<S: Source, K: Sink>(
    alloc: Global,
    keys: &Keys,
    session: &mut Session,
    input: &mut S,
    output: &mut K,
    room: &mut Room,
) -> Option<RunStop>
    ensures served { (state : RunState) → Keeps session.old state → IfNone result (EventServed keys.now state
        (traffic (S.left input.old) (S.left input.new) (K.taken output.old) (K.taken output.new)) session.old session.new) }
    ensures stopped { (state : RunState) → Keeps session.old state → IfSome result (StopsServing keys.now state
        (traffic (S.left input.old) (S.left input.new) (K.taken output.old) (K.taken output.new)) session.old session.new) }
    ensures numbered { session.old.number < 2 ^ 64 }
    ensures read_fault { result ≡ Some RunStop.ReadFault → Rose (S.faults input.old) (S.faults input.new) }
    ensures write_fault { result ≡ Some RunStop.WriteFault → Rose (K.faults output.old) (K.faults output.new) }
    ensures read_later { S.faults input.old ≤ S.faults input.new }
    ensures write_later { K.faults output.old ≤ K.faults output.new }
{
    let number = session.number;
    let event = match next_event(alloc, input) {
        Ok(NextEvent::Event(event)) => event,
        Ok(NextEvent::End) => return Some(RunStop::End),
        Err(Unread::NoEvent) => return Some(RunStop::Refused),
        Err(Unread::Fault) => return Some(RunStop::ReadFault),
        Err(Unread::Memory) => return Some(RunStop::Memory),
    };
    if number == u64::MAX {
        return Some(RunStop::Refused);
    }
    let outgoing = match session.step(alloc, keys, event, &mut room.scratch) {
        Ok(outgoing) => outgoing,
        Err(_) => return Some(RunStop::Memory),
    };
    match write_outgoing(output, &mut room.output, &outgoing) {
        Ok(()) => None,
        Err(_) => Some(RunStop::WriteFault),
    }
}

/// Where a schedule stopped: why, how many of its events were answered whole, and the history.
#[derive(Drop)]
pub struct Served {
    /// Why it was read no further.
    pub stop: RunStop,
    /// How many events were answered whole.
    pub done: u64,
    /// The entries of all events that were taken, the opening's first.
    pub history: History,
}

/// Opens a store and reads a schedule to its end, or up to what stops it.
pub fn serve<S: Source, K: Sink>(
    alloc: Global,
    keys: &Keys,
    moment: u64,
    input: &mut S,
    output: &mut K,
) -> Result<Served, Memory>
    ensures stops { IfOk result (λ served. Stops keys.now moment
        (traffic (S.left input.old) (S.left input.new) (K.taken output.old) (K.taken output.new)) served.history served.done served.stop) }
    ensures legal { IfOk result (λ served. Legal first_state served.history) }
    ensures read_fault { IfOk result (λ served. served.stop ≡ RunStop.ReadFault → Rose (S.faults input.old) (S.faults input.new)) }
    ensures write_fault { IfOk result (λ served. served.stop ≡ RunStop.WriteFault → Rose (K.faults output.old) (K.faults output.new)) }
    ensures numbered { IfOk result (λ served. served.done < 2 ^ 64 - 1) }
    ensures unread { OnErr result (S.left input.new ≡ S.left input.old) }
    ensures unwritten { OnErr result (K.taken output.new ≡ K.taken output.old) }
    ensures read_later { S.faults input.old ≤ S.faults input.new }
    ensures write_later { K.faults output.old ≤ K.faults output.new }
{
    let mut session = Session::open(alloc, moment)?;
    let mut room = Room::new(alloc);
    let mut done = 0;
    loop {
        if let Some(stop) = serve_event(alloc, keys, &mut session, input, output, &mut room) {
            return Ok(Served {
                stop,
                done,
                history: session.history,
            });
        }
        done += 1;
    }
}
