//! The next event of a schedule, read from a source byte by byte up to its end.
ghost use Rattle.std.specs.Prelude.{◌≡◌, IfOk, OnErr, IsErrOf};
ghost use Rattle.tab_drive.specs.Reading.{ReadsNext, TookPart, IfTold, Took, ReadsLine, HasNoLine, IsOpenLine, ReadsMessage, HasNoMessage, IsOpenMessage, unread_for};
ghost use Rattle.tab_drive.specs.Schedule.{IsNoEvent};
ghost use Rattle.tab_drive.specs.declared.reading.Unread.TheVariants.{Fault, Memory};
ghost use Rattle.tab_outside.specs.Faults.{HasCauseFor};

use crate::lines::{ScheduleLine, parse_line};
use crate::schedule::{RawMessage, Scheduled};
use std::alloc::{AllocFailed, Global};
use tab_outside::{Failed, FillRefused, Source, fill, read_byte};

/// The longest line that a schedule may have, in bytes without its line feed.
pub const LONGEST_LINE: usize = 16_384;

// How many bytes a line is given room for before it is read: as many as the line of a call has, and more.
const USUAL_LINE: usize = 32;

/// What stands next in a schedule.
#[derive(Debug, Drop)]
pub enum NextEvent {
    /// An event.
    Event(Scheduled),
    /// The line that ends the schedule.
    End,
}

/// Why no event was read.
#[derive(Clone, Copy, Debug, PartialEq, Eq)]
pub enum Unread {
    /// What is left is spelled as no event.
    NoEvent,
    /// A read failed.
    Fault,
    /// Want of memory.
    Memory,
}

/// Reads the next event of a schedule and no byte behind it. Where none is read, no more is taken than one
/// line, and behind the line of a call its message and one byte.
pub fn next_event<S: Source>(alloc: Global, source: &mut S) -> Result<NextEvent, Unread>
    ensures read { IfOk result (ReadsNext (S.left source.old) (S.left source.new)) }
    ensures refused { IsErrOf result Unread.NoEvent → IfTold (S.left source.old) IsNoEvent }
    ensures part { OnErr result (TookPart (S.left source.old) (S.left source.new)) }
    ensures cause { HasCauseFor (S.faults source.old) (S.faults source.new) result Unread.Fault }
    ensures beside { S.beside source.new ≡ S.beside source.old }
{
    let line = read_line(alloc, source)?;
    let Some(said) = parse_line(&line) else {
        return Err(Unread::NoEvent);
    };
    match said {
        ScheduleLine::End => Ok(NextEvent::End),
        ScheduleLine::Now { moment } => Ok(NextEvent::Event(Scheduled::Now { moment })),
        ScheduleLine::Call { size } => {
            let message = read_message(alloc, source, size)?;
            Ok(NextEvent::Event(Scheduled::Call { message }))
        }
    }
}

impl From<Failed> for Unread {
    ghost from_gives = { λ _ unread. unread ≡ Fault };

    fn from(_failed: Failed) -> Unread {
        Unread::Fault
    }
}

impl From<AllocFailed<u8>> for Unread {
    ghost from_gives = { λ _ unread. unread ≡ Memory };

    fn from(_failed: AllocFailed<u8>) -> Unread {
        Unread::Memory
    }
}

impl From<FillRefused> for Unread {
    ghost from_gives = { λ refused unread. unread ≡ unread_for refused };

    fn from(refused: FillRefused) -> Unread {
        match refused {
            FillRefused::Ended => Unread::NoEvent,
            FillRefused::Failed => Unread::Fault,
            FillRefused::Memory => Unread::Memory,
        }
    }
}

/// Reads one line and the line feed behind it, which is left away. A line that is too long is not read on.
fn read_line<S: Source>(alloc: Global, source: &mut S) -> Result<Vec<u8>, Unread>
    ensures read { IfOk result (λ line. ReadsLine (S.left source.old) (S.left source.new) line.items) }
    ensures refused { IsErrOf result Unread.NoEvent → IfTold (S.left source.old) HasNoLine }
    ensures part { OnErr result (Took IsOpenLine (S.left source.old) (S.left source.new)) }
    ensures cause { HasCauseFor (S.faults source.old) (S.faults source.new) result Unread.Fault }
    ensures beside { S.beside source.new ≡ S.beside source.old }
{
    let Ok(mut line) = Vec::with_capacity(alloc, USUAL_LINE) else {
        return Err(Unread::Memory);
    };
    loop {
        let Some(byte) = read_byte(source)? else {
            return Err(Unread::NoEvent);
        };
        if byte == b'\n' {
            return Ok(line);
        }
        if line.len() == LONGEST_LINE {
            return Err(Unread::NoEvent);
        }
        line.push(byte)?;
    }
}

/// Reads a message of so many bytes and the line feed behind it, which is left away.
fn read_message<S: Source>(alloc: Global, source: &mut S, size: usize) -> Result<RawMessage, Unread>
    ensures read { IfOk result (ReadsMessage size (S.left source.old) (S.left source.new)) }
    ensures refused { IsErrOf result Unread.NoEvent → IfTold (S.left source.old) (HasNoMessage size) }
    ensures part { OnErr result (Took (IsOpenMessage size) (S.left source.old) (S.left source.new)) }
    ensures cause { HasCauseFor (S.faults source.old) (S.faults source.new) result Unread.Fault }
    ensures beside { S.beside source.new ≡ S.beside source.old }
{
    let mut bytes = Vec::new(alloc);
    fill(source, size, &mut bytes)?;
    if read_byte(source)? == Some(b'\n') {
        Ok(RawMessage::new(bytes))
    } else {
        Err(Unread::NoEvent)
    }
}
