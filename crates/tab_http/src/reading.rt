//! Messages off a connection, one behind another (RFC 9112, sections 2 and 9.3).
ghost use Rattle.std.specs.Prelude.{◌≡◌, ℕ, ◌≤◌, List, length, Some, IfOk, IfErr, IsErrOf};
ghost use Rattle.tab_http.specs.Heads.{HasNoHead, IsHead};
ghost use Rattle.tab_http.specs.Messages.{RefusesHeadless, IsParsed};
ghost use Rattle.tab_http.specs.Reading.{TookMessage, Refuses, AnswersAll, Gathered, HeadRefused};
ghost use Rattle.tab_outside.specs.Faults.{Rose};

use crate::bodies::read_body;
use crate::header_fields::body_size;
use crate::heads::{Head, is_beyond_repair};
use crate::messages::Message;
use crate::read_ahead::{read_to_head_end, read_to_limit};
use crate::{HttpRefused, LONGEST_HEAD};
use std::alloc::Global;
use tab_outside::{Memory, Source};

/// Reads the next message. The bytes of `carry` come before those of the source, and what came behind the message is
/// in `carry` afterwards. After a refusal the connection is given up.
pub fn read_message<S: Source>(
    alloc: Global,
    source: &mut S,
    carry: &mut Vec<u8>,
) -> Result<Message, HttpRefused>
    ensures read { IfOk result (TookMessage (S.left source.old) (S.left source.new) carry.old.items carry.new.items) }
    ensures refused { IfErr result (Refuses (S.left source.old) (S.left source.new) carry.old.items) }
    ensures all { (left : List ℕ) → S.left source.old ≡ Some left → AnswersAll (S.left source.new) left carry.old.items carry.new.items result }
    ensures fault { IsErrOf result HttpRefused.ReadFault → Rose (S.faults source.old) (S.faults source.new) }
    ensures later { S.faults source.old ≤ S.faults source.new }
    ensures beside { S.beside source.new ≡ S.beside source.old }
{
    take_message(alloc, source, carry)
}

/// Reads a head, and then the body that it announces.
fn take_message<S: Source>(
    alloc: Global,
    source: &mut S,
    carry: &mut Vec<u8>,
) -> Result<Message, HttpRefused>
    ensures read { IfOk result (TookMessage (S.left source.old) (S.left source.new) carry.old.items carry.new.items) }
    ensures refused { IfErr result (Refuses (S.left source.old) (S.left source.new) carry.old.items) }
    ensures fault { IsErrOf result HttpRefused.ReadFault → Rose (S.faults source.old) (S.faults source.new) }
    ensures later { S.faults source.old ≤ S.faults source.new }
    ensures beside { S.beside source.new ≡ S.beside source.old }
{
    let head = read_head(alloc, source, carry)?;
    let size = body_size(head.method.as_str(), head.headers.as_slice())?;
    let body = read_body(alloc, source, carry, head.len, size)?;
    Ok(head.into_message(body))
}

/// Reads until a head is at the front of `carry`, or until it has as many bytes without one as a head may have. The
/// parser runs over what is there, when a head may have ended, and once more where it has not, so that the work is
/// linear in the bytes.
fn read_head<S: Source>(
    alloc: Global,
    source: &mut S,
    carry: &mut Vec<u8>,
) -> Result<Head, HttpRefused>
    ensures gathered { Gathered (S.left source.old) (S.left source.new) carry.old.items carry.new.items }
    ensures head { IfOk result (IsHead carry.new.items) }
    ensures refused { IfErr result (HeadRefused (S.left source.new) carry.new.items) }
    ensures fault { IsErrOf result HttpRefused.ReadFault → Rose (S.faults source.old) (S.faults source.new) }
    ensures later { S.faults source.old ≤ S.faults source.new }
    ensures beside { S.beside source.new ≡ S.beside source.old }
{
    if let Some(head) = Head::read(alloc, carry)? {
        return Ok(head);
    }
    let ended = read_to_head_end(source, carry)?;
    if let Some(head) = Head::read(alloc, carry)? {
        return Ok(head);
    }
    if ended {
        return Err(headless_refusal(carry));
    }
    read_to_limit(source, carry)?;
    Err(headless_refusal(carry))
}

/// How bytes are refused that begin with no head, and that no more follow.
fn headless_refusal(bytes: &[u8]) -> HttpRefused
    requires { HasNoHead bytes.now }
    ensures cause { RefusesHeadless (length bytes.now) result }
    ensures parsed { IsParsed bytes.now result }
{
    if bytes.is_empty() {
        HttpRefused::EndBetween
    } else if bytes.len() >= LONGEST_HEAD {
        HttpRefused::HeadTooLong
    } else if is_beyond_repair(bytes) {
        HttpRefused::Malformed
    } else {
        HttpRefused::EndInside
    }
}

impl From<Memory> for HttpRefused {
    ghost use Rattle.tab_http.specs.declared.refusals.HttpRefused.{HttpRefused};

    ghost from_gives = { λ _ refused. refused ≡ HttpRefused.Memory };

    fn from(_memory: Memory) -> HttpRefused {
        HttpRefused::Memory
    }
}
