//! The bytes of a call as one whole message of HTTP/1.1 (RFC 9112), with nothing behind it.
ghost use Rattle.std.specs.Prelude.{◌≡◌, ◌⊎◌, [], Ok, Err, Some, IfOk, IfErr};
ghost use Rattle.tab_drive.specs.Messages.{alone, inside, AreRead};
ghost use Rattle.tab_outside.specs.Sides.{nothing_beside};

use crate::schedule::RawMessage;
use std::alloc::Global;
use tab_http::{HttpRefused, Message, read_message};
use tab_outside::{Failed, Source};

/// A source at its end.
#[derive(Drop)]
struct AtEnd;

impl Source for AtEnd {
    ghost left = { λ _. Some [] };

    ghost faults = { λ _. 0 };

    ghost beside = { λ _. nothing_beside };

    fn read(&mut self, _buf: &mut [u8]) -> Result<usize, Failed> {
        Ok(0)
    }
}

/// The one message that the bytes are, or why they are none. Bytes behind a message, and no bytes at all, are refused as
/// a message that is not whole.
pub fn whole_message(alloc: Global, bytes: RawMessage) -> Result<Message, HttpRefused>
    ensures read { IfOk result (λ message. AreRead bytes (Ok message)) }
    ensures refused { IfErr result (λ refused. (refused ≡ HttpRefused.Memory) ⊎ AreRead bytes (Err refused)) }
{
    let mut carry = bytes.into_vec();
    match read_message(alloc, &mut AtEnd, &mut carry) {
        Ok(message) => alone(message, &carry),
        Err(refused) => Err(inside(refused)),
    }
}

/// The message, if nothing is behind it.
fn alone(message: Message, behind: &[u8]) -> Result<Message, HttpRefused>
    ensures { result ≡ alone message behind.now }
{
    match behind {
        [] => Ok(message),
        _ => Err(HttpRefused::EndInside),
    }
}

/// How bytes are refused where a message is due.
fn inside(refused: HttpRefused) -> HttpRefused
    ensures { result ≡ inside refused }
{
    match refused {
        HttpRefused::EndBetween => HttpRefused::EndInside,
        other => other,
    }
}
