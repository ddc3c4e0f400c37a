//! The requests of a batch, or the first refusal.
ghost use Rattle.std.specs.Prelude.{◌≡◌, length, map, All, IfOk, IfErr};
ghost use Rattle.tab_batch.specs.Parts.{between};
ghost use Rattle.tab_batch.specs.Reading.{IsBelow};
ghost use Rattle.tab_batch.specs.Refusals.{IsBatch, Refuses, PartsRefused};
ghost use Rattle.tab_batch.specs.Requests.{AreRequests};

use crate::bodies::ranges_of;
use crate::byte_ranges::ByteRange;
use crate::refusals::{BatchRefused, Memory};
use crate::requests::read_request;
use std::alloc::Global;
use tab_http::Message;

/// The requests of a batch whose Content-Type gives that boundary. Their bodies are whole, whatever length their heads
/// give. The lines are all read before the first request is.
pub fn read_batch(
    alloc: Global,
    boundary: &[u8],
    bytes: &[u8],
) -> Result<Vec<Message>, BatchRefused>
    ensures read { IfOk result (λ messages. IsBatch boundary.now bytes.now messages.items) }
    ensures refused { IfErr result (Refuses boundary.now bytes.now) }
{
    let ranges = ranges_of(alloc, boundary, bytes)?;
    read_requests(alloc, bytes, &ranges)
}

fn read_requests(
    alloc: Global,
    bytes: &[u8],
    ranges: &[ByteRange],
) -> Result<Vec<Message>, BatchRefused>
    requires { All (IsBelow (length bytes.now)) ranges.now }
    ensures read { IfOk result (λ messages. AreRequests (map (between bytes.now) ranges.now) messages.items) }
    ensures refused { IfErr result (PartsRefused (map (between bytes.now) ranges.now)) }
{
    let mut messages = Vec::new(alloc);
    let mut index = 0;
    for range in ranges {
        let Some(message) = read_request(alloc, &bytes[range.start..range.end])? else {
            return Err(BatchRefused::BadPart { index });
        };
        let Ok(()) = messages.push(message) else {
            return Err(BatchRefused::Memory);
        };
        index += 1;
    }
    Ok(messages)
}
