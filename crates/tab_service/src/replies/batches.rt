//! The reply to a batch (multipart/mixed, RFC 2046, section 5.1).
ghost use Rattle.std.specs.Prelude.{◌≡◌, map, vec_items, IfOk};
ghost use Rattle.tab_service.specs.Replies.{batch_reply};

use super::heads::reply_with_bytes;
use std::alloc::Global;
use tab_batch::write_batch;
use tab_keys::Memory;

/// The type of its body, with the line between its parts.
const BATCH: &str = "multipart/mixed; boundary=batchresponse_1";

/// The reply to a batch, from the replies to its operations.
#[tactic(auto, unfolding(crate::specs::Replies::batch_reply))]
pub fn batch_reply(alloc: Global, replies: &[Vec<u8>]) -> Result<Vec<u8>, Memory>
    ensures { IfOk result (λ bytes. bytes.items ≡ batch_reply (map vec_items replies.now)) }
{
    let Ok(body) = write_batch(alloc, replies) else {
        return Err(Memory);
    };
    reply_with_bytes(alloc, 202, BATCH, &[], &body)
}
