//! The text of a batch's reply (RFC 2046, section 5.1.1).
ghost use Rattle.std.specs.Prelude.{◌≡◌, map, vec_items, IfOk};
ghost use Rattle.tab_batch.specs.Replies.{opening, part_head, ending, batch_text};

use crate::refusals::Memory;
use std::alloc::Global;

/// The text of the reply to a batch, from the texts of the replies to its items.
pub fn write_batch(alloc: Global, parts: &[Vec<u8>]) -> Result<Vec<u8>, Memory>
    ensures { IfOk result (λ text. text.items ≡ batch_text (map vec_items parts.now)) }
{
    let mut text = Vec::new(alloc);
    text.extend_from_slice(opening())?;
    for part in parts {
        text.extend_from_slice(part_head())?;
        text.extend_from_slice(part)?;
        text.extend_from_slice(b"\r\n")?;
    }
    text.extend_from_slice(ending())?;
    Ok(text)
}

/// What stands before the replies.
#[tactic(auto, unfolding(crate::specs::Replies::opening))]
fn opening() -> &'static [u8]
    ensures { result.now ≡ opening }
{
    b"--batchresponse_1\r\n\
      Content-Type: multipart/mixed; boundary=changesetresponse_1\r\n\
      \r\n"
}

/// What stands before each reply.
#[tactic(auto, unfolding(crate::specs::Replies::part_head))]
fn part_head() -> &'static [u8]
    ensures { result.now ≡ part_head }
{
    b"--changesetresponse_1\r\n\
      Content-Type: application/http\r\n\
      Content-Transfer-Encoding: binary\r\n\
      \r\n"
}

/// What stands behind the replies.
#[tactic(auto, unfolding(crate::specs::Replies::ending))]
fn ending() -> &'static [u8]
    ensures { result.now ≡ ending }
{
    b"--changesetresponse_1--\r\n--batchresponse_1--\r\n"
}
