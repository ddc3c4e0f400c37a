//! Bodies of a length that their head gives (RFC 9112, section 6.2).
ghost use Rattle.std.specs.Prelude.{◌≡◌, ◌≤◌, drop, vec_len, IfOk, IfErr, IsErrOf};
ghost use Rattle.tab_http.specs.Reading.{TookBody, BodyRefused, refusal_for};
ghost use Rattle.tab_outside.specs.Faults.{Rose};

use crate::HttpRefused;
use crate::texts::Bytes;
use std::alloc::Global;
use tab_outside::{FillRefused, Source, fill};

/// Reads a body of that size, of which `carry` has the first bytes from `start` on. What came behind the body is left
/// in `carry`. Room is made as the bytes come.
pub fn read_body<S: Source>(
    alloc: Global,
    source: &mut S,
    carry: &mut Vec<u8>,
    start: usize,
    size: usize,
) -> Result<Bytes, HttpRefused>
    requires { start ≤ vec_len carry.old }
    ensures body { IfOk result (TookBody (S.left source.old) (S.left source.new) (drop start carry.old.items) carry.new.items size) }
    ensures refused { IfErr result (BodyRefused (S.left source.old) (S.left source.new) (drop start carry.old.items) size) }
    ensures fault { IsErrOf result HttpRefused.ReadFault → Rose (S.faults source.old) (S.faults source.new) }
    ensures later { S.faults source.old ≤ S.faults source.new }
    ensures beside { S.beside source.new ≡ S.beside source.old }
{
    let end = start + size.min(carry.len() - start);
    let Ok(mut body) = Vec::from_slice(alloc, &carry[start..end]) else {
        return Err(HttpRefused::Memory);
    };
    let missing = size - body.len();
    fill(source, missing, &mut body)?;
    cut_front(carry, end);
    Ok(Bytes::new(body))
}

/// Takes as many of the first bytes away.
fn cut_front(bytes: &mut Vec<u8>, count: usize)
    requires { count ≤ vec_len bytes.old }
    ensures { bytes.new.items ≡ drop count bytes.old.items }
{
    let kept = bytes.len() - count;
    bytes.copy_within(count.., 0);
    bytes.truncate(kept);
}

impl From<FillRefused> for HttpRefused {
    ghost from_gives = { λ refused answer. answer ≡ refusal_for refused };

    fn from(refused: FillRefused) -> HttpRefused {
        match refused {
            FillRefused::Ended => HttpRefused::EndInside,
            FillRefused::Failed => HttpRefused::ReadFault,
            FillRefused::Memory => HttpRefused::Memory,
        }
    }
}
