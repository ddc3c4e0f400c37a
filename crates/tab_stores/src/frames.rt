//! The frames of the cases: copies of ranges that begin, each over all keys, so that a range's number tells its frame.

ghost use Rattle.std.specs.Prelude.{◌≡◌, [], ◌∷◌, IfOk};
ghost use Rattle.tab_stores.specs.Counting.{all_keys, counted, count_after, count_of};

use std::alloc::Global;
use tab_codec::{Frame, Prepared, prepare};
use tab_keys::{Bound, KeyText, Memory, Span};

/// The span of all keys.
fn all_keys(alloc: Global) -> Result<Span, Memory>
    ensures { IfOk result (λ span. span ≡ all_keys) }
{
    let Ok(pk) = KeyText::new(alloc, "") else {
        return Err(Memory);
    };
    match Span::new(Bound::At(0, pk), Bound::End) {
        Some(span) => Ok(span),
        None => Err(Memory),
    }
}

/// The range of this number begins.
pub fn begin(alloc: Global, range: u64) -> Result<Frame, Memory>
    ensures { IfOk result (λ frame. frame ≡ counted range) }
{
    Ok(Frame::Begin {
        range,
        span: all_keys(alloc)?,
        next_tick: 0,
    })
}

/// The same, prepared.
pub fn prepared(alloc: Global, range: u64) -> Result<Prepared, Memory>
    ensures { IfOk result (λ prepared. prepared ≡ counted range) }
{
    let frame = begin(alloc, range)?;
    prepare(alloc, &frame)
}

/// The frames of a store that is made: range 1 begins.
pub fn base(alloc: Global) -> Result<Vec<Frame>, Memory>
    ensures { IfOk result (λ base. base.items ≡ counted 1 ∷ []) }
{
    let frame = begin(alloc, 1)?;
    Ok(vec![in alloc; frame]?)
}

/// What a frame counts up to.
fn count_after(count: u64, frame: &Frame) -> u64
    ensures { result ≡ count_after count frame.now }
{
    match frame {
        Frame::Begin { range, .. } => *range,
        _ => count,
    }
}

/// What frames count up to.
pub fn count_of(frames: &[Frame]) -> u64
    ensures { result ≡ count_of 0 frames.now }
{
    let mut count = 0;
    for frame in frames {
        count = count_after(count, frame);
    }
    count
}
