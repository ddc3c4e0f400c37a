//! Reads the frame at the front of bytes.

ghost use Rattle.std.specs.Prelude.{◌≡◌, ◌≤◌, ◌<◌, ◌-◌, ◌+◌, ◌^◌, ◌∷◌, length};
ghost use Rattle.tab_codec.specs.Reading.{body_at, whole_body, frame_at};
ghost use Rattle.tab_codec.specs.declared.reading.CodecRefused.TheVariants.{NoSpelling};
ghost use Rattle.tab_codec.specs.Answers.{Answers, Tells};

use crate::Frame;
use crate::bodies::read_body;
use crate::stops::Stop;
use std::alloc::Global;

/// The most bytes of a frame's body.
pub const MOST_BODY: usize = 268_435_456;

/// The bytes before the body: the kind, and the body's length.
const HEAD: usize = 5;

/// Why no frame is read.
#[derive(Clone, Copy, Debug, PartialEq, Eq)]
pub enum CodecRefused {
    /// No front of the bytes spells a frame. The first field that breaks a rule is at this offset, counted from the
    /// kind.
    NoSpelling { at: usize },
    /// No memory was found.
    Memory,
}

/// The frame whose spelling the bytes begin with, and how long that is.
pub fn read_frame(alloc: Global, bytes: &[u8]) -> Result<(Frame, usize), CodecRefused>
    ensures exact { Answers result (frame_at bytes.now) }
    ensures spelled { Tells result bytes.now }
{
    read_front(alloc, bytes)
}

#[tactic(auto, unfolding(crate::specs::Reading::frame_at))]
fn read_front(alloc: Global, bytes: &[u8]) -> Result<(Frame, usize), CodecRefused>
    ensures { Answers result (frame_at bytes.now) }
{
    match bytes {
        [kind, rest @ ..] => read_behind_kind(alloc, *kind, rest),
        [] => Err(CodecRefused::NoSpelling { at: 0 }),
    }
}

/// The frame of this kind, of which the bytes behind the kind are there.
#[tactic(auto, unfolding(crate::specs::Reading::frame_at))]
fn read_behind_kind(alloc: Global, kind: u8, bytes: &[u8]) -> Result<(Frame, usize), CodecRefused>
    ensures { Answers result (frame_at (kind ∷ bytes.now)) }
{
    if kind < 1 || 9 < kind {
        return Err(CodecRefused::NoSpelling { at: 0 });
    }
    if bytes.len() < 4 {
        return Err(CodecRefused::NoSpelling { at: 1 });
    }
    let (front, rest) = bytes.split_at(4);
    let size = u32::from_be_bytes([front[0], front[1], front[2], front[3]]) as usize;
    if size > MOST_BODY {
        return Err(CodecRefused::NoSpelling { at: 1 });
    }
    read_whole_body(alloc, kind, size, &rest[..size.min(rest.len())])
}

/// The frame whose body has this size, of which these bytes are there.
fn read_whole_body(
    alloc: Global,
    kind: u8,
    size: usize,
    bytes: &[u8],
) -> Result<(Frame, usize), CodecRefused>
    requires low { 1 ≤ kind }
    requires high { kind ≤ 9 }
    requires size { size ≤ 268_435_456 }
    requires bytes { length bytes.now ≤ size }
    ensures { Answers result (whole_body size bytes.now (body_at kind bytes.now)) }
{
    let (frame, rest) = match read_body(alloc, kind, bytes) {
        Ok(read) => read,
        Err(Stop::Broken(left)) => return Err(no_spelling(bytes, left)),
        Err(Stop::Memory) => return Err(CodecRefused::Memory),
    };
    let whole = rest.is_empty() && bytes.len() == size;
    whole
        .then_some((frame, HEAD + size))
        .ok_or(no_spelling(bytes, rest.len()))
}

/// The refusal of the field of a body from which so many bytes are left.
fn no_spelling(bytes: &[u8], left: usize) -> CodecRefused
    requires { length bytes.now < 2 ^ 63 }
    ensures { result ≡ NoSpelling (5 + (length bytes.now - left)) }
{
    CodecRefused::NoSpelling {
        at: HEAD + bytes.len().saturating_sub(left),
    }
}
