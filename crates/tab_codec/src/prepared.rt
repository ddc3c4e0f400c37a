//! Frames made ready for a store.

ghost use Rattle.std.specs.Prelude.{◌≡◌, ◌++◌, ◌∷◌, [], IfOk, OnOk};
ghost use Rattle.tab_codec.specs.declared.frames.Frame.{Frame};
ghost use Rattle.tab_codec.specs.Spelling.{kind, body, spelling};
ghost use Rattle.tab_codec.specs.Frames.{HasParts, IsOrderly, IsShort, HasSpelling};

use crate::Frame;
use crate::sizes::body_size;
use crate::writing::{put_body, put_u32};
use std::alloc::{AllocError, Global};
use std::marker::Model;
use std::snapshot::Snapshot;
use tab_keys::Memory;

/// A frame in the bytes that a store appends. Contracts see it as the frame.
#[derive(Drop)]
pub struct Prepared {
    bytes: Vec<u8>,
    frame: Snapshot<Frame>,
}

impl Model for Prepared {
    ghost use Rattle.tab_codec.specs.declared.frames.Frame.{Frame};
    ghost use Rattle.std.specs.Prelude.{vec_items};
    ghost use Rattle.tab_codec.specs.Frames.{IsSpelled};

    ghost Value = { Frame };

    ghost view = { λ prepared. prepared.frame.value };

    ghost invariant = { λ prepared. IsSpelled prepared.frame.value prepared.bytes.items };
}

impl Prepared {
    /// The spelling of the frame, and one byte 00 behind it, the next gate; this takes no memory.
    pub fn bytes(&self) -> &[u8]
        ensures bytes { result.now ≡ spelling self.now ++ 0 ∷ [] }
        ensures spelled { HasSpelling self.now }
    {
        self.bytes.as_slice()
    }
}

/// Makes a frame ready for a store. It is written in one pass into a buffer of its size.
pub fn prepare(alloc: Global, frame: &Frame) -> Result<Prepared, Memory>
    requires orderly { IsOrderly frame.now }
    requires short { IsShort (body frame.now) }
    ensures { IfOk result (λ prepared. prepared ≡ frame.now) }
{
    match spelled(alloc, frame) {
        Ok(bytes) => Ok(Prepared {
            bytes,
            frame: Snapshot::of(frame),
        }),
        Err(_) => Err(Memory),
    }
}

/// The spelling of a frame, and one byte 00 behind it.
#[tactic(auto, unfolding(crate::specs::Spelling::spelling, crate::specs::Spelling::sized))]
fn spelled(alloc: Global, frame: &Frame) -> Result<Vec<u8>, AllocError>
    requires orderly { IsOrderly frame.now }
    requires short { IsShort (body frame.now) }
    ensures bytes { IfOk result (λ bytes. bytes.items ≡ spelling frame.now ++ 0 ∷ []) }
    ensures parts { OnOk result (HasParts frame.now) }
{
    let size = body_size(frame);
    let mut bytes = Vec::with_capacity(alloc, size + 6)?;
    bytes.push(kind(frame))?;
    put_u32(&mut bytes, size as u32)?;
    put_body(&mut bytes, frame)?;
    bytes.push(0)?;
    Ok(bytes)
}

/// The byte of a frame's kind.
fn kind(frame: &Frame) -> u8
    ensures { result ≡ kind frame.now }
{
    match frame {
        Frame::Begin { .. } => 1,
        Frame::Rows { .. } => 2,
        Frame::Whole { .. } => 3,
        Frame::Change { .. } => 4,
        Frame::Map { .. } => 5,
        Frame::Commit { .. } => 6,
        Frame::Names { .. } => 7,
        Frame::Create { .. } => 8,
        Frame::Drop { .. } => 9,
    }
}
