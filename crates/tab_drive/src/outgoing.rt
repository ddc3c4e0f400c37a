//! What an event gives to be written, and its writing.
ghost use Rattle.std.specs.Prelude.{◌≡◌, vec_items, flat_map, OnOk};
ghost use Rattle.tab_outside.specs.Faults.{HasCause};
ghost use Rattle.tab_drive.specs.Outgoing.{Wrote, outgoing_text};
ghost use Rattle.tab_drive.specs.RunStates.{reply_outcome};

use arrayvec::ArrayString;
use itoa::Buffer;
use std::alloc::{AllocError, Global};
use tab_outside::{Failed, Sink, write_all};
use tab_service::ReplyBytes;

/// What an event gives to be written.
#[derive(Debug, Drop)]
pub enum Outgoing {
    /// It was done.
    Done,
    /// The reply to a request.
    Reply(ReplyBytes),
    /// A reply that is the same each time it is given.
    Fixed(&'static [u8]),
}

/// Writes what an event gives: in one piece, put together in the buffer, where memory is found for it.
pub fn write_outgoing<K: Sink>(
    sink: &mut K,
    buffer: &mut Vec<u8>,
    outgoing: &Outgoing,
) -> Result<(), Failed>
    ensures written { Wrote (K.taken sink.old) (K.taken sink.new) result (outgoing_text outgoing.now) }
    ensures cause { HasCause (K.faults sink.old) (K.faults sink.new) result }
    ensures beside { K.beside sink.new ≡ K.beside sink.old }
{
    match outgoing {
        Outgoing::Done => write_pieces(sink, &[b"ok\n".as_slice()]),
        Outgoing::Reply(reply) => write_reply_outcome(sink, buffer, reply.as_slice()),
        Outgoing::Fixed(reply) => write_reply_outcome(sink, buffer, reply),
    }
}

/// Writes the line of the reply's length, its bytes, and a line's end.
fn write_reply_outcome<K: Sink>(
    sink: &mut K,
    buffer: &mut Vec<u8>,
    reply: &[u8],
) -> Result<(), Failed>
    ensures written { Wrote (K.taken sink.old) (K.taken sink.new) result (reply_outcome reply.now) }
    ensures cause { HasCause (K.faults sink.old) (K.faults sink.new) result }
    ensures beside { K.beside sink.new ≡ K.beside sink.old }
{
    let mut digits = Buffer::new();
    let mut line = ArrayString::<48>::new();
    line.push_str("reply ");
    line.push_str(digits.format(reply.len()));
    line.push_str("\n");
    write_joined(
        sink,
        buffer,
        &[line.as_str().as_bytes(), reply, b"\n".as_slice()],
    )
}

/// Writes the pieces as one, put together in the buffer in the stead of what it has; one after another where no memory is
/// found for that.
fn write_joined<K: Sink>(sink: &mut K, buffer: &mut Vec<u8>, pieces: &[&[u8]]) -> Result<(), Failed>
    ensures written { Wrote (K.taken sink.old) (K.taken sink.new) result (flat_map (λ piece. piece.now) pieces.now) }
    ensures cause { HasCause (K.faults sink.old) (K.faults sink.new) result }
    ensures beside { K.beside sink.new ≡ K.beside sink.old }
{
    match join(buffer, pieces) {
        Ok(()) => write_all(sink, buffer),
        Err(_) => write_pieces(sink, pieces),
    }
}

/// Puts the pieces together in the stead of what the buffer has.
fn join(buffer: &mut Vec<u8>, pieces: &[&[u8]]) -> Result<(), AllocError>
    ensures { OnOk result (buffer.new.items ≡ flat_map (λ piece. piece.now) pieces.now) }
{
    buffer.clear();
    for piece in pieces {
        buffer.extend_from_slice(piece)?;
    }
    Ok(())
}

/// Writes the pieces one after another, and takes no memory for it.
pub fn write_pieces<K: Sink>(sink: &mut K, pieces: &[&[u8]]) -> Result<(), Failed>
    ensures written { Wrote (K.taken sink.old) (K.taken sink.new) result (flat_map (λ piece. piece.now) pieces.now) }
    ensures cause { HasCause (K.faults sink.old) (K.faults sink.new) result }
    ensures beside { K.beside sink.new ≡ K.beside sink.old }
{
    for piece in pieces {
        write_all(sink, piece)?;
    }
    Ok(())
}
