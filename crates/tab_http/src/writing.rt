//! Replies written whole.
ghost use Rattle.std.specs.Prelude.{◌≡◌, OnOk, OnErr};
ghost use Rattle.std.specs.Io.KnownBytes.{Appends};
ghost use Rattle.tab_outside.specs.Faults.{HasCause};
ghost use Rattle.tab_outside.specs.Transfers.{TookFront};

use tab_outside::{Sink, write_all};

/// A reply that was not written whole, since a write failed.
#[derive(Clone, Copy, Debug, PartialEq, Eq)]
pub struct WriteFault;

/// Writes a reply.
pub fn write_reply<K: Sink>(sink: &mut K, bytes: &[u8]) -> Result<(), WriteFault>
    ensures written { OnOk result (Appends (K.taken sink.old) (K.taken sink.new) bytes.now) }
    ensures part { OnErr result (TookFront (K.taken sink.old) (K.taken sink.new) bytes.now) }
    ensures cause { HasCause (K.faults sink.old) (K.faults sink.new) result }
    ensures beside { K.beside sink.new ≡ K.beside sink.old }
{
    match write_all(sink, bytes) {
        Ok(()) => Ok(()),
        Err(_) => Err(WriteFault),
    }
}
