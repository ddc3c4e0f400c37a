//! Whole transfers over sources and sinks, which may take fewer bytes at a call than were asked for.
ghost use Rattle.std.specs.Prelude.{◌≡◌, ◌+◌, ◌<◌, ◌≤◌, length, take, vec_len, IfOk, OnOk, OnErr, IsErrOf};
ghost use Rattle.std.specs.Io.KnownBytes.{Keeps, Appends, Consumes, IsAtEnd};
ghost use Rattle.tab_outside.specs.Faults.{HasCause, HasCauseFor};
ghost use Rattle.tab_outside.specs.Transfers.{ReadsByte, TookFront, Moved};

use crate::{Failed, Sink, Source};

// How many bytes `fill` makes room for and reads at a time.
const PIECE: usize = 65_536;

/// Why fewer bytes were read than asked for.
#[derive(Clone, Copy, Debug, PartialEq, Eq)]
pub enum FillRefused {
    /// The input ended.
    Ended,
    /// A read failed.
    Failed,
    /// No memory was found for what was to come.
    Memory,
}

/// Reads one byte, or None at the end of input.
pub fn read_byte<S: Source>(source: &mut S) -> Result<Option<u8>, Failed>
    ensures read { IfOk result (ReadsByte (S.left source.old) (S.left source.new)) }
    ensures kept { OnErr result (Keeps (S.left source.old) (S.left source.new)) }
    ensures cause { HasCause (S.faults source.old) (S.faults source.new) result }
    ensures beside { S.beside source.new ≡ S.beside source.old }
{
    let mut buf = [0];
    let count = source.read(&mut buf)?;
    Ok(if count == 0 { None } else { Some(buf[0]) })
}

/// Reads `count` bytes behind what `into` has. After a refusal `into` has the bytes that came before it.
pub fn fill<S: Source>(source: &mut S, count: usize, into: &mut Vec<u8>) -> Result<(), FillRefused>
    ensures moved { Moved (S.left source.old) (S.left source.new) into.old.items into.new.items }
    ensures whole { OnOk result (vec_len into.new ≡ vec_len into.old + count) }
    ensures short { OnErr result (vec_len into.new < vec_len into.old + count) }
    ensures ended { IsErrOf result FillRefused.Ended → IsAtEnd (S.left source.new) }
    ensures cause { HasCauseFor (S.faults source.old) (S.faults source.new) result FillRefused.Failed }
    ensures beside { S.beside source.new ≡ S.beside source.old }
{
    let mut missing = count;
    while missing > 0 {
        let size = missing.min(PIECE);
        fill_piece(source, size, into)?;
        missing -= size;
    }
    Ok(())
}

/// Reads `count` bytes behind what `into` has, in room that is made at once.
fn fill_piece<S: Source>(
    source: &mut S,
    count: usize,
    into: &mut Vec<u8>,
) -> Result<(), FillRefused>
    requires { 0 < count }
    ensures moved { Moved (S.left source.old) (S.left source.new) into.old.items into.new.items }
    ensures whole { OnOk result (vec_len into.new ≡ vec_len into.old + count) }
    ensures short { OnErr result (vec_len into.new < vec_len into.old + count) }
    ensures ended { IsErrOf result FillRefused.Ended → IsAtEnd (S.left source.new) }
    ensures cause { HasCauseFor (S.faults source.old) (S.faults source.new) result FillRefused.Failed }
    ensures beside { S.beside source.new ≡ S.beside source.old }
{
    let start = into.len();
    let Some(end) = start.checked_add(count) else {
        return Err(FillRefused::Memory);
    };
    let Ok(()) = into.resize(end, 0) else {
        return Err(FillRefused::Memory);
    };
    let (done, outcome) = read_full(source, &mut into[start..]);
    into.truncate(start + done);
    outcome
}

/// Reads until the buffer is full. Answers how many bytes came, and why not all.
fn read_full<S: Source>(source: &mut S, buf: &mut [u8]) -> (usize, Result<(), FillRefused>)
    ensures bound { result.0 ≤ length buf.old }
    ensures bytes { Consumes (S.left source.old) (S.left source.new) (take result.0 buf.new) }
    ensures whole { OnOk result.1 (result.0 ≡ length buf.old) }
    ensures short { OnErr result.1 (result.0 < length buf.old) }
    ensures ended { IsErrOf result.1 FillRefused.Ended → IsAtEnd (S.left source.new) }
    ensures cause { HasCauseFor (S.faults source.old) (S.faults source.new) result.1 FillRefused.Failed }
    ensures beside { S.beside source.new ≡ S.beside source.old }
{
    let mut done = 0;
    while done < buf.len() {
        let Ok(count) = source.read(&mut buf[done..]) else {
            return (done, Err(FillRefused::Failed));
        };
        if count == 0 {
            return (done, Err(FillRefused::Ended));
        }
        done += count;
    }
    (done, Ok(()))
}

/// Writes the whole piece.
pub fn write_all<K: Sink>(sink: &mut K, piece: &[u8]) -> Result<(), Failed>
    ensures written { OnOk result (Appends (K.taken sink.old) (K.taken sink.new) piece.now) }
    ensures part { OnErr result (TookFront (K.taken sink.old) (K.taken sink.new) piece.now) }
    ensures cause { HasCause (K.faults sink.old) (K.faults sink.new) result }
    ensures beside { K.beside sink.new ≡ K.beside sink.old }
{
    let mut done = 0;
    while done < piece.len() {
        let count = sink.write(&piece[done..])?;
        if count == 0 {
            return Err(Failed);
        }
        done += count;
    }
    Ok(())
}
