//! Copies between slices, and writes into bytes that grow with them.
ghost use Rattle.std.specs.Prelude.{◌≡◌, ◌+◌, ◌-◌, ◌^◌, ◌≤◌, ◌++◌, min, length, replicate, take, drop, OnOk, OnErr};
ghost use Rattle.tab_outside.specs.Disks.{overwritten};

use crate::Memory;

/// Copies as many of the first bytes as fit into the front of the buffer and answers how many.
pub fn copy_front(bytes: &[u8], buf: &mut [u8]) -> usize
    ensures count { result ≡ min (length bytes.now) (length buf.old) }
    ensures front { take result buf.new ≡ take result bytes.now }
    ensures rest { drop result buf.new ≡ drop result buf.old }
{
    let count = bytes.len().min(buf.len());
    buf[..count].copy_from_slice(&bytes[..count]);
    count
}

/// Copies as many of the bytes from an offset on as fit into the front of the buffer and answers how many.
pub fn copy_at(bytes: &[u8], at: usize, buf: &mut [u8]) -> usize
    ensures count { result ≡ min (length (drop at bytes.now)) (length buf.old) }
    ensures front { take result buf.new ≡ take result (drop at bytes.now) }
    ensures rest { drop result buf.new ≡ drop result buf.old }
{
    let rest = bytes.get(at..).unwrap_or_default();
    copy_front(rest, buf)
}

/// Writes the piece at an offset among the bytes, with zeros before it where they end sooner. An empty piece
/// changes nothing.
pub fn overwrite(bytes: &mut Vec<u8>, at: usize, piece: &[u8]) -> Result<(), Memory>
    requires { at + length piece.now ≤ 2 ^ 62 }
    ensures written { OnOk result (bytes.new.items ≡ overwritten bytes.old.items at piece.now) }
    ensures kept { OnErr result (bytes.new.items ≡ bytes.old.items) }
{
    if piece.is_empty() {
        return Ok(());
    }
    grow_to(bytes, at + piece.len())?;
    replace(bytes, at, piece);
    Ok(())
}

/// Puts the piece in the stead of as many bytes from an offset on.
pub fn replace(bytes: &mut [u8], at: usize, piece: &[u8])
    requires { at + length piece.now ≤ length bytes.old }
    ensures { bytes.new ≡ take at bytes.old ++ piece.now ++ drop (at + length piece.now) bytes.old }
{
    bytes[at..at + piece.len()].copy_from_slice(piece);
}

/// Fills the bytes up with zeros to a size, where they are fewer.
pub fn grow_to(bytes: &mut Vec<u8>, size: usize) -> Result<(), Memory>
    ensures grown { OnOk result (bytes.new.items ≡ bytes.old.items ++ replicate (size - length bytes.old.items) 0) }
    ensures kept { OnErr result (bytes.new.items ≡ bytes.old.items) }
{
    if bytes.len() < size {
        bytes.resize(size, 0)?;
    }
    Ok(())
}
