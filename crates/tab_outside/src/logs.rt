//! The calls that a disk in memory keeps, and how they settle into the bytes of a sync or of a restart.
ghost use Rattle.std.specs.Prelude.{◌≡◌, ℕ, ◌%◌, ◌≢◌, ◌+◌, ◌≤◌, List, [], ◌∷◌, ◌++◌, length, take, drop, map, replicate};
ghost use Rattle.std.specs.List.{AllByRecursion};
ghost use Rattle.tab_outside.specs.Logs.{IsPadded, FitsIn, logged, writes_of, written, fill_byte, painted, picture};

use crate::bytes::replace;

/// A call that changed a disk in memory.
#[derive(Debug, Drop)]
pub enum Call {
    /// A write, also one that was stopped in.
    Write { at: u64, piece: Vec<u8> },
    /// A sync, or a restart by its pick. A sync is as the restart in which every write stands.
    Settle { pick: u64 },
}

/// The pick of a restart in which every write since the last sync stands.
pub const PICK_ALL: u64 = 1;

/// The pick of a restart after which every range written since the last sync holds the byte a5.
const PICK_A5: u64 = 2;

/// How many kinds of restart there are.
pub const PICKS: u64 = 4;

/// Makes of the bytes of the last sync those that a restart of this kind leaves, where these calls came since.
pub fn settle(pick: u64, calls: &[Call], bytes: &mut [u8])
    requires fits { AllByRecursion (FitsIn (length bytes.old)) (writes_of (map logged calls.now)) }
    ensures { (base : List ℕ) → IsPadded base bytes.old → IsPadded (picture pick base (writes_of (map logged calls.now))) bytes.new }
{
    if pick % PICKS != 0 {
        paint_all(pick, calls, bytes);
    }
}

/// Puts what a restart of this kind, other than the first, leaves in each written range there.
fn paint_all(pick: u64, calls: &[Call], bytes: &mut [u8])
    requires some { pick % 4 ≢ 0 }
    requires fits { AllByRecursion (FitsIn (length bytes.old)) (writes_of (map logged calls.now)) }
    ensures { (base : List ℕ) → IsPadded base bytes.old → IsPadded (written base (map (painted pick) (writes_of (map logged calls.now)))) bytes.new }
{
    for call in calls {
        if let Call::Write { at, piece } = call {
            paint(pick, *at as usize, piece, bytes);
        }
    }
}

/// Puts what a restart of this kind, other than the first, leaves in a range where the piece was written there.
fn paint(pick: u64, at: usize, piece: &[u8], bytes: &mut [u8])
    requires some { pick % 4 ≢ 0 }
    requires fits { FitsIn (length bytes.old) (record { at = at; piece = piece.now }) }
    ensures { (base : List ℕ) → IsPadded base bytes.old → IsPadded (written base (painted pick (record { at = at; piece = piece.now }) ∷ [])) bytes.new }
{
    if piece.is_empty() {
        return;
    }
    if pick % PICKS == PICK_ALL {
        replace(bytes, at, piece);
    } else {
        fill_range(bytes, at, piece.len(), fill_byte(pick));
    }
}

/// The byte that a restart of this kind leaves throughout each written range.
fn fill_byte(pick: u64) -> u8
    ensures { result ≡ fill_byte pick }
{
    if pick % PICKS == PICK_A5 { 0xa5 } else { 0x01 }
}

/// Puts one byte throughout a range.
fn fill_range(bytes: &mut [u8], at: usize, count: usize, byte: u8)
    requires { at + count ≤ length bytes.old }
    ensures { bytes.new ≡ take at bytes.old ++ replicate count byte ++ drop (at + count) bytes.old }
{
    fill(&mut bytes[at..at + count], byte);
}

/// Puts one byte throughout.
fn fill(bytes: &mut [u8], byte: u8)
    ensures { bytes.new ≡ replicate (length bytes.old) byte }
{
    for each in bytes.iter_mut() {
        *each = byte;
    }
}
