//! The header of an area.

ghost use Rattle.std.specs.Prelude.{◌≡◌, ◌==◌, if◌then◌else◌};
ghost use Rattle.tab_journal.specs.Areas.{header, stamp};

use crate::SERVER_KIND;

/// How long a header is, without the gate before it.
pub const HEADER: usize = 19;

/// How long its part before the epoch is.
pub const STAMP: usize = 11;

/// Where the gate of the first frame stands.
pub const FIRST_GATE: usize = 20;

/// The version of areas.
pub const VERSION: u8 = 1;

/// The header of an area of this kind, server's number and epoch.
#[tactic(auto, unfolding(crate::specs::Areas::header))]
pub fn header_bytes(kind: u8, number: u8, epoch: u64) -> [u8; 19]
    ensures { result ≡ header kind number epoch }
{
    let number = number_byte(kind, number);
    let [a, b, c, d, e, f, g, h] = epoch.to_be_bytes();
    [
        b'T', b'A', b'B', b'S', b'T', b'O', b'R', b'E', VERSION, kind, number, a, b, c, d, e, f, g,
        h,
    ]
}

/// What a header begins with.
pub fn stamp_bytes(kind: u8, number: u8) -> [u8; 11]
    ensures { result ≡ stamp kind number }
{
    let number = number_byte(kind, number);
    [
        b'T', b'A', b'B', b'S', b'T', b'O', b'R', b'E', VERSION, kind, number,
    ]
}

/// The byte of a server's number, which the other stores have too.
fn number_byte(kind: u8, number: u8) -> u8
    ensures { result ≡ (if kind == 2 then number else 0) }
{
    if kind == SERVER_KIND { number } else { 0 }
}
