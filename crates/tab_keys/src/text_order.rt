//! The order of texts by their UTF-16 code units (RFC 2781, section 2.1), computed on their UTF-8 bytes (RFC 3629,
//! section 3).

ghost use Rattle.std.specs.Prelude.{◌≡◌};
ghost use Rattle.tab_keys.specs.Order.{text_cmp, byte_rank};

use std::cmp::Ordering;

/// Compares two texts by their UTF-16 code units, as keys are ordered. It reads each byte once, and decodes none.
pub fn utf16_cmp(a: &str, b: &str) -> Ordering
    ensures { result ≡ text_cmp a.now b.now }
{
    let a = a.as_bytes();
    let b = b.as_bytes();
    for (x, y) in a.iter().zip(b) {
        if x != y {
            return byte_rank(*x).cmp(&byte_rank(*y));
        }
    }
    a.len().cmp(&b.len())
}

// In units the characters from U+E000 to U+FFFF, which begin with 0xee or 0xef, come behind all others.
fn byte_rank(b: u8) -> u8
    ensures { result ≡ byte_rank b }
{
    match b {
        0..=0xed => b,
        0xee | 0xef => b + 16,
        0xf0..=0xff => b - 2,
    }
}
