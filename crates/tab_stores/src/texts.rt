//! What the calls of a case are given, and how their answers are told.

ghost use Rattle.std.specs.Prelude.{◌≤◌, IfOk};

use crate::stops::{NO_MEMORY, Stop};
use std::alloc::Global;
use tab_journal::StoreRefused;

/// The word that a text begins with, and what stands behind it without blanks around it.
pub fn split_word(text: &str) -> (&str, &str) {
    match text.split_once(' ') {
        Some((word, behind)) => (word, behind.trim_ascii()),
        None => (text, ""),
    }
}

/// The number that a text has in decimal digits.
pub fn number(text: &str) -> Result<u64, Stop> {
    match text.parse::<u64>() {
        Ok(number) => Ok(number),
        Err(_) => Err(Stop::Unread("a number is wanted")),
    }
}

/// The number of an area.
pub fn area(text: &str) -> Result<u8, Stop>
    ensures { IfOk result (λ area. area ≤ 1) }
{
    match text {
        "0" => Ok(0),
        "1" => Ok(1),
        _ => Err(Stop::Unread("area 0 or 1 is wanted")),
    }
}

/// The bytes that a text has in pairs of lower-case hexadecimal digits.
pub fn bytes(alloc: Global, text: &str) -> Result<Vec<u8>, Stop> {
    let mut bytes = Vec::new(alloc);
    let mut high = None;
    for byte in text.as_bytes() {
        let digit = digit(*byte)?;
        high = match high {
            None => Some(digit),
            Some(high) => {
                bytes.push((high << 4) | digit)?;
                None
            }
        };
    }
    match high {
        None => Ok(bytes),
        Some(_) => Err(BAD),
    }
}

const BAD: Stop = Stop::Unread("pairs of hexadecimal digits are wanted");

fn digit(byte: u8) -> Result<u8, Stop> {
    match byte {
        b'0'..=b'9' => Ok(byte - b'0'),
        b'a'..=b'f' => Ok(byte - b'a' + 10),
        _ => Err(BAD),
    }
}

/// Adds a part behind a semicolon, or the first part.
pub fn add(came: &mut String, part: &str) -> Result<(), Stop> {
    if !came.is_empty() {
        came.push_str("; ")?;
    }
    came.push_str(part)?;
    Ok(())
}

/// Adds a word and a number.
pub fn add_number(alloc: Global, came: &mut String, word: &str, number: u64) -> Result<(), Stop> {
    let part = format!(in alloc; "{word} {number}")?;
    add(came, part.as_str())
}

/// Adds bytes in hexadecimal digits.
pub fn add_bytes(alloc: Global, came: &mut String, bytes: &[u8]) -> Result<(), Stop> {
    let mut part = String::new(alloc);
    for byte in bytes {
        write!(part, "{byte:02x}")?;
    }
    add(came, part.as_str())
}

/// Adds a word and a text.
pub fn add_words(alloc: Global, came: &mut String, word: &str, text: &str) -> Result<(), Stop> {
    let part = format!(in alloc; "{word} {text}")?;
    add(came, part.as_str())
}

/// Adds a word and a place in an area.
pub fn add_place(
    alloc: Global,
    came: &mut String,
    word: &str,
    place: (u8, u64),
) -> Result<(), Stop> {
    let (area, at) = place;
    let part = format!(in alloc; "{word} {area} at {at}")?;
    add(came, part.as_str())
}

/// Adds why a store was refused.
pub fn add_refused(alloc: Global, came: &mut String, refused: StoreRefused) -> Result<(), Stop> {
    match refused {
        StoreRefused::DiskFault { area } => add_number(alloc, came, "DiskFault", area as u64),
        StoreRefused::NotAStore { area, at } => add_place(alloc, came, "NotAStore", (area, at)),
        StoreRefused::EpochSpent => add(came, "EpochSpent"),
        StoreRefused::Memory => Err(NO_MEMORY),
    }
}
