//! The escapes of texts: a backtick and two hexadecimal digits are that byte; a backtick, a star, a count and a text in
//! parentheses are that text so many times.

use crate::unreadable::Why;
use std::alloc::{AllocError, Global};

/// The most bytes that a repetition may come to.
const LONGEST_REPETITION: usize = 16_777_216;

/// Adds the bytes that a text says.
pub fn push_text(bytes: &mut Vec<u8>, text: &str) -> Result<(), Why> {
    let mut pieces = text.split('`');
    if let Some(plain) = pieces.next() {
        bytes.extend_from_slice(plain.as_bytes())?;
    }
    for piece in pieces {
        push_escaped(bytes, piece)?;
    }
    Ok(())
}

/// Adds what a piece behind a backtick says: its escape, and the plain text behind that.
fn push_escaped(bytes: &mut Vec<u8>, piece: &str) -> Result<(), Why> {
    if let Some(repetition) = piece.strip_prefix('*') {
        return push_repetition(bytes, repetition);
    }
    let [high, low, plain @ ..] = piece.as_bytes() else {
        return Err(Why::BadEscape);
    };
    let high = hex_digit(*high)?;
    let low = hex_digit(*low)?;
    bytes.push(high.wrapping_mul(16) | low)?;
    bytes.extend_from_slice(plain)?;
    Ok(())
}

/// The number that an upper-case hexadecimal digit says.
fn hex_digit(digit: u8) -> Result<u8, Why> {
    match digit {
        b'0'..=b'9' => Ok(digit - b'0'),
        b'A'..=b'F' => Ok(digit - b'A' + 10),
        _ => Err(Why::BadEscape),
    }
}

/// Adds what `COUNT(TEXT)` says, and the plain text behind it.
fn push_repetition(bytes: &mut Vec<u8>, repetition: &str) -> Result<(), Why> {
    let Some((count, rest)) = repetition.split_once('(') else {
        return Err(Why::BadEscape);
    };
    let Some((text, plain)) = rest.split_once(')') else {
        return Err(Why::BadEscape);
    };
    let Ok(count) = count.parse::<usize>() else {
        return Err(Why::BadEscape);
    };
    if count.saturating_mul(text.len()) > LONGEST_REPETITION {
        return Err(Why::BadEscape);
    }
    push_times(bytes, text.as_bytes(), count)?;
    bytes.extend_from_slice(plain.as_bytes())?;
    Ok(())
}

/// Adds the unit so many times. A unit of one byte is common, and goes fast.
fn push_times(bytes: &mut Vec<u8>, unit: &[u8], count: usize) -> Result<(), AllocError> {
    if let [byte] = unit {
        let length = bytes.len().saturating_add(count);
        return bytes.resize(length, *byte);
    }
    for _ in 0..count {
        bytes.extend_from_slice(unit)?;
    }
    Ok(())
}

/// Adds a number in decimal digits.
pub fn push_number(bytes: &mut Vec<u8>, alloc: Global, number: usize) -> Result<(), AllocError> {
    let digits = format!(in alloc; "{number}")?;
    bytes.extend_from_slice(digits.as_bytes())
}

/// How many bytes are shown.
const MOST_SHOWN: usize = 1_000;

/// The front of the bytes as a text of printable ASCII says them.
pub fn shown(alloc: Global, bytes: &[u8]) -> Result<String, AllocError> {
    let mut text = String::new(alloc);
    for byte in bytes.iter().take(MOST_SHOWN) {
        match byte {
            b'`' => text.push_str("`60")?,
            b' '..=b'~' => text.push(char::from(*byte))?,
            _ => write!(&mut text, "`{byte:02X}")?,
        }
    }
    Ok(text)
}
