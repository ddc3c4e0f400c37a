//! The escapes of files of cases: a backtick and two upper-case hexadecimal digits are that byte, and
//! `` `*COUNT(TEXT) `` is the text that often, which may have escapes of bytes.

use crate::stops::Stop;
use std::alloc::Global;

/// The most bytes that a text with escapes stands for.
const MOST_BYTES: usize = 16_777_216;

/// That a backtick begins no escape.
const BAD: Stop = Stop::Unread("a backtick begins no escape");

/// The text that a text with escapes stands for.
pub fn text(alloc: Global, spelled: &str) -> Result<String, Stop> {
    match String::from_utf8(bytes(alloc, spelled)?) {
        Ok(text) => Ok(text),
        Err(_) => Err(Stop::Unread("the bytes are no UTF-8")),
    }
}

/// The bytes that a text with escapes stands for.
fn bytes(alloc: Global, spelled: &str) -> Result<Vec<u8>, Stop> {
    let mut bytes = Vec::new(alloc);
    let mut place = Place::Text;
    let mut repeat = NONE_OPEN;
    for byte in spelled.as_bytes() {
        place = take(&mut bytes, &mut repeat, place, *byte)?;
    }
    match place {
        Place::Text if !repeat.is_open => Ok(bytes),
        _ => Err(BAD),
    }
}

/// Where in a text with escapes the next byte stands.
#[derive(Clone, Copy)]
enum Place {
    /// Outside of an escape.
    Text,
    /// Behind a backtick.
    Tick,
    /// Behind a backtick and a digit of this value.
    High(u8),
    /// In the count of a repeated text, which is this so far.
    Count(usize),
}

/// The repeated text that is open.
#[derive(Clone, Copy)]
struct Repeat {
    is_open: bool,
    /// How often it stands there.
    count: usize,
    /// How many bytes stand before it.
    start: usize,
}

/// No text is.
const NONE_OPEN: Repeat = Repeat {
    is_open: false,
    count: 0,
    start: 0,
};

/// Takes a byte of a text with escapes, and gives where the next one stands.
fn take(bytes: &mut Vec<u8>, repeat: &mut Repeat, place: Place, byte: u8) -> Result<Place, Stop> {
    match (place, byte) {
        (Place::Text, b'`') => Ok(Place::Tick),
        (Place::Text, b')') if repeat.is_open => close(bytes, repeat),
        (Place::Text, _) => push(bytes, byte),
        (Place::Tick, b'*') => Ok(Place::Count(0)),
        (Place::Tick, _) => Ok(Place::High(digit(byte)?)),
        (Place::High(high), _) => push(bytes, (high << 4) | digit(byte)?),
        (Place::Count(count), b'(') => {
            *repeat = Repeat {
                is_open: true,
                count,
                start: bytes.len(),
            };
            Ok(Place::Text)
        }
        (Place::Count(count), _) => Ok(Place::Count(with_digit(count, byte)?)),
    }
}

fn push(bytes: &mut Vec<u8>, byte: u8) -> Result<Place, Stop> {
    bytes.push(byte)?;
    Ok(Place::Text)
}

/// The value of an upper-case hexadecimal digit.
fn digit(byte: u8) -> Result<u8, Stop> {
    match byte {
        b'0'..=b'9' => Ok(byte - b'0'),
        b'A'..=b'F' => Ok(byte - b'A' + 10),
        _ => Err(BAD),
    }
}

/// A count with one decimal digit more.
fn with_digit(count: usize, byte: u8) -> Result<usize, Stop> {
    match byte {
        b'0'..=b'9' => Ok(
            count
                .saturating_mul(10)
                .saturating_add((byte - b'0') as usize),
        ),
        _ => Err(BAD),
    }
}

/// Ends a repeated text: it stands there once, and is added until it does so often as it should.
fn close(bytes: &mut Vec<u8>, repeat: &mut Repeat) -> Result<Place, Stop> {
    let Repeat { count, start, .. } = *repeat;
    *repeat = NONE_OPEN;
    let size = bytes.len().saturating_sub(start);
    if size.saturating_mul(count) > MOST_BYTES {
        return Err(Stop::Unread("a text is repeated too often"));
    }
    for index in size..size.saturating_mul(count) {
        let byte = byte_at(bytes, start.saturating_add(index.saturating_sub(size)))?;
        bytes.push(byte)?;
    }
    Ok(Place::Text)
}

fn byte_at(bytes: &[u8], index: usize) -> Result<u8, Stop> {
    match bytes.get(index) {
        Some(byte) => Ok(*byte),
        None => Err(BAD),
    }
}
