//! Values and properties as cases spell them.

use crate::answers::{Answer, told};
use crate::stops::Stop;
use std::alloc::Global;
use std::fmt::Display;
use tab_edm::{Property, Value};

/// The longest text of a value that is spelled whole; of a longer one its size is told.
const LONGEST_SPELLED: usize = 300;

/// A value with its kind.
pub fn value_text(alloc: Global, value: &Value) -> Answer {
    match value {
        Value::Text(text) => whole_or_size(alloc, "Text", text.as_str()),
        Value::Flag(flag) => shown(alloc, "Flag", flag),
        Value::Int32(number) => shown(alloc, "Int32", number),
        Value::Int64(number) => shown(alloc, "Int64", number),
        Value::Moment(tick) => shown(alloc, "Moment", tick),
        Value::Guid(bytes) => hex_text(alloc, "Guid", bytes),
        Value::Bytes(bytes) => hex_text(alloc, "Bytes", bytes.as_slice()),
    }
}

fn shown<T: Display>(alloc: Global, word: &str, value: &T) -> Answer {
    Ok(format!(in alloc; "{word} {value}")?)
}

/// A word and a text, or the size of the text where it is long.
pub fn whole_or_size(alloc: Global, word: &str, text: &str) -> Answer {
    if text.len() > LONGEST_SPELLED {
        return sized(alloc, word, text.len());
    }
    joined(alloc, word, text)
}

fn sized(alloc: Global, word: &str, size: usize) -> Answer {
    Ok(format!(in alloc; "{word} of {size} bytes")?)
}

/// A word and a text behind a blank, or the word where the text is empty.
pub fn joined(alloc: Global, word: &str, text: &str) -> Answer {
    let blank = if text.is_empty() { "" } else { " " };
    told(alloc, &[word, blank, text])
}

/// A word and bytes in hexadecimal digits.
pub fn hex_text(alloc: Global, word: &str, bytes: &[u8]) -> Answer {
    let mut text = String::new(alloc);
    for byte in bytes {
        write!(text, "{byte:02x}")?;
    }
    joined(alloc, word, text.as_str())
}

/// Properties with their names and values, between semicolons.
pub fn properties_text(alloc: Global, properties: &[Property]) -> Answer {
    let mut text = String::new(alloc);
    for property in properties {
        add_property(alloc, &mut text, property)?;
    }
    Ok(text)
}

fn add_property(alloc: Global, text: &mut String, property: &Property) -> Result<(), Stop> {
    let value = value_text(alloc, &property.value)?;
    add_named(alloc, text, property.name.as_str(), value.as_str())
}

fn add_named(alloc: Global, text: &mut String, name: &str, value: &str) -> Result<(), Stop> {
    let part = joined(alloc, name, value)?;
    add_part(text, part.as_str())
}

/// Adds a part behind a semicolon, or the first part.
pub fn add_part(text: &mut String, part: &str) -> Result<(), Stop> {
    if !text.is_empty() {
        text.push_str("; ")?;
    }
    text.push_str(part)?;
    Ok(())
}
