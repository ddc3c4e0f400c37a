//! The answers to cases, and the forms that most of them have.

use crate::stops::Stop;
use std::alloc::Global;
use std::fmt::Debug;

/// The answer to a line, or why there is none.
pub type Answer = Result<String, Stop>;

/// The answer of these texts, one after another.
pub fn told(alloc: Global, parts: &[&str]) -> Answer {
    let mut answer = String::new(alloc);
    for part in parts {
        answer.push_str(part)?;
    }
    Ok(answer)
}

/// The text, or another where it is empty.
pub fn some_or(mut text: String, empty: &str) -> Answer {
    if text.is_empty() {
        text.push_str(empty)?;
    }
    Ok(text)
}

/// The answer of a number between two texts.
pub fn counted(alloc: Global, before: &str, number: u64, behind: &str) -> Answer {
    Ok(format!(in alloc; "{before}{number}{behind}")?)
}

/// The answer that something is refused.
pub fn refused<E: Debug>(alloc: Global, why: &E) -> Answer {
    Ok(format!(in alloc; "refused {why:?}")?)
}

pub fn yes_or_no(alloc: Global, holds: bool) -> Answer {
    told(alloc, &[if holds { "yes" } else { "no" }])
}

/// That no line of the subject has this word and so many fields.
pub fn unknown() -> Answer {
    Err(Stop::Unread("no line here has this word and so many fields"))
}

/// The number that a text has in decimal digits.
pub fn number(text: &str) -> Result<u64, Stop> {
    match text.parse::<u64>() {
        Ok(number) => Ok(number),
        Err(_) => Err(Stop::Unread("a number is wanted")),
    }
}

/// The field at this index, counted from 0.
pub fn field(fields: &[String], index: usize) -> Result<&str, Stop> {
    match fields.get(index) {
        Some(field) => Ok(field.as_str()),
        None => Err(Stop::Unread("another field is wanted")),
    }
}

/// The number that a field has.
pub fn number_at(fields: &[String], index: usize) -> Result<u64, Stop> {
    number(field(fields, index)?)
}
