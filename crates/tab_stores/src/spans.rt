//! Ranges as cases list them, and the frames that begin them.

use crate::stops::Stop;
use crate::texts::number;
use std::alloc::Global;
use tab_keys::{Bound, KeyText, Span};

/// That a text is no span.
const NO_SPAN: Stop = Stop::Unread("a span is wanted");

/// The key text of a word: `-` is the empty one.
pub fn key_text(alloc: Global, word: &str) -> Result<KeyText, Stop> {
    let text = if word == "-" { "" } else { word };
    match KeyText::new(alloc, text) {
        Ok(text) => Ok(text),
        Err(_) => Err(Stop::Unread("a key is wanted")),
    }
}

/// Ranges `RANGE=LO..HI`. A bound is `TABLE:PK`, and `-` that before all keys or past them.
pub fn listed(alloc: Global, text: &str) -> Result<Vec<(u64, Span)>, Stop> {
    let mut ranges = Vec::new(alloc);
    for word in text.split_whitespace() {
        ranges.push(one(alloc, word)?)?;
    }
    Ok(ranges)
}

fn one(alloc: Global, word: &str) -> Result<(u64, Span), Stop> {
    let Some((range, bounds)) = word.split_once('=') else {
        return Err(NO_SPAN);
    };
    let range = number(range)?;
    let span = span(alloc, bounds)?;
    Ok((range, span))
}

fn span(alloc: Global, text: &str) -> Result<Span, Stop> {
    let Some((lo, hi)) = text.split_once("..") else {
        return Err(NO_SPAN);
    };
    let lo = low(alloc, lo)?;
    let hi = high(alloc, hi)?;
    match Span::new(lo, hi) {
        Some(span) => Ok(span),
        None => Err(NO_SPAN),
    }
}

fn low(alloc: Global, text: &str) -> Result<Bound, Stop> {
    match text {
        "-" => Ok(Bound::At(0, key_text(alloc, "-")?)),
        _ => bound(alloc, text),
    }
}

fn high(alloc: Global, text: &str) -> Result<Bound, Stop> {
    match text {
        "-" => Ok(Bound::End),
        _ => bound(alloc, text),
    }
}

fn bound(alloc: Global, text: &str) -> Result<Bound, Stop> {
    let Some((table, pk)) = text.split_once(':') else {
        return Err(NO_SPAN);
    };
    let table = number(table)?;
    let pk = key_text(alloc, pk)?;
    Ok(Bound::At(table, pk))
}

/// The bytes, in hexadecimal digits, of an area under epoch 1 in which the ranges are begun and are whole, without rows and with the
/// next tick 0.
pub fn area_text(alloc: Global, server: u8, ranges: &[(u64, Span)]) -> Result<String, Stop> {
    let mut text = format!(in alloc; "0154414253544f52450102{server:02x}0000000000000001")?;
    for (range, span) in ranges {
        add_begun(alloc, &mut text, *range, span)?;
    }
    text.push_str("00")?;
    Ok(text)
}

fn add_begun(alloc: Global, text: &mut String, range: u64, span: &Span) -> Result<(), Stop> {
    let mut bounds = String::new(alloc);
    add_bound(&mut bounds, span.lo())?;
    add_bound(&mut bounds, span.hi())?;
    let size = (bounds.len() / 2).saturating_add(16);
    write!(
        text,
        "0101{size:08x}{range:016x}{}0000000000000000",
        bounds.as_str()
    )?;
    write!(text, "010300000010{range:016x}0000000000000000")?;
    Ok(())
}

fn add_bound(text: &mut String, bound: &Bound) -> Result<(), Stop> {
    match bound {
        Bound::At(table, pk) => add_place_before(text, *table, pk.as_str()),
        Bound::End => {
            text.push_str("01")?;
            Ok(())
        }
    }
}

fn add_place_before(text: &mut String, table: u64, pk: &str) -> Result<(), Stop> {
    write!(text, "00{table:016x}{:08x}", pk.len())?;
    for byte in pk.as_bytes() {
        write!(text, "{byte:02x}")?;
    }
    Ok(())
}
