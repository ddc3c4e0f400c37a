//! Cases of key texts, of the order of keys, and of spans.

use crate::answers::{Answer, counted, field, number_at, refused, told, unknown, yes_or_no};
use crate::stops::Stop;
use std::alloc::Global;
use std::cmp::Ordering;
use tab_keys::{Bound, Key, KeyText, Span};

/// `key TEXT`: how many units the key text has, or why it is none. `order KEY | KEY`: how two keys stand. `span BOUND | BOUND`:
/// whether the first stands before the second. `has BOUND | BOUND | KEY`: whether the span has the key. A key is `TABLE | PK |
/// RK`, and a bound `TABLE | PK`.
pub fn answer(alloc: Global, word: &str, fields: &[String]) -> Answer {
    match (word, fields.len()) {
        ("key", 1) => units(alloc, field(fields, 0)?),
        ("order", 6) => order(alloc, fields),
        ("span", 4) => is_span(alloc, fields),
        ("has", 7) => has(alloc, fields),
        _ => unknown(),
    }
}

fn units(alloc: Global, text: &str) -> Answer {
    match KeyText::new(alloc, text) {
        Ok(key) => counted(alloc, "", key.units() as u64, " units"),
        Err(why) => refused(alloc, &why),
    }
}

fn order(alloc: Global, fields: &[String]) -> Answer {
    let one = key(alloc, fields, 0)?;
    order_to(alloc, fields, &one)
}

fn order_to(alloc: Global, fields: &[String], one: &Key) -> Answer {
    let other = key(alloc, fields, 3)?;
    order_text(alloc, one.cmp(&other))
}

pub fn order_text(alloc: Global, order: Ordering) -> Answer {
    let word = match order {
        Ordering::Less => "less",
        Ordering::Equal => "equal",
        Ordering::Greater => "greater",
    };
    told(alloc, &[word])
}

fn is_span(alloc: Global, fields: &[String]) -> Answer {
    let span = span(alloc, fields)?;
    told(alloc, &[if span.is_some() { "some" } else { "none" }])
}

fn has(alloc: Global, fields: &[String]) -> Answer {
    let key = key(alloc, fields, 4)?;
    has_key(alloc, fields, &key)
}

fn has_key(alloc: Global, fields: &[String], key: &Key) -> Answer {
    match span(alloc, fields)? {
        Some(span) => yes_or_no(alloc, span.has(key)),
        None => Err(Stop::Unread("a span is wanted")),
    }
}

/// The span of the first four fields.
fn span(alloc: Global, fields: &[String]) -> Result<Option<Span>, Stop> {
    let lo = bound(alloc, fields, 0)?;
    let hi = bound(alloc, fields, 2)?;
    Ok(Span::new(lo, hi))
}

/// The bound of two fields.
fn bound(alloc: Global, fields: &[String], at: usize) -> Result<Bound, Stop> {
    let table = number_at(fields, at)?;
    let pk = key_text(alloc, fields, at.saturating_add(1))?;
    Ok(Bound::At(table, pk))
}

/// The key of three fields.
pub fn key(alloc: Global, fields: &[String], at: usize) -> Result<Key, Stop> {
    let table = number_at(fields, at)?;
    let pk = key_text(alloc, fields, at.saturating_add(1))?;
    let rk = key_text(alloc, fields, at.saturating_add(2))?;
    Ok(Key { table, pk, rk })
}

/// The key text of a field, which has to be one.
pub fn key_text(alloc: Global, fields: &[String], at: usize) -> Result<KeyText, Stop> {
    text_of_key(alloc, field(fields, at)?)
}

/// The key text of a text, which has to be one.
fn text_of_key(alloc: Global, text: &str) -> Result<KeyText, Stop> {
    match KeyText::new(alloc, text) {
        Ok(key) => Ok(key),
        Err(_) => Err(Stop::Unread("a key text is wanted")),
    }
}
