//! Cases of filters: whether they are read, which rows match them, and the windows of keys outside of which none can.

use crate::answers::{Answer, counted, field, number_at, refused, told, unknown, yes_or_no};
use crate::entities::entity;
use crate::keys::key_text;
use crate::stops::Stop;
use std::alloc::Global;
use tab_edm::Entity;
use tab_filter::{Filter, FilterRefused, Window, parse};
use tab_keys::KeyText;

/// That a filter is wanted.
const NO_FILTER: Stop = Stop::Unread("a filter is wanted");

/// `filter TEXT`: whether it is read. `match PK | RK | TICK | BODY | FILTER`: whether that row matches.
/// `window FILTER | PK | RK`: what holds of the key. `start FILTER`: the lower corner of the window.
pub fn answer(alloc: Global, word: &str, fields: &[String]) -> Answer {
    match (word, fields.len()) {
        ("filter", 1) => read(alloc, field(fields, 0)?),
        ("match", 5) => matches(alloc, fields),
        ("window", 3) => window(alloc, fields),
        ("start", 1) => start(alloc, field(fields, 0)?),
        _ => unknown(),
    }
}

fn read(alloc: Global, text: &str) -> Answer {
    match parse(alloc, text) {
        Ok(_) => told(alloc, &["read"]),
        Err(why) => refused_filter(alloc, why),
    }
}

/// Why a text is no filter.
pub fn refused_filter(alloc: Global, why: FilterRefused) -> Answer {
    match why {
        FilterRefused::Syntax { at } => counted(alloc, "refused Syntax at ", at as u64, ""),
        FilterRefused::BadLiteral { at } => counted(alloc, "refused BadLiteral at ", at as u64, ""),
        why => refused(alloc, &why),
    }
}

fn matches(alloc: Global, fields: &[String]) -> Answer {
    let pk = key_text(alloc, fields, 0)?;
    matches_at(alloc, fields, &pk)
}

fn matches_at(alloc: Global, fields: &[String], pk: &KeyText) -> Answer {
    let rk = key_text(alloc, fields, 1)?;
    matches_in(alloc, fields, pk, &rk)
}

fn matches_in(alloc: Global, fields: &[String], pk: &KeyText, rk: &KeyText) -> Answer {
    let entity = entity(alloc, pk.units(), rk.units(), field(fields, 3)?)?;
    is_match(alloc, fields, pk, rk, &entity)
}

fn is_match(
    alloc: Global,
    fields: &[String],
    pk: &KeyText,
    rk: &KeyText,
    entity: &Entity,
) -> Answer {
    let tick = number_at(fields, 2)?;
    match parse(alloc, field(fields, 4)?) {
        Ok(filter) => yes_or_no(alloc, filter.matches(pk, rk, tick, entity)),
        Err(_) => Err(NO_FILTER),
    }
}

/// The window of a filter, and that of all keys where there is none.
fn window_of(alloc: Global, text: &str) -> Result<Window, Stop> {
    match text {
        "" => Ok(Window::all(alloc)),
        text => narrowed(alloc, text),
    }
}

fn narrowed(alloc: Global, text: &str) -> Result<Window, Stop> {
    match parse(alloc, text) {
        Ok(filter) => window_from(alloc, &filter),
        Err(_) => Err(NO_FILTER),
    }
}

fn window_from(alloc: Global, filter: &Filter) -> Result<Window, Stop> {
    Ok(filter.window(alloc)?)
}

fn window(alloc: Global, fields: &[String]) -> Answer {
    let pk = key_text(alloc, fields, 1)?;
    window_at(alloc, fields, &pk)
}

fn window_at(alloc: Global, fields: &[String], pk: &KeyText) -> Answer {
    let rk = key_text(alloc, fields, 2)?;
    window_in(alloc, fields, pk, &rk)
}

fn window_in(alloc: Global, fields: &[String], pk: &KeyText, rk: &KeyText) -> Answer {
    let window = window_of(alloc, field(fields, 0)?)?;
    place(alloc, &window, pk, rk)
}

/// What holds of a key.
fn place(alloc: Global, window: &Window, pk: &KeyText, rk: &KeyText) -> Answer {
    let has = if window.has(pk, rk) {
        "inside"
    } else {
        "outside"
    };
    let below = if window.below(pk) { ", below" } else { "" };
    let reaches = if window.reaches(pk) { ", reached" } else { "" };
    told(alloc, &[has, below, reaches])
}

fn start(alloc: Global, text: &str) -> Answer {
    let window = window_of(alloc, text)?;
    corner(alloc, &window)
}

fn corner(alloc: Global, window: &Window) -> Answer {
    let (pk, rk) = window.start();
    told(alloc, &[pk, "/", rk])
}
