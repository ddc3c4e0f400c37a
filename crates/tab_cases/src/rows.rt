//! Cases of rows in the order of their keys: what is put, taken and lent.

ghost use Rattle.std.specs.Prelude.{◌≡◌, ◌<◌, ◌≤◌, length, IfOk};
ghost use Rattle.tab_edm.specs.declared.TheConstants.{GREATEST};
ghost use Rattle.tab_keys.specs.KeyTexts.{units_of};

use crate::answers::{Answer, counted, number, number_at, some_or, told, unknown};
use crate::stops::Stop;
use crate::values::add_part;
use crate::walks::split_word;
use crate::{entities, keys};
use std::alloc::Global;
use std::marker::Brand;
use std::sync::ledger::{Blank, Ledger};
use tab_edm::{Entity, GREATEST};
use tab_keys::{Key, KeyText};
use tab_rows::{Cursor, Row, Rows, Steps};

/// The most rows that a case lends.
const MOST_LENT: usize = 100;

/// `rows CALL | CALL ..`: what the calls answer over no rows, one after another. A call is `put KEY TICK`, `take KEY`, `get KEY`,
/// `from KEY`, `past TABLE/PK`, `falling COUNT` or `len`, and a key `TABLE/PK/RK`.
pub fn answer(alloc: Global, word: &str, fields: &[String]) -> Answer {
    match word {
        "rows" => calls(alloc, fields),
        _ => unknown(),
    }
}

fn calls(alloc: Global, calls: &[String]) -> Answer {
    let mut rows = Rows::new(alloc);
    let mut came = String::new(alloc);
    for call in calls {
        add_call(alloc, &mut came, &mut rows, call.as_str())?;
    }
    Ok(came)
}

fn add_call(alloc: Global, came: &mut String, rows: &mut Rows, call: &str) -> Result<(), Stop> {
    let part = call_answer(alloc, rows, call)?;
    add_part(came, part.as_str())
}

fn call_answer(alloc: Global, rows: &mut Rows, call: &str) -> Answer {
    let (word, text) = split_word(call);
    match word {
        "put" => put(alloc, rows, text),
        "take" => take(alloc, rows, text),
        "falling" => falling(alloc, rows, number(text)?),
        _ => look(alloc, rows, word, text),
    }
}

fn look(alloc: Global, rows: &Rows, word: &str, text: &str) -> Answer {
    match word {
        "get" => get(alloc, rows, text),
        "from" => from(alloc, rows, text),
        "past" => past(alloc, rows, text),
        "len" => counted(alloc, "", rows.len() as u64, " rows"),
        _ => unknown(),
    }
}

/// The texts between strokes.
fn parts(alloc: Global, text: &str) -> Result<Vec<String>, Stop> {
    let mut parts = Vec::new(alloc);
    for part in text.split('/') {
        parts.push(String::from_str(alloc, part)?)?;
    }
    Ok(parts)
}

/// The key of `TABLE/PK/RK`.
pub fn key(alloc: Global, text: &str) -> Result<Key, Stop> {
    let parts = parts(alloc, text)?;
    keys::key(alloc, parts.as_slice(), 0)
}

/// The key of `PK/RK` in table 1.
pub fn key_in(alloc: Global, text: &str) -> Result<Key, Stop> {
    let text = told(alloc, &["1/", text])?;
    key(alloc, text.as_str())
}

/// The row of a key, a tick and the body of an entity.
pub fn row(alloc: Global, key: Key, tick: u64, body: &str) -> Result<Row, Stop> {
    let entity = entity_at(alloc, &key.pk, &key.rk, body)?;
    if tick > GREATEST {
        return Err(Stop::Unread("a tick is wanted"));
    }
    Ok(row_of(key, entity, tick))
}

fn row_of(key: Key, entity: Entity, tick: u64) -> Row
    requires pk { entity.pk_units ≡ length (units_of key.pk) }
    requires rk { entity.rk_units ≡ length (units_of key.rk) }
    requires tick { tick ≤ GREATEST }
{
    Row { key, entity, tick }
}

/// The entity of a body for these keys.
pub fn entity_at(alloc: Global, pk: &KeyText, rk: &KeyText, body: &str) -> Result<Entity, Stop>
    ensures { IfOk result (λ entity. (entity.pk_units ≡ length (units_of pk.now)) × (entity.rk_units ≡ length (units_of rk.now))) }
{
    let entity = entities::entity(alloc, pk.units(), rk.units(), body)?;
    if entity.pk_units() == pk.units() && entity.rk_units() == rk.units() {
        Ok(entity)
    } else {
        Err(Stop::Unread("an entity of these keys is wanted"))
    }
}

fn put(alloc: Global, rows: &mut Rows, text: &str) -> Answer {
    let (at, tick) = split_word(text);
    let row = bare_row(alloc, at, number(tick)?)?;
    put_row(alloc, rows, row)
}

fn bare_row(alloc: Global, at: &str, tick: u64) -> Result<Row, Stop> {
    let key = key(alloc, at)?;
    row(alloc, key, tick, "{}")
}

/// Puts a row: the tick of the one that stood there.
fn put_row(alloc: Global, rows: &mut Rows, row: Row) -> Answer {
    let before = place(rows, row)?;
    tick_text(alloc, before.as_ref())
}

/// Puts a row, and gives the one that stood there.
pub fn place(rows: &mut Rows, row: Row) -> Result<Option<Row>, Stop> {
    rows.reserve(1)?;
    Ok(rows.put(row))
}

fn take(alloc: Global, rows: &mut Rows, text: &str) -> Answer {
    let key = key(alloc, text)?;
    let before = rows.take(&key);
    tick_text(alloc, before.as_ref())
}

fn get(alloc: Global, rows: &Rows, text: &str) -> Answer {
    let key = key(alloc, text)?;
    tick_text(alloc, rows.get(&key))
}

fn tick_text(alloc: Global, row: Option<&Row>) -> Answer {
    match row {
        Some(row) => counted(alloc, "tick ", row.tick, ""),
        None => told(alloc, &["none"]),
    }
}

/// Puts rows from the greatest row key down to 000, whose ticks are these numbers.
fn falling(alloc: Global, rows: &mut Rows, count: u64) -> Answer {
    for number in 0..count {
        put_numbered(alloc, rows, count - 1 - number)?;
    }
    counted(alloc, "", rows.len() as u64, " rows")
}

fn put_numbered(alloc: Global, rows: &mut Rows, number: u64) -> Answer {
    let text = format!(in alloc; "1/p/{number:03} {number}")?;
    put(alloc, rows, text.as_str())
}

fn from(alloc: Global, rows: &Rows, text: &str) -> Answer {
    let key = key(alloc, text)?;
    lent(alloc, rows.from(&key))
}

fn past(alloc: Global, rows: &Rows, text: &str) -> Answer {
    let parts = parts(alloc, text)?;
    past_of(alloc, rows, parts.as_slice())
}

fn past_of(alloc: Global, rows: &Rows, parts: &[String]) -> Answer {
    let table = number_at(parts, 0)?;
    let pk = keys::key_text(alloc, parts, 1)?;
    lent(alloc, rows.past(table, &pk))
}

/// The ticks of the rows that a cursor lends.
fn lent(alloc: Global, cursor: Cursor<'_>) -> Answer {
    ticks::<Brand>(alloc, Blank::new(1), cursor)
}

fn ticks<L: Ledger>(alloc: Global, blank: Blank, mut cursor: Cursor<'_>) -> Answer
    requires name { blank.name ≡ L.name }
    requires parts { blank.parts ≡ L.parts }
    requires some { 0 < blank.parts }
{
    let mut steps = Steps::<L>::new(blank);
    let mut came = String::new(alloc);
    for _ in 0..MOST_LENT {
        match cursor.next(&mut steps) {
            Some(row) => add_tick(alloc, &mut came, row.tick)?,
            None => break,
        }
    }
    some_or(came, "none")
}

fn add_tick(alloc: Global, came: &mut String, tick: u64) -> Result<(), Stop> {
    let part = counted(alloc, "", tick, "")?;
    add_part(came, part.as_str())
}
