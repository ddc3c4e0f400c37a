//! Cases of groups of operations: which are groups, and what comes of them.

ghost use Rattle.std.specs.Prelude.{◌≡◌, ◌≤◌, length, IfOk};
ghost use Rattle.tab_edm.specs.declared.TheConstants.{GREATEST};
ghost use Rattle.tab_keys.specs.KeyTexts.{units_of};
ghost use Rattle.tab_ops.specs.Groups.{IsMadeFor};

use crate::answers::{Answer, counted, field, number, refused, told, unknown};
use crate::rows::{entity_at, key_in, place, row};
use crate::stops::Stop;
use crate::values::{add_part, properties_text};
use crate::walks::split_word;
use std::alloc::Global;
use tab_edm::GREATEST;
use tab_keys::{Key, KeyText, TableName};
use tab_ops::{Changes, Group, Item, Match, Op, plan};
use tab_rows::{Change, Row, Rows};

/// The table that groups act in.
const TABLE: u64 = 1;

/// `group OPERATION | OPERATION ..`: how many operations the group has, or why it is none. `act TICK | ROWS | OPERATION ..`: the
/// changes that it makes of these rows with the tick, or why it makes none. Rows are `PK/RK TICK BODY`, between semicolons. An
/// operation is `NAME PK/RK insert BODY`, or `replace BODY`, `mergein BODY`, `update CONDITION BODY`, `merge CONDITION BODY` and
/// `delete CONDITION` in its stead; a condition is `any` or a tick.
pub fn answer(alloc: Global, word: &str, fields: &[String]) -> Answer {
    match (word, fields) {
        ("group", items) => grouped(alloc, items),
        ("act", [tick, rows, items @ ..]) => {
            act(alloc, number(tick.as_str())?, rows.as_str(), items)
        }
        _ => unknown(),
    }
}

fn grouped(alloc: Global, fields: &[String]) -> Answer {
    let items = items(alloc, fields)?;
    group_text(alloc, items)
}

fn group_text(alloc: Global, items: Vec<Item>) -> Answer {
    match Group::new(items) {
        Ok(group) => counted(alloc, "", group.items().len() as u64, " operations"),
        Err(why) => refused(alloc, &why),
    }
}

fn items(alloc: Global, fields: &[String]) -> Result<Vec<Item>, Stop> {
    let mut items = Vec::new(alloc);
    for field in fields {
        let item = item(alloc, field.as_str())?;
        items.push(item)?;
    }
    Ok(items)
}

fn item(alloc: Global, text: &str) -> Result<Item, Stop> {
    let (name, rest) = split_word(text);
    match TableName::new(alloc, name) {
        Ok(name) => item_in(alloc, name, rest),
        Err(_) => Err(Stop::Unread("the name of a table is wanted")),
    }
}

fn item_in(alloc: Global, name: TableName, text: &str) -> Result<Item, Stop> {
    let (at, operation) = split_word(text);
    let key = key_in(alloc, at)?;
    item_at(alloc, name, key, operation)
}

fn item_at(alloc: Global, name: TableName, key: Key, text: &str) -> Result<Item, Stop> {
    let Key { pk, rk, .. } = key;
    let op = op(alloc, &pk, &rk, text)?;
    Ok(Item { name, pk, rk, op })
}

fn op(alloc: Global, pk: &KeyText, rk: &KeyText, text: &str) -> Result<Op, Stop>
    ensures { IfOk result (IsMadeFor (length (units_of pk.now)) (length (units_of rk.now))) }
{
    match split_word(text) {
        ("delete", condition) => Ok(Op::Delete(condition_of(condition)?)),
        ("insert", body) => Ok(Op::Insert(entity_at(alloc, pk, rk, body)?)),
        ("replace", body) => Ok(Op::Replace(entity_at(alloc, pk, rk, body)?)),
        ("mergein", body) => Ok(Op::MergeIn(entity_at(alloc, pk, rk, body)?)),
        (word, rest) => conditional(alloc, pk, rk, word, rest),
    }
}

fn conditional(
    alloc: Global,
    pk: &KeyText,
    rk: &KeyText,
    word: &str,
    text: &str,
) -> Result<Op, Stop>
    ensures { IfOk result (IsMadeFor (length (units_of pk.now)) (length (units_of rk.now))) }
{
    let (condition, body) = split_word(text);
    let condition = condition_of(condition)?;
    let entity = entity_at(alloc, pk, rk, body)?;
    match word {
        "update" => Ok(Op::Update(entity, condition)),
        "merge" => Ok(Op::Merge(entity, condition)),
        _ => Err(Stop::Unread("an operation is wanted")),
    }
}

fn condition_of(text: &str) -> Result<Match, Stop> {
    match text {
        "any" => Ok(Match::Any),
        tick => tick_of(tick),
    }
}

fn tick_of(text: &str) -> Result<Match, Stop> {
    let tick = number(text)?;
    Ok(Match::Tick(tick))
}

fn act(alloc: Global, tick: u64, texts: &str, fields: &[String]) -> Answer {
    let rows = rows(alloc, texts)?;
    let items = items(alloc, fields)?;
    act_by(alloc, &rows, items, tick)
}

fn act_by(alloc: Global, rows: &Rows, items: Vec<Item>, tick: u64) -> Answer {
    match Group::new(items) {
        Ok(group) => act_on(alloc, rows, &group, tick),
        Err(_) => Err(Stop::Unread("a group is wanted")),
    }
}

/// The rows that a text describes, between semicolons.
fn rows(alloc: Global, text: &str) -> Result<Rows, Stop> {
    let mut rows = Rows::new(alloc);
    for part in text.split_terminator(';') {
        put(alloc, &mut rows, part.trim_ascii())?;
    }
    Ok(rows)
}

fn put(alloc: Global, rows: &mut Rows, text: &str) -> Result<(), Stop> {
    let row = described(alloc, text)?;
    let _before = place(rows, row)?;
    Ok(())
}

fn described(alloc: Global, text: &str) -> Result<Row, Stop> {
    let (at, rest) = split_word(text);
    let key = key_in(alloc, at)?;
    row_with(alloc, key, rest)
}

fn row_with(alloc: Global, key: Key, text: &str) -> Result<Row, Stop> {
    let (tick, body) = split_word(text);
    row(alloc, key, number(tick)?, body)
}

fn act_on(alloc: Global, rows: &Rows, group: &Group, tick: u64) -> Answer {
    if tick > GREATEST {
        return Err(Stop::Unread("a tick is wanted"));
    }
    planned(alloc, rows, group, tick)
}

fn planned(alloc: Global, rows: &Rows, group: &Group, tick: u64) -> Answer
    requires { tick ≤ GREATEST }
{
    match plan(alloc, rows, TABLE, group, tick) {
        Ok(changes) => changes_text(alloc, &changes),
        Err(why) => refused(alloc, &why),
    }
}

fn changes_text(alloc: Global, changes: &Changes) -> Answer {
    let mut text = String::new(alloc);
    for change in changes.list.as_slice() {
        add_change(alloc, &mut text, change)?;
    }
    Ok(text)
}

fn add_change(alloc: Global, text: &mut String, change: &Change) -> Result<(), Stop> {
    let part = change_text(alloc, change)?;
    add_part(text, part.as_str())
}

fn change_text(alloc: Global, change: &Change) -> Answer {
    match change {
        Change::Put(row) => row_text(alloc, row),
        Change::Take(key) => taken_text(alloc, key),
    }
}

fn row_text(alloc: Global, row: &Row) -> Answer {
    let properties = properties_text(alloc, row.entity.properties())?;
    let at = key_text(alloc, &row.key)?;
    row_parts(alloc, at.as_str(), row.tick, properties.as_str())
}

fn row_parts(alloc: Global, at: &str, tick: u64, properties: &str) -> Answer {
    Ok(format!(in alloc; "{at} at {tick} ({properties})")?)
}

fn key_text(alloc: Global, key: &Key) -> Answer {
    told(alloc, &[key.pk.as_str(), "/", key.rk.as_str()])
}

fn taken_text(alloc: Global, key: &Key) -> Answer {
    told(alloc, &[key.pk.as_str(), "/", key.rk.as_str(), " taken"])
}
