//! Commands as cases spell them, and how the answers to them are told.

ghost use Rattle.std.specs.Prelude.{◌≡◌, ◌∷◌, [], length, IfOk, IsFalse};
ghost use Rattle.tab_edm.specs.Values.{is_reserved, IsInTime};
ghost use Rattle.tab_edm.specs.declared.values.Property.{Property};
ghost use Rattle.tab_keys.specs.KeyTexts.{units_of};
ghost use Rattle.tab_ops.specs.Groups.{IsMadeFor};

use crate::spans::key_text;
use crate::stops::{NO_MEMORY, Stop, UNKNOWN};
use crate::texts::{number, split_word};
use std::alloc::Global;
use tab_edm::{EdmRefused, Entity, Property, TextValue, Value};
use tab_keys::{KeyText, TableName};
use tab_ops::{Group, Item, Match, Op};
use tab_page::{Options, Select};
use tab_range::{Command, What};

/// The one property that entities of cases have.
pub const PROPERTY: &str = "T";

/// `get TABLE PK RK`, `page TABLE TOP`, `insert TABLE PK RK TEXT` and `replace` the same, `delete TABLE PK RK`, perhaps with the tick
/// that is wanted, and `group TABLE PK RK=TEXT ..` of several inserts.
pub fn command(alloc: Global, word: &str, given: &str) -> Result<Command, Stop> {
    let (table, rest) = split_word(given);
    let table = number(table)?;
    let what = what(alloc, word, rest)?;
    Ok(Command { table, what })
}

fn what(alloc: Global, word: &str, text: &str) -> Result<What, Stop> {
    match word {
        "get" => get(alloc, text),
        "page" => Ok(page(number(text)?)),
        "group" => group(alloc, text),
        _ => change(alloc, word, text),
    }
}

fn get(alloc: Global, text: &str) -> Result<What, Stop> {
    let (pk, rk) = split_word(text);
    let pk = key_text(alloc, pk)?;
    let rk = key_text(alloc, rk)?;
    Ok(What::Get { pk, rk })
}

fn page(top: u64) -> What {
    What::Page(Options {
        filter: None,
        select: Select::All,
        top: top.min(1000) as u16,
        start: None,
    })
}

fn grouped(items: Vec<Item>) -> Result<What, Stop> {
    match Group::new(items) {
        Ok(group) => Ok(What::Change(group)),
        Err(_) => Err(Stop::Unread("a group is wanted")),
    }
}

fn group(alloc: Global, text: &str) -> Result<What, Stop> {
    let (pk, rows) = split_word(text);
    let mut items = Vec::new(alloc);
    for row in rows.split_whitespace() {
        items.push(inserted(alloc, pk, row)?)?;
    }
    grouped(items)
}

fn inserted(alloc: Global, pk: &str, row: &str) -> Result<Item, Stop> {
    match row.split_once('=') {
        Some((rk, text)) => item(alloc, "insert", pk, rk, text),
        None => Err(UNKNOWN),
    }
}

fn change(alloc: Global, word: &str, text: &str) -> Result<What, Stop> {
    let (pk, rest) = split_word(text);
    let (rk, rest) = split_word(rest);
    let mut items = Vec::new(alloc);
    items.push(item(alloc, word, pk, rk, rest)?)?;
    grouped(items)
}

fn item(alloc: Global, word: &str, pk: &str, rk: &str, text: &str) -> Result<Item, Stop> {
    let name = table_name(alloc)?;
    let pk = key_text(alloc, pk)?;
    let rk = key_text(alloc, rk)?;
    let op = op(alloc, word, &pk, &rk, text)?;
    Ok(Item { name, pk, rk, op })
}

/// A server knows tables by their numbers alone.
fn table_name(alloc: Global) -> Result<TableName, Stop> {
    match TableName::new(alloc, "Goods") {
        Ok(name) => Ok(name),
        Err(_) => Err(NO_MEMORY),
    }
}

fn op(alloc: Global, word: &str, pk: &KeyText, rk: &KeyText, text: &str) -> Result<Op, Stop>
    ensures { IfOk result (IsMadeFor (length (units_of pk.now)) (length (units_of rk.now))) }
{
    match word {
        "insert" => Ok(Op::Insert(entity(alloc, pk, rk, text)?)),
        "replace" => Ok(Op::Replace(entity(alloc, pk, rk, text)?)),
        "delete" => Ok(Op::Delete(condition(text)?)),
        _ => Err(UNKNOWN),
    }
}

fn condition(text: &str) -> Result<Match, Stop> {
    match text {
        "" => Ok(Match::Any),
        tick => Ok(Match::Tick(number(tick)?)),
    }
}

/// That a text makes no entity.
const NO_ENTITY: Stop = Stop::Unread("an entity within its limits is wanted");

/// The entity of these keys that has a text as its one property.
fn entity(alloc: Global, pk: &KeyText, rk: &KeyText, text: &str) -> Result<Entity, Stop>
    ensures { IfOk result (λ entity. (entity.pk_units ≡ length (units_of pk.now)) × (entity.rk_units ≡ length (units_of rk.now))) }
{
    let entity = entity_of(alloc, pk.units(), rk.units(), text)?;
    if entity.pk_units() == pk.units() && entity.rk_units() == rk.units() {
        Ok(entity)
    } else {
        Err(NO_ENTITY)
    }
}

fn entity_of(alloc: Global, pk_units: usize, rk_units: usize, text: &str) -> Result<Entity, Stop> {
    let properties = properties(alloc, text)?;
    match Entity::new(alloc, pk_units, rk_units, properties) {
        Ok(entity) => Ok(entity),
        Err(EdmRefused::Memory) => Err(NO_MEMORY),
        Err(_) => Err(NO_ENTITY),
    }
}

fn properties(alloc: Global, text: &str) -> Result<Vec<Property>, Stop>
    ensures { IfOk result (λ properties. (property : Property) × (properties.items ≡ property ∷ []) × IsFalse (is_reserved property.name) × IsInTime property.value) }
{
    let property = property(alloc, text)?;
    Ok(vec![in alloc; property]?)
}

fn property(alloc: Global, text: &str) -> Result<Property, Stop>
    ensures { IfOk result (λ property. IsFalse (is_reserved property.name) × IsInTime property.value) }
{
    let name = String::from_str(alloc, PROPERTY)?;
    let text = String::from_str(alloc, text)?;
    Ok(Property {
        name: TextValue::new(name),
        value: Value::Text(TextValue::new(text)),
    })
}
