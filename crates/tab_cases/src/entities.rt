//! Cases of entities: their limits, their sizes, and their properties.

use crate::answers::{Answer, counted, field, refused, told, unknown};
use crate::stops::{NO_MEMORY, Stop};
use crate::values::{joined, value_text};
use std::alloc::Global;
use tab_edm::{EdmRefused, Entity, Property};
use tab_json::{JsonRefused, read_entity};

/// `entity PK-UNITS | RK-UNITS | BODY`: the size of the entity of these properties, or why they make none. `get PK-UNITS |
/// RK-UNITS | BODY | NAME`: the value that it has.
pub fn answer(alloc: Global, word: &str, fields: &[String]) -> Answer {
    match (word, fields.len()) {
        ("entity", 3) => size(alloc, fields),
        ("get", 4) => get(alloc, fields),
        _ => unknown(),
    }
}

fn units(fields: &[String], at: usize) -> Result<usize, Stop> {
    match field(fields, at)?.parse::<usize>() {
        Ok(units) => Ok(units),
        Err(_) => Err(Stop::Unread("a number of units is wanted")),
    }
}

/// What the properties of a body make, for keys with so many units.
fn made(
    alloc: Global,
    pk_units: usize,
    rk_units: usize,
    body: &str,
) -> Result<Result<Entity, EdmRefused>, Stop> {
    match read_entity(alloc, body.as_bytes()) {
        Ok(body) => Ok(Entity::new(alloc, pk_units, rk_units, body.properties.into_vec())),
        Err(JsonRefused::Memory) => Err(NO_MEMORY),
        Err(_) => Err(Stop::Unread("the body of an entity is wanted")),
    }
}

/// The entity of a body, for keys with so many units, which has to be one.
pub fn entity(alloc: Global, pk_units: usize, rk_units: usize, body: &str) -> Result<Entity, Stop> {
    match made(alloc, pk_units, rk_units, body)? {
        Ok(entity) => Ok(entity),
        Err(_) => Err(Stop::Unread("an entity within its limits is wanted")),
    }
}

fn size(alloc: Global, fields: &[String]) -> Answer {
    let pk_units = units(fields, 0)?;
    let rk_units = units(fields, 1)?;
    match made(alloc, pk_units, rk_units, field(fields, 2)?)? {
        Ok(entity) => counted(alloc, "size ", entity.size(), ""),
        Err(why) => refused_entity(alloc, &why),
    }
}

fn refused_entity(alloc: Global, why: &EdmRefused) -> Answer {
    match why {
        EdmRefused::NameInvalid(property) => named(alloc, "refused NameInvalid", property),
        EdmRefused::NameTooLong(property) => named(alloc, "refused NameTooLong", property),
        EdmRefused::ValueTooLarge(property) => named(alloc, "refused ValueTooLarge", property),
        why => refused(alloc, why),
    }
}

/// A refusal with the name of its property.
fn named(alloc: Global, why: &str, property: &Property) -> Answer {
    joined(alloc, why, property.name.as_str())
}

fn get(alloc: Global, fields: &[String]) -> Answer {
    let pk_units = units(fields, 0)?;
    let rk_units = units(fields, 1)?;
    let entity = entity(alloc, pk_units, rk_units, field(fields, 2)?)?;
    value_of(alloc, &entity, fields)
}

fn value_of(alloc: Global, entity: &Entity, fields: &[String]) -> Answer {
    match entity.get(field(fields, 3)?) {
        Some(value) => value_text(alloc, value),
        None => told(alloc, &["none"]),
    }
}
