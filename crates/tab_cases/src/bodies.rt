//! Cases of bodies of entities and tables: what they come to, or why they are refused.

use crate::answers::{Answer, field, refused, told, unknown};
use crate::stops::Stop;
use crate::values::{add_part, properties_text, whole_or_size};
use std::alloc::Global;
use tab_edm::Property;
use tab_json::{BodyEntity, JsonRefused, read_entity, read_table};
use tab_keys::KeyText;

/// `body JSON`: what the body comes to. `value JSON`: the same of the value of its only member A, and `typed TYPE | JSON` of that
/// with an annotation. `name JSON`: the table that the body names.
pub fn answer(alloc: Global, word: &str, fields: &[String]) -> Answer {
    match (word, fields.len()) {
        ("body", 1) => entity(alloc, field(fields, 0)?),
        ("value", 1) => value(alloc, field(fields, 0)?),
        ("typed", 2) => typed(alloc, field(fields, 0)?, field(fields, 1)?),
        ("name", 1) => table(alloc, field(fields, 0)?),
        _ => unknown(),
    }
}

fn value(alloc: Global, value: &str) -> Answer {
    let body = told(alloc, &["{\"A\":", value, "}"])?;
    entity(alloc, body.as_str())
}

fn typed(alloc: Global, name: &str, value: &str) -> Answer {
    let parts = ["{\"A@odata.type\":\"Edm.", name, "\",\"A\":", value, "}"];
    let body = told(alloc, &parts)?;
    entity(alloc, body.as_str())
}

fn entity(alloc: Global, body: &str) -> Answer {
    match read_entity(alloc, body.as_bytes()) {
        Ok(body) => body_text(alloc, body),
        Err(why) => refused_body(alloc, why),
    }
}

fn body_text(alloc: Global, body: BodyEntity) -> Answer {
    let keys = keys_text(alloc, &body)?;
    let properties = body.properties.into_vec();
    with_properties(alloc, keys.as_str(), properties.as_slice())
}

/// The keys that a body gives.
fn keys_text(alloc: Global, body: &BodyEntity) -> Answer {
    let mut text = String::new(alloc);
    add_key(alloc, &mut text, "pk", &body.pk)?;
    add_key(alloc, &mut text, "rk", &body.rk)?;
    Ok(text)
}

fn add_key(
    alloc: Global,
    text: &mut String,
    word: &str,
    key: &Option<KeyText>,
) -> Result<(), Stop> {
    match key {
        Some(key) => add_key_text(alloc, text, word, key.as_str()),
        None => Ok(()),
    }
}

fn add_key_text(alloc: Global, text: &mut String, word: &str, key: &str) -> Result<(), Stop> {
    let part = whole_or_size(alloc, word, key)?;
    add_part(text, part.as_str())
}

/// The keys, and the properties behind them.
fn with_properties(alloc: Global, keys: &str, properties: &[Property]) -> Answer {
    let properties = properties_text(alloc, properties)?;
    parts_text(alloc, keys, properties.as_str())
}

fn parts_text(alloc: Global, keys: &str, properties: &str) -> Answer {
    match (keys, properties) {
        ("", "") => told(alloc, &["nothing"]),
        (keys, "") => told(alloc, &[keys]),
        ("", properties) => told(alloc, &[properties]),
        (keys, properties) => told(alloc, &[keys, "; ", properties]),
    }
}

fn table(alloc: Global, body: &str) -> Answer {
    match read_table(alloc, body.as_bytes()) {
        Ok(name) => Ok(name),
        Err(why) => refused_body(alloc, why),
    }
}

fn refused_body(alloc: Global, why: JsonRefused) -> Answer {
    match why {
        JsonRefused::ValueType(name) => told(alloc, &["refused ValueType ", name.as_str()]),
        JsonRefused::Key(why) => refused(alloc, &why),
        why => refused(alloc, &why),
    }
}
