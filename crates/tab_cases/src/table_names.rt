//! Cases of table names and of their order.

use crate::answers::{Answer, field, refused, told, unknown};
use crate::keys::order_text;
use crate::stops::Stop;
use std::alloc::Global;
use tab_keys::TableName;

/// `table TEXT`: the table name as it spells itself, or why it is none. `names NAME | NAME`: how they are ordered.
pub fn answer(alloc: Global, word: &str, fields: &[String]) -> Answer {
    match (word, fields.len()) {
        ("table", 1) => spelled(alloc, field(fields, 0)?),
        ("names", 2) => order(alloc, fields),
        _ => unknown(),
    }
}

fn spelled(alloc: Global, text: &str) -> Answer {
    match TableName::new(alloc, text) {
        Ok(name) => told(alloc, &["name ", name.as_str()]),
        Err(why) => refused(alloc, &why),
    }
}

fn order(alloc: Global, fields: &[String]) -> Answer {
    let one = name(alloc, fields, 0)?;
    let other = name(alloc, fields, 1)?;
    order_text(alloc, one.cmp(&other))
}

/// The table name of a field, which has to be one.
pub fn name(alloc: Global, fields: &[String], at: usize) -> Result<TableName, Stop> {
    match TableName::new(alloc, field(fields, at)?) {
        Ok(name) => Ok(name),
        Err(_) => Err(Stop::Unread("a table name is wanted")),
    }
}
