//! How the answers of a server are told.

use crate::commands::PROPERTY;
use crate::stops::{NO_MEMORY, Stop, UNKNOWN};
use crate::texts::{add, add_number, add_place};
use std::alloc::Global;
use tab_edm::{Entity, Value};
use tab_history::Reply;
use tab_keys::KeyText;
use tab_ops::OpRefused;
use tab_page::Page;
use tab_rows::Row;
use tab_server::ActRefused;

/// Adds the answer to a command.
pub fn add_answer(
    alloc: Global,
    came: &mut String,
    res: Result<Reply, ActRefused>,
) -> Result<(), Stop> {
    match res {
        Ok(Reply::Changed(tick)) => add_number(alloc, came, "changed", tick),
        Ok(Reply::Found(row)) => add_found(alloc, came, &row),
        Ok(Reply::Listed(page)) => add_page(alloc, came, &page),
        Ok(_) => Err(UNKNOWN),
        Err(refused) => add_refusal(alloc, came, refused),
    }
}

/// Adds the answer to a settling and to a checkpoint.
pub fn add_result(
    alloc: Global,
    came: &mut String,
    res: Result<(), ActRefused>,
) -> Result<(), Stop> {
    match res {
        Ok(()) => add(came, "done"),
        Err(refused) => add_refusal(alloc, came, refused),
    }
}

fn add_refusal(alloc: Global, came: &mut String, refused: ActRefused) -> Result<(), Stop> {
    match refused {
        ActRefused::NotHeld => add(came, "NotHeld"),
        ActRefused::Sealed { range } => add_number(alloc, came, "Sealed", range),
        ActRefused::DiskFault { area } => add_number(alloc, came, "DiskFault", area as u64),
        ActRefused::TimeSpent => add(came, "TimeSpent"),
        ActRefused::Op(why) => add_op_refusal(alloc, came, why),
        ActRefused::NotFound => add(came, "NotFound"),
        ActRefused::Memory => Err(NO_MEMORY),
        ActRefused::EpochSpent => add(came, "EpochSpent"),
        ActRefused::Damaged { area, at } => add_place(alloc, came, "Damaged", (area, at)),
    }
}

fn add_op_refusal(alloc: Global, came: &mut String, why: OpRefused) -> Result<(), Stop> {
    match why {
        OpRefused::AlreadyThere { index } => {
            add_number(alloc, came, "AlreadyThere", index as u64)
        }
        OpRefused::NotThere { index } => add_number(alloc, came, "NotThere", index as u64),
        OpRefused::Condition { tick, .. } => add_number(alloc, came, "Condition", tick),
        OpRefused::Memory => Err(NO_MEMORY),
        _ => Err(UNKNOWN),
    }
}

fn add_found(alloc: Global, came: &mut String, row: &Row) -> Result<(), Stop> {
    let mut part = String::from_str(alloc, "found")?;
    add_row(&mut part, row)?;
    add(came, part.as_str())
}

/// Adds the rows of a page, and the key behind them.
fn add_page(alloc: Global, came: &mut String, page: &Page) -> Result<(), Stop> {
    let mut part = String::from_str(alloc, "page")?;
    for row in page.rows.as_slice() {
        add_row(&mut part, row)?;
    }
    if let Some((pk, rk)) = &page.next {
        add_next(&mut part, pk, rk)?;
    }
    add(came, part.as_str())
}

fn add_next(part: &mut String, pk: &KeyText, rk: &KeyText) -> Result<(), Stop> {
    write!(part, " next {}:{}", pk.as_str(), rk.as_str())?;
    Ok(())
}

/// Adds the rows of a range and its next tick, or that it is not held.
pub fn add_range(
    alloc: Global,
    came: &mut String,
    found: Option<(&[Row], u64)>,
) -> Result<(), Stop> {
    match found {
        Some((rows, next_tick)) => add_rows(alloc, came, rows, next_tick),
        None => add(came, "not held"),
    }
}

fn add_rows(alloc: Global, came: &mut String, rows: &[Row], next_tick: u64) -> Result<(), Stop> {
    let mut part = format!(in alloc; "next {next_tick}")?;
    for row in rows {
        add_row(&mut part, row)?;
    }
    add(came, part.as_str())
}

/// Adds a row as `TABLE:PK:RK=TEXT@TICK`.
fn add_row(part: &mut String, row: &Row) -> Result<(), Stop> {
    let key = &row.key;
    write!(
        part,
        " {}:{}:{}",
        key.table,
        key.pk.as_str(),
        key.rk.as_str()
    )?;
    write!(part, "={}@{}", text_of(&row.entity), row.tick)?;
    Ok(())
}

fn text_of(entity: &Entity) -> &str {
    match entity.get(PROPERTY) {
        Some(Value::Text(text)) => text.as_str(),
        _ => "",
    }
}
