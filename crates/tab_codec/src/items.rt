//! Reads the lists that bodies have, item after item.

ghost use Rattle.std.specs.Prelude.{◌≡◌, List, ℕ, None};
ghost use Rattle.std.specs.Option.{option_map, option_copied};
ghost use Rattle.std.specs.Int.{w64};
ghost use Rattle.tab_codec.specs.declared.frames.RangeRow.{RangeRow};
ghost use Rattle.tab_codec.specs.Reading.{Gives, allowing, bound_rises, bound_at, low_falls, low_bound_at, number_at, number_rises, items_at, last_read, row_at, change_of, change_at, range_row_at, name_at};

use crate::RangeRow;
use crate::entities::read_row;
use crate::fields::{first_u64, read_byte, read_case, read_table_name, read_u64};
use crate::keys::{read_bound, read_key, read_span_from};
use crate::stops::Stop;
use std::alloc::Global;
use tab_keys::{Bound, TableName};
use tab_rows::{Change, Row};

/// So many rows, each above the one before.
pub fn read_rows(alloc: Global, count: u32, bytes: &[u8]) -> Result<(Vec<Row>, &[u8]), Stop>
    ensures { Gives (λ x. (x.0.items, x.1.now)) result (items_at row_at last_read None count bytes.now) }
{
    let mut items = Vec::new(alloc);
    let mut rest = bytes;
    for _ in 0..count {
        let (item, after) = read_row(alloc, items.last(), rest)?;
        items.push(item)?;
        rest = after;
    }
    Ok((items, rest))
}

/// So many changes.
pub fn read_changes(alloc: Global, count: u16, bytes: &[u8]) -> Result<(Vec<Change>, &[u8]), Stop>
    ensures { Gives (λ x. (x.0.items, x.1.now)) result (items_at (λ _. change_at) last_read None count bytes.now) }
{
    let mut items = Vec::new(alloc);
    let mut rest = bytes;
    for _ in 0..count {
        let (item, after) = read_change(alloc, rest)?;
        items.push(item)?;
        rest = after;
    }
    Ok((items, rest))
}

/// So many rows of a map, in rising order of their low bounds.
pub fn read_rising_range_rows(
    alloc: Global,
    count: u32,
    bytes: &[u8],
) -> Result<(Vec<RangeRow>, &[u8]), Stop>
    ensures { Gives (λ x. (x.0.items, x.1.now)) result (items_at range_row_at last_read None count bytes.now) }
{
    let mut items = Vec::new(alloc);
    let mut rest = bytes;
    for _ in 0..count {
        let (item, after) = read_range_row(alloc, items.last(), rest)?;
        items.push(item)?;
        rest = after;
    }
    Ok((items, rest))
}

/// So many rows of a map.
pub fn read_range_rows(
    alloc: Global,
    count: u8,
    bytes: &[u8],
) -> Result<(Vec<RangeRow>, &[u8]), Stop>
    ensures { Gives (λ x. (x.0.items, x.1.now)) result (items_at (λ _. range_row_at None) last_read None count bytes.now) }
{
    let mut items = Vec::new(alloc);
    let mut rest = bytes;
    for _ in 0..count {
        let (item, after) = read_range_row(alloc, None, rest)?;
        items.push(item)?;
        rest = after;
    }
    Ok((items, rest))
}

/// So many numbers.
pub fn read_numbers(alloc: Global, count: u8, bytes: &[u8]) -> Result<(Vec<u64>, &[u8]), Stop>
    ensures { Gives (λ x. (x.0.items, x.1.now)) result (items_at (λ _. number_at w64) last_read None count bytes.now) }
{
    let mut items = Vec::new(alloc);
    let mut rest = bytes;
    for _ in 0..count {
        let (item, after) = read_u64(rest)?;
        items.push(item)?;
        rest = after;
    }
    Ok((items, rest))
}

/// So many names, in rising order of their tables.
pub fn read_names(
    alloc: Global,
    count: u32,
    bytes: &[u8],
) -> Result<(Vec<(u64, TableName)>, &[u8]), Stop>
    ensures { Gives (λ x. (x.0.items, x.1.now)) result (items_at name_at last_read None count bytes.now) }
{
    let mut items = Vec::new(alloc);
    let mut rest = bytes;
    for _ in 0..count {
        let (item, after) = read_name(alloc, items.last(), rest)?;
        items.push(item)?;
        rest = after;
    }
    Ok((items, rest))
}

#[tactic(auto, unfolding(crate::specs::Reading::change_at, crate::specs::Reading::change_of))]
fn read_change(alloc: Global, bytes: &[u8]) -> Result<(Change, &[u8]), Stop>
    ensures { Gives (λ x. (x.0, x.1.now)) result (change_at bytes.now) }
{
    let (which, rest) = read_case(0, 1, bytes)?;
    if which == 0 {
        let (key, rest) = read_key(alloc, None, rest)?;
        Ok((Change::Take(key), rest))
    } else {
        let (row, rest) = read_row(alloc, None, rest)?;
        Ok((Change::Put(row), rest))
    }
}

/// A row of a map, whose low bound stands above that of the row before.
#[tactic(auto, unfolding(crate::specs::Reading::range_row_at))]
fn read_range_row<'a>(
    alloc: Global,
    before: Option<&RangeRow>,
    bytes: &'a [u8],
) -> Result<(RangeRow, &'a [u8]), Stop>
    ensures { Gives (λ x. (x.0, x.1.now)) result (range_row_at (option_copied before.entry) bytes.now) }
{
    let (range, rest) = read_u64(bytes)?;
    let (server, rest) = read_byte(rest)?;
    let (lo, rest) = read_low_bound(alloc, before, rest)?;
    let (span, rest) = read_span_from(alloc, lo, rest)?;
    let row = RangeRow {
        range,
        server,
        span,
    };
    Ok((row, rest))
}

/// The low bound of a row of a map, above that of the row before.
#[tactic(auto, unfolding(crate::specs::Reading::low_bound_at))]
fn read_low_bound<'a>(
    alloc: Global,
    before: Option<&RangeRow>,
    bytes: &'a [u8],
) -> Result<(Bound, &'a [u8]), Stop>
    ensures { Gives (λ x. (x.0, x.1.now)) result (low_bound_at (option_map (λ (row : RangeRow). row.span.lo) (option_copied before.entry)) bytes.now) }
{
    if low_falls(before, bytes) {
        return Err(Stop::Broken(bytes.len()));
    }
    read_rising_bound(alloc, before, bytes)
}

/// Whether the table of a low bound tells that it does not stand above that of the row before.
#[tactic(auto, unfolding(crate::specs::Reading::low_falls))]
fn low_falls(before: Option<&RangeRow>, bytes: &[u8]) -> bool
    ensures { result ≡ low_falls (option_map (λ (row : RangeRow). row.span.lo) (option_copied before.entry)) bytes.now }
{
    let [0, rest @ ..] = bytes else {
        return false;
    };
    match (before, first_u64(rest)) {
        (Some(row), Some(table)) => match row.span.lo() {
            Bound::At(before, _) => table < *before,
            Bound::End => true,
        },
        _ => false,
    }
}

#[tactic(auto, unfolding(crate::specs::Reading::allowing))]
fn read_rising_bound<'a>(
    alloc: Global,
    before: Option<&RangeRow>,
    bytes: &'a [u8],
) -> Result<(Bound, &'a [u8]), Stop>
    ensures { Gives (λ x. (x.0, x.1.now)) result
        (allowing (bound_rises (option_map (λ (row : RangeRow). row.span.lo) (option_copied before.entry))) (bound_at None) bytes.now) }
{
    let (lo, rest) = read_bound(alloc, None, bytes)?;
    match before {
        Some(before) if *before.span.lo() >= lo => Err(Stop::Broken(bytes.len())),
        _ => Ok((lo, rest)),
    }
}

/// A name whose table has a number above the one before.
#[tactic(auto, unfolding(crate::specs::Reading::name_at))]
fn read_name<'a>(
    alloc: Global,
    before: Option<&(u64, TableName)>,
    bytes: &'a [u8],
) -> Result<((u64, TableName), &'a [u8]), Stop>
    ensures { Gives (λ x. (x.0, x.1.now)) result (name_at (option_copied before.entry) bytes.now) }
{
    let (table, rest) = read_table_number(before, bytes)?;
    let (name, rest) = read_table_name(alloc, rest)?;
    Ok(((table, name), rest))
}

#[tactic(auto, unfolding(crate::specs::Reading::allowing))]
fn read_table_number<'a>(
    before: Option<&(u64, TableName)>,
    bytes: &'a [u8],
) -> Result<(u64, &'a [u8]), Stop>
    ensures { Gives (λ x. (x.0, x.1.now)) result (allowing (number_rises (option_copied before.entry)) (number_at w64) bytes.now) }
{
    let (table, rest) = read_u64(bytes)?;
    match before {
        Some((before, _)) if *before >= table => Err(Stop::Broken(bytes.len())),
        _ => Ok((table, rest)),
    }
}
