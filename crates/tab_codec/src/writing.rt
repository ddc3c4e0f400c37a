//! Writes the spellings of a frame's parts at the end of a buffer.

ghost use Rattle.std.specs.Prelude.{◌≡◌, ◌≤◌, ◌<◌, ◌^◌, ◌++◌, ◌∷◌, [], length, OnOk};
ghost use Rattle.std.specs.List.{flat_map, AllByRecursion};
ghost use Rattle.std.specs.Int.{w16, w32, w64, to_be_bytes};
ghost use Rattle.tab_edm.specs.declared.values.Value.{Value};
ghost use Rattle.tab_codec.specs.declared.frames.Frame.TheVariants as frames;
ghost use Rattle.tab_codec.specs.Spelling.{sized, bound_spelling, span_spelling, key_spelling, value_spelling, property_spelling, properties_spelling, row_spelling, change_spelling, range_row_spelling, name_spelling, body};
ghost use Rattle.tab_keys.specs.Keys.{IsKey};
ghost use Rattle.tab_rows.specs.Rows.{IsKept};
ghost use Rattle.tab_codec.specs.Frames.{IsBound, IsSpan, IsChange, IsRangeRow, IsTable, IsShort, IsOrderly, HasParts};

use crate::{Frame, RangeRow};
use std::alloc::AllocError;
use tab_edm::{Property, Value};
use tab_keys::{Bound, Key, Span, TableName};
use tab_rows::{Change, Row};

pub fn put_u32(out: &mut Vec<u8>, number: u32) -> Result<(), AllocError>
    ensures { OnOk result (out.new.items ≡ out.old.items ++ to_be_bytes w32 number) }
{
    out.extend_from_slice(&number.to_be_bytes())
}

fn put_u16(out: &mut Vec<u8>, number: u16) -> Result<(), AllocError>
    ensures { OnOk result (out.new.items ≡ out.old.items ++ to_be_bytes w16 number) }
{
    out.extend_from_slice(&number.to_be_bytes())
}

fn put_u64(out: &mut Vec<u8>, number: u64) -> Result<(), AllocError>
    ensures { OnOk result (out.new.items ≡ out.old.items ++ to_be_bytes w64 number) }
{
    out.extend_from_slice(&number.to_be_bytes())
}

/// A text or bytes, behind their length.
#[tactic(auto, unfolding(crate::specs::Spelling::sized))]
fn put_sized(out: &mut Vec<u8>, bytes: &[u8]) -> Result<(), AllocError>
    requires { IsShort (sized bytes.now) }
    ensures { OnOk result (out.new.items ≡ out.old.items ++ sized bytes.now) }
{
    put_u32(out, bytes.len() as u32)?;
    out.extend_from_slice(bytes)
}

#[tactic(auto, unfolding(crate::specs::Spelling::bound_spelling))]
fn put_bound(out: &mut Vec<u8>, bound: &Bound) -> Result<(), AllocError>
    requires { IsShort (bound_spelling bound.now) }
    ensures bytes { OnOk result (out.new.items ≡ out.old.items ++ bound_spelling bound.now) }
    ensures parts { OnOk result (IsBound bound.now) }
{
    match bound {
        Bound::At(table, pk) => {
            out.push(0)?;
            put_u64(out, *table)?;
            put_sized(out, pk.as_str().as_bytes())
        }
        Bound::End => out.extend_from_slice(&[1]),
    }
}

#[tactic(auto, unfolding(crate::specs::Spelling::span_spelling))]
fn put_span(out: &mut Vec<u8>, span: &Span) -> Result<(), AllocError>
    requires { IsShort (span_spelling span.now) }
    ensures bytes { OnOk result (out.new.items ≡ out.old.items ++ span_spelling span.now) }
    ensures parts { OnOk result (IsSpan span.now) }
{
    put_bound(out, span.lo())?;
    put_bound(out, span.hi())
}

#[tactic(auto, unfolding(crate::specs::Spelling::key_spelling))]
fn put_key(out: &mut Vec<u8>, key: &Key) -> Result<(), AllocError>
    requires { IsShort (key_spelling key.now) }
    ensures bytes { OnOk result (out.new.items ≡ out.old.items ++ key_spelling key.now) }
    ensures parts { OnOk result (IsKey key.now) }
{
    put_u64(out, key.table)?;
    put_sized(out, key.pk.as_str().as_bytes())?;
    put_sized(out, key.rk.as_str().as_bytes())
}

#[tactic(auto, unfolding(crate::specs::Spelling::value_spelling))]
fn put_value(out: &mut Vec<u8>, value: &Value) -> Result<(), AllocError>
    requires { IsShort (value_spelling value.now) }
    ensures { OnOk result (out.new.items ≡ out.old.items ++ value_spelling value.now) }
{
    match value {
        Value::Text(text) => {
            out.push(1)?;
            put_sized(out, text.as_str().as_bytes())
        }
        Value::Flag(flag) => out.extend_from_slice(&[2, *flag as u8]),
        Value::Int32(number) => {
            out.push(3)?;
            put_u32(out, number.cast_unsigned())
        }
        Value::Int64(number) => {
            out.push(4)?;
            put_u64(out, number.cast_unsigned())
        }
        Value::Moment(tick) => {
            out.push(5)?;
            put_u64(out, *tick)
        }
        Value::Guid(guid) => {
            out.push(6)?;
            out.extend_from_slice(guid)
        }
        Value::Bytes(bytes) => {
            out.push(7)?;
            put_sized(out, bytes.as_slice())
        }
    }
}

#[tactic(auto, unfolding(crate::specs::Spelling::property_spelling))]
fn put_property(out: &mut Vec<u8>, property: &Property) -> Result<(), AllocError>
    requires { IsShort (property_spelling property.now) }
    ensures { OnOk result (out.new.items ≡ out.old.items ++ property_spelling property.now) }
{
    put_sized(out, property.name.as_str().as_bytes())?;
    put_value(out, &property.value)
}

#[tactic(auto, unfolding(crate::specs::Spelling::row_spelling, crate::specs::Spelling::properties_spelling))]
fn put_row(out: &mut Vec<u8>, row: &Row) -> Result<(), AllocError>
    requires { IsShort (row_spelling row.now) }
    ensures bytes { OnOk result (out.new.items ≡ out.old.items ++ row_spelling row.now) }
    ensures parts { OnOk result (IsKept row.now) }
{
    row.kept();
    let properties = row.entity.properties();
    put_key(out, &row.key)?;
    put_u64(out, row.tick)?;
    put_u16(out, properties.len() as u16)?;
    put_properties(out, properties)
}

#[tactic(auto, unfolding(crate::specs::Spelling::change_spelling))]
fn put_change(out: &mut Vec<u8>, change: &Change) -> Result<(), AllocError>
    requires { IsShort (change_spelling change.now) }
    ensures bytes { OnOk result (out.new.items ≡ out.old.items ++ change_spelling change.now) }
    ensures parts { OnOk result (IsChange change.now) }
{
    match change {
        Change::Put(row) => {
            out.push(1)?;
            put_row(out, row)
        }
        Change::Take(key) => {
            out.push(0)?;
            put_key(out, key)
        }
    }
}

#[tactic(auto, unfolding(crate::specs::Spelling::range_row_spelling))]
fn put_range_row(out: &mut Vec<u8>, row: &RangeRow) -> Result<(), AllocError>
    requires { IsShort (range_row_spelling row.now) }
    ensures bytes { OnOk result (out.new.items ≡ out.old.items ++ range_row_spelling row.now) }
    ensures parts { OnOk result (IsRangeRow row.now) }
{
    put_u64(out, row.range)?;
    out.push(row.server)?;
    put_span(out, &row.span)
}

#[tactic(auto, unfolding(crate::specs::Spelling::name_spelling))]
fn put_name(out: &mut Vec<u8>, name: &(u64, TableName)) -> Result<(), AllocError>
    requires { IsShort (name_spelling name.now) }
    ensures bytes { OnOk result (out.new.items ≡ out.old.items ++ name_spelling name.now) }
    ensures parts { OnOk result (IsTable name.now) }
{
    put_u64(out, name.0)?;
    put_sized(out, name.1.as_str().as_bytes())
}

fn put_properties(out: &mut Vec<u8>, properties: &[Property]) -> Result<(), AllocError>
    requires { IsShort (flat_map property_spelling properties.now) }
    ensures { OnOk result (out.new.items ≡ out.old.items ++ flat_map property_spelling properties.now) }
{
    for property in properties {
        put_property(out, property)?;
    }
    Ok(())
}

fn put_rows(out: &mut Vec<u8>, rows: &[Row]) -> Result<(), AllocError>
    requires { IsShort (flat_map row_spelling rows.now) }
    ensures bytes { OnOk result (out.new.items ≡ out.old.items ++ flat_map row_spelling rows.now) }
    ensures parts { OnOk result (AllByRecursion IsKept rows.now) }
{
    for row in rows {
        put_row(out, row)?;
    }
    Ok(())
}

fn put_changes(out: &mut Vec<u8>, changes: &[Change]) -> Result<(), AllocError>
    requires { IsShort (flat_map change_spelling changes.now) }
    ensures bytes { OnOk result (out.new.items ≡ out.old.items ++ flat_map change_spelling changes.now) }
    ensures parts { OnOk result (AllByRecursion IsChange changes.now) }
{
    for change in changes {
        put_change(out, change)?;
    }
    Ok(())
}

fn put_range_rows(out: &mut Vec<u8>, range_rows: &[RangeRow]) -> Result<(), AllocError>
    requires { IsShort (flat_map range_row_spelling range_rows.now) }
    ensures bytes { OnOk result (out.new.items ≡ out.old.items ++ flat_map range_row_spelling range_rows.now) }
    ensures parts { OnOk result (AllByRecursion IsRangeRow range_rows.now) }
{
    for row in range_rows {
        put_range_row(out, row)?;
    }
    Ok(())
}

fn put_names(out: &mut Vec<u8>, names: &[(u64, TableName)]) -> Result<(), AllocError>
    requires { IsShort (flat_map name_spelling names.now) }
    ensures bytes { OnOk result (out.new.items ≡ out.old.items ++ flat_map name_spelling names.now) }
    ensures parts { OnOk result (AllByRecursion IsTable names.now) }
{
    for name in names {
        put_name(out, name)?;
    }
    Ok(())
}

fn put_numbers(out: &mut Vec<u8>, numbers: &[u64]) -> Result<(), AllocError>
    ensures bytes { OnOk result (out.new.items ≡ out.old.items ++ flat_map (to_be_bytes w64) numbers.now) }
    ensures parts { OnOk result (AllByRecursion (λ number. number < 2 ^ 64) numbers.now) }
{
    for number in numbers {
        put_u64(out, *number)?;
    }
    Ok(())
}

/// The body of a frame.
pub fn put_body(out: &mut Vec<u8>, frame: &Frame) -> Result<(), AllocError>
    requires short { IsShort (body frame.now) }
    requires orderly { IsOrderly frame.now }
    ensures bytes { OnOk result (out.new.items ≡ out.old.items ++ body frame.now) }
    ensures parts { OnOk result (HasParts frame.now) }
{
    match frame {
        Frame::Begin {
            range,
            span,
            next_tick,
        } => put_begin(out, *range, span, *next_tick),
        Frame::Rows { range, rows } => put_rows_frame(out, *range, rows.as_slice()),
        Frame::Whole { range, next_tick } => put_whole(out, *range, *next_tick),
        Frame::Change {
            range,
            next_tick,
            changes,
        } => put_change_frame(out, *range, *next_tick, changes.as_slice()),
        Frame::Map {
            next_range,
            next_plan,
            rows,
        } => put_map(out, *next_range, *next_plan, rows.as_slice()),
        Frame::Commit {
            plan,
            next_range,
            old_ranges,
            new_rows,
        } => put_commit(
            out,
            *plan,
            *next_range,
            old_ranges.as_slice(),
            new_rows.as_slice(),
        ),
        Frame::Names { next_table, names } => put_names_frame(out, *next_table, names.as_slice()),
        Frame::Create { table, name } => put_create(out, *table, name),
        Frame::Drop { table } => put_u64(out, *table),
    }
}

#[tactic(auto, unfolding(crate::specs::Spelling::body))]
fn put_begin(out: &mut Vec<u8>, range: u64, span: &Span, next_tick: u64) -> Result<(), AllocError>
    requires { IsShort (body (frames.Begin range span.now next_tick)) }
    ensures bytes { OnOk result (out.new.items ≡ out.old.items ++ body (frames.Begin range span.now next_tick)) }
    ensures parts { OnOk result (HasParts (frames.Begin range span.now next_tick)) }
{
    put_u64(out, range)?;
    put_span(out, span)?;
    put_u64(out, next_tick)
}

#[tactic(auto, unfolding(crate::specs::Spelling::body))]
fn put_rows_frame(out: &mut Vec<u8>, range: u64, rows: &[Row]) -> Result<(), AllocError>
    requires short { IsShort (body (frames.Rows range rows.now)) }
    requires count { length rows.now ≤ 1000 }
    ensures bytes { OnOk result (out.new.items ≡ out.old.items ++ body (frames.Rows range rows.now)) }
    ensures parts { OnOk result (HasParts (frames.Rows range rows.now)) }
{
    put_u64(out, range)?;
    put_u32(out, rows.len() as u32)?;
    put_rows(out, rows)
}

#[tactic(auto, unfolding(crate::specs::Spelling::body))]
fn put_whole(out: &mut Vec<u8>, range: u64, next_tick: u64) -> Result<(), AllocError>
    ensures bytes { OnOk result (out.new.items ≡ out.old.items ++ body (frames.Whole range next_tick)) }
    ensures parts { OnOk result (HasParts (frames.Whole range next_tick)) }
{
    put_u64(out, range)?;
    put_u64(out, next_tick)
}

#[tactic(auto, unfolding(crate::specs::Spelling::body))]
fn put_change_frame(
    out: &mut Vec<u8>,
    range: u64,
    next_tick: u64,
    changes: &[Change],
) -> Result<(), AllocError>
    requires short { IsShort (body (frames.Change range next_tick changes.now)) }
    requires count { length changes.now < 2 ^ 16 }
    ensures bytes { OnOk result (out.new.items ≡ out.old.items ++ body (frames.Change range next_tick changes.now)) }
    ensures parts { OnOk result (HasParts (frames.Change range next_tick changes.now)) }
{
    put_u64(out, range)?;
    put_u64(out, next_tick)?;
    put_u16(out, changes.len() as u16)?;
    put_changes(out, changes)
}

#[tactic(auto, unfolding(crate::specs::Spelling::body))]
fn put_map(
    out: &mut Vec<u8>,
    next_range: u64,
    next_plan: u64,
    rows: &[RangeRow],
) -> Result<(), AllocError>
    requires short { IsShort (body (frames.Map next_range next_plan rows.now)) }
    requires count { length rows.now < 2 ^ 32 }
    ensures bytes { OnOk result (out.new.items ≡ out.old.items ++ body (frames.Map next_range next_plan rows.now)) }
    ensures parts { OnOk result (HasParts (frames.Map next_range next_plan rows.now)) }
{
    put_u64(out, next_range)?;
    put_u64(out, next_plan)?;
    put_u32(out, rows.len() as u32)?;
    put_range_rows(out, rows)
}

#[tactic(auto, unfolding(crate::specs::Spelling::body))]
fn put_commit(
    out: &mut Vec<u8>,
    plan: u64,
    next_range: u64,
    old_ranges: &[u64],
    new_rows: &[RangeRow],
) -> Result<(), AllocError>
    requires short { IsShort (body (frames.Commit plan next_range old_ranges.now new_rows.now)) }
    requires old_ranges { length old_ranges.now < 2 ^ 8 }
    requires new_rows { length new_rows.now < 2 ^ 8 }
    ensures bytes { OnOk result (out.new.items ≡ out.old.items ++ body (frames.Commit plan next_range old_ranges.now new_rows.now)) }
    ensures parts { OnOk result (HasParts (frames.Commit plan next_range old_ranges.now new_rows.now)) }
{
    put_u64(out, plan)?;
    put_u64(out, next_range)?;
    put_ranges(out, old_ranges, new_rows)
}

#[tactic(auto, unfolding(crate::specs::Spelling::body))]
fn put_names_frame(
    out: &mut Vec<u8>,
    next_table: u64,
    names: &[(u64, TableName)],
) -> Result<(), AllocError>
    requires short { IsShort (body (frames.Names next_table names.now)) }
    requires count { length names.now < 2 ^ 32 }
    ensures bytes { OnOk result (out.new.items ≡ out.old.items ++ body (frames.Names next_table names.now)) }
    ensures parts { OnOk result (HasParts (frames.Names next_table names.now)) }
{
    put_u64(out, next_table)?;
    put_u32(out, names.len() as u32)?;
    put_names(out, names)
}

#[tactic(auto, unfolding(crate::specs::Spelling::body))]
fn put_create(out: &mut Vec<u8>, table: u64, name: &TableName) -> Result<(), AllocError>
    requires { IsShort (body (frames.Create table name.now)) }
    ensures bytes { OnOk result (out.new.items ≡ out.old.items ++ body (frames.Create table name.now)) }
    ensures parts { OnOk result (HasParts (frames.Create table name.now)) }
{
    put_u64(out, table)?;
    put_sized(out, name.as_str().as_bytes())
}

/// The old ranges and the new rows of a commit, each behind their count.
fn put_ranges(
    out: &mut Vec<u8>,
    old_ranges: &[u64],
    new_rows: &[RangeRow],
) -> Result<(), AllocError>
    requires old_ranges { length old_ranges.now < 2 ^ 8 }
    requires new_rows { length new_rows.now < 2 ^ 8 }
    requires short { IsShort (flat_map range_row_spelling new_rows.now) }
    ensures bytes { OnOk result (out.new.items ≡ out.old.items
        ++ (length old_ranges.now ∷ flat_map (to_be_bytes w64) old_ranges.now ++ length new_rows.now ∷ flat_map range_row_spelling new_rows.now)) }
    ensures parts { OnOk result (AllByRecursion (λ number. number < 2 ^ 64) old_ranges.now × AllByRecursion IsRangeRow new_rows.now) }
{
    out.push(old_ranges.len() as u8)?;
    put_numbers(out, old_ranges)?;
    out.push(new_rows.len() as u8)?;
    put_range_rows(out, new_rows)
}
