//! How many bytes the spellings of a frame's parts have.

ghost use Rattle.std.specs.Prelude.{◌≡◌, ◌≤◌, length};
ghost use Rattle.std.specs.List.{flat_map};
ghost use Rattle.std.specs.Int.{w64, to_be_bytes};
ghost use Rattle.tab_codec.specs.Spelling.{bound_spelling, span_spelling, key_spelling, value_spelling, property_spelling, properties_spelling, row_spelling, change_spelling, range_row_spelling, name_spelling, body};
ghost use Rattle.tab_codec.specs.Frames.{IsShort};

use crate::{Frame, RangeRow};
use tab_edm::{Property, Value};
use tab_keys::{Bound, Key, Span, TableName};
use tab_rows::{Change, Row};

#[tactic(auto, unfolding(crate::specs::Spelling::bound_spelling, crate::specs::Spelling::sized))]
fn bound_size(bound: &Bound) -> usize
    requires { IsShort (bound_spelling bound.now) }
    ensures { result ≡ length (bound_spelling bound.now) }
{
    match bound {
        Bound::At(_, pk) => 13 + pk.as_str().len(),
        Bound::End => 1,
    }
}

#[tactic(auto, unfolding(crate::specs::Spelling::span_spelling))]
fn span_size(span: &Span) -> usize
    requires { IsShort (span_spelling span.now) }
    ensures { result ≡ length (span_spelling span.now) }
{
    bound_size(span.lo()) + bound_size(span.hi())
}

#[tactic(auto, unfolding(crate::specs::Spelling::key_spelling, crate::specs::Spelling::sized))]
fn key_size(key: &Key) -> usize
    requires { IsShort (key_spelling key.now) }
    ensures { result ≡ length (key_spelling key.now) }
{
    16 + key.pk.as_str().len() + key.rk.as_str().len()
}

#[tactic(auto, unfolding(crate::specs::Spelling::value_spelling, crate::specs::Spelling::sized))]
fn value_size(value: &Value) -> usize
    requires { IsShort (value_spelling value.now) }
    ensures { result ≡ length (value_spelling value.now) }
{
    match value {
        Value::Text(text) => 5 + text.as_str().len(),
        Value::Flag(_) => 2,
        Value::Int32(_) => 5,
        Value::Int64(_) | Value::Moment(_) => 9,
        Value::Guid(guid) => 1 + guid.as_slice().len(),
        Value::Bytes(bytes) => 5 + bytes.as_slice().len(),
    }
}

#[tactic(auto, unfolding(crate::specs::Spelling::property_spelling, crate::specs::Spelling::sized))]
fn property_size(property: &Property) -> usize
    requires { IsShort (property_spelling property.now) }
    ensures { result ≡ length (property_spelling property.now) }
{
    4 + property.name.as_str().len() + value_size(&property.value)
}

/// How many bytes a row takes in a frame.
#[tactic(auto, unfolding(crate::specs::Spelling::row_spelling, crate::specs::Spelling::properties_spelling))]
pub fn row_size(row: &Row) -> usize
    requires { IsShort (row_spelling row.now) }
    ensures { result ≡ length (row_spelling row.now) }
{
    let properties = row.entity.properties();
    key_size(&row.key) + 10 + properties_size(properties)
}

#[tactic(auto, unfolding(crate::specs::Spelling::change_spelling))]
fn change_size(change: &Change) -> usize
    requires { IsShort (change_spelling change.now) }
    ensures { result ≡ length (change_spelling change.now) }
{
    match change {
        Change::Put(row) => 1 + row_size(row),
        Change::Take(key) => 1 + key_size(key),
    }
}

#[tactic(auto, unfolding(crate::specs::Spelling::range_row_spelling))]
fn range_row_size(row: &RangeRow) -> usize
    requires { IsShort (range_row_spelling row.now) }
    ensures { result ≡ length (range_row_spelling row.now) }
{
    9 + span_size(&row.span)
}

#[tactic(auto, unfolding(crate::specs::Spelling::name_spelling, crate::specs::Spelling::sized))]
fn name_size(name: &(u64, TableName)) -> usize
    requires { IsShort (name_spelling name.now) }
    ensures { result ≡ length (name_spelling name.now) }
{
    12 + name.1.as_str().len()
}

#[tactic(auto, using(crate::proofs::Sums::spelled_more, crate::proofs::Sums::part_within))]
fn properties_size(properties: &[Property]) -> usize
    requires { IsShort (flat_map property_spelling properties.now) }
    ensures { result ≡ length (flat_map property_spelling properties.now) }
{
    let mut size = 0;
    for property in properties {
        size += property_size(property);
    }
    size
}

#[tactic(auto, using(crate::proofs::Sums::spelled_more, crate::proofs::Sums::part_within))]
fn rows_size(rows: &[Row]) -> usize
    requires { IsShort (flat_map row_spelling rows.now) }
    ensures { result ≡ length (flat_map row_spelling rows.now) }
{
    let mut size = 0;
    for row in rows {
        size += row_size(row);
    }
    size
}

#[tactic(auto, using(crate::proofs::Sums::spelled_more, crate::proofs::Sums::part_within))]
fn changes_size(changes: &[Change]) -> usize
    requires { IsShort (flat_map change_spelling changes.now) }
    ensures { result ≡ length (flat_map change_spelling changes.now) }
{
    let mut size = 0;
    for change in changes {
        size += change_size(change);
    }
    size
}

#[tactic(auto, using(crate::proofs::Sums::spelled_more, crate::proofs::Sums::part_within))]
fn range_rows_size(range_rows: &[RangeRow]) -> usize
    requires { IsShort (flat_map range_row_spelling range_rows.now) }
    ensures { result ≡ length (flat_map range_row_spelling range_rows.now) }
{
    let mut size = 0;
    for row in range_rows {
        size += range_row_size(row);
    }
    size
}

#[tactic(auto, using(crate::proofs::Sums::spelled_more, crate::proofs::Sums::part_within))]
fn names_size(names: &[(u64, TableName)]) -> usize
    requires { IsShort (flat_map name_spelling names.now) }
    ensures { result ≡ length (flat_map name_spelling names.now) }
{
    let mut size = 0;
    for name in names {
        size += name_size(name);
    }
    size
}

#[tactic(auto, using(crate::proofs::Sums::numbers_long))]
fn numbers_size(numbers: &[u64]) -> usize
    requires { IsShort (flat_map (to_be_bytes w64) numbers.now) }
    ensures { result ≡ length (flat_map (to_be_bytes w64) numbers.now) }
{
    8 * numbers.len()
}

/// How many bytes the body of a frame has.
#[tactic(auto, unfolding(crate::specs::Spelling::body, crate::specs::Spelling::sized))]
pub fn body_size(frame: &Frame) -> usize
    requires { IsShort (body frame.now) }
    ensures { result ≡ length (body frame.now) }
{
    match frame {
        Frame::Begin { span, .. } => 16 + span_size(span),
        Frame::Rows { rows, .. } => 12 + rows_size(rows.as_slice()),
        Frame::Whole { .. } => 16,
        Frame::Change { changes, .. } => 18 + changes_size(changes.as_slice()),
        Frame::Map { rows, .. } => 20 + range_rows_size(rows.as_slice()),
        Frame::Commit {
            old_ranges,
            new_rows,
            ..
        } => 18 + numbers_size(old_ranges.as_slice()) + range_rows_size(new_rows.as_slice()),
        Frame::Names { names, .. } => 12 + names_size(names.as_slice()),
        Frame::Create { name, .. } => 12 + name.as_str().len(),
        Frame::Drop { .. } => 8,
    }
}
