//! Reads entities, within their limits, and rows.

ghost use Rattle.std.specs.Prelude.{◌≡◌, ◌≤◌, ◌<◌, ◌+◌, IfOk, MatchResult, nat_le};
ghost use Rattle.std.specs.Option.{option_map, option_copied};
ghost use Rattle.std.specs.Int.{w16};
ghost use Rattle.tab_edm.specs.Texts.{unit_count};
ghost use Rattle.tab_edm.specs.Values.{is_reserved, value_size, property_size};
ghost use Rattle.tab_edm.specs.declared.entities.TheConstants.{MOST_PROPERTIES, MOST_SIZE};
ghost use Rattle.tab_edm.specs.declared.values.Property.{Property};
ghost use Rattle.tab_rows.specs.Rows.{RowView};
ghost use Rattle.tab_codec.specs.Reading.{Gives, allowing, number_at, is_property_name, name_rises, value_within, value_at, property_name_at, property_at, count_on, items_at, entity_at, row_at};

use crate::fields::{
    read_case, read_guid, read_sized, read_text, read_tick, read_u16, read_u32, read_u64,
};
use crate::keys::read_key;
use crate::stops::Stop;
use std::alloc::Global;
use tab_edm::{
    BytesValue, Entity, MOST_BINARY_BYTES, MOST_NAME_CHARACTERS, MOST_PROPERTIES, MOST_SIZE,
    MOST_TEXT_UNITS, Property, TextValue, Value, char_count, is_identifier, unit_count,
};
use tab_keys::Key;
use tab_rows::Row;

/// The row above the one before.
#[tactic(auto, using(crate::proofs::KeyLaws::few_units), unfolding(crate::specs::Reading::row_at))]
pub fn read_row<'a>(
    alloc: Global,
    before: Option<&Row>,
    bytes: &'a [u8],
) -> Result<(Row, &'a [u8]), Stop>
    ensures { Gives (λ x. (x.0, x.1.now)) result (row_at (option_copied before.entry) bytes.now) }
{
    let (key, rest) = read_key(alloc, key_of(before), bytes)?;
    let (tick, rest) = read_tick(rest)?;
    let (entity, rest) = read_entity(alloc, key.pk.units(), key.rk.units(), rest)?;
    Ok((Row { key, entity, tick }, rest))
}

fn key_of(row: Option<&Row>) -> Option<&Key>
    ensures { option_copied result ≡ option_map (λ (row : RowView). row.key) (option_copied row.entry) }
{
    match row {
        Some(row) => Some(&row.key),
        None => None,
    }
}

/// The entity of a row whose keys have these numbers of UTF-16 code units.
#[tactic(auto, unfolding(crate::specs::Reading::entity_at))]
fn read_entity(
    alloc: Global,
    pk_units: usize,
    rk_units: usize,
    bytes: &[u8],
) -> Result<(Entity, &[u8]), Stop>
    requires pk { pk_units ≤ 1024 }
    requires rk { rk_units ≤ 1024 }
    ensures read { Gives (λ x. (x.0, x.1.now)) result (entity_at pk_units rk_units bytes.now) }
    ensures units { IfOk result (λ x. (x.0.pk_units ≡ pk_units) × (x.0.rk_units ≡ rk_units)) }
{
    let (count, rest) = read_property_count(bytes)?;
    let size = 4 + 2 * (pk_units + rk_units);
    let (properties, rest) = read_properties(alloc, size, count, rest)?;
    match Entity::new(alloc, pk_units, rk_units, properties) {
        Ok(entity) => Ok((entity, rest)),
        Err(_) => Err(Stop::Memory),
    }
}

#[tactic(auto, unfolding(crate::specs::Reading::allowing))]
fn read_property_count(bytes: &[u8]) -> Result<(u16, &[u8]), Stop>
    ensures { Gives (λ x. (x.0, x.1.now)) result (allowing (λ count. nat_le count MOST_PROPERTIES) (number_at w16) bytes.now) }
{
    let (count, rest) = read_u16(bytes)?;
    if count as usize <= MOST_PROPERTIES {
        Ok((count, rest))
    } else {
        Err(Stop::Broken(bytes.len()))
    }
}

/// So many properties of an entity that counts for this size without them.
fn read_properties(
    alloc: Global,
    size: usize,
    count: u16,
    bytes: &[u8],
) -> Result<(Vec<Property>, &[u8]), Stop>
    requires { size ≤ MOST_SIZE }
    ensures { Gives (λ x. (x.0.items, x.1.now)) result (items_at property_at count_on (record { name = None; size = size }) count bytes.now) }
{
    let mut properties = Vec::new(alloc);
    let mut size = size;
    let mut rest = bytes;
    for _ in 0..count {
        let (property, counted, after) = read_property(alloc, properties.last(), size, rest)?;
        properties.push(property)?;
        size = counted;
        rest = after;
    }
    Ok((properties, rest))
}

/// A property whose name comes after the one before, and the size of its entity up to it.
#[tactic(auto, unfolding(crate::specs::Reading::property_at, tab_edm::specs::Values::property_size))]
fn read_property<'a>(
    alloc: Global,
    before: Option<&Property>,
    size: usize,
    bytes: &'a [u8],
) -> Result<(Property, usize, &'a [u8]), Stop>
    requires { size ≤ MOST_SIZE }
    ensures read { Gives (λ x. (x.0, x.2.now)) result
        (property_at (record { name = option_map (λ (p : Property). p.name) (option_copied before.entry); size = size }) bytes.now) }
    ensures size { IfOk result (λ x. (x.1 ≡ size + property_size x.0) × (x.1 ≤ MOST_SIZE)) }
{
    let (name, rest) = read_property_name(before, bytes)?;
    let size = size + (8 + 2 * unit_count(name));
    let (value, size, rest) = read_value(alloc, size, rest)?;
    let name = TextValue::new(String::from_str(alloc, name)?);
    Ok((Property { name, value }, size, rest))
}

#[tactic(auto, using(crate::proofs::TextLaws::short_name), unfolding(crate::specs::Reading::property_name_at, crate::specs::Reading::allowing))]
fn read_property_name<'a>(
    before: Option<&Property>,
    bytes: &'a [u8],
) -> Result<(&'a str, &'a [u8]), Stop>
    ensures name { Gives (λ x. (x.0.now, x.1.now)) result (property_name_at (option_map (λ (p : Property). p.name) (option_copied before.entry)) bytes.now) }
    ensures units { IfOk result (λ x. unit_count x.0.now ≤ 510) }
{
    let (name, rest) = read_text(bytes)?;
    if is_property_name(name) && name_rises(before, name) {
        Ok((name, rest))
    } else {
        Err(Stop::Broken(bytes.len()))
    }
}

fn is_property_name(name: &str) -> bool
    ensures { result ≡ is_property_name name.now }
{
    is_identifier(name) && char_count(name) <= MOST_NAME_CHARACTERS && !is_reserved(name)
}

fn is_reserved(name: &str) -> bool
    ensures { result ≡ is_reserved name.now }
{
    matches!(name, "PartitionKey" | "RowKey" | "Timestamp")
}

fn name_rises(before: Option<&Property>, name: &str) -> bool
    ensures { result ≡ name_rises (option_map (λ (p : Property). p.name) (option_copied before.entry)) name.now }
{
    match before {
        Some(before) => before.name.as_str() < name,
        None => true,
    }
}

/// A value, and the size of its entity up to it, which is this much before it.
#[tactic(auto, unfolding(crate::specs::Reading::value_at))]
fn read_value(alloc: Global, size: usize, bytes: &[u8]) -> Result<(Value, usize, &[u8]), Stop>
    requires { size ≤ 1_100_000 }
    ensures read { Gives (λ x. (x.0, x.2.now)) result (value_at size bytes.now) }
    ensures size { IfOk result (λ x. (x.1 ≡ size + value_size x.0) × (x.1 ≤ MOST_SIZE)) }
{
    let (which, rest) = read_case(1, 7, bytes)?;
    match which {
        1 => read_text_value(alloc, size, rest),
        2 => read_flag(size, rest),
        3 => read_int32(size, rest),
        4 => read_int64(size, rest),
        5 => read_moment(size, rest),
        6 => read_guid_value(size, rest),
        7 => read_bytes_value(alloc, size, rest),
        _ => Err(Stop::Broken(bytes.len())),
    }
}

/// The size of an entity with a value of this size, if it is within the limit; else so many bytes are left.
fn grown(size: usize, value: usize, left: usize) -> Result<usize, Stop>
    requires size { size ≤ 1_100_000 }
    requires value { value ≤ 1_100_000 }
    ensures { MatchResult result
        (λ grown. (grown ≡ size + value) × (grown ≤ MOST_SIZE))
        (λ stop. (stop ≡ Stop.Broken left) × (MOST_SIZE < size + value)) }
{
    if (size + value) as u128 <= MOST_SIZE {
        Ok(size + value)
    } else {
        Err(Stop::Broken(left))
    }
}

#[tactic(auto, unfolding(crate::specs::Reading::value_within, crate::specs::Reading::value_of, crate::specs::Reading::allowing, tab_edm::specs::Values::is_small, tab_edm::specs::Values::value_size))]
fn read_text_value(alloc: Global, size: usize, bytes: &[u8]) -> Result<(Value, usize, &[u8]), Stop>
    requires { size ≤ 1_100_000 }
    ensures read { Gives (λ x. (x.0, x.2.now)) result (value_within size 1 bytes.now) }
    ensures size { IfOk result (λ x. (x.1 ≡ size + value_size x.0) × (x.1 ≤ MOST_SIZE)) }
{
    let (text, rest) = read_text(bytes)?;
    let units = unit_count(text);
    if units > MOST_TEXT_UNITS {
        return Err(Stop::Broken(bytes.len()));
    }
    let size = grown(size, 4 + 2 * units, bytes.len())?;
    let text = TextValue::new(String::from_str(alloc, text)?);
    Ok((Value::Text(text), size, rest))
}

#[tactic(auto, unfolding(crate::specs::Reading::value_within, crate::specs::Reading::value_of, crate::specs::Reading::allowing, tab_edm::specs::Values::is_small, tab_edm::specs::Values::value_size))]
fn read_flag(size: usize, bytes: &[u8]) -> Result<(Value, usize, &[u8]), Stop>
    requires { size ≤ 1_100_000 }
    ensures read { Gives (λ x. (x.0, x.2.now)) result (value_within size 2 bytes.now) }
    ensures size { IfOk result (λ x. (x.1 ≡ size + value_size x.0) × (x.1 ≤ MOST_SIZE)) }
{
    let (flag, rest) = read_case(0, 1, bytes)?;
    let size = grown(size, 1, bytes.len())?;
    Ok((Value::Flag(flag == 1), size, rest))
}

#[tactic(auto, unfolding(crate::specs::Reading::value_within, crate::specs::Reading::value_of, crate::specs::Reading::allowing, tab_edm::specs::Values::is_small, tab_edm::specs::Values::value_size))]
fn read_int32(size: usize, bytes: &[u8]) -> Result<(Value, usize, &[u8]), Stop>
    requires { size ≤ 1_100_000 }
    ensures read { Gives (λ x. (x.0, x.2.now)) result (value_within size 3 bytes.now) }
    ensures size { IfOk result (λ x. (x.1 ≡ size + value_size x.0) × (x.1 ≤ MOST_SIZE)) }
{
    let (number, rest) = read_u32(bytes)?;
    let size = grown(size, 4, bytes.len())?;
    Ok((Value::Int32(number.cast_signed()), size, rest))
}

#[tactic(auto, unfolding(crate::specs::Reading::value_within, crate::specs::Reading::value_of, crate::specs::Reading::allowing, tab_edm::specs::Values::is_small, tab_edm::specs::Values::value_size))]
fn read_int64(size: usize, bytes: &[u8]) -> Result<(Value, usize, &[u8]), Stop>
    requires { size ≤ 1_100_000 }
    ensures read { Gives (λ x. (x.0, x.2.now)) result (value_within size 4 bytes.now) }
    ensures size { IfOk result (λ x. (x.1 ≡ size + value_size x.0) × (x.1 ≤ MOST_SIZE)) }
{
    let (number, rest) = read_u64(bytes)?;
    let size = grown(size, 8, bytes.len())?;
    Ok((Value::Int64(number.cast_signed()), size, rest))
}

#[tactic(auto, unfolding(crate::specs::Reading::value_within, crate::specs::Reading::value_of, crate::specs::Reading::allowing, tab_edm::specs::Values::is_small, tab_edm::specs::Values::value_size))]
fn read_moment(size: usize, bytes: &[u8]) -> Result<(Value, usize, &[u8]), Stop>
    requires { size ≤ 1_100_000 }
    ensures read { Gives (λ x. (x.0, x.2.now)) result (value_within size 5 bytes.now) }
    ensures size { IfOk result (λ x. (x.1 ≡ size + value_size x.0) × (x.1 ≤ MOST_SIZE)) }
{
    let (tick, rest) = read_tick(bytes)?;
    let size = grown(size, 8, bytes.len())?;
    Ok((Value::Moment(tick), size, rest))
}

#[tactic(auto, unfolding(crate::specs::Reading::value_within, crate::specs::Reading::value_of, crate::specs::Reading::allowing, tab_edm::specs::Values::is_small, tab_edm::specs::Values::value_size))]
fn read_guid_value(size: usize, bytes: &[u8]) -> Result<(Value, usize, &[u8]), Stop>
    requires { size ≤ 1_100_000 }
    ensures read { Gives (λ x. (x.0, x.2.now)) result (value_within size 6 bytes.now) }
    ensures size { IfOk result (λ x. (x.1 ≡ size + value_size x.0) × (x.1 ≤ MOST_SIZE)) }
{
    let (guid, rest) = read_guid(bytes)?;
    let size = grown(size, 16, bytes.len())?;
    Ok((Value::Guid(guid), size, rest))
}

#[tactic(auto, unfolding(crate::specs::Reading::value_within, crate::specs::Reading::value_of, crate::specs::Reading::allowing, tab_edm::specs::Values::is_small, tab_edm::specs::Values::value_size))]
fn read_bytes_value(alloc: Global, size: usize, bytes: &[u8]) -> Result<(Value, usize, &[u8]), Stop>
    requires { size ≤ 1_100_000 }
    ensures read { Gives (λ x. (x.0, x.2.now)) result (value_within size 7 bytes.now) }
    ensures size { IfOk result (λ x. (x.1 ≡ size + value_size x.0) × (x.1 ≤ MOST_SIZE)) }
{
    let (value, rest) = read_sized(bytes)?;
    if value.len() > MOST_BINARY_BYTES {
        return Err(Stop::Broken(bytes.len()));
    }
    let size = grown(size, 4 + value.len(), bytes.len())?;
    let value = BytesValue::new(Vec::from_slice(alloc, value)?);
    Ok((Value::Bytes(value), size, rest))
}
