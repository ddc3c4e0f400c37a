//! Values and properties, with the limits of one property: the types of Microsoft's Table service REST reference,
//! "Understanding the Table service data model", "Property types" (OData 3.0, part "Primitive data types"), and
//! names by Unicode Standard Annex 31.

ghost use Rattle.std.specs.Prelude.{◌≡◌, ◌≤◌, ◌<◌, ◌+◌, ◌*◌, ◌^◌, length, All, IsUtf8, FitsSigned, IfOk, IsTrue, None, chars};
ghost use Rattle.std.specs.Option.{option_map};
ghost use Rattle.std.specs.Int.{w32, w64};
ghost use Rattle.std.specs.List.{list_all};
ghost use Rattle.unicode_ident.specs.Ident.{is_xid_continue};
ghost use Rattle.tab_edm.specs.declared.values.TheConstants.{MOST_NAME_CHARACTERS, MOST_BINARY_BYTES};
ghost use Rattle.tab_edm.specs.Values.{IsValue, IsProperty, begins_name, is_valid_name, is_small, value_size, property_size};
ghost use Rattle.tab_edm.specs.Entities.{property_refusal, refused};

use crate::texts::{char_count, unit_count};
use crate::{BytesValue, Memory, TextValue};
use std::alloc::Global;
use unicode_ident::{is_xid_continue, is_xid_start};

/// The most UTF-16 code units of a text.
pub const MOST_TEXT_UNITS: usize = 32_768;

/// The most bytes of a binary value.
pub const MOST_BINARY_BYTES: usize = 65_536;

/// The most characters of a property's name.
pub const MOST_NAME_CHARACTERS: usize = 255;

/// The value of a property, in one of the seven kinds that are served.
#[derive(Debug, Drop)]
pub enum Value {
    /// Edm.String.
    Text(TextValue),
    /// Edm.Boolean.
    Flag(bool),
    /// Edm.Int32.
    Int32(i32),
    /// Edm.Int64.
    Int64(i64),
    /// Edm.DateTime, in ticks of 100 ns since 1601-01-01T00:00:00Z.
    Moment(u64),
    /// Edm.Guid.
    Guid([u8; 16]),
    /// Edm.Binary.
    Bytes(BytesValue),
}

impl Value {
    /// A copy in memory of its own.
    pub fn try_copy(&self, alloc: Global) -> Result<Value, Memory>
        ensures { IfOk result (λ copy. copy ≡ self.now) }
    {
        Ok(match self {
            Value::Text(text) => Value::Text(text.try_copy(alloc)?),
            Value::Flag(flag) => Value::Flag(*flag),
            Value::Int32(number) => Value::Int32(*number),
            Value::Int64(number) => Value::Int64(*number),
            Value::Moment(tick) => Value::Moment(*tick),
            Value::Guid(guid) => Value::Guid(*guid),
            Value::Bytes(bytes) => Value::Bytes(bytes.try_copy(alloc)?),
        })
    }

    /// What it is by its type. The walk over a Guid reads its bytes alone, and is compiled away.
    fn typed(&self)
        ensures { IsValue self.now }
    {
        match self {
            Value::Text(text) => read_text(text.as_str()),
            Value::Flag(_) => (),
            Value::Int32(number) => read_int32(*number),
            Value::Int64(number) => read_int64(*number),
            Value::Moment(tick) => read_tick(*tick),
            Value::Guid(guid) => read_guid(guid),
            Value::Bytes(bytes) => read_bytes(bytes.as_slice()),
        }
    }

    /// Whether it is within the limit of its kind.
    #[tactic(auto, unfolding(crate::specs::Values::is_small))]
    fn is_small(&self) -> bool
        ensures { result ≡ is_small self.now }
    {
        match self {
            Value::Text(text) => unit_count(text.as_str()) <= MOST_TEXT_UNITS,
            Value::Bytes(bytes) => bytes.as_slice().len() <= MOST_BINARY_BYTES,
            _ => true,
        }
    }

    /// The bytes that it counts for in an entity's size.
    #[tactic(auto, unfolding(crate::specs::Values::value_size, crate::specs::Values::is_small))]
    fn size(&self) -> u64
        requires { IsTrue (is_small self.now) }
        ensures value { result ≡ value_size self.now }
        ensures bound { result ≤ 4 + MOST_BINARY_BYTES }
    {
        match self {
            Value::Text(text) => 4 + 2 * unit_count(text.as_str()) as u64,
            Value::Flag(_) => 1,
            Value::Int32(_) => 4,
            Value::Int64(_) | Value::Moment(_) => 8,
            Value::Guid(_) => 16,
            Value::Bytes(bytes) => 4 + bytes.as_slice().len() as u64,
        }
    }
}

/// A property of an entity.
#[derive(Debug, Drop)]
pub struct Property {
    pub name: TextValue,
    pub value: Value,
}

impl Property {
    /// A copy in memory of its own.
    pub fn try_copy(&self, alloc: Global) -> Result<Property, Memory>
        ensures { IfOk result (λ copy. copy ≡ self.now) }
    {
        Ok(Property {
            name: self.name.try_copy(alloc)?,
            value: self.value.try_copy(alloc)?,
        })
    }

    /// The first limit that it breaks.
    #[tactic(auto, unfolding(crate::specs::Entities::property_refusal))]
    pub(crate) fn fault(&self) -> Option<PropertyFault>
        ensures fault { property_refusal self.now ≡ option_map (λ fault. refused fault self.now) result }
        ensures typed { IsProperty self.now }
    {
        self.value.typed();
        let name = self.name.as_str();
        if !is_identifier(name) {
            Some(PropertyFault::NameInvalid)
        } else if char_count(name) > MOST_NAME_CHARACTERS {
            Some(PropertyFault::NameTooLong)
        } else if !self.value.is_small() {
            Some(PropertyFault::ValueTooLarge)
        } else {
            None
        }
    }

    /// The bytes that it counts for in an entity's size.
    #[tactic(auto, using(crate::proofs::Sizes::within_limits, crate::proofs::Sizes::units_at_most), unfolding(crate::specs::Values::property_size))]
    pub(crate) fn size(&self) -> u64
        requires { property_refusal self.now ≡ None }
        ensures value { result ≡ property_size self.now }
        ensures bound { result ≤ 12 + 4 * MOST_NAME_CHARACTERS + MOST_BINARY_BYTES }
    {
        8 + 2 * unit_count(self.name.as_str()) as u64 + self.value.size()
    }
}

/// What may be wrong with one property.
#[derive(Clone, Copy, Debug, PartialEq, Eq)]
pub enum PropertyFault {
    NameInvalid,
    NameTooLong,
    ValueTooLarge,
}

fn read_text(_text: &str)
    ensures { IsUtf8 _text.now }
{}

fn read_int32(_number: i32)
    ensures { FitsSigned w32 _number }
{}

fn read_int64(_number: i64)
    ensures { FitsSigned w64 _number }
{}

fn read_tick(_tick: u64)
    ensures { _tick < 2 ^ 64 }
{}

fn read_bytes(_bytes: &[u8])
    ensures { All (λ b. b < 256) _bytes.now }
{}

fn read_guid(guid: &[u8; 16])
    ensures long { length guid.now ≡ 16 }
    ensures fit { All (λ b. b < 256) guid.now }
{
    for at in 0..16 {
        let _ = guid[at];
    }
}

/// Whether a name is an identifier of Unicode Standard Annex 31, or begins with `_` and goes on as one.
pub fn is_identifier(name: &str) -> bool
    ensures { result ≡ is_valid_name name.now }
{
    let mut chars = name.chars();
    match chars.next() {
        Some(first) => begins_name(first) && continues_name(chars.as_str()),
        None => false,
    }
}

fn begins_name(ch: char) -> bool
    ensures { result ≡ begins_name ch }
{
    is_xid_start(ch) || ch == '_'
}

fn continues_name(rest: &str) -> bool
    ensures { result ≡ list_all is_xid_continue (chars rest.now) }
{
    rest.chars().all(is_xid_continue)
}
