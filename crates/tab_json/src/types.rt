//! The types of OData that the service has (the Table service REST reference, "Understanding the Table service data model"), and the
//! values that JSON values stand for.
ghost use Rattle.std.specs.Prelude.{◌≡◌, ◌↔◌, ℤ, Some, IfOk, IfSome, FitsSigned};
ghost use Rattle.std.specs.Int.{w64};
ghost use Rattle.std.specs.Fmt.{signed_decimal};
ghost use Rattle.serde_json.specs.View.{view};
ghost use Rattle.uuid.specs.Text.{parsed};
ghost use Rattle.tab_edm.specs.Values.{IsInTime};
ghost use Rattle.tab_json.specs.Lent.{lent_data};
ghost use Rattle.tab_json.specs.Values.{named_type, own_type, int32_of, int64_of, value_as};

use crate::lent::Lent;
use itoa::Buffer;
use serde_json::Value as Json;
use std::alloc::Global;
use tab_edm::{BytesValue, Memory, TextValue, Value, read_moment};
use uuid::Uuid;

/// A type of OData that a property may have.
#[derive(Clone, Copy, Debug, PartialEq, Eq)]
pub enum EdmType {
    String,
    Boolean,
    Int32,
    Int64,
    DateTime,
    Guid,
    Binary,
}

/// The type of this name.
#[tactic(auto, unfolding(crate::specs::Values::named_type))]
pub(crate) fn named_type(name: &str) -> Option<EdmType>
    ensures { result ≡ named_type name.now }
{
    match name {
        "Edm.String" => Some(EdmType::String),
        "Edm.Boolean" => Some(EdmType::Boolean),
        "Edm.Int32" => Some(EdmType::Int32),
        "Edm.Int64" => Some(EdmType::Int64),
        "Edm.DateTime" => Some(EdmType::DateTime),
        "Edm.Guid" => Some(EdmType::Guid),
        "Edm.Binary" => Some(EdmType::Binary),
        _ => None,
    }
}

/// The type of a JSON value beside which no type is named.
pub(crate) fn own_type(value: &Lent) -> Option<EdmType>
    ensures { result ≡ own_type (lent_data value.now) }
{
    match value {
        Lent::Text(_) => Some(EdmType::String),
        Lent::Flag(_) => Some(EdmType::Boolean),
        Lent::Number(_) => Some(EdmType::Int32),
        Lent::Null => None,
        Lent::Tree(value) => tree_type(value),
    }
}

fn tree_type(value: &Json) -> Option<EdmType>
    ensures { result ≡ own_type (view value.now) }
{
    match value {
        Json::String(_) => Some(EdmType::String),
        Json::Bool(_) => Some(EdmType::Boolean),
        Json::Number(_) => Some(EdmType::Int32),
        Json::Null | Json::Array(_) | Json::Object(_) => None,
    }
}

/// The value of this type that a JSON value stands for.
#[tactic(auto, unfolding(crate::specs::Values::value_as))]
pub(crate) fn value_as(
    alloc: Global,
    edm_type: EdmType,
    value: &Lent,
) -> Result<Option<Value>, Memory>
    ensures value { IfOk result (λ found. found ≡ value_as edm_type (lent_data value.now)) }
    ensures in_time { IfOk result (λ found. IfSome found IsInTime) }
{
    Ok(match edm_type {
        EdmType::String => match value.as_str() {
            Some(text) => Some(Value::Text(text_value(alloc, text)?)),
            None => None,
        },
        EdmType::Boolean => value.as_bool().map(Value::Flag),
        EdmType::Int32 => int32_of(value).map(Value::Int32),
        EdmType::Int64 => value.as_str().and_then(int64_of).map(Value::Int64),
        EdmType::DateTime => match value.as_str() {
            Some(text) => read_moment(text).map(Value::Moment),
            None => None,
        },
        EdmType::Guid => value.as_str().and_then(guid_of).map(Value::Guid),
        EdmType::Binary => match value.as_str() {
            Some(text) => BytesValue::from_base64(alloc, text)?.map(Value::Bytes),
            None => None,
        },
    })
}

/// A copy of a text.
pub(crate) fn text_value(alloc: Global, text: &str) -> Result<TextValue, Memory>
    ensures { IfOk result (λ value. value ≡ text.now) }
{
    Ok(TextValue::new(String::from_str(alloc, text)?))
}

fn int32_of(value: &Lent) -> Option<i32>
    ensures { result ≡ int32_of (lent_data value.now) }
{
    match value.as_i64() {
        Some(number) => i32::try_from(number).ok(),
        None => None,
    }
}

/// The whole number whose decimal text this is.
pub(crate) fn int64_of(text: &str) -> Option<i64>
    ensures value { result ≡ int64_of text.now }
    ensures exact { (z : ℤ) → (result ≡ Some z) ↔ ((text.now ≡ signed_decimal z) × FitsSigned w64 z) }
{
    let Ok(number) = text.parse::<i64>() else {
        return None;
    };
    // What `parse` takes beyond it, as a plus or a leading zero, is written otherwise.
    let mut buffer = Buffer::new();
    if buffer.format(number) == text {
        Some(number)
    } else {
        None
    }
}

fn guid_of(text: &str) -> Option<[u8; 16]>
    ensures { result ≡ parsed text.now }
{
    match Uuid::parse_str(text) {
        Ok(id) => Some(id.into_bytes()),
        Err(_) => None,
    }
}
