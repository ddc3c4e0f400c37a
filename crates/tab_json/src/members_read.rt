//! What the members of a body that is read mean (OData 3.0, JSON Format, "Representing an Entity"; the types by their
//! annotations, "odata.type Annotation").
ghost use Rattle.std.specs.Prelude.{◌≡◌, ◌≢◌, IfOk, IfSome, MatchResult, Ok, Err, option_map, option_and_then, option_copied};
ghost use Rattle.tab_keys.specs.KeyTexts.{key_refusal};
ghost use Rattle.tab_keys.specs.Results.{Gives};
ghost use Rattle.tab_edm.specs.Values.{IsInTime};
ghost use Rattle.tab_json.specs.Lent.{lent_data, lent_object};
ghost use Rattle.tab_json.specs.Bodies.{is_ignored, annotated_by, names_value, is_present, is_given, type_in, type_by, type_of, value_of, text_as, text_of, key_or_refusal, key_by, property_by, annotation_meaning, value_meaning, meaning_of, IsTimely};

use crate::JsonRefused;
use crate::lent::{Lent, LentMembers};
use crate::slots::{ANNOTATION, Name};
use crate::types::{EdmType, named_type, own_type, text_value, value_as};
use std::alloc::Global;
use tab_edm::{Memory, Property, Value};
use tab_keys::{KeyRefused, KeyText};

/// What a member of a body means, if it is not refused.
#[derive(Debug, Drop)]
pub enum Meaning {
    /// It is passed over, is null, or annotates another member.
    Nothing,
    PartitionKey(KeyText),
    RowKey(KeyText),
    Property(Property),
}

/// What the member of a body with this name and value means.
#[tactic(auto, unfolding(crate::specs::Bodies::meaning_of, crate::specs::Bodies::annotated_by))]
pub(crate) fn meaning_of(
    alloc: Global,
    body: &LentMembers,
    name: &str,
    value: &Lent,
) -> Result<Meaning, JsonRefused>
    ensures meaning { Gives JsonRefused.Memory (λ meaning. meaning) result (meaning_of (lent_object body.now) name.now (lent_data value.now)) }
    ensures in_time { IfOk result IsTimely }
{
    if is_ignored(name) {
        return Ok(Meaning::Nothing);
    }
    match annotated_by(name) {
        Some(annotated) => annotation_meaning(alloc, body, annotated, value),
        None => value_meaning(alloc, body, name, value),
    }
}

fn is_ignored(name: &str) -> bool
    ensures { result ≡ is_ignored name.now }
{
    name.starts_with("odata.") || name == "Timestamp" || name == "Timestamp@odata.type"
}

/// The name that a name annotates.
#[tactic(auto, unfolding(crate::specs::Bodies::annotated_by))]
fn annotated_by(name: &str) -> Option<&str>
    ensures { option_copied result ≡ annotated_by name.now }
{
    name.strip_suffix(ANNOTATION)
}

/// Whether a body gives the key or the property of this name.
fn is_given(body: &LentMembers, name: &str) -> bool
    ensures { result ≡ is_given (lent_object body.now) name.now }
{
    names_value(name) && is_present(body.get(Name::Plain(name)))
}

fn names_value(name: &str) -> bool
    ensures { result ≡ names_value name.now }
{
    !is_ignored(name) && annotated_by(name).is_none()
}

fn is_present(value: Option<&Lent>) -> bool
    ensures { result ≡ is_present (option_map (λ v. lent_data v.now) value.entry) }
{
    match value {
        Some(value) => !value.is_null(),
        None => false,
    }
}

/// The type that an annotation names.
fn type_in(annotation: &Lent) -> Option<EdmType>
    ensures { result ≡ type_in (lent_data annotation.now) }
{
    annotation.as_str().and_then(named_type)
}

/// The type of the member of a body with this name and value.
fn type_of(body: &LentMembers, name: &str, value: &Lent) -> Option<EdmType>
    ensures { result ≡ type_of (lent_object body.now) name.now (lent_data value.now) }
{
    type_by(body.get(Name::Annotation(name)), value)
}

/// The type of a value with this annotation, if there is one.
fn type_by(annotation: Option<&Lent>, value: &Lent) -> Option<EdmType>
    ensures { result ≡ type_by (option_map (λ v. lent_data v.now) annotation.entry) (lent_data value.now) }
{
    match annotation {
        Some(annotation) => type_in(annotation),
        None => own_type(value),
    }
}

/// A refusal of the member of this name by its type.
pub(crate) fn value_type(alloc: Global, name: &str) -> JsonRefused
    ensures { result ≢ JsonRefused.Memory → result ≡ JsonRefused.ValueType name.now }
{
    match text_value(alloc, name) {
        Ok(name) => JsonRefused::ValueType(name),
        Err(_) => JsonRefused::Memory,
    }
}

/// What an annotation of this name means.
fn annotation_meaning(
    alloc: Global,
    body: &LentMembers,
    name: &str,
    annotation: &Lent,
) -> Result<Meaning, JsonRefused>
    ensures meaning { Gives JsonRefused.Memory (λ meaning. meaning) result (annotation_meaning (lent_object body.now) name.now (lent_data annotation.now)) }
    ensures in_time { IfOk result IsTimely }
{
    if is_given(body, name) || type_in(annotation).is_some() {
        Ok(Meaning::Nothing)
    } else {
        Err(value_type(alloc, name))
    }
}

/// What a key or a property of this name and value means.
fn value_meaning(
    alloc: Global,
    body: &LentMembers,
    name: &str,
    value: &Lent,
) -> Result<Meaning, JsonRefused>
    ensures meaning { Gives JsonRefused.Memory (λ meaning. meaning) result (value_meaning (lent_object body.now) name.now (lent_data value.now)) }
    ensures in_time { IfOk result IsTimely }
{
    if value.is_null() {
        return Ok(Meaning::Nothing);
    }
    match name {
        "PartitionKey" => match read_key(alloc, body, name, value) {
            Ok(key) => Ok(Meaning::PartitionKey(key)),
            Err(why) => Err(why),
        },
        "RowKey" => match read_key(alloc, body, name, value) {
            Ok(key) => Ok(Meaning::RowKey(key)),
            Err(why) => Err(why),
        },
        _ => read_property(alloc, body, name, value),
    }
}

/// The key that the member of this name and value is.
#[tactic(auto, unfolding(crate::specs::Bodies::text_of))]
fn read_key(
    alloc: Global,
    body: &LentMembers,
    name: &str,
    value: &Lent,
) -> Result<KeyText, JsonRefused>
    ensures { Gives JsonRefused.Memory (λ key. key) result (key_by name.now (text_of (lent_object body.now) name.now (lent_data value.now))) }
{
    match text_as(type_of(body, name, value), value) {
        Some(text) => key_of(alloc, text),
        None => Err(value_type(alloc, name)),
    }
}

/// The text of a key whose value has this type.
fn text_as<'a>(edm_type: Option<EdmType>, value: &Lent<'a>) -> Option<&'a str>
    ensures { option_copied result ≡ option_and_then (λ t. text_as t (lent_data value.now)) edm_type }
{
    match edm_type {
        Some(EdmType::String) => value.as_str(),
        _ => None,
    }
}

fn key_of(alloc: Global, text: &str) -> Result<KeyText, JsonRefused>
    ensures { Gives JsonRefused.Memory (λ key. key) result (key_or_refusal text.now (key_refusal text.now)) }
{
    match KeyText::new(alloc, text) {
        Ok(key) => Ok(key),
        Err(KeyRefused::Memory) => Err(JsonRefused::Memory),
        Err(why) => Err(JsonRefused::Key(why)),
    }
}

/// The property that the member of this name and value is.
fn read_property(
    alloc: Global,
    body: &LentMembers,
    name: &str,
    value: &Lent,
) -> Result<Meaning, JsonRefused>
    ensures meaning { Gives JsonRefused.Memory (λ meaning. meaning) result (property_by name.now (value_of (lent_object body.now) name.now (lent_data value.now))) }
    ensures in_time { IfOk result IsTimely }
{
    match value_of(alloc, body, name, value) {
        Ok(Some(value)) => match text_value(alloc, name) {
            Ok(name) => Ok(Meaning::Property(Property { name, value })),
            Err(_) => Err(JsonRefused::Memory),
        },
        Ok(None) => Err(value_type(alloc, name)),
        Err(_) => Err(JsonRefused::Memory),
    }
}

/// The value of the property that the member of this name and value is.
#[tactic(auto, unfolding(crate::specs::Bodies::value_of))]
fn value_of(
    alloc: Global,
    body: &LentMembers,
    name: &str,
    value: &Lent,
) -> Result<Option<Value>, Memory>
    ensures value { IfOk result (λ found. found ≡ value_of (lent_object body.now) name.now (lent_data value.now)) }
    ensures in_time { IfOk result (λ found. IfSome found IsInTime) }
{
    match type_of(body, name, value) {
        Some(edm_type) => value_as(alloc, edm_type, value),
        None => Ok(None),
    }
}
