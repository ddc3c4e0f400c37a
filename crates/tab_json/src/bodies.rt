//! The JSON bodies of requests (RFC 8259): an entity, or the name of a table.
ghost use Rattle.std.specs.Prelude.{◌≡◌, ◌≢◌, MatchResult, Ok, Err, OnOk, IfOk, IfSome, Some, None, option_map, option_and_then, All, AllPairs, IsFalse, codes, string_bytes};
ghost use Rattle.serde_json.specs.Find.{as_str};
ghost use Rattle.json.specs.Value.{value_view};
ghost use Rattle.serde_json.specs.Read.{read, of_json};
ghost use Rattle.serde_json.specs.View.{view};
ghost use Rattle.tab_keys.specs.Results.{Gives};
ghost use Rattle.tab_edm.specs.Entities.{IsRising};
ghost use Rattle.tab_edm.specs.Values.{is_reserved, IsInTime};
ghost use Rattle.tab_json.specs.Lent.{lent_data, lent_members, lent_object, IsPlain};
ghost use Rattle.tab_json.specs.Slots.{name_text};
ghost use Rattle.tab_json.specs.Bodies.{json_in, no_entity, with_meaning, IsTimely, meaning_of, entity_in, entity_body, table_body};

use crate::lent::{Lent, LentMembers};
use crate::members_read::{Meaning, meaning_of, value_type};
use crate::slots::Slot;
use json::{Reader, Scratch, Value};
use serde_json::Value as Json;
use std::alloc::{AllocError, Global};
use std::marker::Model;
use std::str;
use tab_edm::{Memory, Property, TextValue};
use tab_keys::{KeyRefused, KeyText};

/// The arrays and objects that a body may nest: those that `serde_json` takes.
const DEPTH: usize = 127;

/// The members of most bodies that are keys, and so need no room among the properties.
const KEYS: usize = 2;

/// Why a body gives no entity or no table.
#[derive(Debug, Drop)]
pub enum JsonRefused {
    /// It is no JSON, or nests deeper than the 127 objects and arrays that `serde_json` takes.
    NotJson,
    /// It is JSON, but no object.
    NotObject,
    /// The member of this name, or its annotation, is not of its type.
    ValueType(TextValue),
    /// A key is too long or has a character that no key has.
    Key(KeyRefused),
    /// No memory was found.
    Memory,
}

/// What a body gives of an entity.
#[derive(Debug, Drop)]
pub struct BodyEntity {
    /// The partition key, where the body has one.
    pub pk: Option<KeyText>,
    /// The row key, where the body has one.
    pub rk: Option<KeyText>,
    /// The other members that stand for a value.
    pub properties: Properties,
}

/// The properties of a body in byte order of their names, as an entity may be made of them.
#[derive(Debug, Drop)]
pub struct Properties {
    list: Vec<Property>,
}

impl Model for Properties {
    ghost use Rattle.std.specs.Prelude.{List, vec_items, All, IsFalse};
    ghost use Rattle.tab_edm.specs.Entities.{IsRising};
    ghost use Rattle.tab_edm.specs.Values.{is_reserved, IsInTime};
    ghost use Rattle.tab_edm.specs.declared.values.Property.{Property};

    ghost Value = { List Property };

    ghost view = { λ properties. properties.list.items };

    ghost invariant = { λ properties. IsRising properties.list.items
        × All (λ p. IsFalse (is_reserved p.name)) properties.list.items
        × All (λ p. IsInTime p.value) properties.list.items };
}

impl Properties {
    /// The properties, in the memory that they have.
    pub fn into_vec(self) -> Vec<Property>
        ensures properties { result.items ≡ self }
        ensures rising { IsRising result.items }
        ensures distinct { AllPairs (λ a b. a.name ≢ b.name) result.items }
        ensures unreserved { All (λ p. IsFalse (is_reserved p.name)) result.items }
        ensures in_time { All (λ p. IsInTime p.value) result.items }
    {
        self.list
    }
}

/// The entity that a body gives.
pub fn read_entity(alloc: Global, bytes: &[u8]) -> Result<BodyEntity, JsonRefused>
    ensures { Gives JsonRefused.Memory (λ body. body) result (entity_body bytes.now) }
{
    let mut scratch = Scratch::new(alloc);
    read_entity_with(alloc, bytes, &mut scratch)
}

/// The same, by way of room that is kept from body to body: what it has beforehand does not count.
#[tactic(auto, unfolding(crate::specs::Bodies::entity_body))]
pub fn read_entity_with(
    alloc: Global,
    bytes: &[u8],
    scratch: &mut Scratch,
) -> Result<BodyEntity, JsonRefused>
    ensures { Gives JsonRefused.Memory (λ body. body) result (entity_body bytes.now) }
{
    match read_lent(alloc, bytes, scratch) {
        Ok(Some(members)) => read_members(alloc, &members),
        Ok(None) => read_tree(alloc, bytes),
        Err(_) => Err(JsonRefused::Memory),
    }
}

/// The entity of a body that is refused, or in which not every member can be lent.
#[tactic(auto, unfolding(crate::specs::Bodies::entity_body))]
fn read_tree(alloc: Global, bytes: &[u8]) -> Result<BodyEntity, JsonRefused>
    ensures { Gives JsonRefused.Memory (λ body. body) result (entity_body bytes.now) }
{
    match read_json(alloc, bytes) {
        Ok(body) => match body.as_object() {
            Some(members) => match LentMembers::of_tree(alloc, members) {
                Ok(members) => read_members(alloc, &members),
                Err(_) => Err(JsonRefused::Memory),
            },
            None => Err(JsonRefused::NotObject),
        },
        Err(why) => Err(why),
    }
}

/// The members of the object that bytes are, if each of them can be lent.
fn read_lent<'a>(
    alloc: Global,
    bytes: &'a [u8],
    scratch: &'a mut Scratch,
) -> Result<Option<LentMembers<'a>>, AllocError>
    ensures { IfOk result (λ found. IfSome found (λ members. json_in bytes.now ≡ Some (lent_object members))) }
{
    match str::from_utf8(bytes) {
        Ok(text) => read_text(alloc, text, scratch),
        Err(_) => Ok(None),
    }
}

fn read_text<'a>(
    alloc: Global,
    text: &'a str,
    scratch: &'a mut Scratch,
) -> Result<Option<LentMembers<'a>>, AllocError>
    ensures { IfOk result (λ found. IfSome found (λ members. read text.now ≡ Some (lent_object members))) }
{
    match read_value(alloc, text, scratch) {
        Ok(Some(value)) => members_of(alloc, &value),
        Ok(None) => Ok(None),
        Err(why) => Err(why),
    }
}

/// The members of an object that was read, if each of them can be lent.
fn members_of<'a>(alloc: Global, value: &Value<'a>) -> Result<Option<LentMembers<'a>>, AllocError>
    ensures { IfOk result (λ found. IfSome found (λ members. of_json (value_view value.now) ≡ Some (lent_object members))) }
{
    match value {
        Value::Object(members) => LentMembers::of_read(alloc, members.as_slice()),
        _ => Ok(None),
    }
}

/// The JSON value that a text is, up to the range of its numbers.
fn read_value<'a>(
    alloc: Global,
    text: &'a str,
    scratch: &'a mut Scratch,
) -> Result<Option<Value<'a>>, AllocError>
    ensures { IfOk result (λ found. IfSome found (λ value. read text.now ≡ of_json (value_view value))) }
{
    let mut reader = Reader::new(text, scratch)?;
    match Value::read(alloc, &mut reader, DEPTH) {
        Ok(value) => {
            if reader.next().is_some() {
                return Ok(None);
            }
            Ok(Some(value))
        }
        Err(_) => Ok(None),
    }
}

/// The text of the table's name that a body gives.
#[tactic(auto, unfolding(crate::specs::Bodies::table_body, crate::specs::Bodies::table_in))]
pub fn read_table(alloc: Global, bytes: &[u8]) -> Result<String, JsonRefused>
    ensures { Gives JsonRefused.Memory string_bytes result (table_body bytes.now) }
{
    match read_json(alloc, bytes) {
        Ok(body) if body.is_object() => read_name(alloc, body.get("TableName")),
        Ok(_) => Err(JsonRefused::NotObject),
        Err(why) => Err(why),
    }
}

/// The JSON value that bytes are.
#[tactic(auto, unfolding(crate::specs::Bodies::json_in))]
fn read_json(alloc: Global, bytes: &[u8]) -> Result<Json, JsonRefused>
    ensures { MatchResult result
        (λ body. json_in bytes.now ≡ Some (view body))
        (λ why. why ≢ JsonRefused.Memory → (json_in bytes.now ≡ None) × (why ≡ JsonRefused.NotJson)) }
{
    match Json::from_slice(alloc, bytes) {
        Ok(body) => Ok(body),
        Err(why) if why.is_memory() => Err(JsonRefused::Memory),
        Err(_) => Err(JsonRefused::NotJson),
    }
}

/// The text of a table's name in the member that has it, if there is one.
fn read_name(alloc: Global, name: Option<&Json>) -> Result<String, JsonRefused>
    ensures { MatchResult result
        (λ text. option_and_then as_str (option_map (λ v. view v.now) name.entry) ≡ Some (string_bytes text))
        (λ why. why ≢ JsonRefused.Memory → (option_and_then as_str (option_map (λ v. view v.now) name.entry) ≡ None)
        × (why ≡ JsonRefused.ValueType (codes "TableName"))) }
{
    match name.and_then(Json::as_str) {
        Some(text) => String::from_str(alloc, text).map_err(|_| JsonRefused::Memory),
        None => Err(value_type(alloc, "TableName")),
    }
}

/// What the members of a body give of an entity.
fn read_members(alloc: Global, body: &LentMembers) -> Result<BodyEntity, JsonRefused>
    ensures { Gives JsonRefused.Memory (λ entity. entity) result (entity_in (lent_object body.now) (lent_members body.now)) }
{
    let members = body.as_slice();
    let Ok(mut reading) = Reading::with_capacity(alloc, members.len().saturating_sub(KEYS)) else {
        return Err(JsonRefused::Memory);
    };
    for member in members {
        match member_meaning(alloc, body, member) {
            Ok(meaning) => {
                if reading.add(meaning).is_err() {
                    return Err(JsonRefused::Memory);
                }
            }
            Err(why) => return Err(why),
        }
    }
    Ok(reading.finish())
}

/// What a member of a body means.
fn member_meaning(
    alloc: Global,
    body: &LentMembers,
    member: &Slot<Lent>,
) -> Result<Meaning, JsonRefused>
    requires { IsPlain member.now.name }
    ensures meaning { Gives JsonRefused.Memory (λ meaning. meaning) result (meaning_of (lent_object body.now) (name_text member.now.name) (lent_data member.now.value)) }
    ensures in_time { IfOk result IsTimely }
{
    meaning_of(alloc, body, member.name.front(), &member.value)
}

/// What the members that are read so far give of an entity.
#[derive(Debug, Drop)]
struct Reading {
    pk: Option<KeyText>,
    rk: Option<KeyText>,
    properties: Vec<Property>,
}

impl Model for Reading {
    ghost use Rattle.std.specs.Prelude.{vec_items, All};
    ghost use Rattle.tab_edm.specs.Values.{IsInTime};
    ghost use Rattle.tab_json.specs.declared.bodies.BodyEntity.{BodyEntity};

    ghost Value = { BodyEntity };

    ghost view = { λ reading. record { pk = reading.pk; rk = reading.rk; properties = reading.properties.items } };

    ghost invariant = { λ reading. All (λ p. IsInTime p.value) reading.properties.items };
}

impl Reading {
    /// Nothing, with room for these many properties.
    fn with_capacity(alloc: Global, capacity: usize) -> Result<Reading, AllocError>
        ensures { IfOk result (λ reading. reading ≡ no_entity) }
    {
        Ok(Reading {
            pk: None,
            rk: None,
            properties: Vec::with_capacity(alloc, capacity)?,
        })
    }

    fn add(&mut self, meaning: Meaning) -> Result<(), Memory>
        requires { IsTimely meaning }
        ensures { OnOk result (self.new ≡ with_meaning self.old meaning) }
    {
        match meaning {
            Meaning::Nothing => (),
            Meaning::PartitionKey(key) => self.pk = Some(key),
            Meaning::RowKey(key) => self.rk = Some(key),
            Meaning::Property(property) => self.properties.push(property)?,
        }
        Ok(())
    }

    fn finish(self) -> BodyEntity
        requires rising { IsRising self.properties }
        requires unreserved { All (λ p. IsFalse (is_reserved p.name)) self.properties }
        ensures { result ≡ self }
    {
        BodyEntity {
            pk: self.pk,
            rk: self.rk,
            properties: Properties {
                list: self.properties,
            },
        }
    }
}
