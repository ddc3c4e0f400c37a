//! Requests that write: insert, update, replace, merge and delete of one entity (the Table service's "Insert Entity" and
//! the pages behind it).
ghost use Rattle.std.specs.Prelude.{◌≡◌, IfOk, length};
ghost use Rattle.tab_service.specs.Answers.{Gives};
ghost use Rattle.tab_keys.specs.KeyTexts.{units_of};
ghost use Rattle.tab_edm.specs.Entities.{made};
ghost use Rattle.tab_ops.specs.Groups.{IsMadeFor};
ghost use Rattle.tab_service.specs.Requests.{is_insert, is_delete, change_operation, change_request, read_body, entity_result, given_key, insert_from, op_for, write_from, decided_insert, decided_write, decided_delete, change_in_rows, change_of_row};

use super::conditions::{condition_for, needed_condition};
use super::formats::{format_for, format_with_body, preference_for};
use crate::forms::form_of;
use crate::{PartForm, Prefer, Refusal, Refused, Request};
use std::alloc::Global;
use tab_edm::{EdmRefused, Entity};
use tab_history::Ask;
use tab_http::{Header, Message};
use tab_json::{BodyEntity, JsonRefused, Properties, Scratch, read_entity_with};
use tab_keys::{KeyText, Memory, TableName};
use tab_ops::{Group, Item, Match, Op};
use tab_page::Select;

/// What a write does with the properties that a row keeps.
#[derive(Clone, Copy, Debug, PartialEq, Eq)]
pub enum Writing {
    /// The given ones take the place of all.
    Replacing,
    /// The given ones replace or join them.
    Merging,
}

/// An operation on a row, and how its reply is wanted.
#[derive(Debug, Drop)]
pub struct Operation {
    /// What it does, and to which row.
    pub item: Item,
    /// How its reply is wanted.
    pub form: PartForm,
}

/// The insert that is asked for, or why it is refused.
#[tactic(auto, unfolding(crate::specs::Requests::decided_insert))]
fn decided_insert(
    alloc: Global,
    headers: &[Header],
    name: TableName,
    body: &[u8],
    scratch: &mut Scratch,
) -> Result<Operation, Refused>
    ensures { Gives result (decided_insert headers.now name body.now) }
{
    let minimal = format_with_body(alloc, headers)?;
    let body = read_body(alloc, body, scratch)?;
    insert_from(alloc, minimal, preference_for(headers), name, body)
}

/// The insert of the entity that a body gives.
fn insert_from(
    alloc: Global,
    minimal: bool,
    prefer: Prefer,
    name: TableName,
    body: BodyEntity,
) -> Result<Operation, Refused>
    ensures { Gives result (insert_from minimal prefer name body) }
{
    let BodyEntity { pk, rk, properties } = body;
    let pk = given_key(pk)?;
    let rk = given_key(rk)?;
    let entity = entity_for(alloc, &pk, &rk, properties)?;
    let op = Op::Insert(entity);
    Ok(change_operation(minimal, prefer, name, (pk, rk), op))
}

/// A key that a body has to give.
fn given_key(key: Option<KeyText>) -> Result<KeyText, Refusal>
    ensures { result ≡ given_key key }
{
    key.ok_or(Refusal::KeysMissing)
}

/// The write of one row that is asked for, or why it is refused.
#[tactic(auto, unfolding(crate::specs::Requests::decided_write))]
fn decided_write(
    alloc: Global,
    headers: &[Header],
    name: TableName,
    keys: (KeyText, KeyText),
    writing: Writing,
    body: &[u8],
    scratch: &mut Scratch,
) -> Result<Operation, Refused>
    ensures { Gives result (decided_write headers.now name keys writing body.now) }
{
    let minimal = format_with_body(alloc, headers)?;
    let condition = condition_for(headers)?;
    let body = read_body(alloc, body, scratch)?;
    write_from(alloc, minimal, writing, name, keys, condition, body)
}

/// The write of the entity that a body gives.
fn write_from(
    alloc: Global,
    minimal: bool,
    writing: Writing,
    name: TableName,
    keys: (KeyText, KeyText),
    condition: Option<Match>,
    body: BodyEntity,
) -> Result<Operation, Refused>
    ensures { Gives result (write_from minimal writing name keys condition body) }
{
    let (pk, rk) = keys;
    let entity = entity_for(alloc, &pk, &rk, body.properties)?;
    let op = op_for(writing, entity, condition);
    Ok(change_operation(minimal, Prefer::Unsaid, name, (pk, rk), op))
}

/// An entity that is written whole or into a kept one, on its condition, if it has one.
fn op_for(writing: Writing, entity: Entity, condition: Option<Match>) -> Op
    ensures { result ≡ op_for writing entity condition }
{
    match writing {
        Writing::Replacing => match condition {
            None => Op::Replace(entity),
            Some(condition) => Op::Update(entity, condition),
        },
        Writing::Merging => match condition {
            None => Op::MergeIn(entity),
            Some(condition) => Op::Merge(entity, condition),
        },
    }
}

/// The delete of one row that is asked for, or why it is refused.
#[tactic(auto, unfolding(crate::specs::Requests::decided_delete))]
fn decided_delete(
    alloc: Global,
    headers: &[Header],
    name: TableName,
    keys: (KeyText, KeyText),
) -> Result<Operation, Refused>
    ensures { Gives result (decided_delete headers.now name keys) }
{
    let minimal = format_for(alloc, headers)?;
    let condition = needed_condition(condition_for(headers)?)?;
    let op = Op::Delete(condition);
    Ok(change_operation(minimal, Prefer::Unsaid, name, keys, op))
}

/// What a body says.
#[tactic(auto, unfolding(crate::specs::Requests::read_body))]
fn read_body(alloc: Global, bytes: &[u8], scratch: &mut Scratch) -> Result<BodyEntity, Refused>
    ensures { Gives result (read_body bytes.now) }
{
    match read_entity_with(alloc, bytes, scratch) {
        Ok(body) => Ok(body),
        Err(JsonRefused::Memory) => Err(Refused::Memory),
        Err(why) => Err(Refused::Why(Refusal::Body(why))),
    }
}

/// The entity of these properties, for a row with these keys.
fn entity_for(
    alloc: Global,
    pk: &KeyText,
    rk: &KeyText,
    properties: Properties,
) -> Result<Entity, Refused>
    ensures entity { Gives result (entity_result (made (length (units_of pk.now)) (length (units_of rk.now)) properties)) }
    ensures made_for { IfOk result (λ e. (e.pk_units ≡ length (units_of pk.now)) × (e.rk_units ≡ length (units_of rk.now))) }
{
    match Entity::new(alloc, pk.units(), rk.units(), properties.into_vec()) {
        Ok(entity) => Ok(entity),
        Err(EdmRefused::Memory) => Err(Refused::Memory),
        Err(why) => Err(Refused::Why(Refusal::Entity(why))),
    }
}

fn change_operation(
    minimal: bool,
    prefer: Prefer,
    name: TableName,
    keys: (KeyText, KeyText),
    op: Op,
) -> Operation
    requires { IsMadeFor (length (units_of keys.0)) (length (units_of keys.1)) op }
    ensures { result ≡ change_operation minimal prefer name keys op }
{
    let (pk, rk) = keys;
    let form = PartForm {
        insert: is_insert(&op),
        delete: is_delete(&op),
        minimal,
        prefer,
    };
    Operation {
        item: Item { name, pk, rk, op },
        form,
    }
}

fn is_insert(op: &Op) -> bool
    ensures { result ≡ is_insert op.now }
{
    matches!(op, Op::Insert(_))
}

fn is_delete(op: &Op) -> bool
    ensures { result ≡ is_delete op.now }
{
    matches!(op, Op::Delete(_))
}

// ---- operations by method

/// The operation that is asked for in a table's rows.
#[tactic(auto, unfolding(crate::specs::Requests::change_in_rows))]
pub fn change_in_rows(
    alloc: Global,
    message: &Message,
    name: TableName,
    scratch: &mut Scratch,
) -> Result<Operation, Refused>
    ensures { Gives result (change_in_rows message.now name) }
{
    if message.method.as_str() == "POST" {
        let headers = message.headers.as_slice();
        decided_insert(alloc, headers, name, message.body.as_slice(), scratch)
    } else {
        Err(Refused::Why(Refusal::Method))
    }
}

/// The operation that is asked for on one row. The method PATCH is MERGE.
#[tactic(auto, unfolding(crate::specs::Requests::change_of_row))]
pub fn change_of_row(
    alloc: Global,
    message: &Message,
    name: TableName,
    keys: (KeyText, KeyText),
    scratch: &mut Scratch,
) -> Result<Operation, Refused>
    ensures { Gives result (change_of_row message.now name keys) }
{
    let method = message.method.as_str();
    let headers = message.headers.as_slice();
    let body = message.body.as_slice();
    if method == "PUT" {
        decided_write(
            alloc,
            headers,
            name,
            keys,
            Writing::Replacing,
            body,
            scratch,
        )
    } else if method == "MERGE" || method == "PATCH" {
        decided_write(alloc, headers, name, keys, Writing::Merging, body, scratch)
    } else if method == "DELETE" {
        decided_delete(alloc, headers, name, keys)
    } else {
        Err(Refused::Why(Refusal::Method))
    }
}

/// The request for one operation.
pub fn change_request(alloc: Global, account: &str, part: Operation) -> Result<Request, Memory>
    ensures { IfOk result (λ request. request ≡ change_request account.now part) }
{
    let Operation { item, form } = part;
    let form = form_of(alloc, account, Select::All, form)?;
    let group = Group::of(alloc, item)?;
    Ok(Request {
        ask: Ask::Change { group },
        form,
    })
}
