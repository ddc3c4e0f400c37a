//! The replies on rows: a page and one row ("Query Entities"), and what came of writes ("Insert Entity" and the pages behind it).
ghost use Rattle.std.specs.Prelude.{◌≡◌, ◌≤◌, ◌∷◌, [], Some, map, codes, vec_items, IfOk};
ghost use Rattle.std.specs.Option.{option_copied};
ghost use Rattle.tab_edm.specs.Moments.{text_of_etag};
ghost use Rattle.tab_edm.specs.declared.TheConstants.{GREATEST};
ghost use Rattle.tab_service.specs.Replies.{reply_with_body, continuation, page_reply, row_reply, applied, created_reply, bodiless_reply, insert_reply, written_reply, operation_reply, operation_replies, change_reply};
ghost use Rattle.tab_service.specs.Forms.{IsFormOf};
ghost use Rattle.tab_history.specs.declared.asks.Ask.TheVariants.{Change};

use super::batches::batch_reply;
use super::heads::{bodiless_bytes, etag_of, json_type, reply_with_body};
use crate::{Form, PartForm, Prefer};
use std::alloc::Global;
use tab_json::{JsonForm, Version, write_page, write_version};
use tab_keys::{KeyText, Memory, TableName};
use tab_ops::{Group, Item, Op};
use tab_page::{Page, Select, Token};
use tab_rows::Row;

#[tactic(auto, unfolding(crate::specs::Replies::page_reply))]
pub fn page_reply(
    alloc: Global,
    form: &Form,
    name: &TableName,
    page: &Page,
) -> Result<Vec<u8>, Memory>
    ensures { IfOk result (λ bytes. bytes.items ≡ page_reply form.now.account name.now form.now.json page.now) }
{
    let body = write_page(alloc, form.account.as_str(), name, page, &form.json)?;
    let kind = json_type(form.json.minimal);
    match &page.next {
        None => reply_with_body(alloc, 200, kind, &[], body.as_str()),
        Some((pk, rk)) => continued_reply(alloc, kind, pk, rk, body.as_str()),
    }
}

/// The reply with a page behind which another begins at these keys.
fn continued_reply(
    alloc: Global,
    kind: &str,
    pk: &KeyText,
    rk: &KeyText,
    body: &str,
) -> Result<Vec<u8>, Memory>
    ensures { IfOk result (λ bytes. bytes.items ≡ reply_with_body 200 kind.now (continuation (Some (pk.now, rk.now))) body.now) }
{
    let pk = Token::text(alloc, pk)?;
    let rk = Token::text(alloc, rk)?;
    continued_text(alloc, kind, pk.as_str(), rk.as_str(), body)
}

fn continued_text<'a>(
    alloc: Global,
    kind: &str,
    pk: &'a str,
    rk: &'a str,
    body: &str,
) -> Result<Vec<u8>, Memory>
    ensures { IfOk result (λ bytes. bytes.items ≡ reply_with_body 200 kind.now
        ((codes "x-ms-continuation-NextPartitionKey", pk.now) ∷ (codes "x-ms-continuation-NextRowKey", rk.now) ∷ []) body.now) }
{
    let headers = [
        ("x-ms-continuation-NextPartitionKey", pk),
        ("x-ms-continuation-NextRowKey", rk),
    ];
    reply_with_body(alloc, 200, kind, &headers, body)
}

#[tactic(auto, unfolding(crate::specs::Replies::row_reply))]
pub fn row_reply(alloc: Global, form: &Form, name: &TableName, row: &Row) -> Result<Vec<u8>, Memory>
    ensures { IfOk result (λ bytes. bytes.items ≡ row_reply form.now.account name.now form.now.json row.now) }
{
    let version = Version::of(row);
    let body = write_version(alloc, form.account.as_str(), name, &version, &form.json)?;
    let etag = etag_of(alloc, version.tick())?;
    let kind = json_type(form.json.minimal);
    reply_with_body(alloc, 200, kind, &[("ETag", etag.as_str())], body.as_str())
}

/// The reply to a change that stands, to its one operation or as that to a batch.
#[tactic(auto, unfolding(crate::specs::Replies::operation_replies))]
pub fn change_reply(alloc: Global, form: &Form, group: &Group, tick: u64) -> Result<Vec<u8>, Memory>
    requires form { IsFormOf (Change group.now) form.now }
    requires in_time { tick ≤ GREATEST }
    ensures { IfOk result (λ bytes. bytes.items ≡ change_reply form.now group.now tick) }
{
    let account = form.account.as_str();
    let items = group.items();
    let parts = form.parts.as_slice();
    if form.batch {
        let replies = operation_replies(alloc, account, parts, items, tick)?;
        batch_reply(alloc, &replies)
    } else {
        operation_reply(alloc, account, parts[0], &items[0], tick)
    }
}

/// The replies to operations that stand, each in the form of its part.
#[tactic(auto, unfolding(crate::specs::Replies::operation_replies))]
fn operation_replies(
    alloc: Global,
    account: &str,
    parts: &[PartForm],
    items: &[Item],
    tick: u64,
) -> Result<Vec<Vec<u8>>, Memory>
    requires in_time { tick ≤ GREATEST }
    ensures { IfOk result (λ replies. map vec_items replies.items ≡ operation_replies account.now parts.now items.now tick) }
{
    let mut replies = Vec::new(alloc);
    let mut forms = parts;
    let mut left = items;
    while let Some((part, more)) = forms.split_first() {
        let Some((item, later)) = left.split_first() else {
            return Ok(replies);
        };
        let reply = operation_reply(alloc, account, *part, item, tick)?;
        replies.push(reply)?;
        forms = more;
        left = later;
    }
    Ok(replies)
}

/// The reply to an operation that stands, in the form of its part.
fn operation_reply(
    alloc: Global,
    account: &str,
    part: PartForm,
    item: &Item,
    tick: u64,
) -> Result<Vec<u8>, Memory>
    requires in_time { tick ≤ GREATEST }
    ensures { IfOk result (λ bytes. bytes.items ≡ operation_reply account.now part item.now item.now.op tick) }
{
    match &item.op {
        Op::Insert(entity) => {
            let version = Version::new(&item.pk, &item.rk, entity, tick);
            insert_reply(alloc, account, part, &item.name, &version)
        }
        Op::Update(_, _) | Op::Replace(_) | Op::Merge(_, _) | Op::MergeIn(_) => {
            written_reply(alloc, tick)
        }
        Op::Delete(_) => bodiless_bytes(alloc, &[]),
    }
}

/// The reply to a write with the row's version.
#[tactic(auto, unfolding(crate::specs::Replies::written_reply))]
fn written_reply(alloc: Global, tick: u64) -> Result<Vec<u8>, Memory>
    requires { tick ≤ GREATEST }
    ensures { IfOk result (λ bytes. bytes.items ≡ written_reply tick) }
{
    let etag = etag_of(alloc, tick)?;
    bodiless_bytes(alloc, &[("ETag", etag.as_str())])
}

fn insert_reply(
    alloc: Global,
    account: &str,
    part: PartForm,
    name: &TableName,
    version: &Version,
) -> Result<Vec<u8>, Memory>
    ensures { IfOk result (λ bytes. bytes.items ≡ insert_reply account.now part.minimal part.prefer name.now version.now) }
{
    let minimal = part.minimal;
    match part.prefer {
        Prefer::Unsaid => created_reply(alloc, account, minimal, name, version, None),
        Prefer::Content => {
            let applied = Some("return-content");
            created_reply(alloc, account, minimal, name, version, applied)
        }
        Prefer::NoContent => version_reply(alloc, version),
    }
}

/// The reply to an insert with the entity, and with the preference that counted.
#[tactic(auto, unfolding(crate::specs::Replies::created_reply))]
fn created_reply(
    alloc: Global,
    account: &str,
    minimal: bool,
    name: &TableName,
    version: &Version,
    preference: Option<&str>,
) -> Result<Vec<u8>, Memory>
    ensures { IfOk result (λ bytes. bytes.items ≡ created_reply account.now minimal name.now version.now (option_copied preference.entry)) }
{
    let form = JsonForm {
        minimal,
        select: Select::All,
    };
    let body = write_version(alloc, account, name, version, &form)?;
    let etag = etag_of(alloc, version.tick())?;
    let kind = json_type(minimal);
    created_text(alloc, kind, etag.as_str(), preference, body.as_str())
}

fn created_text<'a>(
    alloc: Global,
    kind: &str,
    etag: &'a str,
    preference: Option<&'a str>,
    body: &str,
) -> Result<Vec<u8>, Memory>
    ensures { IfOk result (λ bytes. bytes.items
        ≡ reply_with_body 201 kind.now ((codes "ETag", etag.now) ∷ applied (option_copied preference.entry)) body.now) }
{
    match preference {
        None => reply_with_body(alloc, 201, kind, &[("ETag", etag)], body),
        Some(text) => {
            let headers = [("ETag", etag), ("Preference-Applied", text)];
            reply_with_body(alloc, 201, kind, &headers, body)
        }
    }
}

/// The reply to an insert with its version alone.
fn version_reply(alloc: Global, version: &Version) -> Result<Vec<u8>, Memory>
    ensures { IfOk result (λ bytes. bytes.items
        ≡ bodiless_reply 204 ((codes "ETag", text_of_etag version.now.tick) ∷ (codes "Preference-Applied", codes "return-no-content") ∷ [])) }
{
    let etag = etag_of(alloc, version.tick())?;
    version_bytes(alloc, etag.as_str())
}

fn version_bytes(alloc: Global, etag: &str) -> Result<Vec<u8>, Memory>
    ensures { IfOk result (λ bytes. bytes.items
        ≡ bodiless_reply 204 ((codes "ETag", etag.now) ∷ (codes "Preference-Applied", codes "return-no-content") ∷ [])) }
{
    let headers = [("ETag", etag), ("Preference-Applied", "return-no-content")];
    bodiless_bytes(alloc, &headers)
}
