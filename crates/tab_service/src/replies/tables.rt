//! Replies on tables: one that was made, and a list of them with the token of the next.
ghost use Rattle.std.specs.Prelude.{◌≡◌, [], ◌∷◌, Some, IfOk, codes, string_bytes};
ghost use Rattle.std.specs.Option.{option_copied};
ghost use Rattle.tab_page.specs.Tokens.{token_text};
ghost use Rattle.tab_service.specs.Replies.{reply_with_body, bodiless_reply, applied, table_reply, sole_prefer, made_reply, table_continuation, tables_reply};

use super::heads::{bodiless_bytes, json_type, reply_with_body};
use crate::{Form, PartForm, Prefer};
use base64::engine::general_purpose::URL_SAFE_NO_PAD;
use std::alloc::Global;
use tab_history::TableNames;
use tab_json::{write_table, write_tables};
use tab_keys::{Memory, TableName};

/// The reply to the making of a table, with the table or without a body, as the client prefers.
pub fn made_reply(alloc: Global, form: &Form, name: &TableName) -> Result<Vec<u8>, Memory>
    ensures { IfOk result (λ bytes. bytes.items ≡ made_reply form.now (sole_prefer form.now.parts) name.now) }
{
    match sole_prefer(form.parts.as_slice()) {
        Prefer::Unsaid => table_reply(alloc, form, name, None),
        Prefer::Content => table_reply(alloc, form, name, Some("return-content")),
        Prefer::NoContent => no_content_bytes(alloc),
    }
}

/// What is preferred for the only part.
fn sole_prefer(parts: &[PartForm]) -> Prefer
    ensures { result ≡ sole_prefer parts.now }
{
    match parts {
        [] => Prefer::Unsaid,
        [part, ..] => part.prefer,
    }
}

fn no_content_bytes(alloc: Global) -> Result<Vec<u8>, Memory>
    ensures { IfOk result (λ bytes. bytes.items ≡ bodiless_reply 204 (applied (Some (codes "return-no-content")))) }
{
    bodiless_bytes(alloc, &[("Preference-Applied", "return-no-content")])
}

/// A table that was made, with the preference that counted.
#[tactic(auto, unfolding(crate::specs::Replies::table_reply))]
fn table_reply(
    alloc: Global,
    form: &Form,
    name: &TableName,
    preference: Option<&str>,
) -> Result<Vec<u8>, Memory>
    ensures { IfOk result (λ bytes. bytes.items ≡ table_reply form.now name.now (option_copied preference.entry)) }
{
    let body = write_table(alloc, form.account.as_str(), name, &form.json)?;
    let kind = json_type(form.json.minimal);
    table_text(alloc, kind, preference, body.as_str())
}

fn table_text(
    alloc: Global,
    kind: &str,
    preference: Option<&str>,
    body: &str,
) -> Result<Vec<u8>, Memory>
    ensures { IfOk result (λ bytes. bytes.items ≡ reply_with_body 201 kind.now (applied (option_copied preference.entry)) body.now) }
{
    match preference {
        None => reply_with_body(alloc, 201, kind, &[], body),
        Some(text) => {
            let headers = [("Preference-Applied", text)];
            reply_with_body(alloc, 201, kind, &headers, body)
        }
    }
}

/// A list of tables, and where the next one begins.
#[tactic(auto, unfolding(crate::specs::Replies::tables_reply))]
pub fn tables_reply(
    alloc: Global,
    form: &Form,
    names: &TableNames,
    next: &Option<TableName>,
) -> Result<Vec<u8>, Memory>
    ensures { IfOk result (λ bytes. bytes.items ≡ tables_reply form.now names.now next.now) }
{
    let body = write_tables(alloc, form.account.as_str(), names.as_slice(), &form.json)?;
    let kind = json_type(form.json.minimal);
    match next {
        None => reply_with_body(alloc, 200, kind, &[], body.as_str()),
        Some(name) => continued_tables(alloc, kind, name, body.as_str()),
    }
}

/// The reply with a list behind which another begins with this name.
fn continued_tables(
    alloc: Global,
    kind: &str,
    name: &TableName,
    body: &str,
) -> Result<Vec<u8>, Memory>
    ensures { IfOk result (λ bytes. bytes.items ≡ reply_with_body 200 kind.now (table_continuation (Some name.now)) body.now) }
{
    let token = name_token(alloc, name.as_str())?;
    tables_text(alloc, kind, token.as_str(), body)
}

fn tables_text(alloc: Global, kind: &str, token: &str, body: &str) -> Result<Vec<u8>, Memory>
    ensures { IfOk result (λ bytes. bytes.items
        ≡ reply_with_body 200 kind.now ((codes "x-ms-continuation-NextTableName", token.now) ∷ []) body.now) }
{
    let headers = [("x-ms-continuation-NextTableName", token)];
    reply_with_body(alloc, 200, kind, &headers, body)
}

/// The token of a table's name.
#[tactic(auto, unfolding(tab_page::specs::Tokens::token_text))]
fn name_token(alloc: Global, name: &str) -> Result<String, Memory>
    ensures { IfOk result (λ text. string_bytes text ≡ token_text name.now) }
{
    let mut text = String::from_str(alloc, "1.")?;
    URL_SAFE_NO_PAD.encode_string(name.as_bytes(), &mut text)?;
    Ok(text)
}
