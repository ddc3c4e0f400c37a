//! What of a message its sender signs: SharedKeyLite of the Table service ("Authorize with Shared Key").
ghost use Rattle.std.specs.Prelude.{◌≡◌, IfOk, Some, None, if◌then◌else◌, option_and_then};
ghost use Rattle.std.specs.List.{list_any};
ghost use Rattle.std.specs.Option.{option_copied};
ghost use Rattle.tab_http.specs.Headers.{is_named};
ghost use Rattle.tab_page.specs.Queries.{decoded};
ghost use Rattle.tab_service.specs.Targets.{text_of};
ghost use Rattle.tab_service.specs.Signing.{sole_value, date_value, comp_of, signed_by};

use crate::copies::owned;
use form_urlencoded::decode;
use std::alloc::Global;
use std::str;
use tab_auth::Signed;
use tab_edm::TextValue;
use tab_http::{Header, first_value};
use tab_keys::Memory;
use tab_page::QueryOptions;

/// What of a message is signed, and how.
#[tactic(auto, unfolding(crate::specs::Signing::signed_by))]
pub fn signed_by(
    alloc: Global,
    headers: &[Header],
    path: &str,
    query: &str,
) -> Result<Signed, Memory>
    ensures { IfOk result (λ signed. signed ≡ signed_by headers.now path.now query.now) }
{
    let authorization = text_in(alloc, sole_value(headers, "authorization"))?;
    let date = text_in(alloc, date_value(headers))?;
    let path = owned(alloc, path)?;
    let comp = comp_of(alloc, query)?;
    Ok(Signed {
        authorization,
        date,
        path,
        comp,
    })
}

/// The value of the one header of that name, and none where there are more.
#[tactic(auto, unfolding(crate::specs::Signing::sole_value))]
fn sole_value<'h>(headers: &'h [Header], name: &str) -> Option<&'h [u8]>
    ensures { option_copied result ≡ sole_value name.now headers.now }
{
    let mut left = headers;
    while let Some((first, later)) = left.split_first() {
        if first.is_named(name) {
            return first_if_sole(first, later, name);
        }
        left = later;
    }
    None
}

/// The value of a header that no later one has the name of.
fn first_if_sole<'h>(first: &'h Header, later: &[Header], name: &str) -> Option<&'h [u8]>
    ensures { option_copied result ≡ (if list_any (is_named name.now) later.now then None else Some first.now.value) }
{
    if is_among(name, later) {
        None
    } else {
        Some(first.value.as_slice())
    }
}

fn is_among(name: &str, headers: &[Header]) -> bool
    ensures { result ≡ list_any (is_named name.now) headers.now }
{
    headers.iter().any(|header| header.is_named(name))
}

/// The value of the header that counts as the date.
fn date_value(headers: &[Header]) -> Option<&[u8]>
    ensures { option_copied result ≡ date_value headers.now }
{
    match first_value(headers, "x-ms-date") {
        Some(value) => Some(value),
        None => first_value(headers, "date"),
    }
}

/// The text that a value is, if it is one.
fn text_in(alloc: Global, value: Option<&[u8]>) -> Result<Option<TextValue>, Memory>
    ensures { IfOk result (λ text. text ≡ option_and_then text_of (option_copied value.entry)) }
{
    match value {
        Some(bytes) => text_from(alloc, bytes),
        None => Ok(None),
    }
}

fn text_from(alloc: Global, bytes: &[u8]) -> Result<Option<TextValue>, Memory>
    ensures { IfOk result (λ text. text ≡ text_of bytes.now) }
{
    let Ok(text) = str::from_utf8(bytes) else {
        return Ok(None);
    };
    Ok(Some(owned(alloc, text)?))
}

/// The first value of `comp` in a query.
#[tactic(auto, unfolding(crate::specs::Signing::comp_of, tab_page::specs::QueryOptions::options_in))]
fn comp_of(alloc: Global, query: &str) -> Result<Option<TextValue>, Memory>
    ensures { IfOk result (λ comp. comp ≡ comp_of query.now) }
{
    let options = QueryOptions::read(alloc, query)?;
    match options.comp {
        Some(value) => Ok(Some(decoded(alloc, value)?)),
        None => Ok(None),
    }
}

fn decoded(alloc: Global, value: &[u8]) -> Result<TextValue, Memory>
    ensures { IfOk result (λ text. text ≡ decoded value.now) }
{
    match decode(alloc, value) {
        Ok(text) => owned(alloc, text.as_str()),
        Err(_) => Err(Memory),
    }
}
