//! What headers ask of the reply: Accept and Content-Type (RFC 9110, sections 12.5.1 and 8.3; the formats of OData 3.0's
//! JSON), and Prefer (RFC 7240; Preference-Applied, section 3).
ghost use Rattle.std.specs.Prelude.{◌≡◌, IfOk};
ghost use Rattle.std.specs.Option.{option_copied};
ghost use Rattle.tab_service.specs.Preferences.{has_part, asks_atom, format_in, format_for, names_atom, format_with_body, preference_for};
ghost use Rattle.tab_service.specs.Answers.{Gives};

use crate::{Prefer, Refusal, Refused};
use std::alloc::Global;
use tab_http::{Header, first_value};
use tab_keys::Memory;

/// Whether the reply is to have minimal metadata, by the first Accept header, or why it cannot be as that asks.
#[tactic(auto, unfolding(crate::specs::Preferences::format_for))]
pub fn format_for(alloc: Global, headers: &[Header]) -> Result<bool, Refused>
    ensures { Gives result (format_for headers.now) }
{
    let Some(value) = first_value(headers, "accept") else {
        return Ok(true);
    };
    let text = value.to_ascii_lowercase(alloc)?;
    Ok(format_in(&text)?)
}

/// The format that a text in lower case asks for.
fn format_in(text: &[u8]) -> Result<bool, Refusal>
    ensures { result ≡ format_in text.now }
{
    if has_part(b"odata=nometadata", text) {
        return Ok(false);
    }
    if has_part(b"odata=fullmetadata", text) || asks_atom(text) {
        return Err(Refusal::Format);
    }
    Ok(true)
}

/// The same for a request with a body, which is read as JSON unless the first Content-Type header names Atom.
#[tactic(auto, unfolding(crate::specs::Preferences::format_with_body))]
pub fn format_with_body(alloc: Global, headers: &[Header]) -> Result<bool, Refused>
    ensures { Gives result (format_with_body headers.now) }
{
    let minimal = format_for(alloc, headers)?;
    if names_atom(alloc, first_value(headers, "content-type"))? {
        return Err(Refused::Why(Refusal::Format));
    }
    Ok(minimal)
}

/// Whether a value names the media type of Atom.
fn names_atom(alloc: Global, value: Option<&[u8]>) -> Result<bool, Memory>
    ensures { IfOk result (λ atom. atom ≡ names_atom (option_copied value.entry)) }
{
    let Some(value) = value else {
        return Ok(false);
    };
    let text = value.to_ascii_lowercase(alloc)?;
    Ok(has_part(b"application/atom+xml", &text))
}

/// What the first Prefer header says.
#[tactic(auto, unfolding(crate::specs::Preferences::preference_for))]
pub fn preference_for(headers: &[Header]) -> Prefer
    ensures { result ≡ preference_for headers.now }
{
    match first_value(headers, "prefer") {
        Some(value) if value.eq_ignore_ascii_case(b"return-no-content") => Prefer::NoContent,
        Some(value) if value.eq_ignore_ascii_case(b"return-content") => Prefer::Content,
        _ => Prefer::Unsaid,
    }
}

/// A media type of Atom, and none of JSON beside it.
fn asks_atom(text: &[u8]) -> bool
    ensures { result ≡ asks_atom text.now }
{
    has_part(b"application/atom+xml", text) && !has_part(b"application/json", text)
}

/// Whether the word stands somewhere in the text.
#[tactic(auto, unfolding(crate::specs::Preferences::has_part))]
fn has_part(word: &[u8], text: &[u8]) -> bool
    ensures { result ≡ has_part word.now text.now }
{
    let mut rest = text;
    loop {
        if rest.starts_with(word) {
            return true;
        }
        let Some((_, later)) = rest.split_first() else {
            return false;
        };
        rest = later;
    }
}
