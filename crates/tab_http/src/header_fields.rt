//! What the header fields say of the body (RFC 9112, section 6.3) and of the connection (RFC 9112, section 9.6).
ghost use Rattle.std.specs.Prelude.{◌≡◌, reverse};
ghost use Rattle.httparse.specs.Grammar.{skip_ows, trim_ows};
ghost use Rattle.tab_http.specs.Headers.{have_length, needs_length, announced, size_for, body_size, is_close, says_close, closes};

use crate::decimals::decimal_value;
use crate::messages::{Header, first_value};
use crate::{HttpRefused, LONGEST_BODY};
use httparse::is_space_or_tab;

/// The size of the body that a head announces, or why it has none.
#[tactic(auto, unfolding(crate::specs::Headers::body_size))]
pub fn body_size(method: &str, headers: &[Header]) -> Result<usize, HttpRefused>
    ensures { result ≡ body_size method.now headers.now }
{
    let length = announced(headers)?;
    if first_value(headers, "transfer-encoding").is_some() {
        return Err(HttpRefused::NoLength);
    }
    size_for(method, length)
}

/// The size of a body without a transfer coding.
fn size_for(method: &str, length: Option<u64>) -> Result<usize, HttpRefused>
    ensures { result ≡ size_for method.now length }
{
    match length {
        Some(length) if length <= LONGEST_BODY => Ok(length as usize),
        Some(_) => Err(HttpRefused::BodyTooLong),
        None if needs_length(method) => Err(HttpRefused::NoLength),
        None => Ok(0),
    }
}

/// Whether a request of that method has to give a length.
fn needs_length(method: &str) -> bool
    ensures { result ≡ needs_length method.now }
{
    method == "POST" || method == "PUT" || method == "MERGE" || method == "PATCH"
}

/// The length that the headers give, if they give one.
#[tactic(auto, unfolding(crate::specs::Headers::announced))]
fn announced(headers: &[Header]) -> Result<Option<u64>, HttpRefused>
    ensures { result ≡ announced headers.now }
{
    let Some(first) = first_value(headers, "content-length") else {
        return Ok(None);
    };
    if !have_length(headers, first) {
        return Err(HttpRefused::Malformed);
    }
    match decimal_value(first) {
        Some(length) => Ok(Some(length)),
        None => Err(HttpRefused::Malformed),
    }
}

/// Whether all lengths that the headers give are this text.
fn have_length(headers: &[Header], text: &[u8]) -> bool
    ensures { result ≡ have_length text.now headers.now }
{
    headers
        .iter()
        .filter(|header| header.is_named("content-length"))
        .all(|header| header.value.as_slice() == text)
}

/// Whether the connection is to be closed behind the reply.
#[tactic(auto, unfolding(crate::specs::Headers::closes))]
pub fn closes(minor: u8, headers: &[Header]) -> bool
    ensures { result ≡ closes minor headers.now }
{
    if minor == 0 {
        return true;
    }
    match first_value(headers, "connection") {
        Some(value) => says_close(value),
        None => false,
    }
}

/// Whether `close` is among the elements of a list.
fn says_close(value: &[u8]) -> bool
    ensures { result ≡ says_close value.now }
{
    let mut rest = value;
    loop {
        let Some(comma) = rest.iter().position(|byte| *byte == b',') else {
            return is_close(rest);
        };
        if is_close(&rest[..comma]) {
            return true;
        }
        rest = &rest[comma + 1..];
    }
}

fn is_close(element: &[u8]) -> bool
    ensures { result ≡ is_close element.now }
{
    trim_blanks(element).eq_ignore_ascii_case(b"close")
}

/// The bytes without the spaces and tabs at both ends.
#[tactic(auto, unfolding(httparse::specs::Grammar::trim_ows))]
pub fn trim_blanks(bytes: &[u8]) -> &[u8]
    ensures { result.now ≡ trim_ows bytes.now }
{
    trim_end(trim_start(bytes))
}

fn trim_start(mut bytes: &[u8]) -> &[u8]
    ensures { result.now ≡ skip_ows bytes.now }
{
    while let [first, rest @ ..] = bytes
        && is_space_or_tab(*first)
    {
        bytes = rest;
    }
    bytes
}

fn trim_end(mut bytes: &[u8]) -> &[u8]
    ensures { result.now ≡ reverse (skip_ows (reverse bytes.now)) }
{
    while let [rest @ .., last] = bytes
        && is_space_or_tab(*last)
    {
        bytes = rest;
    }
    bytes
}
