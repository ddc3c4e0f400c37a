//! The request that a part is (RFC 9112, sections 2 and 3; the URL Standard for absolute addresses).
ghost use Rattle.std.specs.Prelude.{◌≡◌, ℕ, ◌++◌, List, drop, None, IfOk, MatchOption, string_bytes};
ghost use Rattle.std.specs.Option.{option_copied};
ghost use Rattle.httparse.specs.Grammar.{RequestHead};
ghost use Rattle.tab_batch.specs.Requests.{IsRequest, IsNoRequest, ending, is_path, is_web, target_on_web, with_query};
ghost use Rattle.tab_http.specs.Heads.{BeginsWithHead, HasNoHead, HasParts};
ghost use Rattle.url.specs.Parser.{parse_url};

use crate::refusals::Memory;
use std::alloc::Global;
use tab_http::{Bytes, Head, LONGEST_HEAD, Message, Text};
use url::{ParseError, Url};

/// The request that the bytes of a part are, if they are one.
pub fn read_request(alloc: Global, part: &[u8]) -> Result<Option<Message>, Memory>
    ensures { IfOk result (λ found. MatchOption found (IsNoRequest part.now) (IsRequest part.now)) }
{
    let Some(head) = read_head(alloc, part)? else {
        return Ok(None);
    };
    let body = bytes_behind(alloc, part, head.len)?;
    let mut message = head.into_message(body);
    if is_path(message.target.as_str()) {
        return Ok(Some(message));
    }
    let Some(target) = target_on_web(alloc, message.target.as_str())? else {
        return Ok(None);
    };
    message.target = target;
    Ok(Some(message))
}

/// The head that the bytes begin with, as if an empty line followed them. Where they do not have it whole, the bytes of
/// a head are copied once more, and nothing else of a part is.
fn read_head(alloc: Global, part: &[u8]) -> Result<Option<Head>, Memory>
    ensures { IfOk result (λ found. MatchOption found (HasNoHead (part.now ++ ending)) (λ head. (h : RequestHead) × (rest : List ℕ) × BeginsWithHead (part.now ++ ending) h rest × HasParts h head)) }
{
    if let Some(head) = Head::read(alloc, part)? {
        return Ok(Some(head));
    }
    if part.len() >= LONGEST_HEAD {
        return Ok(None);
    }
    let mut ended = Vec::from_slice(alloc, part)?;
    ended.extend_from_slice(b"\r\n\r\n")?;
    Ok(Head::read(alloc, &ended)?)
}

/// The bytes behind as many of the first, or none.
fn bytes_behind(alloc: Global, bytes: &[u8], size: usize) -> Result<Bytes, Memory>
    ensures { IfOk result (λ rest. rest ≡ drop size bytes.now) }
{
    let start = size.min(bytes.len());
    Ok(Bytes::new(Vec::from_slice(alloc, &bytes[start..])?))
}

/// Whether a target is a path.
fn is_path(target: &str) -> bool
    ensures { result ≡ is_path target.now }
{
    match target.as_bytes() {
        [first, ..] => *first == b'/',
        [] => false,
    }
}

/// The path and the query of an address of the web.
fn target_on_web(alloc: Global, address: &str) -> Result<Option<Text>, Memory>
    ensures { IfOk result (λ found. found ≡ target_on_web (parse_url None address.now)) }
{
    match Url::parse(alloc, address) {
        Ok(url) => {
            if is_web(url.scheme()) {
                let target = with_query(alloc, url.path(), url.query())?;
                Ok(Some(Text::new(target)))
            } else {
                Ok(None)
            }
        }
        Err(ParseError::OutOfMemory) => Err(Memory),
        Err(ParseError::Overflow) => Err(Memory),
        Err(_) => Ok(None),
    }
}

fn is_web(scheme: &str) -> bool
    ensures { result ≡ is_web scheme.now }
{
    scheme == "http" || scheme == "https"
}

fn with_query(alloc: Global, path: &str, query: Option<&str>) -> Result<String, Memory>
    ensures { IfOk result (λ target. string_bytes target ≡ with_query path.now (option_copied query.entry)) }
{
    let mut target = String::from_str(alloc, path)?;
    if let Some(query) = query {
        target.push_str("?")?;
        target.push_str(query)?;
    }
    Ok(target)
}
