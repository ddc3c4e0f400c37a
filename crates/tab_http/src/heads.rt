//! Heads of requests: the request line and the header fields (RFC 9112, sections 3 and 5), read by `httparse`.
ghost use Rattle.std.specs.Prelude.{◌≡◌, ℕ, ◌<◌, ◌≤◌, List, length, map, All, IsUtf8, IfOk, MatchOption, MatchBool};
ghost use Rattle.httparse.specs.Grammar.{RequestHead, ReadsRequest, MayBecomeRequest};
ghost use Rattle.httparse.specs.Spans.{IsHeaderWithin, RequestOverflows, span_bytes};
ghost use Rattle.tab_http.specs.Heads.{HasNoHead, HasParts, IsHead, IsFrontHead, header_at};
ghost use Rattle.tab_http.specs.Messages.{message_of};
ghost use Rattle.tab_http.specs.declared.TheConstants.{LONGEST_HEAD, MOST_HEADERS};

use crate::header_fields::closes;
use crate::messages::{Header, Headers, Message};
use crate::texts::{Bytes, Text};
use crate::{LONGEST_HEAD, MOST_HEADERS};
use httparse::Status;
use httparse::spans::{EMPTY_HEADER_SPAN, HeaderSpan, parse_request};
use std::alloc::Global;
use tab_outside::Memory;

/// The head of a request.
#[derive(Debug, Drop)]
pub struct Head {
    /// The method as it stands there; case counts (RFC 9110, section 9.1).
    pub method: Text,
    /// The target as it stands there, in whichever of its forms (RFC 9112, section 3.2).
    pub target: Text,
    /// The minor version, 0 or 1.
    pub minor: u8,
    /// The header fields, in the order in which they stand.
    pub headers: Headers,
    /// How many bytes it takes.
    pub len: usize,
}

impl Head {
    /// The head at the front of the bytes, if one of at most 64 headers ends within 32,768 bytes. Empty lines before it are
    /// part of it (RFC 9112, section 2.2).
    pub fn read(alloc: Global, bytes: &[u8]) -> Result<Option<Head>, Memory>
        ensures { IfOk result (λ found. MatchOption found (HasNoHead bytes.now) (IsHead bytes.now)) }
    {
        let size = bytes.len().min(LONGEST_HEAD);
        Head::read_front(alloc, &bytes[..size])
    }

    /// The head at the front of the bytes, if one has at most 64 headers.
    fn read_front(alloc: Global, bytes: &[u8]) -> Result<Option<Head>, Memory>
        ensures { IfOk result (λ found. MatchOption found
            ((h : RequestHead) (rest : List ℕ) → ReadsRequest bytes.now h rest → MOST_HEADERS < length h.fields)
            (λ head. (h : RequestHead) × IsFrontHead bytes.now h head)) }
    {
        let mut spans = [EMPTY_HEADER_SPAN; MOST_HEADERS];
        let Ok(Status::Complete(found)) = parse_request(bytes, &mut spans) else {
            return Ok(None);
        };
        let method = text_of(alloc, found.method.of(bytes))?;
        let target = text_of(alloc, found.path.of(bytes))?;
        let headers = headers_of(alloc, bytes, &spans[..found.headers])?;
        Ok(Some(Head {
            method,
            target,
            minor: found.version,
            headers,
            len: found.len,
        }))
    }

    /// The request that has this head and that body.
    pub fn into_message(self, body: Bytes) -> Message
        ensures { (h : RequestHead) → HasParts h self → result ≡ message_of h body }
    {
        let close = closes(self.minor, self.headers.as_slice());
        Message {
            method: self.method,
            target: self.target,
            headers: self.headers,
            body,
            close,
        }
    }
}

/// Whether no bytes that may follow make a head of these, which begin with none.
pub(crate) fn is_beyond_repair(bytes: &[u8]) -> bool
    requires none { HasNoHead bytes.now }
    requires short { length bytes.now ≤ LONGEST_HEAD }
    ensures { MatchBool result (RequestOverflows MOST_HEADERS bytes.now) (MayBecomeRequest bytes.now) }
{
    let mut spans = [EMPTY_HEADER_SPAN; MOST_HEADERS];
    parse_request(bytes, &mut spans).is_err()
}

/// The headers that the spans cover.
fn headers_of(alloc: Global, bytes: &[u8], spans: &[HeaderSpan]) -> Result<Headers, Memory>
    requires within { All (IsHeaderWithin (length bytes.now)) spans.now }
    requires names { All (λ span. IsUtf8 (span_bytes bytes.now span.name)) spans.now }
    ensures { IfOk result (λ headers. headers ≡ map (header_at bytes.now) spans.now) }
{
    let mut headers = Vec::with_capacity(alloc, spans.len())?;
    for span in spans {
        let name = text_of(alloc, span.name.of(bytes))?;
        let value = bytes_of(alloc, span.value.of(bytes))?;
        headers.push(Header { name, value })?;
    }
    Ok(Headers::new(headers))
}

/// A copy of bytes that are text. They are not looked at again.
fn text_of(alloc: Global, bytes: &[u8]) -> Result<Text, Memory>
    requires { IsUtf8 bytes.now }
    ensures { IfOk result (λ text. text ≡ bytes.now) }
{
    let copy = Vec::from_slice(alloc, bytes)?;
    Ok(Text::new(unsafe { String::from_utf8_unchecked(copy) }))
}

fn bytes_of(alloc: Global, bytes: &[u8]) -> Result<Bytes, Memory>
    ensures { IfOk result (λ copy. copy ≡ bytes.now) }
{
    Ok(Bytes::new(Vec::from_slice(alloc, bytes)?))
}
