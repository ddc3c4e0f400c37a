//! The heads of replies: status line and headers of HTTP/1.1 (RFC 9112, sections 4 and 5), and the body behind them.
ghost use Rattle.std.specs.Prelude.{◌≡◌, ◌≤◌, ◌∷◌, ◌++◌, [], map, flat_map, codes, decimal, string_bytes, IfOk, OnOk};
ghost use Rattle.http.specs.StatusCode.{IsStatusCode};
ghost use Rattle.tab_edm.specs.Moments.{text_of_etag};
ghost use Rattle.tab_edm.specs.declared.TheConstants.{GREATEST};
ghost use Rattle.tab_service.specs.Replies.{header_line, status_line, head_text, version_header, reply_with_body, json_type, bodiless_reply};

use http::StatusCode;
use itoa::Buffer;
use std::alloc::{AllocError, Global};
use tab_edm::etag_text;
use tab_keys::Memory;

/// The types of bodies.
const MINIMAL_JSON: &str = "application/json;odata=minimalmetadata;streaming=true;charset=utf-8";

const PLAIN_JSON: &str = "application/json;odata=nometadata;streaming=true;charset=utf-8";

/// The version of the protocol that is spoken.
const VERSION: &str = "2019-02-02";

/// The room for a head in bytes, beside its body: few heads are longer.
const HEAD_ROOM: usize = 256;

/// The type of a body with minimal metadata, or with none.
pub fn json_type(minimal: bool) -> &'static str
    ensures { result.now ≡ json_type minimal }
{
    if minimal { MINIMAL_JSON } else { PLAIN_JSON }
}

/// The ETag of a tick.
pub fn etag_of(alloc: Global, tick: u64) -> Result<String, Memory>
    requires { tick ≤ GREATEST }
    ensures { IfOk result (λ text. string_bytes text ≡ text_of_etag tick) }
{
    etag_text(alloc, tick).map_err(|_| Memory)
}

/// The head, and the text behind it. More headers stand between those of the body and the version.
pub fn reply_with_body(
    alloc: Global,
    status: u16,
    kind: &str,
    more: &[(&str, &str)],
    body: &str,
) -> Result<Vec<u8>, Memory>
    requires { IsStatusCode status }
    ensures { IfOk result (λ bytes. bytes.items ≡ reply_with_body status kind.now (map (λ header. (header.0.now, header.1.now)) more.now) body.now) }
{
    reply_with_bytes(alloc, status, kind, more, body.as_bytes())
}

/// The same with a body of bytes.
#[tactic(auto, unfolding(crate::specs::Replies::reply_with_body))]
pub fn reply_with_bytes(
    alloc: Global,
    status: u16,
    kind: &str,
    more: &[(&str, &str)],
    body: &[u8],
) -> Result<Vec<u8>, Memory>
    requires { IsStatusCode status }
    ensures { IfOk result (λ bytes. bytes.items ≡ reply_with_body status kind.now (map (λ header. (header.0.now, header.1.now)) more.now) body.now) }
{
    let head = head_text(alloc, status, body.len(), kind, more)?;
    let mut bytes = head.into_bytes();
    bytes.extend_from_slice(body)?;
    Ok(bytes)
}

/// The head of a reply with a body of this length, in which there is room for that body.
fn head_text(
    alloc: Global,
    status: u16,
    length: usize,
    kind: &str,
    more: &[(&str, &str)],
) -> Result<String, AllocError>
    requires { IsStatusCode status }
    ensures { IfOk result (λ text. string_bytes text
        ≡ head_text status ((codes "Content-Length", decimal length) ∷ (codes "Content-Type", kind.now)
        ∷ (map (λ header. (header.0.now, header.1.now)) more.now ++ version_header ∷ []))) }
{
    let mut head = status_line(alloc, HEAD_ROOM.saturating_add(length), status)?;
    let mut digits = Buffer::new();
    push_header(&mut head, "Content-Length", digits.format(length))?;
    push_header(&mut head, "Content-Type", kind)?;
    push_headers(&mut head, more)?;
    push_header(&mut head, "x-ms-version", VERSION)?;
    head.push_str("\r\n")?;
    Ok(head)
}

/// The head of a reply without a body.
#[tactic(auto, unfolding(crate::specs::Replies::bodiless_reply))]
pub fn bodiless_bytes(alloc: Global, headers: &[(&str, &str)]) -> Result<Vec<u8>, Memory>
    ensures { IfOk result (λ bytes. bytes.items ≡ bodiless_reply 204 (map (λ header. (header.0.now, header.1.now)) headers.now)) }
{
    let mut head = status_line(alloc, HEAD_ROOM, 204)?;
    push_headers(&mut head, headers)?;
    push_header(&mut head, "x-ms-version", VERSION)?;
    head.push_str("\r\n")?;
    Ok(head.into_bytes())
}

/// The status line, in a text with so much room.
#[tactic(auto, unfolding(crate::specs::Replies::status_line))]
fn status_line(alloc: Global, room: usize, status: u16) -> Result<String, AllocError>
    requires { IsStatusCode status }
    ensures { IfOk result (λ text. string_bytes text ≡ status_line status) }
{
    let status = StatusCode::from_u16(status).unwrap();
    let mut head = String::with_capacity(alloc, room)?;
    write!(head, "HTTP/1.1 {status}\r\n")?;
    Ok(head)
}

fn push_headers(head: &mut String, headers: &[(&str, &str)]) -> Result<(), AllocError>
    ensures { OnOk result (string_bytes head.new ≡ string_bytes head.old ++ flat_map header_line (map (λ header. (header.0.now, header.1.now)) headers.now)) }
{
    for (name, value) in headers {
        push_header(head, name, value)?;
    }
    Ok(())
}

#[tactic(auto, unfolding(crate::specs::Replies::header_line))]
fn push_header(head: &mut String, name: &str, value: &str) -> Result<(), AllocError>
    ensures { OnOk result (string_bytes head.new ≡ string_bytes head.old ++ header_line (name.now, value.now)) }
{
    write!(head, "{name}: {value}\r\n")
}
