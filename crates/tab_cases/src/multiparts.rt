//! Cases of multipart bodies, of the boundaries that announce them, and of the text of a reply to a batch.

use crate::answers::{Answer, counted, field, some_or, told, unknown};
use crate::messages::message_text;
use crate::stops::{NO_MEMORY, Stop};
use crate::values::add_part;
use std::alloc::{AllocError, Global};
use std::str;
use tab_batch::{BatchRefused, boundary_of, read_batch, write_batch};
use tab_http::Message;

/// What stands in a block before the line that is refused, and is no part of the body.
const MARK: &str = "^";

/// A block, and then `multipart BOUNDARY`: the requests that it has, or why it is refused. `boundary TYPE`: the boundary of a
/// content type. A block, and then `answers PART | PART ..`: whether the block is the reply with these parts.
pub fn answer(alloc: Global, word: &str, fields: &[String], block: &str) -> Answer {
    match word {
        "multipart" => multipart(alloc, field(fields, 0)?, block),
        "boundary" => boundary(alloc, field(fields, 0)?),
        "answers" => answers(alloc, fields, block),
        _ => unknown(),
    }
}

fn multipart(alloc: Global, boundary: &str, block: &str) -> Answer {
    match block.split_once(MARK) {
        Some((front, rest)) => {
            let body = told(alloc, &[front, rest])?;
            requests(alloc, boundary, body.as_str(), front.len())
        }
        None => requests(alloc, boundary, block, usize::MAX),
    }
}

/// The requests of a body, or that it is refused at the mark or elsewhere.
fn requests(alloc: Global, boundary: &str, body: &str, mark: usize) -> Answer {
    match read_batch(alloc, boundary.as_bytes(), body.as_bytes()) {
        Ok(messages) => requests_text(alloc, messages.as_slice()),
        Err(BatchRefused::BadMultipart { at }) if at == mark => told(
            alloc,
            &["refused at the mark"],
        ),
        Err(BatchRefused::BadMultipart { at }) => counted(alloc, "refused at ", at as u64, ""),
        Err(BatchRefused::BadPart { index }) => counted(alloc, "refused part ", index as u64, ""),
        Err(BatchRefused::Memory) => Err(NO_MEMORY),
    }
}

fn requests_text(alloc: Global, messages: &[Message]) -> Answer {
    let mut text = String::new(alloc);
    for message in messages {
        add_message(alloc, &mut text, message)?;
    }
    some_or(text, "no requests")
}

/// Adds a message to those before it.
pub fn add_message(alloc: Global, text: &mut String, message: &Message) -> Result<(), Stop> {
    add_part(text, message_text(alloc, message)?.as_str())
}

fn boundary(alloc: Global, value: &str) -> Answer {
    match boundary_of(value.as_bytes()) {
        Some(boundary) => told(alloc, &["'", str::from_utf8(boundary).unwrap_or("?"), "'"]),
        None => told(alloc, &["none"]),
    }
}

fn answers(alloc: Global, parts: &[String], block: &str) -> Answer {
    let parts = replies(alloc, parts)?;
    reply(alloc, parts.as_slice(), block)
}

fn reply(alloc: Global, parts: &[Vec<u8>], block: &str) -> Answer {
    let reply = write_batch(alloc, parts)?;
    compared(alloc, reply.as_slice(), block)
}

fn compared(alloc: Global, reply: &[u8], block: &str) -> Answer {
    if reply == block.as_bytes() {
        return told(alloc, &["as the block"]);
    }
    told(alloc, &[str::from_utf8(reply).unwrap_or("?")])
}

/// The parts that are not empty.
fn replies(alloc: Global, parts: &[String]) -> Result<Vec<Vec<u8>>, AllocError> {
    let mut replies = Vec::new(alloc);
    for part in parts {
        if !part.is_empty() {
            replies.push(Vec::from_slice(alloc, part.as_bytes())?)?;
        }
    }
    Ok(replies)
}
