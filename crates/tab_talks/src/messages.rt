//! Requests and replies as they stand in a file, and the bytes that they come to (RFC 9112, 2.1: a message has a first
//! line, header lines, an empty line and a body).

use crate::escapes::{push_number, push_text};
use crate::unreadable::Why;
use std::alloc::Global;

/// How a message is written.
#[derive(Clone, Copy)]
pub enum Form {
    /// Line by line: ends of lines, and a length that is left out, are added.
    Lines,
    /// Byte for byte.
    Bytes,
}

/// A message, as far as it has been read.
#[derive(Drop)]
pub struct Message {
    /// The file's line at which it begins.
    pub line: usize,
    part: Part,
    first_line: Vec<u8>,
    headers: Vec<u8>,
    has_length: bool,
    body: Vec<u8>,
}

/// Where a message's reading stands.
#[derive(Clone, Copy, Drop)]
enum Part {
    Head,
    /// The empty line was read, and no line of a body.
    EmptyLine,
    Body,
    /// Among the bytes of a message that is written byte for byte.
    Bytes,
}

const LINE_END: &[u8] = b"\r\n";

impl Message {
    pub fn new(alloc: Global, line: usize, form: Form) -> Message {
        let part = match form {
            Form::Lines => Part::Head,
            Form::Bytes => Part::Bytes,
        };
        Message {
            line,
            part,
            first_line: Vec::new(alloc),
            headers: Vec::new(alloc),
            has_length: false,
            body: Vec::new(alloc),
        }
    }

    /// Adds a line, whose escapes are read.
    pub fn push(&mut self, form: Form, text: &str) -> Result<(), Why> {
        match (self.part, form) {
            (Part::Bytes, Form::Bytes) => push_text(&mut self.body, text),
            (Part::Bytes, _) | (_, Form::Bytes) => Err(Why::MixedForms),
            (Part::Head, _) if !text.is_empty() => self.push_head_line(text),
            _ => self.push_body_line(text),
        }
    }

    fn push_head_line(&mut self, text: &str) -> Result<(), Why> {
        if text.starts_with(LENGTH) {
            self.has_length = true;
        }
        if self.first_line.is_empty() {
            push_line(&mut self.first_line, text)
        } else {
            push_line(&mut self.headers, text)
        }
    }

    /// Adds the empty line, or a line behind it.
    fn push_body_line(&mut self, text: &str) -> Result<(), Why> {
        match self.part {
            Part::Head => self.part = Part::EmptyLine,
            Part::EmptyLine => self.part = Part::Body,
            Part::Body | Part::Bytes => self.body.extend_from_slice(LINE_END)?,
        }
        push_text(&mut self.body, text)
    }

    /// The message's bytes. A length that is left out stands behind the first line.
    pub fn bytes(self, alloc: Global) -> Result<Vec<u8>, Why> {
        let Message {
            line: _,
            part,
            first_line: mut bytes,
            headers,
            has_length,
            body,
        } = self;
        match part {
            Part::Head => return Err(Why::NoEmptyLine),
            Part::Bytes => return Ok(body),
            Part::Body if !has_length => push_length(&mut bytes, alloc, body.len())?,
            _ => {}
        }
        bytes.extend_from_slice(headers.as_slice())?;
        bytes.extend_from_slice(LINE_END)?;
        bytes.extend_from_slice(body.as_slice())?;
        Ok(bytes)
    }
}

fn push_line(lines: &mut Vec<u8>, text: &str) -> Result<(), Why> {
    push_text(lines, text)?;
    lines.extend_from_slice(LINE_END)?;
    Ok(())
}

/// The header that says how long a body is (RFC 9110, 8.6).
const LENGTH: &str = "Content-Length: ";

fn push_length(head: &mut Vec<u8>, alloc: Global, length: usize) -> Result<(), Why> {
    head.extend_from_slice(LENGTH.as_bytes())?;
    push_number(head, alloc, length)?;
    head.extend_from_slice(LINE_END)?;
    Ok(())
}
