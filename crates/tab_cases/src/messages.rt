//! Cases of messages, each read however its bytes are cut.

ghost use Rattle.std.specs.Prelude.{None};
ghost use Rattle.tab_outside.specs.Sides.{nothing_beside};

use crate::answers::{Answer, counted, field, told, unknown};
use crate::outside::source_of;
use crate::stops::Stop;
use crate::values::add_part;
use std::alloc::Global;
use std::str;
use tab_http::{HttpRefused, Message, read_message};
use tab_outside::{Failed, Source};

/// The longest input that is cut at each of its bytes.
const LONGEST_CUT: usize = 1_000;

/// The longest input that is read a byte a time.
const LONGEST_SLOW: usize = 100_000;

/// The longest body that is spelled whole; of a longer one its size is told.
const LONGEST_SPELLED: usize = 64;

/// The sizes of the first read and of the later ones of an input that is too long to be cut at each byte. Heads end
/// near 32,768 bytes.
const LONG_CUTS: [(usize, usize); 7] = [
    (1, 1),
    (1, usize::MAX),
    (4_095, usize::MAX),
    (4_097, 4_096),
    (32_766, 1),
    (32_767, usize::MAX),
    (32_768, usize::MAX),
];

/// The same of an input that is too long to be read a byte a time.
const LONGEST_CUTS: [(usize, usize); 3] = [(65_537, 65_537), (100_000, 100_000), (1_000, 1_000)];

/// A source that gives at most so many bytes at its first read, and so many at each later one, and does not tell
/// what is left.
#[derive(Drop)]
struct Cut<'b> {
    rest: &'b [u8],
    first: usize,
    later: usize,
}

impl Source for Cut<'_> {
    ghost left = { λ _. None };

    ghost faults = { λ _. 0 };

    ghost beside = { λ _. nothing_beside };

    fn read(&mut self, buf: &mut [u8]) -> Result<usize, Failed> {
        let count = self.rest.len().min(buf.len()).min(self.first);
        let (front, behind) = self.rest.split_at(count);
        buf[..count].copy_from_slice(front);
        self.rest = behind;
        self.first = self.later;
        Ok(count)
    }
}

/// A block, and then `message`: the messages that its bytes are. `head START | LINE ..`: the same of one head. A block, and then
/// `faulty FAILS | NAME ..`: the message where the listed reads fail, and its headers of these names.
pub fn answer(alloc: Global, word: &str, fields: &[String], block: &str) -> Answer {
    match word {
        "message" => messages(alloc, block.as_bytes()),
        "head" => of_head(alloc, fields),
        "faulty" => faulty(alloc, fields, block),
        _ => unknown(),
    }
}

fn of_head(alloc: Global, lines: &[String]) -> Answer {
    let head = head(alloc, lines)?;
    messages(alloc, head.as_bytes())
}

/// The bytes of a head of these lines.
fn head(alloc: Global, lines: &[String]) -> Answer {
    let mut head = String::new(alloc);
    for line in lines {
        head.push_str(line.as_str())?;
        head.push_str("\r\n")?;
    }
    head.push_str("\r\n")?;
    Ok(head)
}

/// What the input gives, or also what another cutting of it gives where that differs.
fn messages(alloc: Global, input: &[u8]) -> Answer {
    let whole = read_cut(alloc, input, usize::MAX, usize::MAX)?;
    with_cuts(alloc, input, whole.as_str())
}

fn with_cuts(alloc: Global, input: &[u8], whole: &str) -> Answer {
    let mut came = told(alloc, &[whole])?;
    if input.len() <= LONGEST_CUT {
        cut_everywhere(alloc, &mut came, input, whole)?;
    }
    cut_so(alloc, &mut came, input, whole)?;
    Ok(came)
}

/// Adds what differs where the input is cut in two at a byte, or has as many bytes carried over.
fn cut_everywhere(alloc: Global, came: &mut String, input: &[u8], whole: &str) -> Result<(), Stop> {
    for offset in 1..input.len() {
        add_cut_at(alloc, came, input, whole, offset)?;
    }
    Ok(())
}

fn add_cut_at(
    alloc: Global,
    came: &mut String,
    input: &[u8],
    whole: &str,
    offset: usize,
) -> Result<(), Stop> {
    add_cut(alloc, came, input, whole, (offset, usize::MAX))?;
    add_carried(alloc, came, input, whole, offset)
}

/// Adds what differs at one of the cuts for an input of its size.
fn cut_so(alloc: Global, came: &mut String, input: &[u8], whole: &str) -> Result<(), Stop> {
    let cuts: &[(usize, usize)] = if input.len() <= LONGEST_SLOW {
        &LONG_CUTS
    } else {
        &LONGEST_CUTS
    };
    for cut in cuts {
        add_cut(alloc, came, input, whole, *cut)?;
    }
    Ok(())
}

fn add_cut(
    alloc: Global,
    came: &mut String,
    input: &[u8],
    whole: &str,
    cut: (usize, usize),
) -> Result<(), Stop> {
    let other = read_cut(alloc, input, cut.0, cut.1)?;
    add_other(came, whole, other.as_str())
}

/// Adds what differs where so many bytes of the input were read before.
fn add_carried(
    alloc: Global,
    came: &mut String,
    input: &[u8],
    whole: &str,
    count: usize,
) -> Result<(), Stop> {
    let (front, rest) = input.split_at(count.min(input.len()));
    let mut carry = Vec::from_slice(alloc, front)?;
    let other = all_messages(alloc, &mut cut_of(rest, 1, usize::MAX), &mut carry)?;
    add_other(came, whole, other.as_str())
}

/// Adds what a cutting gives where it differs from the whole.
fn add_other(came: &mut String, whole: &str, cut: &str) -> Result<(), Stop> {
    if cut != whole {
        came.push_str(", but cut otherwise ")?;
        came.push_str(cut)?;
    }
    Ok(())
}

fn cut_of(rest: &[u8], first: usize, later: usize) -> Cut<'_> {
    Cut { rest, first, later }
}

fn read_cut(alloc: Global, input: &[u8], first: usize, later: usize) -> Answer {
    let mut carry = Vec::new(alloc);
    all_messages(alloc, &mut cut_of(input, first, later), &mut carry)
}

/// What is read one after another up to a refusal, and once more where that comes first.
fn all_messages(alloc: Global, source: &mut Cut<'_>, carry: &mut Vec<u8>) -> Answer {
    let mut text = String::new(alloc);
    let mut is_refused = false;
    for number in 0..8u8 {
        if !is_refused || number == 1 {
            is_refused = add_next(alloc, &mut text, source, carry)?;
        }
    }
    Ok(text)
}

/// Adds the next message, or why it is refused, and tells whether it is.
fn add_next(
    alloc: Global,
    text: &mut String,
    source: &mut Cut<'_>,
    carry: &mut Vec<u8>,
) -> Result<bool, Stop> {
    match read_message(alloc, source, carry) {
        Ok(message) => add_message(alloc, text, &message),
        Err(why) => add_refused(alloc, text, why),
    }
}

fn add_message(alloc: Global, text: &mut String, message: &Message) -> Result<bool, Stop> {
    let part = message_text(alloc, message)?;
    add_part(text, part.as_str())?;
    Ok(false)
}

fn add_refused(alloc: Global, text: &mut String, why: HttpRefused) -> Result<bool, Stop> {
    let part = format!(in alloc; "{why:?}")?;
    add_part(text, part.as_str())?;
    Ok(true)
}

/// The method, the target and the body of a message, and whether the connection is closed behind it.
pub fn message_text(alloc: Global, message: &Message) -> Answer {
    let body = body_text(alloc, message.body.as_slice())?;
    let closes = if message.close { "] closes" } else { "]" };
    let method = message.method.as_str();
    told(
        alloc,
        &[
            method,
            " ",
            message.target.as_str(),
            " [",
            body.as_str(),
            closes,
        ],
    )
}

/// A body, or its size where it is long or no text.
fn body_text(alloc: Global, body: &[u8]) -> Answer {
    if body.len() > LONGEST_SPELLED {
        return size_text(alloc, body);
    }
    match str::from_utf8(body) {
        Ok(text) => told(alloc, &[text]),
        Err(_) => size_text(alloc, body),
    }
}

fn size_text(alloc: Global, body: &[u8]) -> Answer {
    counted(alloc, "", body.len() as u64, " bytes")
}

fn faulty(alloc: Global, fields: &[String], block: &str) -> Answer {
    let mut source = source_of(alloc, field(fields, 0)?, block)?;
    let mut carry = Vec::new(alloc);
    match read_message(alloc, &mut source, &mut carry) {
        Ok(message) => headers_text(alloc, &message, fields),
        Err(why) => Ok(format!(in alloc; "{why:?}")?),
    }
}

/// A message, and the values of its headers of the names behind the first field.
fn headers_text(alloc: Global, message: &Message, fields: &[String]) -> Answer {
    let mut text = message_text(alloc, message)?;
    for name in fields.iter().skip(1) {
        add_header(&mut text, message, name.as_str())?;
    }
    Ok(text)
}

fn add_header(text: &mut String, message: &Message, name: &str) -> Result<(), Stop> {
    add_part(text, name)?;
    text.push_str(" ")?;
    text.push_str(header_text(message, name))?;
    Ok(())
}

fn header_text<'m>(message: &'m Message, name: &str) -> &'m str {
    match message.header(name) {
        Some(value) => str::from_utf8(value).unwrap_or("?"),
        None => "none",
    }
}
