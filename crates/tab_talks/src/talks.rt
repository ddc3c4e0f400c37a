//! A talk: the schedule that a run is given, and what it is to write.

use crate::escapes::{push_number, push_text};
use crate::unreadable::Why;
use std::alloc::Global;

/// Bytes that a run is to write next.
#[derive(Drop)]
pub struct Due {
    /// The file's line that says so.
    pub line: usize,
    pub bytes: Vec<u8>,
}

/// One run, and what is due.
#[derive(Drop)]
pub struct Talk {
    pub title: String,
    /// The file's line at which it begins.
    line: usize,
    pub words: Vec<String>,
    pub schedule: Vec<u8>,
    /// What is due, the line of the status last.
    pub due: Vec<Due>,
    /// How many of what is due are replies.
    pub replies: usize,
    /// Whether it says how the run ends, and so its whole schedule. Otherwise the line `end` stands behind that, and the
    /// status is to be 0.
    has_status: bool,
}

/// What stands behind a run's status, which is due last.
pub const STATUS: &[u8] = b" is the status";

/// The command's words where a talk says no others: the open account `shop`.
const USUAL_WORDS: &str = "drive shop -";

impl Talk {
    pub fn new(alloc: Global, line: usize, title: &str) -> Result<Talk, Why> {
        Ok(Talk {
            title: String::from_str(alloc, title)?,
            line,
            words: words_of(alloc, USUAL_WORDS)?,
            schedule: Vec::new(alloc),
            due: Vec::new(alloc),
            replies: 0,
            has_status: false,
        })
    }

    /// Sets the command's words.
    pub fn set_words(&mut self, alloc: Global, text: &str) -> Result<(), Why> {
        self.words = words_of(alloc, text)?;
        Ok(())
    }

    /// Adds the event that sets the moment, and its answer.
    pub fn push_now(&mut self, alloc: Global, line: usize, text: &str) -> Result<(), Why> {
        self.schedule.extend_from_slice(b"now ")?;
        self.push_schedule(text, b"\n")?;
        self.push_due(alloc, line, "ok", b"\n")
    }

    /// Adds the event of a client's message.
    pub fn push_call(&mut self, alloc: Global, message: &[u8]) -> Result<(), Why> {
        push_counted(&mut self.schedule, alloc, b"call ", message)
    }

    /// Adds a reply that is due.
    pub fn push_reply(&mut self, alloc: Global, line: usize, reply: &[u8]) -> Result<(), Why> {
        let mut bytes = Vec::new(alloc);
        push_counted(&mut bytes, alloc, b"reply ", reply)?;
        self.replies = self.replies.saturating_add(1);
        self.due.push(Due { line, bytes })?;
        Ok(())
    }

    /// Adds the bytes that a text says to the schedule, and an end.
    pub fn push_schedule(&mut self, text: &str, end: &[u8]) -> Result<(), Why> {
        push_text(&mut self.schedule, text)?;
        self.schedule.extend_from_slice(end)?;
        Ok(())
    }

    /// Adds the bytes that a text says to what is due, and an end.
    pub fn push_due(
        &mut self,
        alloc: Global,
        line: usize,
        text: &str,
        end: &[u8],
    ) -> Result<(), Why> {
        let mut bytes = Vec::new(alloc);
        push_text(&mut bytes, text)?;
        bytes.extend_from_slice(end)?;
        self.due.push(Due { line, bytes })?;
        Ok(())
    }

    /// Sets how the run ends.
    pub fn push_status(&mut self, alloc: Global, line: usize, text: &str) -> Result<(), Why> {
        self.has_status = true;
        self.push_due(alloc, line, text, STATUS)
    }

    /// Ends the talk, in which something has to be due.
    pub fn end(&mut self, alloc: Global) -> Result<(), Why> {
        if self.due.is_empty() {
            return Err(Why::NothingDue);
        }
        if self.has_status {
            return Ok(());
        }
        self.push_schedule("end", b"\n")?;
        self.push_status(alloc, self.line, "0")
    }
}

/// Adds a word, the length, and the bytes, with line feeds behind both.
fn push_counted(out: &mut Vec<u8>, alloc: Global, word: &[u8], bytes: &[u8]) -> Result<(), Why> {
    out.extend_from_slice(word)?;
    push_number(out, alloc, bytes.len())?;
    out.push(b'\n')?;
    out.extend_from_slice(bytes)?;
    out.push(b'\n')?;
    Ok(())
}

/// The words of a line, which single spaces part.
fn words_of(alloc: Global, text: &str) -> Result<Vec<String>, Why> {
    let mut words = Vec::new(alloc);
    if text.is_empty() {
        return Ok(words);
    }
    for word in text.split(' ') {
        words.push(word_of(alloc, word)?)?;
    }
    Ok(words)
}

fn word_of(alloc: Global, text: &str) -> Result<String, Why> {
    let mut bytes = Vec::new(alloc);
    push_text(&mut bytes, text)?;
    match String::from_utf8(bytes) {
        Ok(word) => Ok(word),
        Err(_) => Err(Why::WordNotText),
    }
}
