//! The walk over the lines of a file of cases: what is given, and the answer that is due to it.

use crate::answers::Answer;
use crate::escapes::text;
use crate::stops::Stop;
use crate::subjects::answer;
use std::alloc::Global;

/// What parts an answer from what is given on the same line.
const ARROW: &str = " -> ";

/// A walk over the lines of the file of a subject.
#[derive(Drop)]
pub struct Walk<'l> {
    alloc: Global,
    subject: &'l str,
    /// The number of the line that was read last, counted from 1.
    pub line: u64,
    /// How many answers were compared.
    pub compared: u64,
    /// An answer that came, and is yet to be compared or differs.
    pub came: Option<String>,
    /// The answer that was due at the last line with one.
    pub due: String,
    /// The fields that stand before those of each line.
    with: &'l str,
    /// The lines of the block before the next line that asks.
    block: String,
}

impl<'l> Walk<'l> {
    pub fn new(alloc: Global, subject: &'l str) -> Walk<'l> {
        Walk {
            alloc,
            subject,
            line: 0,
            compared: 0,
            came: None,
            due: String::new(alloc),
            with: "",
            block: String::new(alloc),
        }
    }

    /// Goes over the lines of a file, one after another.
    pub fn run(&mut self, lines: &'l str) -> Result<(), Stop> {
        for line in lines.lines() {
            self.line = self.line.saturating_add(1);
            self.take(line.trim_ascii())?;
        }
        self.end()
    }

    /// Looks whether a file may end here.
    fn end(&self) -> Result<(), Stop> {
        if self.came.is_some() {
            Err(Stop::Unread("the last answer is missing"))
        } else if self.compared == 0 {
            Err(Stop::Unread("the file has no case"))
        } else {
            Ok(())
        }
    }

    /// Takes a line: the answer to the line before it, or one that gives something.
    fn take(&mut self, line: &'l str) -> Result<(), Stop> {
        let is_blank = line.is_empty() || line.starts_with('#');
        match (self.came.is_some(), is_blank) {
            (true, true) => Err(Stop::Unread("an answer is missing before this line")),
            (true, false) => self.compare(line),
            (false, true) => Ok(()),
            (false, false) => self.give(line),
        }
    }

    /// Compares the answer that came with the one that is due.
    fn compare(&mut self, due: &str) -> Result<(), Stop> {
        self.due = text(self.alloc, due)?;
        if !self.is_due() {
            return Err(Stop::Differs);
        }
        self.came = None;
        self.compared = self.compared.saturating_add(1);
        Ok(())
    }

    fn is_due(&self) -> bool {
        match &self.came {
            Some(came) => came.as_str() == self.due.as_str(),
            None => false,
        }
    }

    /// Takes a line that gives something, by its word.
    fn give(&mut self, line: &'l str) -> Result<(), Stop> {
        let (word, given) = split_word(line);
        match word {
            "with" => {
                self.with = given;
                Ok(())
            }
            "crlf" => self.add(given, "\r\n"),
            "lf" => self.add(given, "\n"),
            "text" => self.add(given, ""),
            _ => self.ask(line),
        }
    }

    /// Adds a line to the block.
    fn add(&mut self, given: &str, end: &str) -> Result<(), Stop> {
        let line = text(self.alloc, given)?;
        self.block.push_str(line.as_str())?;
        self.block.push_str(end)?;
        Ok(())
    }

    /// Asks what a line comes to. Its answer is due behind the arrow, or on the next line.
    fn ask(&mut self, line: &str) -> Result<(), Stop> {
        match line.split_once(ARROW) {
            Some((given, due)) => {
                self.answer(given.trim_ascii())?;
                self.compare(due.trim_ascii())
            }
            None => self.answer(line),
        }
    }

    /// Finds the answer to a line, with the fields that hold here and the block before it.
    fn answer(&mut self, line: &str) -> Result<(), Stop> {
        let (word, given) = split_word(line);
        let fields = fields(self.alloc, self.with, given)?;
        let came = self.came_of(word, fields.as_slice())?;
        self.came = Some(came);
        self.block.clear();
        Ok(())
    }

    fn came_of(&self, word: &str, fields: &[String]) -> Answer {
        answer(self.alloc, self.subject, word, fields, self.block.as_str())
    }
}

/// The fields of a line behind those that hold for it, if there are such.
fn fields(alloc: Global, with: &str, given: &str) -> Result<Vec<String>, Stop> {
    let mut fields = Vec::new(alloc);
    if !with.is_empty() {
        push_fields(alloc, &mut fields, with)?;
    }
    push_fields(alloc, &mut fields, given)?;
    Ok(fields)
}

/// Adds the texts that stand between bars.
fn push_fields(alloc: Global, fields: &mut Vec<String>, given: &str) -> Result<(), Stop> {
    for field in given.split('|') {
        let field = text(alloc, field.trim_ascii())?;
        fields.push(field)?;
    }
    Ok(())
}

/// The word that a line begins with, and what stands behind it without blanks around it.
pub fn split_word(text: &str) -> (&str, &str) {
    match text.split_once(' ') {
        Some((word, behind)) => (word, behind.trim_ascii()),
        None => (text, ""),
    }
}
