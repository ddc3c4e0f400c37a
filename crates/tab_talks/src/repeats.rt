//! Lines that are read several times, each time with another number in them.

use crate::unreadable::Why;
use std::alloc::{AllocError, Global};

/// A line of the file.
#[derive(Drop)]
pub struct Line {
    /// Its number in the file.
    pub number: usize,
    pub text: String,
}

/// The lines to repeat.
#[derive(Drop)]
pub struct Repeat {
    pub count: usize,
    /// The word in whose place the number of the time stands, counted from 0, with as many digits as the word has
    /// letters.
    word: String,
    pub lines: Vec<Line>,
}

impl Repeat {
    /// Reads `COUNT WORD`.
    pub fn new(alloc: Global, text: &str) -> Result<Repeat, Why> {
        let Some((count, word)) = text.split_once(' ') else {
            return Err(Why::NotANumber);
        };
        let Ok(count) = count.parse() else {
            return Err(Why::NotANumber);
        };
        Ok(Repeat {
            count,
            word: String::from_str(alloc, word)?,
            lines: Vec::new(alloc),
        })
    }

    /// Adds a line.
    pub fn push(&mut self, alloc: Global, number: usize, text: &str) -> Result<(), Why> {
        let text = String::from_str(alloc, text)?;
        self.lines.push(Line { number, text })?;
        Ok(())
    }

    /// The line's text at that time.
    pub fn text_at(&self, alloc: Global, line: &Line, time: usize) -> Result<String, AllocError> {
        let width = self.word.len();
        let number = format!(in alloc; "{time:0width$}")?;
        line.text
            .replace(alloc, self.word.as_str(), number.as_str())
    }
}
