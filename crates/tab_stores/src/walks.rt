//! The walk over the lines of a file of cases: what is called, and the answer that is due to it.

use crate::runs::answer;
use crate::stops::Stop;
use std::alloc::Global;

/// A walk over the lines of a file.
#[derive(Drop)]
pub struct Walk {
    alloc: Global,
    /// The number of the line that was read last, counted from 1.
    pub line: u64,
    /// How many answers were compared.
    pub compared: u64,
    /// An answer that came, and is yet to be compared or differs.
    pub came: Option<String>,
}

impl Walk {
    pub fn new(alloc: Global) -> Walk {
        Walk {
            alloc,
            line: 0,
            compared: 0,
            came: None,
        }
    }

    /// Goes over the lines of a file, one after another.
    pub fn run(&mut self, lines: &str) -> Result<(), Stop> {
        for line in lines.lines() {
            self.line = self.line.saturating_add(1);
            self.take(line.trim_ascii())?;
        }
        self.end()
    }

    /// Looks whether a file may end here.
    fn end(&self) -> Result<(), Stop> {
        if self.came.is_some() {
            Err(Stop::Unread("the last answer is missing"))
        } else if self.compared == 0 {
            Err(Stop::Unread("the file has no case"))
        } else {
            Ok(())
        }
    }

    /// Takes a line: the answer to the line before it, or one that calls.
    fn take(&mut self, line: &str) -> Result<(), Stop> {
        let is_blank = line.is_empty() || line.starts_with('#');
        match (self.came.is_some(), is_blank) {
            (true, true) => Err(Stop::Unread("an answer is missing before this line")),
            (true, false) => self.compare(line),
            (false, true) => Ok(()),
            (false, false) => self.ask(line),
        }
    }

    fn ask(&mut self, line: &str) -> Result<(), Stop> {
        let came = answer(self.alloc, line)?;
        self.came = Some(came);
        Ok(())
    }

    /// Compares the answer that came with the one that is due.
    fn compare(&mut self, due: &str) -> Result<(), Stop> {
        if !self.is(due) {
            return Err(Stop::Differs);
        }
        self.came = None;
        self.compared = self.compared.saturating_add(1);
        Ok(())
    }

    fn is(&self, due: &str) -> bool {
        match &self.came {
            Some(came) => came.as_str() == due,
            None => false,
        }
    }
}
