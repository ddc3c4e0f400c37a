//! The runs of talks, and how what they wrote differs from what was due.

use crate::escapes::{push_number, shown};
use crate::service::run_over;
use crate::talks::{Due, STATUS, Talk};
use std::alloc::{AllocError, Global};

/// The first difference of a run, in texts for people.
#[derive(Drop)]
pub struct Difference {
    pub title: String,
    /// The file's line that says what is due.
    pub line: usize,
    pub due: String,
    pub came: String,
}

/// Runs a talk, and answers its first difference, if there is one.
pub fn hold(alloc: Global, talk: Talk) -> Result<Option<Difference>, AllocError> {
    let Talk {
        title,
        words,
        schedule,
        due,
        ..
    } = talk;
    let came = came_of(alloc, words.as_slice(), schedule)?;
    let Some((due, came)) = first_unlike(due.as_slice(), came.as_slice()) else {
        return Ok(None);
    };
    Ok(Some(Difference {
        title,
        line: due.line,
        due: shown(alloc, due.bytes.as_slice())?,
        came: shown(alloc, came)?,
    }))
}

/// What a run writes, and behind that its status.
fn came_of(alloc: Global, words: &[String], schedule: Vec<u8>) -> Result<Vec<u8>, AllocError> {
    let came = run_over(alloc, words, schedule);
    let mut bytes = Vec::from_slice(alloc, came.sink.bytes())?;
    push_number(&mut bytes, alloc, usize::from(came.status))?;
    bytes.extend_from_slice(STATUS)?;
    Ok(bytes)
}

/// The first of what is due that did not come, and what came in its place. The status is due last, and comes last.
fn first_unlike<'a>(due: &'a [Due], came: &'a [u8]) -> Option<(&'a Due, &'a [u8])> {
    let mut rest = came;
    for item in due {
        match rest.strip_prefix(item.bytes.as_slice()) {
            Some(behind) => rest = behind,
            None => return Some((item, rest)),
        }
    }
    None
}
