//! Why a file of talks cannot be read.

use std::alloc::{AllocError, AllocFailed};
use std::fmt;

/// What is wrong with a line, or with the message or the talk that ends there.
#[derive(Clone, Copy)]
pub enum Why {
    UnknownMark,
    BadEscape,
    NoTalk,
    NothingDue,
    WordNotText,
    NotANumber,
    NoReply,
    NoRequest,
    MixedForms,
    NoEmptyLine,
    UnknownReply,
    NamedTwice,
    NoAgain,
    Memory,
}

impl fmt::Display for Why {
    fn fmt<W: fmt::Write>(&self, f: &mut fmt::Formatter<W>) -> fmt::Result {
        f.write_str(match self {
            Why::UnknownMark => "an unknown mark",
            Why::BadEscape => "a bad escape",
            Why::NoTalk => "no talk begins before it",
            Why::NothingDue => "a talk in which nothing is due",
            Why::WordNotText => "a word that is not UTF-8",
            Why::NotANumber => "not a number that fits",
            Why::NoReply => "a request without a reply",
            Why::NoRequest => "a reply without a request",
            Why::MixedForms => "lines and bytes in one message",
            Why::NoEmptyLine => "a message without an empty line behind its head",
            Why::UnknownReply => "a name without a reply",
            Why::NamedTwice => "a reply that is named twice",
            Why::NoAgain => "lines to repeat without their end",
            Why::Memory => "out of memory",
        })
    }
}

impl From<AllocError> for Why {
    fn from(_error: AllocError) -> Why {
        Why::Memory
    }
}

impl<T: Drop> From<AllocFailed<T>> for Why {
    fn from(_error: AllocFailed<T>) -> Why {
        Why::Memory
    }
}

/// A file that cannot be read, and the line, counted from 1, at which that shows.
#[derive(Clone, Copy)]
pub struct Unreadable {
    pub line: usize,
    pub why: Why,
}
