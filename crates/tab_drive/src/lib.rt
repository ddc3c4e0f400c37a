//! Schedules of requests, and the top call `run`.
#![tactic(auto)]

mod entries;
mod inits;
mod laws;
mod lines;
mod look_ups;
mod messages;
mod outgoing;
mod ranges;
mod reading;
mod runs;
mod schedule;
mod serving;
mod session;
mod stores;
mod tables;

pub use laws::{calls_are_signed, calls_come_to_something, one_decision, one_text};
pub use outgoing::{Outgoing, write_outgoing, write_pieces};
pub use reading::{NextEvent, Unread, next_event};
pub use runs::{Ended, is_command, run};
pub use schedule::{RawMessage, Scheduled};
pub use session::Session;
