//! Requests of HTTP/1.0 and HTTP/1.1 (RFC 9112) from the bytes of a connection, however they come cut, and replies written
//! whole.
#![tactic(auto)]

mod bodies;
mod decimals;
mod head_states;
mod header_fields;
mod heads;
mod laws;
mod messages;
mod read_ahead;
mod reading;
mod refusals;
mod texts;
mod writing;

pub use decimals::decimal_value;
pub use header_fields::trim_blanks;
pub use heads::Head;
pub use laws::{
    bytes_spell_no_fault, bytes_spell_one_answer, bytes_spell_some_answer,
    little_is_read_past_a_message, open_bytes_spell_no_message, same_message_before_more,
};
pub use messages::{Header, Headers, Message, first_value};
pub use reading::read_message;
pub use refusals::HttpRefused;
pub use texts::{Bytes, Text};
pub use writing::{WriteFault, write_reply};

/// The most bytes that a head may have, with the empty line that ends it.
pub const LONGEST_HEAD: usize = 32_768;

/// The most header fields that a head may have.
pub const MOST_HEADERS: usize = 64;

/// The most bytes that a body may have.
pub const LONGEST_BODY: u64 = 4_194_304;

/// The most bytes that one read of a head asks for, so that what comes behind a message is little.
pub const LONGEST_READ: usize = 4_096;
