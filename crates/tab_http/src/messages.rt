//! Requests with their header fields (RFC 9110, sections 5 and 6).
ghost use Rattle.std.specs.Prelude.{◌≡◌};
ghost use Rattle.std.specs.Option.{option_copied};
ghost use Rattle.tab_http.specs.Headers.{is_named, first_value};

use crate::texts::{Bytes, Text};
use std::marker::Model;

/// A header of a message: its name, and its value without the blanks around it.
#[derive(Debug, Drop)]
pub struct Header {
    pub name: Text,
    pub value: Bytes,
}

impl Header {
    /// Whether it has that name, without ASCII case.
    pub fn is_named(&self, name: &str) -> bool
        ensures { result ≡ is_named name.now self.now }
    {
        self.name.as_str().eq_ignore_ascii_case(name)
    }
}

/// The headers of a message, in the order in which they came.
#[derive(Debug, Drop)]
pub struct Headers {
    items: Vec<Header>,
}

impl Model for Headers {
    ghost use Rattle.std.specs.Prelude.{List, vec_items};
    ghost use Rattle.tab_http.specs.declared.messages.Header.{Header};

    ghost Value = { List Header };

    ghost view = { λ headers. headers.items.items };
}

impl Headers {
    /// The headers, in the memory that they have.
    pub fn new(items: Vec<Header>) -> Headers
        ensures { result ≡ items.items }
    {
        Headers { items }
    }

    /// The headers, lent.
    pub fn as_slice(&self) -> &[Header]
        ensures { result.now ≡ self.now }
    {
        self.items.as_slice()
    }

    /// The headers themselves. It takes no memory.
    pub fn into_vec(self) -> Vec<Header>
        ensures { result.items ≡ self }
    {
        self.items
    }
}

/// A request.
#[derive(Debug, Drop)]
pub struct Message {
    pub method: Text,
    pub target: Text,
    pub headers: Headers,
    pub body: Bytes,
    /// Whether the connection is to be closed behind the reply.
    pub close: bool,
}

impl Message {
    /// The value of the first header of that name, without ASCII case.
    pub fn header(&self, name: &str) -> Option<&[u8]>
        ensures { option_copied result ≡ first_value name.now self.now.headers }
    {
        first_value(self.headers.as_slice(), name)
    }
}

/// The value of the first header of that name, without ASCII case.
pub fn first_value<'h>(headers: &'h [Header], name: &str) -> Option<&'h [u8]>
    ensures { option_copied result ≡ first_value name.now headers.now }
{
    let found = headers.iter().find(|header| header.is_named(name))?;
    Some(found.value.as_slice())
}
