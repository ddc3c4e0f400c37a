//! The texts and the bytes of a message, as contracts see them.
ghost use Rattle.std.specs.Prelude.{◌≡◌, string_bytes};

use std::marker::Model;

/// A text, as a message has it for its method, its target or the name of a header.
#[derive(Debug, Drop)]
pub struct Text {
    text: String,
}

impl Model for Text {
    ghost use Rattle.std.specs.Prelude.{List, ℕ, string_bytes};

    ghost Value = { List ℕ };

    ghost view = { λ value. string_bytes value.text };
}

impl Text {
    /// The text, in the memory that it has.
    pub fn new(text: String) -> Text
        ensures { result ≡ string_bytes text }
    {
        Text { text }
    }

    /// The text, lent.
    pub fn as_str(&self) -> &str
        ensures text { result.now ≡ self.now }
    {
        self.text.as_str()
    }

    /// The text itself. It takes no memory.
    pub fn into_string(self) -> String
        ensures text { string_bytes result ≡ self }
    {
        self.text
    }
}

/// Bytes, as a message has them for its body or the value of a header.
#[derive(Debug, Drop)]
pub struct Bytes {
    bytes: Vec<u8>,
}

impl Model for Bytes {
    ghost use Rattle.std.specs.Prelude.{List, ℕ, vec_items};

    ghost Value = { List ℕ };

    ghost view = { λ value. value.bytes.items };
}

impl Bytes {
    /// The bytes, in the memory that they have.
    pub fn new(bytes: Vec<u8>) -> Bytes
        ensures { result ≡ bytes.items }
    {
        Bytes { bytes }
    }

    /// The bytes, lent.
    pub fn as_slice(&self) -> &[u8]
        ensures bytes { result.now ≡ self.now }
    {
        self.bytes.as_slice()
    }

    /// The bytes themselves. It takes no memory.
    pub fn into_vec(self) -> Vec<u8>
        ensures bytes { result.items ≡ self }
    {
        self.bytes
    }
}
