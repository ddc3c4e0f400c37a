//! Texts and bytes as properties have them, and how long a text is: in UTF-16 code units (RFC 2781) and in
//! characters.

ghost use Rattle.std.specs.Prelude.{◌≡◌, IfOk, string_bytes};
ghost use Rattle.base64.specs.Engines.{standard};
ghost use Rattle.base64.specs.GeneralPurpose.{decoded_of};
ghost use Rattle.tab_edm.specs.Texts.{unit_count, units_begun, char_count};

use crate::Memory;
use base64::DecodeAllocError;
use base64::engine::general_purpose::STANDARD;
use std::alloc::Global;
use std::marker::Model;

/// A text, as a property has it for its name or its value.
#[derive(Debug, Drop)]
pub struct TextValue {
    text: String,
}

impl Model for TextValue {
    ghost use Rattle.std.specs.Prelude.{List, ℕ, string_bytes};

    ghost Value = { List ℕ };

    ghost view = { λ value. string_bytes value.text };
}

impl TextValue {
    /// The text as it is, within no limit: an entity's limits are tested where the entity is made.
    pub fn new(text: String) -> TextValue
        ensures { result ≡ string_bytes text }
    {
        TextValue { text }
    }

    /// Its characters, lent.
    pub fn as_str(&self) -> &str
        ensures text { result.now ≡ self.now }
    {
        self.text.as_str()
    }

    /// Its characters, handed over without taking memory.
    pub fn into_string(self) -> String
        ensures text { string_bytes result ≡ self }
    {
        self.text
    }

    /// A copy in memory of its own.
    pub fn try_copy(&self, alloc: Global) -> Result<TextValue, Memory>
        ensures { IfOk result (λ copy. copy ≡ self.now) }
    {
        let text = String::from_str(alloc, self.text.as_str())?;
        Ok(TextValue { text })
    }
}

/// Bytes, as a property has them for its value.
#[derive(Debug, Drop)]
pub struct BytesValue {
    bytes: Vec<u8>,
}

impl Model for BytesValue {
    ghost use Rattle.std.specs.Prelude.{List, ℕ, vec_items};

    ghost Value = { List ℕ };

    ghost view = { λ value. value.bytes.items };
}

impl BytesValue {
    /// The bytes as they are, within no limit: an entity's limits are tested where the entity is made.
    pub fn new(bytes: Vec<u8>) -> BytesValue
        ensures { result ≡ bytes.items }
    {
        BytesValue { bytes }
    }

    /// The bytes that a text gives in Base64 with the standard alphabet and with padding (RFC 4648, section 4), or none where
    /// it gives none.
    pub fn from_base64(alloc: Global, text: &str) -> Result<Option<BytesValue>, Memory>
        ensures { IfOk result (λ found. found ≡ decoded_of standard text.now) }
    {
        match STANDARD.decode(alloc, text.as_bytes()) {
            Ok(bytes) => Ok(Some(BytesValue::new(bytes))),
            Err(DecodeAllocError::OutOfMemory) => Err(Memory),
            Err(DecodeAllocError::DecodeError(_)) => Ok(None),
        }
    }

    /// The bytes, lent.
    pub fn as_slice(&self) -> &[u8]
        ensures bytes { result.now ≡ self.now }
    {
        self.bytes.as_slice()
    }

    /// The bytes, handed over without taking memory.
    pub fn into_bytes(self) -> Vec<u8>
        ensures bytes { result.items ≡ self }
    {
        self.bytes
    }

    /// A copy in memory of its own.
    pub fn try_copy(&self, alloc: Global) -> Result<BytesValue, Memory>
        ensures { IfOk result (λ copy. copy ≡ self.now) }
    {
        let bytes = Vec::from_slice(alloc, self.bytes.as_slice())?;
        Ok(BytesValue { bytes })
    }
}

/// How many UTF-16 code units a text has.
pub fn unit_count(text: &str) -> usize
    ensures { result ≡ unit_count text.now }
{
    let mut units = 0;
    for byte in text.as_bytes() {
        units += units_begun(*byte);
    }
    units
}

/// How many units the character has that begins with this byte of a text, and none within a character.
fn units_begun(byte: u8) -> usize
    ensures { result ≡ units_begun byte }
{
    match byte {
        0x80..=0xBF => 0,
        0xF0..=0xFF => 2,
        _ => 1,
    }
}

/// How many characters a text has.
pub fn char_count(text: &str) -> usize
    ensures { result ≡ char_count text.now }
{
    text.chars().count()
}
