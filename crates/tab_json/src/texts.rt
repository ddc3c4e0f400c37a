//! A JSON text that is written token by token (RFC 8259).
ghost use Rattle.std.specs.Prelude.{◌≡◌, ◌≤◌, ◌++◌, ◌∷◌, [], flat_map, string_bytes, IfOk, OnOk};
ghost use Rattle.base64.specs.Engines.{standard};
ghost use Rattle.base64.specs.GeneralPurpose.{encode_of};
ghost use Rattle.json.specs.Print.{print, IsPrintable};
ghost use Rattle.json.specs.Reads.{token_of};
ghost use Rattle.json.specs.Token.{key, string};
ghost use Rattle.uuid.specs.Text.{lower, hyphenated_text};
ghost use Rattle.tab_edm.specs.Moments.{text_of_moment, text_of_etag};
ghost use Rattle.tab_edm.specs.Values.{IsInTime};
ghost use Rattle.tab_json.specs.Slots.{name_text};
ghost use Rattle.tab_json.specs.Written.{value_written, leaf_written, member_written, object_written, IsTimelyLeaf, AreTimely};

use crate::slots::{ANNOTATION, Name, Slot};
use crate::written::{Leaf, WrittenMembers};
use base64::engine::general_purpose::STANDARD;
use json::{Token, Writer};
use std::alloc::{AllocError, Global};
use std::marker::Model;
use tab_edm::{GREATEST, Value, push_etag, push_moment};
use tab_keys::Memory;
use uuid::Uuid;

/// A text on its way, and a second one in which a part of it is made.
#[derive(Drop)]
pub(crate) struct JsonText {
    out: Writer,
    scratch: String,
}

impl Model for JsonText {
    ghost use Rattle.std.specs.Prelude.{◌≡◌, [], List};
    ghost use Rattle.json.specs.Token.{Token, tokens_code};

    ghost Value = { List Token };

    ghost coded = { tokens_code };

    ghost view = { λ text. text.out.tokens };

    ghost invariant = { λ text. text.out.before ≡ [] };
}

impl JsonText {
    /// An empty text with room for these many bytes.
    pub(crate) fn with_capacity(alloc: Global, capacity: usize) -> Result<JsonText, Memory>
        ensures { IfOk result (λ text. text ≡ []) }
    {
        Ok(JsonText {
            out: Writer::new(Vec::with_capacity(alloc, capacity)?),
            scratch: String::new(alloc),
        })
    }

    /// The bytes of the tokens.
    pub(crate) fn finish(self) -> String
        ensures { string_bytes result ≡ print self }
    {
        unsafe { String::from_utf8_unchecked(self.out.into_inner()) }
    }

    /// Writes a token.
    pub(crate) fn write(&mut self, token: Token) -> Result<(), AllocError>
        requires { IsPrintable (token_of token) }
        ensures { OnOk result (self.new ≡ self.old ++ token_of token.entry ∷ []) }
    {
        self.out.token(token)
    }

    /// Writes an object of these members.
    pub(crate) fn write_object(&mut self, members: &WrittenMembers) -> Result<(), Memory>
        ensures { OnOk result (self.new ≡ self.old ++ object_written members.now) }
    {
        self.write(Token::BeginObject)?;
        self.write_members(members.as_slice())?;
        self.write(Token::EndObject)?;
        Ok(())
    }

    fn write_members(&mut self, slots: &[Slot<Leaf>]) -> Result<(), Memory>
        requires { AreTimely slots.now }
        ensures { OnOk result (self.new ≡ self.old ++ flat_map member_written slots.now) }
    {
        for slot in slots {
            self.write_member(slot)?;
        }
        Ok(())
    }

    fn write_member(&mut self, slot: &Slot<Leaf>) -> Result<(), Memory>
        requires { IsTimelyLeaf slot.now.value }
        ensures { OnOk result (self.new ≡ self.old ++ member_written slot.now) }
    {
        self.write_name(slot.name)?;
        self.write_leaf(slot.value)
    }

    fn write_name(&mut self, name: Name) -> Result<(), Memory>
        ensures { OnOk result (self.new ≡ self.old ++ key (name_text name.entry) ∷ []) }
    {
        match name {
            Name::Plain(name) => self.out.key(name)?,
            Name::Annotation(name) => {
                self.scratch.clear();
                self.scratch.push_str(name)?;
                self.scratch.push_str(ANNOTATION)?;
                self.out.key(self.scratch.as_str())?;
            }
        }
        Ok(())
    }

    fn write_leaf(&mut self, leaf: Leaf) -> Result<(), Memory>
        requires { IsTimelyLeaf leaf }
        ensures { OnOk result (self.new ≡ self.old ++ leaf_written leaf.entry ∷ []) }
    {
        match leaf {
            Leaf::Text(text) => self.out.string(text)?,
            Leaf::Value(value) => self.write_value(value)?,
            Leaf::Moment(tick) => self.write_moment(tick)?,
            Leaf::ETag(tick) => self.write_etag(tick)?,
        }
        Ok(())
    }

    fn write_value(&mut self, value: &Value) -> Result<(), Memory>
        requires { IsInTime value.now }
        ensures { OnOk result (self.new ≡ self.old ++ value_written value.now ∷ []) }
    {
        match value {
            Value::Text(text) => self.out.string(text.as_str())?,
            Value::Flag(flag) => self.out.boolean(*flag)?,
            Value::Int32(number) => self.out.i64(*number as i64)?,
            Value::Int64(number) => self.out.quoted_i64(*number)?,
            Value::Moment(tick) => self.write_moment(*tick)?,
            Value::Guid(bytes) => self.write_guid(*bytes)?,
            Value::Bytes(bytes) => self.write_base64(bytes.as_slice())?,
        }
        Ok(())
    }

    fn write_moment(&mut self, tick: u64) -> Result<(), Memory>
        requires { tick ≤ GREATEST }
        ensures { OnOk result (self.new ≡ self.old ++ string (text_of_moment tick) ∷ []) }
    {
        self.scratch.clear();
        let Ok(()) = push_moment(&mut self.scratch, tick) else {
            return Err(Memory);
        };
        self.out.string(self.scratch.as_str())?;
        Ok(())
    }

    fn write_etag(&mut self, tick: u64) -> Result<(), Memory>
        requires { tick ≤ GREATEST }
        ensures { OnOk result (self.new ≡ self.old ++ string (text_of_etag tick) ∷ []) }
    {
        self.scratch.clear();
        let Ok(()) = push_etag(&mut self.scratch, tick) else {
            return Err(Memory);
        };
        self.out.string(self.scratch.as_str())?;
        Ok(())
    }

    // In lower case, with hyphens.
    fn write_guid(&mut self, bytes: [u8; 16]) -> Result<(), AllocError>
        ensures { OnOk result (self.new ≡ self.old ++ string (hyphenated_text lower bytes) ∷ []) }
    {
        let mut buffer = Uuid::encode_buffer();
        self.out.string(
            Uuid::from_bytes(bytes)
                .hyphenated()
                .encode_lower(&mut buffer),
        )
    }

    fn write_base64(&mut self, bytes: &[u8]) -> Result<(), AllocError>
        ensures { OnOk result (self.new ≡ self.old ++ string (encode_of standard bytes.now) ∷ []) }
    {
        self.scratch.clear();
        STANDARD.encode_string(bytes, &mut self.scratch)?;
        self.out.string(self.scratch.as_str())
    }
}
