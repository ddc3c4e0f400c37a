//! Partition keys and row keys: which texts are keys, and their order. The limits and the characters that are
//! refused are those of Microsoft's Table service REST reference, "Understanding the Table service data model",
//! "Characters disallowed in key fields".

ghost use Rattle.std.specs.Prelude.{◌≡◌, ◌||◌, length, IfOk, MatchResult, None, string_bytes};
ghost use Rattle.std.specs.Arc.{arc_value};
ghost use Rattle.std.specs.Option.{unwrap_or};
ghost use Rattle.std.specs.Str.{chars};
ghost use Rattle.std.specs.List.{list_any};
ghost use Rattle.std.specs.Cmp.{partial_equiv_from_equiv, eq_by_cmp_equiv, partial_order_from_total};
ghost use Rattle.std.specs.Ordering.{eq_by_cmp, as_partial_cmp};
ghost use Rattle.std.proofs.Common.{refl};
ghost use Rattle.tab_keys.specs.KeyTexts.{units_of, is_bad_character, key_refusal, IsKeyText, units_begun, ends_bad};
ghost use Rattle.tab_keys.specs.Order.{text_cmp};
ghost use Rattle.tab_keys.specs.TotalOrders.{text_cmp_total};

use crate::{Memory, utf16_cmp};
use std::alloc::Global;
use std::cmp::Ordering;
use std::marker::Model;
use std::sync::Arc;

/// The most UTF-16 code units that a key text has.
const MOST_UNITS: usize = 1024;

/// Why a text is no key.
#[derive(Clone, Copy, Debug, PartialEq, Eq)]
pub enum KeyRefused {
    /// It has more than 1,024 UTF-16 code units.
    TooLong,
    /// It has one of `/ \ # ?`, or a character from U+0000 to U+001F or from U+007F to U+009F.
    BadCharacter,
    /// No memory was found for the copy.
    Memory,
}

/// A partition key or a row key: a text of at most 1,024 UTF-16 code units without the characters that a key
/// may not have.
#[derive(Debug, Drop)]
pub struct KeyText {
    text: Arc<String, Global>,
    units: usize,
}

impl Model for KeyText {
    ghost use Rattle.std.specs.Prelude.{◌≡◌, List, ℕ, length, string_bytes};
    ghost use Rattle.std.specs.Arc.{arc_value};
    ghost use Rattle.tab_keys.specs.KeyTexts.{units_of, IsKeyText};

    ghost Value = { List ℕ };

    ghost view = { λ key. string_bytes (arc_value key.text) };

    ghost invariant = { λ key. IsKeyText (string_bytes (arc_value key.text))
        × (key.units ≡ length (units_of (string_bytes (arc_value key.text)))) };
}

impl KeyText {
    /// A copy of the text, if it is a key. The empty text is one.
    #[tactic(auto, unfolding(crate::specs::KeyTexts::key_refusal))]
    pub fn new(alloc: Global, text: &str) -> Result<KeyText, KeyRefused>
        ensures { MatchResult result
            (λ key. (key ≡ text.now) × (key_refusal text.now ≡ None))
            (λ why. unwrap_or (key_refusal text.now) KeyRefused.Memory ≡ why) }
    {
        let Measured { units, is_bad } = measure(text);
        if units > MOST_UNITS {
            return Err(KeyRefused::TooLong);
        }
        if is_bad {
            return Err(KeyRefused::BadCharacter);
        }
        match shared(alloc, text) {
            Ok(text) => Ok(KeyText { text, units }),
            Err(_) => Err(KeyRefused::Memory),
        }
    }

    /// The key's text.
    pub fn as_str(&self) -> &str
        ensures text { result.now ≡ self.now }
        ensures key { IsKeyText self.now }
    {
        let text: &String = &self.text;
        text.as_str()
    }

    /// The length of the text in UTF-16 code units.
    pub fn units(&self) -> usize
        ensures units { result ≡ length (units_of self.now) }
        ensures key { IsKeyText self.now }
    {
        self.units
    }

    /// A copy that shares the memory of its text: nothing is taken or copied, and no memory is found only where its
    /// copies are past counting.
    pub fn try_copy(&self, _alloc: Global) -> Result<KeyText, Memory>
        ensures { IfOk result (λ copy. copy ≡ self.now) }
    {
        let text = Arc::try_clone(&self.text)?;
        Ok(KeyText {
            text,
            units: self.units,
        })
    }
}

impl PartialEq for KeyText {
    ghost eq = { eq_by_cmp text_cmp };

    ghost laws = { partial_equiv_from_equiv (eq_by_cmp_equiv text_cmp_total) };

    fn eq(&self, other: &KeyText) -> bool {
        self.as_str() == other.as_str()
    }
}

impl Eq for KeyText {
    ghost laws = { eq_by_cmp_equiv text_cmp_total };
}

impl PartialOrd for KeyText {
    ghost partial_cmp = { as_partial_cmp text_cmp };

    ghost laws = { partial_order_from_total text_cmp_total };

    fn partial_cmp(&self, other: &KeyText) -> Option<Ordering> {
        Some(self.cmp(other))
    }
}

impl Ord for KeyText {
    ghost cmp = { text_cmp };

    ghost total = { text_cmp_total };

    ghost matches_partial_cmp = { λ a b. refl };

    ghost matches_eq = { λ a b. refl };

    fn cmp(&self, other: &KeyText) -> Ordering {
        utf16_cmp(self.as_str(), other.as_str())
    }
}

fn shared(alloc: Global, text: &str) -> Result<Arc<String, Global>, Memory>
    ensures { IfOk result (λ copy. string_bytes (arc_value copy) ≡ text.now) }
{
    let copy = String::from_str(alloc, text)?;
    Ok(Arc::new(alloc, copy)?)
}

/// What one pass over its bytes tells of a text.
#[derive(Clone, Copy, Drop)]
struct Measured {
    units: usize,
    is_bad: bool,
}

fn measure(text: &str) -> Measured
    ensures units { result.units ≡ length (units_of text.now) }
    ensures bad { result.is_bad ≡ list_any is_bad_character (chars text.now) }
{
    let mut units = 0;
    let mut is_bad = false;
    let mut before = 0;
    for byte in text.as_bytes() {
        units += units_begun(*byte);
        is_bad = is_bad_up_to(is_bad, before, *byte);
        before = *byte;
    }
    Measured { units, is_bad }
}

/// How many units the character has that begins with this byte of a text, and none within a character.
fn units_begun(byte: u8) -> usize
    ensures { result ≡ units_begun byte }
{
    match byte {
        0x80..=0xBF => 0,
        0xF0..=0xFF => 2,
        _ => 1,
    }
}

// The characters from U+0080 to U+009F are 0xC2 and a byte more.
fn is_bad_up_to(is_bad: bool, before: u8, byte: u8) -> bool
    ensures { result ≡ (is_bad || ends_bad before byte) }
{
    is_bad
        || matches!(byte, b'/' | b'\\' | b'#' | b'?' | 0..=0x1f | 0x7f)
        || (before == 0xc2 && matches!(byte, 0x80..=0x9f))
}
