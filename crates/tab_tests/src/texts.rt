//! Texts of keys.

use std::alloc::Global;
use tab_keys::KeyText;

/// The text as a key, if it is one and memory is there.
pub fn key_text(alloc: Global, text: &str) -> Option<KeyText> {
    KeyText::new(alloc, text).ok()
}
