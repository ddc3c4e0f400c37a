//! Copies of texts.
ghost use Rattle.std.specs.Prelude.{◌≡◌, IfOk};

use std::alloc::Global;
use tab_edm::TextValue;
use tab_keys::Memory;

/// A copy of a text.
pub(crate) fn owned(alloc: Global, text: &str) -> Result<TextValue, Memory>
    ensures { IfOk result (λ value. value ≡ text.now) }
{
    Ok(TextValue::new(String::from_str(alloc, text)?))
}
