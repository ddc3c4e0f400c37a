//! The text of an error (OData 3.0, JSON Format, "Error Response").
ghost use Rattle.std.specs.Prelude.{◌≡◌, IfOk, string_bytes};
ghost use Rattle.serde_json.specs.View.{view};
ghost use Rattle.tab_json.specs.Faults.{fault_data, fault_json};

use serde_json::{Value as Json, json};
use std::alloc::{AllocError, Global};
use tab_keys::Memory;

/// A fault: its code, and a text in English for its reader.
pub fn write_fault(alloc: Global, code: &str, value: &str) -> Result<String, Memory>
    ensures { IfOk result (λ text. string_bytes text ≡ fault_json code.now value.now) }
{
    let fault = fault_value(alloc, code, value)?;
    Ok(fault.to_string(alloc)?)
}

#[tactic(auto, unfolding(crate::specs::Faults::fault_data, crate::specs::Faults::message_data, crate::specs::Objects::object_of, crate::specs::Objects::with_members))]
fn fault_value(alloc: Global, code: &str, value: &str) -> Result<Json, AllocError>
    ensures { IfOk result (λ fault. view fault ≡ fault_data code.now value.now) }
{
    json!(in alloc; {"odata.error": {"code": code, "message": {"lang": "en-US", "value": value}}})
}
