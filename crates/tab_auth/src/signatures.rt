//! Signatures of the scheme Shared Key Lite for the Table service (Microsoft's Table service REST reference,
//! "Authorize with Shared Key", "Shared Key Lite authorization").

ghost use Rattle.std.specs.Prelude.{◌≡◌, ◌++◌, IsSome, IfSome, IfOk, Option, List, ℕ, string_bytes, option_copied};
ghost use Rattle.tab_auth.specs.Signatures.{signature, resource_of};

use crate::digests::hmac;
use base64::engine::general_purpose::STANDARD;
use std::alloc::Global;
use tab_edm::{BytesValue, Memory, TextValue};

/// The account that is served, with the key of its signatures.
#[derive(Debug, Drop)]
pub struct Keys {
    pub account: TextValue,
    /// The key as bytes, or none where the account is open: then nothing has to be signed.
    pub key: Option<BytesValue>,
}

/// The signature of a date and a resource, as an Authorization header has it behind `SharedKeyLite ACCOUNT:`.
pub fn sign_lite(alloc: Global, keys: &Keys, date: &str, resource: &str) -> Result<String, Memory>
    requires { IsSome keys.now.key }
    ensures { IfSome keys.now.key (λ key. IfOk result (λ text. string_bytes text ≡ signature key date.now resource.now)) }
{
    match &keys.key {
        Some(key) => sign(alloc, key.as_slice(), date, resource),
        None => unreachable!(),
    }
}

/// The signature of a date and a resource under a key.
#[tactic(auto, unfolding(crate::specs::Signatures::signature))]
pub(crate) fn sign(alloc: Global, key: &[u8], date: &str, resource: &str) -> Result<String, Memory>
    ensures { IfOk result (λ text. string_bytes text ≡ signature key.now date.now resource.now) }
{
    let mut text = String::from_str(alloc, date)?;
    text.push_str("\n")?;
    text.push_str(resource)?;
    let digest = hmac(key, text.as_bytes());
    Ok(STANDARD.encode(alloc, digest.as_slice())?)
}

/// The resource of a request to this path.
#[tactic(auto, unfolding(crate::specs::Signatures::resource_of))]
pub(crate) fn resource_of(
    alloc: Global,
    account: &str,
    path: &str,
    comp: Option<&TextValue>,
) -> Result<String, Memory>
    ensures { IfOk result (λ text. string_bytes text ≡ resource_of account.now path.now (option_copied comp.entry)) }
{
    let mut resource = String::from_str(alloc, "/")?;
    resource.push_str(account)?;
    resource.push_str(path)?;
    if let Some(comp) = comp {
        resource.push_str("?comp=")?;
        resource.push_str(comp.as_str())?;
    }
    Ok(resource)
}
