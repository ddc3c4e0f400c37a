//! Requests signed with an account's key, by the scheme SharedKeyLite.
#![tactic(auto)]

mod checks;
mod claims;
mod digests;
mod signatures;

pub use checks::{AuthRefused, Signed, check, open_refusal};
pub use digests::hmac;
pub use signatures::{Keys, sign_lite};
