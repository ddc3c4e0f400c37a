//! HMAC with SHA-256: RFC 2104, section 2, over FIPS 180-4.

ghost use Rattle.std.specs.Prelude.{◌≡◌, ◌≤◌, List, ℕ, ◌++◌, length};
ghost use Rattle.sha2.specs.Hashers.{Holds256};
ghost use Rattle.tab_auth.specs.declared.digests.TheConstants.{BLOCK};
ghost use Rattle.tab_auth.specs.Digests.{padded_key, masked, keyed_digest, hmac};

use sha2::{Digest, Sha256};

/// The bytes of a block of SHA-256.
const BLOCK: usize = 64;

/// HMAC-SHA256 of a text under a key.
#[tactic(auto, unfolding(crate::specs::Digests::hmac))]
pub fn hmac(key: &[u8], text: &[u8]) -> [u8; 32]
    ensures { result ≡ hmac key.now text.now }
{
    if key.len() > BLOCK {
        hmac_within_block(Sha256::digest(key).as_slice(), text)
    } else {
        hmac_within_block(key, text)
    }
}

/// The same under a key that is no longer than a block.
fn hmac_within_block(key: &[u8], text: &[u8]) -> [u8; 32]
    requires { length key.now ≤ BLOCK }
    ensures { result ≡ keyed_digest 0x5C key.now (keyed_digest 0x36 key.now text.now) }
{
    let inner = keyed_digest(0x36, key, text);
    keyed_digest(0x5C, key, inner.as_slice())
}

/// The digest of a key's masked block and a text.
fn keyed_digest(mask: u8, key: &[u8], text: &[u8]) -> [u8; 32]
    requires { length key.now ≤ BLOCK }
    ensures { result ≡ keyed_digest mask key.now text.now }
{
    let mut hasher = Sha256::new();
    add_masked(&mut hasher, mask, key);
    hasher.update(&[mask; BLOCK][key.len()..]);
    hasher.update(text);
    hasher.finalize()
}

/// Adds masked bytes to the message.
fn add_masked(hasher: &mut Sha256, mask: u8, bytes: &[u8])
    ensures { (message : List ℕ) → Holds256 hasher.old message → Holds256 hasher.new (message ++ masked mask bytes.now) }
{
    for byte in bytes {
        hasher.update(&[*byte ^ mask]);
    }
}
