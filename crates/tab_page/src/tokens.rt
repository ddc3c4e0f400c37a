//! Tokens, which name a key in a continuation: `1.` and the key's bytes in Base64 for addresses without padding (RFC 4648,
//! section 5). The service's tokens are opaque in the REST reference ("Query Timeout and Pagination"); this is their spelling here.
ghost use Rattle.std.specs.Prelude.{◌≡◌, ◌≢◌, IfOk, MatchResult, Some, None, map, vec_items, string_bytes};
ghost use Rattle.std.specs.Option.{option_copied, option_map};
ghost use Rattle.base64.specs.Engines.{url_safe_no_pad};
ghost use Rattle.base64.specs.GeneralPurpose.{decoded_of};
ghost use Rattle.tab_page.specs.Tokens.{token_text, read_token, after_version, as_key, OneSpelling};

use base64::DecodeAllocError;
use base64::engine::general_purpose::URL_SAFE_NO_PAD;
use std::alloc::Global;
use std::str::from_utf8;
use tab_keys::{KeyRefused, KeyText, Memory};

/// Why a text is not read as a token.
#[derive(Clone, Copy, Debug, PartialEq, Eq)]
pub enum TokenRefused {
    /// It is no token of a key.
    BadToken,
    /// No memory was found.
    Memory,
}

/// The texts that name keys in a continuation.
pub struct Token;

impl Token {
    /// The token of a key.
    #[tactic(auto, unfolding(crate::specs::Tokens::token_text))]
    pub fn text(alloc: Global, key: &KeyText) -> Result<String, Memory>
        ensures { IfOk result (λ text. string_bytes text ≡ token_text key.now) }
    {
        let mut text = String::from_str(alloc, "1.")?;
        match URL_SAFE_NO_PAD.encode_string(key.as_str().as_bytes(), &mut text) {
            Ok(()) => Ok(text),
            Err(_) => Err(Memory),
        }
    }

    /// The key that a text is the token of.
    pub fn read(alloc: Global, text: &str) -> Result<KeyText, TokenRefused>
        ensures { MatchResult result
            (λ key. read_token text.now ≡ Some key)
            (λ why. why ≢ TokenRefused.Memory → read_token text.now ≡ None) }
    {
        match token_key(alloc, text) {
            Ok(Some(key)) => Ok(key),
            Ok(None) => Err(TokenRefused::BadToken),
            Err(Memory) => Err(TokenRefused::Memory),
        }
    }
}

/// The key that a text is the token of, if it is a token.
#[tactic(auto, unfolding(crate::specs::Tokens::read_token))]
pub(crate) fn token_key(alloc: Global, text: &str) -> Result<Option<KeyText>, Memory>
    ensures { IfOk result (λ key. key ≡ read_token text.now) }
{
    let Some(code) = after_version(text.as_bytes()) else {
        return Ok(None);
    };
    match decoded(alloc, code)? {
        Some(bytes) => as_key(alloc, &bytes),
        None => Ok(None),
    }
}

fn after_version(text: &[u8]) -> Option<&[u8]>
    ensures { option_copied result ≡ after_version text.now }
{
    match text {
        [first, second, code @ ..] if *first == b'1' && *second == b'.' => Some(code),
        _ => None,
    }
}

fn decoded(alloc: Global, code: &[u8]) -> Result<Option<Vec<u8>>, Memory>
    ensures { IfOk result (λ bytes. option_map vec_items bytes ≡ decoded_of url_safe_no_pad code.now) }
{
    match URL_SAFE_NO_PAD.decode(alloc, code) {
        Ok(bytes) => Ok(Some(bytes)),
        Err(DecodeAllocError::OutOfMemory) => Err(Memory),
        Err(DecodeAllocError::DecodeError(_)) => Ok(None),
    }
}

fn as_key(alloc: Global, bytes: &[u8]) -> Result<Option<KeyText>, Memory>
    ensures { IfOk result (λ key. key ≡ as_key bytes.now) }
{
    let Ok(text) = from_utf8(bytes) else {
        return Ok(None);
    };
    match KeyText::new(alloc, text) {
        Ok(key) => Ok(Some(key)),
        Err(KeyRefused::TooLong | KeyRefused::BadCharacter) => Ok(None),
        Err(KeyRefused::Memory) => Err(Memory),
    }
}

/// A text is read as a key exactly where it is that key's token, so each key has one token.
pub fn tokens_have_one_spelling()
    ensures { OneSpelling }
{}
