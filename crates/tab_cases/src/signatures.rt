//! Cases of signatures: digests under a key, signatures of texts, and requests that are checked at a moment.

use crate::answers::{Answer, field, number, refused, told, unknown};
use crate::stops::Stop;
use crate::values::hex_text;
use std::alloc::{AllocError, Global};
use tab_auth::{Keys, Signed, check, hmac, sign_lite};
use tab_edm::{BytesValue, TextValue, read_moment};

/// What stands for a key, a header or a parameter that is not there.
const ABSENT: &str = "none";

/// The account that checks requests.
const ACCOUNT: &str = "shop";

/// `hmac KEY | TEXT`: the digest of the text under the key. `sign KEY | DATE | RESOURCE`: the signature. `check KEY | DATE |
/// MOMENT | PATH | COMP | AUTHORIZATION`: whether the request to the account `shop` is taken at that moment.
pub fn answer(alloc: Global, word: &str, fields: &[String]) -> Answer {
    match (word, fields.len()) {
        ("hmac", 2) => digest(alloc, field(fields, 0)?, field(fields, 1)?),
        ("sign", 3) => sign(alloc, fields),
        ("check", 6) => checked(alloc, fields),
        _ => unknown(),
    }
}

fn digest(alloc: Global, key: &str, text: &str) -> Answer {
    hex_text(alloc, "digest", &hmac(key.as_bytes(), text.as_bytes()))
}

fn sign(alloc: Global, fields: &[String]) -> Answer {
    let key = key(alloc, field(fields, 0)?)?;
    sign_with(alloc, key, field(fields, 1)?, field(fields, 2)?)
}

fn sign_with(alloc: Global, key: BytesValue, date: &str, resource: &str) -> Answer {
    let keys = Keys {
        account: TextValue::new(String::new(alloc)),
        key: Some(key),
    };
    Ok(sign_lite(alloc, &keys, date, resource)?)
}

fn checked(alloc: Global, fields: &[String]) -> Answer {
    let keys = keys(alloc, field(fields, 0)?)?;
    checked_by(alloc, fields, &keys)
}

fn checked_by(alloc: Global, fields: &[String], keys: &Keys) -> Answer {
    let now = tick(field(fields, 2)?)?;
    let signed = signed(alloc, fields)?;
    taken(alloc, keys, &signed, now)
}

fn taken(alloc: Global, keys: &Keys, signed: &Signed, now: u64) -> Answer {
    match check(alloc, keys, signed, now) {
        Ok(()) => told(alloc, &["taken"]),
        Err(why) => refused(alloc, &why),
    }
}

/// What of a request is signed.
fn signed(alloc: Global, fields: &[String]) -> Result<Signed, Stop> {
    let date = there(alloc, field(fields, 1)?)?;
    let path = text_value(alloc, field(fields, 3)?)?;
    let comp = there(alloc, field(fields, 4)?)?;
    let authorization = there(alloc, field(fields, 5)?)?;
    Ok(Signed {
        authorization,
        date,
        path,
        comp,
    })
}

fn there(alloc: Global, text: &str) -> Result<Option<TextValue>, AllocError> {
    match text {
        ABSENT => Ok(None),
        text => Ok(Some(text_value(alloc, text)?)),
    }
}

fn text_value(alloc: Global, text: &str) -> Result<TextValue, AllocError> {
    Ok(TextValue::new(String::from_str(alloc, text)?))
}

fn key(alloc: Global, key: &str) -> Result<BytesValue, AllocError> {
    Ok(BytesValue::new(Vec::from_slice(alloc, key.as_bytes())?))
}

fn keys(alloc: Global, text: &str) -> Result<Keys, AllocError> {
    let account = text_value(alloc, ACCOUNT)?;
    let key = match text {
        ABSENT => None,
        text => Some(key(alloc, text)?),
    };
    Ok(Keys { account, key })
}

/// The tick of a moment, or of a number.
fn tick(text: &str) -> Result<u64, Stop> {
    match read_moment(text) {
        Some(tick) => Ok(tick),
        None => number(text),
    }
}
