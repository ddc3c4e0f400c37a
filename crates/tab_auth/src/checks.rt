//! Whether a request may be taken for its signature: the scheme Shared Key Lite of Microsoft's Table service REST
//! reference, "Authorize with Shared Key", with dates in the forms of RFC 9110, section 5.6.7.

ghost use Rattle.std.specs.Prelude.{◌≡◌, ◌≢◌, ◌↔◌, Some, None, MatchResult, IfOk, IfSome, IfNone, string_bytes, option_map, pos, negsuc, ◌≤ℤ◌};
ghost use Rattle.httpdate.specs.Date.{parse_secs};
ghost use Rattle.tab_auth.specs.Signatures.{signature, resource_of};
ghost use Rattle.tab_auth.specs.Checks.{refusal, open_refusal, account_refusal, dated_refusal, date_refusal, age_refusal, unix_second, IsReason};
ghost use Rattle.tab_auth.specs.SignedRequests.{IsSigned};

use crate::Keys;
use crate::claims::{is_same, names_account, read_claim};
use crate::signatures::{resource_of, sign};
use httpdate::HttpDate;
use std::alloc::Global;
use tab_edm::{Memory, TICKS_IN_A_SECOND, TextValue};

/// The seconds from the first tick to the moment that dates of HTTP are counted from.
const SECONDS_FROM_1601_TO_1970: i64 = 11_644_473_600;

/// How far a date may lie from now, either way.
const MOST_SECONDS: i64 = 900;

/// What of a request is signed, and how.
#[derive(Debug, Drop)]
pub struct Signed {
    /// The header Authorization, where it stands once and is UTF-8.
    pub authorization: Option<TextValue>,
    /// The header that counts as the date: `x-ms-date`, or `Date` where there is none. The caller chooses it.
    pub date: Option<TextValue>,
    /// The path as it stands in the target, with its escapes, up to `?`.
    pub path: TextValue,
    /// The value of `comp` in the query, decoded.
    pub comp: Option<TextValue>,
}

/// Why a request is not taken, in the order in which this is tested.
#[derive(Clone, Copy, Debug, PartialEq, Eq)]
pub enum AuthRefused {
    /// The header Authorization is not `SharedKeyLite ACCOUNT:SIGNATURE`.
    Missing,
    /// ACCOUNT is not the account that is served, or the path's first segment is not.
    UnknownAccount,
    /// There is no date, or it is in no form of HTTP.
    DateUnread,
    /// The date is more than 900 seconds past.
    TooOld,
    /// The date is more than 900 seconds ahead.
    TooEarly,
    /// SIGNATURE is not the signature.
    Differs,
    /// No memory was found to sign the request.
    Memory,
}

/// Whether a request may be taken at this tick. An account without a key asks for its path alone, and for no memory.
#[tactic(auto, unfolding(crate::specs::Checks::refusal))]
pub fn check(alloc: Global, keys: &Keys, signed: &Signed, now: u64) -> Result<(), AuthRefused>
    ensures answer { MatchResult result (λ _. refusal keys.now signed.now now ≡ None) (IsReason (refusal keys.now signed.now now)) }
    ensures signed { IfSome keys.now.key (λ key. (refusal keys.now signed.now now ≡ None) ↔ IsSigned keys.now.account key signed.now now) }
    ensures without_key { IfNone keys.now.key (result ≢ Err AuthRefused.Memory) }
{
    let account = keys.account.as_str();
    match &keys.key {
        Some(key) => check_signed(alloc, account, key.as_slice(), signed, now),
        None => match open_refusal(account, signed.path.as_str()) {
            None => Ok(()),
            Some(why) => Err(why),
        },
    }
}

/// Why a request to an account without a key is refused, which is for its path alone.
pub fn open_refusal(account: &str, path: &str) -> Option<AuthRefused>
    ensures { result ≡ open_refusal account.now path.now }
{
    if names_account(account, path) {
        None
    } else {
        Some(AuthRefused::UnknownAccount)
    }
}

/// Whether a request of an account with this key may be taken.
fn check_signed(
    alloc: Global,
    account: &str,
    key: &[u8],
    signed: &Signed,
    now: u64,
) -> Result<(), AuthRefused>
    ensures { let why = account_refusal account.now (Some key.now) signed.now now in
        MatchResult result (λ _. why ≡ None) (IsReason why) }
{
    let Some(authorization) = &signed.authorization else {
        return Err(AuthRefused::Missing);
    };
    let Some((claimed_account, claimed)) = read_claim(authorization.as_str()) else {
        return Err(AuthRefused::Missing);
    };
    let path = signed.path.as_str();
    if claimed_account != account || !names_account(account, path) {
        return Err(AuthRefused::UnknownAccount);
    }
    check_dated(alloc, account, key, signed, claimed, now)
}

/// Whether a request with this claimed signature may be taken, its account being known.
fn check_dated(
    alloc: Global,
    account: &str,
    key: &[u8],
    signed: &Signed,
    claimed: &str,
    now: u64,
) -> Result<(), AuthRefused>
    ensures { let why = dated_refusal account.now key.now signed.now now claimed.now signed.now.date in
        MatchResult result (λ _. why ≡ None) (IsReason why) }
{
    let Some(date) = &signed.date else {
        return Err(AuthRefused::DateUnread);
    };
    if let Some(why) = date_refusal(date.as_str(), now) {
        return Err(why);
    }
    match request_signature(alloc, account, key, signed, date.as_str()) {
        Ok(signature) if is_same(claimed.as_bytes(), signature.as_bytes()) => Ok(()),
        Ok(_) => Err(AuthRefused::Differs),
        Err(Memory) => Err(AuthRefused::Memory),
    }
}

/// Why a date is refused at this tick.
fn date_refusal(date: &str, now: u64) -> Option<AuthRefused>
    ensures { result ≡ date_refusal now (parse_secs date.now) }
{
    match read_date(date) {
        Some(date) => age_refusal(unix_second(now), date),
        None => Some(AuthRefused::DateUnread),
    }
}

/// The seconds from 1970 to a date in one of the forms of HTTP.
fn read_date(date: &str) -> Option<i64>
    ensures value { result ≡ option_map (λ second. pos second) (parse_secs date.now) }
    ensures bound { IfSome result (λ second. (pos 0 ≤ℤ second) × (second ≤ℤ pos 253_402_300_799)) }
{
    match HttpDate::parse_ascii(date.as_bytes()) {
        Ok(date) => Some(date.unix_secs() as i64),
        Err(_) => None,
    }
}

/// The whole seconds from 1970 to a tick, below 0 before.
fn unix_second(tick: u64) -> i64
    ensures value { result ≡ unix_second tick }
    ensures low { negsuc 11_644_473_599 ≤ℤ result }
    ensures high { result ≤ℤ pos 1_844_674_407_370 }
{
    (tick / TICKS_IN_A_SECOND) as i64 - SECONDS_FROM_1601_TO_1970
}

/// Whether a date lies too far from now, both in seconds.
fn age_refusal(now: i64, date: i64) -> Option<AuthRefused>
    requires now_low { negsuc 11_644_473_599 ≤ℤ now }
    requires now_high { now ≤ℤ pos 1_844_674_407_370 }
    requires date_low { pos 0 ≤ℤ date }
    requires date_high { date ≤ℤ pos 253_402_300_799 }
    ensures { result ≡ age_refusal now date }
{
    if date + MOST_SECONDS < now {
        Some(AuthRefused::TooOld)
    } else if now + MOST_SECONDS < date {
        Some(AuthRefused::TooEarly)
    } else {
        None
    }
}

/// The signature that a request with this date should have.
fn request_signature(
    alloc: Global,
    account: &str,
    key: &[u8],
    signed: &Signed,
    date: &str,
) -> Result<String, Memory>
    ensures { IfOk result (λ text. string_bytes text ≡ signature key.now date.now (resource_of account.now signed.now.path signed.now.comp)) }
{
    let resource = resource_of(alloc, account, signed.path.as_str(), signed.comp.as_ref())?;
    sign(alloc, key, date, resource.as_str())
}
