//! The condition of a write on the kept row: If-Match (RFC 9110, section 13.1.1).
ghost use Rattle.std.specs.Prelude.{◌≡◌};
ghost use Rattle.tab_service.specs.Conditions.{tick_of_etag, tick_in, condition_for, needed_condition};

use crate::Refusal;
use std::str;
use tab_edm::read_etag;
use tab_http::{Header, first_value};
use tab_ops::Match;

/// What the first If-Match header asks of the kept row, if there is one.
#[tactic(auto, unfolding(crate::specs::Conditions::condition_for))]
pub fn condition_for(headers: &[Header]) -> Result<Option<Match>, Refusal>
    ensures { result ≡ condition_for headers.now }
{
    match first_value(headers, "if-match") {
        None => Ok(None),
        Some(value) if value == b"*".as_slice() => Ok(Some(Match::Any)),
        Some(value) => match tick_in(value) {
            Some(tick) => Ok(Some(Match::Tick(tick))),
            None => Err(Refusal::Condition),
        },
    }
}

/// The condition of a request that has to have one.
pub fn needed_condition(condition: Option<Match>) -> Result<Match, Refusal>
    ensures { result ≡ needed_condition condition }
{
    condition.ok_or(Refusal::NoCondition)
}

/// The tick of a value that is an ETag.
#[tactic(auto, unfolding(crate::specs::Conditions::tick_in))]
fn tick_in(value: &[u8]) -> Option<u64>
    ensures { result ≡ tick_in value.now }
{
    let Ok(text) = str::from_utf8(value) else {
        return None;
    };
    tick_of_etag(text)
}

/// The tick whose ETag a text is.
fn tick_of_etag(text: &str) -> Option<u64>
    ensures { result ≡ tick_of_etag text.now }
{
    read_etag(text)
}
