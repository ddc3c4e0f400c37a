//! The boundary that a Content-Type gives (RFC 2046, section 5.1.1; parameters as in RFC 9110, section 5.6.6).
ghost use Rattle.std.specs.Prelude.{◌≡◌, ◌<◌, ◌∷◌, [], length, reverse, false, MatchOption, IfSome};
ghost use Rattle.std.specs.List.{list_any};
ghost use Rattle.std.specs.Option.{option_copied};
ghost use Rattle.tab_batch.specs.Boundaries.{behind_word, turned, pieces, is_quote, is_boundary, before_quote, unquoted, boundary_of, boundary_parameter};

use crate::LONGEST_BOUNDARY;
use tab_http::trim_blanks;

/// The boundary of a multipart body, if the value of its Content-Type gives one.
#[tactic(auto, unfolding(crate::specs::Boundaries::boundary_of))]
pub fn boundary_of(content_type: &[u8]) -> Option<&[u8]>
    ensures { option_copied result ≡ boundary_of content_type.now }
{
    let (kind, parameters) = first_piece(content_type);
    if !trim_blanks(kind).eq_ignore_ascii_case(b"multipart/mixed") {
        return None;
    }
    unquoted(boundary_parameter(parameters?)?)
}

/// The value of the first parameter that is called `boundary`.
fn boundary_parameter(parameters: &[u8]) -> Option<&[u8]>
    ensures { option_copied result ≡ boundary_parameter (pieces false parameters.now) }
{
    let mut rest = parameters;
    loop {
        let (piece, behind) = first_piece(rest);
        if let Some(value) = behind_word(trim_blanks(piece), b"boundary=") {
            return Some(value);
        }
        rest = behind?;
    }
}

/// What stands before the first semicolon outside of quotes, and what stands behind it.
fn first_piece(bytes: &[u8]) -> (&[u8], Option<&[u8]>)
    ensures shorter { IfSome result.1 (λ rest. length rest.now < length bytes.now) }
    ensures parts { MatchOption result.1 (pieces false bytes.now ≡ result.0.now ∷ []) (λ rest. pieces false bytes.now ≡ result.0.now ∷ pieces false rest.now) }
{
    let mut quoted = false;
    let mut at = 0;
    while at < bytes.len() {
        let byte = bytes[at];
        if byte == b';' && !quoted {
            return (&bytes[..at], Some(&bytes[at + 1..]));
        }
        quoted = turned(quoted, byte);
        at += 1;
    }
    (bytes, None)
}

/// Whether the next byte is quoted.
fn turned(quoted: bool, byte: u8) -> bool
    ensures { result ≡ turned quoted byte }
{
    if byte == b'"' { !quoted } else { quoted }
}

/// What is behind the word, if the text begins with it in any case.
pub fn behind_word<'t>(text: &'t [u8], word: &[u8]) -> Option<&'t [u8]>
    ensures { option_copied result ≡ behind_word word.now text.now }
{
    let (front, rest) = text.split_at_checked(word.len())?;
    if front.eq_ignore_ascii_case(word) {
        Some(rest)
    } else {
        None
    }
}

/// The boundary that a parameter's value is, as it stands or between quotes.
#[tactic(auto, unfolding(crate::specs::Boundaries::unquoted))]
fn unquoted(text: &[u8]) -> Option<&[u8]>
    ensures { option_copied result ≡ unquoted text.now }
{
    if is_boundary(text) {
        return Some(text);
    }
    match text {
        [b'"', rest @ ..] => before_quote(rest),
        _ => None,
    }
}

/// The boundary before a quote at the end.
fn before_quote(text: &[u8]) -> Option<&[u8]>
    ensures { option_copied result ≡ before_quote (reverse text.now) }
{
    let [inside @ .., b'"'] = text else {
        return None;
    };
    if is_boundary(inside) {
        Some(inside)
    } else {
        None
    }
}

fn is_boundary(text: &[u8]) -> bool
    ensures { result ≡ is_boundary text.now }
{
    !text.is_empty() && text.len() <= LONGEST_BOUNDARY && !has_quote(text)
}

fn has_quote(text: &[u8]) -> bool
    ensures { result ≡ list_any is_quote text.now }
{
    text.iter().any(|byte| *byte == b'"')
}
