//! The literals of filters: the primitive literals of OData 3.0, part "URL conventions", for the seven types that
//! are served.

ghost use Rattle.std.specs.Prelude.{◌≡◌, ◌≤◌, ◌^◌, ◌+◌, ◌-◌, ◌*◌, true, false, vec_items, Option, Some, None, IfOk, OnOk, MatchOption, option_map, string_bytes, encode_utf8_all, OnSome, IfSome, IfNone};
ghost use Rattle.tab_edm.specs.declared.values.Value.TheVariants.{Bytes};
ghost use Rattle.tab_edm.specs.Moments.{moment_of};
ghost use Rattle.uuid.specs.Text.{is_hex_digit, value_of};
ghost use Rattle.tab_filter.specs.Lexer.{Parses, front_of, behind, is_plain, is_unquoted};
ghost use Rattle.tab_filter.specs.Literals.{with_front, inside_at, is_digit, fits_64, fits_32, signed, integer_of, long_at_end, goes_on, digits_value, starts_digit, some_digits, integer_value, plain_value, hex_byte, hex_pairs, guid_of, prefixed_value, given, quoted, token_at, closed_at, quote_at, word_at, literal_at};

use crate::lexer::{
    first_and_rest, is_word, past_first, split_unquoted, split_word, starts, text_of,
};
use crate::parse_stop::ParseStop;
use std::alloc::{AllocError, Global};
use tab_edm::{BytesValue, TextValue, Value, read_moment};
use uuid::Uuid;

/// The most that an integer's digits come to, 2 ^ 63.
const MOST: u64 = 9_223_372_036_854_775_808;

/// A literal, and what is behind it.
#[tactic(auto, unfolding(crate::specs::Literals::literal_at))]
pub fn literal(alloc: Global, text: &[char]) -> Result<(Value, &[char]), ParseStop<'_>>
    ensures { Parses (λ x. (x.0, x.1.now)) result (literal_at text.now) }
{
    let (word, rest) = split_word(text);
    if starts('\'', rest) {
        quote(alloc, text, word, past_first(rest))
    } else {
        token(text, word, rest)
    }
}

/// A literal without quotes.
fn token<'a>(
    text: &'a [char],
    word: &[char],
    rest: &'a [char],
) -> Result<(Value, &'a [char]), ParseStop<'a>>
    ensures { Parses (λ x. (x.0, x.1.now)) result (token_at text.now word.now rest.now) }
{
    if word.is_empty() {
        return Err(ParseStop::Syntax(rest));
    }
    match plain_value(word) {
        Some(value) => Ok((value, rest)),
        None => Err(ParseStop::BadLiteral(text)),
    }
}

/// A literal with quotes, of which the first is read.
fn quote<'a>(
    alloc: Global,
    text: &'a [char],
    word: &[char],
    rest: &'a [char],
) -> Result<(Value, &'a [char]), ParseStop<'a>>
    ensures { Parses (λ x. (x.0, x.1.now)) result (quote_at text.now word.now rest.now) }
{
    if word.is_empty() {
        return match inside(alloc, rest)? {
            Some((inside, rest)) => Ok((Value::Text(TextValue::new(inside)), rest)),
            None => Err(ParseStop::BadLiteral(text)),
        };
    }
    let (inside, rest) = split_unquoted(rest);
    closed(alloc, text, word, inside, rest)
}

/// A literal that is a word and what stands between the quotes behind it.
fn closed<'a>(
    alloc: Global,
    text: &'a [char],
    word: &[char],
    inside: &[char],
    rest: &'a [char],
) -> Result<(Value, &'a [char]), ParseStop<'a>>
    ensures { Parses (λ x. (x.0, x.1.now)) result (closed_at text.now word.now inside.now rest.now) }
{
    if !starts('\'', rest) {
        return Err(ParseStop::BadLiteral(text));
    }
    match prefixed_value(alloc, word, inside)? {
        Some(value) => Ok((value, past_first(rest))),
        None => Err(ParseStop::BadLiteral(text)),
    }
}

/// The text up to the first quote that is not doubled, and what is behind that quote.
#[tactic(auto, using(crate::proofs::LiteralSteps::inside_char, crate::proofs::LiteralSteps::inside_quote, crate::proofs::LiteralSteps::inside_end, crate::proofs::LiteralSteps::inside_none))]
fn inside(alloc: Global, mut text: &[char]) -> Result<Option<(String, &[char])>, AllocError>
    ensures { IfOk result (λ found. option_map (λ x. (string_bytes x.0, x.1.now)) found ≡ inside_at text.now) }
{
    let mut inside = String::new(alloc);
    while let Some((c, rest)) = first_and_rest(text) {
        if c != '\'' {
            inside.push(c)?;
            text = rest;
        } else if starts('\'', rest) {
            inside.push('\'')?;
            text = past_first(rest);
        } else {
            return Ok(Some((inside, rest)));
        }
    }
    Ok(None)
}

#[tactic(auto, unfolding(crate::specs::Literals::plain_value))]
fn plain_value(word: &[char]) -> Option<Value>
    ensures { result ≡ plain_value word.now }
{
    if is_word(word, &['t', 'r', 'u', 'e']) {
        Some(Value::Flag(true))
    } else if is_word(word, &['f', 'a', 'l', 's', 'e']) {
        Some(Value::Flag(false))
    } else {
        integer_value(word)
    }
}

#[tactic(auto, unfolding(crate::specs::Literals::integer_value))]
fn integer_value(text: &[char]) -> Option<Value>
    ensures { result ≡ integer_value text.now }
{
    if starts('-', text) {
        some_digits(true, past_first(text))
    } else {
        some_digits(false, text)
    }
}

fn some_digits(minus: bool, text: &[char]) -> Option<Value>
    ensures { result ≡ some_digits minus text.now }
{
    if starts_digit(text) {
        digits_value(minus, text)
    } else {
        None
    }
}

fn starts_digit(text: &[char]) -> bool
    ensures { result ≡ starts_digit text.now }
{
    match text {
        [first, ..] => first.is_ascii_digit(),
        [] => false,
    }
}

/// Digits, and an `L` behind them or not.
#[tactic(auto, unfolding(crate::specs::Literals::digits_value))]
fn digits_value(minus: bool, mut text: &[char]) -> Option<Value>
    ensures { result ≡ digits_value minus 0 text.now }
{
    let mut n = 0;
    while let [c, rest @ ..] = text {
        if *c == 'L' {
            return long_at_end(minus, n, rest);
        }
        n = with_digit(n, *c)?;
        text = rest;
    }
    integer_of(minus, n, false)
}

fn with_digit(n: u64, c: char) -> Option<u64>
    requires { n ≤ 2 ^ 63 }
    ensures { MatchOption result (goes_on n c ≡ false) (λ m. (goes_on n c ≡ true) × (m ≡ n * 10 + (c - 48)) × (m ≤ 2 ^ 63)) }
{
    if !c.is_ascii_digit() || n > MOST / 10 {
        return None;
    }
    let m = n * 10 + (c as u64 - 48);
    if m > MOST { None } else { Some(m) }
}

fn long_at_end(minus: bool, n: u64, rest: &[char]) -> Option<Value>
    requires { n ≤ 2 ^ 63 }
    ensures { result ≡ long_at_end minus n rest.now }
{
    match rest {
        [] => integer_of(minus, n, true),
        _ => None,
    }
}

/// The value of an integer with this sign and these digits, with an `L` or without.
#[tactic(auto, unfolding(crate::specs::Literals::integer_of))]
fn integer_of(minus: bool, n: u64, long: bool) -> Option<Value>
    requires { n ≤ 2 ^ 63 }
    ensures { result ≡ integer_of minus n long }
{
    if n == MOST {
        return if minus {
            Some(Value::Int64(i64::MIN))
        } else {
            None
        };
    }
    let number = if minus { -(n as i64) } else { n as i64 };
    if long || n > 2_147_483_648 || (n == 2_147_483_648 && !minus) {
        Some(Value::Int64(number))
    } else {
        Some(Value::Int32(number as i32))
    }
}

/// The value of a word and what stands between the quotes behind it.
#[tactic(auto, unfolding(crate::specs::Literals::prefixed_value))]
fn prefixed_value(
    alloc: Global,
    word: &[char],
    inside: &[char],
) -> Result<Option<Value>, AllocError>
    ensures { IfOk result (λ value. value ≡ prefixed_value word.now inside.now) }
{
    if is_word(word, &['d', 'a', 't', 'e', 't', 'i', 'm', 'e']) {
        let inside = text_of(alloc, inside)?;
        Ok(read_moment(inside.as_str()).map(Value::Moment))
    } else if is_word(word, &['g', 'u', 'i', 'd']) {
        let inside = text_of(alloc, inside)?;
        Ok(guid(inside.as_str()))
    } else if is_word(word, &['X']) || is_word(word, &['b', 'i', 'n', 'a', 'r', 'y']) {
        bytes(alloc, inside)
    } else {
        Ok(None)
    }
}

#[tactic(auto, unfolding(crate::specs::Literals::guid_of))]
fn guid(text: &str) -> Option<Value>
    ensures { result ≡ guid_of text.now }
{
    match Uuid::parse_str(text) {
        Ok(guid) => Some(Value::Guid(guid.into_bytes())),
        Err(_) => None,
    }
}

fn bytes(alloc: Global, text: &[char]) -> Result<Option<Value>, AllocError>
    ensures { IfOk result (λ value. value ≡ option_map Bytes (hex_pairs text.now)) }
{
    match hex_pairs(alloc, text)? {
        Some(bytes) => Ok(Some(Value::Bytes(BytesValue::new(bytes)))),
        None => Ok(None),
    }
}

/// The bytes of pairs of hexadecimal digits.
#[tactic(auto, using(crate::proofs::LiteralSteps::pairs_more, crate::proofs::LiteralSteps::pairs_end, crate::proofs::LiteralSteps::pairs_odd, crate::proofs::LiteralSteps::pairs_wrong))]
fn hex_pairs(alloc: Global, mut text: &[char]) -> Result<Option<Vec<u8>>, AllocError>
    ensures { IfOk result (λ bytes. option_map vec_items bytes ≡ hex_pairs text.now) }
{
    let mut bytes = Vec::new(alloc);
    while let Some((high, rest)) = first_and_rest(text) {
        let Some((low, rest)) = first_and_rest(rest) else {
            return Ok(None);
        };
        let Some(byte) = hex_byte(high, low) else {
            return Ok(None);
        };
        bytes.push(byte)?;
        text = rest;
    }
    Ok(Some(bytes))
}

fn hex_byte(high: char, low: char) -> Option<u8>
    ensures { result ≡ hex_byte high low }
{
    Some(hex_digit(high)? * 16 + hex_digit(low)?)
}

fn hex_digit(c: char) -> Option<u8>
    ensures { MatchOption result (is_hex_digit c ≡ false) (λ n. (is_hex_digit c ≡ true) × (n ≡ value_of c) × (n ≤ 15)) }
{
    match c {
        '0'..='9' => Some(c as u8 - b'0'),
        'a'..='f' => Some(c as u8 - b'a' + 10),
        'A'..='F' => Some(c as u8 - b'A' + 10),
        _ => None,
    }
}
