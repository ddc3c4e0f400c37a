//! The words of a filter's text, read from its front: names by Unicode Standard Annex 31, operators and joints.

ghost use Rattle.std.specs.Prelude.{◌≡◌, ◌≤◌, ℕ, List, [], ◌∷◌, ◌++◌, length, MatchOption, bytes_eq, IfOk, string_bytes, encode_utf8_all, Ok, Err};
ghost use Rattle.tab_filter.specs.Lexer.{Parses, ParseFault, Read, starts, past_first, after_spaces, expect, gap_at, edge_at, letter_at, either_letter_at, operator_at, begins, continues, name_front, name_behind, starts_name, whole_name, behind_name, name_at, is_not, operator_named, operator_of, joint_at, front_of, behind, is_plain, is_unquoted};

use crate::Operator;
use crate::parse_stop::ParseStop;
use std::alloc::{AllocError, Global};
use unicode_ident::{is_xid_continue, is_xid_start};

/// The most characters of a name behind its first.
const NAME_ROOM: usize = 254;

/// What follows a part of a filter.
#[derive(Clone, Copy, Debug, PartialEq, Eq)]
pub enum Joint {
    And,
    Or,
    Neither,
}

/// Whether the text begins with this character.
pub fn starts(c: char, text: &[char]) -> bool
    ensures { result ≡ starts c text.now }
{
    match text {
        [first, ..] => *first == c,
        [] => false,
    }
}

/// What is behind the first character, and nothing where there is none.
pub fn past_first(text: &[char]) -> &[char]
    ensures { result.now ≡ past_first text.now }
{
    match text {
        [_, rest @ ..] => rest,
        [] => text,
    }
}

/// What is behind the spaces at the front.
#[tactic(auto, unfolding(crate::specs::Lexer::behind))]
pub fn after_spaces(mut text: &[char]) -> &[char]
    ensures { result.now ≡ after_spaces text.now }
{
    while let [first, rest @ ..] = text {
        if *first != ' ' {
            break;
        }
        text = rest;
    }
    text
}

/// What is behind this character, which is due.
pub fn expect(c: char, text: &[char]) -> Result<&[char], ParseStop<'_>>
    ensures { Parses (λ rest. (tt, rest.now)) result (expect c text.now) }
{
    if starts(c, text) {
        Ok(past_first(text))
    } else {
        Err(ParseStop::Syntax(text))
    }
}

/// One or more spaces.
pub fn gap(text: &[char]) -> Result<&[char], ParseStop<'_>>
    ensures { Parses (λ rest. (tt, rest.now)) result (gap_at text.now) }
{
    if starts(' ', text) {
        Ok(after_spaces(text))
    } else {
        Err(ParseStop::Syntax(text))
    }
}

/// Any spaces before a `(`, and otherwise one or more.
pub fn edge(text: &[char]) -> Result<&[char], ParseStop<'_>>
    ensures { Parses (λ rest. (tt, rest.now)) result (edge_at text.now) }
{
    let rest = after_spaces(text);
    if starts('(', rest) {
        Ok(rest)
    } else {
        gap(text)
    }
}

/// The operator at the front, and what is behind it.
#[tactic(auto, unfolding(crate::specs::Lexer::operator_at))]
pub fn operator(text: &[char]) -> Result<(Operator, &[char]), ParseStop<'_>>
    ensures { Parses (λ x. (x.0, x.1.now)) result (operator_at text.now) }
{
    let rest = past_first(text);
    if starts('e', text) {
        letter('q', Operator::Equal, rest)
    } else if starts('n', text) {
        letter('e', Operator::NotEqual, rest)
    } else if starts('g', text) {
        either_letter(Operator::GreaterOrEqual, 't', Operator::Greater, rest)
    } else if starts('l', text) {
        either_letter(Operator::LessOrEqual, 't', Operator::Less, rest)
    } else {
        Err(ParseStop::Syntax(text))
    }
}

fn letter(c: char, operator: Operator, text: &[char]) -> Result<(Operator, &[char]), ParseStop<'_>>
    ensures { Parses (λ x. (x.0, x.1.now)) result (letter_at c operator text.now) }
{
    if starts(c, text) {
        Ok((operator, past_first(text)))
    } else {
        Err(ParseStop::Syntax(text))
    }
}

fn either_letter(
    first: Operator,
    c: char,
    operator: Operator,
    text: &[char],
) -> Result<(Operator, &[char]), ParseStop<'_>>
    ensures { Parses (λ x. (x.0, x.1.now)) result (either_letter_at first c operator text.now) }
{
    if starts('e', text) {
        Ok((first, past_first(text)))
    } else {
        letter(c, operator, text)
    }
}

#[tactic(auto, unfolding(crate::specs::Lexer::begins))]
fn begins(c: char) -> bool
    ensures { result ≡ begins c }
{
    is_xid_start(c) || c == '_'
}

#[tactic(auto, unfolding(crate::specs::Lexer::continues))]
fn continues(c: char) -> bool
    ensures { result ≡ continues c }
{
    is_xid_continue(c)
}

/// What is behind the longest front of a name's characters, `room` of them at most.
#[tactic(auto, unfolding(crate::specs::Lexer::name_behind))]
fn name_behind(text: &[char], room: usize) -> &[char]
    ensures { result.now ≡ name_behind room text.now }
{
    if room == 0 {
        return text;
    }
    match text {
        [first, rest @ ..] => {
            if continues(*first) {
                name_behind(rest, room - 1)
            } else {
                text
            }
        }
        [] => text,
    }
}

/// The characters of a text before those that are left.
fn taken<'a>(text: &'a [char], rest: &[char]) -> &'a [char]
    requires { length rest.now ≤ length text.now }
    ensures { (front : List ℕ) → text.now ≡ front ++ rest.now → result.now ≡ front }
{
    &text[..text.len() - rest.len()]
}

/// A name of at most 255 characters.
#[tactic(auto, unfolding(crate::specs::Lexer::name_at))]
pub fn name(text: &[char]) -> Result<(&[char], &[char]), ParseStop<'_>>
    ensures { Parses (λ x. (x.0.now, x.1.now)) result (name_at text.now) }
{
    if starts_name(text) {
        Ok(split_name(text))
    } else {
        Err(ParseStop::Syntax(text))
    }
}

/// The name at the front of a text, and what is behind it.
pub fn split_name(text: &[char]) -> (&[char], &[char])
    ensures name { result.0.now ≡ whole_name text.now }
    ensures rest { result.1.now ≡ behind_name text.now }
{
    let rest = name_behind(past_first(text), NAME_ROOM);
    (taken(text, rest), rest)
}

/// Whether the text begins with a character that may begin a name.
pub fn starts_name(text: &[char]) -> bool
    ensures { result ≡ starts_name text.now }
{
    match text {
        [first, ..] => begins(*first),
        [] => false,
    }
}

/// Whether the name is the word `not`.
#[tactic(auto, unfolding(crate::specs::Lexer::is_not))]
pub fn is_not(name: &[char]) -> bool
    ensures { result ≡ is_not name.now }
{
    matches!(name, ['n', 'o', 't'])
}

/// The operator that a name spells.
#[tactic(auto, unfolding(crate::specs::Lexer::operator_named))]
pub fn operator_named(name: &[char]) -> Option<Operator>
    ensures { result ≡ operator_named name.now }
{
    match name {
        [first, second] => operator_of(*first, *second),
        _ => None,
    }
}

fn operator_of(first: char, second: char) -> Option<Operator>
    ensures { result ≡ operator_of first second }
{
    match (first, second) {
        ('e', 'q') => Some(Operator::Equal),
        ('n', 'e') => Some(Operator::NotEqual),
        ('g', 'e') => Some(Operator::GreaterOrEqual),
        ('g', 't') => Some(Operator::Greater),
        ('l', 'e') => Some(Operator::LessOrEqual),
        ('l', 't') => Some(Operator::Less),
        _ => None,
    }
}

/// The word that joins a part to the next, and what is behind it. It stands behind a space or a `)`.
#[tactic(auto, unfolding(crate::specs::Lexer::joint_at))]
pub fn read_joint(closed: bool, text: &[char]) -> Result<(Joint, &[char]), ParseStop<'_>>
    ensures { Parses (λ x. (x.0, x.1.now)) result (joint_at closed text.now) }
{
    let rest = after_spaces(text);
    if !(closed || starts(' ', text)) {
        Ok((Joint::Neither, rest))
    } else if starts('a', rest) {
        let rest = expect('n', past_first(rest))?;
        Ok((Joint::And, expect('d', rest)?))
    } else if starts('o', rest) {
        Ok((Joint::Or, expect('r', past_first(rest))?))
    } else {
        Ok((Joint::Neither, rest))
    }
}

/// What is behind the longest front of characters that are no space, parenthesis or quote.
#[tactic(auto, unfolding(crate::specs::Lexer::behind))]
fn behind_word(mut text: &[char]) -> &[char]
    ensures { result.now ≡ behind is_plain text.now }
{
    while let [first, rest @ ..] = text {
        if !is_plain(*first) {
            break;
        }
        text = rest;
    }
    text
}

/// What is behind the longest front without a quote.
#[tactic(auto, unfolding(crate::specs::Lexer::behind))]
fn behind_unquoted(mut text: &[char]) -> &[char]
    ensures { result.now ≡ behind is_unquoted text.now }
{
    while let [first, rest @ ..] = text {
        if *first == '\'' {
            break;
        }
        text = rest;
    }
    text
}

fn is_plain(c: char) -> bool
    ensures { result ≡ is_plain c }
{
    !matches!(c, ' ' | '(' | ')' | '\'')
}

/// The longest front of characters that are no space, parenthesis or quote, and what is behind it.
pub fn split_word(text: &[char]) -> (&[char], &[char])
    ensures word { result.0.now ≡ front_of is_plain text.now }
    ensures rest { result.1.now ≡ behind is_plain text.now }
{
    let rest = behind_word(text);
    (taken(text, rest), rest)
}

/// The longest front without a quote, and what is behind it.
pub fn split_unquoted(text: &[char]) -> (&[char], &[char])
    ensures inside { result.0.now ≡ front_of is_unquoted text.now }
    ensures rest { result.1.now ≡ behind is_unquoted text.now }
{
    let rest = behind_unquoted(text);
    (taken(text, rest), rest)
}

/// The first character and those behind it, as a pair that a loop can take apart.
pub fn first_and_rest(text: &[char]) -> Option<(char, &[char])>
    ensures { MatchOption result (text.now ≡ []) (λ x. text.now ≡ x.0 ∷ x.1.now) }
{
    match text {
        [first, rest @ ..] => Some((*first, rest)),
        [] => None,
    }
}

/// Whether the characters are those of this word.
pub fn is_word(word: &[char], other: &[char]) -> bool
    ensures { result ≡ bytes_eq word.now other.now }
{
    word == other
}

/// The characters as a text of their own.
#[tactic(auto, using(crate::proofs::LiteralSteps::text_more))]
pub fn text_of(alloc: Global, chars: &[char]) -> Result<String, AllocError>
    ensures { IfOk result (λ text. string_bytes text ≡ encode_utf8_all chars.now) }
{
    let mut text = String::new(alloc);
    for c in chars {
        text.push(*c)?;
    }
    Ok(text)
}
