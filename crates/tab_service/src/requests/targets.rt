//! What a request's target names: a path `/ACCOUNT/` and one segment, percent-encoded (RFC 3986, section 2.1), with the
//! addresses of OData 3.0 (`Tables('NAME')`, `NAME(PartitionKey='P',RowKey='R')`).
ghost use Rattle.std.specs.Prelude.{◌≡◌, IfOk, option_map, vec_items};
ghost use Rattle.std.specs.Cow.{cow_str_bytes};
ghost use Rattle.std.specs.List.{list_any};
ghost use Rattle.std.specs.Option.{option_copied};
ghost use Rattle.tab_service.specs.Targets.{path_of, query_of, behind, path_behind, ends_segment, one_segment, segment_in, decoded, text_of, quoted, doubled_quote, first_inside, past_quote, value_named, without_spaces, row_key_behind, keys_in, is_tables, name_quoted, before_mark, parted, quoted_table, may_begin_name, row_at, in_parentheses, address_of, resource_of, resource_in};
ghost use Rattle.tab_service.specs.Answers.{Gives};
ghost use Rattle.tab_service.specs.Requests.{named_or_refused};

use crate::copies::owned;
use crate::{Refusal, Refused};
use percent_encoding::{DecodeError, percent_decode};
use std::alloc::Global;
use std::borrow::CowStr;
use tab_edm::TextValue;
use tab_keys::Memory;

/// What a target names, with the texts that stand for a table's name and for keys.
#[derive(Debug, Drop)]
pub enum Resource {
    /// The list of tables.
    Tables,
    /// The table of this name.
    Table(TextValue),
    /// The rows of the table of this name.
    Rows(TextValue),
    /// The row of the table of this name at these keys.
    Row(TextValue, TextValue, TextValue),
    /// The place for batches.
    Batch,
}

/// The path of a target, and the query behind it.
#[tactic(auto, unfolding(crate::specs::Targets::path_of, crate::specs::Targets::query_of))]
pub fn split_target(target: &str) -> (&str, &str)
    ensures path { result.0.now ≡ path_of target.now }
    ensures query { result.1.now ≡ query_of target.now }
{
    match target.split_once('?') {
        Some(parts) => parts,
        None => (target, ""),
    }
}

/// The resource that a path names, or that it names none.
pub fn resource_at(alloc: Global, account: &str, path: &str) -> Result<Resource, Refused>
    ensures { Gives result (named_or_refused (resource_in account.now path.now)) }
{
    match resource_in(alloc, account, path)? {
        Some(resource) => Ok(resource),
        None => Err(Refused::Why(Refusal::Path)),
    }
}

/// The resource that a path names, if it is one of this account.
#[tactic(auto, unfolding(crate::specs::Targets::resource_in))]
fn resource_in(alloc: Global, account: &str, path: &str) -> Result<Option<Resource>, Memory>
    ensures { IfOk result (λ found. found ≡ resource_in account.now path.now) }
{
    let Some(segment) = segment_in(alloc, account.as_bytes(), path.as_bytes())? else {
        return Ok(None);
    };
    resource_of(alloc, segment.as_str())
}

/// The one segment behind that of the account, decoded.
fn segment_in<'t>(
    alloc: Global,
    account: &[u8],
    path: &'t [u8],
) -> Result<Option<CowStr<'t>>, Memory>
    ensures { IfOk result (λ found. option_map cow_str_bytes found ≡ segment_in account.now path.entry.now) }
{
    match path_behind(account, path) {
        Some(segment) => one_segment(alloc, segment),
        None => Ok(None),
    }
}

/// What is behind the account's segment of a path.
fn path_behind<'t>(account: &[u8], target: &'t [u8]) -> Option<&'t [u8]>
    ensures { option_copied result ≡ path_behind account.now target.now }
{
    let path = behind(b"/", target)?;
    let rest = behind(account, path)?;
    behind(b"/", rest)
}

fn one_segment(alloc: Global, segment: &[u8]) -> Result<Option<CowStr<'_>>, Memory>
    ensures { IfOk result (λ found. option_map cow_str_bytes found ≡ one_segment segment.now) }
{
    if ends_segment(segment) {
        return Ok(None);
    }
    decoded(alloc, segment)
}

/// Whether one of the bytes ends a segment.
fn ends_segment(segment: &[u8]) -> bool
    ensures { result ≡ list_any ends_segment segment.now }
{
    segment.contains(&b'/')
}

/// The text that a segment decodes to: the segment itself where it has no escape.
fn decoded(alloc: Global, segment: &[u8]) -> Result<Option<CowStr<'_>>, Memory>
    ensures { IfOk result (λ found. option_map cow_str_bytes found ≡ decoded segment.now) }
{
    match percent_decode(segment).decode_utf8(alloc) {
        Ok(text) => Ok(Some(text)),
        Err(DecodeError::OutOfMemory) => Err(Memory),
        Err(DecodeError::Utf8(_)) => Ok(None),
    }
}

// ---- resources

/// What a segment names.
#[tactic(auto, unfolding(crate::specs::Targets::resource_of))]
fn resource_of(alloc: Global, segment: &str) -> Result<Option<Resource>, Memory>
    ensures { IfOk result (λ found. found ≡ resource_of segment.now) }
{
    if is_tables(segment) {
        return Ok(Some(Resource::Tables));
    }
    if segment == "$batch" {
        return Ok(Some(Resource::Batch));
    }
    match quoted_table(segment) {
        Some(name) => Ok(Some(Resource::Table(owned(alloc, name)?))),
        None => address_of(alloc, segment),
    }
}

/// Whether a segment names the list of tables.
#[tactic(auto, unfolding(crate::specs::Targets::is_tables))]
fn is_tables(segment: &str) -> bool
    ensures { result ≡ is_tables segment.now }
{
    segment.eq_ignore_ascii_case("tables") || segment.eq_ignore_ascii_case("tables()")
}

/// The NAME of `Tables('NAME')`.
#[tactic(auto, unfolding(crate::specs::Targets::quoted_table))]
fn quoted_table(segment: &str) -> Option<&str>
    ensures { option_copied result ≡ quoted_table segment.now }
{
    let (front, rest) = segment.split_once('\'')?;
    name_quoted(front, rest)
}

fn name_quoted<'t>(front: &str, rest: &'t str) -> Option<&'t str>
    ensures { option_copied result ≡ name_quoted (front.now, rest.now) }
{
    if front.eq_ignore_ascii_case("tables(") {
        before_mark("')", rest)
    } else {
        None
    }
}

/// The text before this mark, if that ends it.
fn before_mark<'t>(mark: &str, text: &'t str) -> Option<&'t str>
    ensures { option_copied result ≡ before_mark mark.now text.now }
{
    text.strip_suffix(mark)
}

/// The rows of a table, or one of them.
#[tactic(auto, unfolding(crate::specs::Targets::address_of))]
fn address_of(alloc: Global, segment: &str) -> Result<Option<Resource>, Memory>
    ensures { IfOk result (λ found. found ≡ address_of segment.now) }
{
    if !may_begin_name(segment.as_bytes()) {
        return Ok(None);
    }
    match opened(segment) {
        Some((name, arguments)) => in_parentheses(alloc, name, arguments),
        None => Ok(Some(Resource::Rows(owned(alloc, segment)?))),
    }
}

/// What is before and behind the first parenthesis.
fn opened(segment: &str) -> Option<(&str, &str)>
    ensures { option_map (λ parts. (parts.0.now, parts.1.now)) result ≡ parted 40 segment.now }
{
    segment.split_once('(')
}

/// Whether a table's name may stand at the front of a segment.
#[tactic(auto, unfolding(crate::specs::Targets::may_begin_name))]
fn may_begin_name(segment: &[u8]) -> bool
    ensures { result ≡ may_begin_name segment.now }
{
    match segment {
        [] => false,
        [first, ..] => *first != b'$' && *first != b'(',
    }
}

fn in_parentheses(alloc: Global, name: &str, arguments: &str) -> Result<Option<Resource>, Memory>
    ensures { IfOk result (λ found. found ≡ in_parentheses (name.now, arguments.now)) }
{
    if arguments == ")" {
        return Ok(Some(Resource::Rows(owned(alloc, name)?)));
    }
    match keys_in(alloc, arguments.as_bytes())? {
        Some((pk, rk)) => row_at(alloc, name, pk, rk),
        None => Ok(None),
    }
}

/// The row of two keys, if they are texts.
fn row_at(alloc: Global, name: &str, pk: Vec<u8>, rk: Vec<u8>) -> Result<Option<Resource>, Memory>
    ensures { IfOk result (λ found. found ≡ row_at name.now (pk.items, rk.items)) }
{
    let Some(pk) = text_of(pk) else {
        return Ok(None);
    };
    let Some(rk) = text_of(rk) else {
        return Ok(None);
    };
    Ok(Some(Resource::Row(owned(alloc, name)?, pk, rk)))
}

// ---- the keys of a row

fn text_of(bytes: Vec<u8>) -> Option<TextValue>
    ensures { result ≡ text_of bytes.items }
{
    match String::from_utf8(bytes) {
        Ok(text) => Some(TextValue::new(text)),
        Err(_) => None,
    }
}

/// The two keys of an address, behind its name and the parenthesis.
#[tactic(auto, unfolding(crate::specs::Targets::keys_in))]
fn keys_in(alloc: Global, text: &[u8]) -> Result<Option<(Vec<u8>, Vec<u8>)>, Memory>
    ensures { IfOk result (λ found. option_map (λ keys. (keys.0.items, keys.1.items)) found ≡ keys_in text.now) }
{
    match value_named(alloc, b"PartitionKey='", text)? {
        Some((pk, rest)) => row_key_behind(alloc, pk, rest),
        None => Ok(None),
    }
}

fn row_key_behind(
    alloc: Global,
    pk: Vec<u8>,
    rest: &[u8],
) -> Result<Option<(Vec<u8>, Vec<u8>)>, Memory>
    ensures { IfOk result (λ found. option_map (λ keys. (keys.0.items, keys.1.items)) found ≡ row_key_behind (pk.items, rest.now)) }
{
    let Some(rest) = behind(b",", rest) else {
        return Ok(None);
    };
    match value_named(alloc, b"RowKey='", without_spaces(rest))? {
        Some((rk, rest)) if rest == b")".as_slice() => Ok(Some((pk, rk))),
        _ => Ok(None),
    }
}

/// The text behind a name with `=` and a quote, and what is behind that text.
fn value_named<'t>(
    alloc: Global,
    name: &[u8],
    text: &'t [u8],
) -> Result<Option<(Vec<u8>, &'t [u8])>, Memory>
    ensures { IfOk result (λ found. option_map (λ value. (value.0.items, value.1.now)) found ≡ value_named name.now text.now) }
{
    match behind(name, text) {
        Some(rest) => quoted(alloc, rest),
        None => Ok(None),
    }
}

/// The text up to the quote that ends it, where each quote in it stands twice, and what is behind.
fn quoted(alloc: Global, text: &[u8]) -> Result<Option<(Vec<u8>, &[u8])>, Memory>
    ensures { IfOk result (λ found. option_map (λ value. (value.0.items, value.1.now)) found ≡ quoted text.now) }
{
    let mut out = Vec::new(alloc);
    let mut rest = text;
    while let Some((byte, later)) = first_inside(rest) {
        let Ok(()) = out.push(byte) else {
            return Err(Memory);
        };
        rest = later;
    }
    match past_quote(rest) {
        Some(behind) => Ok(Some((out, behind))),
        None => Ok(None),
    }
}

/// The first byte of such a text and what is behind it, if no quote ends it there.
#[tactic(auto, unfolding(crate::specs::Targets::first_inside))]
fn first_inside(text: &[u8]) -> Option<(u8, &[u8])>
    ensures { option_map (λ found. (found.0, found.1.now)) result ≡ first_inside text.now }
{
    let (first, later) = text.split_first()?;
    if *first != b'\'' {
        return Some((*first, later));
    }
    doubled_quote(later)
}

fn doubled_quote(text: &[u8]) -> Option<(u8, &[u8])>
    ensures { option_map (λ found. (found.0, found.1.now)) result ≡ doubled_quote text.now }
{
    let (first, later) = text.split_first()?;
    if *first == b'\'' {
        Some((b'\'', later))
    } else {
        None
    }
}

/// What is behind a quote.
#[tactic(auto, unfolding(crate::specs::Targets::past_quote))]
fn past_quote(text: &[u8]) -> Option<&[u8]>
    ensures { option_copied result ≡ past_quote text.now }
{
    let (first, later) = text.split_first()?;
    if *first == b'\'' { Some(later) } else { None }
}

/// The text without the spaces at its front.
#[tactic(auto, unfolding(crate::specs::Targets::without_spaces))]
fn without_spaces(text: &[u8]) -> &[u8]
    ensures { result.now ≡ without_spaces text.now }
{
    let mut left = text;
    while let Some((first, later)) = left.split_first() {
        if *first != b' ' {
            return left;
        }
        left = later;
    }
    left
}

/// What is behind this front of the text, if it begins so.
#[tactic(auto, unfolding(crate::specs::Targets::behind))]
fn behind<'t>(front: &[u8], text: &'t [u8]) -> Option<&'t [u8]>
    ensures { option_copied result ≡ behind front.now text.now }
{
    text.strip_prefix(front)
}
