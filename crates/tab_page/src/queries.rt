//! The options in the query of an address (`$filter`, `$select`, `$top` and the two tokens of a continuation), as the Table
//! service REST reference has them in "Query Entities", "Querying Tables and Entities" and "Query Timeout and Pagination".
ghost use Rattle.std.specs.Prelude.{◌≡◌, ◌≤◌, IfOk, IfSome, MatchResult};
ghost use Rattle.std.specs.Cow.{cow_str_bytes};
ghost use Rattle.tab_keys.specs.Results.{Gives};
ghost use Rattle.tab_page.specs.Queries.{read_options, read_select, decoded, read_top, with_digit, with_digits, top_of, token_of, row_of, start_of, filter_of, select_of, options_of, ReadsDecimals};
ghost use Rattle.tab_page.specs.QueryOptions.{text_of};
ghost use Rattle.tab_page.specs.declared.TheConstants.{MOST_ROWS};

use crate::{MOST_ROWS, Options, QueryOptions, Select, Token, TokenRefused};
use form_urlencoded::decode;
use std::alloc::Global;
use std::borrow::CowStr;
use tab_filter::{Filter, FilterRefused, parse};
use tab_keys::KeyText;

/// Why the options of a query are refused.
#[derive(Clone, Copy, Debug, PartialEq, Eq)]
pub enum OptionRefused {
    /// An option is given twice.
    BadOption,
    /// `$top` is not 1 to 1000.
    BadTop,
    /// A token cannot be read, or one for the row key stands without one for the partition key.
    BadToken,
    /// `$filter` is no filter.
    Filter(FilterRefused),
    /// No memory was found.
    Memory,
}

impl Options {
    /// What the query of an address asks for.
    #[tactic(auto, unfolding(crate::specs::Queries::read_options, crate::specs::QueryOptions::options_in))]
    pub fn read(alloc: Global, query: &str) -> Result<Options, OptionRefused>
        ensures { Gives OptionRefused.Memory (λ options. options) result (read_options query.now) }
    {
        let Ok(known) = QueryOptions::read(alloc, query) else {
            return Err(OptionRefused::Memory);
        };
        let filter = known.filter.value()?;
        let select = known.select.value()?;
        let top = known.top.value()?;
        let partition = known.partition.value()?;
        let row = known.row.value()?;
        options_of(alloc, filter, select, top, partition, row)
    }
}

impl Select {
    /// The properties that the query of an address asks for; its other options are not looked at.
    #[tactic(auto, unfolding(crate::specs::Queries::read_select, crate::specs::QueryOptions::options_in))]
    pub fn read(alloc: Global, query: &str) -> Result<Select, OptionRefused>
        ensures { Gives OptionRefused.Memory (λ select. select) result (read_select query.now) }
    {
        let Ok(known) = QueryOptions::read(alloc, query) else {
            return Err(OptionRefused::Memory);
        };
        select_of(alloc, known.select.value()?)
    }
}

/// The options from their values, which are not decoded yet.
fn options_of(
    alloc: Global,
    filter: Option<&[u8]>,
    select: Option<&[u8]>,
    top: Option<&[u8]>,
    partition: Option<&[u8]>,
    row: Option<&[u8]>,
) -> Result<Options, OptionRefused>
    ensures { Gives OptionRefused.Memory (λ options. options) result
        (options_of (text_of filter.entry) (text_of select.entry) (text_of top.entry) (text_of partition.entry) (text_of row.entry)) }
{
    let top = top_of(alloc, top)?;
    let start = start_of(alloc, partition, row)?;
    let filter = filter_of(alloc, filter)?;
    let select = select_of(alloc, select)?;
    Ok(Options {
        filter,
        select,
        top,
        start,
    })
}

fn text(alloc: Global, value: &[u8]) -> Result<CowStr<'_>, OptionRefused>
    ensures { MatchResult result
        (λ text. cow_str_bytes text ≡ decoded value.now)
        (λ why. why ≡ OptionRefused.Memory) }
{
    decode(alloc, value).map_err(|_| OptionRefused::Memory)
}

/// How many rows, or tables, there may be, by the value of `$top`.
pub fn top_of(alloc: Global, top: Option<&[u8]>) -> Result<u16, OptionRefused>
    ensures { Gives OptionRefused.Memory (λ most. most) result (top_of (text_of top.entry)) }
{
    let Some(top) = top else {
        return Ok(MOST_ROWS);
    };
    match read_top(text(alloc, top)?.as_bytes()) {
        Some(most) => Ok(most),
        None => Err(OptionRefused::BadTop),
    }
}

/// How many a `$top` asks for: a decimal from 1 to 1,000.
fn read_top(text: &[u8]) -> Option<u16>
    ensures { result ≡ read_top text.now }
{
    match text {
        [] | [b'0', ..] => None,
        digits => with_digits(0, digits),
    }
}

fn with_digits(n: u16, digits: &[u8]) -> Option<u16>
    requires { n ≤ MOST_ROWS }
    ensures { result ≡ with_digits n digits.now }
{
    match digits {
        [] => Some(n),
        [first, rest @ ..] => with_digits(with_digit(n, *first)?, rest),
    }
}

fn with_digit(n: u16, digit: u8) -> Option<u16>
    requires { n ≤ MOST_ROWS }
    ensures number { result ≡ with_digit n digit }
    ensures small { IfSome result (λ m. m ≤ MOST_ROWS) }
{
    if !digit.is_ascii_digit() {
        return None;
    }
    let more = n * 10 + u16::from(digit - b'0');
    if more <= MOST_ROWS { Some(more) } else { None }
}

fn start_of(
    alloc: Global,
    partition: Option<&[u8]>,
    row: Option<&[u8]>,
) -> Result<Option<(KeyText, KeyText)>, OptionRefused>
    ensures { Gives OptionRefused.Memory (λ start. start) result (start_of (text_of partition.entry) (text_of row.entry)) }
{
    match (partition, row) {
        (None, None) => Ok(None),
        (None, Some(_)) => Err(OptionRefused::BadToken),
        (Some(partition), row) => {
            let pk = token_of(alloc, partition)?;
            let rk = row_of(alloc, row)?;
            Ok(Some((pk, rk)))
        }
    }
}

fn row_of(alloc: Global, row: Option<&[u8]>) -> Result<KeyText, OptionRefused>
    ensures { Gives OptionRefused.Memory (λ rk. rk) result (row_of (text_of row.entry)) }
{
    match row {
        Some(row) => token_of(alloc, row),
        None => KeyText::new(alloc, "").map_err(|_| OptionRefused::Memory),
    }
}

/// The key, or the name of a table, that the value of an option has the token of.
pub fn token_of(alloc: Global, token: &[u8]) -> Result<KeyText, OptionRefused>
    ensures { Gives OptionRefused.Memory (λ key. key) result (token_of (decoded token.now)) }
{
    match Token::read(alloc, text(alloc, token)?.as_str()) {
        Ok(key) => Ok(key),
        Err(TokenRefused::BadToken) => Err(OptionRefused::BadToken),
        Err(TokenRefused::Memory) => Err(OptionRefused::Memory),
    }
}

fn filter_of(alloc: Global, filter: Option<&[u8]>) -> Result<Option<Filter>, OptionRefused>
    ensures { Gives OptionRefused.Memory (λ tree. tree) result (filter_of (text_of filter.entry)) }
{
    let Some(filter) = filter else {
        return Ok(None);
    };
    match parse(alloc, text(alloc, filter)?.as_str()) {
        Ok(filter) => Ok(Some(filter)),
        Err(FilterRefused::Memory) => Err(OptionRefused::Memory),
        Err(why) => Err(OptionRefused::Filter(why)),
    }
}

fn select_of(alloc: Global, select: Option<&[u8]>) -> Result<Select, OptionRefused>
    ensures { MatchResult result
        (λ named. named ≡ select_of (text_of select.entry))
        (λ why. why ≡ OptionRefused.Memory) }
{
    let Some(select) = select else {
        return Ok(Select::All);
    };
    match Select::named(alloc, text(alloc, select)?.as_str()) {
        Ok(select) => Ok(select),
        Err(_) => Err(OptionRefused::Memory),
    }
}

/// `$top` is read exactly where it is the decimal text of a number from 1 to 1000.
pub fn top_is_a_decimal()
    ensures { ReadsDecimals }
{}
