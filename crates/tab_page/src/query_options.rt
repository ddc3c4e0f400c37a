//! The options of a query, all of them read in one pass over its pairs, which are decoded as
//! `application/x-www-form-urlencoded` (the URL Standard, section 5.1).
ghost use Rattle.std.specs.Prelude.{◌≡◌, IfOk, MatchResult, Ok, Err};
ghost use Rattle.tab_page.specs.Queries.{decoded};
ghost use Rattle.tab_page.specs.QueryOptions.{text_of, seen_view, seen, first_seen, options_view, no_options, with_pair, options_in};

use crate::OptionRefused;
use form_urlencoded::{decode, raw_pairs};
use std::alloc::Global;
use tab_keys::Memory;

/// How often an option stands in a query, and its value, which is not decoded yet.
#[derive(Clone, Copy)]
pub enum OptionSeen<'a> {
    Absent,
    Once(&'a [u8]),
    Doubled,
}

impl<'a> OptionSeen<'a> {
    /// The value of an option that stands once at the most.
    pub fn value(self) -> Result<Option<&'a [u8]>, OptionRefused>
        ensures { MatchResult result
            (λ bytes. seen_view self.entry ≡ Ok (text_of bytes))
            (λ why. seen_view self.entry ≡ Err why) }
    {
        match self {
            OptionSeen::Absent => Ok(None),
            OptionSeen::Once(value) => Ok(Some(value)),
            OptionSeen::Doubled => Err(OptionRefused::BadOption),
        }
    }

    /// With a pair of a query, which may be of the option with this word.
    fn with(self, word: &str, name: &str, value: &'a [u8]) -> OptionSeen<'a>
        ensures { seen_view result ≡ seen word.now name.now (decoded value.entry.now) (seen_view self.entry) }
    {
        if name != word {
            return self;
        }
        match self {
            OptionSeen::Absent => OptionSeen::Once(value),
            OptionSeen::Once(_) | OptionSeen::Doubled => OptionSeen::Doubled,
        }
    }
}

/// What a query says of each option that has a name here.
#[derive(Clone, Copy)]
pub struct QueryOptions<'a> {
    /// `$filter`.
    pub filter: OptionSeen<'a>,
    /// `$select`.
    pub select: OptionSeen<'a>,
    /// `$top`.
    pub top: OptionSeen<'a>,
    /// `NextPartitionKey`.
    pub partition: OptionSeen<'a>,
    /// `NextRowKey`.
    pub row: OptionSeen<'a>,
    /// `NextTableName`.
    pub table: OptionSeen<'a>,
    /// The first value of `comp`, which is signed and may stand twice; it is not decoded yet.
    pub comp: Option<&'a [u8]>,
}

impl<'a> QueryOptions<'a> {
    /// The options of a query.
    pub fn read(alloc: Global, query: &'a str) -> Result<QueryOptions<'a>, Memory>
        ensures { IfOk result (λ known. options_view known ≡ options_in query.entry.now) }
    {
        let mut known = QueryOptions::nothing();
        for (name, value) in raw_pairs(query.as_bytes()) {
            known = known.with_pair(alloc, name, value)?;
        }
        Ok(known)
    }

    fn nothing() -> QueryOptions<'a>
        ensures { options_view result ≡ no_options }
    {
        QueryOptions {
            filter: OptionSeen::Absent,
            select: OptionSeen::Absent,
            top: OptionSeen::Absent,
            partition: OptionSeen::Absent,
            row: OptionSeen::Absent,
            table: OptionSeen::Absent,
            comp: None,
        }
    }

    fn with_pair(
        self,
        alloc: Global,
        name: &[u8],
        value: &'a [u8],
    ) -> Result<QueryOptions<'a>, Memory>
        ensures { IfOk result (λ known. options_view known
            ≡ with_pair (options_view self.entry) (decoded name.now) (decoded value.entry.now)) }
    {
        match decode(alloc, name) {
            Ok(name) => Ok(self.with(name.as_str(), value)),
            Err(_) => Err(Memory),
        }
    }

    fn with(self, name: &str, value: &'a [u8]) -> QueryOptions<'a>
        ensures { options_view result ≡ with_pair (options_view self.entry) name.now (decoded value.entry.now) }
    {
        QueryOptions {
            filter: self.filter.with("$filter", name, value),
            select: self.select.with("$select", name, value),
            top: self.top.with("$top", name, value),
            partition: self.partition.with("NextPartitionKey", name, value),
            row: self.row.with("NextRowKey", name, value),
            table: self.table.with("NextTableName", name, value),
            comp: first_seen(self.comp, "comp", name, value),
        }
    }
}

/// The first value of an option, where a pair may be of the option with this word.
fn first_seen<'a>(
    first: Option<&'a [u8]>,
    word: &str,
    name: &str,
    value: &'a [u8],
) -> Option<&'a [u8]>
    ensures { text_of result ≡ first_seen word.now name.now (decoded value.entry.now) (text_of first.entry) }
{
    match first {
        None if name == word => Some(value),
        _ => first,
    }
}
