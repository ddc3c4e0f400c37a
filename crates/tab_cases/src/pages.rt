//! Cases of pages: which rows a query gets, and where the next page begins.

ghost use Rattle.std.specs.Prelude.{◌≡◌, ◌<◌, [], IfOk};
ghost use Rattle.tab_keys.specs.declared.bounds.Bound.TheVariants.{At, End};

use crate::answers::{Answer, field, unknown};
use crate::rows::{key_in, place, row};
use crate::stops::{NO_MEMORY, Stop};
use std::alloc::Global;
use std::marker::Brand;
use std::sync::ledger::{Blank, Ledger};
use tab_keys::{Bound, KeyText, Memory, Span};
use tab_page::{Options, Page, page};
use tab_rows::{Row, Rows, Steps};

/// The table of the rows.
const TABLE: u64 = 1;

/// `page KEYS | QUERY`: the keys of the page that the query gets, and where the next one begins, where these rows are all there
/// are. A key is `PK/RK`, and blanks stand between them.
pub fn answer(alloc: Global, word: &str, fields: &[String]) -> Answer {
    match (word, fields.len()) {
        ("page", 2) => asked(alloc, field(fields, 0)?, field(fields, 1)?),
        _ => unknown(),
    }
}

fn asked(alloc: Global, keys: &str, query: &str) -> Answer {
    let rows = rows(alloc, keys)?;
    page_in(alloc, &rows, query)
}

/// Rows without properties at these keys.
fn rows(alloc: Global, keys: &str) -> Result<Rows, Stop> {
    let mut rows = Rows::new(alloc);
    for key in keys.split_whitespace() {
        put(alloc, &mut rows, key)?;
    }
    Ok(rows)
}

fn put(alloc: Global, rows: &mut Rows, key: &str) -> Result<(), Stop> {
    let row = row_at(alloc, key)?;
    let _before = place(rows, row)?;
    Ok(())
}

fn row_at(alloc: Global, key: &str) -> Result<Row, Stop> {
    let key = key_in(alloc, key)?;
    row(alloc, key, 0, "{}")
}

fn page_in(alloc: Global, rows: &Rows, query: &str) -> Answer {
    match Options::read(alloc, query) {
        Ok(options) => page_of(alloc, rows, &options),
        Err(_) => Err(Stop::Unread("a query is wanted")),
    }
}

fn page_of(alloc: Global, rows: &Rows, options: &Options) -> Answer {
    let page = whole_page(alloc, rows, options)?;
    page_text(alloc, &page)
}

fn first_bound(alloc: Global) -> Result<Bound, Stop>
    ensures { IfOk result (λ bound. bound ≡ At 0 []) }
{
    match KeyText::new(alloc, "") {
        Ok(first) => Ok(Bound::At(0, first)),
        Err(_) => Err(NO_MEMORY),
    }
}

/// All keys.
fn everywhere(alloc: Global) -> Result<Span, Stop>
    ensures { IfOk result (λ span. span ≡ record { lo = At 0 []; hi = End }) }
{
    let first = first_bound(alloc)?;
    match Span::new(first, Bound::End) {
        Some(span) => Ok(span),
        None => Err(Stop::Unread("there is no span of all keys")),
    }
}

fn whole_page(alloc: Global, rows: &Rows, options: &Options) -> Result<Page, Stop> {
    let span = everywhere(alloc)?;
    Ok(counted_page::<Brand>(alloc, Blank::new(1), rows, &span, options)?)
}

fn counted_page<L: Ledger>(
    alloc: Global,
    blank: Blank,
    rows: &Rows,
    span: &Span,
    options: &Options,
) -> Result<Page, Memory>
    requires all { span.now ≡ record { lo = At 0 []; hi = End } }
    requires name { blank.name ≡ L.name }
    requires parts { blank.parts ≡ L.parts }
    requires some { 0 < blank.parts }
{
    let mut steps = Steps::<L>::new(blank);
    page(alloc, rows, TABLE, span, options, &mut steps)
}

/// The keys of a page's rows, and where the next page begins.
fn page_text(alloc: Global, page: &Page) -> Answer {
    let mut text = String::new(alloc);
    for row in page.rows.as_slice() {
        add_key(&mut text, &row.key.pk, &row.key.rk)?;
    }
    match &page.next {
        Some((pk, rk)) => add_next(&mut text, pk, rk)?,
        None => text.push_str("end")?,
    }
    Ok(text)
}

fn add_key(text: &mut String, pk: &KeyText, rk: &KeyText) -> Result<(), Stop> {
    Ok(write!(text, "{}/{} ", pk.as_str(), rk.as_str())?)
}

fn add_next(text: &mut String, pk: &KeyText, rk: &KeyText) -> Result<(), Stop> {
    Ok(write!(text, "then {}/{}", pk.as_str(), rk.as_str())?)
}
