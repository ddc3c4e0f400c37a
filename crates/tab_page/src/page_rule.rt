//! Which rows a page has and where the next one begins: the Table service REST reference, "Query Timeout and Pagination", over
//! rows that lie in a span of keys.
ghost use Rattle.std.specs.Prelude.{◌≡◌, ◌≤◌, ◌+◌, [], ◌∷◌, ◌++◌, filter, slice_get, unwrap_or, All, IsTrue, IfOk, OnOk};
ghost use Rattle.std.specs.Option.{option_copied, option_to_list};
ghost use Rattle.tab_keys.specs.Spans.{has};
ghost use Rattle.tab_rows.specs.Rows.{AreRising};
ghost use Rattle.tab_page.specs.Pages.{start_key, page_below, looked_at, key_at, corner, later_key, window, matches, next_of};
ghost use Rattle.tab_page.specs.Prefixes.{HasPrefixLength};
ghost use Rattle.tab_page.specs.Scans.{is_within, rows_at, rows_within, count_of, matches_of, rest_of, AreInOneRun};

use crate::{MOST_LOOKED_AT, Options, Page, PageRows};
use std::alloc::Global;
use std::sync::ledger::Ledger;
use tab_filter::Window;
use tab_keys::{Bound, Key, KeyText, Memory, Span};
use tab_rows::{Cursor, Row, Rows, Steps};

/// The key at which a page of the table begins to look.
#[tactic(auto, unfolding(crate::specs::Pages::start_key))]
pub fn start_key(alloc: Global, table: u64, options: &Options) -> Result<Key, Memory>
    ensures { IfOk result (λ key. key ≡ start_key table options.now) }
{
    let window = window_of(alloc, options)?;
    start_within(alloc, table, options, &window)
}

/// The page of a table from rows that lie in a span. It looks at the rows that the page has to, and at two more at the
/// most; only rows that match are copied.
pub fn page<L: Ledger>(
    alloc: Global,
    rows: &Rows,
    table: u64,
    span: &Span,
    options: &Options,
    steps: &mut Steps<L>,
) -> Result<Page, Memory>
    requires start { IsTrue (has span.now (start_key table options.now)) }
    requires inside { All (λ row. IsTrue (has span.now row.key)) rows.now.rows }
    ensures page { IfOk result (λ page. page ≡ page_below rows.now.rows table options.now span.now.hi) }
    ensures steps { steps.new ≤ steps.old + looked_at rows.now.rows table options.now span.now.hi + 2 }
{
    let window = window_of(alloc, options)?;
    let start = start_within(alloc, table, options, &window)?;
    let mut cursor = rows_at(rows, &start, &window);
    let (matches, rest) = scan(alloc, &mut cursor, &start, &window, options, steps)?;
    Ok(Page {
        rows: PageRows::new(matches),
        next: next_of(alloc, table, &window, span.hi(), rest)?,
        end: span.hi().try_copy(alloc)?,
    })
}

fn window_of(alloc: Global, options: &Options) -> Result<Window, Memory>
    ensures { IfOk result (λ all. all ≡ window options.now) }
{
    match &options.filter {
        Some(filter) => filter.window(alloc),
        None => Ok(Window::all(alloc)),
    }
}

/// The key at which a page begins to look, where its filter has this window.
fn start_within(
    alloc: Global,
    table: u64,
    options: &Options,
    window: &Window,
) -> Result<Key, Memory>
    ensures { IfOk result (λ key. key
        ≡ later_key (key_at table (unwrap_or options.now.start ([], []))) (key_at table (corner window.now))) }
{
    let begin = begin(alloc, table, options)?;
    let (pk, rk) = window.start();
    let corner = key_at(alloc, table, pk, rk)?;
    if begin < corner {
        Ok(corner)
    } else {
        Ok(begin)
    }
}

fn begin(alloc: Global, table: u64, options: &Options) -> Result<Key, Memory>
    ensures { IfOk result (λ key. key ≡ key_at table (unwrap_or options.now.start ([], []))) }
{
    match &options.start {
        Some((pk, rk)) => Ok(Key {
            table,
            pk: pk.try_copy(alloc)?,
            rk: rk.try_copy(alloc)?,
        }),
        None => key_at(alloc, table, "", ""),
    }
}

/// The key of these texts, which are those of keys.
fn key_at(alloc: Global, table: u64, pk: &str, rk: &str) -> Result<Key, Memory>
    ensures { IfOk result (λ key. key ≡ key_at table (pk.now, rk.now)) }
{
    let Ok(pk) = KeyText::new(alloc, pk) else {
        return Err(Memory);
    };
    match KeyText::new(alloc, rk) {
        Ok(rk) => Ok(Key { table, pk, rk }),
        Err(_) => Err(Memory),
    }
}

/// The rows that a page goes through. No row of a partition that is too small is among them.
#[tactic(auto, unfolding(crate::specs::Scans::rows_at))]
fn rows_at<'a>(rows: &'a Rows, start: &Key, window: &Window) -> Cursor<'a>
    ensures rows { result ≡ rows_at rows.now.rows start.now window.now }
    ensures rising { AreRising rows.now.rows }
{
    if window.below(&start.pk) {
        rows.past(start.table, &start.pk)
    } else {
        rows.from(start)
    }
}

/// The matches among the rows that a page looks at, and the first row behind these that is left in.
fn scan<'a, L: Ledger>(
    alloc: Global,
    cursor: &mut Cursor<'a>,
    start: &Key,
    window: &Window,
    options: &Options,
    steps: &mut Steps<L>,
) -> Result<(Vec<Row>, Option<&'a Row>), Memory>
    requires { AreInOneRun start.now window.now cursor.old }
    ensures found { IfOk result (λ scanned.
        scanned.0.items ≡ matches_of options.now (rows_within start.now window.now cursor.old)) }
    ensures rest { IfOk result (λ scanned.
        option_copied scanned.1 ≡ slice_get (rest_of options.now (rows_within start.now window.now cursor.old)) 0) }
    ensures steps { steps.new ≤ steps.old + count_of options.now (rows_within start.now window.now cursor.old) + 2 }
{
    let top = usize::from(options.top);
    let mut found = Vec::new(alloc);
    let mut looked = 0;
    while let Some(row) = cursor.next(steps) {
        if !is_within(start.table, window, row) {
            if *start < row.key {
                return Ok((found, None));
            }
            // Only a row at the start itself is left out before others are not.
            continue;
        }
        if looked == MOST_LOOKED_AT || found.len() >= top {
            return Ok((found, Some(row)));
        }
        looked += 1;
        add_match(alloc, &mut found, options, row)?;
    }
    Ok((found, None))
}

fn is_within(table: u64, window: &Window, row: &Row) -> bool
    ensures { result ≡ is_within table window.now row.now }
{
    row.key.table == table && window.has(&row.key.pk, &row.key.rk)
}

/// Adds a copy of the row, if it matches.
fn add_match(
    alloc: Global,
    found: &mut Vec<Row>,
    options: &Options,
    row: &Row,
) -> Result<(), Memory>
    ensures { OnOk result (found.new.items ≡ found.old.items ++ filter (matches options.now) (row.now ∷ [])) }
{
    if !matches(options, row) {
        return Ok(());
    }
    found.push(row.try_copy(alloc)?)?;
    Ok(())
}

fn matches(options: &Options, row: &Row) -> bool
    ensures { result ≡ matches options.now row.now }
{
    match &options.filter {
        Some(filter) => filter.matches(&row.key.pk, &row.key.rk, row.tick, &row.entity),
        None => true,
    }
}

/// Where the next page begins: at the row that is left, or at the end, where that lies in the table and the window.
fn next_of(
    alloc: Global,
    table: u64,
    window: &Window,
    end: &Bound,
    rest: Option<&Row>,
) -> Result<Option<(KeyText, KeyText)>, Memory>
    ensures { IfOk result (λ next. next ≡ next_of table window.now end.now (option_to_list (option_copied rest.entry))) }
{
    if let Some(row) = rest {
        let pk = row.key.pk.try_copy(alloc)?;
        return Ok(Some((pk, row.key.rk.try_copy(alloc)?)));
    }
    match end {
        Bound::At(other, pk) if *other == table && window.reaches(pk) => {
            let pk = pk.try_copy(alloc)?;
            match KeyText::new(alloc, "") {
                Ok(rk) => Ok(Some((pk, rk))),
                Err(_) => Err(Memory),
            }
        }
        _ => Ok(None),
    }
}

/// A page looks at the shortest front of the rows it lists that holds as many matches as it may have or as many rows as
/// it may look at, or at all of them.
pub fn page_prefix()
    ensures { HasPrefixLength }
{}
