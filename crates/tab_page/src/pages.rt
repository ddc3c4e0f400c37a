//! What a query asks for, and the page that answers it (the Table service REST reference, "Query Entities").
ghost use Rattle.std.specs.Prelude.{◌≡◌, IfOk};

use crate::Select;
use std::alloc::Global;
use std::marker::Model;
use tab_filter::Filter;
use tab_keys::{Bound, KeyText, Memory};
use tab_rows::Row;

/// What a query asks for: which rows, which of their properties, how many rows at the most, and where the page begins.
#[derive(Debug, Drop)]
pub struct Options {
    /// The filter that its rows pass; without one all do.
    pub filter: Option<Filter>,
    /// Which of their properties are written.
    pub select: Select,
    /// The most rows that the page may have, 1 to 1,000 where a query was read.
    pub top: u16,
    /// The partition key and the row key at which the page begins, where that is not the table's beginning.
    pub start: Option<(KeyText, KeyText)>,
}

impl Options {
    /// A copy, or that no memory was found for it.
    pub fn try_copy(&self, alloc: Global) -> Result<Options, Memory>
        ensures { IfOk result (λ copy. copy ≡ self.now) }
    {
        Ok(Options {
            filter: copied_filter(alloc, &self.filter)?,
            select: self.select.try_copy(alloc)?,
            top: self.top,
            start: copied_pair(alloc, &self.start)?,
        })
    }
}

/// The rows of a page, in the order of their keys.
#[derive(Debug, Drop)]
pub struct PageRows {
    rows: Vec<Row>,
}

impl Model for PageRows {
    ghost use Rattle.std.specs.Prelude.{List, vec_items};
    ghost use Rattle.tab_rows.specs.Rows.{RowView};

    ghost Value = { List RowView };

    ghost view = { λ page. page.rows.items };
}

impl PageRows {
    /// The rows, in the order in which they stand.
    pub fn new(rows: Vec<Row>) -> PageRows
        ensures { result ≡ rows.items }
    {
        PageRows { rows }
    }

    /// The rows, lent.
    pub fn as_slice(&self) -> &[Row]
        ensures rows { result.now ≡ self.now }
    {
        self.rows.as_slice()
    }

    /// A copy, row by row, or that no memory was found for it.
    pub fn try_copy(&self, alloc: Global) -> Result<PageRows, Memory>
        ensures { IfOk result (λ copy. copy ≡ self.now) }
    {
        let mut rows = Vec::new(alloc);
        for row in &self.rows {
            rows.push(row.try_copy(alloc)?)?;
        }
        Ok(PageRows { rows })
    }
}

/// A page of a query: its rows, the partition key and row key at which the next page begins, and the bound up to
/// which it looked.
#[derive(Debug, Drop)]
pub struct Page {
    pub rows: PageRows,
    pub next: Option<(KeyText, KeyText)>,
    pub end: Bound,
}

impl Page {
    /// A copy with its rows, or that no memory was found for it.
    pub fn try_copy(&self, alloc: Global) -> Result<Page, Memory>
        ensures { IfOk result (λ copy. copy ≡ self.now) }
    {
        Ok(Page {
            rows: self.rows.try_copy(alloc)?,
            next: copied_pair(alloc, &self.next)?,
            end: self.end.try_copy(alloc)?,
        })
    }
}

fn copied_filter(alloc: Global, filter: &Option<Filter>) -> Result<Option<Filter>, Memory>
    ensures { IfOk result (λ copy. copy ≡ filter.now) }
{
    match filter {
        None => Ok(None),
        Some(filter) => Ok(Some(filter.try_copy(alloc)?)),
    }
}

/// A copy of a pair of a partition key and a row key.
fn copied_pair(
    alloc: Global,
    pair: &Option<(KeyText, KeyText)>,
) -> Result<Option<(KeyText, KeyText)>, Memory>
    ensures { IfOk result (λ copy. copy ≡ pair.now) }
{
    match pair {
        None => Ok(None),
        Some((pk, rk)) => Ok(Some((pk.try_copy(alloc)?, rk.try_copy(alloc)?))),
    }
}
