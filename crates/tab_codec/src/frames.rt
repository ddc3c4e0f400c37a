//! Frames, and the rows of a map of ranges.

ghost use Rattle.std.specs.Prelude.{◌≡◌, IfOk};

use crate::FrameList;
use std::alloc::Global;
use tab_keys::{Memory, Span, TableName};
use tab_rows::{Change, Row};

/// A row of the map: which server has a range of keys.
#[derive(Debug, Drop)]
pub struct RangeRow {
    /// The range's number.
    pub range: u64,
    /// The server's number.
    pub server: u8,
    /// The keys of the range.
    pub span: Span,
}

impl RangeRow {
    pub fn try_copy(&self, alloc: Global) -> Result<RangeRow, Memory>
        ensures { IfOk result (λ copy. copy ≡ self.now) }
    {
        Ok(RangeRow {
            range: self.range,
            server: self.server,
            span: self.span.try_copy(alloc)?,
        })
    }
}

/// What a store keeps of one step. A server's store has the first four kinds, the map's the next two, and the names'
/// the last three.
#[derive(Debug, Drop)]
pub enum Frame {
    /// A range begins as an empty copy, in place of an earlier copy of its number.
    Begin {
        range: u64,
        span: Span,
        next_tick: u64,
    },
    /// Rows of a range that is not whole yet, in rising order of their keys.
    Rows {
        range: u64,
        rows: FrameList<Row>,
    },
    /// The range is whole, and its next tick is this one.
    Whole {
        range: u64,
        next_tick: u64,
    },
    /// Changes of a whole range that one group made, and its next tick behind them.
    Change {
        range: u64,
        next_tick: u64,
        changes: FrameList<Change>,
    },
    /// The whole map, in rising order of the low bounds, with the next numbers of ranges and of plans.
    Map {
        next_range: u64,
        next_plan: u64,
        rows: FrameList<RangeRow>,
    },
    /// New rows of the map in place of the rows of old ranges, by a plan.
    Commit {
        plan: u64,
        next_range: u64,
        old_ranges: FrameList<u64>,
        new_rows: FrameList<RangeRow>,
    },
    /// Names of tables, in rising order of the tables' numbers, with the next number of a table.
    Names {
        next_table: u64,
        names: FrameList<(u64, TableName)>,
    },
    /// A table is made under this name.
    Create {
        table: u64,
        name: TableName,
    },
    /// A table is dropped.
    Drop {
        table: u64,
    },
}
