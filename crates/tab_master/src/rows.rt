//! Tables with their names.

ghost use Rattle.std.specs.Prelude.{◌≡◌, ◌↔◌, IsTrue, IfOk};

use std::alloc::Global;
use std::marker::Model;
use tab_keys::{Memory, TableName};

/// A table: its number, and its name as it was spelled.
#[derive(Debug, Drop)]
pub struct TableRow {
    pub table: u64,
    pub name: TableName,
}

impl Model for TableRow {
    ghost use Rattle.tab_history.specs.World.{Named};

    ghost Value = { Named };

    ghost view = { λ row. record { spelling = row.name; table = row.table } };
}

impl TableRow {
    /// A copy in memory of its own.
    pub fn try_copy(&self, alloc: Global) -> Result<TableRow, Memory>
        ensures { IfOk result (λ copy. copy ≡ self.now) }
    {
        Ok(TableRow {
            table: self.table,
            name: self.name.try_copy(alloc)?,
        })
    }

    /// Whether another one is the same table with the same spelling of its name.
    pub(crate) fn is(&self, other: &TableRow) -> bool
        ensures { IsTrue result ↔ (self.now ≡ other.now) }
    {
        self.table == other.table && self.name.as_str() == other.name.as_str()
    }
}
