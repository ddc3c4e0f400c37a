//! The steps by which the names and the map change.

ghost use Rattle.std.specs.Prelude.{◌≡◌, IfOk};

use std::alloc::Global;
use tab_keys::{Memory, TableName};

/// A change of the names, which is one frame.
#[derive(Debug, Drop)]
pub enum NamesStep {
    /// A table is made under a name.
    Create { table: u64, name: TableName },
    /// A table is dropped.
    Drop { table: u64 },
}

impl NamesStep {
    /// A copy in memory of its own.
    pub fn try_copy(&self, alloc: Global) -> Result<NamesStep, Memory>
        ensures { IfOk result (λ copy. copy ≡ self.now) }
    {
        match self {
            NamesStep::Create { table, name } => Ok(NamesStep::Create {
                table: *table,
                name: name.try_copy(alloc)?,
            }),
            NamesStep::Drop { table } => Ok(NamesStep::Drop { table: *table }),
        }
    }
}
