//! Changes of one row.

ghost use Rattle.std.specs.Prelude.{◌≡◌, IfOk};

use crate::Row;
use std::alloc::Global;
use tab_keys::{Key, Memory};

/// A change of one row.
#[derive(Debug, Drop)]
pub enum Change {
    /// This row is put at its key.
    Put(Row),
    /// The row at this key is taken out.
    Take(Key),
}

impl Change {
    /// A copy, which shares the memory of its key and its properties.
    pub fn try_copy(&self, alloc: Global) -> Result<Change, Memory>
        ensures { IfOk result (λ copy. copy ≡ self.now) }
    {
        match self {
            Change::Put(row) => Ok(Change::Put(row.try_copy(alloc)?)),
            Change::Take(key) => Ok(Change::Take(key.try_copy(alloc)?)),
        }
    }
}
