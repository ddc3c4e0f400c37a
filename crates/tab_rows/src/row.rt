//! Kept rows.

ghost use Rattle.std.specs.Prelude.{◌≡◌, ◌<◌, ◌^◌, IfOk};
ghost use Rattle.tab_rows.specs.Rows.{IsKept};

use std::alloc::Global;
use std::marker::Model;
use tab_edm::Entity;
use tab_keys::{Key, Memory};

/// A kept row: its key, its properties, and the tick of the change that wrote it.
#[derive(Debug, Drop)]
pub struct Row {
    pub key: Key,
    pub entity: Entity,
    pub tick: u64,
}

impl Model for Row {
    ghost use Rattle.tab_rows.specs.Rows.{RowView, IsRow};

    ghost Value = { RowView };

    ghost view = { λ row. record { key = row.key; entity = row.entity; tick = row.tick } };

    ghost invariant = { λ row. IsRow row.key row.entity row.tick };
}

impl Row {
    /// A copy, which shares the memory of its key and its properties.
    pub fn try_copy(&self, alloc: Global) -> Result<Row, Memory>
        ensures { IfOk result (λ copy. copy ≡ self.now) }
    {
        Ok(Row {
            key: self.key.try_copy(alloc)?,
            entity: self.entity.try_copy(alloc).map_err(|_| Memory)?,
            tick: self.tick,
        })
    }

    /// What each row of the program is. It does nothing.
    pub fn kept(&self)
        ensures { IsKept self.now }
    {
        read_table(self.key.table);
        let _ = self.key.pk.as_str();
        let _ = self.key.rk.as_str();
        let _ = self.entity.properties();
    }
}

fn read_table(_table: u64)
    ensures { _table < 2 ^ 64 }
{}
