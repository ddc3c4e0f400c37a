//! Names that are open over two disks in memory.

ghost use Rattle.std.specs.Prelude.{◌≤◌};

use crate::disks::Disks;
use std::alloc::Global;
use std::marker::Model;
use tab_history::TableNames;
use tab_journal::Back;
use tab_keys::{Memory, TableName};
use tab_master::{Names, NamesRefused, NamesStep};
use tab_outside::MemDisk;

/// Names over two disks in memory. At each moment what the disks hold stands for the names.
#[derive(Drop)]
pub struct Naming {
    names: Names<MemDisk>,
}

impl Model for Naming {
    ghost use Rattle.tab_outside.specs.Logs.{InLog, log_watch};
    ghost use Rattle.tab_journal.specs.Keeping.{IsSound};
    ghost use Rattle.tab_master.specs.Names.{names_sense};
    ghost use Rattle.tab_master.specs.NamesCalls.{NamesKept};

    ghost Value = { NamesKept InLog };

    ghost view = { λ naming. naming.names };

    ghost invariant = { λ naming. IsSound log_watch names_sense naming.names };
}

impl Naming {
    /// Opens the names that two disks hold.
    pub fn open(alloc: Global, disks: Disks) -> Result<Naming, Back<MemDisk>> {
        match Names::open(alloc, disks.a, disks.b) {
            Ok(names) => Ok(Naming { names }),
            Err(back) => Err(back),
        }
    }

    pub fn create(&mut self, alloc: Global, name: &TableName) -> Result<u64, NamesRefused> {
        self.names.create(alloc, name)
    }

    pub fn drop_table(&mut self, alloc: Global, name: &TableName) -> Result<(), NamesRefused> {
        self.names.drop_table(alloc, name)
    }

    pub fn settle(&mut self, alloc: Global) -> Result<(), NamesRefused> {
        self.names.settle(alloc)
    }

    pub fn checkpoint(&mut self, alloc: Global) -> Result<(), NamesRefused> {
        self.names.checkpoint(alloc)
    }

    pub fn resolve(&self, name: &TableName) -> Option<u64> {
        self.names.resolve(name)
    }

    pub fn list(
        &self,
        alloc: Global,
        after: &Option<TableName>,
        top: u16,
    ) -> Result<(TableNames, Option<TableName>), Memory> {
        self.names.list(alloc, after, top)
    }

    pub fn failed(&self) -> bool {
        self.names.failed()
    }

    pub fn doubt(&self) -> Option<&NamesStep> {
        self.names.doubt()
    }

    /// Makes a call on the disk of an area fail once.
    pub fn arm_fail(&mut self, area: u8, after: u64) -> bool
        requires { area ≤ 1 }
    {
        self.names.arm_fail(area, after)
    }

    /// Makes a call on the disk of an area, and all that follow it, fail.
    pub fn arm_stop(&mut self, area: u8, after: u64) -> bool
        requires { area ≤ 1 }
    {
        self.names.arm_stop(area, after)
    }

    /// The disks of area 0 and of area 1.
    pub fn closed(self) -> Disks {
        let (a, b) = self.names.into_disks();
        Disks { a, b }
    }
}
