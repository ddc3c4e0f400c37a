//! A map of ranges that is open over two disks in memory.

ghost use Rattle.std.specs.Prelude.{◌≤◌};

use crate::disks::Disks;
use std::alloc::Global;
use std::marker::Model;
use tab_codec::RangeRow;
use tab_history::MapRefused;
use tab_journal::Back;
use tab_keys::Key;
use tab_master::RangeMap;
use tab_outside::MemDisk;

/// A map over two disks in memory. At each moment what the disks hold stands for its rows.
#[derive(Drop)]
pub struct Mapping {
    map: RangeMap<MemDisk>,
}

impl Model for Mapping {
    ghost use Rattle.tab_outside.specs.Logs.{InLog, log_watch};
    ghost use Rattle.tab_journal.specs.Keeping.{IsSound};
    ghost use Rattle.tab_master.specs.Maps.{map_sense};
    ghost use Rattle.tab_master.specs.RangeMaps.{MapKept};

    ghost Value = { MapKept InLog };

    ghost view = { λ mapping. mapping.map };

    ghost invariant = { λ mapping. IsSound log_watch map_sense mapping.map };
}

impl Mapping {
    /// Opens the map that two disks hold, over so many servers.
    pub fn open(alloc: Global, disks: Disks, servers: u8) -> Result<Mapping, Back<MemDisk>> {
        match RangeMap::open(alloc, disks.a, disks.b, servers) {
            Ok(map) => Ok(Mapping { map }),
            Err(back) => Err(back),
        }
    }

    pub fn settle(&mut self, alloc: Global) -> Result<(), MapRefused> {
        self.map.settle(alloc)
    }

    pub fn checkpoint(&mut self, alloc: Global) -> Result<(), MapRefused> {
        self.map.checkpoint(alloc)
    }

    /// The row whose span has a key.
    pub fn route(&self, key: &Key) -> &RangeRow {
        self.map.route(key)
    }

    /// All rows, in the order of their keys.
    pub fn rows(&self) -> &[RangeRow] {
        self.map.rows()
    }

    pub fn failed(&self) -> bool {
        self.map.failed()
    }

    /// Makes a call on the disk of an area fail once.
    pub fn arm_fail(&mut self, area: u8, after: u64) -> bool
        requires { area ≤ 1 }
    {
        self.map.arm_fail(area, after)
    }

    /// Makes a call on the disk of an area, and all that follow it, fail.
    pub fn arm_stop(&mut self, area: u8, after: u64) -> bool
        requires { area ≤ 1 }
    {
        self.map.arm_stop(area, after)
    }

    /// The disks of area 0 and of area 1.
    pub fn closed(self) -> Disks {
        let (a, b) = self.map.into_disks();
        Disks { a, b }
    }
}
