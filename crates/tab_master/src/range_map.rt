//! The map of ranges: which server has which keys, in memory and on its two disks.

ghost use Rattle.std.specs.Prelude.{◌≡◌, ◌-◌, ◌≤◌, ◌||◌, ◌&&◌, map, IfOk, IfErr, IsTrue, IsFalse, Some};
ghost use Rattle.tab_outside.specs.Armed.{with_fail, with_stop};
ghost use Rattle.tab_outside.specs.Disks.{Rests};
ghost use Rattle.tab_outside.specs.Pairs.{AddsNone};
ghost use Rattle.tab_journal.specs.Reading.{read_areas};
ghost use Rattle.tab_journal.specs.Stores.{area_a, area_b, area_of, IsInArea, IsUnmoved, KeepsStops};
ghost use Rattle.tab_journal.specs.Making.{IsRefusedFor};
ghost use Rattle.tab_journal.specs.Keeping.{IsSound, IsClear};
ghost use Rattle.tab_history.specs.Configurations.{row_with};
ghost use Rattle.tab_master.specs.Spelled.{map_kind, map_row};
ghost use Rattle.tab_master.specs.Maps.{map_sense, IsMapOver};
ghost use Rattle.tab_master.specs.RangeMaps.{map_refused, IsOpened, OpensMap, ReadsAnew, SettlesMap, RewritesMap, ChecksMap};

use crate::MapContent;
use std::alloc::Global;
use std::marker::Model;
use tab_codec::RangeRow;
use tab_history::MapRefused;
use tab_journal::{Back, Kept, KeptRefused, MAP_KIND, Store, StoreRefused};
use tab_keys::Key;
use tab_outside::Disk;

/// The map of ranges with its store. Contracts see it as the store and what is held: `told` is what the disks tell, the
/// rows and the numbers from which an opening goes on.
#[derive(Drop)]
pub struct RangeMap<D> {
    kept: Kept<D, MapContent>,
}

impl<D> Model for RangeMap<D> {
    ghost use Rattle.tab_master.specs.RangeMaps.{MapKept, IsRangeMap};

    ghost Value = { MapKept D };

    ghost view = { λ one. one.kept };

    ghost invariant = { λ one. IsRangeMap one.kept };
}

impl<D: Disk> RangeMap<D> {
    /// Opens the map that two disks hold, over so many servers. After a refusal the disks are back. Where the rows do not
    /// tile the keys, or name a server that is not there, the place without a spelling is the one where the frames end.
    pub fn open(alloc: Global, a: D, b: D, servers: u8) -> Result<RangeMap<D>, Back<D>>
        ensures is { IfOk result (λ opened. IsOpened servers opened) }
        ensures sound { D.honest → IfOk result (λ opened. IsSound D.watch map_sense opened) }
        ensures exact { D.honest → OpensMap servers result (read_areas map_kind 0 (D.watch.seen a) (D.watch.seen b)) }
        ensures images { D.honest → IfOk result (λ opened. AddsNone D.watch a (area_a opened.store) × AddsNone D.watch b (area_b opened.store)) }
        ensures images_back { D.honest → IfErr result (λ back. AddsNone D.watch a back.a × AddsNone D.watch b back.b) }
        ensures area { IfErr result (λ back. IsInArea back.refused) }
        ensures causes { IfErr result (λ back. IsRefusedFor D.faults a b back) }
        ensures causes_ok { IfOk result (λ opened. (D.faults a ≤ D.faults (area_a opened.store)) × (D.faults b ≤ D.faults (area_b opened.store))) }
        ensures stops { IfOk result (λ opened. (D.has_stops (area_a opened.store) ≡ D.has_stops a) × (D.has_stops (area_b opened.store) ≡ D.has_stops b)) }
        ensures stops_back { IfErr result (λ back. (D.has_stops back.a ≡ D.has_stops a) × (D.has_stops back.b ≡ D.has_stops b)) }
    {
        let (store, frames) = match Store::open_store(alloc, a, b, MAP_KIND, 0) {
            Ok(opened) => opened,
            Err(back) => return Err(back),
        };
        let Ok(read) = MapContent::read(alloc, servers, &frames) else {
            return Err(given_back(store, StoreRefused::Memory));
        };
        let Some(held) = read else {
            let (area, at) = store.end();
            return Err(given_back(store, StoreRefused::NotAStore { area, at }));
        };
        Ok(RangeMap {
            kept: Kept::new(store, held),
        })
    }

    /// The row whose span has a key: exactly one has it. This takes time that grows with the logarithm of the rows, and no
    /// memory.
    pub fn route(&self, key: &Key) -> &RangeRow
        ensures { row_with self.now.held.told.rows key.now ≡ Some (map_row result.now) }
    {
        self.kept.held().route(key)
    }

    /// All rows, in the order of their keys; they tile the space of keys. This takes no memory.
    pub fn rows(&self) -> &[RangeRow]
        ensures rows { map map_row result.now ≡ self.now.held.told.rows }
        ensures is { IsMapOver self.now.held.servers self.now.held.told }
    {
        self.kept.held().rows()
    }

    /// Reads the store anew where it has failed, and does the commit in doubt where it stands.
    pub fn settle(&mut self, alloc: Global) -> Result<(), MapRefused>
        requires sound { D.honest → IsSound D.watch map_sense self.old }
        ensures settles { SettlesMap D.honest D.watch D.faults D.has_stops self.old self.new result }
    {
        match self.read_anew(alloc) {
            Ok(_) => Ok(()),
            Err(refused) => Err(map_refused(refused)),
        }
    }

    /// Rewrites the store to one frame with all rows. A store that has failed is first read anew.
    pub fn checkpoint(&mut self, alloc: Global) -> Result<(), MapRefused>
        requires sound { D.honest → IsSound D.watch map_sense self.old }
        ensures checks { ChecksMap D.honest D.watch D.faults D.has_stops self.old self.new result }
        ensures sound { D.honest → IsSound D.watch map_sense self.new }
    {
        if let Err(refused) = self.read_anew(alloc) {
            return Err(map_refused(refused));
        }
        self.rewrite(alloc)
    }

    /// Reads the store anew where it has failed, and answers whether a step in doubt stands.
    fn read_anew(&mut self, alloc: Global) -> Result<bool, KeptRefused>
        requires sound { D.honest → IsSound D.watch map_sense self.old }
        ensures { ReadsAnew D.honest D.watch D.faults D.has_stops map_sense self.old self.new result }
    {
        if self.kept.failed() {
            self.kept.settle(alloc)
        } else {
            Ok(false)
        }
    }

    /// Rewrites a store that runs.
    fn rewrite(&mut self, alloc: Global) -> Result<(), MapRefused>
        requires running { IsFalse self.old.failed }
        requires sound { D.honest → IsSound D.watch map_sense self.old }
        ensures { RewritesMap D.honest D.watch D.faults D.has_stops self.old self.new result }
    {
        match self.kept.checkpoint(alloc) {
            Ok(()) => Ok(()),
            Err(refused) => Err(map_refused(refused)),
        }
    }

    /// Whether the store has to be read anew.
    pub fn failed(&self) -> bool
        ensures is { result ≡ self.now.failed }
        ensures clear { IsClear self.now }
    {
        self.kept.failed()
    }

    /// The disks of area 0 and of area 1.
    pub fn into_disks(self) -> (D, D)
        ensures a { result.0 ≡ area_a self.store }
        ensures b { result.1 ≡ area_b self.store }
    {
        self.kept.into_disks()
    }

    /// Makes the call number `after` from now on the disk of an area fail once; false where the disk has no such thing.
    pub fn arm_fail(&mut self, area: u8, after: u64) -> bool
        requires { area ≤ 1 }
        ensures has { result ≡ D.has_stops (area_of self.old.store area) }
        ensures armed { IsTrue result → D.armed (area_of self.new.store area) ≡ with_fail (D.armed (area_of self.old.store area)) after }
        ensures beside { area_of self.new.store (1 - area) ≡ area_of self.old.store (1 - area) }
        ensures unchanged { IsFalse result → self.new ≡ self.old }
        ensures rests { D.honest → Rests D.watch (area_of self.old.store area) (area_of self.new.store area) }
        ensures faults { D.faults (area_of self.new.store area) ≡ D.faults (area_of self.old.store area) }
        ensures sound { D.honest → IsSound D.watch map_sense self.old → IsSound D.watch map_sense self.new }
        ensures kept { (self.new.held ≡ self.old.held) × (self.new.doubt ≡ self.old.doubt) × (self.new.failed ≡ self.old.failed) }
        ensures unmoved { IsUnmoved self.old.store self.new.store }
        ensures stops { KeepsStops D.has_stops self.old.store self.new.store }
    {
        self.kept.arm_fail(area, after)
    }

    /// Makes the call number `after` from now on the disk of an area, and all that follow it, fail; false where the disk
    /// has no such thing.
    pub fn arm_stop(&mut self, area: u8, after: u64) -> bool
        requires { area ≤ 1 }
        ensures has { result ≡ D.has_stops (area_of self.old.store area) }
        ensures armed { IsTrue result → D.armed (area_of self.new.store area) ≡ with_stop (D.armed (area_of self.old.store area)) after }
        ensures beside { area_of self.new.store (1 - area) ≡ area_of self.old.store (1 - area) }
        ensures unchanged { IsFalse result → self.new ≡ self.old }
        ensures rests { D.honest → Rests D.watch (area_of self.old.store area) (area_of self.new.store area) }
        ensures faults { D.faults (area_of self.new.store area) ≡ D.faults (area_of self.old.store area) }
        ensures sound { D.honest → IsSound D.watch map_sense self.old → IsSound D.watch map_sense self.new }
        ensures kept { (self.new.held ≡ self.old.held) × (self.new.doubt ≡ self.old.doubt) × (self.new.failed ≡ self.old.failed) }
        ensures unmoved { IsUnmoved self.old.store self.new.store }
        ensures stops { KeepsStops D.has_stops self.old.store self.new.store }
    {
        self.kept.arm_stop(area, after)
    }

    /// Whether a call on one of the disks has met an armed stop.
    pub fn stopped(&self) -> bool
        ensures { result ≡ ((D.armed (area_a self.now.store)).stopped || (D.armed (area_b self.now.store)).stopped) }
    {
        self.kept.stopped()
    }

    /// Whether both disks have failures and stops, and can be restarted.
    pub fn has_stops(&self) -> bool
        ensures { result ≡ (D.has_stops (area_a self.now.store) && D.has_stops (area_b self.now.store)) }
    {
        self.kept.has_stops()
    }
}

/// A refusal of the map's store, as the map answers it: its areas are the disks 0 and 1.
fn map_refused(refused: KeptRefused) -> MapRefused
    ensures { result ≡ map_refused refused }
{
    match refused {
        KeptRefused::DiskFault { area } => MapRefused::DiskFault {
            disk: u64::from(area),
        },
        KeptRefused::Damaged { area, at } => MapRefused::Damaged {
            disk: u64::from(area),
            at,
        },
        KeptRefused::EpochSpent => MapRefused::EpochSpent,
        KeptRefused::Memory => MapRefused::Memory,
    }
}

/// The disks of a store that was opened, with why they are given back.
fn given_back<D: Disk>(store: Store<D>, refused: StoreRefused) -> Back<D>
    ensures a { result.a ≡ area_a store }
    ensures b { result.b ≡ area_b store }
    ensures why { result.refused ≡ refused }
{
    let (a, b) = store.into_disks();
    Back { a, b, refused }
}
