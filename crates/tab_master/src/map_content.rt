//! The map as it is kept in memory, and what the frames of its store stand for.

ghost use Rattle.std.specs.Prelude.{◌≡◌, ◌↔◌, map, Some, IfOk, IsTrue, MatchOption};
ghost use Rattle.tab_codec.specs.Frames.{HasSpelling};
ghost use Rattle.tab_codec.specs.declared.frames.Frame.TheVariants as frames;
ghost use Rattle.tab_journal.specs.Areas.{AreFrames};
ghost use Rattle.tab_history.specs.Configurations.{row_with};
ghost use Rattle.tab_master.specs.Spelled.{map_kind, map_row, by_start};
ghost use Rattle.tab_master.specs.Ordered.{in_order};
ghost use Rattle.tab_history.specs.Tilings.{TileKeys};
ghost use Rattle.tab_master.specs.Maps.{map_sense, MapStand, SpellNoMap, GoesOnFrom, range_row, IsMapOver};

use crate::map_checkpoint::map_frame;
use crate::map_listing::{ListedRows, MapListing};
use crate::map_rows::{are_map, are_same, row_with, sorted};
use crate::{MapStep, Plan};
use std::alloc::Global;
use std::marker::Model;
use tab_codec::{Frame, Prepared, RangeRow};
use tab_journal::Content;
use tab_keys::{Key, Memory};

/// The rows of the map in the order of their keys, and the numbers of the next range and of the next plan, those from which
/// an opening goes on and those that plans go on from now.
#[derive(Debug, Drop)]
pub struct MapContent {
    servers: u8,
    kept_range: u64,
    kept_plan: u64,
    rows: Vec<RangeRow>,
    next_range: u64,
    next_plan: u64,
    plans: Vec<Plan>,
}

impl Model for MapContent {
    ghost use Rattle.std.specs.Prelude.{map, vec_items};
    ghost use Rattle.tab_master.specs.Spelled.{SpelledMap, map_row};
    ghost use Rattle.tab_master.specs.Maps.{MapView, IsMapOver};

    ghost Value = { MapView };

    ghost view = { λ content. record {
      told = record { next_range = content.kept_range; next_plan = content.kept_plan; rows = map map_row content.rows.items };
      servers = content.servers;
      next_range = content.next_range;
      next_plan = content.next_plan;
      plans = content.plans.items;
    } };

    ghost invariant = { λ content. IsMapOver content.servers (record { next_range = content.kept_range; next_plan = content.kept_plan; rows = map map_row content.rows.items }) };
}

impl MapContent {
    /// The map that the frames of a store spell; nothing where it does not tile the keys, or names a server that is not
    /// there.
    pub fn read(alloc: Global, servers: u8, frames: &[Frame]) -> Result<Option<MapContent>, Memory>
        requires are { AreFrames map_kind frames.now }
        ensures { IfOk result (λ read. MatchOption read (SpellNoMap servers frames.now) (GoesOnFrom servers frames.now)) }
    {
        let MapListing { held, next_plan } = MapListing::told(alloc, frames)?;
        let Some(listed) = held else {
            return Ok(None);
        };
        let Ok(next_plan) = u64::try_from(next_plan) else {
            return Ok(None);
        };
        let ListedRows { next_range, rows } = listed;
        let rows = sorted(rows);
        if are_map(servers, rows.as_slice()) {
            return Ok(Some(MapContent {
                servers,
                kept_range: next_range,
                kept_plan: next_plan,
                rows,
                next_range,
                next_plan,
                plans: Vec::new(alloc),
            }));
        }
        Ok(None)
    }

    /// The row that has a key.
    pub fn route(&self, key: &Key) -> &RangeRow
        ensures { row_with self.now.told.rows key.now ≡ Some (map_row result.now) }
    {
        row_with(self.rows.as_slice(), key)
    }

    /// All rows, in the order of their keys.
    pub fn rows(&self) -> &[RangeRow]
        ensures rows { map map_row result.now ≡ self.now.told.rows }
        ensures is { IsMapOver self.now.servers self.now.told }
    {
        self.rows.as_slice()
    }

    /// The frame of a checkpoint.
    fn frame(&self, alloc: Global) -> Result<Prepared, Memory>
        ensures is { IfOk result (λ prepared. prepared ≡ frames.Map self.now.told.next_range self.now.told.next_plan (map range_row self.now.told.rows)) }
        ensures spelled { IfOk result HasSpelling }
        ensures over { IsMapOver self.now.servers self.now.told }
    {
        map_frame(alloc, self.kept_range, self.kept_plan, self.rows.as_slice())
    }
}

impl Content for MapContent {
    type Step = MapStep;

    ghost sense = { map_sense };

    ghost goes_on = { λ list told step are fits stand. fits.goes_on list are stand };

    ghost checks_out = { λ list told checkpoint. (checkpoint.are, checkpoint.stand) };

    fn prepare(&self, alloc: Global, step: &MapStep) -> Result<Prepared, Memory> {
        step.prepared(alloc)
    }

    fn pieces(&self, alloc: Global) -> Result<Vec<Prepared>, Memory> {
        let mut pieces = Vec::new(alloc);
        pieces.push(self.frame(alloc)?)?;
        Ok(pieces)
    }

    fn apply(&mut self, step: MapStep) {
        self.kept_plan = self.kept_plan.max(step.plan + 1);
        self.kept_range = step.next_range;
        self.rows = step.rows;
    }

    fn is_read(&self, alloc: Global, frames: &[Frame]) -> Result<bool, Memory> {
        are_read(
            alloc,
            frames,
            self.kept_range,
            self.kept_plan,
            self.rows.as_slice(),
        )
    }

    fn is_read_with(
        &self,
        alloc: Global,
        step: &MapStep,
        frames: &[Frame],
    ) -> Result<bool, Memory> {
        are_read(
            alloc,
            frames,
            step.next_range,
            self.kept_plan.max(step.plan + 1),
            step.rows.as_slice(),
        )
    }
}

/// Whether frames stand for a map of these numbers and of these rows, which tile the keys.
fn are_read(
    alloc: Global,
    frames: &[Frame],
    next_range: u64,
    next_plan: u64,
    rows: &[RangeRow],
) -> Result<bool, Memory>
    requires { TileKeys (map map_row rows.now) }
    ensures { IfOk result (λ read. IsTrue read ↔ MapStand frames.now (record { next_range = next_range; next_plan = next_plan; rows = map map_row rows.now })) }
{
    let MapListing {
        held,
        next_plan: told_plan,
    } = MapListing::told(alloc, frames)?;
    let Some(listed) = held else {
        return Ok(false);
    };
    if told_plan == u128::from(next_plan) {
        return Ok(is_listed(listed, next_range, rows));
    }
    Ok(false)
}

/// Whether frames told of this number of the next range and of these rows, which tile the keys, in whatever order.
fn is_listed(listed: ListedRows, next_range: u64, rows: &[RangeRow]) -> bool
    requires { TileKeys (map map_row rows.now) }
    ensures { IsTrue result ↔ ((listed.next_range ≡ next_range) × (in_order by_start (map map_row listed.rows) ≡ map map_row rows.now)) }
{
    listed.next_range == next_range && are_same(sorted(listed.rows).as_slice(), rows)
}
