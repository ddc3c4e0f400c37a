//! The steps by which the map changes on its disks.

ghost use Rattle.std.specs.Prelude.{◌≡◌, IfOk};
ghost use Rattle.tab_codec.specs.Frames.{IsOrderly};
ghost use Rattle.tab_master.specs.Maps.{map_frame};

use crate::map_checkpoint::rows_are_short;
use crate::map_listing::copied;
use std::alloc::Global;
use std::marker::Model;
use tab_codec::{Frame, FrameList, Prepared, RangeRow, prepare};
use tab_keys::Memory;

/// A commit of a plan, which is one frame: it puts new rows into the map in place of those of old ranges.
#[derive(Debug, Drop)]
pub struct MapStep {
    /// The plan's number.
    pub plan: u64,
    /// The number of the next range.
    pub next_range: u64,
    /// The numbers of the rows that go.
    pub old_ranges: Vec<u64>,
    /// The rows that come.
    pub new_rows: Vec<RangeRow>,
    /// All rows as they stand behind it, in the order of their keys.
    pub rows: Vec<RangeRow>,
}

impl Model for MapStep {
    ghost use Rattle.std.specs.Prelude.{map, vec_items};
    ghost use Rattle.tab_master.specs.Spelled.{map_row};
    ghost use Rattle.tab_master.specs.Maps.{MapCommit};

    ghost Value = { MapCommit };

    ghost view = { λ step. record {
      plan = step.plan;
      next_range = step.next_range;
      old_ranges = step.old_ranges.items;
      new_rows = step.new_rows.items;
      rows = map map_row step.rows.items;
    } };
}

impl MapStep {
    /// The frame of the commit.
    pub(crate) fn prepared(&self, alloc: Global) -> Result<Prepared, Memory>
        requires { IsOrderly (map_frame self.now) }
        ensures { IfOk result (λ prepared. prepared ≡ map_frame self.now) }
    {
        rows_are_short(self.new_rows.as_slice());
        let frame = Frame::Commit {
            plan: self.plan,
            next_range: self.next_range,
            old_ranges: FrameList::new(numbers(alloc, self.old_ranges.as_slice())?),
            new_rows: FrameList::new(copied(alloc, self.new_rows.as_slice())?),
        };
        prepare(alloc, &frame)
    }
}

/// A copy of numbers.
fn numbers(alloc: Global, numbers: &[u64]) -> Result<Vec<u64>, Memory>
    ensures { IfOk result (λ copy. copy.items ≡ numbers.now) }
{
    let mut copy = Vec::new(alloc);
    for number in numbers {
        copy.push(*number)?;
    }
    Ok(copy)
}
