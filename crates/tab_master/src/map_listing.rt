//! The map of which frames told, in the order in which they came.

ghost use Rattle.std.specs.Prelude.{◌≡◌, ◌++◌, IfOk, OnOk, Some};
ghost use Rattle.tab_journal.specs.Told.{rows_besides, is_listed};
ghost use Rattle.tab_master.specs.MapListing.{map_listed, map_listed_after};

use std::alloc::Global;
use std::marker::Model;
use tab_codec::{Frame, RangeRow};
use tab_keys::Memory;

/// Rows as frames told of them, with the number of the next range.
#[derive(Debug, Drop)]
pub struct ListedRows {
    pub next_range: u64,
    pub rows: Vec<RangeRow>,
}

impl Model for ListedRows {
    ghost use Rattle.std.specs.Prelude.{vec_items};
    ghost use Rattle.tab_journal.specs.Told.{MapTold};

    ghost Value = { MapTold };

    ghost view = { λ listed. record { next_range = listed.next_range; rows = listed.rows.items } };
}

/// What frames told of the map: its rows, once a first frame listed them, and the number of the next plan, which may be
/// past 64 bits.
#[derive(Debug, Drop)]
pub struct MapListing {
    pub held: Option<ListedRows>,
    pub next_plan: u128,
}

impl Model for MapListing {
    ghost use Rattle.tab_master.specs.MapListing.{MapListed};

    ghost Value = { MapListed };

    ghost view = { λ listing. record { held = listing.held; next_plan = listing.next_plan } };
}

impl MapListing {
    /// What the frames told.
    pub fn told(alloc: Global, frames: &[Frame]) -> Result<MapListing, Memory>
        ensures { IfOk result (λ listing. listing ≡ map_listed frames.now) }
    {
        let mut listing = MapListing {
            held: None,
            next_plan: 0,
        };
        for frame in frames {
            listing.take(alloc, frame)?;
        }
        Ok(listing)
    }

    /// Takes in what a frame more tells.
    #[tactic(auto, unfolding(tab_journal::specs::Told::map_after))]
    fn take(&mut self, alloc: Global, frame: &Frame) -> Result<(), Memory>
        ensures { OnOk result (self.new ≡ map_listed_after self.old frame.now) }
    {
        match frame {
            Frame::Map {
                next_range,
                next_plan,
                rows,
            } => {
                self.next_plan = u128::from(*next_plan);
                if self.held.is_none() {
                    self.held = Some(ListedRows {
                        next_range: *next_range,
                        rows: copied(alloc, rows.as_slice())?,
                    });
                }
                Ok(())
            }
            Frame::Commit {
                plan,
                next_range,
                old_ranges,
                new_rows,
            } => {
                self.next_plan = self.next_plan.max(u128::from(*plan) + 1);
                match &mut self.held {
                    Some(held) => held.replace(
                        alloc,
                        *next_range,
                        old_ranges.as_slice(),
                        new_rows.as_slice(),
                    ),
                    None => Ok(()),
                }
            }
            _ => Ok(()),
        }
    }
}

impl ListedRows {
    /// Puts new rows in place of those of the old numbers.
    fn replace(
        &mut self,
        alloc: Global,
        next_range: u64,
        old_ranges: &[u64],
        new_rows: &[RangeRow],
    ) -> Result<(), Memory>
        ensures { OnOk result (self.new ≡ record { next_range = next_range; rows = rows_besides old_ranges.now self.old.rows ++ new_rows.now }) }
    {
        self.rows.retain(|row| !is_listed(old_ranges, row.range));
        append(alloc, &mut self.rows, new_rows)?;
        self.next_range = next_range;
        Ok(())
    }
}

/// Whether the number is one of these.
fn is_listed(ranges: &[u64], range: u64) -> bool
    ensures { result ≡ is_listed ranges.now range }
{
    ranges.iter().any(|number| *number == range)
}

/// Copies of rows.
pub fn copied(alloc: Global, rows: &[RangeRow]) -> Result<Vec<RangeRow>, Memory>
    ensures { IfOk result (λ copies. copies.items ≡ rows.now) }
{
    let mut copies = Vec::new(alloc);
    append(alloc, &mut copies, rows)?;
    Ok(copies)
}

/// Puts copies of rows behind others.
fn append(alloc: Global, rows: &mut Vec<RangeRow>, more: &[RangeRow]) -> Result<(), Memory>
    ensures { OnOk result (rows.new.items ≡ rows.old.items ++ more.now) }
{
    for row in more {
        rows.push(row.try_copy(alloc)?)?;
    }
    Ok(())
}
