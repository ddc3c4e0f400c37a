//! The frames of a checkpoint of the names.

ghost use Rattle.std.specs.Prelude.{◌≡◌, ◌≤◌, AllPairs, IsTrue, IfOk, map, length};
ghost use Rattle.std.specs.Ordering.{is_lt};
ghost use Rattle.tab_codec.specs.Frames.{HasSpelling};
ghost use Rattle.tab_codec.specs.declared.frames.Frame.TheVariants as frames;
ghost use Rattle.tab_history.specs.World.{Named};
ghost use Rattle.tab_master.specs.Spelled.{by_number};
ghost use Rattle.tab_master.specs.Names.{AreListed, pair, most_names};

use crate::TableRow;
use std::alloc::Global;
use tab_codec::{Frame, FrameList, Prepared, prepare};
use tab_keys::Memory;

/// The most names of one frame.
const MOST_NAMES: usize = 1_000_000;

/// Frames that list tables in the order of their numbers: each but the last has as many as a frame may have.
pub fn listing_frames(
    alloc: Global,
    next_table: u64,
    rows: &[TableRow],
) -> Result<Vec<Prepared>, Memory>
    requires { AllPairs (λ (a b : Named). IsTrue (is_lt (by_number a b))) rows.now }
    ensures { IfOk result (λ pieces. AreListed next_table pieces.items rows.now) }
{
    let mut pieces = Vec::new(alloc);
    let mut rest = rows;
    while rest.len() > MOST_NAMES {
        let (part, more) = rest.split_at(MOST_NAMES);
        pieces.push(listing_frame(alloc, next_table, part)?)?;
        rest = more;
    }
    pieces.push(listing_frame(alloc, next_table, rest)?)?;
    Ok(pieces)
}

/// A frame that lists tables in the order of their numbers.
fn listing_frame(alloc: Global, next_table: u64, rows: &[TableRow]) -> Result<Prepared, Memory>
    requires few { length rows.now ≤ most_names }
    requires rising { AllPairs (λ (a b : Named). IsTrue (is_lt (by_number a b))) rows.now }
    ensures is { IfOk result (λ prepared. prepared ≡ frames.Names next_table (map pair rows.now)) }
    ensures spelled { IfOk result HasSpelling }
{
    let mut names = Vec::new(alloc);
    for row in rows {
        let _text = row.name.as_str();
        names.push((row.table, row.name.try_copy(alloc)?))?;
    }
    let frame = Frame::Names {
        next_table,
        names: FrameList::new(names),
    };
    let prepared = prepare(alloc, &frame)?;
    let _bytes = prepared.bytes();
    Ok(prepared)
}
