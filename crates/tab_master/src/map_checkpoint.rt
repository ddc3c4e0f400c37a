//! The frame of a checkpoint of the map.

ghost use Rattle.std.specs.Prelude.{◌≡◌, ◌*◌, ◌≤◌, AllPairs, IsTrue, IfOk, length};
ghost use Rattle.std.specs.List.{flat_map};
ghost use Rattle.tab_keys.specs.Order.{bound_lt};
ghost use Rattle.tab_codec.specs.Spelling.{bound_spelling, range_row_spelling};
ghost use Rattle.tab_codec.specs.Frames.{HasSpelling};
ghost use Rattle.tab_codec.specs.declared.frames.RangeRow.{RangeRow};
ghost use Rattle.tab_codec.specs.declared.frames.Frame.TheVariants as frames;
ghost use Rattle.tab_journal.specs.Told.{most_rows};

use crate::map_listing::copied;
use std::alloc::Global;
use tab_codec::{Frame, FrameList, Prepared, RangeRow, prepare};
use tab_keys::{Bound, Memory};

/// A frame that lists the rows of the map in the order of their keys, with the next numbers.
pub fn map_frame(
    alloc: Global,
    next_range: u64,
    next_plan: u64,
    rows: &[RangeRow],
) -> Result<Prepared, Memory>
    requires few { length rows.now ≤ most_rows }
    requires rising { AllPairs (λ (a b : RangeRow). IsTrue (bound_lt a.span.lo b.span.lo)) rows.now }
    ensures is { IfOk result (λ prepared. prepared ≡ frames.Map next_range next_plan rows.now) }
    ensures spelled { IfOk result HasSpelling }
{
    rows_are_short(rows);
    let frame = Frame::Map {
        next_range,
        next_plan,
        rows: FrameList::new(copied(alloc, rows)?),
    };
    let prepared = prepare(alloc, &frame)?;
    let _bytes = prepared.bytes();
    Ok(prepared)
}

/// Rows take few bytes in a frame.
pub(crate) fn rows_are_short(rows: &[RangeRow])
    ensures { length (flat_map range_row_spelling rows.now) ≤ 6179 * length rows.now }
{
    for row in rows {
        row_is_short(row);
    }
}

/// A row takes few bytes in a frame, by its bounds.
#[tactic(auto, using(crate::proofs::MapShort::row_short))]
fn row_is_short(row: &RangeRow)
    ensures { length (range_row_spelling row.now) ≤ 6179 }
{
    bound_is_short(row.span.lo());
    bound_is_short(row.span.hi());
}

/// A bound takes few bytes in a frame, by its partition key.
#[tactic(auto, using(crate::proofs::MapShort::at_short, crate::proofs::MapShort::end_short))]
fn bound_is_short(bound: &Bound)
    ensures { length (bound_spelling bound.now) ≤ 3085 }
{
    match bound {
        Bound::At(_, pk) => {
            let _text = pk.as_str();
        }
        Bound::End => {}
    }
}
