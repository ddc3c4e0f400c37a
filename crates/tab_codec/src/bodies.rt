//! Reads the bodies of frames, each kind by a function of its own.

ghost use Rattle.std.specs.Prelude.{◌≡◌, ◌≤◌, nat_le};
ghost use Rattle.std.specs.Int.{w32};
ghost use Rattle.tab_codec.specs.Reading.{Gives, allowing, number_at, begin_at, rows_at, whole_at, changes_at, map_at, commit_at, names_at, create_at, drop_at, body_at};

use crate::fields::{read_byte, read_table_name, read_u16, read_u32, read_u64};
use crate::items::{
    read_changes, read_names, read_numbers, read_range_rows, read_rising_range_rows, read_rows,
};
use crate::keys::read_span;
use crate::stops::Stop;
use crate::{Frame, FrameList};
use std::alloc::Global;

/// The most rows of one frame.
const MOST_ROWS: u32 = 1_000;

/// The body of a frame of this kind.
#[tactic(auto, unfolding(crate::specs::Reading::body_at))]
pub fn read_body(alloc: Global, kind: u8, bytes: &[u8]) -> Result<(Frame, &[u8]), Stop>
    requires low { 1 ≤ kind }
    requires high { kind ≤ 9 }
    ensures { Gives (λ x. (x.0, x.1.now)) result (body_at kind bytes.now) }
{
    match kind {
        1 => read_begin(alloc, bytes),
        2 => read_rows_frame(alloc, bytes),
        3 => read_whole(bytes),
        4 => read_change_frame(alloc, bytes),
        5 => read_map(alloc, bytes),
        6 => read_commit(alloc, bytes),
        7 => read_names_frame(alloc, bytes),
        8 => read_create(alloc, bytes),
        _ => read_drop(bytes),
    }
}

#[tactic(auto, unfolding(crate::specs::Reading::begin_at))]
fn read_begin(alloc: Global, bytes: &[u8]) -> Result<(Frame, &[u8]), Stop>
    ensures { Gives (λ x. (x.0, x.1.now)) result (begin_at bytes.now) }
{
    let (range, rest) = read_u64(bytes)?;
    let (span, rest) = read_span(alloc, rest)?;
    let (next_tick, rest) = read_u64(rest)?;
    let frame = Frame::Begin {
        range,
        span,
        next_tick,
    };
    Ok((frame, rest))
}

#[tactic(auto, unfolding(crate::specs::Reading::rows_at))]
fn read_rows_frame(alloc: Global, bytes: &[u8]) -> Result<(Frame, &[u8]), Stop>
    ensures { Gives (λ x. (x.0, x.1.now)) result (rows_at bytes.now) }
{
    let (range, rest) = read_u64(bytes)?;
    let (count, rest) = read_row_count(rest)?;
    let (rows, rest) = read_rows(alloc, count, rest)?;
    let rows = FrameList::new(rows);
    Ok((Frame::Rows { range, rows }, rest))
}

#[tactic(auto, unfolding(crate::specs::Reading::allowing))]
fn read_row_count(bytes: &[u8]) -> Result<(u32, &[u8]), Stop>
    ensures { Gives (λ x. (x.0, x.1.now)) result (allowing (λ count. nat_le count 1000) (number_at w32) bytes.now) }
{
    let (count, rest) = read_u32(bytes)?;
    if count <= MOST_ROWS {
        Ok((count, rest))
    } else {
        Err(Stop::Broken(bytes.len()))
    }
}

#[tactic(auto, unfolding(crate::specs::Reading::whole_at))]
fn read_whole(bytes: &[u8]) -> Result<(Frame, &[u8]), Stop>
    ensures { Gives (λ x. (x.0, x.1.now)) result (whole_at bytes.now) }
{
    let (range, rest) = read_u64(bytes)?;
    let (next_tick, rest) = read_u64(rest)?;
    Ok((Frame::Whole { range, next_tick }, rest))
}

#[tactic(auto, unfolding(crate::specs::Reading::changes_at))]
fn read_change_frame(alloc: Global, bytes: &[u8]) -> Result<(Frame, &[u8]), Stop>
    ensures { Gives (λ x. (x.0, x.1.now)) result (changes_at bytes.now) }
{
    let (range, rest) = read_u64(bytes)?;
    let (next_tick, rest) = read_u64(rest)?;
    let (count, rest) = read_u16(rest)?;
    let (changes, rest) = read_changes(alloc, count, rest)?;
    let frame = Frame::Change {
        range,
        next_tick,
        changes: FrameList::new(changes),
    };
    Ok((frame, rest))
}

#[tactic(auto, unfolding(crate::specs::Reading::map_at))]
fn read_map(alloc: Global, bytes: &[u8]) -> Result<(Frame, &[u8]), Stop>
    ensures { Gives (λ x. (x.0, x.1.now)) result (map_at bytes.now) }
{
    let (next_range, rest) = read_u64(bytes)?;
    let (next_plan, rest) = read_u64(rest)?;
    let (count, rest) = read_u32(rest)?;
    let (rows, rest) = read_rising_range_rows(alloc, count, rest)?;
    let frame = Frame::Map {
        next_range,
        next_plan,
        rows: FrameList::new(rows),
    };
    Ok((frame, rest))
}

#[tactic(auto, unfolding(crate::specs::Reading::commit_at))]
fn read_commit(alloc: Global, bytes: &[u8]) -> Result<(Frame, &[u8]), Stop>
    ensures { Gives (λ x. (x.0, x.1.now)) result (commit_at bytes.now) }
{
    let (plan, rest) = read_u64(bytes)?;
    let (next_range, rest) = read_u64(rest)?;
    let (old_count, rest) = read_byte(rest)?;
    let (old_ranges, rest) = read_numbers(alloc, old_count, rest)?;
    let (new_count, rest) = read_byte(rest)?;
    let (new_rows, rest) = read_range_rows(alloc, new_count, rest)?;
    let frame = Frame::Commit {
        plan,
        next_range,
        old_ranges: FrameList::new(old_ranges),
        new_rows: FrameList::new(new_rows),
    };
    Ok((frame, rest))
}

#[tactic(auto, unfolding(crate::specs::Reading::names_at))]
fn read_names_frame(alloc: Global, bytes: &[u8]) -> Result<(Frame, &[u8]), Stop>
    ensures { Gives (λ x. (x.0, x.1.now)) result (names_at bytes.now) }
{
    let (next_table, rest) = read_u64(bytes)?;
    let (count, rest) = read_u32(rest)?;
    let (names, rest) = read_names(alloc, count, rest)?;
    let names = FrameList::new(names);
    Ok((Frame::Names { next_table, names }, rest))
}

#[tactic(auto, unfolding(crate::specs::Reading::create_at))]
fn read_create(alloc: Global, bytes: &[u8]) -> Result<(Frame, &[u8]), Stop>
    ensures { Gives (λ x. (x.0, x.1.now)) result (create_at bytes.now) }
{
    let (table, rest) = read_u64(bytes)?;
    let (name, rest) = read_table_name(alloc, rest)?;
    Ok((Frame::Create { table, name }, rest))
}

#[tactic(auto, unfolding(crate::specs::Reading::drop_at))]
fn read_drop(bytes: &[u8]) -> Result<(Frame, &[u8]), Stop>
    ensures { Gives (λ x. (x.0, x.1.now)) result (drop_at bytes.now) }
{
    let (table, rest) = read_u64(bytes)?;
    Ok((Frame::Drop { table }, rest))
}
