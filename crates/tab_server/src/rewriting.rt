//! The frames to which a checkpoint rewrites ranges.
ghost use Rattle.std.specs.Prelude.{◌≡◌, ◌≢◌, ◌≤◌, ◌<◌, ◌^◌, ◌++◌, ◌∷◌, [], length, OnOk, IsTrue, IsFalse};
ghost use Rattle.std.specs.List.{AllByRecursion, flat_map};
ghost use Rattle.tab_rows.specs.Rows.{AreRising};
ghost use Rattle.tab_codec.specs.Spelling.{row_spelling, body};
ghost use Rattle.tab_codec.specs.Frames.{IsOrderly, IsShort, IsBound, IsSpan, HasSpelling};
ghost use Rattle.tab_codec.specs.declared.frames.Frame.TheVariants as Frame;
ghost use Rattle.tab_server.specs.Rewriting.{is_full, rows_frames, range_frames};
ghost use Rattle.tab_server.specs.Contents.{told_of};

use crate::Marked;
use std::alloc::Global;
use std::marker::Model;
use tab_codec::{Frame, FrameList, Prepared, prepare, row_size};
use tab_keys::{Bound, Memory, Span};
use tab_range::Backing;
use tab_rows::Row;

/// The rows at which a Rows frame is full.
const FULL_ROWS: usize = 1000;

/// The bytes of a body at which a Rows frame is full.
const FULL_BODY: usize = 4_194_304;

/// Pushes the frames of one range behind others.
#[tactic(auto, using(crate::proofs::RowSizes::whole_body_short))]
pub fn push_range<T: Backing>(
    alloc: Global,
    pieces: &mut Vec<Prepared>,
    marked: &Marked<T>,
) -> Result<(), Memory>
    ensures { OnOk result (pieces.new.items ≡ pieces.old.items ++ range_frames (told_of marked.now)) }
{
    let range = &marked.range;
    push_begin(alloc, pieces, range.id(), range.span(), range.next_tick())?;
    push_rows(alloc, pieces, range.id(), range.rows().as_slice())?;
    if marked.mark.is_whole() {
        let whole = Frame::Whole {
            range: range.id(),
            next_tick: range.next_tick(),
        };
        push_frame(alloc, pieces, &whole)?;
    }
    Ok(())
}

#[tactic(auto, using(crate::proofs::RowSizes::begin_body_short))]
fn push_begin(
    alloc: Global,
    pieces: &mut Vec<Prepared>,
    range: u64,
    span: &Span,
    next_tick: u64,
) -> Result<(), Memory>
    ensures { OnOk result (pieces.new.items ≡ pieces.old.items ++ Frame.Begin range span.now next_tick ∷ []) }
{
    is_span(span);
    let begin = Frame::Begin {
        range,
        span: span.try_copy(alloc)?,
        next_tick,
    };
    push_frame(alloc, pieces, &begin)
}

/// Pushes the Rows frames of a range, each of which is closed once it is full.
fn push_rows(
    alloc: Global,
    pieces: &mut Vec<Prepared>,
    range: u64,
    rows: &[Row],
) -> Result<(), Memory>
    requires { AreRising rows.now }
    ensures { OnOk result (pieces.new.items ≡ pieces.old.items ++ rows_frames range [] rows.now) }
{
    let mut next = RowsFrame::new(alloc);
    for row in rows {
        next.push(alloc, row)?;
        if next.is_full(range) {
            next.close(alloc, pieces, range)?;
            next = RowsFrame::new(alloc);
        }
    }
    if next.is_empty() {
        return Ok(());
    }
    next.close(alloc, pieces, range)
}

/// The rows of a Rows frame that is not closed yet. Contracts see it as the rows.
#[derive(Drop)]
struct RowsFrame {
    rows: Vec<Row>,
    /// The bytes of its body.
    size: usize,
}

impl Model for RowsFrame {
    ghost use Rattle.std.specs.Prelude.{◌≡◌, ◌+◌, List, length, vec_items};
    ghost use Rattle.std.specs.List.{flat_map};
    ghost use Rattle.tab_rows.specs.Rows.{RowView};
    ghost use Rattle.tab_codec.specs.Spelling.{row_spelling};

    ghost Value = { List RowView };

    ghost view = { λ frame. frame.rows.items };

    ghost invariant = { λ frame. frame.size ≡ 12 + length (flat_map row_spelling frame.rows.items) };
}

impl RowsFrame {
    fn new(alloc: Global) -> RowsFrame
        ensures { result ≡ [] }
    {
        RowsFrame {
            rows: Vec::new(alloc),
            size: 12,
        }
    }

    fn is_empty(&self) -> bool
        ensures yes { IsTrue result → self.now ≡ [] }
        ensures no { IsFalse result → self.now ≢ [] }
    {
        self.rows.is_empty()
    }

    /// Whether it is full.
    #[tactic(auto, using(crate::proofs::RowSizes::rows_body_long))]
    fn is_full(&self, range: u64) -> bool
        ensures { result ≡ is_full range self.now }
    {
        self.rows.len() >= FULL_ROWS || self.size >= FULL_BODY
    }

    /// Pushes a copy of a row.
    #[tactic(auto, using(crate::proofs::RowSizes::row_short, crate::proofs::RowSizes::rows_longer))]
    fn push(&mut self, alloc: Global, row: &Row) -> Result<(), Memory>
        requires { length (flat_map row_spelling self.old) < 4_194_304 }
        ensures rows { OnOk result (self.new ≡ self.old ++ row.now ∷ []) }
        ensures short { OnOk result (length (flat_map row_spelling self.new) ≤ 6_000_000) }
    {
        row.kept();
        let size = self.size + row_size(row);
        let copy = row.try_copy(alloc)?;
        self.rows.push(copy)?;
        self.size = size;
        Ok(())
    }

    /// Pushes the frame itself.
    #[tactic(auto, using(crate::proofs::RowSizes::rows_body_long))]
    fn close(self, alloc: Global, pieces: &mut Vec<Prepared>, range: u64) -> Result<(), Memory>
        requires few { length self ≤ 1000 }
        requires rising { AreRising self }
        requires short { length (flat_map row_spelling self) ≤ 6_000_000 }
        ensures { OnOk result (pieces.new.items ≡ pieces.old.items ++ Frame.Rows range self ∷ []) }
    {
        let frame = Frame::Rows {
            range,
            rows: FrameList::new(self.rows),
        };
        push_frame(alloc, pieces, &frame)
    }
}

fn push_frame(alloc: Global, pieces: &mut Vec<Prepared>, frame: &Frame) -> Result<(), Memory>
    requires orderly { IsOrderly frame.now }
    requires short { IsShort (body frame.now) }
    ensures { OnOk result (pieces.new.items ≡ pieces.old.items ++ frame.now ∷ []) }
{
    let piece = prepare(alloc, frame)?;
    pieces.push(piece)?;
    Ok(())
}

/// What each span of the program is. It does nothing.
fn is_span(span: &Span)
    ensures { IsSpan span.now }
{
    is_bound(span.lo());
    is_bound(span.hi());
}

fn is_bound(bound: &Bound)
    ensures { IsBound bound.now }
{
    if let Bound::At(table, pk) = bound {
        read_table(*table);
        let _ = pk.as_str();
    }
}

fn read_table(_table: u64)
    ensures { _table < 2 ^ 64 }
{}

/// What all frames that are prepared are. It does nothing.
#[tactic(auto, using(tab_codec::proofs::Sums::all_more))]
pub fn are_spelled(pieces: &[Prepared])
    ensures { AllByRecursion HasSpelling pieces.now }
{
    for piece in pieces {
        let _ = piece.bytes();
    }
}
