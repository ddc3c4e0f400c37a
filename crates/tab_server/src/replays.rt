//! Ranges as frames spell them.

ghost use Rattle.std.specs.Prelude.{◌≡◌, ◌↔◌, IsTrue, IfOk, OnOk};
ghost use Rattle.tab_rows.specs.Rows.{with_row};
ghost use Rattle.tab_ops.specs.Changes.{changed, applied};
ghost use Rattle.tab_server.specs.Replays.{with_rows, spelled_next, spelled_range};

use crate::comparing::{same_rows, same_span};
use std::alloc::Global;
use std::marker::Model;
use tab_codec::Frame;
use tab_keys::{Memory, Span};
use tab_rows::{Change, Row, Rows};

/// A range as frames spell it. Contracts see it as its parts.
#[derive(Drop)]
pub struct Replay {
    pub range: u64,
    pub span: Span,
    pub rows: Rows,
    pub next_tick: u64,
    pub is_whole: bool,
}

impl Model for Replay {
    ghost use Rattle.tab_server.specs.Replays.{SpelledRange};

    ghost Value = { SpelledRange };

    ghost view = { λ replay. record { range = replay.range; span = replay.span; rows = replay.rows.rows; next_tick = replay.next_tick; is_whole = replay.is_whole } };
}

/// The range of a number, where the frames begin it.
#[tactic(auto, using(crate::proofs::Folding::frames_step))]
pub fn replayed(alloc: Global, frames: &[Frame], number: u64) -> Result<Option<Replay>, Memory>
    ensures { IfOk result (λ found. found ≡ spelled_range frames.now number) }
{
    let mut found = None;
    for frame in frames {
        found = next(alloc, found, frame, number)?;
    }
    Ok(found)
}

/// What a frame makes of the range of a number.
fn next(
    alloc: Global,
    so_far: Option<Replay>,
    frame: &Frame,
    number: u64,
) -> Result<Option<Replay>, Memory>
    ensures { IfOk result (λ next. next ≡ spelled_next number so_far frame.now) }
{
    match frame {
        Frame::Begin {
            range,
            span,
            next_tick,
        } if *range == number => Ok(Some(Replay {
            range: *range,
            span: span.try_copy(alloc)?,
            rows: Rows::new(alloc),
            next_tick: *next_tick,
            is_whole: false,
        })),
        Frame::Rows { range, rows } if *range == number => match so_far {
            Some(mut one) => {
                put_rows(alloc, &mut one.rows, rows.as_slice())?;
                Ok(Some(one))
            }
            None => Ok(None),
        },
        Frame::Whole { range, next_tick } if *range == number => match so_far {
            Some(mut one) => {
                one.next_tick = *next_tick;
                one.is_whole = true;
                Ok(Some(one))
            }
            None => Ok(None),
        },
        Frame::Change {
            range,
            next_tick,
            changes,
        } if *range == number => match so_far {
            Some(mut one) => {
                make_changes(alloc, &mut one.rows, changes.as_slice())?;
                one.next_tick = *next_tick;
                Ok(Some(one))
            }
            None => Ok(None),
        },
        _ => Ok(so_far),
    }
}

impl Replay {
    /// Whether it has these parts.
    pub fn is_same(
        &self,
        range: u64,
        span: &Span,
        rows: &Rows,
        next_tick: u64,
        is_whole: bool,
    ) -> bool
        ensures { IsTrue result ↔ self.now ≡ record { range = range; span = span.now; rows = rows.now.rows; next_tick = next_tick; is_whole = is_whole } }
    {
        self.range == range
            && self.next_tick == next_tick
            && self.is_whole == is_whole
            && same_span(&self.span, span)
            && same_rows(self.rows.as_slice(), rows.as_slice())
    }
}

/// Puts copies of rows at their keys.
#[tactic(auto, using(crate::proofs::Folding::rows_step))]
pub fn put_rows(alloc: Global, rows: &mut Rows, others: &[Row]) -> Result<(), Memory>
    ensures { OnOk result (rows.new.rows ≡ with_rows rows.old.rows others.now) }
{
    for row in others {
        put_row(alloc, rows, row)?;
    }
    Ok(())
}

/// Makes copies of changes.
#[tactic(auto, using(crate::proofs::Folding::changes_step))]
pub fn make_changes(alloc: Global, rows: &mut Rows, changes: &[Change]) -> Result<(), Memory>
    ensures { OnOk result (rows.new.rows ≡ applied rows.old.rows changes.now) }
{
    for change in changes {
        make_change(alloc, rows, change)?;
    }
    Ok(())
}

/// Puts a copy of a row at its key.
fn put_row(alloc: Global, rows: &mut Rows, row: &Row) -> Result<(), Memory>
    ensures { OnOk result (rows.new.rows ≡ with_row rows.old.rows row.now) }
{
    rows.reserve(1)?;
    rows.put(row.try_copy(alloc)?);
    Ok(())
}

/// Makes a copy of a change.
fn make_change(alloc: Global, rows: &mut Rows, change: &Change) -> Result<(), Memory>
    ensures { OnOk result (rows.new.rows ≡ changed rows.old.rows change.now) }
{
    match change {
        Change::Put(row) => put_row(alloc, rows, row)?,
        Change::Take(key) => {
            rows.take(key);
        }
    }
    Ok(())
}
