//! What the frames of a map told so far: its rows, and the next number of a range.

ghost use Rattle.std.specs.Prelude.{◌≡◌, ◌+◌, ◌++◌, not, length, nat_lt, nat_le, IsTrue, Some, None, IfOk, OnOk};
ghost use Rattle.std.specs.Option.{is_some};
ghost use Rattle.std.specs.Ordering.{is_lt};
ghost use Rattle.tab_keys.specs.Order.{bound_cmp};
ghost use Rattle.std.specs.List.{list_any, list_all};
ghost use Rattle.tab_codec.specs.declared.frames.RangeRow.{RangeRow};
ghost use Rattle.tab_journal.specs.Told.{map_takes, map_after, has_number, is_listed, begins_in, agree_at, agree_in, same_keys, rows_of, rows_besides, numbers_differ, are_numbers, most_rows, takes_commit};

use std::alloc::Global;
use std::marker::Model;
use tab_codec::{Frame, RangeRow};
use tab_keys::{Bound, Memory, Span};

/// The most rows of a map.
pub const MOST_RANGES: usize = 256;

/// The rows of the map, and the next number of a range.
#[derive(Drop)]
pub struct MapState {
    next_range: u64,
    rows: Vec<RangeRow>,
}

impl Model for MapState {
    ghost use Rattle.std.specs.Prelude.{vec_items};
    ghost use Rattle.tab_journal.specs.Told.{MapTold};

    ghost Value = { MapTold };

    ghost view = { λ map. record { next_range = map.next_range; rows = map.rows.items } };
}

impl MapState {
    /// The map of a first frame, where the frame fits.
    #[tactic(auto, unfolding(crate::specs::Told::map_takes, crate::specs::Told::map_after))]
    pub fn first(alloc: Global, frame: &Frame) -> Result<Option<MapState>, Memory>
        ensures fits { IfOk result (λ map. is_some map ≡ map_takes None frame.now) }
        ensures after { IfOk result (λ map. IsTrue (is_some map) → map ≡ map_after None frame.now) }
    {
        let Frame::Map {
            next_range,
            rows,
            ..
        } = frame
        else {
            return Ok(None);
        };
        let rows = rows.as_slice();
        if rows.len() > MOST_RANGES || !are_numbers(*next_range, rows) {
            return Ok(None);
        }
        let mut map = MapState {
            next_range: *next_range,
            rows: Vec::new(alloc),
        };
        append(alloc, &mut map.rows, rows)?;
        Ok(Some(map))
    }

    /// Whether the frame fits, and where it does, what it tells is kept.
    #[tactic(auto, unfolding(crate::specs::Told::map_takes, crate::specs::Told::map_after))]
    pub fn take(&mut self, alloc: Global, frame: &Frame) -> Result<bool, Memory>
        ensures fits { IfOk result (λ fits. fits ≡ map_takes (Some self.old) frame.now) }
        ensures after { IfOk result (λ fits. IsTrue fits → Some self.new ≡ map_after (Some self.old) frame.now) }
    {
        let Frame::Commit {
            plan,
            next_range,
            old_ranges,
            new_rows,
        } = frame
        else {
            return Ok(false);
        };
        let (old_ranges, new_rows) = (old_ranges.as_slice(), new_rows.as_slice());
        if !self.takes_commit(alloc, *plan, *next_range, old_ranges, new_rows)? {
            return Ok(false);
        }
        self.replace(alloc, *next_range, old_ranges, new_rows)?;
        Ok(true)
    }

    /// Puts new rows in place of those of the old numbers.
    fn replace(
        &mut self,
        alloc: Global,
        next_range: u64,
        old_ranges: &[u64],
        new_rows: &[RangeRow],
    ) -> Result<(), Memory>
        ensures { OnOk result (self.new ≡ record { next_range = next_range; rows = rows_besides old_ranges.now self.old.rows ++ new_rows.now }) }
    {
        self.rows.retain(|row| !is_listed(old_ranges, row.range));
        append(alloc, &mut self.rows, new_rows)?;
        self.next_range = next_range;
        Ok(())
    }

    /// Whether new rows may take the place of old ones.
    fn takes_commit(
        &self,
        alloc: Global,
        plan: u64,
        next_range: u64,
        old_ranges: &[u64],
        new_rows: &[RangeRow],
    ) -> Result<bool, Memory>
        ensures { IfOk result (λ fits. fits ≡ takes_commit self.now plan next_range old_ranges.now new_rows.now) }
    {
        let rows = self.rows.as_slice();
        let old_rows = rows_of(alloc, old_ranges, rows)?;
        Ok(
            plan < u64::MAX
                && self.next_range <= next_range
                && has_room(old_ranges, rows, new_rows.len())
                && are_all_there(rows, old_ranges)
                && are_numbers(next_range, new_rows)
                && are_absent(rows, new_rows)
                && have_same_keys(old_rows.as_slice(), new_rows),
        )
    }
}

/// Copies of the rows of these numbers.
fn rows_of(alloc: Global, ranges: &[u64], rows: &[RangeRow]) -> Result<Vec<RangeRow>, Memory>
    ensures { IfOk result (λ found. found.items ≡ rows_of ranges.now rows.now) }
{
    let mut found = Vec::new(alloc);
    for row in rows {
        if is_listed(ranges, row.range) {
            found.push(row.try_copy(alloc)?)?;
        }
    }
    Ok(found)
}

/// Whether so many rows have room beside those of other numbers.
fn has_room(ranges: &[u64], rows: &[RangeRow], count: usize) -> bool
    ensures { result ≡ nat_le (length (rows_besides ranges.now rows.now) + count) most_rows }
{
    count <= MOST_RANGES && count_besides(ranges, rows) <= MOST_RANGES - count
}

/// How many rows have other numbers.
fn count_besides(ranges: &[u64], rows: &[RangeRow]) -> usize
    ensures { result ≡ length (rows_besides ranges.now rows.now) }
{
    let mut count = 0;
    for row in rows {
        if !is_listed(ranges, row.range) {
            count += 1;
        }
    }
    count
}

/// Whether each number is that of a row.
fn are_all_there(rows: &[RangeRow], ranges: &[u64]) -> bool
    ensures { result ≡ list_all (has_number rows.now) ranges.now }
{
    ranges.iter().all(|range| has_number(rows, *range))
}

/// Whether no row has the number of a new one.
fn are_absent(rows: &[RangeRow], new_rows: &[RangeRow]) -> bool
    ensures { result ≡ list_all (λ (row : RangeRow). not (has_number rows.now row.range)) new_rows.now }
{
    new_rows.iter().all(|row| !has_number(rows, row.range))
}

/// Whether a row has the number.
fn has_number(rows: &[RangeRow], range: u64) -> bool
    ensures { result ≡ has_number rows.now range }
{
    rows.iter().any(|row| row.range == range)
}

/// Whether the number is one of these.
fn is_listed(ranges: &[u64], range: u64) -> bool
    ensures { result ≡ is_listed ranges.now range }
{
    ranges.iter().any(|number| *number == range)
}

/// Whether the numbers of the rows differ and are below the next one.
fn are_numbers(next_range: u64, rows: &[RangeRow]) -> bool
    ensures { result ≡ are_numbers next_range rows.now }
{
    are_below(next_range, rows) && numbers_differ(rows)
}

/// Whether the numbers of the rows are below the next one.
fn are_below(next_range: u64, rows: &[RangeRow]) -> bool
    ensures { result ≡ list_all (λ (row : RangeRow). nat_lt row.range next_range) rows.now }
{
    rows.iter().all(|row| row.range < next_range)
}

/// Whether no number stands twice.
#[tactic(auto, unfolding(crate::specs::Told::numbers_differ))]
fn numbers_differ(rows: &[RangeRow]) -> bool
    ensures { result ≡ numbers_differ rows.now }
{
    let mut rest = rows;
    while let Some((row, others)) = rest.split_first() {
        if has_number(others, row.range) {
            return false;
        }
        rest = others;
    }
    true
}

/// Whether rows have the same keys together: they agree at each bound of theirs.
#[tactic(auto, unfolding(crate::specs::Told::same_keys))]
fn have_same_keys(rows: &[RangeRow], others: &[RangeRow]) -> bool
    ensures { result ≡ same_keys rows.now others.now }
{
    agree_in_all(rows, others, rows) && agree_in_all(rows, others, others)
}

/// Whether they agree at both bounds of each of some rows.
fn agree_in_all(rows: &[RangeRow], others: &[RangeRow], some: &[RangeRow]) -> bool
    ensures { result ≡ list_all (λ (row : RangeRow). agree_in rows.now others.now row.span) some.now }
{
    some.iter().all(|row| agree_in(rows, others, &row.span))
}

/// Whether they agree at both bounds of a span.
fn agree_in(rows: &[RangeRow], others: &[RangeRow], span: &Span) -> bool
    ensures { result ≡ agree_in rows.now others.now span.now }
{
    agree_at(rows, others, span.lo()) && agree_at(rows, others, span.hi())
}

/// Whether both have the first key behind a bound, or neither.
fn agree_at(rows: &[RangeRow], others: &[RangeRow], bound: &Bound) -> bool
    ensures { result ≡ agree_at rows.now others.now bound.now }
{
    has_first(rows, bound) == has_first(others, bound)
}

/// Whether one of the rows has the first key behind the bound.
fn has_first(rows: &[RangeRow], bound: &Bound) -> bool
    ensures { result ≡ list_any (λ (row : RangeRow). begins_in row.span bound.now) rows.now }
{
    rows.iter().any(|row| begins_in(&row.span, bound))
}

/// Whether the first key behind the bound is one of the span's keys.
#[tactic(auto, using(crate::proofs::Covers::begins_is))]
fn begins_in(span: &Span, bound: &Bound) -> bool
    ensures { result ≡ begins_in span.now bound.now }
{
    !is_below(bound, span.lo()) && is_below(bound, span.hi())
}

/// Whether one bound stands before another.
fn is_below(bound: &Bound, other: &Bound) -> bool
    ensures { result ≡ is_lt (bound_cmp bound.now other.now) }
{
    bound.cmp(other).is_lt()
}

/// Puts copies of rows behind others.
fn append(alloc: Global, rows: &mut Vec<RangeRow>, more: &[RangeRow]) -> Result<(), Memory>
    ensures { OnOk result (rows.new.items ≡ rows.old.items ++ more.now) }
{
    for row in more {
        rows.push(row.try_copy(alloc)?)?;
    }
    Ok(())
}
