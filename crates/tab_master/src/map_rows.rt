//! Rows of the map: in the order of their keys, whether they tile the keys, and which of them has a key.

ghost use Rattle.std.specs.Prelude.{◌≡◌, ◌↔◌, [], map, not, nat_lt, IsTrue, IsFalse, IsPermutation, AllPairs, Some};
ghost use Rattle.std.specs.List.{list_all};
ghost use Rattle.std.specs.Ordering.{is_lt};
ghost use Rattle.tab_keys.specs.Order.{is_before};
ghost use Rattle.tab_keys.specs.declared.bounds.Bound.TheVariants.{At, End};
ghost use Rattle.tab_codec.specs.declared.frames.RangeRow.{RangeRow};
ghost use Rattle.tab_history.specs.Configurations.{row_with};
ghost use Rattle.tab_history.specs.Tilings.{AreTiles, TileKeys};
ghost use Rattle.tab_master.specs.Spelled.{map_row, by_start};
ghost use Rattle.tab_master.specs.Maps.{AreInYard, HasKeyAt};

use tab_codec::RangeRow;
use tab_keys::{Bound, Key, Span};

/// Rows in the order of the bounds at which they begin.
pub fn sorted(mut rows: Vec<RangeRow>) -> Vec<RangeRow>
    ensures elements { IsPermutation rows.items result.items }
    ensures in_order { AllPairs (λ (a b : RangeRow). IsFalse (is_lt (by_start (map_row b) (map_row a)))) result.items }
{
    rows.sort_unstable_by(|a, b| a.span.lo().cmp(b.span.lo()));
    rows
}

/// Whether rows tile the space of keys, and each names one of so many servers.
pub fn are_map(servers: u8, rows: &[RangeRow]) -> bool
    ensures { IsTrue result ↔ (TileKeys (map map_row rows.now) × AreInYard servers (map map_row rows.now)) }
{
    are_tiles(rows) && are_in_yard(servers, rows)
}

/// Whether the spans of rows tile the space of keys.
fn are_tiles(rows: &[RangeRow]) -> bool
    ensures { IsTrue result ↔ TileKeys (map map_row rows.now) }
{
    match rows.split_first() {
        Some((first, rest)) => is_first(first.span.lo()) && are_tiles_behind(first, rest),
        None => false,
    }
}

/// Whether the spans of rows lie side by side behind a row, up to the end of all keys.
fn are_tiles_behind(row: &RangeRow, rows: &[RangeRow]) -> bool
    ensures { IsTrue result ↔ AreTiles row.now.span.hi (map map_row rows.now) }
{
    let mut last = row;
    let mut rest = rows;
    while let Some((next, others)) = rest.split_first() {
        if !is_same(next.span.lo(), last.span.hi()) {
            return false;
        }
        last = next;
        rest = others;
    }
    is_end(last.span.hi())
}

/// Whether a bound stands before all keys.
fn is_first(bound: &Bound) -> bool
    ensures { IsTrue result ↔ (bound.now ≡ At 0 []) }
{
    match bound {
        Bound::At(table, pk) => *table == 0 && pk.as_str().is_empty(),
        Bound::End => false,
    }
}

/// Whether a bound stands past all keys.
fn is_end(bound: &Bound) -> bool
    ensures { IsTrue result ↔ (bound.now ≡ End) }
{
    matches!(bound, Bound::End)
}

/// Whether two bounds are one.
fn is_same(bound: &Bound, other: &Bound) -> bool
    ensures { IsTrue result ↔ (bound.now ≡ other.now) }
{
    match (bound, other) {
        (Bound::At(table, pk), Bound::At(other_table, other_pk)) => {
            table == other_table && pk.as_str() == other_pk.as_str()
        }
        (Bound::End, Bound::End) => true,
        _ => false,
    }
}

/// Whether each row names one of so many servers.
fn are_in_yard(servers: u8, rows: &[RangeRow]) -> bool
    ensures { result ≡ list_all (λ (row : RangeRow). nat_lt row.server servers) rows.now }
{
    rows.iter().all(|row| row.server < servers)
}

/// Whether two lists have the same rows in the same order.
pub fn are_same(rows: &[RangeRow], others: &[RangeRow]) -> bool
    ensures { IsTrue result ↔ (rows.now ≡ others.now) }
{
    if rows.len() != others.len() {
        return false;
    }
    for (index, row) in rows.iter().enumerate() {
        if !is_same_row(row, &others[index]) {
            return false;
        }
    }
    true
}

/// Whether two rows are one.
fn is_same_row(row: &RangeRow, other: &RangeRow) -> bool
    ensures { IsTrue result ↔ (row.now ≡ other.now) }
{
    row.range == other.range && row.server == other.server && is_same_span(&row.span, &other.span)
}

/// Whether two spans have the same bounds.
fn is_same_span(span: &Span, other: &Span) -> bool
    ensures { IsTrue result ↔ (span.now ≡ other.now) }
{
    is_same(span.lo(), other.lo()) && is_same(span.hi(), other.hi())
}

/// The row that has a key, by a binary search among rows that tile the keys.
pub fn row_with<'a>(rows: &'a [RangeRow], key: &Key) -> &'a RangeRow
    requires { TileKeys (map map_row rows.now) }
    ensures { row_with (map map_row rows.now) key.now ≡ Some (map_row result.now) }
{
    &rows[find_index(rows, key)]
}

/// Where the row that has a key stands among rows that tile the keys: it is the last that has begun there.
fn find_index(rows: &[RangeRow], key: &Key) -> usize
    requires { TileKeys (map map_row rows.now) }
    ensures { HasKeyAt rows.now key.now result }
{
    let begun = rows.partition_point(
        |row: &RangeRow| -> bool
            ensures { result ≡ not (is_before key.entry.now row.now.span.lo) }
        { !key.is_before(row.span.lo()) },
    );
    begun - 1
}
