//! Reads keys, bounds and spans, each above the one before where there is one.

ghost use Rattle.std.specs.Prelude.{◌≡◌};
ghost use Rattle.std.specs.Option.{option_copied};
ghost use Rattle.std.specs.Int.{w64};
ghost use Rattle.tab_codec.specs.Reading.{Gives, allowing, number_at, key_text_at, table_rises, partition_rises, row_key_at, key_at, bound_table_rises, partition_at, bound_of, bound_at, span_from, span_at};

use crate::fields::{read_case, read_key_text, read_u64};
use crate::stops::Stop;
use std::alloc::Global;
use tab_keys::{Bound, Key, KeyText, Span};

/// A key above the one before.
#[tactic(auto, unfolding(crate::specs::Reading::key_at))]
pub fn read_key<'a>(
    alloc: Global,
    before: Option<&Key>,
    bytes: &'a [u8],
) -> Result<(Key, &'a [u8]), Stop>
    ensures { Gives (λ x. (x.0, x.1.now)) result (key_at (option_copied before.entry) bytes.now) }
{
    let (table, rest) = read_table(before, bytes)?;
    let (pk, rest) = read_partition(alloc, before, table, rest)?;
    read_row_key(alloc, before, table, pk, rest)
}

#[tactic(auto, unfolding(crate::specs::Reading::allowing))]
fn read_table<'a>(before: Option<&Key>, bytes: &'a [u8]) -> Result<(u64, &'a [u8]), Stop>
    ensures { Gives (λ x. (x.0, x.1.now)) result (allowing (table_rises (option_copied before.entry)) (number_at w64) bytes.now) }
{
    let (table, rest) = read_u64(bytes)?;
    match before {
        Some(before) if before.table > table => Err(Stop::Broken(bytes.len())),
        _ => Ok((table, rest)),
    }
}

#[tactic(auto, unfolding(crate::specs::Reading::allowing))]
fn read_partition<'a>(
    alloc: Global,
    before: Option<&Key>,
    table: u64,
    bytes: &'a [u8],
) -> Result<(KeyText, &'a [u8]), Stop>
    ensures { Gives (λ x. (x.0, x.1.now)) result (allowing (partition_rises (option_copied before.entry) table) key_text_at bytes.now) }
{
    let (pk, rest) = read_key_text(alloc, bytes)?;
    if partition_rises(before, table, &pk) {
        Ok((pk, rest))
    } else {
        Err(Stop::Broken(bytes.len()))
    }
}

fn partition_rises(before: Option<&Key>, table: u64, pk: &KeyText) -> bool
    ensures { result ≡ partition_rises (option_copied before.entry) table pk.now }
{
    match before {
        Some(before) => before
            .table
            .cmp(&table)
            .then_with(|| before.pk.cmp(pk))
            .is_le(),
        None => true,
    }
}

#[tactic(auto, unfolding(crate::specs::Reading::row_key_at, crate::specs::Reading::allowing))]
fn read_row_key<'a>(
    alloc: Global,
    before: Option<&Key>,
    table: u64,
    pk: KeyText,
    bytes: &'a [u8],
) -> Result<(Key, &'a [u8]), Stop>
    ensures { Gives (λ x. (x.0, x.1.now)) result (row_key_at (option_copied before.entry) table pk bytes.now) }
{
    let (rk, rest) = read_key_text(alloc, bytes)?;
    let key = Key { table, pk, rk };
    match before {
        Some(before) if *before >= key => Err(Stop::Broken(bytes.len())),
        _ => Ok((key, rest)),
    }
}

/// A bound above the one before.
#[tactic(auto, unfolding(crate::specs::Reading::bound_at, crate::specs::Reading::bound_of, crate::specs::Reading::allowing))]
pub fn read_bound<'a>(
    alloc: Global,
    before: Option<&Bound>,
    bytes: &'a [u8],
) -> Result<(Bound, &'a [u8]), Stop>
    ensures { Gives (λ x. (x.0, x.1.now)) result (bound_at (option_copied before.entry) bytes.now) }
{
    let (which, rest) = read_case(0, 1, bytes)?;
    if let Some(Bound::End) = before {
        return Err(Stop::Broken(bytes.len()));
    }
    if which == 0 {
        read_start(alloc, before, rest)
    } else {
        Ok((Bound::End, rest))
    }
}

/// The bound at the start of a partition.
#[tactic(auto, unfolding(crate::specs::Reading::bound_of))]
fn read_start<'a>(
    alloc: Global,
    before: Option<&Bound>,
    bytes: &'a [u8],
) -> Result<(Bound, &'a [u8]), Stop>
    ensures { Gives (λ x. (x.0, x.1.now)) result (bound_of (option_copied before.entry) 0 bytes.now) }
{
    let (table, rest) = read_bound_table(before, bytes)?;
    read_bound_partition(alloc, before, table, rest)
}

#[tactic(auto, unfolding(crate::specs::Reading::allowing))]
fn read_bound_table<'a>(before: Option<&Bound>, bytes: &'a [u8]) -> Result<(u64, &'a [u8]), Stop>
    ensures { Gives (λ x. (x.0, x.1.now)) result (allowing (bound_table_rises (option_copied before.entry)) (number_at w64) bytes.now) }
{
    let (table, rest) = read_u64(bytes)?;
    let rises = match before {
        Some(Bound::At(before, _)) => *before <= table,
        Some(Bound::End) => false,
        None => true,
    };
    if rises {
        Ok((table, rest))
    } else {
        Err(Stop::Broken(bytes.len()))
    }
}

#[tactic(auto, unfolding(crate::specs::Reading::partition_at, crate::specs::Reading::allowing))]
fn read_bound_partition<'a>(
    alloc: Global,
    before: Option<&Bound>,
    table: u64,
    bytes: &'a [u8],
) -> Result<(Bound, &'a [u8]), Stop>
    ensures { Gives (λ x. (x.0, x.1.now)) result (partition_at (option_copied before.entry) table bytes.now) }
{
    let (pk, rest) = read_key_text(alloc, bytes)?;
    let bound = Bound::At(table, pk);
    match before {
        Some(before) if *before >= bound => Err(Stop::Broken(bytes.len())),
        _ => Ok((bound, rest)),
    }
}

#[tactic(auto, unfolding(crate::specs::Reading::span_at))]
pub fn read_span(alloc: Global, bytes: &[u8]) -> Result<(Span, &[u8]), Stop>
    ensures { Gives (λ x. (x.0, x.1.now)) result (span_at bytes.now) }
{
    let (lo, rest) = read_bound(alloc, None, bytes)?;
    read_span_from(alloc, lo, rest)
}

/// The span from a low bound on, whose high bound is read.
#[tactic(auto, unfolding(crate::specs::Reading::span_from))]
pub fn read_span_from(alloc: Global, lo: Bound, bytes: &[u8]) -> Result<(Span, &[u8]), Stop>
    ensures { Gives (λ x. (x.0, x.1.now)) result (span_from lo bytes.now) }
{
    let (hi, rest) = read_bound(alloc, Some(&lo), bytes)?;
    match Span::new(lo, hi) {
        Some(span) => Ok((span, rest)),
        None => Err(Stop::Broken(bytes.len())),
    }
}
