//! Rows in the order of their keys: a sorted list, in which a look-up is a binary search, and a change moves the
//! rows behind it.

ghost use Rattle.std.specs.Prelude.{◌≡◌, ℕ, ◌<◌, ◌≤◌, ◌+◌, ◌↔◌, List, [], length, OnOk, MatchResult, None, IsTrue, drop, not};
ghost use Rattle.std.specs.Option.{option_copied};
ghost use Rattle.tab_keys.specs.Order.{key_cmp, key_lt};
ghost use Rattle.tab_rows.specs.Rows.{AreRising, row_at, with_row, without_row, rows_from, rows_past, is_past};
ghost use Rattle.tab_rows.specs.Indices.{StandsAt, BelongsAt};

use crate::{Cursor, Row};
use std::alloc::Global;
use std::cmp::Ordering;
use std::marker::Model;
use std::mem;
use tab_keys::{Key, KeyText, Memory};

/// Rows in the strictly rising order of their keys, with room for more.
#[derive(Debug, Drop)]
pub struct Rows {
    rows: Vec<Row>,
}

impl Model for Rows {
    ghost use Rattle.std.specs.Prelude.{◌-◌, vec_len, vec_capacity};
    ghost use Rattle.tab_rows.specs.Rows.{RowsView, AreRising};

    ghost Value = { RowsView };

    ghost view = { λ all. record { rows = all.rows.items; spare = vec_capacity all.rows - vec_len all.rows } };

    ghost invariant = { λ all. AreRising all.rows.items };
}

impl Rows {
    /// No rows.
    pub fn new(alloc: Global) -> Rows
        ensures { result.rows ≡ [] }
    {
        Rows {
            rows: Vec::new(alloc),
        }
    }

    /// How many rows there are.
    pub fn len(&self) -> usize
        ensures len { result ≡ length self.now.rows }
        ensures rising { AreRising self.now.rows }
    {
        self.rows.len()
    }

    /// All rows, in their order.
    pub fn as_slice(&self) -> &[Row]
        ensures rows { result.now ≡ self.now.rows }
        ensures rising { AreRising self.now.rows }
    {
        self.rows.as_slice()
    }

    /// The row at the key.
    pub fn get(&self, key: &Key) -> Option<&Row>
        ensures row { option_copied result ≡ row_at self.now.rows key.now }
        ensures rising { AreRising self.now.rows }
    {
        match find_index(self.rows.as_slice(), key) {
            Ok(index) => Some(&self.rows[index]),
            Err(_) => None,
        }
    }

    /// Finds memory, so that so many more rows can be put.
    pub fn reserve(&mut self, more: usize) -> Result<(), Memory>
        ensures rows { self.new.rows ≡ self.old.rows }
        ensures spare { self.old.spare ≤ self.new.spare }
        ensures ok { OnOk result (more ≤ self.new.spare) }
    {
        self.rows.reserve(more)?;
        Ok(())
    }

    /// Puts the row at its key, and gives the one that stood there.
    pub fn put(&mut self, row: Row) -> Option<Row>
        requires { row_at self.old.rows row.key ≡ None → 0 < self.old.spare }
        ensures rows { self.new.rows ≡ with_row self.old.rows row }
        ensures before { result ≡ row_at self.old.rows row.key }
        ensures spare { self.old.spare ≤ self.new.spare + 1 }
        ensures room { self.new.spare + length self.new.rows ≡ self.old.spare + length self.old.rows }
    {
        match find_index(self.rows.as_slice(), &row.key) {
            Ok(index) => Some(mem::replace(&mut self.rows[index], row)),
            Err(index) => {
                let _ = self.rows.insert(index, row);
                None
            }
        }
    }

    /// Takes the row at the key out.
    pub fn take(&mut self, key: &Key) -> Option<Row>
        ensures rows { self.new.rows ≡ without_row self.old.rows key.now }
        ensures before { result ≡ row_at self.old.rows key.now }
        ensures spare { self.old.spare ≤ self.new.spare }
        ensures room { self.new.spare + length self.new.rows ≡ self.old.spare + length self.old.rows }
    {
        match find_index(self.rows.as_slice(), key) {
            Ok(index) => Some(self.rows.remove(index)),
            Err(_) => None,
        }
    }

    /// Lends the rows at and above the key, in their order.
    pub fn from(&self, key: &Key) -> Cursor<'_>
        ensures rest { result ≡ rows_from self.now.rows key.now }
        ensures rising { AreRising self.now.rows }
    {
        let count = count_below(self.rows.as_slice(), key);
        Cursor::over(&self.rows[count..])
    }

    /// Lends the rows above every key of the table and partition, in their order.
    pub fn past(&self, table: u64, pk: &KeyText) -> Cursor<'_>
        ensures rest { result ≡ rows_past self.now.rows table pk.now }
        ensures rising { AreRising self.now.rows }
    {
        let count = count_up_to(self.rows.as_slice(), table, pk);
        Cursor::over(&self.rows[count..])
    }
}

/// Where the key stands among rising rows, or else where it belongs.
fn find_index(rows: &[Row], key: &Key) -> Result<usize, usize>
    requires { AreRising rows.now }
    ensures { MatchResult result (StandsAt rows.now key.now) (BelongsAt rows.now key.now) }
{
    rows.binary_search_by(
        |row: &Row| -> Ordering
            ensures { result ≡ key_cmp row.now.key key.entry.now }
        { row.key.cmp(key) },
    )
}

/// How many of the rising rows lie below the key.
fn count_below(rows: &[Row], key: &Key) -> usize
    requires { AreRising rows.now }
    ensures within { result ≤ length rows.now }
    ensures rest { drop result rows.now ≡ rows_from rows.now key.now }
{
    rows.partition_point(
        |row: &Row| -> bool
            ensures { result ≡ key_lt row.now.key key.entry.now }
        { row.key < *key },
    )
}

/// How many of the rising rows do not lie above every key of the table and partition.
fn count_up_to(rows: &[Row], table: u64, pk: &KeyText) -> usize
    requires { AreRising rows.now }
    ensures within { result ≤ length rows.now }
    ensures rest { drop result rows.now ≡ rows_past rows.now table pk.now }
{
    rows.partition_point(
        |row: &Row| -> bool
            ensures { result ≡ not (is_past table pk.entry.now row.now.key) }
        { !is_past(table, pk, &row.key) },
    )
}

/// Whether the key lies above every key of the table and partition, whatever its row key.
fn is_past(table: u64, pk: &KeyText, key: &Key) -> bool
    ensures test { result ≡ is_past table pk.now key.now }
    ensures above { IsTrue result ↔ ((rk : List ℕ) → IsTrue (key_lt (record { table = table; pk = pk.now; rk = rk }) key.now)) }
{
    table.cmp(&key.table).then_with(|| pk.cmp(&key.pk)).is_lt()
}
