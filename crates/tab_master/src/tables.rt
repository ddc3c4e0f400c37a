//! The tables of a store in the order of their names without case.
ghost use Rattle.std.specs.Prelude.{◌≡◌, ◌≤◌, ◌↔◌, ◌==◌, [], None, IsTrue, IsFalse, AllPairs, OnOk, IfOk, MatchOption, take, slice_get};
ghost use Rattle.std.specs.Ordering.{is_lt};
ghost use Rattle.tab_keys.specs.Order.{name_cmp};
ghost use Rattle.tab_history.specs.World.{Named, table_of, with_name, names_from};
ghost use Rattle.tab_master.specs.Tables.{AreInOrder, spellings, StandsAt, BeginsAt};
ghost use Rattle.tab_master.specs.Ordered.{in_order};
ghost use Rattle.tab_master.specs.Spelled.{without_table, by_number};

use crate::TableRow;
use std::alloc::Global;
use std::cmp::Ordering;
use std::marker::Model;
use tab_history::TableNames;
use tab_keys::{Memory, TableName};

/// Tables in the order of their names without case, with room for more.
#[derive(Debug, Drop)]
pub struct Tables {
    tables: Vec<TableRow>,
}

impl Model for Tables {
    ghost use Rattle.std.specs.Prelude.{◌-◌, vec_len, vec_capacity};
    ghost use Rattle.tab_master.specs.Tables.{TablesView, AreInOrder};

    ghost Value = { TablesView };

    ghost view = { λ all. record { names = all.tables.items; spare = vec_capacity all.tables - vec_len all.tables } };

    ghost invariant = { λ all. AreInOrder all.tables.items };
}

impl Tables {
    /// No tables.
    pub fn new(alloc: Global) -> Tables
        ensures { result.names ≡ [] }
    {
        Tables {
            tables: Vec::new(alloc),
        }
    }

    /// These tables, which are in order.
    pub fn sorted(tables: Vec<TableRow>) -> Tables
        requires { AreInOrder tables.items }
        ensures { result.names ≡ tables.items }
    {
        Tables { tables }
    }

    /// The number of the table of that name, whatever its case.
    pub fn find(&self, name: &TableName) -> Option<u64>
        ensures { result ≡ table_of self.now.names name.now }
    {
        let index = find_index(self.tables.as_slice(), name)?;
        Some(self.tables[index].table)
    }

    /// Finds memory for one more table.
    pub fn reserve_one(&mut self) -> Result<(), Memory>
        ensures names { self.new.names ≡ self.old.names }
        ensures room { OnOk result (1 ≤ self.new.spare) }
    {
        self.tables.reserve(1).map_err(|_| Memory)
    }

    /// Adds a table of a name that none has, for which there is room.
    pub fn put(&mut self, name: TableName, table: u64)
        requires room { 1 ≤ self.old.spare }
        requires absent { table_of self.old.names name ≡ None }
        ensures { self.new.names ≡ with_name self.old.names (record { spelling = name; table = table }) }
    {
        let index = count_below(self.tables.as_slice(), &name);
        let _ = self.tables.insert(index, TableRow { table, name });
    }

    /// Takes the table of that number away, if there is one.
    pub fn take(&mut self, table: u64)
        ensures { self.new.names ≡ without_table self.old.names table }
    {
        self.tables.retain(|row| row.table != table);
    }

    /// A copy in memory of its own.
    pub fn try_copy(&self, alloc: Global) -> Result<Tables, Memory>
        ensures { IfOk result (λ copy. copy.names ≡ self.now.names) }
    {
        let tables = copied(alloc, self.tables.as_slice())?;
        Ok(Tables { tables })
    }

    /// The tables in the order of their numbers.
    pub fn numbered(&self, alloc: Global) -> Result<Vec<TableRow>, Memory>
        requires { AllPairs (λ (a b : Named). IsFalse (a.table == b.table)) self.now.names }
        ensures { IfOk result (λ rows. rows.items ≡ in_order by_number self.now.names) }
    {
        let mut rows = copied(alloc, self.tables.as_slice())?;
        rows.sort_unstable_by(|a, b| a.table.cmp(&b.table));
        Ok(rows)
    }

    /// Whether these are the tables, in the same order.
    pub fn are(&self, rows: &[TableRow]) -> bool
        ensures { IsTrue result ↔ (rows.now ≡ self.now.names) }
    {
        are_same(rows, self.tables.as_slice())
    }

    /// The first `top` names from one on, or from the first, and the one behind them. No other name is copied or
    /// walked over.
    pub fn list(
        &self,
        alloc: Global,
        after: &Option<TableName>,
        top: u16,
    ) -> Result<(TableNames, Option<TableName>), Memory>
        ensures names { IfOk result (λ listed. listed.0 ≡ take top (names_from self.now.names after.now)) }
        ensures next { IfOk result (λ listed. listed.1 ≡ slice_get (names_from self.now.names after.now) top) }
    {
        let rest = tables_from(self.tables.as_slice(), after);
        let first = &rest[..usize::from(top).min(rest.len())];
        let names = names_of(alloc, first)?;
        let next = name_at(alloc, rest, top)?;
        Ok((names, next))
    }
}

/// Copies of tables.
fn copied(alloc: Global, tables: &[TableRow]) -> Result<Vec<TableRow>, Memory>
    ensures { IfOk result (λ rows. rows.items ≡ tables.now) }
{
    let mut rows = Vec::new(alloc);
    for table in tables {
        rows.push(table.try_copy(alloc)?)?;
    }
    Ok(rows)
}

/// Whether two lists have the same tables in the same order.
fn are_same(rows: &[TableRow], others: &[TableRow]) -> bool
    ensures { IsTrue result ↔ (rows.now ≡ others.now) }
{
    if rows.len() != others.len() {
        return false;
    }
    for (index, row) in rows.iter().enumerate() {
        if !row.is(&others[index]) {
            return false;
        }
    }
    true
}

/// Where the table of that name stands among tables in order.
fn find_index(tables: &[TableRow], name: &TableName) -> Option<usize>
    requires { AreInOrder tables.now }
    ensures { MatchOption result (table_of tables.now name.now ≡ None) (StandsAt tables.now name.now) }
{
    let found = tables.binary_search_by(
        |table: &TableRow| -> Ordering
            ensures { result ≡ name_cmp table.now.spelling name.entry.now }
        { table.name.cmp(name) },
    );
    found.ok()
}

/// How many of the tables in order have a name below this one.
fn count_below(tables: &[TableRow], name: &TableName) -> usize
    requires { AreInOrder tables.now }
    ensures { BeginsAt tables.now name.now result }
{
    tables.partition_point(
        |table: &TableRow| -> bool
            ensures { result ≡ is_lt (name_cmp table.now.spelling name.entry.now) }
        { table.name < *name },
    )
}

/// The tables from a name on, or all of them.
fn tables_from<'a>(tables: &'a [TableRow], after: &Option<TableName>) -> &'a [TableRow]
    requires { AreInOrder tables.now }
    ensures { spellings result.now ≡ names_from tables.now after.now }
{
    match after {
        None => tables,
        Some(after) => &tables[count_below(tables, after)..],
    }
}

/// Copies of the names of the tables.
fn names_of(alloc: Global, tables: &[TableRow]) -> Result<TableNames, Memory>
    ensures { IfOk result (λ names. names ≡ spellings tables.now) }
{
    let mut names = Vec::new(alloc);
    for table in tables {
        if names.push(table.name.try_copy(alloc)?).is_err() {
            return Err(Memory);
        }
    }
    Ok(TableNames::new(names))
}

/// A copy of the name of the table at this index, where there is one.
fn name_at(alloc: Global, tables: &[TableRow], index: u16) -> Result<Option<TableName>, Memory>
    ensures { IfOk result (λ name. name ≡ slice_get (spellings tables.now) index) }
{
    match tables.get(usize::from(index)) {
        Some(table) => Ok(Some(table.name.try_copy(alloc)?)),
        None => Ok(None),
    }
}
