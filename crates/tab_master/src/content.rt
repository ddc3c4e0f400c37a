//! The names of tables as they are kept in memory, and what the frames of their store stand for.

ghost use Rattle.std.specs.Prelude.{◌≡◌, ◌≤◌, ◌↔◌, None, take, slice_get, IfOk, OnOk, IsTrue, IsPermutation, AllPairs, IsFalse};
ghost use Rattle.std.specs.Ordering.{is_lt};
ghost use Rattle.tab_history.specs.World.{Named, table_of, names_from};
ghost use Rattle.tab_master.specs.Spelled.{by_name, by_number, names_kind, AreNames};
ghost use Rattle.tab_master.specs.Ordered.{in_order};
ghost use Rattle.tab_codec.specs.declared.frames.Frame.TheVariants as frames;
ghost use Rattle.tab_journal.specs.Areas.{AreFrames};
ghost use Rattle.tab_master.specs.Names.{NamesStand, names_sense};

use crate::checkpoint::listing_frames;
use crate::listing::Listing;
use crate::tables::Tables;
use crate::{NamesStep, TableRow};
use std::alloc::Global;
use std::marker::Model;
use tab_codec::{Frame, Prepared, prepare};
use tab_history::TableNames;
use tab_journal::Content;
use tab_keys::{Memory, TableName};

/// The names of tables with the number of the next one, and room for more.
#[derive(Debug, Drop)]
pub struct NamesContent {
    next_table: u64,
    tables: Tables,
}

impl Model for NamesContent {
    ghost use Rattle.tab_master.specs.Names.{NamesView};
    ghost use Rattle.tab_master.specs.Spelled.{SpelledNames, AreNames};

    ghost Value = { NamesView };

    ghost view = { λ content. record { told = record { next_table = content.next_table; names = content.tables.names }; spare = content.tables.spare } };

    ghost invariant = { λ content. AreNames (record { next_table = content.next_table; names = content.tables.names }) };
}

impl NamesContent {
    /// What the frames of a store stand for.
    pub fn read(alloc: Global, frames: &[Frame]) -> Result<NamesContent, Memory>
        requires { AreFrames names_kind frames.now }
        ensures { IfOk result (λ content. NamesStand frames.now content.told) }
    {
        let listing = Listing::told(alloc, frames)?.unwrap();
        let tables = sorted(listing.tables);
        Ok(NamesContent {
            next_table: listing.next_table as u64,
            tables: Tables::sorted(tables),
        })
    }

    /// The number of the table of that name, whatever its case.
    pub fn find(&self, name: &TableName) -> Option<u64>
        ensures is { result ≡ table_of self.now.told.names name.now }
        ensures orderly { AreNames self.now.told }
    {
        self.tables.find(name)
    }

    /// The number that the next table is made with.
    pub fn next_table(&self) -> u64
        ensures { result ≡ self.now.told.next_table }
    {
        self.next_table
    }

    /// The first `top` names from one on, or from the first, and the one behind them.
    pub fn list(
        &self,
        alloc: Global,
        after: &Option<TableName>,
        top: u16,
    ) -> Result<(TableNames, Option<TableName>), Memory>
        ensures names { IfOk result (λ listed. listed.0 ≡ take top (names_from self.now.told.names after.now)) }
        ensures next { IfOk result (λ listed. listed.1 ≡ slice_get (names_from self.now.told.names after.now) top) }
    {
        self.tables.list(alloc, after, top)
    }

    /// The tables in the order of their numbers.
    pub fn numbered(&self, alloc: Global) -> Result<Vec<TableRow>, Memory>
        ensures { IfOk result (λ rows. rows.items ≡ in_order by_number self.now.told.names) }
    {
        self.tables.numbered(alloc)
    }

    /// A copy in memory of its own.
    fn try_copy(&self, alloc: Global) -> Result<NamesContent, Memory>
        ensures { IfOk result (λ copy. copy.told ≡ self.now.told) }
    {
        Ok(NamesContent {
            next_table: self.next_table,
            tables: self.tables.try_copy(alloc)?,
        })
    }

    /// Finds memory for one more table.
    pub fn reserve_one(&mut self) -> Result<(), Memory>
        ensures told { self.new.told ≡ self.old.told }
        ensures room { OnOk result (1 ≤ self.new.spare) }
    {
        self.tables.reserve_one()
    }
}

impl NamesContent {
    /// Whether the tables that frames told of are those that are held.
    fn is_listed(&self, listing: Listing) -> bool
        ensures orderly { AreNames self.now.told }
        ensures same { IsTrue result ↔ ((listing.next_table ≡ self.now.told.next_table) × (in_order by_name listing.names ≡ self.now.told.names)) }
    {
        listing.next_table == u128::from(self.next_table)
            && self.tables.are(&sorted(listing.tables))
    }
}

impl Content for NamesContent {
    type Step = NamesStep;

    ghost sense = { names_sense };

    ghost goes_on = { λ list told step are fits stand. fits.goes_on list stand };

    ghost checks_out = { λ list told checkpoint. (checkpoint.are, checkpoint.stand) };

    fn prepare(&self, alloc: Global, step: &NamesStep) -> Result<Prepared, Memory> {
        match step {
            NamesStep::Create { table, name } => create_frame(alloc, *table, name),
            NamesStep::Drop { table } => drop_frame(alloc, *table),
        }
    }

    fn pieces(&self, alloc: Global) -> Result<Vec<Prepared>, Memory> {
        let rows = self.tables.numbered(alloc)?;
        listing_frames(alloc, self.next_table, &rows)
    }

    fn apply(&mut self, step: NamesStep) {
        match step {
            NamesStep::Create { table, name } => {
                self.tables.put(name, table);
                self.next_table = table + 1;
            }
            NamesStep::Drop { table } => self.tables.take(table),
        }
    }

    fn is_read(&self, alloc: Global, frames: &[Frame]) -> Result<bool, Memory> {
        match Listing::told(alloc, frames)? {
            Some(listing) => Ok(self.is_listed(listing)),
            None => Ok(false),
        }
    }

    fn is_read_with(
        &self,
        alloc: Global,
        step: &NamesStep,
        frames: &[Frame],
    ) -> Result<bool, Memory> {
        let mut stepped = self.try_copy(alloc)?;
        stepped.reserve_one()?;
        stepped.apply(step.try_copy(alloc)?);
        stepped.is_read(alloc, frames)
    }
}

/// The frame of a table that is made.
fn create_frame(alloc: Global, table: u64, name: &TableName) -> Result<Prepared, Memory>
    ensures { IfOk result (λ prepared. prepared ≡ frames.Create table name.now) }
{
    let _text = name.as_str();
    let frame = Frame::Create {
        table,
        name: name.try_copy(alloc)?,
    };
    prepare(alloc, &frame)
}

/// The frame of a table that is dropped.
fn drop_frame(alloc: Global, table: u64) -> Result<Prepared, Memory>
    ensures { IfOk result (λ prepared. prepared ≡ frames.Drop table) }
{
    prepare(alloc, &Frame::Drop { table })
}

/// Tables in the order of their names.
fn sorted(mut tables: Vec<TableRow>) -> Vec<TableRow>
    ensures elements { IsPermutation tables.items result.items }
    ensures in_order { AllPairs (λ (a b : Named). IsFalse (is_lt (by_name b a))) result.items }
{
    tables.sort_unstable_by(|a, b| a.name.cmp(&b.name));
    tables
}
