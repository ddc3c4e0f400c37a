//! The tables of which frames told, in the order in which they came.

ghost use Rattle.std.specs.Prelude.{◌≡◌, ◌++◌, map, IfOk, OnOk, None, Some};
ghost use Rattle.tab_journal.specs.Fitting.{told_by};
ghost use Rattle.tab_master.specs.Spelled.{named, names_kind, without_table};
ghost use Rattle.tab_master.specs.Listing.{listing_after, listing_of};

use crate::TableRow;
use std::alloc::Global;
use std::marker::Model;
use tab_codec::Frame;
use tab_keys::{Memory, TableName};

/// Tables as frames told of them, and the number of the next one, which may be past 64 bits.
#[derive(Debug, Drop)]
pub struct Listing {
    pub next_table: u128,
    pub tables: Vec<TableRow>,
}

impl Model for Listing {
    ghost use Rattle.std.specs.Prelude.{vec_items};
    ghost use Rattle.tab_master.specs.Spelled.{SpelledNames};

    ghost Value = { SpelledNames };

    ghost view = { λ listing. record { next_table = listing.next_table; names = listing.tables.items } };
}

impl Listing {
    /// What the frames told; nothing where none of them listed names first.
    pub fn told(alloc: Global, frames: &[Frame]) -> Result<Option<Listing>, Memory>
        ensures { IfOk result (λ listing. listing ≡ listing_of (told_by names_kind frames.now)) }
    {
        let mut listing = None;
        for frame in frames {
            listing = after(alloc, listing, frame)?;
        }
        Ok(listing)
    }

    /// Takes in what a frame more tells.
    fn take(&mut self, alloc: Global, frame: &Frame) -> Result<(), Memory>
        ensures { OnOk result (Some self.new ≡ listing_after (Some self.old) frame.now) }
    {
        match frame {
            Frame::Names { names, .. } => append(alloc, &mut self.tables, names.as_slice()),
            Frame::Create { table, name } => {
                self.tables.push(row(alloc, *table, name)?)?;
                self.next_table = u128::from(*table) + 1;
                Ok(())
            }
            Frame::Drop { table } => {
                drop_table(&mut self.tables, *table);
                Ok(())
            }
            _ => Ok(()),
        }
    }
}

/// What a frame more tells.
fn after(alloc: Global, listing: Option<Listing>, frame: &Frame) -> Result<Option<Listing>, Memory>
    ensures { IfOk result (λ next. next ≡ listing_after listing frame.now) }
{
    match listing {
        Some(mut listing) => {
            listing.take(alloc, frame)?;
            Ok(Some(listing))
        }
        None => first(alloc, frame),
    }
}

/// What a first frame tells.
fn first(alloc: Global, frame: &Frame) -> Result<Option<Listing>, Memory>
    ensures { IfOk result (λ next. next ≡ listing_after None frame.now) }
{
    let Frame::Names { next_table, names } = frame else {
        return Ok(None);
    };
    let mut tables = Vec::new(alloc);
    append(alloc, &mut tables, names.as_slice())?;
    Ok(Some(Listing {
        next_table: u128::from(*next_table),
        tables,
    }))
}

/// Takes the table of a number away, if there is one.
fn drop_table(tables: &mut Vec<TableRow>, table: u64)
    ensures { tables.new.items ≡ without_table tables.old.items table }
{
    tables.retain(|other| other.table != table);
}

/// Puts copies of names behind tables.
fn append(
    alloc: Global,
    tables: &mut Vec<TableRow>,
    names: &[(u64, TableName)],
) -> Result<(), Memory>
    ensures { OnOk result (tables.new.items ≡ tables.old.items ++ map named names.now) }
{
    for name in names {
        tables.push(row(alloc, name.0, &name.1)?)?;
    }
    Ok(())
}

/// A table with a copy of its name.
fn row(alloc: Global, table: u64, name: &TableName) -> Result<TableRow, Memory>
    ensures { IfOk result (λ row. row ≡ record { spelling = name.now; table = table }) }
{
    Ok(TableRow {
        table,
        name: name.try_copy(alloc)?,
    })
}
