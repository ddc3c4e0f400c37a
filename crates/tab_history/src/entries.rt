//! The entries of a history: what the store did, one step after another.
ghost use Rattle.std.specs.Prelude.{◌≡◌};

use crate::{MapRefused, TableNames, Turn};
use std::marker::Model;
use tab_keys::{Bound, KeyText, TableName};
use tab_ops::{Group, OpRefused};
use tab_page::{Options, Page};
use tab_rows::Row;

/// Why a request was denied.
#[derive(Clone, Copy, Debug, PartialEq, Eq)]
pub enum Denied {
    /// No table has the name.
    NoTable,
    /// A table has the name already.
    TableThere,
    /// No row is at the key.
    NotFound,
    /// An operation of its group was refused.
    Op(OpRefused),
    /// The key's range is being handed over by the plan of this number, or was several times since the request was asked,
    /// lastly by this one.
    Busy { plan: u64 },
    /// No moment is left for the tick of a change.
    TimeSpent,
    /// No number is left for a table.
    IdsSpent,
    /// A call of this disk failed. Where a change was asked for, it may have been made: an entry before this one says so.
    DiskFault { disk: u64 },
    /// No memory was found.
    Memory,
    /// At this byte of this disk stands what the store did not write.
    Damaged { disk: u64, at: u64 },
}

/// The lower bounds of the ranges, in the order of keys.
#[derive(Debug, Drop)]
pub struct Bounds {
    bounds: Vec<Bound>,
}

impl Model for Bounds {
    ghost use Rattle.std.specs.Prelude.{List, vec_items};
    ghost use Rattle.tab_keys.specs.declared.bounds.Bound.{Bound};

    ghost Value = { List Bound };

    ghost view = { λ all. all.bounds.items };
}

/// One step of a history. An `ask` is the number of the request that it belongs to.
#[derive(Debug, Drop)]
pub enum Entry {
    /// The ranges, from here on.
    Bounds(Bounds),
    /// A request's table name was looked up.
    Resolve {
        ask: u64,
        name: TableName,
        table: Option<u64>,
    },
    /// The row at a key was given, or that there is none.
    Get {
        ask: u64,
        table: u64,
        pk: KeyText,
        rk: KeyText,
        found: Option<Row>,
    },
    /// A page was given.
    Page {
        ask: u64,
        table: u64,
        options: Options,
        page: Page,
    },
    /// A group acted at the moment `now`: it stands with its tick, or was refused.
    Change {
        ask: u64,
        now: u64,
        table: u64,
        group: Group,
        result: Result<u64, OpRefused>,
    },
    /// A table was made with the number, or there was one of the name.
    Create {
        ask: u64,
        name: TableName,
        result: Option<u64>,
    },
    /// A table was dropped, or there was none of the name.
    Drop {
        ask: u64,
        name: TableName,
        stood: bool,
    },
    /// Names of tables were given, at most `top` from `after` on, and the one behind them.
    List {
        ask: u64,
        after: Option<TableName>,
        top: u16,
        names: TableNames,
        next: Option<TableName>,
    },
    /// A request was denied for a reason that the world alone does not give.
    Denied {
        ask: u64,
        why: Denied,
    },
    /// A plan came to its next state.
    Turn {
        plan: u64,
        turn: Turn,
    },
    /// A step of a plan, or a rewriting of a store, was refused; with the plan of which it is open since whether its commit
    /// stands.
    Refused {
        why: MapRefused,
        doubt: Option<u64>,
    },
    /// A device failed as an operation was written at the moment `now`: from here on it is open whether it stands.
    Maybe {
        ask: u64,
        now: u64,
        what: Doubt,
    },
    /// What was written was read again: the operation of the request acts here, or was never made.
    Settled {
        ask: u64,
        stood: bool,
    },
    /// All was stopped, and what was held in memory is gone.
    Stopped,
}

/// An operation on the world: one that was accepted, or one of which a failure left open whether it stands.
#[derive(Debug, Drop)]
pub enum Doubt {
    /// A change of rows with its tick.
    Change { table: u64, group: Group, tick: u64 },
    /// A table was made with its number.
    Create { name: TableName, table: u64 },
    /// A table was dropped.
    Drop { name: TableName },
}

impl Bounds {
    /// The bounds, in the order in which they stand.
    pub fn new(bounds: Vec<Bound>) -> Bounds
        ensures { result ≡ bounds.items }
    {
        Bounds { bounds }
    }

    /// The bounds, lent.
    pub fn as_slice(&self) -> &[Bound]
        ensures { result.now ≡ self.now }
    {
        self.bounds.as_slice()
    }
}
