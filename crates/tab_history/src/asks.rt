//! What passes between the service and the store: what a request asks, and what the store answers.
ghost use Rattle.std.specs.Prelude.{◌≡◌, IfOk};

use crate::{Denied, TableNames};
use std::alloc::Global;
use tab_keys::{KeyText, Memory, TableName};
use tab_ops::Group;
use tab_page::{Options, Page};
use tab_rows::Row;

/// What a request asks of the store.
#[derive(Debug, Drop)]
pub enum Ask {
    /// A table of the name is to be made.
    Create(TableName),
    /// The table of the name is to be dropped.
    Drop(TableName),
    /// The first `top` names of tables, from `after` on where one is given.
    Tables {
        after: Option<TableName>,
        top: u16,
    },
    /// The row at one key.
    Get {
        name: TableName,
        pk: KeyText,
        rk: KeyText,
    },
    /// One page of a table's rows.
    Page {
        name: TableName,
        options: Options,
    },
    /// A change of rows.
    Change {
        group: Group,
    },
}

impl Ask {
    /// A copy, or that no memory was found for it.
    pub fn try_copy(&self, alloc: Global) -> Result<Ask, Memory>
        ensures { IfOk result (λ copy. copy ≡ self.now) }
    {
        Ok(match self {
            Ask::Create(name) => Ask::Create(name.try_copy(alloc)?),
            Ask::Drop(name) => Ask::Drop(name.try_copy(alloc)?),
            Ask::Tables { after, top } => Ask::Tables {
                after: copied_name(alloc, after)?,
                top: *top,
            },
            Ask::Get { name, pk, rk } => Ask::Get {
                name: name.try_copy(alloc)?,
                pk: pk.try_copy(alloc)?,
                rk: rk.try_copy(alloc)?,
            },
            Ask::Page { name, options } => Ask::Page {
                name: name.try_copy(alloc)?,
                options: options.try_copy(alloc)?,
            },
            Ask::Change { group } => Ask::Change {
                group: group.try_copy(alloc)?,
            },
        })
    }
}

/// What the store answers.
#[derive(Debug, Drop)]
pub enum Reply {
    /// The row that was asked for.
    Found(Row),
    /// The page that was asked for.
    Listed(Page),
    /// The change stands, with this tick.
    Changed(u64),
    /// The table was made, of this name as it was spelled.
    Made(TableName),
    /// The table was dropped.
    Dropped,
    /// The names that were asked for, and the one behind them.
    Tables {
        names: TableNames,
        next: Option<TableName>,
    },
    /// The request was refused, and nothing changed, except that at a disk's failure a change may have been made.
    Denied(Denied),
}

impl Reply {
    /// A copy, or that no memory was found for it.
    pub fn try_copy(&self, alloc: Global) -> Result<Reply, Memory>
        ensures { IfOk result (λ copy. copy ≡ self.now) }
    {
        Ok(match self {
            Reply::Found(row) => Reply::Found(row.try_copy(alloc)?),
            Reply::Listed(page) => Reply::Listed(page.try_copy(alloc)?),
            Reply::Changed(tick) => Reply::Changed(*tick),
            Reply::Made(name) => Reply::Made(name.try_copy(alloc)?),
            Reply::Dropped => Reply::Dropped,
            Reply::Tables { names, next } => Reply::Tables {
                names: names.try_copy(alloc)?,
                next: copied_name(alloc, next)?,
            },
            Reply::Denied(why) => Reply::Denied(*why),
        })
    }
}

fn copied_name(alloc: Global, name: &Option<TableName>) -> Result<Option<TableName>, Memory>
    ensures { IfOk result (λ copy. copy ≡ name.now) }
{
    match name {
        None => Ok(None),
        Some(name) => Ok(Some(name.try_copy(alloc)?)),
    }
}
