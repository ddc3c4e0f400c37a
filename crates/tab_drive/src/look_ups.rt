//! The look-up of the table whose rows a request is about.
ghost use Rattle.std.specs.Prelude.{◌≡◌, ◌<◌, length, IfOk, option_map, option_and_then};
ghost use Rattle.std.specs.Option.{option_copied};
ghost use Rattle.tab_drive.specs.RunStates.{name_of};
ghost use Rattle.tab_drive.specs.Sessions.{look_up};

use crate::tables::Tables;
use std::alloc::Global;
use tab_history::Ask;
use tab_keys::{Memory, TableName};

/// A name that was looked up, and the number of its table, if it is there.
#[derive(Drop)]
pub struct LookUp {
    /// The name as the request spells it.
    pub name: TableName,
    /// The number of the table of that name.
    pub table: Option<u64>,
}

/// The look-up of the table whose rows a request is about. A command on tables has none.
pub fn look_up(alloc: Global, tables: &Tables, ask: &Ask) -> Result<Option<LookUp>, Memory>
    ensures { IfOk result (λ look. look ≡ look_up tables.now.names ask.now) }
{
    match name_of(ask) {
        Some(name) => Ok(Some(LookUp {
            name: name.try_copy(alloc)?,
            table: tables.find(name),
        })),
        None => Ok(None),
    }
}

/// The table that was found.
pub fn table_of(look: &Option<LookUp>) -> Option<u64>
    ensures { result ≡ option_and_then (λ found. found.table) look.now }
{
    match look {
        Some(found) => found.table,
        None => None,
    }
}

/// The name of the table whose rows a request is about.
fn name_of(ask: &Ask) -> Option<&TableName>
    ensures { option_copied result ≡ name_of ask.now }
{
    match ask {
        Ask::Create(_) | Ask::Drop(_) | Ask::Tables { .. } => None,
        Ask::Get { name, .. } => Some(name),
        Ask::Page { name, .. } => Some(name),
        Ask::Change { group } => {
            let first = &group.items()[0];
            Some(&first.name)
        }
    }
}
