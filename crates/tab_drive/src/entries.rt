//! The entries of a history that a decided request takes, from what it asks and the reply to it.
ghost use Rattle.std.specs.Prelude.{◌≡◌};
ghost use Rattle.tab_drive.specs.Sessions.{create_entry, drop_entry, list_entry, get_entry, page_entry, change_entry, table_entry, row_entry};

use tab_history::{Ask, Denied, Entry, Reply};
use tab_keys::{KeyText, TableName};
use tab_ops::Group;
use tab_page::Options;

/// The entry of the answer to a command on tables, of which the next one to be made has that number.
pub fn table_entry(number: u64, next_table: u64, ask: Ask, reply: Reply) -> Entry
    ensures { result ≡ table_entry number next_table ask reply }
{
    match ask {
        Ask::Create(name) => create_entry(number, next_table, name, reply),
        Ask::Drop(name) => drop_entry(number, name, reply),
        Ask::Tables { after, top } => list_entry(number, after, top, reply),
        _ => denied_entry(number, Denied::Memory),
    }
}

/// The entry of the answer to a request about the rows of a table.
pub fn row_entry(number: u64, moment: u64, table: u64, ask: Ask, reply: Reply) -> Entry
    ensures { result ≡ row_entry number moment table ask reply }
{
    match ask {
        Ask::Get { pk, rk, .. } => get_entry(number, table, pk, rk, reply),
        Ask::Page { options, .. } => page_entry(number, table, options, reply),
        Ask::Change { group } => change_entry(number, moment, table, group, reply),
        _ => denied_entry(number, Denied::Memory),
    }
}

fn create_entry(number: u64, next_table: u64, name: TableName, reply: Reply) -> Entry
    ensures { result ≡ create_entry number next_table name reply }
{
    let result = match reply {
        Reply::Made(_) => Some(next_table),
        Reply::Denied(Denied::TableThere) => None,
        Reply::Denied(Denied::IdsSpent) => return denied_entry(number, Denied::IdsSpent),
        _ => return denied_entry(number, Denied::Memory),
    };
    Entry::Create {
        ask: number,
        name,
        result,
    }
}

fn drop_entry(number: u64, name: TableName, reply: Reply) -> Entry
    ensures { result ≡ drop_entry number name reply }
{
    let stood = match reply {
        Reply::Dropped => true,
        Reply::Denied(Denied::NoTable) => false,
        _ => return denied_entry(number, Denied::Memory),
    };
    Entry::Drop {
        ask: number,
        name,
        stood,
    }
}

fn list_entry(number: u64, after: Option<TableName>, top: u16, reply: Reply) -> Entry
    ensures { result ≡ list_entry number after top reply }
{
    match reply {
        Reply::Tables { names, next } => Entry::List {
            ask: number,
            after,
            top,
            names,
            next,
        },
        _ => denied_entry(number, Denied::Memory),
    }
}

fn get_entry(number: u64, table: u64, pk: KeyText, rk: KeyText, reply: Reply) -> Entry
    ensures { result ≡ get_entry number table pk rk reply }
{
    let found = match reply {
        Reply::Found(row) => Some(row),
        Reply::Denied(Denied::NotFound) => None,
        _ => return denied_entry(number, Denied::Memory),
    };
    Entry::Get {
        ask: number,
        table,
        pk,
        rk,
        found,
    }
}

fn page_entry(number: u64, table: u64, options: Options, reply: Reply) -> Entry
    ensures { result ≡ page_entry number table options reply }
{
    match reply {
        Reply::Listed(page) => Entry::Page {
            ask: number,
            table,
            options,
            page,
        },
        _ => denied_entry(number, Denied::Memory),
    }
}

fn change_entry(number: u64, moment: u64, table: u64, group: Group, reply: Reply) -> Entry
    ensures { result ≡ change_entry number moment table group reply }
{
    let result = match reply {
        Reply::Changed(tick) => Ok(tick),
        Reply::Denied(Denied::Op(refusal)) => Err(refusal),
        Reply::Denied(Denied::TimeSpent) => return denied_entry(number, Denied::TimeSpent),
        _ => return denied_entry(number, Denied::Memory),
    };
    Entry::Change {
        ask: number,
        now: moment,
        table,
        group,
        result,
    }
}

/// The entry of a request that is denied whatever the world is.
fn denied_entry(number: u64, why: Denied) -> Entry
    ensures { result ≡ Entry.Denied number why }
{
    Entry::Denied { ask: number, why }
}
