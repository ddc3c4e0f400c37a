//! What is asked of the rows of one range, what it is answered, and what is told of it.
ghost use Rattle.std.specs.Prelude.{◌≡◌, IfOk};
ghost use Rattle.tab_range.specs.Commands.{command_key, first_key};

use std::alloc::Global;
use std::collections::LinkedList;
use tab_history::Reply;
use tab_keys::{Key, KeyText, Memory, Span};
use tab_ops::{Changes, Group};
use tab_page::{Options, start_key};
use tab_rows::Rows;
use tab_seats::Keyed;

/// What is asked of the rows of a table.
#[derive(Debug, Drop)]
pub struct Command {
    /// The table's number.
    pub table: u64,
    pub what: What,
}

/// What is asked of rows.
#[derive(Debug, Drop)]
pub enum What {
    /// The row at one key.
    Get { pk: KeyText, rk: KeyText },
    /// One page.
    Page(Options),
    /// A change.
    Change(Group),
}

impl Command {
    /// The key whose range the command is for: of a page that at which it begins to look, and of a change that of its
    /// first operation.
    pub fn key(&self, alloc: Global) -> Result<Key, Memory>
        ensures { IfOk result (λ key. key ≡ command_key self.now) }
    {
        match &self.what {
            What::Get { pk, rk } => key_of(alloc, self.table, pk, rk),
            What::Page(options) => start_key(alloc, self.table, options),
            What::Change(group) => first_key(alloc, self.table, group),
        }
    }

    /// A copy, or that no memory was found for it.
    pub fn try_copy(&self, alloc: Global) -> Result<Command, Memory>
        ensures { IfOk result (λ copy. copy ≡ self.now) }
    {
        Ok(Command {
            table: self.table,
            what: self.what.try_copy(alloc)?,
        })
    }
}

impl What {
    /// A copy, or that no memory was found for it.
    pub fn try_copy(&self, alloc: Global) -> Result<What, Memory>
        ensures { IfOk result (λ copy. copy ≡ self.now) }
    {
        Ok(match self {
            What::Get { pk, rk } => What::Get {
                pk: pk.try_copy(alloc)?,
                rk: rk.try_copy(alloc)?,
            },
            What::Page(options) => What::Page(options.try_copy(alloc)?),
            What::Change(group) => What::Change(group.try_copy(alloc)?),
        })
    }
}

/// What a command is answered: a reply, or changes that have yet to be made.
#[derive(Debug, Drop)]
pub enum Answer {
    Reply(Reply),
    Change(Changes),
}

/// What is told of a command, once it was answered.
#[derive(Debug, Drop)]
pub struct Told {
    pub command: Command,
    /// The tick of the change, if it was accepted.
    pub tick: Option<u64>,
}

impl Told {
    /// A copy, or that no memory was found for it.
    pub fn try_copy(&self, alloc: Global) -> Result<Told, Memory>
        ensures { IfOk result (λ copy. copy ≡ self.now) }
    {
        Ok(Told {
            command: self.command.try_copy(alloc)?,
            tick: self.tick,
        })
    }
}

/// What stood before the first command was told. Only clauses see it: no value of it is made.
#[derive(Drop)]
pub struct Opening {
    /// The rows of all ranges.
    pub rows: Rows,
    /// The next tick of each range.
    pub next_ticks: LinkedList<NextTick>,
}

/// The least tick that the next change of these keys may have.
#[derive(Drop)]
pub struct NextTick {
    pub span: Span,
    pub next_tick: u64,
}

impl Keyed for Told {
    ghost use Rattle.tab_range.specs.Commands.{command_key};

    type Opening = Opening;

    ghost key = { λ told. command_key told.command };
}

pub(crate) fn key_of(alloc: Global, table: u64, pk: &KeyText, rk: &KeyText) -> Result<Key, Memory>
    ensures { IfOk result (λ key. key ≡ record { table = table; pk = pk.now; rk = rk.now }) }
{
    Ok(Key {
        table,
        pk: pk.try_copy(alloc)?,
        rk: rk.try_copy(alloc)?,
    })
}

// The key of the first operation. A group has one.
fn first_key(alloc: Global, table: u64, group: &Group) -> Result<Key, Memory>
    ensures { IfOk result (λ key. key ≡ first_key table group.now) }
{
    match group.items().first() {
        Some(item) => key_of(alloc, table, &item.pk, &item.rk),
        None => unreachable!(),
    }
}
