//! A store in memory, what a request comes to over it, and what that does to it.
ghost use Rattle.std.specs.Prelude.{◌≡◌, ◌≤◌, ℕ, [], length, IfOk, OnErr, Some};
ghost use Rattle.tab_drive.specs.Stores.{held_by, held_then, table_for, denial, answered, IsDecided, HasRoom, MayLack, found_or_not};
ghost use Rattle.tab_ops.specs.Changes.{applied};
ghost use Rattle.tab_page.specs.Pages.{page_below};
ghost use Rattle.tab_rows.specs.Rows.{row_at};
ghost use Rattle.tab_keys.specs.declared.bounds.Bound.TheVariants.{End};

use crate::ranges::{AllKeys, whole_page};
use crate::tables::Tables;
use std::alloc::Global;
use tab_edm::GREATEST;
use tab_history::{Ask, Denied, Reply};
use tab_keys::{Key, KeyText, Memory, TableName};
use tab_ops::{ChangeList, Changes, Group, OpRefused, plan};
use tab_page::Options;
use tab_rows::{Change, Rows};

/// A store in memory: tables, and the rows of all of them.
#[derive(Drop)]
pub struct Store {
    /// The tables, by name.
    pub tables: Tables,
    /// The number of the next table that is made.
    pub next_table: u64,
    /// The rows of all tables, in the order of their keys.
    pub rows: Rows,
    /// The least tick that the next change may have.
    pub next_tick: u64,
    /// All keys, which the one range has.
    pub all_keys: AllKeys,
}

/// What a request comes to: its reply, and what it does to the store.
#[derive(Drop)]
pub struct StoreAnswer {
    /// What the client is told.
    pub reply: Reply,
    /// What is done then.
    pub effect: Effect,
}

/// What a request does to a store.
#[derive(Drop)]
pub enum Effect {
    Nothing,
    /// Rows change.
    Change(Changes),
    /// A table of the name is made, with the next number.
    Create(TableName),
    /// The table of the name is dropped.
    Drop(TableName),
}

impl Store {
    /// A store without tables and rows.
    pub fn new(alloc: Global) -> Result<Store, Memory>
        ensures { IfOk result (λ store. held_by store ≡ record { names = []; next_table = 1; rows = []; next_tick = 0 }) }
    {
        Ok(Store {
            tables: Tables::new(alloc),
            next_table: 1,
            rows: Rows::new(alloc),
            next_tick: 0,
            all_keys: AllKeys::new(alloc)?,
        })
    }

    /// Decides a request, for which the table that it is about was looked up. Nothing that is kept changes, but for the
    /// room for what the request does.
    pub fn decide(
        &mut self,
        alloc: Global,
        ask: &Ask,
        table: Option<u64>,
        moment: u64,
    ) -> Result<StoreAnswer, Memory>
        requires { table ≡ table_for self.old.tables.names ask.now }
        ensures decided { IfOk result (λ decided. IsDecided (held_by self.old) moment ask.now decided) }
        ensures room { IfOk result (λ decided. HasRoom self.new decided.effect) }
        ensures held { held_by self.new ≡ held_by self.old }
        ensures lack { OnErr result (MayLack ask.now table) }
    {
        match ask {
            Ask::Create(name) => self.decide_create(alloc, name),
            Ask::Drop(name) => self.decide_drop(alloc, name),
            Ask::Tables { after, top } => self.decide_tables(alloc, after, *top),
            Ask::Get { pk, rk, .. } => match table {
                Some(table) => self.decide_get(alloc, table, pk, rk),
                None => Ok(StoreAnswer::denial(Denied::NoTable)),
            },
            Ask::Page { options, .. } => match table {
                Some(table) => self.decide_page(alloc, table, options),
                None => Ok(StoreAnswer::denial(Denied::NoTable)),
            },
            Ask::Change { group } => match table {
                Some(table) => self.decide_change(alloc, table, group, moment),
                None => Ok(StoreAnswer::denial(Denied::NoTable)),
            },
        }
    }

    /// A table to be made.
    fn decide_create(&mut self, alloc: Global, name: &TableName) -> Result<StoreAnswer, Memory>
        ensures decided { IfOk result (λ decided. (moment : ℕ) → IsDecided (held_by self.old) moment (Ask.Create name.now) decided) }
        ensures room { IfOk result (λ decided. HasRoom self.new decided.effect) }
        ensures held { held_by self.new ≡ held_by self.old }
    {
        if self.tables.find(name).is_some() {
            return Ok(StoreAnswer::denial(Denied::TableThere));
        }
        if self.next_table == u64::MAX {
            return Ok(StoreAnswer::denial(Denied::IdsSpent));
        }
        self.tables.reserve_one()?;
        Ok(StoreAnswer {
            reply: Reply::Made(name.try_copy(alloc)?),
            effect: Effect::Create(name.try_copy(alloc)?),
        })
    }

    /// A table to be dropped.
    fn decide_drop(&self, alloc: Global, name: &TableName) -> Result<StoreAnswer, Memory>
        ensures decided { IfOk result (λ decided. (moment : ℕ) → IsDecided (held_by self.now) moment (Ask.Drop name.now) decided) }
        ensures room { IfOk result (λ decided. HasRoom self.now decided.effect) }
    {
        if self.tables.find(name).is_none() {
            return Ok(StoreAnswer::denial(Denied::NoTable));
        }
        Ok(StoreAnswer {
            reply: Reply::Dropped,
            effect: Effect::Drop(name.try_copy(alloc)?),
        })
    }

    /// The names of tables.
    fn decide_tables(
        &self,
        alloc: Global,
        after: &Option<TableName>,
        top: u16,
    ) -> Result<StoreAnswer, Memory>
        ensures decided { IfOk result (λ decided. (moment : ℕ) → IsDecided (held_by self.now) moment (Ask.Tables after.now top) decided) }
        ensures room { IfOk result (λ decided. HasRoom self.now decided.effect) }
    {
        let (names, next) = self.tables.list(alloc, after, top)?;
        Ok(StoreAnswer::answered(Reply::Tables { names, next }))
    }

    /// The row at a key, if one is there.
    fn decide_get(
        &self,
        alloc: Global,
        table: u64,
        pk: &KeyText,
        rk: &KeyText,
    ) -> Result<StoreAnswer, Memory>
        ensures { IfOk result (λ decided. decided ≡ answered (found_or_not (row_at self.now.rows.rows (record { table = table; pk = pk.now; rk = rk.now })))) }
    {
        let key = Key {
            table,
            pk: pk.try_copy(alloc)?,
            rk: rk.try_copy(alloc)?,
        };
        match self.rows.get(&key) {
            Some(row) => Ok(StoreAnswer::answered(Reply::Found(row.try_copy(alloc)?))),
            None => Ok(StoreAnswer::denial(Denied::NotFound)),
        }
    }

    /// The page that a query asks for.
    fn decide_page(
        &self,
        alloc: Global,
        table: u64,
        options: &Options,
    ) -> Result<StoreAnswer, Memory>
        ensures { IfOk result (λ decided. decided ≡ answered (Reply.Listed (page_below self.now.rows.rows table options.now End))) }
    {
        let page = whole_page(alloc, &self.rows, table, &self.all_keys, options)?;
        Ok(StoreAnswer::answered(Reply::Listed(page)))
    }

    /// The changes of a group, or why it makes none.
    fn decide_change(
        &mut self,
        alloc: Global,
        table: u64,
        group: &Group,
        moment: u64,
    ) -> Result<StoreAnswer, Memory>
        ensures decided { IfOk result (λ decided. Some table ≡ table_for self.old.tables.names (Ask.Change group.now) → IsDecided (held_by self.old) moment (Ask.Change group.now) decided) }
        ensures room { IfOk result (λ decided. HasRoom self.new decided.effect) }
        ensures held { held_by self.new ≡ held_by self.old }
    {
        let tick = moment.max(self.next_tick);
        if tick > GREATEST {
            return Ok(StoreAnswer::denial(Denied::TimeSpent));
        }
        match plan(alloc, &self.rows, table, group, tick) {
            Ok(changes) => {
                self.rows.reserve(changes.list.len())?;
                Ok(StoreAnswer {
                    reply: Reply::Changed(tick),
                    effect: Effect::Change(changes),
                })
            }
            Err(OpRefused::Memory) => Err(Memory),
            Err(why) => Ok(StoreAnswer::denial(Denied::Op(why))),
        }
    }

    /// Does what a request was decided to do.
    pub fn apply(&mut self, effect: Effect)
        requires { HasRoom self.old effect }
        ensures { held_by self.new ≡ held_then (held_by self.old) effect }
    {
        match effect {
            Effect::Nothing => {}
            Effect::Change(changes) => {
                self.next_tick = changes.tick + 1;
                apply_changes(&mut self.rows, changes.list);
            }
            Effect::Create(name) => {
                self.tables.put(name, self.next_table);
                self.next_table += 1;
            }
            Effect::Drop(name) => self.tables.take(&name),
        }
    }
}

impl StoreAnswer {
    /// A request that is denied.
    pub fn denial(why: Denied) -> StoreAnswer
        ensures { result ≡ denial why }
    {
        StoreAnswer::answered(Reply::Denied(why))
    }

    /// A request that is answered, and changes nothing.
    fn answered(reply: Reply) -> StoreAnswer
        ensures { result ≡ answered reply }
    {
        StoreAnswer {
            reply,
            effect: Effect::Nothing,
        }
    }
}

/// Makes the changes, for which there is room.
fn apply_changes(rows: &mut Rows, changes: ChangeList)
    requires { length changes ≤ rows.old.spare }
    ensures { rows.new.rows ≡ applied rows.old.rows changes }
{
    for change in changes.into_vec() {
        match change {
            Change::Put(row) => {
                rows.put(row);
            }
            Change::Take(key) => {
                rows.take(&key);
            }
        }
    }
}
