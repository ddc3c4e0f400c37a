//! The changes of rows that a group comes to.
ghost use Rattle.std.specs.Prelude.{◌≡◌, ◌≤◌, length, map, All, Ok, IfOk, IfErr};
ghost use Rattle.tab_keys.specs.Results.{Gives};
ghost use Rattle.tab_edm.specs.declared.TheConstants.{GREATEST};
ghost use Rattle.tab_ops.specs.Groups.{IsGroup};
ghost use Rattle.tab_ops.specs.Changes.{group_outcome, group_keys, applied, change_of, change_key, HasTick, IsTimely};

use crate::outcomes::outcome_of;
use crate::{Group, Item, OpRefused};
use std::alloc::Global;
use std::marker::Model;
use tab_edm::GREATEST;
use tab_keys::Memory;
use tab_rows::{Change, Row, Rows};

/// Changes, in the order in which they are made.
#[derive(Debug, Drop)]
pub struct ChangeList {
    changes: Vec<Change>,
}

impl Model for ChangeList {
    ghost use Rattle.std.specs.Prelude.{List, vec_items};
    ghost use Rattle.tab_rows.specs.declared.changes.Change.{Change};

    ghost Value = { List Change };

    ghost view = { λ list. list.changes.items };
}

impl ChangeList {
    /// The changes, in the memory that they have.
    pub fn new(changes: Vec<Change>) -> ChangeList
        ensures { result ≡ changes.items }
    {
        ChangeList { changes }
    }

    /// How many there are.
    pub fn len(&self) -> usize
        ensures { result ≡ length self.now }
    {
        self.changes.len()
    }

    /// The changes, lent.
    pub fn as_slice(&self) -> &[Change]
        ensures { result.now ≡ self.now }
    {
        self.changes.as_slice()
    }

    /// The changes themselves; this takes no memory.
    pub fn into_vec(self) -> Vec<Change>
        ensures { result.items ≡ self }
    {
        self.changes
    }

    /// A copy, or that no memory was found for it.
    pub fn try_copy(&self, alloc: Global) -> Result<ChangeList, Memory>
        ensures { IfOk result (λ copy. copy ≡ self.now) }
    {
        let changes = copied(alloc, self.changes.as_slice())?;
        Ok(ChangeList { changes })
    }
}

fn copied(alloc: Global, changes: &[Change]) -> Result<Vec<Change>, Memory>
    ensures { IfOk result (λ copies. copies.items ≡ changes.now) }
{
    let mut copies = Vec::with_capacity(alloc, changes.len())?;
    for change in changes {
        copies.push(change.try_copy(alloc)?)?;
    }
    Ok(copies)
}

/// What a group comes to: changes of rows, of which each row that is put has the tick.
#[derive(Debug, Drop)]
pub struct Changes {
    /// The tick of each row that is put.
    pub tick: u64,
    /// A change for each operation, in their order.
    pub list: ChangeList,
}

impl Changes {
    /// A copy, or that no memory was found for it.
    pub fn try_copy(&self, alloc: Global) -> Result<Changes, Memory>
        ensures { IfOk result (λ copy. copy ≡ self.now) }
    {
        Ok(Changes {
            tick: self.tick,
            list: self.list.try_copy(alloc)?,
        })
    }
}

/// The changes that a group makes of a table's rows with this tick, or why it makes none. The rows are looked at where
/// the group's operations act, and copied nowhere.
#[tactic(auto, using(crate::proofs::Planning::planned_stops, crate::proofs::Planning::planned_all, crate::proofs::Planning::planned_keys, crate::proofs::Planning::planned_count))]
pub fn plan(
    alloc: Global,
    rows: &Rows,
    table: u64,
    group: &Group,
    tick: u64,
) -> Result<Changes, OpRefused>
    requires { tick ≤ GREATEST }
    ensures outcome { Gives OpRefused.Memory (λ changes. applied rows.now.rows changes.list) result (group_outcome rows.now.rows table tick group.now) }
    ensures timely { IfErr result IsTimely }
    ensures tick { IfOk result (λ changes. changes.tick ≡ tick) }
    ensures each { IfOk result (λ changes. length changes.list ≡ length group.now) }
    ensures keys { IfOk result (λ changes. map change_key changes.list ≡ group_keys table group.now) }
    ensures put { IfOk result (λ changes. All (HasTick tick) changes.list) }
    ensures group { IsGroup group.now }
{
    let items = group.items();
    let mut changes = Vec::with_capacity(alloc, items.len())?;
    for (index, item) in items.iter().enumerate() {
        changes.push(change_of(alloc, index, rows, table, tick, item)?)?;
    }
    Ok(Changes {
        tick,
        list: ChangeList::new(changes),
    })
}

// The rows of a group differ, so each item finds its row as it was before the group.
fn change_of(
    alloc: Global,
    index: usize,
    rows: &Rows,
    table: u64,
    tick: u64,
    item: &Item,
) -> Result<Change, OpRefused>
    requires { tick ≤ GREATEST }
    ensures change { Gives OpRefused.Memory (λ change. change) result (change_of index rows.now.rows table tick item.now) }
    ensures timely { IfErr result IsTimely }
{
    let key = item.key(alloc, table)?;
    match outcome_of(alloc, index, rows.get(&key), &item.op)? {
        Some(entity) => Ok(Change::Put(Row { key, entity, tick })),
        None => Ok(Change::Take(key)),
    }
}
