//! Operations on one row, under conditions (the Table service REST reference, "Insert Entity" to "Delete Entity", and its
//! header If-Match; RFC 9110, section 13.1.1).
ghost use Rattle.std.specs.Prelude.{◌≡◌, IfOk, bytes_eq};
ghost use Rattle.std.specs.Ordering.{is_eq};
ghost use Rattle.tab_keys.specs.Order.{text_cmp};
ghost use Rattle.tab_ops.specs.Groups.{is_beside, item_key};

use std::alloc::Global;
use std::marker::Model;
use tab_edm::Entity;
use tab_keys::{Key, KeyText, Memory, TableName};

/// Which kept row an operation acts on.
#[derive(Clone, Copy, Debug, PartialEq, Eq)]
pub enum Match {
    /// Any.
    Any,
    /// The one that was written with this tick.
    Tick(u64),
}

/// An operation on one row.
#[derive(Debug, Drop)]
pub enum Op {
    /// Writes a row that is not there.
    Insert(Entity),
    /// Writes a whole row in the place of the one that is there.
    Update(Entity, Match),
    /// Writes a whole row, whether one is there or not.
    Replace(Entity),
    /// Writes properties into the row that is there.
    Merge(Entity, Match),
    /// Writes properties into the row that is there, or a whole row where none is.
    MergeIn(Entity),
    /// Takes out the row that is there.
    Delete(Match),
}

impl Op {
    /// A copy, or that no memory was found for it.
    pub fn try_copy(&self, alloc: Global) -> Result<Op, Memory>
        ensures { IfOk result (λ copy. copy ≡ self.now) }
    {
        match self {
            Op::Insert(entity) => Ok(Op::Insert(copied(alloc, entity)?)),
            Op::Update(entity, condition) => Ok(Op::Update(copied(alloc, entity)?, *condition)),
            Op::Replace(entity) => Ok(Op::Replace(copied(alloc, entity)?)),
            Op::Merge(entity, condition) => Ok(Op::Merge(copied(alloc, entity)?, *condition)),
            Op::MergeIn(entity) => Ok(Op::MergeIn(copied(alloc, entity)?)),
            Op::Delete(condition) => Ok(Op::Delete(*condition)),
        }
    }
}

pub(crate) fn copied(alloc: Global, entity: &Entity) -> Result<Entity, Memory>
    ensures { IfOk result (λ copy. copy ≡ entity.now) }
{
    entity.try_copy(alloc).map_err(|_| Memory)
}

/// An operation with the row that it acts on.
#[derive(Debug, Drop)]
pub struct Item {
    /// The name of the row's table, as the request spells it.
    pub name: TableName,
    pub pk: KeyText,
    pub rk: KeyText,
    pub op: Op,
}

impl Model for Item {
    ghost use Rattle.tab_ops.specs.Groups.{ItemView, IsMadeFor};
    ghost use Rattle.tab_keys.specs.KeyTexts.{units_of};
    ghost use Rattle.std.specs.Prelude.{length};

    ghost Value = { ItemView };

    ghost view = { λ item. record { name = item.name; pk = item.pk; rk = item.rk; op = item.op } };

    ghost invariant = { λ item. IsMadeFor (length (units_of item.pk)) (length (units_of item.rk)) item.op };
}

impl Item {
    /// A copy, or that no memory was found for it.
    pub fn try_copy(&self, alloc: Global) -> Result<Item, Memory>
        ensures { IfOk result (λ copy. copy ≡ self.now) }
    {
        Ok(Item {
            name: self.name.try_copy(alloc)?,
            pk: self.pk.try_copy(alloc)?,
            rk: self.rk.try_copy(alloc)?,
            op: self.op.try_copy(alloc)?,
        })
    }

    /// The key of its row in a table with this number.
    pub(crate) fn key(&self, alloc: Global, table: u64) -> Result<Key, Memory>
        ensures { IfOk result (λ key. key ≡ item_key table self.now) }
    {
        Ok(Key {
            table,
            pk: self.pk.try_copy(alloc)?,
            rk: self.rk.try_copy(alloc)?,
        })
    }

    /// Whether it is in the table and partition of another.
    pub(crate) fn is_beside(&self, first: &Item) -> bool
        ensures { result ≡ is_beside first.now self.now }
    {
        self.name == first.name && self.pk.as_str() == first.pk.as_str()
    }

    pub(crate) fn has_row_key_of(&self, other: &Item) -> bool
        ensures bytes { result ≡ bytes_eq self.now.rk other.now.rk }
        ensures units { result ≡ is_eq (text_cmp self.now.rk other.now.rk) }
    {
        self.rk.as_str() == other.rk.as_str()
    }
}
