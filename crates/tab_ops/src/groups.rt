//! Groups of operations, which act as a whole or not at all (the Table service REST reference, "Performing Entity Group
//! Transactions").
ghost use Rattle.std.specs.Prelude.{◌≡◌, [], ◌∷◌, IfOk, IfNone, All, IsFalse, bytes_eq};
ghost use Rattle.std.specs.List.{list_any};
ghost use Rattle.std.specs.Ordering.{is_eq};
ghost use Rattle.tab_keys.specs.Order.{text_cmp};
ghost use Rattle.tab_ops.specs.Groups.{AreApart, IsGroup, grouped, group_refusal, first_elsewhere, first_doubled};

use crate::{Item, MOST_ITEMS};
use std::alloc::{AllocError, AllocFailed, Global};
use std::marker::Model;
use tab_keys::Memory;

/// Why operations make no group.
#[derive(Clone, Copy, Debug, PartialEq, Eq)]
pub enum GroupRefused {
    /// There are none.
    Empty,
    /// There are more than 100.
    TooMany,
    /// The operation at this index is in another table or partition than the first.
    MixedPartitions { index: usize },
    /// The operation at this index has the row of one before it.
    DoubledRow { index: usize },
    /// No memory was found.
    Memory,
}

/// Why a group is refused, with the index of the first operation that is.
#[derive(Clone, Copy, Debug, PartialEq, Eq)]
pub enum OpRefused {
    /// The row is there already.
    AlreadyThere { index: usize },
    /// No row is there.
    NotThere { index: usize },
    /// The row that is there has this tick, which is not the one that is wanted.
    Condition { index: usize, tick: u64 },
    /// The merged entity has more than 252 properties.
    TooMany { index: usize },
    /// The merged entity's size is above 1,048,576 bytes.
    TooLarge { index: usize },
    /// No memory was found.
    Memory,
}

impl From<Memory> for OpRefused {
    ghost use Rattle.tab_ops.specs.declared.groups.OpRefused.{OpRefused};

    ghost from_gives = { λ _ refused. refused ≡ OpRefused.Memory };

    fn from(_memory: Memory) -> OpRefused {
        OpRefused::Memory
    }
}

impl From<AllocError> for OpRefused {
    ghost use Rattle.tab_ops.specs.declared.groups.OpRefused.{OpRefused};

    ghost from_gives = { λ _ refused. refused ≡ OpRefused.Memory };

    fn from(_error: AllocError) -> OpRefused {
        OpRefused::Memory
    }
}

impl<T: Drop> From<AllocFailed<T>> for OpRefused {
    ghost use Rattle.tab_ops.specs.declared.groups.OpRefused.{OpRefused};

    ghost from_gives = { λ _ refused. refused ≡ OpRefused.Memory };

    fn from(_failed: AllocFailed<T>) -> OpRefused {
        OpRefused::Memory
    }
}

/// Operations on rows of one partition that act as a whole or not at all, each on a row of its own.
#[derive(Debug, Drop)]
pub struct Group {
    items: Vec<Item>,
}

impl Model for Group {
    ghost use Rattle.std.specs.Prelude.{List, vec_items};
    ghost use Rattle.tab_ops.specs.Groups.{ItemView, IsGroup};

    ghost Value = { List ItemView };

    ghost view = { λ group. group.items.items };

    ghost invariant = { λ group. IsGroup group.items.items };
}

impl Group {
    /// The group of these operations. This takes no memory.
    pub fn new(items: Vec<Item>) -> Result<Group, GroupRefused>
        ensures { result ≡ grouped items.items }
    {
        match group_refusal(items.as_slice()) {
            None => Ok(Group { items }),
            Some(why) => Err(why),
        }
    }

    /// The group of one operation.
    pub fn of(alloc: Global, item: Item) -> Result<Group, Memory>
        ensures { IfOk result (λ group. group ≡ item ∷ []) }
    {
        let Ok(mut items) = Vec::with_capacity(alloc, 1) else {
            return Err(Memory);
        };
        match items.push(item) {
            Ok(()) => Ok(Group { items }),
            Err(_) => Err(Memory),
        }
    }

    /// The operations, in the order in which they act.
    pub fn items(&self) -> &[Item]
        ensures items { result.now ≡ self.now }
        ensures group { IsGroup self.now }
    {
        self.items.as_slice()
    }

    /// A copy, or that no memory was found for it.
    pub fn try_copy(&self, alloc: Global) -> Result<Group, Memory>
        ensures { IfOk result (λ copy. copy ≡ self.now) }
    {
        let items = copied(alloc, self.items.as_slice())?;
        Ok(Group { items })
    }
}

fn copied(alloc: Global, items: &[Item]) -> Result<Vec<Item>, Memory>
    ensures { IfOk result (λ copies. copies.items ≡ items.now) }
{
    let mut copies = Vec::with_capacity(alloc, items.len())?;
    for item in items {
        copies.push(item.try_copy(alloc)?)?;
    }
    Ok(copies)
}

fn group_refusal(items: &[Item]) -> Option<GroupRefused>
    ensures refusal { result ≡ group_refusal items.now }
    ensures apart { IfNone result (AreApart items.now) }
{
    let Some(first) = items.first() else {
        return Some(GroupRefused::Empty);
    };
    if items.len() > MOST_ITEMS {
        return Some(GroupRefused::TooMany);
    }
    match first_elsewhere(first, items) {
        Some(why) => Some(why),
        None => first_doubled(items),
    }
}

fn first_elsewhere(first: &Item, items: &[Item]) -> Option<GroupRefused>
    ensures { result ≡ first_elsewhere 0 first.now items.now }
{
    for (index, item) in items.iter().enumerate() {
        if !item.is_beside(first) {
            return Some(GroupRefused::MixedPartitions { index });
        }
    }
    None
}

// A group has so few items that each is compared with those before it: that takes no memory.
fn first_doubled(items: &[Item]) -> Option<GroupRefused>
    ensures refusal { result ≡ first_doubled 0 [] items.now }
    ensures apart { IfNone result (AreApart items.now) }
{
    for (index, item) in items.iter().enumerate() {
        if stood_before(&items[..index], item) {
            return Some(GroupRefused::DoubledRow { index });
        }
    }
    None
}

// Whether the row key of the item is one of these items'.
fn stood_before(before: &[Item], item: &Item) -> bool
    ensures bytes { result ≡ list_any (λ other. bytes_eq other.rk item.now.rk) before.now }
    ensures units { IsFalse result → All (λ other. IsFalse (is_eq (text_cmp other.rk item.now.rk))) before.now }
{
    before.iter().any(|other| other.has_row_key_of(item))
}
