//! The members of an object that is written, their names and values lent.
ghost use Rattle.std.specs.Prelude.{◌≡◌, [], IfOk, OnOk};
ghost use Rattle.serde_json.specs.Data.{put};
ghost use Rattle.tab_json.specs.Slots.{name_text};
ghost use Rattle.tab_json.specs.Written.{leaf_data, written_members, IsTimelyLeaf, AreTimely};

use crate::slots::{Name, Slot, find_place};
use std::alloc::{AllocError, Global};
use std::marker::Model;
use tab_edm::Value;

/// The value of a member.
#[derive(Clone, Copy, Drop)]
pub enum Leaf<'a> {
    Text(&'a str),
    Value(&'a Value),
    /// The moment of this tick.
    Moment(u64),
    /// The ETag of this tick.
    ETag(u64),
}

/// Members, each at the place of its name.
#[derive(Drop)]
pub(crate) struct WrittenMembers<'a> {
    slots: Vec<Slot<'a, Leaf<'a>>>,
}

impl<'a> Model for WrittenMembers<'a> {
    ghost use Rattle.std.specs.Prelude.{List, vec_items};
    ghost use Rattle.tab_json.specs.declared.slots.Slot.{Slot};
    ghost use Rattle.tab_json.specs.declared.written.Leaf.{Leaf};
    ghost use Rattle.tab_json.specs.Written.{AreWritten};

    ghost Value = { List (Slot Leaf) };

    ghost view = { λ members. members.slots.items };

    ghost invariant = { λ members. AreWritten members.slots.items };
}

impl<'a> WrittenMembers<'a> {
    /// No members, with room for these many.
    pub(crate) fn with_capacity(
        alloc: Global,
        capacity: usize,
    ) -> Result<WrittenMembers<'a>, AllocError>
        ensures { IfOk result (λ members. members ≡ []) }
    {
        Ok(WrittenMembers {
            slots: Vec::with_capacity(alloc, capacity)?,
        })
    }

    /// Takes all members away.
    pub(crate) fn clear(&mut self)
        ensures { self.new ≡ [] }
    {
        self.slots.clear();
    }

    /// Puts a member at its place, over one of its name.
    pub(crate) fn put(&mut self, name: Name<'a>, value: Leaf<'a>) -> Result<(), AllocError>
        requires { IsTimelyLeaf value }
        ensures { OnOk result (written_members self.new ≡ put (name_text name.entry) (leaf_data value.entry) (written_members self.old)) }
    {
        match find_place(self.slots.as_slice(), name) {
            Ok(place) => self.slots[place].value = value,
            Err(place) => self.slots.insert(place, Slot { name, value })?,
        }
        Ok(())
    }

    /// The members in their order.
    pub(crate) fn as_slice(&self) -> &[Slot<'a, Leaf<'a>>]
        ensures members { result.now ≡ self.now }
        ensures timely { AreTimely result.now }
    {
        self.slots.as_slice()
    }
}
