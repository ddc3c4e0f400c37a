//! The members of a body that is read, their names and values lent (RFC 8259, section 4): of members with one name the last.
ghost use Rattle.std.specs.Prelude.{◌≡◌, true, Some, [], IfOk, OnOk, IfSome, is_some, option_map, option_copied, option_and_then};
ghost use Rattle.json.specs.Value.{value_view, members_view};
ghost use Rattle.serde_json.specs.Data.{Data, put, no_members};
ghost use Rattle.serde_json.specs.Find.{as_null, as_str, as_bool, as_number, as_i64, get_member};
ghost use Rattle.serde_json.specs.Read.{number_of, of_json, of_members};
ghost use Rattle.serde_json.specs.View.{number_view, members_view as tree_view};
ghost use Rattle.tab_json.specs.Lent.{lent_data, lent_members, AreLent};
ghost use Rattle.tab_json.specs.Slots.{name_text};

use crate::slots::{Name, Slot, find_place, search_place};
use crate::types::int64_of;
use json::Value as Read;
use serde_json::{Map, Number, Value as Json};
use std::alloc::{AllocError, Global};
use std::marker::Model;

/// A JSON value: one that is lent alone, or one of a tree.
#[derive(Drop)]
pub enum Lent<'a> {
    Null,
    Flag(bool),
    Number(Number),
    Text(&'a str),
    Tree(&'a Json),
}

impl<'a> Lent<'a> {
    /// A value that is none of many, and no number but a whole one in its own decimal text.
    fn of_read(value: &Read<'a>) -> Option<Lent<'a>>
        ensures { IfSome result (λ lent. of_json (value_view value.now) ≡ Some (lent_data lent)) }
    {
        match value {
            Read::Null => Some(Lent::Null),
            Read::Bool(flag) => Some(Lent::Flag(*flag)),
            Read::Number(text) => match whole_number(text) {
                Some(number) => Some(Lent::Number(number)),
                None => None,
            },
            Read::String(text) => Some(Lent::Text(text)),
            Read::Array(_) | Read::Object(_) => None,
        }
    }

    pub(crate) fn is_null(&self) -> bool
        ensures { result ≡ is_some (as_null (lent_data self.now)) }
    {
        match self {
            Lent::Null => true,
            Lent::Tree(value) => value.is_null(),
            Lent::Flag(_) | Lent::Number(_) | Lent::Text(_) => false,
        }
    }

    pub(crate) fn as_str(&self) -> Option<&'a str>
        ensures { option_copied result ≡ as_str (lent_data self.now) }
    {
        match self {
            Lent::Text(text) => Some(text),
            Lent::Tree(value) => value.as_str(),
            Lent::Null | Lent::Flag(_) | Lent::Number(_) => None,
        }
    }

    pub(crate) fn as_bool(&self) -> Option<bool>
        ensures { result ≡ as_bool (lent_data self.now) }
    {
        match self {
            Lent::Flag(flag) => Some(*flag),
            Lent::Tree(value) => value.as_bool(),
            Lent::Null | Lent::Number(_) | Lent::Text(_) => None,
        }
    }

    pub(crate) fn as_i64(&self) -> Option<i64>
        ensures { result ≡ option_and_then as_i64 (as_number (lent_data self.now)) }
    {
        match self {
            Lent::Number(number) => number.as_i64(),
            Lent::Tree(value) => value.as_i64(),
            Lent::Null | Lent::Flag(_) | Lent::Text(_) => None,
        }
    }
}

/// The number of 64 bits whose decimal text this is.
fn whole_number(text: &str) -> Option<Number>
    ensures { IfSome result (λ number. number_of text.now ≡ Some (number_view number)) }
{
    match int64_of(text) {
        Some(number) => Some(Number::from(number)),
        None => None,
    }
}

/// Members, each at the place of its name.
#[derive(Drop)]
pub(crate) struct LentMembers<'a> {
    slots: Vec<Slot<'a, Lent<'a>>>,
}

impl<'a> Model for LentMembers<'a> {
    ghost use Rattle.std.specs.Prelude.{List, vec_items};
    ghost use Rattle.tab_json.specs.declared.lent.Lent.{Lent};
    ghost use Rattle.tab_json.specs.declared.slots.Slot.{Slot};
    ghost use Rattle.tab_json.specs.Lent.{AreLent};
    ghost use Rattle.std.specs.Coded.{codes};
    ghost use Rattle.serde_json.specs.contracts.value.Value as tree;

    ghost Value = { List (Slot Lent) };

    ghost coded = { Prim.hlevel (codes, tree.the_row.coded) };

    ghost view = { λ members. members.slots.items };

    ghost invariant = { λ members. AreLent members.slots.items };
}

impl<'a> LentMembers<'a> {
    /// No members, with room for these many.
    fn with_capacity(alloc: Global, capacity: usize) -> Result<LentMembers<'a>, AllocError>
        ensures { IfOk result (λ members. members ≡ []) }
    {
        Ok(LentMembers {
            slots: Vec::with_capacity(alloc, capacity)?,
        })
    }

    /// Puts a member at its place, over one of its name.
    fn put(&mut self, name: &'a str, value: Lent<'a>) -> Result<(), AllocError>
        ensures { OnOk result (lent_members self.new ≡ put name.now (lent_data value.entry) (lent_members self.old)) }
    {
        let name = Name::Plain(name);
        match find_place(self.slots.as_slice(), name) {
            Ok(place) => self.slots[place].value = value,
            Err(place) => self.slots.insert(place, Slot { name, value })?,
        }
        Ok(())
    }

    /// The members of an object of a tree.
    pub(crate) fn of_tree(
        alloc: Global,
        members: &'a Map<String, Json>,
    ) -> Result<LentMembers<'a>, AllocError>
        ensures { IfOk result (λ lent. lent_members lent ≡ tree_view members.now.entries) }
    {
        let mut lent = LentMembers::with_capacity(alloc, members.len())?;
        for (name, value) in members {
            lent.put(name.as_str(), Lent::Tree(value))?;
        }
        Ok(lent)
    }

    /// The members of an object that was read, if each of them can be lent.
    pub(crate) fn of_read(
        alloc: Global,
        members: &[(&'a str, Read<'a>)],
    ) -> Result<Option<LentMembers<'a>>, AllocError>
        ensures { IfOk result (λ found. IfSome found (λ lent. of_members (members_view members.now) no_members ≡ Some (lent_members lent))) }
    {
        let mut lent = LentMembers::with_capacity(alloc, members.len())?;
        for member in members {
            if !lent.put_read(member)? {
                return Ok(None);
            }
        }
        Ok(Some(lent))
    }

    fn put_read(&mut self, member: &(&'a str, Read<'a>)) -> Result<bool, AllocError>
        ensures { IfOk result (λ done. done ≡ true → (d : Data) × (of_json (value_view member.now.1) ≡ Some d)
            × (lent_members self.new ≡ put member.now.0.now d (lent_members self.old))) }
    {
        match Lent::of_read(&member.1) {
            Some(value) => {
                self.put(member.0, value)?;
                Ok(true)
            }
            None => Ok(false),
        }
    }

    /// The value of the member of this name, if there is one.
    pub(crate) fn get(&self, name: Name) -> Option<&Lent<'a>>
        ensures { option_map (λ v. lent_data v.now) result ≡ get_member (name_text name.entry) (lent_members self.now) }
    {
        match search_place(self.slots.as_slice(), name) {
            Ok(place) => Some(&self.slots[place].value),
            Err(_) => None,
        }
    }

    /// The members in their order.
    pub(crate) fn as_slice(&self) -> &[Slot<'a, Lent<'a>>]
        ensures members { result.now ≡ self.now }
        ensures lent { AreLent result.now }
    {
        self.slots.as_slice()
    }
}
