//! The members of an object, lent: each in a slot of its own, the slots in byte order of the names (RFC 8259, section 4).
ghost use Rattle.std.specs.Prelude.{◌≡◌, ◌++◌, MatchResult};
ghost use Rattle.std.specs.Ordering.{nat_cmp};
ghost use Rattle.std.specs.Cmp.Lexicographic.{slice_cmp};
ghost use Rattle.tab_json.specs.Slots.{name_front, name_back, name_cmp, AreRising, StandsAt, BelongsAt};

use std::cmp::Ordering;

/// What the name of an annotation has behind the name that it annotates.
pub(crate) const ANNOTATION: &str = "@odata.type";

/// The name of a member: one that is lent, or that of its annotation.
#[derive(Clone, Copy, Drop)]
pub enum Name<'a> {
    Plain(&'a str),
    Annotation(&'a str),
}

/// A member: its name and its value.
#[derive(Drop)]
pub struct Slot<'a, V> {
    pub name: Name<'a>,
    pub value: V,
}

/// Where a name stands, or else where it belongs. Most belong behind all others.
pub(crate) fn find_place<V>(slots: &[Slot<V>], name: Name) -> Result<usize, usize>
    requires { AreRising slots.now }
    ensures { MatchResult result (StandsAt slots.now name.entry) (BelongsAt slots.now name.entry) }
{
    match slots.last() {
        Some(last) if compare(last.name, name).is_lt() => Err(slots.len()),
        _ => search_place(slots, name),
    }
}

/// Where a name stands, or else where it belongs.
pub(crate) fn search_place<V>(slots: &[Slot<V>], name: Name) -> Result<usize, usize>
    requires { AreRising slots.now }
    ensures { MatchResult result (StandsAt slots.now name.entry) (BelongsAt slots.now name.entry) }
{
    slots.binary_search_by(
        |other: &Slot<V>| -> Ordering
            ensures { result ≡ name_cmp other.now.name name.entry }
        { compare(other.name, name) },
    )
}

/// Compares two names by their bytes.
fn compare(a: Name, b: Name) -> Ordering
    ensures { result ≡ name_cmp a.entry b.entry }
{
    match (a, b) {
        (Name::Plain(a), Name::Plain(b)) => a.cmp(b),
        _ => compare_parts(a.front(), a.back(), b.front(), b.back()),
    }
}

fn compare_parts(a: &str, x: &str, b: &str, y: &str) -> Ordering
    ensures { result ≡ slice_cmp nat_cmp (a.now ++ x.now) (b.now ++ y.now) }
{
    a.bytes().chain(x.bytes()).cmp(b.bytes().chain(y.bytes()))
}

impl<'a> Name<'a> {
    /// The text that is lent.
    pub(crate) fn front(self) -> &'a str
        ensures { result.now ≡ name_front self.entry }
    {
        match self {
            Name::Plain(name) | Name::Annotation(name) => name,
        }
    }

    /// What stands behind the text that is lent.
    fn back(self) -> &'static str
        ensures { result.now ≡ name_back self.entry }
    {
        match self {
            Name::Plain(_) => "",
            Name::Annotation(_) => ANNOTATION,
        }
    }
}
