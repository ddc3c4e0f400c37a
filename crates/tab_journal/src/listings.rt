//! What the frames of the names told so far: the tables with their names, and the next number of a table.

ghost use Rattle.std.specs.Prelude.{◌≡◌, ◌==◌, ◌<◌, ◌+◌, ◌-◌, ◌^◌, ◌&&◌, ◌++◌, ◌∷◌, [], ℕ, List, IsTrue, true, false, Some, None, IfOk, OnOk, nat_lt, not, filter};
ghost use Rattle.std.specs.Option.{is_some};
ghost use Rattle.std.specs.List.{list_any, list_all};
ghost use Rattle.tab_journal.specs.Told.{names_takes, names_after, takes_names, is_taken, is_above, last_number, are_new};

use std::alloc::Global;
use std::collections::BTreeSet;
use std::marker::Model;
use tab_codec::Frame;
use tab_keys::{Memory, TableName};

/// The tables, the next number of a table, and whether all frames so far listed names.
#[derive(Drop)]
pub struct NamesState {
    next_table: u64,
    names: Vec<(u64, TableName)>,
    is_listing: bool,
}

impl Model for NamesState {
    ghost use Rattle.std.specs.Prelude.{vec_items};
    ghost use Rattle.tab_journal.specs.Told.{NamesTold};

    ghost Value = { NamesTold };

    ghost view = { λ state. record { next_table = state.next_table; names = state.names.items; is_listing = state.is_listing } };
}

impl NamesState {
    /// The names of a first frame, where the frame fits.
    #[tactic(auto, unfolding(crate::specs::Told::names_takes, crate::specs::Told::names_after))]
    pub fn first(alloc: Global, frame: &Frame) -> Result<Option<NamesState>, Memory>
        ensures fits { IfOk result (λ state. is_some state ≡ names_takes None frame.now) }
        ensures after { IfOk result (λ state. IsTrue (is_some state) → state ≡ names_after None frame.now) }
    {
        let Frame::Names { next_table, names } = frame else {
            return Ok(None);
        };
        let mut state = NamesState {
            next_table: *next_table,
            names: Vec::new(alloc),
            is_listing: true,
        };
        if state.list(alloc, names.as_slice())? {
            Ok(Some(state))
        } else {
            Ok(None)
        }
    }

    /// Whether the frame fits, and where it does, what it tells is kept.
    #[tactic(auto, unfolding(crate::specs::Told::names_takes, crate::specs::Told::names_after))]
    pub fn take(&mut self, alloc: Global, frame: &Frame) -> Result<bool, Memory>
        ensures fits { IfOk result (λ fits. fits ≡ names_takes (Some self.old) frame.now) }
        ensures after { IfOk result (λ fits. IsTrue fits → Some self.new ≡ names_after (Some self.old) frame.now) }
    {
        match frame {
            Frame::Names { next_table, names } => {
                if self.is_listing && *next_table == self.next_table {
                    self.list(alloc, names.as_slice())
                } else {
                    Ok(false)
                }
            }
            Frame::Create { table, name } => {
                if *table == self.next_table && *table < u64::MAX && !self.is_taken(name) {
                    self.create(alloc, *table, name)?;
                    Ok(true)
                } else {
                    Ok(false)
                }
            }
            Frame::Drop { table } => {
                if self.has_table(*table) {
                    self.drop_table(*table);
                    Ok(true)
                } else {
                    Ok(false)
                }
            }
            _ => Ok(false),
        }
    }

    /// Lists names behind those so far, where they fit.
    fn list(&mut self, alloc: Global, names: &[(u64, TableName)]) -> Result<bool, Memory>
        ensures fits { IfOk result (λ fits. fits ≡ takes_names self.old.next_table self.old.names names.now) }
        ensures after { IfOk result (λ fits. IsTrue fits → self.new ≡ record self.old { names = self.old.names ++ names.now }) }
    {
        if self.has_numbers_of(names) && are_new(alloc, self.names.as_slice(), names)? {
            append(alloc, &mut self.names, names)?;
            Ok(true)
        } else {
            Ok(false)
        }
    }

    /// Whether the numbers are below the next one and above those so far.
    fn has_numbers_of(&self, names: &[(u64, TableName)]) -> bool
        ensures { result ≡ list_all (λ (name : ℕ × List ℕ). nat_lt name.0 self.now.next_table && is_above (last_number self.now.names) name.0) names.now }
    {
        let next_table = self.next_table;
        let last = self.last_number();
        names
            .iter()
            .all(|name| name.0 < next_table && is_above(last, name.0))
    }

    /// The number of the last name.
    fn last_number(&self) -> Option<u64>
        ensures { result ≡ last_number self.now.names }
    {
        match self.names.last() {
            Some(name) => Some(name.0),
            None => None,
        }
    }

    /// Makes a table.
    fn create(&mut self, alloc: Global, table: u64, name: &TableName) -> Result<(), Memory>
        requires { table < 2 ^ 64 - 1 }
        ensures { OnOk result (self.new ≡ record { next_table = table + 1; names = self.old.names ++ (table, name.now) ∷ []; is_listing = false }) }
    {
        self.names.push((table, name.try_copy(alloc)?))?;
        self.next_table = table + 1;
        self.is_listing = false;
        Ok(())
    }

    /// Whether the table is there.
    fn has_table(&self, table: u64) -> bool
        ensures { result ≡ list_any (λ (other : ℕ × List ℕ). other.0 == table) self.now.names }
    {
        self.names.iter().any(|other| other.0 == table)
    }

    /// Drops a table.
    fn drop_table(&mut self, table: u64)
        ensures { self.new ≡ record self.old { names = filter (λ (other : ℕ × List ℕ). not (other.0 == table)) self.old.names; is_listing = false } }
    {
        self.names.retain(|other| other.0 != table);
        self.is_listing = false;
    }

    /// Whether a table has the name, in whatever case.
    fn is_taken(&self, name: &TableName) -> bool
        ensures { result ≡ is_taken self.now.names name.now }
    {
        self.names.iter().any(|other| other.1 == *name)
    }
}

/// Whether the number is above that of the last one.
fn is_above(last: Option<u64>, table: u64) -> bool
    ensures { result ≡ is_above last table }
{
    match last {
        Some(last) => last < table,
        None => true,
    }
}

/// Whether each of these names is absent from those before it. A name is looked up among the others in their order.
fn are_new(
    alloc: Global,
    before: &[(u64, TableName)],
    names: &[(u64, TableName)],
) -> Result<bool, Memory>
    ensures { IfOk result (λ new. new ≡ are_new before.now names.now) }
{
    let mut taken = BTreeSet::new(alloc);
    for name in before {
        let _added = taken.insert(name.1.try_copy(alloc)?)?;
    }
    for name in names {
        if !taken.insert(name.1.try_copy(alloc)?)? {
            return Ok(false);
        }
    }
    Ok(true)
}

/// Puts copies of names behind others.
fn append(
    alloc: Global,
    names: &mut Vec<(u64, TableName)>,
    more: &[(u64, TableName)],
) -> Result<(), Memory>
    ensures { OnOk result (names.new.items ≡ names.old.items ++ more.now) }
{
    for name in more {
        names.push((name.0, name.1.try_copy(alloc)?))?;
    }
    Ok(())
}
