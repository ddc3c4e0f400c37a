//! What the frames of a server told so far: which ranges were begun, and how far each is.

ghost use Rattle.std.specs.Prelude.{◌≡◌, ◌&&◌, ◌++◌, ◌∷◌, [], IsTrue, true, false, Some, None, IfOk, OnOk, map};
ghost use Rattle.std.specs.List.{list_any, list_all, last_or};
ghost use Rattle.tab_keys.specs.Order.{same_key};
ghost use Rattle.tab_keys.specs.Spans.{has};
ghost use Rattle.tab_rows.specs.declared.changes.Change.{Change};
ghost use Rattle.tab_rows.specs.Rows.{RowView};
ghost use Rattle.tab_journal.specs.Told.{begun, forgotten, at_range, is_behind, is_some_range, keys_differ, server_takes, server_after, takes_rows, takes_changes, changed_key};
ghost use Rattle.tab_journal.specs.Begun.{IsPlaceOf};
ghost use Rattle.tab_journal.specs.declared.ranges.RangeTold.{RangeTold};

use std::alloc::Global;
use std::marker::Model;
use tab_codec::Frame;
use tab_keys::{Key, Memory, Span};
use tab_rows::{Change, Row};

/// A range that was begun.
#[derive(Drop)]
pub struct RangeTold {
    /// Its number.
    pub range: u64,
    /// Its keys.
    pub span: Span,
    /// The key of its last row, up to where it is whole.
    pub last: Option<Key>,
    /// Whether it is whole.
    pub is_whole: bool,
}

/// The ranges that were begun. Contracts see it as their list.
#[derive(Drop)]
pub struct Ranges {
    list: Vec<RangeTold>,
}

impl Model for Ranges {
    ghost use Rattle.std.specs.Prelude.{List, vec_items};
    ghost use Rattle.tab_journal.specs.declared.ranges.RangeTold.{RangeTold};

    ghost Value = { List RangeTold };

    ghost view = { λ ranges. ranges.list.items };
}

impl Ranges {
    pub fn new(alloc: Global) -> Ranges
        ensures { result ≡ [] }
    {
        Ranges {
            list: Vec::new(alloc),
        }
    }

    /// Whether the frame fits, and where it does, what it tells is kept.
    #[tactic(auto, unfolding(crate::specs::Told::server_takes, crate::specs::Told::server_after))]
    pub fn take(&mut self, alloc: Global, frame: &Frame) -> Result<bool, Memory>
        ensures fits { IfOk result (λ fits. fits ≡ server_takes self.old frame.now) }
        ensures after { IfOk result (λ fits. IsTrue fits → self.new ≡ server_after self.old frame.now) }
    {
        match frame {
            Frame::Begin { range, span, .. } => {
                self.begin(alloc, *range, span)?;
                Ok(true)
            }
            Frame::Rows { range, rows } => self.take_rows(alloc, *range, rows.as_slice()),
            Frame::Whole { range, .. } => Ok(self.make_whole(*range)),
            Frame::Change { range, changes, .. } => {
                Ok(self.takes_changes(*range, changes.as_slice()))
            }
            _ => Ok(false),
        }
    }

    /// Begins a range anew; an earlier copy of its number is forgotten.
    fn begin(&mut self, alloc: Global, range: u64, span: &Span) -> Result<(), Memory>
        ensures { OnOk result (self.new ≡ forgotten self.old range ++ record { range = range; span = span.now; last = None; is_whole = false } ∷ []) }
    {
        let span = span.try_copy(alloc)?;
        self.list.retain(|one| one.range != range);
        self.list.push(RangeTold {
            range,
            span,
            last: None,
            is_whole: false,
        })?;
        Ok(())
    }

    /// Takes rows of a range.
    fn take_rows(&mut self, alloc: Global, range: u64, rows: &[Row]) -> Result<bool, Memory>
        ensures fits { IfOk result (λ fits. fits ≡ takes_rows (begun self.old range) rows.now) }
        ensures after { IfOk result (λ fits. IsTrue fits → self.new ≡ at_range range (λ one. record one { last = last_or one.last (map (λ row. row.key) rows.now) }) self.old) }
    {
        match self.place_of(range) {
            Some(place) => self.list[place].take_rows(alloc, rows),
            None => Ok(false),
        }
    }

    /// Makes a range whole, where it was begun.
    fn make_whole(&mut self, range: u64) -> bool
        ensures fits { result ≡ is_some_range (begun self.old range) }
        ensures after { IsTrue result → self.new ≡ at_range range (λ one. record one { is_whole = true }) self.old }
    {
        match self.place_of(range) {
            Some(place) => {
                self.list[place].is_whole = true;
                true
            }
            None => false,
        }
    }

    /// Whether changes of a range fit.
    fn takes_changes(&self, range: u64, changes: &[Change]) -> bool
        ensures { result ≡ takes_changes (begun self.now range) changes.now }
    {
        match self.place_of(range) {
            Some(place) => self.list[place].takes_changes(changes),
            None => false,
        }
    }

    /// Where the range of this number stands.
    fn place_of(&self, range: u64) -> Option<usize>
        ensures { IsPlaceOf self.now range result }
    {
        self.list.iter().position(|one| one.range == range)
    }
}

impl RangeTold {
    /// Whether the rows fit behind those before; the last one is kept.
    fn take_rows(&mut self, alloc: Global, rows: &[Row]) -> Result<bool, Memory>
        ensures fits { IfOk result (λ fits. fits ≡ takes_rows (Some self.old) rows.now) }
        ensures after { IfOk result (λ fits. IsTrue fits → self.new ≡ record self.old { last = last_or self.old.last (map (λ row. row.key) rows.now) }) }
    {
        if self.is_whole || !self.has_all(rows) {
            return Ok(false);
        }
        if let Some(row) = rows.last() {
            self.last = Some(row.key.try_copy(alloc)?);
        }
        Ok(true)
    }

    /// Whether the rows lie in the span and behind the last row.
    fn has_all(&self, rows: &[Row]) -> bool
        ensures { result ≡ list_all (λ (row : RowView). has self.now.span row.key && is_behind self.now.last row.key) rows.now }
    {
        rows.iter().all(|row| self.has_behind(&row.key))
    }

    /// Whether the key lies in the span and behind the last row.
    fn has_behind(&self, key: &Key) -> bool
        ensures { result ≡ (has self.now.span key.now && is_behind self.now.last key.now) }
    {
        let is_behind = match &self.last {
            Some(last) => last < key,
            None => true,
        };
        self.span.has(key) && is_behind
    }

    /// Whether the changes fit.
    fn takes_changes(&self, changes: &[Change]) -> bool
        ensures { result ≡ takes_changes (Some self.now) changes.now }
    {
        self.is_whole && self.has_changed(changes) && keys_differ(changes)
    }

    /// Whether the changed keys lie in the span.
    fn has_changed(&self, changes: &[Change]) -> bool
        ensures { result ≡ list_all (λ (change : Change). has self.now.span (changed_key change)) changes.now }
    {
        changes.iter().all(|change| self.span.has(key_of(change)))
    }
}

/// The key that is changed.
fn key_of(change: &Change) -> &Key
    ensures { result.now ≡ changed_key change.now }
{
    match change {
        Change::Put(row) => &row.key,
        Change::Take(key) => key,
    }
}

/// Whether no key is changed twice.
#[tactic(auto, unfolding(crate::specs::Told::keys_differ))]
fn keys_differ(changes: &[Change]) -> bool
    ensures { result ≡ keys_differ changes.now }
{
    let mut rest = changes;
    while let Some((change, others)) = rest.split_first() {
        if is_changed(others, key_of(change)) {
            return false;
        }
        rest = others;
    }
    true
}

/// Whether one of the changes is of the key.
fn is_changed(changes: &[Change], key: &Key) -> bool
    ensures { result ≡ list_any (λ (change : Change). same_key (changed_key change) key.now) changes.now }
{
    changes.iter().any(|change| key_of(change) == key)
}
