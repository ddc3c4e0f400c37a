//! The entries of a run, kept in little room.
ghost use Rattle.std.specs.Prelude.{◌≡◌, [], ◌∷◌, ◌++◌, length, IfOk, OnOk, OnErr};
ghost use Rattle.tab_history.specs.Histories.{entry_of};

use crate::Entry;
use std::alloc::Global;
use std::marker::Model;
use tab_keys::{Memory, TableName};
use tab_ops::{Group, OpRefused};

/// An entry as a history keeps it: a look-up and a change as they are, since there are most of these, and any other behind
/// a pointer, since an entry with a page is four times as large.
#[derive(Debug, Drop)]
enum Step {
    Resolve {
        ask: u64,
        name: TableName,
        table: Option<u64>,
    },
    Change {
        ask: u64,
        now: u64,
        table: u64,
        group: Group,
        result: Result<u64, OpRefused>,
    },
    Other(Box<Entry>),
}

impl Step {
    /// Keeps an entry.
    fn new(alloc: Global, entry: Entry) -> Result<Step, Memory>
        ensures { IfOk result (λ step. entry_of step ≡ entry) }
    {
        Ok(match entry {
            Entry::Resolve { ask, name, table } => Step::Resolve { ask, name, table },
            Entry::Change {
                ask,
                now,
                table,
                group,
                result,
            } => Step::Change {
                ask,
                now,
                table,
                group,
                result,
            },
            other => Step::Other(Box::new(alloc, other)?),
        })
    }

    /// The entry that is kept.
    fn into_entry(self) -> Entry
        ensures { result ≡ entry_of self }
    {
        match self {
            Step::Resolve { ask, name, table } => Entry::Resolve { ask, name, table },
            Step::Change {
                ask,
                now,
                table,
                group,
                result,
            } => Entry::Change {
                ask,
                now,
                table,
                group,
                result,
            },
            Step::Other(entry) => Box::into_inner(entry),
        }
    }
}

/// The entries of a run, in their order.
#[derive(Debug, Drop)]
pub struct History {
    steps: Vec<Step>,
}

impl Model for History {
    ghost use Rattle.std.specs.Prelude.{List, map};
    ghost use Rattle.std.specs.Coded.{coded_list};
    ghost use Rattle.tab_history.specs.Histories.{entry_of};
    ghost use Rattle.tab_history.specs.declared.entries.Entry.{Entry};
    ghost use Rattle.tab_history.specs.contracts.entries.Entry as entry;

    ghost Value = { List Entry };

    ghost coded = { coded_list entry.the_row.coded };

    ghost view = { λ history. map entry_of history.steps.items };
}

impl History {
    /// A history without entries. It takes no memory.
    pub fn new(alloc: Global) -> History
        ensures { result ≡ [] }
    {
        History {
            steps: Vec::new(alloc),
        }
    }

    /// How many entries there are.
    pub fn len(&self) -> usize
        ensures { result ≡ length self.now }
    {
        self.steps.len()
    }

    /// Adds an entry.
    pub fn push(&mut self, alloc: Global, entry: Entry) -> Result<(), Memory>
        ensures ok { OnOk result (self.new ≡ self.old ++ entry ∷ []) }
        ensures err { OnErr result (self.new ≡ self.old) }
    {
        let step = Step::new(alloc, entry)?;
        match self.steps.push(step) {
            Ok(()) => Ok(()),
            Err(_) => Err(Memory),
        }
    }

    /// Adds two entries, or none.
    pub fn push_both(&mut self, alloc: Global, first: Entry, second: Entry) -> Result<(), Memory>
        ensures ok { OnOk result (self.new ≡ self.old ++ first ∷ second ∷ []) }
        ensures err { OnErr result (self.new ≡ self.old) }
    {
        let first = Step::new(alloc, first)?;
        let second = Step::new(alloc, second)?;
        if self.steps.reserve(2).is_err() {
            return Err(Memory);
        }
        self.steps.push_reserved(first);
        self.steps.push_reserved(second);
        Ok(())
    }

    /// The entries themselves.
    pub fn into_vec(self, alloc: Global) -> Result<Vec<Entry>, Memory>
        ensures { IfOk result (λ entries. entries.items ≡ self) }
    {
        let mut entries = Vec::with_capacity(alloc, self.steps.len())?;
        for step in self.steps {
            entries.push(step.into_entry())?;
        }
        Ok(entries)
    }
}
