//! Lists of names of tables, as they are answered.
ghost use Rattle.std.specs.Prelude.{◌≡◌, length, IfOk};

use std::alloc::Global;
use std::marker::Model;
use tab_keys::{Memory, TableName};

/// Names of tables, in the order in which they are listed.
#[derive(Debug, Drop)]
pub struct TableNames {
    names: Vec<TableName>,
}

impl Model for TableNames {
    ghost use Rattle.std.specs.Prelude.{List, ℕ, vec_items};

    ghost Value = { List (List ℕ) };

    ghost view = { λ list. list.names.items };
}

impl TableNames {
    /// The names, in the memory that they have.
    pub fn new(names: Vec<TableName>) -> TableNames
        ensures { result ≡ names.items }
    {
        TableNames { names }
    }

    /// The names, lent.
    pub fn as_slice(&self) -> &[TableName]
        ensures { result.now ≡ self.now }
    {
        self.names.as_slice()
    }

    /// How many there are.
    pub fn len(&self) -> usize
        ensures { result ≡ length self.now }
    {
        self.names.len()
    }

    /// The names themselves. It takes no memory.
    pub fn into_vec(self) -> Vec<TableName>
        ensures { result.items ≡ self }
    {
        self.names
    }

    /// A copy, or that no memory was found for it.
    pub fn try_copy(&self, alloc: Global) -> Result<TableNames, Memory>
        ensures { IfOk result (λ copy. copy ≡ self.now) }
    {
        let mut names = Vec::new(alloc);
        for name in &self.names {
            names.push(name.try_copy(alloc)?)?;
        }
        Ok(TableNames { names })
    }
}
