//! What the names of comparisons stand for in a row, found once a comparison (the Table service REST reference, "Querying
//! tables and entities").

ghost use Rattle.std.specs.Prelude.{◌≡◌, IfOk};
ghost use Rattle.tab_filter.specs.Targets.{is_partition_key, is_row_key, is_timestamp, target_of};

use crate::Comparison;
use std::alloc::Global;
use std::marker::Model;
use tab_keys::Memory;

/// What the name of a comparison stands for in a row.
#[derive(Clone, Copy, Debug, PartialEq, Eq)]
pub enum Target {
    PartitionKey,
    RowKey,
    Timestamp,
    /// The property of that name.
    Property,
}

impl Target {
    #[tactic(auto, unfolding(crate::specs::Targets::target_of))]
    fn of(name: &str) -> Target
        ensures { result ≡ target_of name.now }
    {
        if is_partition_key(name) {
            Target::PartitionKey
        } else if is_row_key(name) {
            Target::RowKey
        } else if is_timestamp(name) {
            Target::Timestamp
        } else {
            Target::Property
        }
    }
}

/// A comparison, and what its name stands for, so that no row asks it again.
#[derive(Debug, Drop)]
pub struct Classified {
    comparison: Comparison,
    target: Target,
}

impl Model for Classified {
    ghost use Rattle.std.specs.Prelude.{◌≡◌};
    ghost use Rattle.tab_filter.specs.Targets.{target_of};
    ghost use Rattle.tab_filter.specs.declared.trees.Comparison.{Comparison};

    ghost Value = { Comparison };

    ghost view = { λ classified. classified.comparison };

    ghost invariant = { λ classified. classified.target ≡ target_of classified.comparison.name };
}

impl Classified {
    pub fn new(comparison: Comparison) -> Classified
        ensures { result ≡ comparison }
    {
        Classified {
            target: Target::of(comparison.name.as_str()),
            comparison,
        }
    }

    pub fn comparison(&self) -> &Comparison
        ensures { result.now ≡ self.now }
    {
        &self.comparison
    }

    pub fn target(&self) -> Target
        ensures { result ≡ target_of self.now.name }
    {
        self.target
    }

    /// A copy in memory of its own.
    pub fn try_copy(&self, alloc: Global) -> Result<Classified, Memory>
        ensures { IfOk result (λ copy. copy ≡ self.now) }
    {
        Ok(Classified {
            comparison: self.comparison.try_copy(alloc)?,
            target: self.target,
        })
    }
}

/// Whether the name stands for a row's partition key.
#[tactic(auto, unfolding(crate::specs::Targets::is_partition_key))]
pub fn is_partition_key(name: &str) -> bool
    ensures { result ≡ is_partition_key name.now }
{
    name == "PartitionKey"
}

/// Whether the name stands for a row's row key.
#[tactic(auto, unfolding(crate::specs::Targets::is_row_key))]
pub fn is_row_key(name: &str) -> bool
    ensures { result ≡ is_row_key name.now }
{
    name == "RowKey"
}

/// Whether the name stands for a row's tick.
#[tactic(auto, unfolding(crate::specs::Targets::is_timestamp))]
fn is_timestamp(name: &str) -> bool
    ensures { result ≡ is_timestamp name.now }
{
    name == "Timestamp"
}
