//! Merged entities (the Table service REST reference, "Merge Entity").
ghost use Rattle.std.specs.Prelude.{IfErr, ◌≡◌, ◌++◌, Ok, Err, Some, IfOk, filter};
ghost use Rattle.tab_keys.specs.Results.{Gives};
ghost use Rattle.tab_edm.specs.Entities.{IsEntity};
ghost use Rattle.tab_ops.specs.Changes.{IsTimely, merge_outcome};
ghost use Rattle.tab_ops.specs.Merges.{is_kept, refusal_for};

use crate::OpRefused;
use std::alloc::Global;
use tab_edm::{EdmRefused, Entity, Memory, Property};

/// The entity that a merge of given properties into kept ones makes, by the operation at this index.
pub(crate) fn merge(
    alloc: Global,
    index: usize,
    kept: &Entity,
    given: &Entity,
) -> Result<Entity, OpRefused>
    ensures entity { Gives OpRefused.Memory Some result (merge_outcome index kept.now given.now) }
    ensures timely { IfErr result IsTimely }
{
    let Ok(properties) = joined(alloc, kept, given) else {
        return Err(OpRefused::Memory);
    };
    match Entity::new(alloc, given.pk_units(), given.rk_units(), properties) {
        Ok(entity) => Ok(entity),
        Err(refused) => Err(refusal(index, &refused)),
    }
}

// A property of an entity has no fault of its own, so only the limits of the whole are left.
fn refusal(index: usize, refused: &EdmRefused) -> OpRefused
    ensures { result ≡ refusal_for index refused.now }
{
    match refused {
        EdmRefused::TooMany => OpRefused::TooMany { index },
        EdmRefused::TooLarge => OpRefused::TooLarge { index },
        _ => OpRefused::Memory,
    }
}

// The kept properties whose names are not given, and the given ones.
fn joined(alloc: Global, kept: &Entity, given: &Entity) -> Result<Vec<Property>, Memory>
    ensures joined { IfOk result (λ all. all.items ≡ filter (is_kept given.now.properties) kept.now.properties ++ given.now.properties) }
    ensures kept { IsEntity kept.now.pk_units kept.now.rk_units kept.now.properties }
    ensures given { IsEntity given.now.pk_units given.now.rk_units given.now.properties }
{
    let kept_properties = kept.properties();
    let given_properties = given.properties();
    let mut all = Vec::with_capacity(alloc, kept_properties.len() + given_properties.len())?;
    for property in kept_properties {
        if given.get(property.name.as_str()).is_none() {
            all.push(property.try_copy(alloc)?)?;
        }
    }
    for property in given_properties {
        all.push(property.try_copy(alloc)?)?;
    }
    Ok(all)
}
