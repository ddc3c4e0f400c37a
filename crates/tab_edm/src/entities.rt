//! Entities: lists of properties within the limits of Microsoft's Table service REST reference, "Understanding the
//! Table service data model", "Entities", with the size that it counts them for.

ghost use Rattle.std.specs.Prelude.{◌≡◌, ◌≢◌, ◌≤◌, ◌<◌, List, length, slice_index_or, All, AllPairs, IfOk, IsFalse, MatchOption, IfNone, Some, None, Err};
ghost use Rattle.std.specs.List.Sorted.{IsPermutation};
ghost use Rattle.std.specs.Option.{option_copied};
ghost use Rattle.tab_edm.specs.Values.{is_reserved, IsInTime, IsProperty};
ghost use Rattle.tab_edm.specs.declared.entities.TheConstants.{MOST_PROPERTIES};
ghost use Rattle.tab_edm.specs.Entities.{IsEntity, IsRising, refused, first_refusal, entity_size, made, value_of};

use crate::values::PropertyFault;
use crate::{Memory, Property, Value};
use std::alloc::Global;
use std::marker::Model;
use std::sync::Arc;

/// The most properties of an entity, beside its keys and its timestamp.
pub const MOST_PROPERTIES: usize = 252;

/// The most bytes that an entity counts for.
pub const MOST_SIZE: u128 = 1_048_576;

/// Why properties make no entity.
#[derive(Debug, Drop)]
pub enum EdmRefused {
    /// The name of this property is not an identifier.
    NameInvalid(Property),
    /// The name of this property has more than 255 characters.
    NameTooLong(Property),
    /// The text of this property has more than 32,768 UTF-16 code units, or its bytes are more than 65,536.
    ValueTooLarge(Property),
    /// There are more than 252 properties.
    TooMany,
    /// The entity's size is above 1,048,576 bytes.
    TooLarge,
    /// No memory was found.
    Memory,
}

/// The properties of a row in byte order of their names, within the limits of an entity.
#[derive(Debug, Drop)]
pub struct Entity {
    properties: Arc<Vec<Property>, Global>,
    pk_units: usize,
    rk_units: usize,
    size: u64,
}

impl Model for Entity {
    ghost use Rattle.std.specs.Prelude.{◌≡◌, All, vec_items};
    ghost use Rattle.std.specs.Arc.{arc_value};
    ghost use Rattle.tab_edm.specs.Values.{IsProperty};
    ghost use Rattle.tab_edm.specs.Entities.{EntityView, IsEntity, entity_size};

    ghost Value = { EntityView };

    ghost view = { λ entity. record { properties = vec_items (arc_value entity.properties); pk_units = entity.pk_units; rk_units = entity.rk_units } };

    ghost invariant = { λ entity. IsEntity entity.pk_units entity.rk_units (vec_items (arc_value entity.properties))
        × (entity.size ≡ entity_size entity.pk_units entity.rk_units (vec_items (arc_value entity.properties)))
        × All IsProperty (vec_items (arc_value entity.properties)) };
}

impl Entity {
    /// The entity of a row whose keys have these numbers of UTF-16 code units.
    pub fn new(
        alloc: Global,
        pk_units: usize,
        rk_units: usize,
        properties: Vec<Property>,
    ) -> Result<Entity, EdmRefused>
        requires distinct { AllPairs (λ a b. a.name ≢ b.name) properties.items }
        requires unreserved { All (λ p. IsFalse (is_reserved p.name)) properties.items }
        requires in_time { All (λ p. IsInTime p.value) properties.items }
        ensures sorted { result ≢ Err EdmRefused.Memory → (sorted : List Property) × IsPermutation properties.items sorted × IsRising sorted × (result ≡ made pk_units rk_units sorted) }
        ensures exact { result ≢ Err EdmRefused.Memory → (sorted : List Property) → IsPermutation properties.items sorted → IsRising sorted → result ≡ made pk_units rk_units sorted }
    {
        Entity::from_sorted(alloc, pk_units, rk_units, sorted_by_name(properties))
    }

    /// The value of the property with this name.
    pub fn get(&self, name: &str) -> Option<&Value>
        ensures { option_copied result ≡ value_of name.now self.now.properties }
    {
        value_among(self.properties(), name)
    }

    /// The bytes that it counts for, its keys among them.
    pub fn size(&self) -> u64
        ensures { result ≡ entity_size self.now.pk_units self.now.rk_units self.now.properties }
    {
        self.size
    }

    /// The properties in byte order of their names.
    pub fn properties(&self) -> &[Property]
        ensures properties { result.now ≡ self.now.properties }
        ensures entity { IsEntity self.now.pk_units self.now.rk_units self.now.properties }
        ensures typed { All IsProperty self.now.properties }
    {
        let properties: &Vec<Property> = &self.properties;
        properties.as_slice()
    }

    /// The UTF-16 code units of the partition key that it was made for.
    pub fn pk_units(&self) -> usize
        ensures { result ≡ self.now.pk_units }
    {
        self.pk_units
    }

    /// The UTF-16 code units of the row key that it was made for.
    pub fn rk_units(&self) -> usize
        ensures { result ≡ self.now.rk_units }
    {
        self.rk_units
    }

    /// A copy that shares the memory of its properties: nothing is taken or copied, and no memory is found only where its
    /// copies are past counting.
    pub fn try_copy(&self, _alloc: Global) -> Result<Entity, Memory>
        ensures { IfOk result (λ copy. copy ≡ self.now) }
    {
        let Ok(properties) = Arc::try_clone(&self.properties) else {
            return Err(Memory);
        };
        Ok(Entity {
            properties,
            pk_units: self.pk_units,
            rk_units: self.rk_units,
            size: self.size,
        })
    }

    fn from_sorted(
        alloc: Global,
        pk_units: usize,
        rk_units: usize,
        mut properties: Vec<Property>,
    ) -> Result<Entity, EdmRefused>
        requires rising { IsRising properties.items }
        requires unreserved { All (λ p. IsFalse (is_reserved p.name)) properties.items }
        requires in_time { All (λ p. IsInTime p.value) properties.items }
        ensures { result ≢ Err EdmRefused.Memory → result ≡ made pk_units rk_units properties.items }
    {
        if let Some((index, fault)) = first_fault(&properties) {
            return Err(refused(fault, properties.swap_remove(index)));
        }
        if properties.len() > MOST_PROPERTIES {
            return Err(EdmRefused::TooMany);
        }
        let size = entity_size(pk_units, rk_units, &properties);
        if size > MOST_SIZE {
            return Err(EdmRefused::TooLarge);
        }
        let Ok(properties) = Arc::new(alloc, properties) else {
            return Err(EdmRefused::Memory);
        };
        Ok(Entity {
            properties,
            pk_units,
            rk_units,
            size: size as u64,
        })
    }
}

/// The value of the property with this name, of those in the order of their names.
fn value_among<'p>(properties: &'p [Property], name: &str) -> Option<&'p Value>
    requires { IsRising properties.now }
    ensures { option_copied result ≡ value_of name.now properties.now }
{
    match properties.binary_search_by(|p| p.name.as_str().cmp(name)) {
        Ok(index) => Some(&properties[index].value),
        Err(_) => None,
    }
}

fn sorted_by_name(mut properties: Vec<Property>) -> Vec<Property>
    requires { AllPairs (λ a b. a.name ≢ b.name) properties.items }
    ensures permutation { IsPermutation properties.items result.items }
    ensures rising { IsRising result.items }
{
    properties.sort_unstable_by(|a, b| a.name.as_str().cmp(b.name.as_str()));
    properties
}

/// The first property with a fault.
fn first_fault(properties: &[Property]) -> Option<(usize, PropertyFault)>
    ensures first { MatchOption result (first_refusal properties.now ≡ None)
        (λ found. (found.0 < length properties.now)
        × ((d : Property) → first_refusal properties.now ≡ Some (refused found.1 (slice_index_or properties.now found.0 d)))) }
    ensures typed { IfNone result (All IsProperty properties.now) }
{
    for (index, property) in properties.iter().enumerate() {
        if let Some(fault) = property.fault() {
            return Some((index, fault));
        }
    }
    None
}

fn refused(fault: PropertyFault, property: Property) -> EdmRefused
    ensures { result ≡ refused fault property }
{
    match fault {
        PropertyFault::NameInvalid => EdmRefused::NameInvalid(property),
        PropertyFault::NameTooLong => EdmRefused::NameTooLong(property),
        PropertyFault::ValueTooLarge => EdmRefused::ValueTooLarge(property),
    }
}

// In 128 bits, since any two numbers of units may be given.
fn entity_size(pk_units: usize, rk_units: usize, properties: &[Property]) -> u128
    requires few { length properties.now ≤ MOST_PROPERTIES }
    requires allowed { first_refusal properties.now ≡ None }
    ensures { result ≡ entity_size pk_units rk_units properties.now }
{
    let mut size = 4 + 2 * (pk_units as u128 + rk_units as u128);
    for property in properties {
        size += property.size() as u128;
    }
    size
}
