//! The members of an object that is written: those of an entity, put in one pass over it, and the address of its metadata (OData
//! 3.0, JSON Format, "Representing an Entity").
ghost use Rattle.std.specs.Prelude.{◌≡◌, ◌≤◌, [], ◌∷◌, ◌++◌, true, IfOk, OnOk, codes, flat_map, string_bytes};
ghost use Rattle.serde_json.specs.Data.{string};
ghost use Rattle.tab_edm.specs.Moments.{text_of_moment};
ghost use Rattle.tab_edm.specs.Values.{IsInTime};
ghost use Rattle.tab_json.specs.Entities.{is_selected, if_selected, annotation, property_members, key_members, etag, entity_members, metadata, metadata_address};
ghost use Rattle.tab_json.specs.Objects.{with_members};
ghost use Rattle.tab_json.specs.Written.{written_members};

use crate::slots::Name;
use crate::values::annotated_type;
use crate::written::{Leaf, WrittenMembers};
use crate::{JsonForm, Version};
use std::alloc::{AllocError, Global};
use tab_edm::{Entity, GREATEST, Property};
use tab_keys::Memory;
use tab_page::Select;

/// Puts the members of an entity, the address of its metadata aside.
pub(crate) fn put_entity<'a>(
    members: &mut WrittenMembers<'a>,
    version: &Version<'a>,
    form: &JsonForm,
) -> Result<(), AllocError>
    ensures { OnOk result (written_members members.new ≡ with_members (written_members members.old) (entity_members form.now version.now)) }
{
    put_properties(members, version.entity, form)?;
    put_keys(members, version, form)?;
    put_etag(members, version.tick, form)
}

fn put_properties<'a>(
    members: &mut WrittenMembers<'a>,
    entity: &'a Entity,
    form: &JsonForm,
) -> Result<(), AllocError>
    ensures { OnOk result (written_members members.new
        ≡ with_members (written_members members.old) (flat_map (property_members form.now) entity.now.properties)) }
{
    for property in entity.properties() {
        put_property(members, property, form)?;
    }
    Ok(())
}

#[tactic(auto, unfolding(crate::specs::Entities::property_members, crate::specs::Objects::with_members))]
fn put_property<'a>(
    members: &mut WrittenMembers<'a>,
    property: &'a Property,
    form: &JsonForm,
) -> Result<(), AllocError>
    requires { IsInTime property.now.value }
    ensures { OnOk result (written_members members.new
        ≡ with_members (written_members members.old) (property_members form.now property.now)) }
{
    let name = property.name.as_str();
    if !is_selected(&form.select, name) {
        return Ok(());
    }
    members.put(Name::Plain(name), Leaf::Value(&property.value))?;
    if form.minimal {
        put_annotation(members, property)?;
    }
    Ok(())
}

#[tactic(auto, unfolding(crate::specs::Entities::annotation, crate::specs::Objects::with_members))]
fn put_annotation<'a>(
    members: &mut WrittenMembers<'a>,
    property: &'a Property,
) -> Result<(), AllocError>
    ensures { OnOk result (written_members members.new
        ≡ with_members (written_members members.old) (annotation property.now)) }
{
    let Some(kind) = annotated_type(&property.value) else {
        return Ok(());
    };
    let name = property.name.as_str();
    members.put(Name::Annotation(name), Leaf::Text(kind))
}

fn put_keys<'a>(
    members: &mut WrittenMembers<'a>,
    version: &Version<'a>,
    form: &JsonForm,
) -> Result<(), AllocError>
    ensures { OnOk result (written_members members.new
        ≡ with_members (written_members members.old) (key_members form.now version.now)) }
{
    put_key(members, "PartitionKey", version.pk.as_str(), &form.select)?;
    put_key(members, "RowKey", version.rk.as_str(), &form.select)?;
    put_timestamp(members, version.tick, &form.select)
}

#[tactic(auto, unfolding(crate::specs::Objects::with_members))]
fn put_key<'a>(
    members: &mut WrittenMembers<'a>,
    name: &'static str,
    text: &'a str,
    select: &Select,
) -> Result<(), AllocError>
    ensures { OnOk result (written_members members.new
        ≡ with_members (written_members members.old) (if_selected select.now name.now ((name.now, string text.now) ∷ []))) }
{
    if is_selected(select, name) {
        members.put(Name::Plain(name), Leaf::Text(text))?;
    }
    Ok(())
}

#[tactic(auto, unfolding(crate::specs::Objects::with_members))]
fn put_timestamp(members: &mut WrittenMembers, tick: u64, select: &Select) -> Result<(), AllocError>
    requires { tick ≤ GREATEST }
    ensures { OnOk result (written_members members.new
        ≡ with_members (written_members members.old)
        (if_selected select.now (codes "Timestamp") ((codes "Timestamp", string (text_of_moment tick)) ∷ []))) }
{
    if is_selected(select, "Timestamp") {
        members.put(Name::Plain("Timestamp"), Leaf::Moment(tick))?;
    }
    Ok(())
}

#[tactic(auto, unfolding(crate::specs::Objects::with_members))]
fn put_etag(members: &mut WrittenMembers, tick: u64, form: &JsonForm) -> Result<(), AllocError>
    requires { tick ≤ GREATEST }
    ensures { OnOk result (written_members members.new
        ≡ with_members (written_members members.old) (etag form.now tick)) }
{
    if form.minimal {
        members.put(Name::Plain("odata.etag"), Leaf::ETag(tick))?;
    }
    Ok(())
}

/// Puts the address of metadata.
#[tactic(auto, unfolding(crate::specs::Objects::with_members))]
pub(crate) fn put_address<'a>(
    members: &mut WrittenMembers<'a>,
    address: &'a str,
    form: &JsonForm,
) -> Result<(), AllocError>
    ensures { OnOk result (written_members members.new
        ≡ with_members (written_members members.old) (metadata form.now address.now)) }
{
    if form.minimal {
        members.put(Name::Plain("odata.metadata"), Leaf::Text(address))?;
    }
    Ok(())
}

/// The address of the metadata of a table, or with a suffix of one of its entities, where it is named.
#[tactic(auto, unfolding(crate::specs::Entities::metadata_address))]
pub(crate) fn metadata_address(
    alloc: Global,
    account: &str,
    name: &str,
    suffix: &str,
    form: &JsonForm,
) -> Result<String, Memory>
    ensures { IfOk result (λ text. form.now.minimal ≡ true → string_bytes text ≡ metadata_address account.now name.now ++ suffix.now) }
{
    if form.minimal {
        Ok(format!(in alloc; "http://localhost/{account}/$metadata#{name}{suffix}")?)
    } else {
        Ok(String::new(alloc))
    }
}

fn is_selected(select: &Select, name: &str) -> bool
    ensures { result ≡ is_selected select.now name.now }
{
    match select {
        Select::All => true,
        Select::Names(names) => names.contains(name),
    }
}
