//! The texts of a table and of lists of tables (the Table service REST reference, "Create Table" and "Query Tables").
ghost use Rattle.std.specs.Prelude.{◌≡◌, [], ◌∷◌, ◌++◌, IfOk, OnOk, codes, map, string_bytes};
ghost use Rattle.serde_json.specs.Data.{no_members};
ghost use Rattle.serde_json.specs.View.{view, members_view};
ghost use Rattle.tab_json.specs.Entities.{metadata, metadata_address};
ghost use Rattle.tab_json.specs.Objects.{object_of, with_members};
ghost use Rattle.tab_json.specs.Tables.{table_name, table_data, tables_data, table_json, tables_json};

use crate::JsonForm;
use crate::members_written::metadata_address;
use serde_json::{Map, Value as Json, push, put};
use std::alloc::Global;
use tab_keys::{Memory, TableName};

/// A table alone, as in the answer to its creation.
pub fn write_table(
    alloc: Global,
    account: &str,
    name: &TableName,
    form: &JsonForm,
) -> Result<String, Memory>
    ensures { IfOk result (λ text. string_bytes text ≡ table_json account.now name.now form.now) }
{
    let value = table_value(alloc, account, name.as_str(), form)?;
    Ok(value.to_string(alloc)?)
}

/// The tables of a list. Where the next list begins is no part of the text.
pub fn write_tables(
    alloc: Global,
    account: &str,
    names: &[TableName],
    form: &JsonForm,
) -> Result<String, Memory>
    ensures { IfOk result (λ text. string_bytes text ≡ tables_json account.now names.now form.now) }
{
    let value = tables_value(alloc, account, names, form)?;
    Ok(value.to_string(alloc)?)
}

#[tactic(auto, unfolding(crate::specs::Tables::table_data))]
fn table_value(alloc: Global, account: &str, name: &str, form: &JsonForm) -> Result<Json, Memory>
    ensures { IfOk result (λ value. view value ≡ table_data account.now name.now form.now) }
{
    let mut members = name_members(alloc, name)?;
    put_metadata(&mut members, alloc, account, "/@Element", form)?;
    Ok(Json::from(members))
}

#[tactic(auto, unfolding(crate::specs::Tables::tables_data))]
fn tables_value(
    alloc: Global,
    account: &str,
    names: &[TableName],
    form: &JsonForm,
) -> Result<Json, Memory>
    ensures { IfOk result (λ value. view value ≡ tables_data account.now names.now form.now) }
{
    let mut members = Map::new(alloc);
    put_metadata(&mut members, alloc, account, "", form)?;
    let values = table_values(alloc, names)?;
    put(&mut members, alloc, "value", Json::from(values))?;
    Ok(Json::from(members))
}

#[tactic(auto, unfolding(crate::specs::Objects::object_of))]
fn table_values(alloc: Global, names: &[TableName]) -> Result<Vec<Json>, Memory>
    ensures { IfOk result (λ values. map view values.items ≡ map (λ name. object_of (table_name name ∷ [])) names.now) }
{
    let mut values = Vec::with_capacity(alloc, names.len())?;
    for name in names {
        let members = name_members(alloc, name.as_str())?;
        push(&mut values, Json::from(members))?;
    }
    Ok(values)
}

#[tactic(auto, unfolding(crate::specs::Objects::with_members))]
fn name_members(alloc: Global, name: &str) -> Result<Map<String, Json>, Memory>
    ensures { IfOk result (λ members. members_view members.entries ≡ with_members no_members (table_name name.now ∷ [])) }
{
    let mut members = Map::new(alloc);
    put(
        &mut members,
        alloc,
        "TableName",
        Json::try_from_str(alloc, name)?,
    )?;
    Ok(members)
}

/// Puts the address of the metadata of the list of tables, or with a suffix of one table.
#[tactic(auto, unfolding(crate::specs::Objects::with_members))]
fn put_metadata(
    members: &mut Map<String, Json>,
    alloc: Global,
    account: &str,
    suffix: &str,
    form: &JsonForm,
) -> Result<(), Memory>
    ensures { OnOk result (members_view members.new.entries
        ≡ with_members (members_view members.old.entries) (metadata form.now (metadata_address account.now (codes "Tables") ++ suffix.now))) }
{
    if form.minimal {
        let address = metadata_address(alloc, account, "Tables", suffix, form)?;
        put(members, alloc, "odata.metadata", Json::from(address))?;
    }
    Ok(())
}
