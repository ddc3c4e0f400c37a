//! The texts of entities and of pages (OData 3.0, JSON Format, "Representing an Entity" and "Representing a Feed").
ghost use Rattle.std.specs.Prelude.{◌≡◌, ◌≤◌, ◌++◌, ◌∷◌, [], IfOk, OnOk, flat_map, string_bytes};
ghost use Rattle.json.specs.Print.{print};
ghost use Rattle.json.specs.Token.{begin_object, end_object};
ghost use Rattle.serde_json.specs.Written.{compact_text};
ghost use Rattle.tab_json.specs.Entities.{version_of, entity_members, metadata, entity_json, page_json};
ghost use Rattle.tab_json.specs.Objects.{object_of};
ghost use Rattle.tab_json.specs.Written.{row_written, rows_written, metadata_written, page_written};

use crate::members_written::{metadata_address, put_address, put_entity};
use crate::texts::JsonText;
use crate::written::WrittenMembers;
use json::Token;
use std::alloc::{AllocError, Global};
use std::marker::Model;
use tab_edm::{Entity, GREATEST};
use tab_keys::{KeyText, Memory, TableName};
use tab_page::{Page, Select};
use tab_rows::Row;

/// The members for which there is room at first: the keys, the moment, and some properties.
const MEMBERS: usize = 16;

/// The bytes for which there is room at first: of an entity alone, and of each row of a page.
const ENTITY_ROOM: usize = 256;

const ROW_ROOM: usize = 160;

/// How entities are written: with minimal metadata or with none, and which of their properties.
#[derive(Debug, Drop)]
pub struct JsonForm {
    /// With minimal metadata: the address, the ETag and the annotations of types (`odata=minimalmetadata`).
    pub minimal: bool,
    /// The properties that are written.
    pub select: Select,
}

/// An entity alone, as in the answer to a point read.
pub fn write_entity(
    alloc: Global,
    account: &str,
    name: &TableName,
    row: &Row,
    form: &JsonForm,
) -> Result<String, Memory>
    ensures { IfOk result (λ text. string_bytes text ≡ entity_json account.now name.now form.now (version_of row.now)) }
{
    write_version(alloc, account, name, &Version::of(row), form)
}

/// An entity alone whose row is not at hand, as in the answer to an insert.
pub fn write_version(
    alloc: Global,
    account: &str,
    name: &TableName,
    version: &Version,
    form: &JsonForm,
) -> Result<String, Memory>
    ensures { IfOk result (λ text. string_bytes text ≡ entity_json account.now name.now form.now version.now) }
{
    let address = metadata_address(alloc, account, name.as_str(), "/@Element", form)?;
    addressed_text(alloc, address.as_str(), version, form)
}

/// The entities of a page. Where the next page begins is no part of the text.
pub fn write_page(
    alloc: Global,
    account: &str,
    name: &TableName,
    page: &Page,
    form: &JsonForm,
) -> Result<String, Memory>
    ensures { IfOk result (λ text. string_bytes text ≡ page_json account.now name.now form.now page.now.rows) }
{
    let address = metadata_address(alloc, account, name.as_str(), "", form)?;
    page_text(alloc, address.as_str(), page.rows.as_slice(), form)
}

/// What a client sees of a row: an entity with its keys and the tick of the change that wrote it.
#[derive(Debug, Drop)]
pub struct Version<'a> {
    pub(crate) pk: &'a KeyText,
    pub(crate) rk: &'a KeyText,
    pub(crate) entity: &'a Entity,
    pub(crate) tick: u64,
}

impl<'a> Model for Version<'a> {
    ghost use Rattle.std.specs.Prelude.{◌≤◌};
    ghost use Rattle.tab_edm.specs.declared.TheConstants.{GREATEST};
    ghost use Rattle.tab_json.specs.Entities.{VersionView};

    ghost Value = { VersionView };

    ghost view = { λ version. record {
      pk = version.pk.now;
      rk = version.rk.now;
      properties = version.entity.now.properties;
      tick = version.tick;
    } };

    ghost invariant = { λ version. version.tick ≤ GREATEST };
}

impl<'a> Version<'a> {
    /// An entity that a change with this tick wrote at these keys.
    pub fn new(pk: &'a KeyText, rk: &'a KeyText, entity: &'a Entity, tick: u64) -> Version<'a>
        requires { tick ≤ GREATEST }
        ensures { result ≡ record { pk = pk.now; rk = rk.now; properties = entity.now.properties; tick = tick } }
    {
        Version {
            pk,
            rk,
            entity,
            tick,
        }
    }

    /// What a client sees of a kept row.
    pub fn of(row: &'a Row) -> Version<'a>
        ensures { result ≡ version_of row.now }
    {
        Version::new(&row.key.pk, &row.key.rk, &row.entity, row.tick)
    }

    /// The tick of the change that wrote it.
    pub fn tick(&self) -> u64
        ensures tick { result ≡ self.now.tick }
        ensures in_time { result ≤ GREATEST }
    {
        self.tick
    }
}

/// The text of an entity whose metadata has this address.
#[tactic(auto, unfolding(crate::specs::Objects::object_of))]
fn addressed_text(
    alloc: Global,
    address: &str,
    version: &Version,
    form: &JsonForm,
) -> Result<String, Memory>
    ensures { IfOk result (λ text. string_bytes text ≡ compact_text (object_of (entity_members form.now version.now ++ metadata form.now address.now))) }
{
    let mut members = WrittenMembers::with_capacity(alloc, MEMBERS)?;
    put_entity(&mut members, version, form)?;
    put_address(&mut members, address, form)?;
    let mut text = JsonText::with_capacity(alloc, ENTITY_ROOM)?;
    text.write_object(&members)?;
    Ok(text.finish())
}

/// The text of a page whose metadata has this address.
fn page_text(alloc: Global, address: &str, rows: &[Row], form: &JsonForm) -> Result<String, Memory>
    ensures { IfOk result (λ text. string_bytes text ≡ print (begin_object ∷ (page_written form.now address.now rows.now ++ end_object ∷ []))) }
{
    let mut text = JsonText::with_capacity(
        alloc,
        rows.len()
            .saturating_mul(ROW_ROOM)
            .saturating_add(ENTITY_ROOM),
    )?;
    write_page_object(&mut text, alloc, address, rows, form)?;
    Ok(text.finish())
}

fn write_page_object(
    text: &mut JsonText,
    alloc: Global,
    address: &str,
    rows: &[Row],
    form: &JsonForm,
) -> Result<(), Memory>
    ensures { OnOk result (text.new ≡ text.old ++ begin_object ∷ (page_written form.now address.now rows.now ++ end_object ∷ [])) }
{
    text.write(Token::BeginObject)?;
    write_page_members(text, alloc, address, rows, form)?;
    text.write(Token::EndObject)?;
    Ok(())
}

fn write_page_members(
    text: &mut JsonText,
    alloc: Global,
    address: &str,
    rows: &[Row],
    form: &JsonForm,
) -> Result<(), Memory>
    ensures { OnOk result (text.new ≡ text.old ++ page_written form.now address.now rows.now) }
{
    write_metadata(text, address, form)?;
    text.write(Token::Key("value"))?;
    write_array(text, alloc, rows, form)
}

fn write_metadata(text: &mut JsonText, address: &str, form: &JsonForm) -> Result<(), AllocError>
    ensures { OnOk result (text.new ≡ text.old ++ metadata_written form.now address.now) }
{
    if form.minimal {
        text.write(Token::Key("odata.metadata"))?;
        text.write(Token::String(address))?;
    }
    Ok(())
}

fn write_array(
    text: &mut JsonText,
    alloc: Global,
    rows: &[Row],
    form: &JsonForm,
) -> Result<(), Memory>
    ensures { OnOk result (text.new ≡ text.old ++ rows_written form.now rows.now) }
{
    text.write(Token::BeginArray)?;
    write_rows(text, alloc, rows, form)?;
    text.write(Token::EndArray)?;
    Ok(())
}

fn write_rows(
    text: &mut JsonText,
    alloc: Global,
    rows: &[Row],
    form: &JsonForm,
) -> Result<(), Memory>
    ensures { OnOk result (text.new ≡ text.old ++ flat_map (row_written form.now) rows.now) }
{
    let mut members = WrittenMembers::with_capacity(alloc, MEMBERS)?;
    for row in rows {
        write_row(text, &mut members, row, form)?;
    }
    Ok(())
}

#[tactic(auto, unfolding(crate::specs::Objects::object_of))]
fn write_row<'a>(
    text: &mut JsonText,
    members: &mut WrittenMembers<'a>,
    row: &'a Row,
    form: &JsonForm,
) -> Result<(), Memory>
    ensures { OnOk result (text.new ≡ text.old ++ row_written form.now row.now) }
{
    members.clear();
    put_entity(members, &Version::of(row), form)?;
    text.write_object(members)
}
