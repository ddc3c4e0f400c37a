//! JSON both ways, in the forms of OData: what bodies give, and the texts of entities, pages, tables and faults.
#![tactic(auto)]

mod bodies;
mod entities;
mod faults;
mod laws;
mod lent;
mod members_read;
mod members_written;
mod slots;
mod tables;
mod texts;
mod types;
mod values;
mod written;

pub use bodies::{BodyEntity, JsonRefused, Properties, read_entity, read_entity_with, read_table};
pub use entities::{JsonForm, Version, write_entity, write_page, write_version};
pub use faults::write_fault;
pub use json::Scratch;
pub use laws::{entities_are_read_back, json_texts_are_one_line};
pub use tables::{write_table, write_tables};
