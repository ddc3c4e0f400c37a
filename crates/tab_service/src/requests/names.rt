//! The names of tables and the keys of rows, as paths and bodies have them.
ghost use Rattle.tab_service.specs.Answers.{Gives};
ghost use Rattle.tab_service.specs.Requests.{table_name, path_key, row_keys};

use crate::{Refusal, Refused};
use std::alloc::Global;
use tab_keys::{KeyRefused, KeyText, NameRefused, TableName};

/// The name of a table, in a path or a body.
#[tactic(auto, unfolding(crate::specs::Requests::table_name))]
pub fn table_name(alloc: Global, text: &str) -> Result<TableName, Refused>
    ensures { Gives result (table_name text.now) }
{
    match TableName::new(alloc, text) {
        Ok(name) => Ok(name),
        Err(NameRefused::BadName | NameRefused::Reserved) => Err(Refused::Why(Refusal::Name)),
        Err(NameRefused::Memory) => Err(Refused::Memory),
    }
}

/// The keys of a path.
#[tactic(auto, unfolding(crate::specs::Requests::row_keys))]
pub fn row_keys(alloc: Global, pk: &str, rk: &str) -> Result<(KeyText, KeyText), Refused>
    ensures { Gives result (row_keys pk.now rk.now) }
{
    let pk = path_key(alloc, pk)?;
    let rk = path_key(alloc, rk)?;
    Ok((pk, rk))
}

/// A key of a path.
#[tactic(auto, unfolding(crate::specs::Requests::path_key))]
fn path_key(alloc: Global, text: &str) -> Result<KeyText, Refused>
    ensures { Gives result (path_key text.now) }
{
    match KeyText::new(alloc, text) {
        Ok(key) => Ok(key),
        Err(KeyRefused::Memory) => Err(Refused::Memory),
        Err(why) => Err(Refused::Why(Refusal::Key(why))),
    }
}
