//! Requests on tables: to make one, to drop one, to list them ("Create Table", "Delete Table", "Query Tables").
ghost use Rattle.tab_service.specs.Answers.{Gives};
ghost use Rattle.tab_service.specs.Requests.{body_name, decided_tables, decided_create, decided_drop};

use super::formats::{format_for, format_with_body, preference_for};
use super::names::table_name;
use super::table_queries::{TableWindow, table_window};
use crate::forms::{form_of, plain_part};
use crate::{Prefer, Refusal, Refused, Request};
use std::alloc::Global;
use tab_history::Ask;
use tab_http::Header;
use tab_json::{JsonRefused, read_table};
use tab_keys::TableName;
use tab_page::Select;

/// The request for a list of tables, or why it is refused.
#[tactic(auto, unfolding(crate::specs::Requests::decided_tables))]
pub fn decided_tables(
    alloc: Global,
    account: &str,
    query: &str,
    headers: &[Header],
) -> Result<Request, Refused>
    ensures { Gives result (decided_tables account.now query.now headers.now) }
{
    let minimal = format_for(alloc, headers)?;
    let TableWindow { after, top } = table_window(alloc, query)?;
    let part = plain_part(minimal, Prefer::Unsaid);
    let form = form_of(alloc, account, Select::All, part)?;
    Ok(Request {
        ask: Ask::Tables { after, top },
        form,
    })
}

/// The request for a table to be made, or why it is refused.
#[tactic(auto, unfolding(crate::specs::Requests::decided_create))]
pub fn decided_create(
    alloc: Global,
    account: &str,
    headers: &[Header],
    body: &[u8],
) -> Result<Request, Refused>
    ensures { Gives result (decided_create account.now headers.now body.now) }
{
    let minimal = format_with_body(alloc, headers)?;
    let name = body_name(alloc, body)?;
    let part = plain_part(minimal, preference_for(headers));
    let form = form_of(alloc, account, Select::All, part)?;
    Ok(Request {
        ask: Ask::Create(name),
        form,
    })
}

/// The request for a table to be dropped, or why it is refused.
#[tactic(auto, unfolding(crate::specs::Requests::decided_drop))]
pub fn decided_drop(
    alloc: Global,
    account: &str,
    headers: &[Header],
    name: TableName,
) -> Result<Request, Refused>
    ensures { Gives result (decided_drop account.now headers.now name) }
{
    let minimal = format_for(alloc, headers)?;
    let part = plain_part(minimal, Prefer::Unsaid);
    let form = form_of(alloc, account, Select::All, part)?;
    Ok(Request {
        ask: Ask::Drop(name),
        form,
    })
}

/// The name of the table that a body gives.
#[tactic(auto, unfolding(crate::specs::Requests::body_name))]
fn body_name(alloc: Global, bytes: &[u8]) -> Result<TableName, Refused>
    ensures { Gives result (body_name bytes.now) }
{
    match read_table(alloc, bytes) {
        Ok(text) => table_name(alloc, text.as_str()),
        Err(JsonRefused::Memory) => Err(Refused::Memory),
        Err(JsonRefused::ValueType(_)) => Err(Refused::Why(Refusal::NoTableName)),
        Err(why) => Err(Refused::Why(Refusal::Body(why))),
    }
}
