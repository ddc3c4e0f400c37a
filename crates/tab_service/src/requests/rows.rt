//! Requests that read: a page of a table, and one row (the Table service's "Query Entities").
ghost use Rattle.tab_service.specs.Answers.{Gives};
ghost use Rattle.tab_service.specs.Requests.{decided_page, decided_row};

use super::formats::format_for;
use crate::forms::{form_of, plain_part};
use crate::{Prefer, Refused, Request};
use std::alloc::Global;
use tab_history::Ask;
use tab_http::Header;
use tab_keys::{KeyText, TableName};
use tab_page::{Options, Select};

/// The request for a page, or why it is refused.
#[tactic(auto, unfolding(crate::specs::Requests::decided_page, crate::specs::Requests::query_options))]
pub fn decided_page(
    alloc: Global,
    account: &str,
    query: &str,
    headers: &[Header],
    name: TableName,
) -> Result<Request, Refused>
    ensures { Gives result (decided_page account.now query.now headers.now name) }
{
    let minimal = format_for(alloc, headers)?;
    let options = Options::read(alloc, query)?;
    let select = options.select.try_copy(alloc)?;
    let part = plain_part(minimal, Prefer::Unsaid);
    let form = form_of(alloc, account, select, part)?;
    Ok(Request {
        ask: Ask::Page { name, options },
        form,
    })
}

/// The request for one row, or why it is refused.
#[tactic(auto, unfolding(crate::specs::Requests::decided_row, crate::specs::Requests::query_select))]
pub fn decided_row(
    alloc: Global,
    account: &str,
    query: &str,
    headers: &[Header],
    name: TableName,
    keys: (KeyText, KeyText),
) -> Result<Request, Refused>
    ensures { Gives result (decided_row account.now query.now headers.now name keys) }
{
    let minimal = format_for(alloc, headers)?;
    let select = Select::read(alloc, query)?;
    let part = plain_part(minimal, Prefer::Unsaid);
    let form = form_of(alloc, account, select, part)?;
    let (pk, rk) = keys;
    Ok(Request {
        ask: Ask::Get { name, pk, rk },
        form,
    })
}
