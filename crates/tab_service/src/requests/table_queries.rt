//! The query of a list of tables (the Table service's "Query Tables").
ghost use Rattle.tab_service.specs.Answers.{Gives};
ghost use Rattle.tab_service.specs.TableQueries.{after_of, token_name, without_filter, table_window};
ghost use Rattle.std.specs.Prelude.{◌≡◌};
ghost use Rattle.tab_keys.specs.TableNames.{name_refusal};
ghost use Rattle.tab_page.specs.QueryOptions.{text_of, seen_view};
ghost use Rattle.tab_page.specs.declared.queries.OptionRefused.TheVariants as option;
ghost use Rattle.tab_service.specs.declared.refusals.Refusal.TheVariants.{Options};
ghost use Rattle.tab_service.specs.declared.refusals.Refused.TheVariants.{Why};

use crate::{Refusal, Refused};
use std::alloc::Global;
use tab_keys::{KeyText, NameRefused, TableName};
use tab_page::{OptionRefused, OptionSeen, QueryOptions, token_of, top_of};

/// Which tables a query asks for.
#[derive(Debug, Drop)]
pub struct TableWindow {
    /// The list begins with this name, or with the next one behind it.
    pub after: Option<TableName>,
    /// How many there may be.
    pub top: u16,
}

/// Which tables a query asks for, or why it is refused.
#[tactic(auto, unfolding(crate::specs::TableQueries::table_window, crate::specs::TableQueries::sole_option, crate::specs::TableQueries::count_of, tab_page::specs::QueryOptions::options_in))]
pub fn table_window(alloc: Global, query: &str) -> Result<TableWindow, Refused>
    ensures { Gives result (table_window query.now) }
{
    let options = QueryOptions::read(alloc, query)?;
    let top = options.top.value()?;
    let token = options.table.value()?;
    let top = top_of(alloc, top)?;
    let after = after_of(alloc, token)?;
    Ok(without_filter(options.filter, TableWindow { after, top })?)
}

/// The name that the list begins with, by its token, which is not decoded yet.
fn after_of(alloc: Global, token: Option<&[u8]>) -> Result<Option<TableName>, Refused>
    ensures { Gives result (after_of (text_of token.entry)) }
{
    match token {
        Some(token) => name_after(alloc, &token_of(alloc, token)?),
        None => Ok(None),
    }
}

/// The table's name that the text of a token is.
fn name_after(alloc: Global, text: &KeyText) -> Result<Option<TableName>, Refused>
    ensures { Gives result (token_name text.now (name_refusal text.now)) }
{
    match TableName::new(alloc, text.as_str()) {
        Ok(name) => Ok(Some(name)),
        Err(NameRefused::BadName | NameRefused::Reserved) => Err(bad_token()),
        Err(NameRefused::Memory) => Err(Refused::Memory),
    }
}

fn bad_token() -> Refused
    ensures { result ≡ Why (Options option.BadToken) }
{
    Refused::Why(Refusal::Options(OptionRefused::BadToken))
}

/// The window, unless the query has a filter.
fn without_filter(filter: OptionSeen<'_>, window: TableWindow) -> Result<TableWindow, Refusal>
    ensures { result ≡ without_filter (seen_view filter.entry) window }
{
    match filter {
        OptionSeen::Absent => Ok(window),
        OptionSeen::Once(_) | OptionSeen::Doubled => Err(Refusal::FilterOfTables),
    }
}
