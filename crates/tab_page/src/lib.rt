//! Queries and their pages: what a query asks for and how its options are read, which rows a page has, and where the
//! next one begins.
#![tactic(auto)]

mod laws;
mod page_rule;
mod pages;
mod queries;
mod query_options;
mod selects;
mod tokens;

pub use laws::{
    pages_of_a_span_are_pages_of_all, queries_go_on_where_tokens_say, tokens_are_handed_back,
};
pub use page_rule::{page, page_prefix, start_key};
pub use pages::{Options, Page, PageRows};
pub use queries::{OptionRefused, token_of, top_is_a_decimal, top_of};
pub use query_options::{OptionSeen, QueryOptions};
pub use selects::{Names, Select};
pub use tokens::{Token, TokenRefused, tokens_have_one_spelling};

/// The most rows that a page may have, and how many it may have where its query does not say.
pub const MOST_ROWS: u16 = 1_000;

/// The most rows that a page looks at.
pub const MOST_LOOKED_AT: usize = 10_000;
