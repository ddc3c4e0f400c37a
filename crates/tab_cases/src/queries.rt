//! Cases of the options of queries, of what they select, and of continuation tokens.

use crate::answers::{Answer, field, refused, told, unknown, yes_or_no};
use crate::filters::refused_filter;
use crate::keys::key_text;
use crate::stops::{NO_MEMORY, Stop};
use std::alloc::Global;
use tab_keys::KeyText;
use tab_page::{OptionRefused, Options, Select, Token, TokenRefused};

/// `query TEXT`: what it asks for, or why it is refused. `select QUERY | NAME`: whether a point read by this query selects
/// the name. `token TEXT`: the key that it is the token of. `of KEY`: the token of the key.
pub fn answer(alloc: Global, word: &str, fields: &[String]) -> Answer {
    match (word, fields.len()) {
        ("query", 1) => query(alloc, field(fields, 0)?),
        ("select", 2) => select(alloc, field(fields, 0)?, field(fields, 1)?),
        ("token", 1) => token(alloc, field(fields, 0)?),
        ("of", 1) => token_of(alloc, fields),
        _ => unknown(),
    }
}

fn query(alloc: Global, query: &str) -> Answer {
    match Options::read(alloc, query) {
        Ok(options) => asked(alloc, &options),
        Err(why) => refused_query(alloc, why),
    }
}

/// What a query asks for.
fn asked(alloc: Global, options: &Options) -> Answer {
    let mut came = format!(in alloc; "top {}", options.top)?;
    if let Some((pk, rk)) = &options.start {
        add_start(&mut came, pk, rk)?;
    }
    if options.filter.is_some() {
        came.push_str(" filtered")?;
    }
    Ok(came)
}

fn add_start(came: &mut String, pk: &KeyText, rk: &KeyText) -> Result<(), Stop> {
    came.push_str(" from ")?;
    came.push_str(pk.as_str())?;
    came.push_str("/")?;
    came.push_str(rk.as_str())?;
    Ok(())
}

fn refused_query(alloc: Global, why: OptionRefused) -> Answer {
    match why {
        OptionRefused::Filter(why) => refused_filter(alloc, why),
        why => refused(alloc, &why),
    }
}

fn select(alloc: Global, query: &str, name: &str) -> Answer {
    match Select::read(alloc, query) {
        Ok(Select::All) => told(alloc, &["all"]),
        Ok(Select::Names(names)) => yes_or_no(alloc, names.contains(name)),
        Err(why) => refused_query(alloc, why),
    }
}

fn token(alloc: Global, token: &str) -> Answer {
    match Token::read(alloc, token) {
        Ok(key) => told(alloc, &["of '", key.as_str(), "'"]),
        Err(TokenRefused::BadToken) => told(alloc, &["refused"]),
        Err(TokenRefused::Memory) => Err(NO_MEMORY),
    }
}

fn token_of(alloc: Global, fields: &[String]) -> Answer {
    let key = key_text(alloc, fields, 0)?;
    Ok(Token::text(alloc, &key)?)
}
