//! Which of their properties a query asks for (`$select`: OData 3.0, URI Conventions, "Select System Query Option"; the Table
//! service takes names alone, and no paths).
ghost use Rattle.std.specs.Prelude.{◌≡◌, [], ◌∷◌, ◌++◌, IfOk, OnOk, bytes_eq, filter, map, reverse, string_bytes};
ghost use Rattle.std.specs.List.{list_any};
ghost use Rattle.tab_page.specs.Queries.{selection, asks_for_all, names_in, is_name, trimmed, without_spaces};

use std::alloc::Global;
use std::marker::Model;
use tab_keys::Memory;

/// Names of properties, in the order in which they were given.
#[derive(Debug, Drop)]
pub struct Names {
    texts: Vec<String>,
}

impl Model for Names {
    ghost use Rattle.std.specs.Prelude.{List, ℕ, map, string_bytes};

    ghost Value = { List (List ℕ) };

    ghost view = { λ names. map string_bytes names.texts.items };
}

impl Names {
    /// The names, in the order in which they stand.
    pub fn new(texts: Vec<String>) -> Names
        ensures { result ≡ map string_bytes texts.items }
    {
        Names { texts }
    }

    /// Whether one of them is this name; case counts.
    pub fn contains(&self, name: &str) -> bool
        ensures { result ≡ list_any (λ other. bytes_eq other name.now) self.now }
    {
        has_text(self.texts.as_slice(), name)
    }

    /// A copy, or that no memory was found for it.
    pub fn try_copy(&self, alloc: Global) -> Result<Names, Memory>
        ensures { IfOk result (λ copy. copy ≡ self.now) }
    {
        let texts = copied_texts(alloc, self.texts.as_slice())?;
        Ok(Names { texts })
    }
}

fn has_text(texts: &[String], name: &str) -> bool
    ensures { result ≡ list_any (λ text. bytes_eq (string_bytes text) name.now) texts.now }
{
    texts.iter().any(|text| text.as_str() == name)
}

fn copied_texts(alloc: Global, texts: &[String]) -> Result<Vec<String>, Memory>
    ensures { IfOk result (λ copies. map string_bytes copies.items ≡ map string_bytes texts.now) }
{
    let mut copies = Vec::new(alloc);
    for text in texts {
        copies.push(String::from_str(alloc, text.as_str())?)?;
    }
    Ok(copies)
}

/// The properties that a query asks for.
#[derive(Debug, Drop)]
pub enum Select {
    /// All of them.
    All,
    /// Those of these names alone.
    Names(Names),
}

impl Select {
    /// A copy, or that no memory was found for it.
    pub fn try_copy(&self, alloc: Global) -> Result<Select, Memory>
        ensures { IfOk result (λ copy. copy ≡ self.now) }
    {
        match self {
            Select::All => Ok(Select::All),
            Select::Names(names) => Ok(Select::Names(names.try_copy(alloc)?)),
        }
    }
}

impl Select {
    /// What the decoded value of `$select` asks for.
    pub(crate) fn named(alloc: Global, text: &str) -> Result<Select, Memory>
        ensures { IfOk result (λ select. select ≡ selection (names_in text.now)) }
    {
        let names = names_in(alloc, text)?;
        if asks_for_all(names.as_slice()) {
            Ok(Select::All)
        } else {
            Ok(Select::Names(Names::new(names)))
        }
    }
}

fn asks_for_all(names: &[String]) -> bool
    ensures { result ≡ asks_for_all (map string_bytes names.now) }
{
    names.is_empty() || has_text(names, "*")
}

/// The names between commas, without the spaces round them.
fn names_in(alloc: Global, text: &str) -> Result<Vec<String>, Memory>
    ensures { IfOk result (λ names. map string_bytes names.items ≡ names_in text.now) }
{
    let mut names = Vec::new(alloc);
    for piece in text.split(',') {
        add_name(alloc, &mut names, trimmed(piece))?;
    }
    Ok(names)
}

/// Adds a copy of the name, if it is not empty.
fn add_name(alloc: Global, names: &mut Vec<String>, name: &str) -> Result<(), Memory>
    ensures { OnOk result (map string_bytes names.new.items ≡ map string_bytes names.old.items ++ filter is_name (name.now ∷ [])) }
{
    if name.is_empty() {
        return Ok(());
    }
    names.push(String::from_str(alloc, name)?)?;
    Ok(())
}

fn trimmed(text: &str) -> &str
    ensures { result.now ≡ trimmed text.now }
{
    without_last_spaces(without_first_spaces(text))
}

fn without_first_spaces(mut text: &str) -> &str
    ensures { result.now ≡ without_spaces text.now }
{
    while let Some(rest) = text.strip_prefix(' ') {
        text = rest;
    }
    text
}

fn without_last_spaces(mut text: &str) -> &str
    ensures { result.now ≡ reverse (without_spaces (reverse text.now)) }
{
    while let Some(rest) = text.strip_suffix(' ') {
        text = rest;
    }
    text
}
