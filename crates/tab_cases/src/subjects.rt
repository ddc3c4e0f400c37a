//! The subjects, told by the names of their files.

use crate::answers::{Answer, unknown};
use crate::{
    bodies, entities, filters, groups, keys, messages, moments, multiparts, outside, pages,
    queries, rows, signatures, table_names,
};
use std::alloc::Global;

/// The subjects, in the order in which they are run.
pub const SUBJECTS: [&str; 15] = [
    "keys",
    "table_names",
    "moments",
    "entities",
    "filters",
    "queries",
    "tokens",
    "bodies",
    "signatures",
    "messages",
    "multiparts",
    "outside",
    "rows",
    "pages",
    "groups",
];

/// The answer to a line of a subject.
pub fn answer(alloc: Global, subject: &str, word: &str, fields: &[String], block: &str) -> Answer {
    match subject {
        "keys" => keys::answer(alloc, word, fields),
        "table_names" => table_names::answer(alloc, word, fields),
        "moments" => moments::answer(alloc, word, fields),
        "entities" => entities::answer(alloc, word, fields),
        "filters" => filters::answer(alloc, word, fields),
        "queries" | "tokens" => queries::answer(alloc, word, fields),
        "bodies" => bodies::answer(alloc, word, fields),
        "signatures" => signatures::answer(alloc, word, fields),
        "messages" => messages::answer(alloc, word, fields, block),
        "multiparts" => multiparts::answer(alloc, word, fields, block),
        "outside" => outside::answer(alloc, word, fields),
        "rows" => rows::answer(alloc, word, fields),
        "pages" => pages::answer(alloc, word, fields),
        "groups" => groups::answer(alloc, word, fields),
        _ => unknown(),
    }
}
