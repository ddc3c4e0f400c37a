//! Filters from their texts, and what is said of a text that is none: the values of the query option `$filter`
//! (OData 3.0, part "URL conventions", in the part of it that Microsoft's Table service REST reference, "Querying
//! tables and entities", serves).

ghost use Rattle.std.specs.Prelude.{◌≡◌, ◌≤◌, ◌<◌, ◌*◌, ◌^◌, ◌++◌, ℕ, List, length, IfOk, IfErr, IsUtf8, chars, encode_utf8_all};
ghost use Rattle.tab_filter.specs.Trees.{Tree, tree_of};
ghost use Rattle.tab_filter.specs.Lexer.{Parses, after_spaces};
ghost use Rattle.tab_filter.specs.Parser.{any_at, part_at, inner_at, any_view, filter_at};
ghost use Rattle.tab_filter.specs.Grammar.{SpellsWithin};
ghost use Rattle.tab_filter.specs.Offsets.{Answers, StopsAt, offset_of, IsRefused, IsTree};

use crate::Filter;
use crate::lexer::after_spaces;
use crate::parse_stop::ParseStop;
use crate::parser::{MOST_PARTS, any};
use crate::trees::Node;
use std::alloc::{AllocError, Global};

/// The most `(` and `not` that are open at a time.
const MOST_OPEN: usize = 64;

/// Why a text is no filter. Offsets are counted in bytes.
#[derive(Clone, Copy, Debug, PartialEq, Eq)]
pub enum FilterRefused {
    /// The grammar does not go on with the character that begins here.
    Syntax { at: usize },
    /// It has more than 15 comparisons.
    TooManyComparisons,
    /// A literal is due here, and what stands here is none.
    BadLiteral { at: usize },
    /// No memory was found.
    Memory,
}

/// The filter that a text spells.
pub fn parse(alloc: Global, text: &str) -> Result<Filter, FilterRefused>
    // What is read is spelled so, within the limits.
    ensures spelled { IfOk result (λ tree. SpellsWithin tree (chars text.now)) }
    // What is spelled so within them is read, unless memory runs out.
    ensures only { (tree : Tree) → SpellsWithin tree (chars text.now) → IsTree tree result }
    // An offset is where the grammar goes no further, or where a literal is due and none stands.
    ensures refused { IfErr result (IsRefused (chars text.now)) }
    // Which refusal it is.
    ensures exact { Answers text.now result (filter_at (chars text.now)) }
{
    parse_characters(alloc, text)
}

fn parse_characters(alloc: Global, text: &str) -> Result<Filter, FilterRefused>
    ensures utf8 { IsUtf8 text.now }
    ensures exact { Answers text.now result (filter_at (chars text.now)) }
{
    let Ok(characters) = characters(alloc, text) else {
        return Err(FilterRefused::Memory);
    };
    match read(alloc, &characters) {
        Ok(root) => Ok(Filter::new(root)),
        Err(stop) => Err(refused(text, stop)),
    }
}

fn characters(alloc: Global, text: &str) -> Result<Vec<char>, AllocError>
    ensures { IfOk result (λ characters. characters.items ≡ chars text.now) }
{
    text.chars().collect(alloc)
}

#[tactic(auto, unfolding(crate::specs::Parser::filter_at))]
fn read(alloc: Global, text: &[char]) -> Result<Node, ParseStop<'_>>
    ensures { Parses tree_of result (filter_at text.now) }
{
    match any(alloc, 0, after_spaces(text), MOST_OPEN, MOST_PARTS)? {
        (any, []) => Ok(any.node),
        (_, rest) => Err(ParseStop::Syntax(rest)),
    }
}

fn refused(text: &str, stop: ParseStop<'_>) -> FilterRefused
    ensures { StopsAt text.now stop.entry result }
{
    match stop {
        ParseStop::Memory => FilterRefused::Memory,
        ParseStop::Syntax(rest) | ParseStop::Deep(rest) => FilterRefused::Syntax {
            at: offset(text, rest),
        },
        ParseStop::BadLiteral(rest) => FilterRefused::BadLiteral {
            at: offset(text, rest),
        },
        ParseStop::TooMany => FilterRefused::TooManyComparisons,
    }
}

/// The byte offset of a text at which the characters that are left begin.
#[tactic(auto, using(crate::proofs::LiteralSteps::offset_more))]
fn offset(text: &str, rest: &[char]) -> usize
    ensures { result ≡ offset_of text.now rest.now }
{
    let mut at = text.len();
    for c in rest {
        at = at.saturating_sub(c.len_utf8());
    }
    at
}
