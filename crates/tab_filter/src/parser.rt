//! The parser of filters, by descent: `not` binds closer than `and`, and `and` closer than `or`. Each reader gives
//! what it read with the characters that are left.

ghost use Rattle.std.specs.Prelude.{◌≡◌, ◌<◌, ◌≤◌, ℕ, true, false, List, IfOk, OnOk, option_map, Ok, Err};
ghost use Rattle.tab_filter.specs.declared.parser.TheConstants.{MOST_COMPARISONS, MOST_PARTS};
ghost use Rattle.tab_filter.specs.Trees.{tree_of, Both, Either};
ghost use Rattle.tab_filter.specs.Lexer.{Parses, Read, operator_named};
ghost use Rattle.tab_filter.specs.Parser.{PartView, AllView, AnyView, compared, room_at, compared_at, operation_at, operand_at, begins_literal, negated, not_name, part_at, named_at, either_at, ambiguous_at, second_named_at, second_at, sole, sole_name, sole_operator, unless_sole, all_more, all_at, any_more, any_at, closed_group, inner_at, part_view, all_view, any_view};

use crate::lexer::{
    Joint, after_spaces, edge, expect, gap, is_not, name, operator, operator_named, past_first,
    read_joint, split_name, starts, starts_name, text_of,
};
use crate::literals::literal;
use crate::parse_stop::ParseStop;
use crate::targets::Classified;
use crate::trees::Node;
use crate::{Comparison, Operator};
use std::alloc::Global;
use tab_edm::TextValue;

/// The most comparisons of a filter.
const MOST_COMPARISONS: usize = 15;

/// More parts than that stand on no level, since each has a comparison.
pub const MOST_PARTS: usize = 16;

/// The name that may be the word.
const NOT: [char; 3] = ['n', 'o', 't'];

/// A part, whether it ends with a `)`, and the comparisons read up to its end.
#[derive(Debug, Drop)]
pub struct PartRead {
    pub node: Node,
    pub closed: bool,
    pub used: usize,
}

/// Parts joined by `and`, and the word behind them.
#[derive(Debug, Drop)]
pub struct AllRead {
    pub node: Node,
    pub joint: Joint,
    pub used: usize,
}

/// Those joined by `or`.
#[derive(Debug, Drop)]
pub struct AnyRead {
    pub node: Node,
    pub used: usize,
}

/// Stops where there is no room for one comparison more.
fn room(used: usize, text: &[char]) -> Result<&[char], ParseStop<'_>>
    ensures reads { Parses (λ rest. (tt, rest.now)) result (room_at MOST_COMPARISONS used text.now) }
    ensures below { OnOk result (used < MOST_COMPARISONS) }
{
    if used >= MOST_COMPARISONS {
        Err(ParseStop::TooMany)
    } else {
        Ok(text)
    }
}

/// A comparison whose literal is left to read.
fn compared<'a>(
    alloc: Global,
    used: usize,
    name: &[char],
    operator: Operator,
    text: &'a [char],
) -> Result<(PartRead, &'a [char]), ParseStop<'a>>
    requires { used < MOST_COMPARISONS }
    ensures reads { Parses (λ x. (part_view x.0, x.1.now)) result (compared_at used name.now operator text.now) }
    ensures few { IfOk result (λ x. x.0.used ≤ MOST_COMPARISONS) }
{
    let (value, rest) = literal(alloc, text)?;
    let name = TextValue::new(text_of(alloc, name)?);
    let node = Node::Compare(Classified::new(Comparison {
        name,
        operator,
        value,
    }));
    Ok((
        PartRead {
            node,
            closed: false,
            used: used + 1,
        },
        rest,
    ))
}

/// An operator and a literal.
#[tactic(auto, unfolding(crate::specs::Parser::operation_at))]
fn operation<'a>(
    alloc: Global,
    used: usize,
    name: &[char],
    text: &'a [char],
) -> Result<(PartRead, &'a [char]), ParseStop<'a>>
    ensures reads { Parses (λ x. (part_view x.0, x.1.now)) result (operation_at MOST_COMPARISONS used name.now text.now) }
    ensures few { IfOk result (λ x. x.0.used ≤ MOST_COMPARISONS) }
{
    let (operator, rest) = operator(text)?;
    let rest = room(used, rest)?;
    let rest = gap(rest)?;
    compared(alloc, used, name, operator, rest)
}

/// The literal of a comparison whose operator is read.
#[tactic(auto, unfolding(crate::specs::Parser::operand_at))]
fn operand<'a>(
    alloc: Global,
    used: usize,
    name: &[char],
    operator: Operator,
    text: &'a [char],
) -> Result<(PartRead, &'a [char]), ParseStop<'a>>
    ensures reads { Parses (λ x. (part_view x.0, x.1.now)) result (operand_at MOST_COMPARISONS used name.now operator text.now) }
    ensures few { IfOk result (λ x. x.0.used ≤ MOST_COMPARISONS) }
{
    let rest = room(used, text)?;
    compared(alloc, used, name, operator, rest)
}

/// Whether a literal may begin here, and no operator.
#[tactic(auto, unfolding(crate::specs::Parser::begins_literal))]
fn begins_literal(text: &[char]) -> bool
    ensures { result ≡ begins_literal text.now }
{
    match text {
        [first, rest @ ..] => {
            if *first == 'g' {
                starts('u', rest)
            } else {
                !matches!(*first, 'e' | 'n' | 'l' | '(' | ')')
            }
        }
        [] => false,
    }
}

/// A part of a filter: a group, a negation or a comparison. So many more `(` and `not` may be opened.
#[cycle(parts)]
#[tactic(auto, unfolding(crate::specs::Parser::part_at))]
fn part(
    alloc: Global,
    used: usize,
    text: &[char],
    depth: usize,
) -> Result<(PartRead, &[char]), ParseStop<'_>>
    requires { used ≤ MOST_COMPARISONS }
    ensures reads { Parses (λ x. (part_view x.0, x.1.now)) result (part_at MOST_COMPARISONS (inner_at MOST_COMPARISONS MOST_PARTS depth) used text.now) }
    ensures few { IfOk result (λ x. x.0.used ≤ MOST_COMPARISONS) }
{
    if starts('(', text) {
        return group(alloc, used, text, past_first(text), depth);
    }
    let (name, rest) = name(text)?;
    if is_not(name) {
        negation(alloc, used, text, rest, depth)
    } else {
        let rest = gap(rest)?;
        operation(alloc, used, name, rest)
    }
}

/// What is behind the `(` at the front of a text.
#[cycle(parts)]
#[tactic(auto, unfolding(crate::specs::Parser::inner_at))]
fn group<'a>(
    alloc: Global,
    used: usize,
    text: &'a [char],
    rest: &'a [char],
    depth: usize,
) -> Result<(PartRead, &'a [char]), ParseStop<'a>>
    requires { used ≤ MOST_COMPARISONS }
    ensures reads { Parses (λ x. (part_view x.0, x.1.now)) result (inner_at MOST_COMPARISONS MOST_PARTS depth false used text.now rest.now) }
    ensures few { IfOk result (λ x. x.0.used ≤ MOST_COMPARISONS) }
{
    if depth == 0 {
        return Err(ParseStop::Deep(text));
    }
    grouped(alloc, used, after_spaces(rest), depth - 1)
}

/// The parts in a group, and its `)`.
#[cycle(parts)]
fn grouped(
    alloc: Global,
    used: usize,
    text: &[char],
    depth: usize,
) -> Result<(PartRead, &[char]), ParseStop<'_>>
    requires { used ≤ MOST_COMPARISONS }
    ensures reads { Parses (λ x. (part_view x.0, x.1.now)) result (closed_group (any_at (part_at MOST_COMPARISONS (inner_at MOST_COMPARISONS MOST_PARTS depth)) MOST_PARTS MOST_PARTS used text.now)) }
    ensures few { IfOk result (λ x. x.0.used ≤ MOST_COMPARISONS) }
{
    let (inner, rest) = any(alloc, used, text, depth, MOST_PARTS)?;
    closed(inner, rest)
}

/// The `)` of a group.
fn closed(inner: AnyRead, text: &[char]) -> Result<(PartRead, &[char]), ParseStop<'_>>
    requires { inner.used ≤ MOST_COMPARISONS }
    ensures reads { Parses (λ x. (part_view x.0, x.1.now)) result (closed_group (Ok (any_view inner, text.now))) }
    ensures few { IfOk result (λ x. x.0.used ≤ MOST_COMPARISONS) }
{
    let rest = expect(')', text)?;
    Ok((
        PartRead {
            node: inner.node,
            closed: true,
            used: inner.used,
        },
        rest,
    ))
}

/// What is behind the `not` at the front of a text.
#[cycle(parts)]
#[tactic(auto, unfolding(crate::specs::Parser::inner_at))]
fn negation<'a>(
    alloc: Global,
    used: usize,
    text: &'a [char],
    rest: &'a [char],
    depth: usize,
) -> Result<(PartRead, &'a [char]), ParseStop<'a>>
    requires { used ≤ MOST_COMPARISONS }
    ensures reads { Parses (λ x. (part_view x.0, x.1.now)) result (inner_at MOST_COMPARISONS MOST_PARTS depth true used text.now rest.now) }
    ensures few { IfOk result (λ x. x.0.used ≤ MOST_COMPARISONS) }
{
    if depth == 0 {
        return unopened(alloc, used, text, rest);
    }
    let rest = edge(rest)?;
    second(alloc, used, rest, depth - 1)
}

/// What is behind a `not` that may be no more than the name of a property.
fn unopened<'a>(
    alloc: Global,
    used: usize,
    text: &'a [char],
    rest: &'a [char],
) -> Result<(PartRead, &'a [char]), ParseStop<'a>>
    ensures reads { Parses (λ x. (part_view x.0, x.1.now)) result (unless_sole MOST_COMPARISONS used text.now (sole_operator rest.now)) }
    ensures few { IfOk result (λ x. x.0.used ≤ MOST_COMPARISONS) }
{
    match sole_operator(rest) {
        Some((operator, rest)) => operand(alloc, used, &NOT, operator, rest),
        None => Err(ParseStop::Deep(text)),
    }
}

/// The operator behind a `not`, where a literal may begin behind it.
#[tactic(auto, unfolding(crate::specs::Parser::sole_operator))]
fn sole_operator(text: &[char]) -> Option<(Operator, &[char])>
    ensures { option_map (λ x. (x.0, x.1.now)) result ≡ sole_operator text.now }
{
    if starts(' ', text) {
        sole_name(after_spaces(text))
    } else {
        None
    }
}

/// The same behind the spaces.
fn sole_name(text: &[char]) -> Option<(Operator, &[char])>
    ensures { option_map (λ x. (x.0, x.1.now)) result ≡ sole_name text.now }
{
    let (name, rest) = split_name(text);
    if !(starts_name(text) && starts(' ', rest)) {
        return None;
    }
    let rest = after_spaces(rest);
    match operator_named(name) {
        Some(operator) => {
            if begins_literal(rest) {
                Some((operator, rest))
            } else {
                None
            }
        }
        None => None,
    }
}

/// What is behind `not` and the spaces after it.
#[cycle(parts)]
#[tactic(auto, unfolding(crate::specs::Parser::second_at))]
fn second(
    alloc: Global,
    used: usize,
    text: &[char],
    depth: usize,
) -> Result<(PartRead, &[char]), ParseStop<'_>>
    requires { used ≤ MOST_COMPARISONS }
    ensures reads { Parses (λ x. (part_view x.0, x.1.now)) result (second_at MOST_COMPARISONS (inner_at MOST_COMPARISONS MOST_PARTS depth) used text.now) }
    ensures few { IfOk result (λ x. x.0.used ≤ MOST_COMPARISONS) }
{
    if starts('(', text) {
        let (inner, rest) = group(alloc, used, text, past_first(text), depth)?;
        return negated(alloc, inner, rest);
    }
    let (name, rest) = name(text)?;
    if is_not(name) {
        let (inner, rest) = negation(alloc, used, text, rest, depth)?;
        negated(alloc, inner, rest)
    } else {
        let rest = gap(rest)?;
        ambiguous(alloc, used, name, rest)
    }
}

/// What is behind `not` and a name: the name's comparison, which is negated, or the literal of one of `not`.
fn ambiguous<'a>(
    alloc: Global,
    used: usize,
    name: &[char],
    text: &'a [char],
) -> Result<(PartRead, &'a [char]), ParseStop<'a>>
    ensures reads { Parses (λ x. (part_view x.0, x.1.now)) result (ambiguous_at MOST_COMPARISONS (operator_named name.now) used name.now text.now) }
    ensures few { IfOk result (λ x. x.0.used ≤ MOST_COMPARISONS) }
{
    if let Some(operator) = operator_named(name)
        && begins_literal(text)
    {
        return operand(alloc, used, &NOT, operator, text);
    }
    let (inner, rest) = operation(alloc, used, name, text)?;
    negated(alloc, inner, rest)
}

/// The negation of a part that is read.
fn negated(
    alloc: Global,
    inner: PartRead,
    text: &[char],
) -> Result<(PartRead, &[char]), ParseStop<'_>>
    requires { inner.used ≤ MOST_COMPARISONS }
    ensures reads { Parses (λ x. (part_view x.0, x.1.now)) result (negated (Ok (part_view inner, text.now))) }
    ensures few { IfOk result (λ x. x.0.used ≤ MOST_COMPARISONS) }
{
    let node = Node::not(alloc, inner.node)?;
    Ok((
        PartRead {
            node,
            closed: inner.closed,
            used: inner.used,
        },
        text,
    ))
}

/// Parts joined by `and`, `room` of them at most.
#[cycle(parts)]
#[tactic(auto, unfolding(crate::specs::Parser::all_at))]
fn all(
    alloc: Global,
    used: usize,
    text: &[char],
    depth: usize,
    room: usize,
) -> Result<(AllRead, &[char]), ParseStop<'_>>
    requires { used ≤ MOST_COMPARISONS }
    ensures reads { Parses (λ x. (all_view x.0, x.1.now)) result (all_at (part_at MOST_COMPARISONS (inner_at MOST_COMPARISONS MOST_PARTS depth)) room used text.now) }
    ensures few { IfOk result (λ x. x.0.used ≤ MOST_COMPARISONS) }
{
    if room == 0 {
        return Err(ParseStop::TooMany);
    }
    let (first, rest) = part(alloc, used, text, depth)?;
    let (joint, rest) = read_joint(first.closed, rest)?;
    match joint {
        Joint::And => {
            let rest = edge(rest)?;
            let (others, rest) = all(alloc, first.used, rest, depth, room - 1)?;
            both(alloc, first, others, rest)
        }
        Joint::Or | Joint::Neither => Ok((
            AllRead {
                node: first.node,
                joint,
                used: first.used,
            },
            rest,
        )),
    }
}

/// A part and those behind an `and`.
fn both(
    alloc: Global,
    first: PartRead,
    others: AllRead,
    text: &[char],
) -> Result<(AllRead, &[char]), ParseStop<'_>>
    requires { others.used ≤ MOST_COMPARISONS }
    ensures reads { Parses {Y = AllView × List ℕ} (λ x. (all_view x.0, x.1.now)) result (Ok (record { tree = Both (tree_of first.node) (tree_of others.node); joint = others.joint; used = others.used }, text.now)) }
    ensures few { IfOk result (λ x. x.0.used ≤ MOST_COMPARISONS) }
{
    let node = Node::and(alloc, first.node, others.node)?;
    Ok((
        AllRead {
            node,
            joint: others.joint,
            used: others.used,
        },
        text,
    ))
}

/// Parts joined by `and` and by `or`, of the latter `room` at most.
#[cycle(parts)]
#[tactic(auto, unfolding(crate::specs::Parser::any_at))]
pub fn any(
    alloc: Global,
    used: usize,
    text: &[char],
    depth: usize,
    room: usize,
) -> Result<(AnyRead, &[char]), ParseStop<'_>>
    requires { used ≤ MOST_COMPARISONS }
    ensures reads { Parses (λ x. (any_view x.0, x.1.now)) result (any_at (part_at MOST_COMPARISONS (inner_at MOST_COMPARISONS MOST_PARTS depth)) MOST_PARTS room used text.now) }
    ensures few { IfOk result (λ x. x.0.used ≤ MOST_COMPARISONS) }
{
    if room == 0 {
        return Err(ParseStop::TooMany);
    }
    let (first, rest) = all(alloc, used, text, depth, MOST_PARTS)?;
    match first.joint {
        Joint::Or => {
            let rest = edge(rest)?;
            let (others, rest) = any(alloc, first.used, rest, depth, room - 1)?;
            either(alloc, first, others, rest)
        }
        Joint::And | Joint::Neither => Ok((
            AnyRead {
                node: first.node,
                used: first.used,
            },
            rest,
        )),
    }
}

/// Parts and those behind an `or`.
fn either(
    alloc: Global,
    first: AllRead,
    others: AnyRead,
    text: &[char],
) -> Result<(AnyRead, &[char]), ParseStop<'_>>
    requires { others.used ≤ MOST_COMPARISONS }
    ensures reads { Parses {Y = AnyView × List ℕ} (λ x. (any_view x.0, x.1.now)) result (Ok (record { tree = Either (tree_of first.node) (tree_of others.node); used = others.used }, text.now)) }
    ensures few { IfOk result (λ x. x.0.used ≤ MOST_COMPARISONS) }
{
    let node = Node::or(alloc, first.node, others.node)?;
    Ok((
        AnyRead {
            node,
            used: others.used,
        },
        text,
    ))
}
