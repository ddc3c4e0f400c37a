//! Windows: the keys outside of which no row can match a filter, by the comparisons of keys that `and` joins.

ghost use Rattle.std.specs.Prelude.{◌≡◌, ℕ, List, ◌++◌, [], true, false, IfOk, OnOk};
ghost use Rattle.std.specs.Ordering.{is_lt, ordering_then};
ghost use Rattle.tab_keys.specs.Order.{text_cmp};
ghost use Rattle.tab_filter.specs.Trees.{tree_of, Tree};
ghost use Rattle.tab_filter.specs.Truth.{FilteredRow, truth};
ghost use Rattle.tab_filter.specs.Windows.{WindowView, window_of, all_meet, has, lower_corner, reaches, below, narrowings, narrowing_of, meets, is_too_great, is_too_small, fixes, any_fixes, any_fixes_at, any_too_great, any_too_small, is_lower, is_of_part, greater_corner};

use crate::targets::{is_partition_key, is_row_key};
use crate::trees::Node;
use crate::truth::operator_holds;
use crate::{Comparison, Filter, Operator};
use std::alloc::Global;
use std::marker::Model;
use tab_edm::Value;
use tab_keys::{KeyRefused, KeyText, Memory, utf16_cmp};

/// A comparison of a key with a text, as it narrows the keys.
#[derive(Debug, Drop)]
pub struct Narrowing {
    pub operator: Operator,
    pub text: KeyText,
}

impl Narrowing {
    /// A copy, which shares the memory of its text.
    pub fn try_copy(&self, alloc: Global) -> Result<Narrowing, Memory>
        ensures { IfOk result (λ copy. copy ≡ self.now) }
    {
        Ok(Narrowing {
            operator: self.operator,
            text: self.text.try_copy(alloc)?,
        })
    }

    /// Whether it leaves this key in.
    fn meets(&self, key: &KeyText) -> bool
        ensures { result ≡ meets self.now key.now }
    {
        operator_holds(self.operator, utf16_cmp(key.as_str(), self.text.as_str()))
    }

    /// Whether it leaves this key out as too great.
    fn is_too_great(&self, key: &str) -> bool
        ensures { result ≡ is_too_great self.now key.now }
    {
        let order = utf16_cmp(key, self.text.as_str());
        match self.operator {
            Operator::Equal | Operator::LessOrEqual => order.is_gt(),
            Operator::Less => order.is_ge(),
            Operator::NotEqual | Operator::Greater | Operator::GreaterOrEqual => false,
        }
    }

    /// Whether it leaves this key out as too small.
    fn is_too_small(&self, key: &KeyText) -> bool
        ensures { result ≡ is_too_small self.now key.now }
    {
        let order = utf16_cmp(key.as_str(), self.text.as_str());
        match self.operator {
            Operator::Equal | Operator::GreaterOrEqual => order.is_lt(),
            Operator::Greater => order.is_le(),
            Operator::NotEqual | Operator::Less | Operator::LessOrEqual => false,
        }
    }

    /// Whether it leaves in this key alone.
    fn fixes(&self, key: &KeyText) -> bool
        ensures { result ≡ fixes self.now key.now }
    {
        matches!(self.operator, Operator::Equal)
            && utf16_cmp(key.as_str(), self.text.as_str()).is_eq()
    }

    /// Whether no key below its text is left in.
    fn is_lower(&self) -> bool
        ensures { result ≡ is_lower self.now.operator }
    {
        matches!(
            self.operator,
            Operator::Equal | Operator::Greater | Operator::GreaterOrEqual
        )
    }
}

/// The keys that a filter's top-level comparisons of keys leave in.
#[derive(Debug, Drop)]
pub struct Window {
    partitions: Vec<Narrowing>,
    rows: Vec<Narrowing>,
}

impl Model for Window {
    ghost use Rattle.std.specs.Prelude.{vec_items};
    ghost use Rattle.tab_filter.specs.Windows.{WindowView};

    ghost Value = { WindowView };

    ghost view = { λ window. record { partitions = window.partitions.items; rows = window.rows.items } };
}

impl Filter {
    /// The keys outside of which no row can match.
    pub fn window(&self, alloc: Global) -> Result<Window, Memory>
        ensures { IfOk result (λ window. window ≡ window_of self.now) }
    {
        let mut partitions = Vec::new(alloc);
        let mut rows = Vec::new(alloc);
        add_narrowings(alloc, &mut partitions, self.root(), KeyPart::Partition)?;
        if any_fixes(&partitions) {
            add_narrowings(alloc, &mut rows, self.root(), KeyPart::Row)?;
        }
        Ok(Window { partitions, rows })
    }
}

impl Window {
    /// All keys.
    pub fn all(alloc: Global) -> Window
        ensures { result ≡ record { partitions = []; rows = [] } }
    {
        Window {
            partitions: Vec::new(alloc),
            rows: Vec::new(alloc),
        }
    }

    /// Whether no comparison of its keys leaves this key out.
    pub fn has(&self, pk: &KeyText, rk: &KeyText) -> bool
        ensures { result ≡ has self.now pk.now rk.now }
    {
        all_meet(&self.partitions, pk) && all_meet(&self.rows, rk)
    }

    /// The lower corner: for each part of the key the greatest text below which all keys are left out, or the empty one.
    pub fn start(&self) -> (&str, &str)
        ensures pk { result.0.now ≡ lower_corner self.now.partitions }
        ensures rk { result.1.now ≡ lower_corner self.now.rows }
    {
        (lower_corner(&self.partitions), lower_corner(&self.rows))
    }

    /// Whether the first point of this partition lies at or before the upper edge.
    pub fn reaches(&self, pk: &KeyText) -> bool
        ensures { result ≡ reaches self.now pk.now }
    {
        !any_too_great(&self.partitions, pk.as_str())
            && !(any_fixes_at(&self.partitions, pk) && any_too_great(&self.rows, ""))
    }

    /// Whether a comparison of the partition key leaves this one out as too small.
    pub fn below(&self, pk: &KeyText) -> bool
        ensures { result ≡ below self.now pk.now }
    {
        any_too_small(&self.partitions, pk)
    }

    /// A copy, which shares the memory of its text.
    pub fn try_copy(&self, alloc: Global) -> Result<Window, Memory>
        ensures { IfOk result (λ copy. copy ≡ self.now) }
    {
        Ok(Window {
            partitions: copied(alloc, &self.partitions)?,
            rows: copied(alloc, &self.rows)?,
        })
    }
}

/// The two parts of a key.
#[derive(Clone, Copy, Debug, PartialEq, Eq)]
pub enum KeyPart {
    Partition,
    Row,
}

/// Appends the comparisons of this part of the key that are joined by `and` alone.
fn add_narrowings(
    alloc: Global,
    out: &mut Vec<Narrowing>,
    node: &Node,
    part: KeyPart,
) -> Result<(), Memory>
    ensures { OnOk result (out.new.items ≡ out.old.items ++ narrowings part (tree_of node.now)) }
{
    match node {
        Node::Compare(classified) => add_narrowing(alloc, out, classified.comparison(), part),
        Node::And(first, second) => {
            add_narrowings(alloc, out, first, part)?;
            add_narrowings(alloc, out, second, part)
        }
        Node::Not(_) | Node::Or(_, _) => Ok(()),
    }
}

#[tactic(auto, unfolding(crate::specs::Windows::narrowing_of))]
fn add_narrowing(
    alloc: Global,
    out: &mut Vec<Narrowing>,
    comparison: &Comparison,
    part: KeyPart,
) -> Result<(), Memory>
    ensures { OnOk result (out.new.items ≡ out.old.items ++ narrowing_of part comparison.now) }
{
    if !is_of_part(part, comparison.name.as_str())
        || matches!(comparison.operator, Operator::NotEqual)
    {
        return Ok(());
    }
    let Value::Text(text) = &comparison.value else {
        return Ok(());
    };
    match KeyText::new(alloc, text.as_str()) {
        Ok(text) => {
            out.push(Narrowing {
                operator: comparison.operator,
                text,
            })?;
            Ok(())
        }
        Err(KeyRefused::Memory) => Err(Memory),
        Err(_) => Ok(()),
    }
}

fn is_of_part(part: KeyPart, name: &str) -> bool
    ensures { result ≡ is_of_part part name.now }
{
    match part {
        KeyPart::Partition => is_partition_key(name),
        KeyPart::Row => is_row_key(name),
    }
}

fn all_meet(narrowings: &[Narrowing], key: &KeyText) -> bool
    ensures { result ≡ all_meet narrowings.now key.now }
{
    match narrowings {
        [] => true,
        [first, rest @ ..] => first.meets(key) && all_meet(rest, key),
    }
}

fn any_fixes(narrowings: &[Narrowing]) -> bool
    ensures { result ≡ any_fixes narrowings.now }
{
    match narrowings {
        [] => false,
        [first, rest @ ..] => matches!(first.operator, Operator::Equal) || any_fixes(rest),
    }
}

fn any_fixes_at(narrowings: &[Narrowing], key: &KeyText) -> bool
    ensures { result ≡ any_fixes_at narrowings.now key.now }
{
    match narrowings {
        [] => false,
        [first, rest @ ..] => first.fixes(key) || any_fixes_at(rest, key),
    }
}

fn any_too_great(narrowings: &[Narrowing], key: &str) -> bool
    ensures { result ≡ any_too_great narrowings.now key.now }
{
    match narrowings {
        [] => false,
        [first, rest @ ..] => first.is_too_great(key) || any_too_great(rest, key),
    }
}

fn any_too_small(narrowings: &[Narrowing], key: &KeyText) -> bool
    ensures { result ≡ any_too_small narrowings.now key.now }
{
    match narrowings {
        [] => false,
        [first, rest @ ..] => first.is_too_small(key) || any_too_small(rest, key),
    }
}

/// The greatest text of those that are lower bounds, or the empty one.
fn lower_corner(narrowings: &[Narrowing]) -> &str
    ensures { result.now ≡ lower_corner narrowings.now }
{
    match narrowings {
        [] => "",
        [first, rest @ ..] => greater_corner(first, lower_corner(rest)),
    }
}

fn greater_corner<'a>(narrowing: &'a Narrowing, corner: &'a str) -> &'a str
    ensures { result.now ≡ greater_corner narrowing.now corner.now }
{
    if narrowing.is_lower() && utf16_cmp(narrowing.text.as_str(), corner).is_gt() {
        narrowing.text.as_str()
    } else {
        corner
    }
}

fn copied(alloc: Global, narrowings: &[Narrowing]) -> Result<Vec<Narrowing>, Memory>
    ensures { IfOk result (λ copy. copy.items ≡ narrowings.now) }
{
    let mut copy = Vec::new(alloc);
    for narrowing in narrowings {
        copy.push(narrowing.try_copy(alloc)?)?;
    }
    Ok(copy)
}

/// A row that matches lies in the filter's window.
pub fn matches_within_window()
    ensures { (tree : Tree) (row : FilteredRow) → truth row tree ≡ true → has (window_of tree) row.pk row.rk ≡ true }
{}

/// No key of a window lies below its lower corner.
pub fn window_starts_low()
    ensures { (window : WindowView) (pk rk : List ℕ) → has window pk rk ≡ true
        → is_lt (ordering_then (text_cmp pk (lower_corner window.partitions)) (text_cmp rk (lower_corner window.rows))) ≡ false }
{}

/// A window reaches each partition up to that of a key that it has.
pub fn window_reaches_its_keys()
    ensures { (window : WindowView) (pk rk p : List ℕ) → has window pk rk ≡ true → is_lt (text_cmp pk p) ≡ false → reaches window p ≡ true }
{}
