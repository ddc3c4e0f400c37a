//! Filters as trees: comparisons joined by `not`, `and` and `or`.

ghost use Rattle.std.specs.Prelude.{◌≡◌, IfOk};
ghost use Rattle.tab_filter.specs.Trees.{tree_of, Negation, Both, Either};

use crate::targets::Classified;
use std::alloc::Global;
use std::marker::Model;
use tab_edm::{TextValue, Value};
use tab_keys::Memory;

/// How a comparison compares.
#[derive(Clone, Copy, Debug, PartialEq, Eq)]
pub enum Operator {
    /// `eq`.
    Equal,
    /// `ne`.
    NotEqual,
    /// `gt`.
    Greater,
    /// `ge`.
    GreaterOrEqual,
    /// `lt`.
    Less,
    /// `le`.
    LessOrEqual,
}

/// A property's name, an operator, and the literal that the property is compared with.
#[derive(Debug, Drop)]
pub struct Comparison {
    pub name: TextValue,
    pub operator: Operator,
    pub value: Value,
}

impl Comparison {
    /// A copy in memory of its own.
    pub fn try_copy(&self, alloc: Global) -> Result<Comparison, Memory>
        ensures { IfOk result (λ copy. copy ≡ self.now) }
    {
        Ok(Comparison {
            name: self.name.try_copy(alloc).map_err(|_| Memory)?,
            operator: self.operator,
            value: self.value.try_copy(alloc).map_err(|_| Memory)?,
        })
    }
}

/// What a filter is made of.
#[derive(Debug, Drop)]
pub enum Node {
    Compare(Classified),
    Not(Box<Node>),
    And(Box<Node>, Box<Node>),
    Or(Box<Node>, Box<Node>),
}

impl Node {
    /// A copy in memory of its own.
    pub fn try_copy(&self, alloc: Global) -> Result<Node, Memory>
        ensures { IfOk result (λ copy. tree_of copy ≡ tree_of self.now) }
    {
        match self {
            Node::Compare(comparison) => Ok(Node::Compare(comparison.try_copy(alloc)?)),
            Node::Not(inner) => Node::not(alloc, inner.try_copy(alloc)?),
            Node::And(first, second) => {
                Node::and(alloc, first.try_copy(alloc)?, second.try_copy(alloc)?)
            }
            Node::Or(first, second) => {
                Node::or(alloc, first.try_copy(alloc)?, second.try_copy(alloc)?)
            }
        }
    }

    /// The negation of a node.
    pub fn not(alloc: Global, inner: Node) -> Result<Node, Memory>
        ensures { IfOk result (λ node. tree_of node ≡ Negation (tree_of inner)) }
    {
        Ok(Node::Not(Box::new(alloc, inner)?))
    }

    /// Two nodes joined by `and`.
    pub fn and(alloc: Global, first: Node, second: Node) -> Result<Node, Memory>
        ensures { IfOk result (λ node. tree_of node ≡ Both (tree_of first) (tree_of second)) }
    {
        let first = Box::new(alloc, first)?;
        Ok(Node::And(first, Box::new(alloc, second)?))
    }

    /// Two nodes joined by `or`.
    pub fn or(alloc: Global, first: Node, second: Node) -> Result<Node, Memory>
        ensures { IfOk result (λ node. tree_of node ≡ Either (tree_of first) (tree_of second)) }
    {
        let first = Box::new(alloc, first)?;
        Ok(Node::Or(first, Box::new(alloc, second)?))
    }
}

/// A filter, which contracts see as its tree.
#[derive(Debug, Drop)]
pub struct Filter {
    root: Node,
}

impl Model for Filter {
    ghost use Rattle.tab_filter.specs.Trees.{Tree, tree_code, tree_of};
    ghost use Rattle.tab_filter.specs.contracts.trees.Comparison as comparison;

    ghost Value = { Tree };

    ghost coded = { tree_code comparison.the_row.coded };

    ghost view = { λ filter. tree_of filter.root };
}

impl Filter {
    /// The filter with this root.
    pub(crate) fn new(root: Node) -> Filter
        ensures { result ≡ tree_of root }
    {
        Filter { root }
    }

    /// The node that the whole filter is.
    pub(crate) fn root(&self) -> &Node
        ensures { tree_of result.now ≡ self.now }
    {
        &self.root
    }

    /// A copy in memory of its own.
    pub fn try_copy(&self, alloc: Global) -> Result<Filter, Memory>
        ensures { IfOk result (λ copy. copy ≡ self.now) }
    {
        Ok(Filter {
            root: self.root.try_copy(alloc)?,
        })
    }
}
