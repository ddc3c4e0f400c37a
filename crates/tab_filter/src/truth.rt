//! Whether a row matches a filter.

ghost use Rattle.std.specs.Prelude.{◌≡◌};
ghost use Rattle.tab_edm.specs.declared.values.Value.TheVariants.{Text, Int64};
ghost use Rattle.tab_keys.specs.Order.{text_cmp};
ghost use Rattle.tab_filter.specs.Trees.{tree_of};
ghost use Rattle.tab_filter.specs.Truth.{FilteredRow, operator_holds, value_holds, comparison_holds, truth};

use crate::targets::{Classified, Target};
use crate::trees::Node;
use crate::{Filter, Operator};
use std::cmp::Ordering;
use tab_edm::{Entity, Value};
use tab_keys::{KeyText, utf16_cmp};

impl Filter {
    /// Whether the row with these keys, this tick and this entity matches.
    pub fn matches(&self, pk: &KeyText, rk: &KeyText, tick: u64, entity: &Entity) -> bool
        ensures { result ≡ truth (record { pk = pk.now; rk = rk.now; tick = tick; properties = entity.now.properties }) self.now }
    {
        node_holds(self.root(), pk, rk, tick, entity)
    }
}

fn node_holds(node: &Node, pk: &KeyText, rk: &KeyText, tick: u64, entity: &Entity) -> bool
    ensures { result ≡ truth (record { pk = pk.now; rk = rk.now; tick = tick; properties = entity.now.properties }) (tree_of node.now) }
{
    match node {
        Node::Compare(classified) => comparison_holds(classified, pk, rk, tick, entity),
        Node::Not(inner) => !node_holds(inner, pk, rk, tick, entity),
        Node::And(first, second) => {
            node_holds(first, pk, rk, tick, entity) && node_holds(second, pk, rk, tick, entity)
        }
        Node::Or(first, second) => {
            node_holds(first, pk, rk, tick, entity) || node_holds(second, pk, rk, tick, entity)
        }
    }
}

fn comparison_holds(
    classified: &Classified,
    pk: &KeyText,
    rk: &KeyText,
    tick: u64,
    entity: &Entity,
) -> bool
    ensures { result ≡ comparison_holds (record { pk = pk.now; rk = rk.now; tick = tick; properties = entity.now.properties }) classified.now }
{
    let comparison = classified.comparison();
    match classified.target() {
        Target::PartitionKey => text_holds(pk.as_str(), comparison.operator, &comparison.value),
        Target::RowKey => text_holds(rk.as_str(), comparison.operator, &comparison.value),
        Target::Timestamp => {
            value_holds(&Value::Moment(tick), comparison.operator, &comparison.value)
        }
        Target::Property => match entity.get(comparison.name.as_str()) {
            Some(value) => value_holds(value, comparison.operator, &comparison.value),
            None => false,
        },
    }
}

/// Whether a property with this value stands to the literal as the operator says.
fn value_holds(value: &Value, operator: Operator, literal: &Value) -> bool
    ensures { result ≡ value_holds value.now operator literal.now }
{
    match (value, literal) {
        (Value::Text(text), literal) => text_holds(text.as_str(), operator, literal),
        (Value::Flag(flag), Value::Flag(other)) => operator_holds(operator, flag.cmp(other)),
        (Value::Int32(number), literal) => number_holds(*number as i64, operator, literal),
        (Value::Int64(number), literal) => number_holds(*number, operator, literal),
        (Value::Moment(tick), Value::Moment(other)) => operator_holds(operator, tick.cmp(other)),
        (Value::Guid(guid), Value::Guid(other)) => {
            operator_holds(operator, guid.as_slice().cmp(other.as_slice()))
        }
        (Value::Bytes(bytes), Value::Bytes(other)) => {
            operator_holds(operator, bytes.as_slice().cmp(other.as_slice()))
        }
        _ => false,
    }
}

fn text_holds(text: &str, operator: Operator, literal: &Value) -> bool
    ensures { result ≡ value_holds (Text text.now) operator literal.now }
{
    match literal {
        Value::Text(other) => operator_holds(operator, utf16_cmp(text, other.as_str())),
        _ => false,
    }
}

/// Numbers of both widths are one kind.
fn number_holds(number: i64, operator: Operator, literal: &Value) -> bool
    ensures { result ≡ value_holds (Int64 number) operator literal.now }
{
    match literal {
        Value::Int32(other) => operator_holds(operator, number.cmp(&(*other as i64))),
        Value::Int64(other) => operator_holds(operator, number.cmp(other)),
        _ => false,
    }
}

/// What an operator says of the order of a property's value and the literal.
pub fn operator_holds(operator: Operator, order: Ordering) -> bool
    ensures { result ≡ operator_holds operator order }
{
    match operator {
        Operator::Equal => order.is_eq(),
        Operator::NotEqual => order.is_ne(),
        Operator::Greater => order.is_gt(),
        Operator::GreaterOrEqual => order.is_ge(),
        Operator::Less => order.is_lt(),
        Operator::LessOrEqual => order.is_le(),
    }
}
