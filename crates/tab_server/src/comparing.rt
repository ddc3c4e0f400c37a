//! Whether rows are the same, to the last property.

ghost use Rattle.std.specs.Prelude.{◌≡◌, ◌↔◌, IsTrue};

use tab_edm::{Property, Value};
use tab_keys::{Bound, Key, Span};
use tab_rows::Row;

pub fn same_span(span: &Span, other: &Span) -> bool
    ensures { IsTrue result ↔ span.now ≡ other.now }
{
    same_bound(span.lo(), other.lo()) && same_bound(span.hi(), other.hi())
}

fn same_bound(bound: &Bound, other: &Bound) -> bool
    ensures { IsTrue result ↔ bound.now ≡ other.now }
{
    match (bound, other) {
        (Bound::At(table, pk), Bound::At(other_table, other_pk)) => {
            table == other_table && pk.as_str() == other_pk.as_str()
        }
        (Bound::End, Bound::End) => true,
        _ => false,
    }
}

/// Whether two lists of rows are the same.
#[tactic(auto, using(crate::proofs::Sameness::same_more))]
pub fn same_rows(rows: &[Row], others: &[Row]) -> bool
    ensures { IsTrue result ↔ rows.now ≡ others.now }
{
    if rows.len() != others.len() {
        return false;
    }
    for at in 0..rows.len() {
        if !same_row(&rows[at], &others[at]) {
            return false;
        }
    }
    true
}

fn same_row(row: &Row, other: &Row) -> bool
    ensures { IsTrue result ↔ row.now ≡ other.now }
{
    row.tick == other.tick
        && same_key(&row.key, &other.key)
        && same_properties(row.entity.properties(), other.entity.properties())
}

fn same_key(key: &Key, other: &Key) -> bool
    ensures { IsTrue result ↔ key.now ≡ other.now }
{
    key.table == other.table
        && key.pk.as_str() == other.pk.as_str()
        && key.rk.as_str() == other.rk.as_str()
}

#[tactic(auto, using(crate::proofs::Sameness::same_more))]
fn same_properties(properties: &[Property], others: &[Property]) -> bool
    ensures { IsTrue result ↔ properties.now ≡ others.now }
{
    if properties.len() != others.len() {
        return false;
    }
    for at in 0..properties.len() {
        if !same_property(&properties[at], &others[at]) {
            return false;
        }
    }
    true
}

fn same_property(property: &Property, other: &Property) -> bool
    ensures { IsTrue result ↔ property.now ≡ other.now }
{
    property.name.as_str() == other.name.as_str() && same_value(&property.value, &other.value)
}

fn same_value(value: &Value, other: &Value) -> bool
    ensures { IsTrue result ↔ value.now ≡ other.now }
{
    match (value, other) {
        (Value::Text(text), Value::Text(other)) => text.as_str() == other.as_str(),
        (Value::Flag(flag), Value::Flag(other)) => flag == other,
        (Value::Int32(number), Value::Int32(other)) => number == other,
        (Value::Int64(number), Value::Int64(other)) => number == other,
        (Value::Moment(tick), Value::Moment(other)) => tick == other,
        (Value::Guid(guid), Value::Guid(other)) => guid == other,
        (Value::Bytes(bytes), Value::Bytes(other)) => bytes.as_slice() == other.as_slice(),
        _ => false,
    }
}
