ghost use Rattle.std.specs.Prelude.{◌≡◌, IsTrue};

use sqlite_items::Items;
use sqlite_schema::code::Terms;
use sqlite_schema::schema::{Column, Index, Schema, Stamps, Table};
use sqlite_value::keys::Order;
use sqlite_value::value::{Bytes, Value};

/// What can be seen to equal another one.
trait Same {
    /// Whether the two are seen to be equal.
    fn is_same(&self, other: &Self) -> bool
        ensures same { IsTrue result → self.now ≡ other.now };
}

/// Whether the lists are as long, and each item is the same as the other list's.
fn are_same<T: Same>(first: &[T], second: &[T]) -> bool
    ensures same { IsTrue result → first.now ≡ second.now }
{
    if first.len() != second.len() {
        return false;
    }
    for i in 0..first.len() {
        if !first[i].is_same(&second[i]) {
            return false;
        }
    }
    true
}

fn are_bytes_same(first: &Bytes, second: &Bytes) -> bool
    ensures same { IsTrue result → first.now ≡ second.now }
{
    first.as_slice() == second.as_slice()
}

fn are_null(first: &Value, second: &Value) -> bool
    ensures same { IsTrue result → first.now ≡ second.now }
{
    match (first, second) {
        (Value::Null, Value::Null) => true,
        _ => false,
    }
}

fn are_without_terms(first: &Terms, second: &Terms) -> bool
    ensures same { IsTrue result → first.now ≡ second.now }
{
    first.roots.is_empty() && second.roots.is_empty()
}

fn are_without_stamps(first: &Stamps, second: &Stamps) -> bool
    ensures same { IsTrue result → first.now ≡ second.now }
{
    are_empty(&first.places, &second.places)
        && are_without_terms(&first.terms, &second.terms)
        && are_empty(&first.formats, &second.formats)
}

fn are_empty<T>(first: &Items<T>, second: &Items<T>) -> bool
    ensures same { IsTrue result → first.now ≡ second.now }
{
    first.is_empty() && second.is_empty()
}

impl Same for Items<usize> {
    fn is_same(&self, other: &Items<usize>) -> bool {
        self.as_slice() == other.as_slice()
    }
}

impl Same for Order {
    fn is_same(&self, other: &Order) -> bool {
        self.digits == other.digits
    }
}

impl Same for Column {
    fn is_same(&self, other: &Column) -> bool {
        are_bytes_same(&self.name, &other.name)
            && self.kind == other.kind
            && self.is_strict == other.is_strict
            && self.not_null == other.not_null
            && are_null(&self.default, &other.default)
            && self.collation == other.collation
    }
}

impl Same for Table {
    fn is_same(&self, other: &Table) -> bool {
        are_bytes_same(&self.name, &other.name)
            && self.tree == other.tree
            && are_same(self.columns.as_slice(), other.columns.as_slice())
            && self.key == other.key
            && self.primary.is_same(&other.primary)
            && are_same(self.uniques.as_slice(), other.uniques.as_slice())
            && are_same(self.orders.as_slice(), other.orders.as_slice())
            && are_without_terms(&self.checks, &other.checks)
            && are_empty(&self.references, &other.references)
            && are_empty(&self.computed, &other.computed)
            && are_without_stamps(&self.stamps, &other.stamps)
            && self.is_counted == other.is_counted
    }
}

impl Same for Index {
    fn is_same(&self, other: &Index) -> bool {
        are_bytes_same(&self.name, &other.name)
            && self.tree == other.tree
            && self.table == other.table
            && self.columns.is_same(&other.columns)
            && self.order.is_same(&other.order)
            && self.is_unique == other.is_unique
    }
}

/// Whether two schemas are seen to be equal. Two with a CHECK, a reference, a default that reads
/// the time or a view aren't.
pub(crate) fn are_schemas_same(first: &Schema, second: &Schema) -> bool
    ensures same { IsTrue result → first.now ≡ second.now }
{
    are_same(first.tables.as_slice(), second.tables.as_slice())
        && are_same(first.indexes.as_slice(), second.indexes.as_slice())
        && are_empty(&first.views, &second.views)
}
