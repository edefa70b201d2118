//! Whether two schemas are one and the same, where they have no more than forms have: tables without CHECK, REFERENCES and defaults,
//! their indexes, and no view. Any other schema is the same as none.
ghost use Rattle.std.specs.Prelude.{◌≡◌, ◌↔◌, [], true, IsTrue, ⊤};
ghost use Rattle.std.specs.List.{AllByRecursion};
ghost use Rattle.tc_sql.specs.Schemas.{IsPlainColumn, IsPlainTable, IsPlainSchema, no_stamps};

use sqlite_items::Items;
use sqlite_schema::schema::{Column, Index, Schema, Stamps, Table};
use sqlite_value::keys::Order;
use sqlite_value::value::Value;

/// A part of a schema that is compared with another.
trait Part {
    /// Whether it has no more than forms have.
    ghost is_plain: { Self → Type 0 };

    /// Whether it is the same as the other, and plain. Where the other is plain, that is whether they are the same.
    fn is_same(&self, other: &Self) -> bool
        ensures same { IsTrue result → self.now ≡ other.now }
        ensures plain { self.now ≡ other.now → is_plain other.now → result ≡ true };
}

/// Whether these are the same parts, in this order, and plain.
fn are_same<T: Part>(a: &[T], b: &[T]) -> bool
    ensures same { IsTrue result → a.now ≡ b.now }
    ensures plain { a.now ≡ b.now → AllByRecursion T.Part.is_plain b.now → result ≡ true }
{
    if a.len() != b.len() {
        return false;
    }
    for at in 0..a.len() {
        if !a[at].is_same(&b[at]) {
            return false;
        }
    }
    true
}

/// A column that has no default is plain.
impl Part for Column {
    ghost is_plain = { IsPlainColumn };

    fn is_same(&self, other: &Column) -> bool {
        self.name.as_slice() == other.name.as_slice()
            && self.kind == other.kind
            && self.is_strict == other.is_strict
            && self.not_null == other.not_null
            && matches!(self.default, Value::Null)
            && matches!(other.default, Value::Null)
            && self.collation == other.collation
    }
}

/// Whether these are the same places.
fn are_same_places(a: &Items<usize>, b: &Items<usize>) -> bool
    ensures { IsTrue result ↔ (a.now ≡ b.now) }
{
    a.as_slice() == b.as_slice()
}

/// A key is a list of places.
impl Part for Items<usize> {
    ghost is_plain = { λ _. ⊤ };

    fn is_same(&self, other: &Items<usize>) -> bool {
        are_same_places(self, other)
    }
}

/// A key's order is ascending or descending, by a collation.
impl Part for Order {
    ghost is_plain = { λ _. ⊤ };

    fn is_same(&self, other: &Order) -> bool {
        self == other
    }
}

/// Whether no default reads the time.
fn is_untimed(stamps: &Stamps) -> bool
    ensures { IsTrue result ↔ (stamps.now ≡ no_stamps) }
{
    stamps.places.is_empty() && stamps.terms.roots.is_empty() && stamps.formats.is_empty()
}

/// Whether a table has neither CHECK nor REFERENCES, and no default reads the time.
fn is_unbound(table: &Table) -> bool
    ensures checks { IsTrue result → table.now.checks ≡ [] }
    ensures references { IsTrue result → table.now.references ≡ [] }
    ensures stamps { IsTrue result → table.now.stamps ≡ no_stamps }
    ensures plain { IsPlainTable table.now → result ≡ true }
{
    table.checks.roots.is_empty() && table.references.is_empty() && is_untimed(&table.stamps)
}

/// Whether two tables have the same name, and the same rows by number.
fn is_same_head(a: &Table, b: &Table) -> bool
    ensures { IsTrue result ↔ ((a.now.name ≡ b.now.name) × (a.now.tree ≡ b.now.tree) × (a.now.key ≡ b.now.key) × (a.now.is_counted ≡ b.now.is_counted)) }
{
    a.name.as_slice() == b.name.as_slice()
        && a.tree == b.tree
        && a.key == b.key
        && a.is_counted == b.is_counted
}

/// Whether two tables have the same keys.
#[tactic(auto, using(crate::proofs::SchemaLemmas::all_plain))]
fn is_same_key(a: &Table, b: &Table) -> bool
    ensures same { IsTrue result → (a.now.primary ≡ b.now.primary) × (a.now.uniques ≡ b.now.uniques) × (a.now.orders ≡ b.now.orders) × (a.now.computed ≡ b.now.computed) }
    ensures plain { a.now ≡ b.now → result ≡ true }
{
    are_same_places(&a.primary, &b.primary)
        && are_same(a.uniques.as_slice(), b.uniques.as_slice())
        && are_same(a.orders.as_slice(), b.orders.as_slice())
        && are_same_places(&a.computed, &b.computed)
}

impl Part for Table {
    ghost is_plain = { IsPlainTable };

    fn is_same(&self, other: &Table) -> bool {
        is_same_head(self, other)
            && are_same(self.columns.as_slice(), other.columns.as_slice())
            && is_same_key(self, other)
            && is_unbound(self)
            && is_unbound(other)
    }
}

impl Part for Index {
    ghost is_plain = { λ _. ⊤ };

    fn is_same(&self, other: &Index) -> bool {
        self.name.as_slice() == other.name.as_slice()
            && self.tree == other.tree
            && self.table == other.table
            && are_same_places(&self.columns, &other.columns)
            && self.order == other.order
            && self.is_unique == other.is_unique
    }
}

/// Whether two schemas are the same, and plain. Where the second is plain, that is whether they are the same.
#[tactic(auto, using(crate::proofs::SchemaLemmas::all_plain))]
pub fn is_same_schema(a: &Schema, b: &Schema) -> bool
    ensures same { IsTrue result → a.now ≡ b.now }
    ensures plain { a.now ≡ b.now → IsPlainSchema b.now → result ≡ true }
{
    a.views.is_empty()
        && b.views.is_empty()
        && are_same(a.tables.as_slice(), b.tables.as_slice())
        && are_same(a.indexes.as_slice(), b.indexes.as_slice())
}
