//! How the tables of a desk that stand are known again: by their schema, which is compared with that of tables just made.
ghost use Rattle.std.specs.Prelude.{◌≡◌, ◌≢◌, true, false, None, IfSome, IfOk};
ghost use Rattle.tc_store.specs.declared.versions.Version.{Version as SomeVersion};
ghost use Rattle.tc_store.specs.declared.versions.Version.TheVariants.{First, Second, Third};
ghost use Rattle.tc_store.specs.Layouts.{IsLayoutOf};
ghost use Rattle.tc_store.specs.Schema.{schema_of, IsSchemaOf};

use crate::creates::make_as;
use crate::versions::{Layout, Version};
use sqlite::{Connection, MemStore};
use sqlite_schema::schema::Schema;
use std::alloc::{AllocError, Global};
use tc_sql::is_same_schema;

/// A database in memory with the tables of a version, in this order, and no row. Where it cannot be had, memory was refused.
fn pattern(
    alloc: Global,
    layout: Layout,
    version: Version,
) -> Result<Connection<MemStore>, AllocError>
    ensures made { IfOk result (λ conn. IsLayoutOf layout version → conn.schema ≡ schema_of layout version) }
{
    let mut conn = Connection::open_in_memory(alloc)?;
    match make_as(&mut conn, layout, version) {
        Ok(()) => Ok(conn),
        Err(_) => Err(AllocError),
    }
}

/// Whether the tables, indexes and views of a database are those of this version in this order, in which they may stand, and no others.
fn is_in(
    alloc: Global,
    schema: &Schema,
    layout: Layout,
    version: Version,
) -> Result<bool, AllocError>
    ensures ours { IfOk result (λ ours. ours ≡ true → IsLayoutOf layout version → IsSchemaOf version schema.now) }
    ensures foreign { IfOk result (λ ours. ours ≡ false → IsLayoutOf layout version → schema.now ≢ schema_of layout version) }
{
    let made = pattern(alloc, layout, version)?;
    Ok(is_same_schema(schema, made.schema()))
}

/// Whether they are those of the first version, in one of its orders.
fn is_first(alloc: Global, schema: &Schema) -> Result<bool, AllocError>
    ensures ours { IfOk result (λ ours. ours ≡ true → IsSchemaOf First schema.now) }
    ensures foreign { IfOk result (λ ours. ours ≡ false → ¬ IsSchemaOf First schema.now) }
{
    if is_in(alloc, schema, Layout::Made, Version::First)? {
        return Ok(true);
    }
    let is_copied = is_in(
        alloc,
        schema,
        Layout::Copied(Version::First),
        Version::First,
    )?;
    Ok(is_copied)
}

/// Whether they are those of the second.
fn is_second(alloc: Global, schema: &Schema) -> Result<bool, AllocError>
    ensures ours { IfOk result (λ ours. ours ≡ true → IsSchemaOf Second schema.now) }
    ensures foreign { IfOk result (λ ours. ours ≡ false → ¬ IsSchemaOf Second schema.now) }
{
    if is_in(alloc, schema, Layout::Made, Version::Second)? {
        return Ok(true);
    }
    if is_in(
        alloc,
        schema,
        Layout::Copied(Version::First),
        Version::Second,
    )? {
        return Ok(true);
    }
    let is_copied = is_in(
        alloc,
        schema,
        Layout::Copied(Version::Second),
        Version::Second,
    )?;
    Ok(is_copied)
}

/// Whether they are those of the third.
fn is_third(alloc: Global, schema: &Schema) -> Result<bool, AllocError>
    ensures ours { IfOk result (λ ours. ours ≡ true → IsSchemaOf Third schema.now) }
    ensures foreign { IfOk result (λ ours. ours ≡ false → ¬ IsSchemaOf Third schema.now) }
{
    if is_in(alloc, schema, Layout::Made, Version::Third)? {
        return Ok(true);
    }
    if is_in(
        alloc,
        schema,
        Layout::Copied(Version::First),
        Version::Third,
    )? {
        return Ok(true);
    }
    if is_in(
        alloc,
        schema,
        Layout::Copied(Version::Second),
        Version::Third,
    )? {
        return Ok(true);
    }
    let is_copied = is_in(
        alloc,
        schema,
        Layout::Copied(Version::Third),
        Version::Third,
    )?;
    Ok(is_copied)
}

/// The version of which the tables, indexes and views of a database are, in whatever order; `None` where they are of none.
pub(crate) fn version_of(alloc: Global, schema: &Schema) -> Result<Option<Version>, AllocError>
    ensures ours { IfOk result (λ found. IfSome found (λ version. IsSchemaOf version schema.now)) }
    ensures foreign { IfOk result (λ found. found ≡ None → (version : SomeVersion) → ¬ IsSchemaOf version schema.now) }
{
    if is_third(alloc, schema)? {
        return Ok(Some(Version::Third));
    }
    if is_second(alloc, schema)? {
        return Ok(Some(Version::Second));
    }
    if is_first(alloc, schema)? {
        return Ok(Some(Version::First));
    }
    Ok(None)
}
