//! What stands where a header should.
ghost use Rattle.std.specs.Prelude.{◌≡◌, [], get_or, map, IfOk};
ghost use Rattle.std.specs.String.{string_bytes};
ghost use Rattle.csv.specs.Records.{fields_of};
ghost use Rattle.tc_check.specs.Headers.{column_place, columns_found, columns_of, extra_column, first_found, header_found, is_named, missing_column, other_column, other_found};

use crate::looks::{Look, look_of};
use crate::shown::quoted;
use csv::ByteRecord;
use std::alloc::{AllocError, Global};
use tc_csv::{Column, procedure_columns, stack_columns};
use tc_types::LoadKind;

/// The columns of a text of this kind.
fn columns_of(kind: LoadKind) -> &'static [Column]
    ensures { result.now ≡ columns_of kind }
{
    match kind {
        LoadKind::Stack => stack_columns(),
        LoadKind::Procedure => procedure_columns(),
    }
}

/// A column by its number.
fn column_place(alloc: Global, number: usize) -> Result<String, AllocError>
    ensures { IfOk result (λ text. string_bytes text ≡ column_place number) }
{
    format!(in alloc; "column {number}")
}

/// A column that has another name.
fn other_column(
    alloc: Global,
    number: usize,
    column: Column,
    field: &[u8],
) -> Result<String, AllocError>
    ensures { IfOk result (λ text. string_bytes text ≡ other_column number column field.now) }
{
    let mut text = column_place(alloc, number)?;
    text.push_str(" is not ")?;
    text.push_str(column.name())?;
    text.push_str(": ")?;
    text.push_str(quoted(alloc, field)?.as_str())?;
    Ok(text)
}

/// A column that is not there.
fn missing_column(alloc: Global, number: usize, column: Column) -> Result<String, AllocError>
    ensures { IfOk result (λ text. string_bytes text ≡ missing_column number column) }
{
    let mut text = column_place(alloc, number)?;
    text.push_str(" is missing: ")?;
    text.push_str(column.name())?;
    Ok(text)
}

/// A column that is one too many.
fn extra_column(alloc: Global, number: usize, field: &[u8]) -> Result<String, AllocError>
    ensures { IfOk result (λ text. string_bytes text ≡ extra_column number field.now) }
{
    let mut text = column_place(alloc, number)?;
    text.push_str(" is one too many: ")?;
    text.push_str(quoted(alloc, field)?.as_str())?;
    Ok(text)
}

/// Whether a field is the name of a column.
fn is_named(field: &[u8], column: Column) -> bool
    ensures { result ≡ is_named field.now column }
{
    field == column.name().as_bytes()
}

/// The first column of a record that is not that of a header.
fn columns_found(
    alloc: Global,
    columns: &[Column],
    fields: &ByteRecord,
) -> Result<String, AllocError>
    ensures { IfOk result (λ text. string_bytes text ≡ columns_found 1 columns.now (fields_of fields.now)) }
{
    for place in 0..columns.len() {
        let column = columns[place];
        let Some(field) = fields.get(place) else {
            return missing_column(alloc, place + 1, column);
        };
        if !is_named(field, column) {
            return other_column(alloc, place + 1, column, field);
        }
    }
    match fields.get(columns.len()) {
        Some(field) => extra_column(alloc, columns.len() + 1, field),
        None => Ok(String::new(alloc)),
    }
}

/// The first column of the first record that is not that of the header.
fn first_found(alloc: Global, kind: LoadKind, records: &[ByteRecord]) -> Result<String, AllocError>
    ensures { IfOk result (λ text. string_bytes text ≡ first_found kind (get_or (map fields_of records.now) 0 [])) }
{
    match records.first() {
        Some(first) => columns_found(alloc, columns_of(kind), first),
        None => columns_found(alloc, columns_of(kind), &ByteRecord::new(alloc)),
    }
}

/// What a text is that begins with no header.
pub(crate) fn header_found(
    alloc: Global,
    kind: LoadKind,
    text: &[u8],
    records: &[ByteRecord],
) -> Result<String, AllocError>
    ensures { IfOk result (λ told. string_bytes told ≡ header_found kind text.now (map fields_of records.now)) }
{
    match look_of(text, records) {
        Look::Utf16 => String::from_str(alloc, "the file is UTF-16, and not UTF-8"),
        Look::Workbook => String::from_str(alloc, "the file is a workbook, and no text"),
        Look::Empty => String::from_str(alloc, "the file is empty"),
        Look::Semicolons => String::from_str(alloc, "semicolons stand where commas should"),
        Look::Tabs => String::from_str(alloc, "TABs stand where commas should"),
        Look::Columns => first_found(alloc, kind, records),
    }
}

/// What a text is that is too long: nothing, where it is text.
pub(crate) fn other_found(text: &[u8], records: &[ByteRecord]) -> &'static str
    ensures { result.now ≡ other_found text.now (map fields_of records.now) }
{
    match look_of(text, records) {
        Look::Utf16 => ": the file is UTF-16, and not UTF-8",
        Look::Workbook => ": the file is a workbook, and no text",
        _ => "",
    }
}
