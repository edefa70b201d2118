//! What was found where a rule is broken.
ghost use Rattle.std.specs.Prelude.{◌≡◌, [], get_or, map, IfOk};
ghost use Rattle.std.specs.String.{string_bytes};
ghost use Rattle.csv.specs.Records.{fields_of};
ghost use Rattle.tc_check.specs.Found.{found, found_field, found_in};

use crate::headers::{header_found, other_found};
use crate::records::{value_at, width_at};
use crate::shown::quoted;
use csv::ByteRecord;
use std::alloc::{AllocError, Global};
use tc_csv::{Column, Fault, Rule};
use tc_types::LoadKind;

/// The value of a field.
fn found_field(
    alloc: Global,
    records: &[ByteRecord],
    row: u32,
    column: Column,
) -> Result<String, AllocError>
    ensures { IfOk result (λ text. string_bytes text ≡ found_field column (get_or (map fields_of records.now) row [])) }
{
    let value = quoted(alloc, value_at(records, row, column))?;
    let value = value.as_str();
    format!(in alloc; ": {value}")
}

/// The value of the field that a rule speaks of, if it is one of a field.
fn found_in(
    alloc: Global,
    records: &[ByteRecord],
    row: u32,
    column: Option<Column>,
) -> Result<String, AllocError>
    ensures { IfOk result (λ text. string_bytes text ≡ found_in column (get_or (map fields_of records.now) row [])) }
{
    match column {
        Some(column) => found_field(alloc, records, row, column),
        None => Ok(String::new(alloc)),
    }
}

/// What was found where a text with these records has a fault.
pub(crate) fn found(
    alloc: Global,
    kind: LoadKind,
    text: &[u8],
    records: &[ByteRecord],
    fault: Fault,
) -> Result<String, AllocError>
    ensures { IfOk result (λ told. string_bytes told ≡ found kind text.now (map fields_of records.now) fault) }
{
    match fault.rule {
        Rule::TextLength | Rule::RowCount => String::from_str(alloc, other_found(text, records)),
        Rule::Header => {
            let header = header_found(alloc, kind, text, records)?;
            let header = header.as_str();
            format!(in alloc; ": {header}")
        }
        Rule::SomeRow => String::from_str(alloc, ": nothing but a header"),
        Rule::FieldCount => {
            let width = width_at(records, fault.row);
            format!(in alloc; ": {width}")
        }
        _ => found_in(alloc, records, fault.row, fault.rule.column()),
    }
}
