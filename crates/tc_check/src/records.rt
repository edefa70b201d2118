//! The records of a text, and what stands in their fields.
ghost use Rattle.std.specs.Prelude.{◌≡◌, [], get_or, length, map};
ghost use Rattle.csv.specs.Records.{fields_of};
ghost use Rattle.tc_check.specs.Rows.{column_place, has_time_each, semicolons, sort_of_row, value_in};

use csv::ByteRecord;
use tc_csv::{Column, field};
use tc_script::Sort;

/// The place of a column among those of its table.
fn column_place(column: Column) -> usize
    ensures { result ≡ column_place column }
{
    match column {
        Column::Line | Column::Step => 0,
        Column::Apid | Column::Text => 1,
        Column::Service | Column::Second => 2,
        Column::Subtype | Column::Request => 3,
        Column::Target => 4,
        Column::Time => 5,
        Column::Ack => 6,
        Column::Critical => 7,
        Column::After => 8,
        Column::Outcome => 9,
    }
}

/// What a row commands: what is no row of a stack, another service than 11.
fn sort_of_row(fields: &ByteRecord) -> Sort
    ensures { result ≡ sort_of_row (fields_of fields.now) }
{
    Sort::of(field(fields, 2) == b"11".as_slice(), field(fields, 3))
}

/// What the record at a place commands.
pub(crate) fn sort_at(records: &[ByteRecord], place: u32) -> Sort
    ensures { result ≡ sort_of_row (get_or (map fields_of records.now) place []) }
{
    match records.get(place as usize) {
        Some(fields) => sort_of_row(fields),
        None => Sort::Other,
    }
}

/// How often `;` stands in a field.
fn semicolons(field: &[u8]) -> usize
    ensures { result ≡ semicolons field.now }
{
    field.iter().filter(|byte| **byte == b';').count()
}

/// Whether a row has as many times as targets.
fn has_time_each(fields: &ByteRecord) -> bool
    ensures { result ≡ has_time_each (fields_of fields.now) }
{
    semicolons(field(fields, 5)) == semicolons(field(fields, 4))
}

/// Whether the record at a place has as many times as targets.
pub(crate) fn has_time_each_at(records: &[ByteRecord], place: u32) -> bool
    ensures { result ≡ has_time_each (get_or (map fields_of records.now) place []) }
{
    match records.get(place as usize) {
        Some(fields) => has_time_each(fields),
        None => true,
    }
}

/// What stands in a column of the record at a place.
pub(crate) fn value_at(records: &[ByteRecord], place: u32, column: Column) -> &[u8]
    ensures { result.now ≡ value_in column (get_or (map fields_of records.now) place []) }
{
    match records.get(place as usize) {
        Some(fields) => field(fields, column_place(column)),
        None => &[],
    }
}

/// How many fields the record at a place has.
pub(crate) fn width_at(records: &[ByteRecord], place: u32) -> usize
    ensures { result ≡ length (get_or (map fields_of records.now) place []) }
{
    match records.get(place as usize) {
        Some(fields) => fields.len(),
        None => 0,
    }
}
