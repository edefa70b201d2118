//! A table under its header.
ghost use Rattle.std.specs.Prelude.{◌≡◌, ◌↔◌, ◌≤◌, ℕ, List, IsTrue, IfSome, Some, map, length};
ghost use Rattle.csv.specs.Records.{fields_of, field_at};
ghost use Rattle.tc_csv.specs.declared.faults.NotRead.TheVariants.{Wrong};
ghost use Rattle.tc_csv.specs.Faults.{Judged};
ghost use Rattle.tc_csv.specs.Tables.{records_of, column_name, header, HasHeader, Breaks, broken_at, IsTable, IsTableFault};

use crate::columns::Column;
use crate::faults::{NotRead, Rule};
use csv::{ByteRecord, ReaderBuilder};
use std::alloc::Global;

/// The most bytes that a text may have.
pub const MOST_BYTES: usize = 65_536;

/// Every record of a text, with any number of fields. `None` where memory was refused.
pub fn read_records(alloc: Global, text: &[u8]) -> Option<Vec<ByteRecord>>
    ensures { IfSome result (λ v. map fields_of v.items ≡ records_of text.now) }
{
    let reader = ReaderBuilder::new()
        .has_headers(false)
        .flexible(true)
        .from_reader(alloc, text);
    let mut records = Vec::new(alloc);
    for record in reader.into_byte_records() {
        let Ok(record) = record else {
            return None;
        };
        records.push(record).ok()?;
    }
    Some(records)
}

/// Whether the field at a place of a record is the name of this column.
fn is_named(fields: &ByteRecord, place: usize, column: Column) -> bool
    ensures { IsTrue result ↔ (field_at (fields_of fields.now) place ≡ Some (column_name column)) }
{
    match fields.get(place) {
        Some(field) => field == column.name().as_bytes(),
        None => false,
    }
}

/// Whether a record is the header with these columns.
fn is_header(fields: &ByteRecord, columns: &[Column]) -> bool
    ensures { IsTrue result ↔ (fields_of fields.now ≡ header columns.now) }
{
    if fields.len() != columns.len() {
        return false;
    }
    for place in 0..columns.len() {
        if !is_named(fields, place, columns[place]) {
            return false;
        }
    }
    true
}

/// Whether the first record is the header with these columns.
fn has_header(records: &[ByteRecord], columns: &[Column]) -> bool
    ensures { IsTrue result ↔ HasHeader (header columns.now) (map fields_of records.now) }
{
    match records.first() {
        Some(first) => is_header(first, columns),
        None => false,
    }
}

/// The first rule of a table that these records of a text break, if they break one.
fn broken_rule(records: &[ByteRecord], columns: &[Column], most_rows: u16) -> Option<Rule>
    ensures { (text : List ℕ) → length text ≤ 65536 → map fields_of records.now ≡ records_of text → Breaks columns.now most_rows text result }
{
    if records.len() > usize::from(most_rows) + 1 {
        Some(Rule::RowCount)
    } else if !has_header(records, columns) {
        Some(Rule::Header)
    } else if records.len() <= 1 {
        Some(Rule::SomeRow)
    } else {
        None
    }
}

/// The record at which such a rule is broken.
fn broken_at(most_rows: u16, rule: Rule) -> u32
    ensures { result ≡ broken_at most_rows rule }
{
    match rule {
        Rule::RowCount => u32::from(most_rows) + 1,
        Rule::SomeRow => 1,
        _ => 0,
    }
}

/// The fault of a table that breaks this rule.
fn wrong_table(most_rows: u16, rule: Rule) -> NotRead
    ensures { result ≡ Wrong (record { row = broken_at most_rows rule; rule = rule }) }
{
    NotRead::wrong(broken_at(most_rows, rule), rule)
}

/// The records of a text as a table with these columns: the header, and behind it 1 to `most_rows` rows, which may have any
/// number of fields here.
///
/// It is refused `Wrong` with the first rule that the text breaks, and `Memory` where memory was refused.
pub fn read_table(
    alloc: Global,
    text: &[u8],
    columns: &[Column],
    most_rows: u16,
) -> Result<Vec<ByteRecord>, NotRead>
    ensures { Judged (λ v. IsTable columns.now most_rows text.now (map fields_of v.items)) (IsTableFault columns.now most_rows text.now) result }
{
    if text.len() > MOST_BYTES {
        return Err(wrong_table(most_rows, Rule::TextLength));
    }
    let records = read_records(alloc, text).ok_or(NotRead::Memory)?;
    match broken_rule(&records, columns, most_rows) {
        Some(rule) => Err(wrong_table(most_rows, rule)),
        None => Ok(records),
    }
}
