//! What a text is that begins with no header.
ghost use Rattle.std.specs.Prelude.{◌≡◌, [], get_or, map};
ghost use Rattle.csv.specs.Records.{fields_of};
ghost use Rattle.tc_check.specs.Looks.{has_byte, has_in, has_mark, is_one_field_with, is_utf16, is_workbook, look_of};

use csv::ByteRecord;
use tc_csv::field;

/// What a text looks like.
#[derive(Clone, Copy, Debug, PartialEq, Eq)]
pub(crate) enum Look {
    /// Text of another encoding.
    Utf16,
    /// The workbook of a spreadsheet.
    Workbook,
    /// Nothing.
    Empty,
    /// Semicolons between columns.
    Semicolons,
    /// TABs between columns.
    Tabs,
    /// Other columns.
    Columns,
}

/// Whether a byte stands at a place.
pub(crate) fn has_byte(text: &[u8], place: usize, byte: u8) -> bool
    ensures { result ≡ has_byte text.now place byte }
{
    text.get(place) == Some(&byte)
}

/// Whether the mark of UTF-8 stands in front of a text.
pub(crate) fn has_mark(text: &[u8]) -> bool
    ensures { result ≡ has_mark text.now }
{
    has_byte(text, 0, 0xef) && has_byte(text, 1, 0xbb) && has_byte(text, 2, 0xbf)
}

/// Whether a text is UTF-16, by its mark or by every second of its first four bytes.
fn is_utf16(text: &[u8]) -> bool
    ensures { result ≡ is_utf16 text.now }
{
    let is_marked = has_byte(text, 0, 0xff) && has_byte(text, 1, 0xfe)
        || has_byte(text, 0, 0xfe) && has_byte(text, 1, 0xff);
    let is_plain = has_byte(text, 0, 0) && has_byte(text, 2, 0)
        || has_byte(text, 1, 0) && has_byte(text, 3, 0);
    is_marked || is_plain
}

/// Whether a text is a workbook: an archive, as `.xlsx` and `.ods` are.
fn is_workbook(text: &[u8]) -> bool
    ensures { result ≡ is_workbook text.now }
{
    has_byte(text, 0, b'P')
        && has_byte(text, 1, b'K')
        && has_byte(text, 2, 3)
        && has_byte(text, 3, 4)
}

/// Whether a byte stands in a field.
pub(crate) fn has_in(field: &[u8], byte: u8) -> bool
    ensures { result ≡ has_in field.now byte }
{
    field.iter().any(|other| *other == byte)
}

/// Whether a record is one field, in which this byte stands.
fn is_one_with(fields: &ByteRecord, byte: u8) -> bool
    ensures { result ≡ is_one_field_with byte (fields_of fields.now) }
{
    fields.len() == 1 && has_in(field(fields, 0), byte)
}

/// Whether the first record is one field, in which this byte stands.
fn is_one_field_with(records: &[ByteRecord], byte: u8) -> bool
    ensures { result ≡ is_one_field_with byte (get_or (map fields_of records.now) 0 []) }
{
    match records.first() {
        Some(first) => is_one_with(first, byte),
        None => false,
    }
}

/// What a text with these records looks like.
pub(crate) fn look_of(text: &[u8], records: &[ByteRecord]) -> Look
    ensures { result ≡ look_of text.now (map fields_of records.now) }
{
    if is_utf16(text) {
        Look::Utf16
    } else if is_workbook(text) {
        Look::Workbook
    } else if records.is_empty() {
        Look::Empty
    } else if is_one_field_with(records, b';') {
        Look::Semicolons
    } else if is_one_field_with(records, b'\t') {
        Look::Tabs
    } else {
        Look::Columns
    }
}
