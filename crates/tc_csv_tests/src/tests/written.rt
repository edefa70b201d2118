//! Records, written in the ways in which spreadsheets write them.
use super::dice::Dice;
use std::alloc::Global;
use std::str;

/// A record: its fields.
pub type Fields = Vec<Vec<u8>>;

/// The header of a text, right and wrong.
#[derive(Clone, Copy)]
pub struct Headers {
    pub right: &'static [u8],
    pub wrong: &'static [u8],
}

/// The field of a record, empty where it has none there.
pub fn at(fields: &Fields, place: usize) -> &[u8] {
    match fields.get(place) {
        Some(field) => field.as_slice(),
        None => b"",
    }
}

/// The number that a field says, if it says one of 32 bits.
pub fn number_of(field: &[u8]) -> Option<u32> {
    let is_long = field.len() > 1 && field.first() == Some(&b'0');
    if is_long || !field.iter().all(|byte| byte.is_ascii_digit()) {
        return None;
    }
    match str::from_utf8(field) {
        Ok(text) => text.parse().ok(),
        Err(_) => None,
    }
}

/// A field with these bytes; none where memory was refused, as everywhere here.
pub fn field(alloc: Global, bytes: &[u8]) -> Option<Vec<u8>> {
    let mut made = Vec::new(alloc);
    made.extend_from_slice(bytes).ok()?;
    Some(made)
}

/// The number of a row: mostly its own.
pub fn number(alloc: Global, dice: &mut Dice, row: u32) -> Option<Vec<u8>> {
    let said = if dice.one_in(80) { dice.roll(5) } else { row };
    let mut made = Vec::new(alloc);
    if dice.one_in(200) {
        made.push(b'0').ok()?;
    }
    if said >= 100 {
        made.push(b'0'.saturating_add((said / 100 % 10) as u8))
            .ok()?;
    }
    if said >= 10 {
        made.push(b'0'.saturating_add((said / 10 % 10) as u8)).ok()?;
    }
    made.push(b'0'.saturating_add((said % 10) as u8)).ok()?;
    Some(made)
}

/// Whether a field has to be quoted.
fn is_special(field: &[u8]) -> bool {
    field.iter().any(|byte| *byte == b',' || *byte == b'"' || *byte == b'\r' || *byte == b'\n')
}

/// Writes a field in quotes, each quote in it doubled.
fn write_quoted(field: &[u8], out: &mut Vec<u8>) -> Option<()> {
    out.push(b'"').ok()?;
    for byte in field {
        if *byte == b'"' {
            out.push(b'"').ok()?;
        }
        out.push(*byte).ok()?;
    }
    out.push(b'"').ok()
}

/// Writes a field, in quotes where it has to be, and now and then where not.
fn write_field(dice: &mut Dice, field: &[u8], out: &mut Vec<u8>) -> Option<()> {
    if is_special(field) || dice.one_in(5) {
        write_quoted(field, out)
    } else {
        out.extend_from_slice(field).ok()
    }
}

/// Writes a record without its line end.
fn write_record(dice: &mut Dice, fields: &Fields, out: &mut Vec<u8>) -> Option<()> {
    let mut is_first = true;
    for field in fields {
        if !is_first {
            out.push(b',').ok()?;
        }
        is_first = false;
        write_field(dice, field.as_slice(), out)?;
    }
    Some(())
}

/// Ends a line: as the text does it, and now and then with an empty line behind it.
fn write_end(dice: &mut Dice, is_crlf: bool, out: &mut Vec<u8>) -> Option<()> {
    let end: &[u8] = if is_crlf { b"\r\n" } else { b"\n" };
    out.extend_from_slice(end).ok()?;
    if dice.one_in(50) {
        out.extend_from_slice(end).ok()?;
    }
    Some(())
}

/// Writes the header with what comes before it, and says whether it is right.
fn write_header(dice: &mut Dice, headers: &Headers, out: &mut Vec<u8>) -> Option<bool> {
    let marks = if dice.one_in(60) { 2 } else { dice.roll(2) };
    for _ in 0..marks {
        out.extend_from_slice(b"\xef\xbb\xbf").ok()?;
    }
    let is_right = !dice.one_in(60);
    let header = if is_right {
        headers.right
    } else {
        headers.wrong
    };
    out.extend_from_slice(header).ok()?;
    Some(is_right && marks < 2)
}

/// Writes a text with these rows, and says whether its header is right.
pub fn write_text(
    dice: &mut Dice,
    headers: &Headers,
    rows: &[Fields],
    out: &mut Vec<u8>,
) -> Option<bool> {
    let is_crlf = dice.one_in(2);
    let is_right = write_header(dice, headers, out)?;
    for fields in rows {
        write_end(dice, is_crlf, out)?;
        write_record(dice, fields, out)?;
    }
    if !dice.one_in(4) {
        write_end(dice, is_crlf, out)?;
    }
    Some(is_right)
}
