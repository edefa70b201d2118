//! What is told of rows that keep all rules.
ghost use Rattle.std.specs.Prelude.{◌≡◌, ◌++◌, ◌+◌, ◌^◌, ◌<◌, ℕ, List, drop, map, IfOk, OnOk};
ghost use Rattle.std.specs.List.{list_any, position};
ghost use Rattle.std.specs.String.{string_bytes};
ghost use Rattle.csv.specs.Records.{fields_of};
ghost use Rattle.tc_types.specs.Words.{words};
ghost use Rattle.tc_check.specs.Findings.{Shows};
ghost use Rattle.tc_check.specs.Places.{row_place};
ghost use Rattle.tc_check.specs.Notes.{is_60, note_lines, note_of, notes_from, notes_of, parts_time, procedure_note, stack_note, writes_60};

use crate::findings::Findings;
use crate::looks::has_byte;
use crate::places::row_place;
use crate::shown::quoted;
use crate::told::Sheet;
use csv::ByteRecord;
use std::alloc::{AllocError, Global};
use tc_csv::field;
use tc_lines::cut;
use tc_types::LoadKind;

/// Whether the seconds of a time are 60, with colons or without.
fn is_60(time: &[u8]) -> bool
    ensures { result ≡ is_60 time.now }
{
    if has_byte(time, 2, b':') {
        has_byte(time, 6, b'6') && has_byte(time, 7, b'0')
    } else {
        has_byte(time, 4, b'6') && has_byte(time, 5, b'0')
    }
}

/// Where the time of an instant begins: behind this byte.
fn time_place(instant: &[u8]) -> Option<usize>
    ensures { result ≡ position parts_time instant.now }
{
    instant
        .iter()
        .position(|byte| *byte == b'T' || *byte == b't' || *byte == b' ')
}

/// Whether second 60 is written in an instant.
fn writes_60(instant: &[u8]) -> bool
    ensures { result ≡ writes_60 instant.now }
{
    match time_place(instant) {
        Some(place) => is_60(&instant[place + 1..]),
        None => false,
    }
}

/// Whether it is written in one of the instants of a list.
fn has_60(list: &[u8]) -> bool
    ensures { result ≡ list_any writes_60 (words 59 list.now) }
{
    let mut left = Some(list);
    while let Some(text) = left {
        let (first, rest) = cut(text, b';');
        if writes_60(first) {
            return true;
        }
        left = rest;
    }
    false
}

/// What is told of a time in which second 60 is written.
fn stack_note(alloc: Global, time: &[u8]) -> Result<String, AllocError>
    ensures { IfOk result (λ note. string_bytes note ≡ stack_note time.now) }
{
    if !has_60(time) {
        return Ok(String::new(alloc));
    }
    let value = quoted(alloc, time)?;
    let value = value.as_str();
    format!(in alloc; ", field time: second 60 is read as 59: {value}")
}

/// What is told of a request that is 0.
fn procedure_note(alloc: Global, request: &[u8]) -> Result<String, AllocError>
    ensures { IfOk result (λ note. string_bytes note ≡ procedure_note request.now) }
{
    if request != b"0".as_slice() {
        return Ok(String::new(alloc));
    }
    let value = quoted(alloc, request)?;
    let value = value.as_str();
    format!(in alloc; ", field request: no request has number 0: {value}")
}

/// What is told of a row.
fn note_of(alloc: Global, kind: LoadKind, fields: &ByteRecord) -> Result<String, AllocError>
    ensures { IfOk result (λ note. string_bytes note ≡ note_of kind (fields_of fields.now)) }
{
    match kind {
        LoadKind::Stack => stack_note(alloc, field(fields, 5)),
        LoadKind::Procedure => procedure_note(alloc, field(fields, 3)),
    }
}

/// Adds what is told of a row by its number.
fn add_note(
    alloc: Global,
    kind: LoadKind,
    lines: &[usize],
    row: usize,
    fields: &ByteRecord,
    findings: &mut Findings,
) -> Result<(), AllocError>
    requires { row + 1 < 2 ^ 64 }
    ensures { (found : List (List ℕ)) → Shows found findings.old
        → OnOk result (Shows (found ++ note_lines (row_place kind lines.now row) (note_of kind (fields_of fields.now))) findings.new) }
{
    let note = note_of(alloc, kind, fields)?;
    if note.is_empty() {
        return Ok(());
    }
    let mut line = row_place(alloc, kind, lines, row)?;
    line.push_str(note.as_str())?;
    findings.add(line.as_str())
}

/// The rows behind the header.
fn rows_behind(records: &[ByteRecord]) -> &[ByteRecord]
    ensures { map fields_of result.now ≡ drop 1 (map fields_of records.now) }
{
    match records.split_first() {
        Some((_, rows)) => rows,
        None => &[],
    }
}

/// What is told of rows.
fn row_notes(
    alloc: Global,
    kind: LoadKind,
    lines: &[usize],
    rows: &[ByteRecord],
) -> Result<Findings, AllocError>
    ensures { IfOk result (Shows (notes_from kind lines.now 1 (map fields_of rows.now))) }
{
    let mut findings = Findings::new(alloc);
    for (index, fields) in rows.iter().enumerate() {
        add_note(alloc, kind, lines, index + 1, fields, &mut findings)?;
    }
    Ok(findings)
}

/// What is told of the rows of a text.
pub(crate) fn notes_of(alloc: Global, sheet: &Sheet<'_>) -> Result<Findings, AllocError>
    ensures { IfOk result (Shows (notes_of sheet.now.kind sheet.now.text.now)) }
{
    row_notes(alloc, sheet.kind, &sheet.lines, rows_behind(&sheet.records))
}
