//! Where a text is wrong.
ghost use Rattle.std.specs.Prelude.{◌≡◌, ◌+◌, ◌^◌, ◌<◌, IfOk};
ghost use Rattle.std.specs.String.{string_bytes};
ghost use Rattle.tc_check.specs.Places.{above_rows, in_field, on_line, place, row_name, row_place};

use std::alloc::{AllocError, Global};
use tc_csv::{Column, Fault, Rule};
use tc_types::LoadKind;

/// What a row is called.
fn row_name(kind: LoadKind) -> &'static str
    ensures { result.now ≡ row_name kind }
{
    match kind {
        LoadKind::Stack => "line ",
        LoadKind::Procedure => "step ",
    }
}

/// What stands above the rows.
fn above_rows(rule: Rule) -> &'static str
    ensures { result.now ≡ above_rows rule }
{
    match rule {
        Rule::TextLength => "file",
        _ => "header",
    }
}

/// The line of the file, where it is not the one behind as many lines as rows.
fn on_line(alloc: Global, row: usize, line: usize) -> Result<String, AllocError>
    requires { row + 1 < 2 ^ 64 }
    ensures { IfOk result (λ text. string_bytes text ≡ on_line row line) }
{
    if line == row + 1 {
        return Ok(String::new(alloc));
    }
    format!(in alloc; " (line {line} of the file)")
}

/// A row, by its number, and the line of the file.
pub(crate) fn row_place(
    alloc: Global,
    kind: LoadKind,
    lines: &[usize],
    row: usize,
) -> Result<String, AllocError>
    requires { row + 1 < 2 ^ 64 }
    ensures { IfOk result (λ text. string_bytes text ≡ row_place kind lines.now row) }
{
    let name = row_name(kind);
    let line = lines.get(row).copied().unwrap_or(row + 1);
    let on_line = on_line(alloc, row, line)?;
    let on_line = on_line.as_str();
    format!(in alloc; "{name}{row}{on_line}")
}

/// The record of a fault.
pub(crate) fn place(
    alloc: Global,
    kind: LoadKind,
    lines: &[usize],
    fault: Fault,
) -> Result<String, AllocError>
    ensures { IfOk result (λ text. string_bytes text ≡ place kind lines.now fault) }
{
    if fault.row == 0 {
        return String::from_str(alloc, above_rows(fault.rule));
    }
    row_place(alloc, kind, lines, fault.row as usize)
}

/// The field of a fault.
pub(crate) fn in_field(alloc: Global, column: Option<Column>) -> Result<String, AllocError>
    ensures { IfOk result (λ text. string_bytes text ≡ in_field column) }
{
    match column {
        None => Ok(String::new(alloc)),
        Some(column) => {
            let name = column.name();
            format!(in alloc; ", field {name}")
        }
    }
}
