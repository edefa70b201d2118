//! The text of a stack, read.
ghost use Rattle.std.specs.Prelude.{◌≡◌, ◌⊎◌, ◌≤◌, List, Some, length, map, IfOk, IfErr};
ghost use Rattle.std.specs.List.{list_any};
ghost use Rattle.csv.specs.Records.{fields_of};
ghost use Rattle.tc_types.specs.declared.refusals.Refusal.TheVariants.{Memory};
ghost use Rattle.tc_types.specs.Limits.{most_stack_rows};
ghost use Rattle.tc_csv.specs.declared.faults.Fault.{Fault as SomeFault};
ghost use Rattle.tc_csv.specs.Faults.{Judged, FirstBrokenRow, rule_refusal};
ghost use Rattle.tc_csv.specs.Rows.{SpellRows};
ghost use Rattle.tc_stack.specs.declared.stacks.StackRow.{StackRow as SomeRow};
ghost use Rattle.tc_stack.specs.Stacks.{is_barred, is_barred_line, names_barred, first_barred};
ghost use Rattle.tc_csv.specs.StackTexts.{KeepsRow, row_rules, SpellsStack, IsStackFault, Tells};
ghost use Rattle.tc_csv.specs.RowTexts.{SpellsOnlyRow, IsOnlyStack};

use crate::columns::Column;
use crate::faults::{Fault, NotRead, Rule};
use crate::stack_texts::stack_rows::row_of;
use crate::tables::read_table;
use csv::ByteRecord;
use std::alloc::{AllocError, Global};
use tc_stack::{Stack, StackRow, row_at};
use tc_types::limits::MOST_STACK_ROWS;
use tc_types::{Command, Entry, Refusal};

/// The columns of the text of a stack.
pub(crate) const COLUMNS: [Column; 10] = [
    Column::Line,
    Column::Apid,
    Column::Service,
    Column::Subtype,
    Column::Target,
    Column::Time,
    Column::Ack,
    Column::Critical,
    Column::After,
    Column::Outcome,
];

/// The rows of these records.
pub(crate) fn rows_of(alloc: Global, records: &[ByteRecord]) -> Result<Vec<StackRow>, NotRead>
    requires { length records.now ≤ most_stack_rows }
    ensures { Judged (λ v. SpellRows SpellsOnlyRow 1 (map fields_of records.now) v.items) (FirstBrokenRow KeepsRow row_rules 1 (map fields_of records.now)) result }
{
    let mut rows = Vec::new(alloc);
    for (index, fields) in records.iter().enumerate() {
        match row_of(index as u32 + 1, fields) {
            Ok(row) => rows.push(row)?,
            Err(rule) => return Err(NotRead::wrong(index as u32 + 1, rule)),
        }
    }
    Ok(rows)
}

/// Whether a command may not name this row.
fn is_barred(command: &Command, entry: Entry) -> bool
    ensures { (row : SomeRow) → row.entry ≡ entry → result ≡ is_barred command.now (Some row) }
{
    entry.command().is_schedule() || (command.is_insert() && !entry.form().ack.acceptance)
}

/// Whether a command may not name what stands on this line.
fn is_barred_line(rows: &[StackRow], command: &Command, line: u32) -> bool
    ensures { result ≡ is_barred_line rows.now command.now line }
{
    match row_at(rows, line) {
        Some(named) => is_barred(command, named.entry),
        None => false,
    }
}

/// Whether a command may not name one of these lines.
fn bars_one(rows: &[StackRow], command: &Command, lines: &[u32]) -> bool
    ensures { result ≡ list_any (is_barred_line rows.now command.now) lines.now }
{
    lines
        .iter()
        .any(|line| is_barred_line(rows, command, *line))
}

/// Whether the command of a row names one that it may not name, or one twice.
pub(crate) fn names_barred(rows: &[StackRow], row: &StackRow) -> bool
    ensures { result ≡ names_barred rows.now row.now }
{
    let command = row.entry.command();
    let targets = command.targets();
    bars_one(rows, &command, targets.as_slice()) || targets.has_twice()
}

/// The first line whose command does so.
fn first_barred(rows: &[StackRow]) -> Option<u32>
    requires { length rows.now ≤ most_stack_rows }
    ensures { result ≡ first_barred rows.now 1 rows.now }
{
    for (index, row) in rows.iter().enumerate() {
        if names_barred(rows, row) {
            return Some(index as u32 + 1);
        }
    }
    None
}

/// The rows of a text of a stack.
fn read_rows(alloc: Global, text: &[u8]) -> Result<Vec<StackRow>, NotRead>
    ensures { Judged (λ v. IsOnlyStack text.now v.items) (IsStackFault text.now) result }
{
    let records = read_table(alloc, text, &COLUMNS, MOST_STACK_ROWS)?;
    let rows = rows_of(alloc, &records[1..])?;
    match first_barred(&rows) {
        None => Ok(rows),
        Some(line) => Err(NotRead::wrong(line, Rule::TargetRow)),
    }
}

/// The stack that a text spells: a header `line,apid,service,subtype,target,time,ack,critical,after,outcome`, and 1 to 200 rows.
///
/// It is refused with `TooLong`, `BadText` or `BadActivity` where the text breaks a rule, in that order, and with `Memory` where
/// memory was refused.
pub fn read_stack(alloc: Global, text: &[u8]) -> Result<Stack, Refusal>
    ensures read { IfOk result (λ stack. SpellsStack text.now stack) }
    ensures refused { IfErr result (λ why. (why ≡ Memory) ⊎ ((fault : SomeFault) × IsStackFault text.now fault × (why ≡ rule_refusal fault.rule))) }
    ensures only { (rows : List SomeRow) → SpellsStack text.now rows → IfErr result (λ why. why ≡ Memory) × IfOk result (λ stack. stack ≡ rows) }
{
    match read_rows(alloc, text) {
        Ok(rows) => Ok(Stack::of(rows)),
        Err(NotRead::Wrong(fault)) => Err(fault.rule.refusal()),
        Err(NotRead::Memory) => Err(Refusal::Memory),
    }
}

/// Why a text spells no stack: the first rule that it breaks, and where; `None` where it spells one. Fails where memory is refused.
pub fn why_no_stack(alloc: Global, text: &[u8]) -> Result<Option<Fault>, AllocError>
    ensures told { IfOk result (Tells text.now) }
    ensures only { (fault : SomeFault) → IsStackFault text.now fault → IfOk result (λ told. told ≡ Some fault) }
{
    match read_rows(alloc, text) {
        Ok(_) => Ok(None),
        Err(NotRead::Wrong(fault)) => Ok(Some(fault)),
        Err(NotRead::Memory) => Err(AllocError),
    }
}
