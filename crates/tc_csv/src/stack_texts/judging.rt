//! All that is wrong with the text of a stack.
ghost use Rattle.std.specs.Prelude.{◌≡◌, ◌≤◌, length, List, [], ◌∷◌, ◌++◌, map, IfOk, OnOk};
ghost use Rattle.csv.specs.Records.{fields_of};
ghost use Rattle.tc_types.specs.Limits.{most_stack_rows};
ghost use Rattle.tc_csv.specs.declared.faults.Fault.{Fault as SomeFault};
ghost use Rattle.tc_csv.specs.FaultLists.{AddsRow, BrokenRows, first_fault};
ghost use Rattle.tc_csv.specs.StackFaults.{AreRowFaults, AreStackFaults, barred_faults, barred_row};
ghost use Rattle.tc_csv.specs.StackTexts.{KeepsRow, Tells, row_rules, stack_columns};

use crate::columns::Column;
use crate::faults::{Fault, NotRead, Rule};
use crate::stack_texts::readers::{COLUMNS, names_barred, rows_of};
use crate::stack_texts::stack_rows::row_of;
use crate::tables::read_table;
use csv::ByteRecord;
use std::alloc::{AllocError, Global};
use tc_stack::StackRow;
use tc_types::limits::MOST_STACK_ROWS;

/// The columns of the text of a stack, in order.
pub fn stack_columns() -> &'static [Column]
    ensures { result.now ≡ stack_columns }
{
    &COLUMNS
}

/// Adds what a row breaks, if it breaks a rule.
fn add_broken(faults: &mut Vec<Fault>, row: u32, fields: &ByteRecord) -> Result<(), AllocError>
    ensures { OnOk result (AddsRow KeepsRow row_rules row (fields_of fields.now) faults.old.items faults.new.items) }
{
    match row_of(row, fields) {
        Ok(_) => Ok(()),
        Err(rule) => Ok(faults.push(Fault { row, rule })?),
    }
}

/// What each row breaks, of those that break a rule.
fn broken_rows(alloc: Global, records: &[ByteRecord]) -> Result<Vec<Fault>, AllocError>
    requires { length records.now ≤ most_stack_rows }
    ensures { IfOk result (λ v. BrokenRows KeepsRow row_rules 1 (map fields_of records.now) v.items) }
{
    let mut faults = Vec::new(alloc);
    for (index, fields) in records.iter().enumerate() {
        add_broken(&mut faults, index as u32 + 1, fields)?;
    }
    Ok(faults)
}

/// Adds that the targets of a row are wrong, if they are.
fn add_barred(faults: &mut Vec<Fault>, row: u32, is_barred: bool) -> Result<(), AllocError>
    ensures { OnOk result (faults.new.items ≡ faults.old.items ++ barred_row is_barred row) }
{
    if !is_barred {
        return Ok(());
    }
    Ok(faults.push(Fault {
        row,
        rule: Rule::TargetRow,
    })?)
}

/// What is wrong with the targets of rows.
fn barred_rows(alloc: Global, rows: &[StackRow]) -> Result<Vec<Fault>, AllocError>
    requires { length rows.now ≤ most_stack_rows }
    ensures { IfOk result (λ v. v.items ≡ barred_faults rows.now 1 rows.now) }
{
    let mut faults = Vec::new(alloc);
    for (index, row) in rows.iter().enumerate() {
        add_barred(&mut faults, index as u32 + 1, names_barred(rows, row))?;
    }
    Ok(faults)
}

/// All that is wrong with the rows of a table.
fn faults_of(alloc: Global, records: &[ByteRecord]) -> Result<Vec<Fault>, AllocError>
    requires { length records.now ≤ most_stack_rows }
    ensures { IfOk result (λ v. AreRowFaults (map fields_of records.now) v.items) }
{
    match rows_of(alloc, records) {
        Ok(rows) => barred_rows(alloc, &rows),
        Err(NotRead::Wrong(_fault)) => broken_rows(alloc, records),
        Err(NotRead::Memory) => Err(AllocError),
    }
}

/// A fault by itself.
fn only(alloc: Global, fault: Fault) -> Result<Vec<Fault>, AllocError>
    ensures { IfOk result (λ v. v.items ≡ fault ∷ []) }
{
    let mut faults = Vec::new(alloc);
    faults.push(fault)?;
    Ok(faults)
}

/// All that is wrong with a text.
fn all_faults(alloc: Global, text: &[u8]) -> Result<Vec<Fault>, AllocError>
    ensures { IfOk result (λ v. AreStackFaults text.now v.items) }
{
    match read_table(alloc, text, &COLUMNS, MOST_STACK_ROWS) {
        Ok(records) => faults_of(alloc, &records[1..]),
        Err(NotRead::Wrong(fault)) => only(alloc, fault),
        Err(NotRead::Memory) => Err(AllocError),
    }
}

/// All that is wrong with the text of a stack: the first rule of the table that it breaks; or what each row breaks; or what is wrong with their targets.
/// Nothing where the text spells a stack. Fails where memory is refused.
pub fn stack_faults(alloc: Global, text: &[u8]) -> Result<Vec<Fault>, AllocError>
    ensures all { IfOk result (λ v. AreStackFaults text.now v.items) }
    ensures only { (faults : List SomeFault) → AreStackFaults text.now faults → IfOk result (λ v. v.items ≡ faults) }
    ensures first { IfOk result (λ v. Tells text.now (first_fault v.items)) }
{
    all_faults(alloc, text)
}
