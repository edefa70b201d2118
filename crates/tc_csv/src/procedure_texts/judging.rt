//! All that is wrong with the text of a procedure.
ghost use Rattle.std.specs.Prelude.{◌≡◌, ◌≤◌, length, List, [], ◌∷◌, map, IfOk, OnOk};
ghost use Rattle.csv.specs.Records.{fields_of};
ghost use Rattle.tc_types.specs.Limits.{most_steps};
ghost use Rattle.tc_csv.specs.declared.faults.Fault.{Fault as SomeFault};
ghost use Rattle.tc_csv.specs.FaultLists.{AddsRow, BrokenRows, first_fault};
ghost use Rattle.tc_csv.specs.ProcedureFaults.{AreProcedureFaults};
ghost use Rattle.tc_csv.specs.ProcedureTexts.{KeepsStep, Tells, procedure_columns, step_rules};

use crate::columns::Column;
use crate::faults::{Fault, NotRead};
use crate::procedure_texts::readers::{COLUMNS, step_of};
use crate::tables::read_table;
use csv::ByteRecord;
use std::alloc::{AllocError, Global};
use tc_types::limits::MOST_STEPS;

/// The columns of the text of a procedure, in order.
pub fn procedure_columns() -> &'static [Column]
    ensures { result.now ≡ procedure_columns }
{
    &COLUMNS
}

/// Adds what a row breaks, if it breaks a rule.
fn add_broken(faults: &mut Vec<Fault>, row: u32, fields: &ByteRecord) -> Result<(), AllocError>
    ensures { OnOk result (AddsRow KeepsStep step_rules row (fields_of fields.now) faults.old.items faults.new.items) }
{
    match step_of(row, fields) {
        Ok(_) => Ok(()),
        Err(NotRead::Wrong(fault)) => Ok(faults.push(fault)?),
        Err(NotRead::Memory) => Err(AllocError),
    }
}

/// What each row breaks, of those that break a rule.
fn broken_steps(alloc: Global, rows: &[ByteRecord]) -> Result<Vec<Fault>, AllocError>
    requires { length rows.now ≤ most_steps }
    ensures { IfOk result (λ v. BrokenRows KeepsStep step_rules 1 (map fields_of rows.now) v.items) }
{
    let mut faults = Vec::new(alloc);
    for (index, fields) in rows.iter().enumerate() {
        add_broken(&mut faults, index as u32 + 1, fields)?;
    }
    Ok(faults)
}

/// A fault by itself.
fn only(alloc: Global, fault: Fault) -> Result<Vec<Fault>, AllocError>
    ensures { IfOk result (λ v. v.items ≡ fault ∷ []) }
{
    let mut faults = Vec::new(alloc);
    faults.push(fault)?;
    Ok(faults)
}

/// All that is wrong with a text.
fn all_faults(alloc: Global, text: &[u8]) -> Result<Vec<Fault>, AllocError>
    ensures { IfOk result (λ v. AreProcedureFaults text.now v.items) }
{
    match read_table(alloc, text, &COLUMNS, MOST_STEPS) {
        Ok(records) => broken_steps(alloc, &records[1..]),
        Err(NotRead::Wrong(fault)) => only(alloc, fault),
        Err(NotRead::Memory) => Err(AllocError),
    }
}

/// All that is wrong with the text of a procedure: the first rule of the table that it breaks; or what each row breaks.
/// Nothing where the text spells a procedure. Fails where memory is refused.
pub fn procedure_faults(alloc: Global, text: &[u8]) -> Result<Vec<Fault>, AllocError>
    ensures all { IfOk result (λ v. AreProcedureFaults text.now v.items) }
    ensures only { (faults : List SomeFault) → AreProcedureFaults text.now faults → IfOk result (λ v. v.items ≡ faults) }
    ensures first { IfOk result (λ v. Tells text.now (first_fault v.items)) }
{
    all_faults(alloc, text)
}
