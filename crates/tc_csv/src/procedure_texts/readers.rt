//! The text of a procedure, read.
ghost use Rattle.std.specs.Prelude.{◌≡◌, ◌⊎◌, ◌≤◌, List, [], Some, true, false, length, map, IfOk, IfErr, IfSome};
ghost use Rattle.csv.specs.Records.{fields_of};
ghost use Rattle.tc_types.specs.declared.refusals.Refusal.TheVariants.{Memory};
ghost use Rattle.tc_types.specs.Numbers.{IsNumber};
ghost use Rattle.tc_types.specs.StepTexts.{is_step_text};
ghost use Rattle.tc_types.specs.Grammar.{Reads};
ghost use Rattle.tc_types.specs.Limits.{most_steps};
ghost use Rattle.tc_csv.specs.declared.faults.Fault.{Fault as SomeFault};
ghost use Rattle.tc_csv.specs.declared.faults.Rule.TheVariants.{StepText as TheText};
ghost use Rattle.tc_csv.specs.Faults.{Judged, FirstBroken, FirstBrokenRow, rule_refusal};
ghost use Rattle.tc_proc.specs.declared.procedures.Step.{Step as SomeStep};
ghost use Rattle.tc_csv.specs.ProcedureTexts.{AreSteps, step_record, step_records, KeepsStep, step_rules, SpellsProcedure, IsProcedureFault, Tells};
ghost use Rattle.tc_proc.specs.Procedures.{IsStep};

use crate::columns::Column;
use crate::faults::{Fault, NotRead, Rule};
use crate::fields::{field, optional_number};
use crate::tables::read_table;
use csv::ByteRecord;
use std::alloc::{AllocError, Global};
use tc_lines::read::readers::{number, yes_or_no};
use tc_proc::{Procedure, Step};
use tc_types::limits::MOST_STEPS;
use tc_types::{Refusal, StepText};

/// The columns of the text of a procedure.
pub(crate) const COLUMNS: [Column; 4] = [
    Column::Step,
    Column::Text,
    Column::Second,
    Column::Request,
];

/// The text of a step, from its field.
fn text_of(row: u32, field: &[u8]) -> Result<StepText, NotRead>
    ensures { Judged (λ text. (text ≡ field.now) × (is_step_text field.now ≡ true)) (λ fault. (is_step_text field.now ≡ false) × (fault ≡ record { row = row; rule = TheText })) result }
{
    StepText::read(field).ok_or(NotRead::wrong(row, Rule::StepText))
}

/// The step of a row with this number.
pub(crate) fn step_of(row: u32, fields: &ByteRecord) -> Result<Step, NotRead>
    ensures { Judged (λ step. (fields_of fields.now ≡ step_record row step) × IsStep step) (λ fault. FirstBroken (KeepsStep row (fields_of fields.now)) step_rules fault.rule × (fault.row ≡ row)) result }
{
    if fields.len() != COLUMNS.len() {
        return Err(NotRead::wrong(row, Rule::FieldCount));
    }
    if number(field(fields, 0)) != Some(row) {
        return Err(NotRead::wrong(row, Rule::StepNumber));
    }
    let text = text_of(row, field(fields, 1))?;
    let is_countersigned = yes_or_no(field(fields, 2)).ok_or(NotRead::wrong(row, Rule::Second))?;
    let request = optional_number(field(fields, 3)).ok_or(NotRead::wrong(row, Rule::StepRequest))?;
    Ok(Step {
        text,
        is_countersigned,
        request,
    })
}

/// The steps of these rows.
fn steps_of(alloc: Global, rows: &[ByteRecord]) -> Result<Vec<Step>, NotRead>
    requires { length rows.now ≤ most_steps }
    ensures { Judged (λ v. AreSteps (map fields_of rows.now) v.items) (FirstBrokenRow KeepsStep step_rules 1 (map fields_of rows.now)) result }
{
    let mut steps = Vec::new(alloc);
    for (index, fields) in rows.iter().enumerate() {
        let step = step_of(index as u32 + 1, fields)?;
        steps.push(step)?;
    }
    Ok(steps)
}

/// The steps of a text of a procedure.
fn read_steps(alloc: Global, text: &[u8]) -> Result<Vec<Step>, NotRead>
    ensures { Judged (λ v. SpellsProcedure text.now v.items) (IsProcedureFault text.now) result }
{
    let records = read_table(alloc, text, &COLUMNS, MOST_STEPS)?;
    steps_of(alloc, &records[1..])
}

/// The procedure that a text spells: a header `step,text,second,request`, and 1 to 100 rows, each a step.
///
/// It is refused with `TooLong` or `BadText` where the text breaks a rule, and with `Memory` where memory was refused.
pub fn read_procedure(alloc: Global, text: &[u8]) -> Result<Procedure, Refusal>
    ensures read { IfOk result (λ procedure. SpellsProcedure text.now procedure) }
    ensures refused { IfErr result (λ why. (why ≡ Memory) ⊎ ((fault : SomeFault) × IsProcedureFault text.now fault × (why ≡ rule_refusal fault.rule))) }
    ensures only { (steps : List SomeStep) → SpellsProcedure text.now steps → IfErr result (λ why. why ≡ Memory) × IfOk result (λ procedure. procedure ≡ steps) }
{
    match read_steps(alloc, text) {
        Ok(steps) => Ok(Procedure::of(steps)),
        Err(NotRead::Wrong(fault)) => Err(fault.rule.refusal()),
        Err(NotRead::Memory) => Err(Refusal::Memory),
    }
}

/// Why a text spells no procedure: the first rule that it breaks, and where; `None` where it spells one. Fails where memory is refused.
pub fn why_no_procedure(alloc: Global, text: &[u8]) -> Result<Option<Fault>, AllocError>
    ensures told { IfOk result (Tells text.now) }
    ensures only { (fault : SomeFault) → IsProcedureFault text.now fault → IfOk result (λ told. told ≡ Some fault) }
{
    match read_steps(alloc, text) {
        Ok(_) => Ok(None),
        Err(NotRead::Wrong(fault)) => Ok(Some(fault)),
        Err(NotRead::Memory) => Err(AllocError),
    }
}
