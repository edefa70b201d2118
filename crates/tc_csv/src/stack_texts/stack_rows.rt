//! A row of a stack, read from its fields.
ghost use Rattle.std.specs.Prelude.{◌≡◌, ◌↔◌, IsTrue, List, ℕ, true, IfOk, IfErr, IfSome, Some, [], ◌∷◌, length, get_or};
ghost use Rattle.std.specs.Fmt.{decimal};
ghost use Rattle.csv.specs.Records.{fields_of};
ghost use Rattle.tc_types.specs.declared.requests.Outcome.TheVariants.{Completes as TheCompletes};
ghost use Rattle.tc_types.specs.Numbers.{IsApid};
ghost use Rattle.tc_types.specs.Grammar.{Reads, ack_word, yes_no, outcome_word, IsOutcome};
ghost use Rattle.tc_types.specs.Schedule.{is_schedule};
ghost use Rattle.tc_csv.specs.Faults.{FirstBroken};
ghost use Rattle.tc_csv.specs.Rows.{IsOnly};
ghost use Rattle.tc_csv.specs.Tables.{number_field};
ghost use Rattle.tc_stack.specs.Stacks.{IsEarlier};
ghost use Rattle.tc_csv.specs.StackTexts.{IsScheduling, SpellsRow, KeepsRow, row_rules};
ghost use Rattle.tc_csv.specs.RowTexts.{place_rules, conduct_rules, ReadsPlace, ReadsConduct};

use crate::faults::Rule;
use crate::fields::{field, optional_number};
use crate::stack_texts::commands::command_of;
use csv::ByteRecord;
use tc_lines::read::entry_reader;
use tc_lines::read::readers::{self, apid, number, yes_or_no};
use tc_stack::StackRow;
use tc_types::{Ack, Apid, Command, Entry, Form, Outcome};

/// How many fields a row has.
const FIELDS: usize = 10;

/// Whether a service is that of the on-board schedule.
fn is_scheduling(service: &[u8]) -> bool
    ensures { IsTrue result ↔ IsScheduling service.now }
{
    number(service) == Some(11)
}

/// Which reports a command of this service asks for: for one of the on-board schedule, its completion among them.
fn ack(service: &[u8], field: &[u8]) -> Option<Ack>
    ensures { Reads ack_word (λ ack. IsScheduling service.now → ack.completion ≡ true) field.now result }
{
    let ack = readers::ack(field)?;
    if is_scheduling(service) && !ack.completion {
        return None;
    }
    Some(ack)
}

/// How the spacecraft will behave at a command of this service: one of the on-board schedule completes.
fn outcome(service: &[u8], field: &[u8]) -> Option<Outcome>
    ensures { Reads outcome_word (λ outcome. IsOutcome outcome × (IsScheduling service.now → outcome ≡ TheCompletes)) field.now result }
{
    let outcome = entry_reader::outcome(field)?;
    if is_scheduling(service) && !matches!(outcome, Outcome::Completes) {
        return None;
    }
    Some(outcome)
}

/// The line that has to be completed before, if the field is not empty: one before this one.
fn after(line: u32, field: &[u8]) -> Option<Option<u32>>
    ensures { Reads number_field (λ after. IfSome after (IsEarlier line)) field.now result }
{
    match optional_number(field)? {
        None => Some(None),
        Some(named) => {
            if named != 0 && named < line {
                Some(Some(named))
            } else {
                None
            }
        }
    }
}

/// The application process of the row on this line.
fn apid_of(line: u32, fields: &ByteRecord) -> Result<Apid, Rule>
    ensures found { IfOk result (ReadsPlace line (fields_of fields.now)) }
    ensures broken { IfErr result (FirstBroken (KeepsRow line (fields_of fields.now)) place_rules) }
{
    if fields.len() != FIELDS {
        return Err(Rule::FieldCount);
    }
    if number(field(fields, 0)) != Some(line) {
        return Err(Rule::Line);
    }
    apid(field(fields, 1)).ok_or(Rule::Apid)
}

/// What a row asks for, beside its command.
#[derive(Clone, Copy)]
struct Conduct {
    ack: Ack,
    critical: bool,
    after: Option<u32>,
    outcome: Outcome,
}

/// What the row on this line asks for, beside its command.
fn conduct_of(line: u32, fields: &ByteRecord) -> Result<Conduct, Rule>
    ensures found { IfOk result (ReadsConduct line (fields_of fields.now)) }
    ensures broken { IfErr result (FirstBroken (KeepsRow line (fields_of fields.now)) conduct_rules) }
{
    let service = field(fields, 2);
    let ack = ack(service, field(fields, 6)).ok_or(Rule::Ack)?;
    let critical = yes_or_no(field(fields, 7)).ok_or(Rule::Critical)?;
    let after = after(line, field(fields, 8)).ok_or(Rule::After)?;
    let outcome = outcome(service, field(fields, 9)).ok_or(Rule::Outcome)?;
    Ok(Conduct {
        ack,
        critical,
        after,
        outcome,
    })
}

/// The row on this line.
pub(crate) fn row_of(line: u32, fields: &ByteRecord) -> Result<StackRow, Rule>
    ensures found { IfOk result (IsOnly (SpellsRow line (fields_of fields.now))) }
    ensures broken { IfErr result (FirstBroken (KeepsRow line (fields_of fields.now)) row_rules) }
{
    let apid = apid_of(line, fields)?;
    let command = command_of(line, fields)?;
    let conduct = conduct_of(line, fields)?;
    let form = Form {
        apid,
        ack: conduct.ack,
        critical: conduct.critical,
        command,
        outcome: conduct.outcome,
    };
    let entry = Entry::new(form).unwrap();
    Ok(StackRow {
        entry,
        after: conduct.after,
    })
}
