//! What a row of a stack commands, read from four of its fields: service, subtype, target and time.
ghost use Rattle.std.specs.Prelude.{◌≡◌, ◌<◌, true, false, IfOk, IfErr, Some, [], ◌∷◌};
ghost use Rattle.std.specs.Fmt.{decimal};
ghost use Rattle.csv.specs.Records.{fields_of};
ghost use Rattle.tc_types.specs.Grammar.{Reads};
ghost use Rattle.tc_csv.specs.Faults.{FirstBroken};
ghost use Rattle.tc_csv.specs.Rows.{IsOnly};
ghost use Rattle.tc_stack.specs.Stacks.{IsEarlier};
ghost use Rattle.tc_csv.specs.declared.stack_texts.commands.CommandKind.TheVariants.{Insert, Delete, Shift, ShiftAll};
ghost use Rattle.tc_csv.specs.StackTexts.{kind_words, IsKind, is_plain, SpellsCommand, KeepsRow};
ghost use Rattle.tc_csv.specs.CommandTexts.{IsCommandAt, SpellsRest, KeepsPair, KeepsRest, rest_rules, command_rules};

use crate::faults::Rule;
use crate::fields::field;
use crate::stack_texts::inserts::{earlier_lines, instants};
use csv::ByteRecord;
use tc_lines::read::readers::{number, offset, service, subtype};
use tc_types::{Command, Service, Subtype};

/// What a command is, but for its target and its time.
#[derive(Clone, Copy, Debug, PartialEq, Eq)]
pub(crate) enum CommandKind {
    /// Any service but 11.
    Plain { service: Service, subtype: Subtype },
    /// TC[11,1].
    Enable,
    /// TC[11,2].
    Disable,
    /// TC[11,3].
    Reset,
    /// TC[11,4].
    Insert,
    /// TC[11,5].
    Delete,
    /// TC[11,7].
    Shift,
    /// TC[11,15].
    ShiftAll,
    /// TC[11,17].
    Summarize,
}

/// A service, that of the on-board schedule too: 1 to 255.
fn any_service(field: &[u8]) -> Option<u8>
    ensures { Reads decimal (λ n. (0 < n) × (n < 256)) field.now result }
{
    let service = u8::try_from(number(field)?).ok()?;
    if service == 0 { None } else { Some(service) }
}

/// A line before this one.
pub(crate) fn earlier(line: u32, field: &[u8]) -> Option<u32>
    ensures { Reads decimal (IsEarlier line) field.now result }
{
    let named = number(field)?;
    if named != 0 && named < line {
        Some(named)
    } else {
        None
    }
}

/// A command of any service but 11.
fn plain(service_field: &[u8], subtype_field: &[u8]) -> Option<CommandKind>
    ensures { Reads kind_words (λ k. IsKind k × (is_plain k ≡ true)) (service_field.now ∷ subtype_field.now ∷ []) result }
{
    let service = service(service_field)?;
    let subtype = subtype(subtype_field)?;
    Some(CommandKind::Plain { service, subtype })
}

/// A command of the on-board schedule, service 11.
fn scheduling(subtype_field: &[u8]) -> Option<CommandKind>
    ensures { Reads kind_words (λ k. IsKind k × (is_plain k ≡ false)) (decimal 11 ∷ subtype_field.now ∷ []) result }
{
    match number(subtype_field)? {
        1 => Some(CommandKind::Enable),
        2 => Some(CommandKind::Disable),
        3 => Some(CommandKind::Reset),
        4 => Some(CommandKind::Insert),
        5 => Some(CommandKind::Delete),
        7 => Some(CommandKind::Shift),
        15 => Some(CommandKind::ShiftAll),
        17 => Some(CommandKind::Summarize),
        _ => None,
    }
}

/// What is commanded, but for target and time.
fn read_kind(service_field: &[u8], subtype_field: &[u8]) -> Option<CommandKind>
    ensures { Reads kind_words IsKind (service_field.now ∷ subtype_field.now ∷ []) result }
{
    match number(service_field)? {
        11 => scheduling(subtype_field),
        _ => plain(service_field, subtype_field),
    }
}

/// A command that takes neither target nor time.
fn bare(command: Command, target: &[u8], time: &[u8]) -> Result<Command, Rule>
    ensures found { IfOk result (λ c. (c ≡ command) × (target.now ≡ []) × (time.now ≡ [])) }
    ensures broken { IfErr result (λ rule. FirstBroken (KeepsPair (target.now ≡ []) (time.now ≡ [])) rest_rules rule) }
{
    if !target.is_empty() {
        return Err(Rule::Target);
    }
    if !time.is_empty() {
        return Err(Rule::Time);
    }
    Ok(command)
}

/// An insert.
fn insert(line: u32, target: &[u8], time: &[u8]) -> Result<Command, Rule>
    ensures found { IfOk result (IsOnly (λ c. SpellsRest Insert target.now time.now c × IsCommandAt line c)) }
    ensures broken { IfErr result (FirstBroken (KeepsRest line Insert target.now time.now) rest_rules) }
{
    let lines = earlier_lines(line, target).ok_or(Rule::Target)?;
    let rides = instants(lines.as_slice(), time).ok_or(Rule::Time)?;
    rides.keep_ranges();
    Ok(Command::InsertActivities(rides))
}

/// A deletion.
fn delete(line: u32, target: &[u8], time: &[u8]) -> Result<Command, Rule>
    ensures found { IfOk result (IsOnly (λ c. SpellsRest Delete target.now time.now c × IsCommandAt line c)) }
    ensures broken { IfErr result (FirstBroken (KeepsRest line Delete target.now time.now) rest_rules) }
{
    let target = earlier(line, target).ok_or(Rule::Target)?;
    if !time.is_empty() {
        return Err(Rule::Time);
    }
    Ok(Command::DeleteActivity { target })
}

/// A shift of one activity.
fn shift(line: u32, target: &[u8], time: &[u8]) -> Result<Command, Rule>
    ensures found { IfOk result (IsOnly (λ c. SpellsRest Shift target.now time.now c × IsCommandAt line c)) }
    ensures broken { IfErr result (FirstBroken (KeepsRest line Shift target.now time.now) rest_rules) }
{
    let target = earlier(line, target).ok_or(Rule::Target)?;
    let offset = offset(time).ok_or(Rule::Time)?;
    Ok(Command::ShiftActivity { target, offset })
}

/// A shift of all activities.
fn shift_all(line: u32, target: &[u8], time: &[u8]) -> Result<Command, Rule>
    ensures found { IfOk result (IsOnly (λ c. SpellsRest ShiftAll target.now time.now c × IsCommandAt line c)) }
    ensures broken { IfErr result (FirstBroken (KeepsRest line ShiftAll target.now time.now) rest_rules) }
{
    if !target.is_empty() {
        return Err(Rule::Target);
    }
    let offset = offset(time).ok_or(Rule::Time)?;
    Ok(Command::ShiftAll { offset })
}

/// The command of this kind with this target and time.
fn rest_of(line: u32, kind: CommandKind, target: &[u8], time: &[u8]) -> Result<Command, Rule>
    requires { IsKind kind }
    ensures found { IfOk result (IsOnly (λ c. SpellsRest kind target.now time.now c × IsCommandAt line c)) }
    ensures broken { IfErr result (FirstBroken (KeepsRest line kind target.now time.now) rest_rules) }
{
    match kind {
        CommandKind::Plain { service, subtype } => bare(
            Command::Plain { service, subtype },
            target,
            time,
        ),
        CommandKind::Enable => bare(Command::EnableSchedule, target, time),
        CommandKind::Disable => bare(Command::DisableSchedule, target, time),
        CommandKind::Reset => bare(Command::ResetSchedule, target, time),
        CommandKind::Insert => insert(line, target, time),
        CommandKind::Delete => delete(line, target, time),
        CommandKind::Shift => shift(line, target, time),
        CommandKind::ShiftAll => shift_all(line, target, time),
        CommandKind::Summarize => bare(Command::SummarizeAll, target, time),
    }
}

/// The command of a row.
pub(crate) fn command_of(line: u32, fields: &ByteRecord) -> Result<Command, Rule>
    ensures found { IfOk result (IsOnly (λ c. SpellsCommand (fields_of fields.now) c × IsCommandAt line c)) }
    ensures broken { IfErr result (FirstBroken (KeepsRow line (fields_of fields.now)) command_rules) }
{
    if any_service(field(fields, 2)).is_none() {
        return Err(Rule::Service);
    }
    let kind = read_kind(field(fields, 2), field(fields, 3)).ok_or(Rule::Subtype)?;
    rest_of(line, kind, field(fields, 4), field(fields, 5))
}
