//! Words that are read as what a person enters.
ghost use Rattle.std.specs.Prelude.{◌≡◌, ◌↔◌, IsTrue, true, false, List, ℕ, IsSome, IfSome, Some, [], ◌∷◌, ◌++◌, codes};
ghost use Rattle.std.specs.Fmt.{decimal};
ghost use Rattle.tc_types.specs.declared.requests.Command.{Command};
ghost use Rattle.tc_types.specs.Numbers.{IsFailureCode};
ghost use Rattle.tc_types.specs.Grammar.{Reads, outcome_words, outcome_word, IsOutcome, command_words, IsCommand, entry_words, IsEntry};
ghost use Rattle.tc_types.specs.Schedule.{is_schedule};

use crate::read::readers::{
    ack, apid, failure_code, is, number, offset, service, steps, subtype, yes_or_no,
};
use crate::read::ride_reader::rides;
use crate::read::words::Words;
use tc_types::{Command, Entry, FailureCode, Form, Outcome};

/// A failure code that is the last word.
fn last_code(words: &mut Words<'_>) -> Option<FailureCode>
    ensures { Reads (λ code. decimal code ∷ []) IsFailureCode words.old result }
{
    let code = failure_code(words.next()?)?;
    words.end()?;
    Some(code)
}

/// What stands behind `ok`.
fn completes(words: &mut Words<'_>) -> Option<Outcome>
    ensures { Reads outcome_words IsOutcome (codes "ok" ∷ words.old) result }
{
    match words.next() {
        None => Some(Outcome::Completes),
        Some(word) => {
            let count = steps(word)?;
            words.end()?;
            Some(Outcome::CompletesInSteps(count))
        }
    }
}

/// What stands behind `halt`.
fn halts(words: &mut Words<'_>) -> Option<Outcome>
    ensures { Reads outcome_words IsOutcome (codes "halt" ∷ words.old) result }
{
    let step = steps(words.next()?)?;
    let code = last_code(words)?;
    Some(Outcome::Halts(step, code))
}

/// The words of an outcome.
fn outcome_of(words: &mut Words<'_>) -> Option<Outcome>
    ensures { Reads outcome_words IsOutcome words.old result }
{
    let name = words.next()?;
    if is(name, b"ok") {
        completes(words)
    } else if is(name, b"refuse") {
        Some(Outcome::Refuses(last_code(words)?))
    } else if is(name, b"nostart") {
        Some(Outcome::StartFails(last_code(words)?))
    } else if is(name, b"halt") {
        halts(words)
    } else if is(name, b"fail") {
        Some(Outcome::Fails(last_code(words)?))
    } else {
        None
    }
}

/// How the rehearsal spacecraft will behave.
pub fn outcome(word: &[u8]) -> Option<Outcome>
    ensures { Reads outcome_word IsOutcome word.now result }
{
    outcome_of(&mut Words::new(word, b'/'))
}

/// A dash, for what a command does not take.
fn dash(word: &[u8]) -> Option<()>
    ensures { IsSome result ↔ (word.now ≡ codes "-") }
{
    if is(word, b"-") { Some(()) } else { None }
}

/// A command of any service but 11.
fn plain(service_word: &[u8], subtype_word: &[u8], target: &[u8], time: &[u8]) -> Option<Command>
    ensures { Reads command_words (λ c. IsCommand c × (is_schedule c ≡ false)) (service_word.now ∷ subtype_word.now ∷ target.now ∷ time.now ∷ []) result }
{
    let service = service(service_word)?;
    let subtype = subtype(subtype_word)?;
    dash(target)?;
    dash(time)?;
    Some(Command::Plain { service, subtype })
}

/// A command of the on-board schedule, service 11.
fn scheduling(subtype_word: &[u8], target: &[u8], time: &[u8]) -> Option<Command>
    ensures { Reads command_words (λ c. IsCommand c × (is_schedule c ≡ true)) (decimal 11 ∷ subtype_word.now ∷ target.now ∷ time.now ∷ []) result }
{
    match number(subtype_word)? {
        4 => Some(Command::InsertActivities(rides(target, time)?)),
        5 => {
            let target = number(target)?;
            dash(time)?;
            Some(Command::DeleteActivity { target })
        }
        7 => Some(Command::ShiftActivity {
            target: number(target)?,
            offset: offset(time)?,
        }),
        15 => {
            dash(target)?;
            Some(Command::ShiftAll {
                offset: offset(time)?,
            })
        }
        bare => {
            dash(target)?;
            dash(time)?;
            match bare {
                1 => Some(Command::EnableSchedule),
                2 => Some(Command::DisableSchedule),
                3 => Some(Command::ResetSchedule),
                17 => Some(Command::SummarizeAll),
                _ => None,
            }
        }
    }
}

/// A command, by its four words.
fn command(service_word: &[u8], subtype_word: &[u8], target: &[u8], time: &[u8]) -> Option<Command>
    ensures { Reads command_words IsCommand (service_word.now ∷ subtype_word.now ∷ target.now ∷ time.now ∷ []) result }
{
    match number(service_word)? {
        11 => scheduling(subtype_word, target, time),
        _ => plain(service_word, subtype_word, target, time),
    }
}

/// The next four words as a command.
fn next_command(words: &mut Words<'_>) -> Option<Command>
    ensures found { IfSome result (λ c. (words.old ≡ command_words c ++ words.new) × IsCommand c) }
    ensures only { (c : Command) (others : List (List ℕ)) → IsCommand c → words.old ≡ command_words c ++ others → (result ≡ Some c) × (words.new ≡ others) }
{
    let service_word = words.next()?;
    let subtype_word = words.next()?;
    let target = words.next()?;
    let time = words.next()?;
    command(service_word, subtype_word, target, time)
}

/// What a person enters.
pub fn entry(words: &mut Words<'_>) -> Option<Entry>
    ensures { Reads entry_words IsEntry words.old result }
{
    let apid = apid(words.next()?)?;
    let ack = ack(words.next()?)?;
    let critical = yes_or_no(words.next()?)?;
    let command = next_command(words)?;
    let outcome = outcome(words.next()?)?;
    words.end()?;
    Entry::new(Form {
        apid,
        ack,
        critical,
        command,
        outcome,
    })
}
