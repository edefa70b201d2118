//! Which numbers of a script's lines were used before.
ghost use Rattle.std.specs.Prelude.{◌≡◌, ◌++◌, List, IfOk, OnOk, map};
ghost use Rattle.std.specs.String.{string_bytes};
ghost use Rattle.tc_posts.specs.Numbered.{shown};
ghost use Rattle.tc_posts.specs.Steps.{Step};
ghost use Rattle.tc_posts.specs.Used.{AreAsked, IsAsked, note_of, numbers_if, one_note, range_note, used_note};

use crate::numbered::NumberedLine;
use crate::posting::empty_request;
use crate::sending::{Client, ask};
use crate::told::Untellable;
use std::alloc::{AllocError, Global};
use tc_types::Refusal;

/// Asks the desk whether the number of a line was used before, by a call under it that asks for nothing.
fn is_used<C: Client>(
    alloc: Global,
    client: &mut C,
    port: u16,
    line: &NumberedLine<'_>,
) -> Result<bool, C::Fault>
    ensures { IfOk result (λ used. (steps : List Step) × C.did client.old steps client.new
        × IsAsked port (shown line.now) steps (numbers_if used line.now.number)) }
{
    let request = match empty_request(alloc, port, line.line, line.number) {
        Ok(request) => request,
        Err(_) => return Err(client.untellable(Untellable::Memory)),
    };
    let told = ask(alloc, client, request.as_bytes())?;
    if told.refusal == u64::from(Refusal::Memory.number()) {
        return Err(client.untellable(Untellable::Memory));
    }
    Ok(told.refusal == 0)
}

/// Adds a number to these if it was used. Fails where memory is refused.
fn add_if(used: &mut Vec<u64>, number: u64, is_used: bool) -> Result<(), AllocError>
    ensures { OnOk result (used.new.items ≡ used.old.items ++ numbers_if is_used number) }
{
    if is_used {
        used.push(number)?;
    }
    Ok(())
}

/// Asks the desk which numbers of these lines were used before.
pub(crate) fn used_numbers<C: Client>(
    alloc: Global,
    client: &mut C,
    port: u16,
    lines: &[NumberedLine<'_>],
) -> Result<Vec<u64>, C::Fault>
    ensures { IfOk result (λ used. (steps : List Step) × C.did client.old steps client.new
        × AreAsked port (map shown lines.now) steps used.items) }
{
    let mut used = Vec::new(alloc);
    for line in lines {
        let is_used = is_used(alloc, client, port, line)?;
        let Ok(()) = add_if(&mut used, line.number, is_used) else {
            return Err(client.untellable(Untellable::Memory));
        };
    }
    Ok(used)
}

/// Says that the numbers from one to another are used.
fn range_note(alloc: Global, first: u64, last: u64) -> Result<String, AllocError>
    ensures { IfOk result (λ note. string_bytes note ≡ range_note first last) }
{
    let mut note = format!(in alloc; "numbers {first} to {last}")?;
    note.push_str(" are used: their replies are those of the first run")?;
    Ok(note)
}

/// Says that a number is used.
fn one_note(alloc: Global, number: u64) -> Result<String, AllocError>
    ensures { IfOk result (λ note. string_bytes note ≡ one_note number) }
{
    let mut note = format!(in alloc; "number {number}")?;
    note.push_str(" is used: its reply is that of the first run")?;
    Ok(note)
}

/// Says that so many numbers are used, of which this is the first and that the last.
fn note_of(alloc: Global, first: u64, last: u64, count: u64) -> Result<String, AllocError>
    ensures { IfOk result (λ note. string_bytes note ≡ note_of first last count) }
{
    if count == 1 {
        return one_note(alloc, first);
    }
    let range = range_note(alloc, first, last)?;
    if last.saturating_sub(first) == count.saturating_sub(1) {
        return Ok(range);
    }
    let range = range.as_str();
    format!(in alloc; "{count} of the {range}")
}

/// Says which numbers are used, in order. Nothing is said where none is.
pub fn used_note(alloc: Global, used: &[u64]) -> Result<String, AllocError>
    ensures { IfOk result (λ note. string_bytes note ≡ used_note used.now) }
{
    match (used.first(), used.last()) {
        (Some(first), Some(last)) => note_of(alloc, *first, *last, used.len() as u64),
        _ => Ok(String::new(alloc)),
    }
}
