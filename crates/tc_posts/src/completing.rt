//! Replies of which lines are left out, and the question that brings them where they are moves.
ghost use Rattle.std.specs.Prelude.{◌≡◌, ℕ, List, [], ◌∷◌, IfOk, map, take};
ghost use Rattle.std.specs.String.{string_bytes};
ghost use Rattle.serde_json.specs.View.{view};
ghost use Rattle.tc_posts.specs.Completing.{Completes, GoesOn, GoesOnBy, left_out_note, left_out_words, move_lines};
ghost use Rattle.tc_posts.specs.Posting.{moves_bytes};
ghost use Rattle.tc_posts.specs.Steps.{Step, sent};
ghost use Rattle.tc_posts.specs.Told.{answer_of};

use crate::posting::moves_request;
use crate::sending::Client;
use crate::told::{Told, Untellable, body_of, last_move, lines_in, lines_text};
use serde_json::Value;
use std::alloc::{AllocError, Global};

/// Returns the lines that tell moves: the first line counts them.
fn move_lines(lines: &[Value]) -> &[Value]
    ensures { map view result.now ≡ move_lines (map view lines.now) }
{
    match lines.split_first() {
        Some((_, moves)) => moves,
        None => lines,
    }
}

/// Returns the first of these, no more than so many.
fn first_of<T>(items: &[T], most: usize) -> &[T]
    ensures { result.now ≡ take most items.now }
{
    &items[..most.min(items.len())]
}

/// Returns the first of these lines, no more than so many.
fn first_lines(lines: &[Value], most: u64) -> &[Value]
    ensures { map view result.now ≡ take most (map view lines.now) }
{
    first_of(lines, most as usize)
}

/// Adds these lines to a reply of which at least so many are left out.
fn add_lines(alloc: Global, told: Told, lines: &[Value]) -> Result<Told, AllocError>
    ensures { IfOk result (λ next. GoesOnBy (map view lines.now) (answer_of told) (answer_of next)) }
{
    let last = last_move(lines);
    let added = lines_text(alloc, lines)?;
    let mut text = told.text;
    text.push_str(added.as_str())?;
    Ok(Told {
        text,
        refusal: told.refusal,
        more: told.more.saturating_sub(lines.len() as u64),
        last,
    })
}

/// A reply, and the moves that this response tells, no more than are left out of it.
fn with_moves(alloc: Global, told: Told, response: &[u8]) -> Result<Told, Untellable>
    ensures { IfOk result (λ next. GoesOn response.now (answer_of told) (answer_of next)) }
{
    let body = body_of(response).ok_or(Untellable::NoResponse)?;
    let value = Value::from_str(alloc, body)?;
    let lines = lines_in(&value).ok_or(Untellable::NoResponse)?;
    let wanted = first_lines(move_lines(lines), told.more);
    Ok(add_lines(alloc, told, wanted)?)
}

/// Asks for the moves after this one, and adds them to a reply.
fn ask_on<C: Client>(
    alloc: Global,
    client: &mut C,
    port: u16,
    after: u32,
    told: Told,
) -> Result<Told, C::Fault>
    ensures { IfOk result (λ next. (response : List ℕ) × C.did client.old (sent (moves_bytes port after) response ∷ []) client.new
        × GoesOn response (answer_of told) (answer_of next)) }
{
    let request = match moves_request(alloc, port, after) {
        Ok(request) => request,
        Err(_) => return Err(client.untellable(Untellable::Memory)),
    };
    let response = client.send(request.as_bytes())?;
    match with_moves(alloc, told, &response) {
        Ok(next) => Ok(next),
        Err(why) => Err(client.untellable(why)),
    }
}

/// Completes a reply of which lines are left out: while its last line tells a move, the moves after that one are asked for and added.
pub(crate) fn complete<C: Client>(
    alloc: Global,
    client: &mut C,
    port: u16,
    told: Told,
) -> Result<Told, C::Fault>
    ensures { IfOk result (λ last. (steps : List Step) × C.did client.old steps client.new
        × Completes port (answer_of told) steps (answer_of last)) }
{
    let mut told = told;
    while told.more > 0 {
        let Some(after) = told.last else {
            return Ok(told);
        };
        told = ask_on(alloc, client, port, after, told)?;
    }
    Ok(told)
}

/// Says how many lines are left out.
fn left_out_words(alloc: Global, more: u64) -> Result<String, AllocError>
    ensures { IfOk result (λ words. string_bytes words ≡ left_out_words more) }
{
    if more == 1 {
        String::from_str(alloc, "1 more line is left out")
    } else {
        format!(in alloc; "{more} more lines are left out")
    }
}

/// Says how many lines are left out of the reply to a line, by the name of its script and its place there.
pub fn left_out_note(
    alloc: Global,
    script: &str,
    place: usize,
    more: u64,
) -> Result<String, AllocError>
    ensures { IfOk result (λ note. string_bytes note ≡ left_out_note script.now place more) }
{
    let words = left_out_words(alloc, more)?;
    let words = words.as_str();
    format!(in alloc; "{script}:{place}: {words}")
}
