//! One exchange: a request is read, served, and answered.
ghost use Rattle.std.specs.Prelude.{◌≡◌, true, IfErr, IfOk, List, Option};
ghost use Rattle.std.specs.String.{string_bytes};
ghost use Rattle.tc_types.specs.Counts.{counts_of};
ghost use Rattle.tc_world.specs.EitherLink.{either};
ghost use Rattle.tc_desk.specs.Promise.{KeepsPromise};
ghost use Rattle.tc_store.specs.Ledgers.{KeptAnswer};
ghost use Rattle.tc_room.specs.Joined.{HoldsBook, desk_in};
ghost use Rattle.tc_room.specs.declared.callers.Caller.{Caller};
ghost use Rattle.tc_desk.specs.Replies.{Reply};
ghost use Rattle.tc_front.specs.Front.{Asked};
ghost use Rattle.tc_front.specs.Write.{seen};
ghost use Rattle.tc_api.specs.Exchange.{AreFresh, Exchanges, IsUntold, Responds, TellsEnd, response_by};
ghost use Rattle.tc_api.specs.Kept.{Called, IsDoneOnce, KeepsTables, ServesOne};
ghost use Rattle.tc_api.specs.Serving.{HasText, Outcome, Tells, outcome_of, page_of};

use crate::endings::Ending;
use crate::responses::{page_response, response};
use crate::serving::{Served, Told, serve_decision};
use sqlite::Alter;
use std::alloc::{AllocError, Global};
use std::io::{Read, Write};
use tc_front::{Door, Routes, enter, read_front, write_whole};
use tc_room::Room;
use tc_types::{Counted, Moment, Refusal};

/// What is told where the response to what was served found no memory.
fn untold(served: &Served) -> Refusal
    ensures { (reply : Reply) → IsUntold (outcome_of reply served.now) result }
{
    if served.stands {
        Refusal::WriteFault
    } else {
        Refusal::Memory
    }
}

/// The response that tells this, where the exchange ends so. Fails where memory is refused.
fn response_of(alloc: Global, ending: Ending, told: &Told) -> Result<String, AllocError>
    ensures { (reply : Reply) → Tells reply told.now → IfOk result (λ r. string_bytes r ≡ response_by (page_of told.now) ending reply) }
{
    match told {
        Told::Lines(text) => response(alloc, ending, text.as_str()),
        Told::Page(page) => page_response(alloc, page.as_str()),
    }
}

/// Writes the response to what was served.
fn respond<W: Write>(alloc: Global, served: &Served, writer: &mut Counted<W>) -> Result<(), Refusal>
    ensures { (reply : Reply) → HasText reply served.now → Responds (outcome_of reply served.now) result (seen W.contents writer.old) (seen W.contents writer.new) }
{
    let Some(told) = &served.text else {
        return Err(untold(served));
    };
    let Ok(response) = response_of(alloc, served.ending, told) else {
        return Err(untold(served));
    };
    Ok(write_whole(writer, response.as_bytes())?)
}

/// One exchange; `serve_one` adds that the promise is kept.
fn exchange<R: Read, W: Write, S: Alter + Drop>(
    alloc: Global,
    door: &Door,
    since: Moment,
    reader: &mut Counted<R>,
    writer: &mut Counted<W>,
    room: &mut Room<S>,
) -> Result<(), Refusal>
    requires fresh { AreFresh (counts_of reader.old) (counts_of writer.old) }
    ensures { Exchanges door.now since S.Store result (seen R.remaining reader.old) (seen R.remaining reader.new) room.old room.new (seen W.contents writer.old) (seen W.contents writer.new) }
{
    let routes = Routes::new(alloc)?;
    let mut text = Vec::new(alloc);
    read_front(&routes, reader, &mut text)?;
    match enter(door, &routes, &text) {
        Some(decision) => {
            let served = serve_decision(alloc, since, room, &decision);
            respond(alloc, &served, writer)
        }
        None => unreachable!(),
    }
}

/// One exchange with a desk that was opened at this moment. A request is read until a front of the input decides what is asked; that is served once if the request is let in, and refused
/// if not; and the response to it is written, all of it and nothing else. What the writer holds back is the caller's to flush.
///
/// # Errors
///
/// - `ReadFault`: the reader failed or ended, and no front of what was read decides. The room is as it was, and nothing was written.
/// - `Memory`: there was no memory for the routes or to read on, or for the response where no act stands: also where the database failed,
///   so that the room has stopped. Nothing was written.
/// - `WriteFault`: one write failed, and a front of the response went out, and not all; or there was no memory for the response to an act
///   that was done, and nothing was written. An act that was done stands.
pub fn serve_one<R: Read, W: Write, S: Alter + Drop>(
    alloc: Global,
    door: &Door,
    since: Moment,
    reader: &mut Counted<R>,
    writer: &mut Counted<W>,
    room: &mut Room<S>,
) -> Result<(), Refusal>
    requires fresh { AreFresh (counts_of reader.old) (counts_of writer.old) }
    ensures exchange { Exchanges door.now since S.Store result (seen R.remaining reader.old) (seen R.remaining reader.new) room.old room.new (seen W.contents writer.old) (seen W.contents writer.new) }
    // no other refusal is told
    ensures only { IfErr result TellsEnd }
    // README's promise is kept
    ensures promise { KeepsPromise either (desk_in room.new) }
    // the tables hold the book, or the database failed at what was asked
    ensures kept { KeepsTables S.Store room.old room.new }
    // one step of a list of exchanges (`ServesAll`)
    ensures step { (read : Option Asked) × ServesOne S.Store room.old read room.new }
    // What was called and accepted is done once: whatever exchanges and openings come then, what the same caller calls under this number again is answered with this
    // response, and nothing is done.
    ensures once { (caller : Caller) (replies : List KeptAnswer) (first : Outcome) → HoldsBook S.Store room.old replies
        → Called S.Store caller room.old first room.new → first.stands ≡ true → IsDoneOnce S.Store caller first room.new }
{
    let done = exchange(alloc, door, since, reader, writer, room);
    // read for the proof alone: the promise is kept
    let _opened = room.opened();
    done
}
