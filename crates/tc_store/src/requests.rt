//! The table `request`.
ghost use Rattle.std.specs.Prelude.{◌≡◌, [], ◌∷◌};
ghost use Rattle.tc_types.specs.declared.tables.rows.Row.TheVariants.{Entered, Placed};
ghost use Rattle.tc_types.specs.declared.requests.Command.TheVariants.{InsertActivities};
ghost use Rattle.tc_store.specs.Requests.{ack_number, service_of, subtype_of, target_of, time_of, stack_of, line_of, prior_of, request_given};
ghost use Rattle.tc_store.specs.Steps.{Ran, Does, Puts};

use crate::steps::run;
use sqlite::{Alter, Error, Transaction, params};
use std::alloc::Global;
use tc_types::{Ack, Body, Command, Origin, Place, PlacedRequest, Request, Rides};

/// The text that makes the table.
pub(crate) const CREATE: &str =
    "CREATE TABLE request (num INTEGER PRIMARY KEY, apid INTEGER NOT NULL, cnt INTEGER NOT NULL, ack INTEGER NOT NULL, critical INTEGER NOT NULL, service INTEGER NOT NULL, subtype INTEGER NOT NULL, target INTEGER NOT NULL, at_time INTEGER NOT NULL, outcome TEXT NOT NULL, author TEXT NOT NULL, stack TEXT NOT NULL, line INTEGER NOT NULL, prior INTEGER NOT NULL, place INTEGER NOT NULL) STRICT";

/// The text that writes a row.
const PUT: &str =
    "INSERT INTO request (num, apid, cnt, ack, critical, service, subtype, target, at_time, outcome, author, stack, line, prior, place) VALUES (?1, ?2, ?3, ?4, ?5, ?6, ?7, ?8, ?9, ?10, ?11, ?12, ?13, ?14, ?15)";

/// The text that writes a row over the one with its number.
const PUT_PLACED: &str =
    "INSERT INTO request (num, apid, cnt, ack, critical, service, subtype, target, at_time, outcome, author, stack, line, prior, place) VALUES (?1, ?2, ?3, ?4, ?5, ?6, ?7, ?8, ?9, ?10, ?11, ?12, ?13, ?14, ?15) ON CONFLICT (num) DO UPDATE SET apid = excluded.apid, cnt = excluded.cnt, ack = excluded.ack, critical = excluded.critical, service = excluded.service, subtype = excluded.subtype, target = excluded.target, at_time = excluded.at_time, outcome = excluded.outcome, author = excluded.author, stack = excluded.stack, line = excluded.line, prior = excluded.prior, place = excluded.place";

/// The reports that are asked for: 8 for acceptance, 4 for start, 2 for progress, 1 for completion.
fn ack_code(ack: Ack) -> u32
    ensures { result ≡ ack_number ack }
{
    let acceptance = if ack.acceptance { 8 } else { 0 };
    let start = if ack.start { 4 } else { 0 };
    let progress = if ack.progress { 2 } else { 0 };
    let completion = if ack.completion { 1 } else { 0 };
    acceptance + start + progress + completion
}

/// A command as the columns that hold it.
#[derive(Drop)]
struct Columns {
    service: u32,
    subtype: u32,
    /// The request that it names, 0 for none.
    target: u32,
    /// Its release time or its offset in seconds, 0 for none.
    time: i64,
}

/// The columns of a command of service 11.
fn schedule(subtype: u32, target: u32, time: i64) -> Columns
    ensures { result ≡ record { service = 11; subtype = subtype; target = target; time = time } }
{
    Columns {
        service: 11,
        subtype,
        target,
        time,
    }
}

/// The columns of an insert: those of its first activity. Those behind it stand in the table `cargo`.
fn insert(rides: &Rides) -> Columns
    ensures service { result.service ≡ 11 }
    ensures subtype { result.subtype ≡ 4 }
    ensures target { result.target ≡ target_of (InsertActivities rides.now) }
    ensures time { result.time ≡ time_of (InsertActivities rides.now) }
{
    let first = rides.first();
    schedule(4, first.target, i64::from(first.time.get()))
}

/// The columns that hold a command.
fn columns_of(command: &Command) -> Columns
    ensures service { result.service ≡ service_of command.now }
    ensures subtype { result.subtype ≡ subtype_of command.now }
    ensures target { result.target ≡ target_of command.now }
    ensures time { result.time ≡ time_of command.now }
{
    match command {
        Command::Plain { service, subtype } => Columns {
            service: u32::from(service.get()),
            subtype: u32::from(subtype.get()),
            target: 0,
            time: 0,
        },
        Command::EnableSchedule => schedule(1, 0, 0),
        Command::DisableSchedule => schedule(2, 0, 0),
        Command::ResetSchedule => schedule(3, 0, 0),
        Command::InsertActivities(rides) => insert(rides),
        Command::DeleteActivity { target } => schedule(5, *target, 0),
        Command::ShiftActivity { target, offset } => schedule(7, *target, offset.get()),
        Command::ShiftAll { offset } => schedule(15, 0, offset.get()),
        Command::SummarizeAll => schedule(17, 0, 0),
    }
}

/// The stack that a request was loaded with; an empty text where it was entered by itself.
fn stack_of(origin: &Option<Origin>) -> &str
    ensures { result.now ≡ stack_of origin.now }
{
    match origin {
        Some(origin) => origin.stack.as_str(),
        None => "",
    }
}

/// Its line there, 0 for none.
fn line_of(origin: &Option<Origin>) -> u32
    ensures { result ≡ line_of origin.now }
{
    match origin {
        Some(origin) => origin.line,
        None => 0,
    }
}

/// The line that has to be completed before it, 0 for none.
fn prior_of(origin: &Option<Origin>) -> u32
    ensures { result ≡ prior_of origin.now }
{
    match origin {
        Some(origin) => origin.after.unwrap_or(0),
        None => 0,
    }
}

/// Runs a text over the columns of a request and its place.
fn put_columns<S: Alter>(
    tx: &mut Transaction<'_, S>,
    alloc: Global,
    text: &str,
    row: PlacedRequest,
) -> Result<usize, Error>
    ensures { Does S.Store (Ran S.Store text.now (request_given row)) tx.old.conn tx.new.conn result }
{
    let Request {
        number,
        body,
        critical,
        author,
        origin,
    } = row.request;
    let Body {
        identity,
        ack,
        command,
        outcome,
    } = body;
    let outcome = outcome.text(alloc)?;
    let number = number.get();
    let apid = u32::from(identity.apid.get());
    let count = u32::from(identity.count.get());
    let ack = ack_code(ack);
    let columns = columns_of(&command);
    let line = line_of(&origin);
    let prior = prior_of(&origin);
    let place = u32::from(row.place.number());
    run(
        tx,
        text,
        params![
            number,
            apid,
            count,
            ack,
            critical,
            columns.service,
            columns.subtype,
            columns.target,
            &columns.time,
            outcome.as_str(),
            author.as_str(),
            stack_of(&origin),
            line,
            prior,
            place
        ],
    )
}

/// Writes a request that was entered.
pub(crate) fn put_request<S: Alter>(
    tx: &mut Transaction<'_, S>,
    alloc: Global,
    request: Request,
) -> Result<usize, Error>
    ensures { Puts S.Store (Entered request ∷ []) tx.old.conn tx.new.conn result }
{
    put_columns(
        tx,
        alloc,
        PUT,
        PlacedRequest {
            request,
            place: Place::Entered,
        },
    )
}

/// Writes a request and its place, over the row that it has.
pub(crate) fn put_placed<S: Alter>(
    tx: &mut Transaction<'_, S>,
    alloc: Global,
    row: PlacedRequest,
) -> Result<usize, Error>
    ensures { Puts S.Store (Placed row ∷ []) tx.old.conn tx.new.conn result }
{
    put_columns(tx, alloc, PUT_PLACED, row)
}
