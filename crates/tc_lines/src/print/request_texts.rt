//! The line that tells a request, without its LF: what was entered, and where it stands.
ghost use Rattle.std.specs.Prelude.{◌≡◌, [], ◌∷◌, ◌++◌, if◌then◌else◌, IfOk, OnOk, codes, IsTrue};
ghost use Rattle.std.specs.Fmt.{decimal};
ghost use Rattle.std.specs.String.{string_bytes};
ghost use Rattle.tc_types.specs.Grammar.{ack_word, yes_no, listed, target_word, time_word};
ghost use Rattle.tc_types.specs.Lines.{spaced};
ghost use Rattle.tc_types.specs.RequestLine.{kind_word, with_word, target_words, request_line};
ghost use Rattle.tc_types.specs.Words.{is_one_line};

use std::alloc::{AllocError, Allocator};
use std::fmt::Write;
use tc_types::{Ack, Command, Place, Request, Ride, Rides, from_name};

/// The numbers of a command's service and subtype.
fn kind(command: Command) -> (u8, u8)
    ensures { kind_word command ≡ decimal result.0 ++ 47 ∷ decimal result.1 }
{
    match command {
        Command::Plain { service, subtype } => (service.get(), subtype.get()),
        Command::EnableSchedule => (11, 1),
        Command::DisableSchedule => (11, 2),
        Command::ResetSchedule => (11, 3),
        Command::InsertActivities(_) => (11, 4),
        Command::DeleteActivity { .. } => (11, 5),
        Command::ShiftActivity { .. } => (11, 7),
        Command::ShiftAll { .. } => (11, 15),
        Command::SummarizeAll => (11, 17),
    }
}

/// A command's service and subtype. Fails where memory is refused.
fn kind_text<A: Allocator + Copy>(alloc: A, command: Command) -> Result<String<A>, AllocError>
    ensures { IfOk result (λ t. string_bytes t ≡ kind_word command) }
{
    let (service, subtype) = kind(command);
    format!(in alloc; "{service}/{subtype}")
}

/// Adds the request that an activity is of, behind a semicolon where it is not the first.
fn push_target<A: Allocator + Copy>(
    text: &mut String<A>,
    at: usize,
    ride: &Ride,
) -> Result<(), AllocError>
    ensures { OnOk result (string_bytes text.new ≡ with_word (string_bytes text.old) at (target_word ride.now)) }
{
    let target = ride.target;
    if at == 0 {
        write!(text, "{target}")
    } else {
        write!(text, ";{target}")
    }
}

/// Adds the time of an activity, behind a semicolon where it is not the first.
fn push_time<A: Allocator + Copy>(
    text: &mut String<A>,
    at: usize,
    ride: &Ride,
) -> Result<(), AllocError>
    ensures { OnOk result (string_bytes text.new ≡ with_word (string_bytes text.old) at (time_word ride.now)) }
{
    let time = ride.time.get();
    if at == 0 {
        write!(text, "{time}")
    } else {
        write!(text, ";{time}")
    }
}

/// The list of the requests that an insert names. Fails where memory is refused.
fn targets_text<A: Allocator + Copy>(alloc: A, rides: &[Ride]) -> Result<String<A>, AllocError>
    ensures { IfOk result (λ t. string_bytes t ≡ listed target_word rides.now) }
{
    let mut text = String::new(alloc);
    for (at, ride) in rides.iter().enumerate() {
        push_target(&mut text, at, ride)?;
    }
    Ok(text)
}

/// The list of their times. Fails where memory is refused.
fn times_text<A: Allocator + Copy>(alloc: A, rides: &[Ride]) -> Result<String<A>, AllocError>
    ensures { IfOk result (λ t. string_bytes t ≡ listed time_word rides.now) }
{
    let mut text = String::new(alloc);
    for (at, ride) in rides.iter().enumerate() {
        push_time(&mut text, at, ride)?;
    }
    Ok(text)
}

/// The two lists of an insert. Fails where memory is refused.
fn rides_text<A: Allocator + Copy>(alloc: A, rides: &Rides) -> Result<String<A>, AllocError>
    ensures { IfOk result (λ t. string_bytes t ≡ spaced (listed target_word rides.now ∷ listed time_word rides.now ∷ [])) }
{
    let targets = targets_text(alloc, rides.as_slice())?;
    let times = times_text(alloc, rides.as_slice())?;
    let targets = targets.as_str();
    let times = times.as_str();
    format!(in alloc; "{targets} {times}")
}

/// A command's target and time, as an entry spells them. Fails where memory is refused.
fn target_text<A: Allocator + Copy>(alloc: A, command: Command) -> Result<String<A>, AllocError>
    ensures { IfOk result (λ t. string_bytes t ≡ target_words command) }
{
    match command {
        Command::InsertActivities(rides) => rides_text(alloc, &rides),
        Command::DeleteActivity { target } => format!(in alloc; "{target} -"),
        Command::ShiftActivity { target, offset } => {
            let offset = offset.get();
            format!(in alloc; "{target} {offset}")
        }
        Command::ShiftAll { offset } => {
            let offset = offset.get();
            format!(in alloc; "- {offset}")
        }
        Command::Plain { .. }
        | Command::EnableSchedule
        | Command::DisableSchedule
        | Command::ResetSchedule
        | Command::SummarizeAll => String::from_str(alloc, "- -"),
    }
}

/// A letter where it is asked for, else a dash.
pub fn mark(asked: bool, letter: &'static str) -> &'static str
    ensures { result.now ≡ if asked then letter.now else codes "-" }
{
    if asked { letter } else { "-" }
}

/// The reports of success that are asked for, as an entry spells them. Fails where memory is refused.
fn ack_text<A: Allocator + Copy>(alloc: A, ack: Ack) -> Result<String<A>, AllocError>
    ensures { IfOk result (λ t. string_bytes t ≡ ack_word ack) }
{
    let acceptance = mark(ack.acceptance, "a");
    let start = mark(ack.start, "s");
    let progress = mark(ack.progress, "p");
    let completion = mark(ack.completion, "c");
    format!(in alloc; "{acceptance}{start}{progress}{completion}")
}

/// Yes or no, as an entry spells it.
pub fn yes_no(is: bool) -> &'static str
    ensures { result.now ≡ yes_no is }
{
    if is { "yes" } else { "no" }
}

/// The front of the line: which request, and what it commands.
fn begun<A: Allocator + Copy>(
    alloc: A,
    number: u32,
    identity: &str,
    kind: &str,
) -> Result<String<A>, AllocError>
    ensures { IfOk result (λ t. string_bytes t ≡ spaced (codes "request" ∷ decimal number ∷ identity.now ∷ kind.now ∷ [])) }
{
    format!(in alloc; "request {number} {identity} {kind}")
}

/// Adds the end of the line: what was asked for, by whom, and where the request stands.
fn end_line<A: Allocator + Copy>(
    line: &mut String<A>,
    ack: &str,
    critical: &str,
    target: &str,
    outcome: &str,
    author: &str,
    place: &str,
) -> Result<(), AllocError>
    ensures { OnOk result (string_bytes line.new ≡ string_bytes line.old ++ 32 ∷ spaced (ack.now ∷ critical.now ∷ target.now ∷ outcome.now ∷ author.now ∷ place.now ∷ [])) }
{
    write!(
        line,
        " {ack} {critical} {target} {outcome} {author} {place}"
    )
}

/// The line of a request that stands at this place:
/// `request N APID/COUNT SERVICE/SUBTYPE ACK CRIT TARGET TIME OUTCOME AUTHOR PLACE`. Fails where memory is refused.
#[tactic(auto, using(crate::proofs::AnswerLines::request_one))]
pub fn request_text<A: Allocator + Copy>(
    alloc: A,
    request: &Request,
    place: Option<Place>,
) -> Result<String<A>, AllocError>
    ensures text { IfOk result (λ t. string_bytes t ≡ request_line request.now place) }
    ensures one_line { IfOk result (λ t. IsTrue (is_one_line (request_line request.now place))) }
{
    let body = request.body;
    body.command.keeps_ranges();
    body.outcome.keeps_ranges();
    let identity = body.identity.text(alloc)?;
    let kind = kind_text(alloc, body.command)?;
    let mut line = begun(
        alloc,
        request.number.get(),
        identity.as_str(),
        kind.as_str(),
    )?;
    let ack = ack_text(alloc, body.ack)?;
    let target = target_text(alloc, body.command)?;
    let outcome = body.outcome.text(alloc)?;
    end_line(
        &mut line,
        ack.as_str(),
        yes_no(request.critical),
        target.as_str(),
        outcome.as_str(),
        request.author.as_str(),
        from_name(place),
    )?;
    Ok(line)
}
