//! The lines of the board.
ghost use Rattle.std.specs.Prelude.{◌≡◌};
ghost use Rattle.tc_urgent.specs.Lines.{line_as, on_board, service_of, stack_of, subtype_of};
ghost use Rattle.tc_urgent.specs.Judging.{last_move, latest as latest_of};
ghost use Rattle.tc_book.specs.Book.{Book};

use crate::kinds::UrgentKind;
use crate::moves::LastMove;
use tc_types::{Command, Identity, Name, Request};

/// By what a request is known on board.
#[derive(Clone, Copy, Debug, PartialEq, Eq)]
pub struct OnBoard {
    /// Its name there.
    pub identity: Identity,
    /// The service of its command.
    pub service: u8,
    /// The subtype of its command.
    pub subtype: u8,
}

/// One line of the board.
#[derive(Clone, Copy, Debug, PartialEq, Eq)]
pub struct UrgentLine {
    /// What it says.
    pub kind: UrgentKind,
    /// The request; the execution if a step is due.
    pub number: u32,
    /// By what the request is known on board; `None` for an execution.
    pub on_board: Option<OnBoard>,
    /// The stack that the request came with, if it came with one.
    pub stack: Option<Name>,
    /// The number of the move since which the request stands so; 0 for an execution.
    pub since: u32,
    /// For how many seconds it stands so, by the desk's last move; 0 for an execution.
    pub waited: u32,
    /// How many further lines are folded into this one.
    pub same: u32,
}

/// The service of a command; the on-board schedule is service 11.
pub fn service_of(command: &Command) -> u8
    ensures { result ≡ service_of command.now }
{
    match command {
        Command::Plain { service, .. } => service.get(),
        _ => 11,
    }
}

/// The subtype of a command in its service.
pub fn subtype_of(command: &Command) -> u8
    ensures { result ≡ subtype_of command.now }
{
    match command {
        Command::Plain { subtype, .. } => subtype.get(),
        Command::EnableSchedule => 1,
        Command::DisableSchedule => 2,
        Command::ResetSchedule => 3,
        Command::InsertActivities(_) => 4,
        Command::DeleteActivity { .. } => 5,
        Command::ShiftActivity { .. } => 7,
        Command::ShiftAll { .. } => 15,
        Command::SummarizeAll => 17,
    }
}

/// By what a request is known on board.
fn on_board(request: &Request) -> OnBoard
    ensures { result ≡ on_board request.now }
{
    OnBoard {
        identity: request.body.identity,
        service: service_of(&request.body.command),
        subtype: subtype_of(&request.body.command),
    }
}

/// The stack that a request came with.
fn stack_of(request: &Request) -> Option<Name>
    ensures { result ≡ stack_of request.now }
{
    let origin = request.origin?;
    Some(origin.stack)
}

/// The line of a request of this kind whose last move is `last`; the desk's last move was at
/// `latest`.
pub(crate) fn line_as(
    request: &Request,
    kind: UrgentKind,
    last: &LastMove,
    latest: u32,
) -> UrgentLine
    ensures { (book : Book) → last.now ≡ last_move book.history request.now.number → latest ≡ latest_of book.history → result ≡ line_as book request.now kind }
{
    UrgentLine {
        kind,
        number: request.number.get(),
        on_board: Some(on_board(request)),
        stack: stack_of(request),
        since: last.seq,
        waited: latest.saturating_sub(last.moment),
        same: 0,
    }
}
