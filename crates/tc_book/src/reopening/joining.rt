//! The rows of cargo of the tables that were left, joined with the rows of their requests.
ghost use Rattle.std.specs.Prelude.{◌≡◌, ◌+◌, ◌<◌, ◌≤◌, ◌==◌, ◌&&◌, ◌∷◌, length, take, MatchOption};
ghost use Rattle.tc_types.specs.declared.requests.Command.{Command as SomeCommand};
ghost use Rattle.tc_types.specs.Grammar.{IsCommand};
ghost use Rattle.tc_types.specs.Inserts.{most_inserted};
ghost use Rattle.tc_book.specs.Cargoes.{first_alone, behind_first, cargo_from};
ghost use Rattle.tc_book.specs.Joining.{rides_in, front_from, HasRows, IsJoined, IsOfNone};

use tc_types::{Body, Cargo, Command, MOST_INSERTED, Request, Ride, Rides};

/// A request, and the rows of cargo behind its own.
#[derive(Drop)]
pub(crate) struct Joined<'a> {
    /// The request.
    pub(crate) request: Request,
    /// The rows behind.
    pub(crate) rest: &'a [Cargo],
}

/// Whether a row tells what a request names at this position.
fn is_at(row: &Cargo, number: u32, position: usize) -> bool
    ensures { result ≡ (row.now.request == number && row.now.position == position) }
{
    row.request.get() == number && usize::from(row.position) == position
}

/// How many rows in front are of this request, one position after the other from the second on.
fn own_cargo(cargo: &[Cargo], number: u32) -> usize
    ensures front { take result cargo.now ≡ front_from number 2 cargo.now }
    ensures within { result ≤ length cargo.now }
{
    for at in 0..cargo.len() {
        if !is_at(&cargo[at], number, at + 2) {
            return at;
        }
    }
    cargo.len()
}

/// An insert's activities, the first and those of its rows of cargo; `None` where they are more than it may have.
fn all_rides(first: Ride, own: &[Cargo]) -> Option<Rides>
    ensures { MatchOption result (most_inserted < length own.now + 1) (λ rides. rides ≡ first ∷ rides_in own.now) }
{
    if own.len() >= MOST_INSERTED {
        return None;
    }
    let mut places = [first; MOST_INSERTED];
    for (at, row) in own.iter().enumerate() {
        places[at + 1] = row.ride;
    }
    Rides::of(&places[..own.len() + 1])
}

/// A command of its request's own row and of its rows of cargo; `None` where no request has these.
fn join_command(command: &Command, own: &[Cargo]) -> Option<Command>
    ensures { MatchOption result ((given : SomeCommand) → IsCommand given → first_alone given ≡ command.now → behind_first given ≡ rides_in own.now → ⊥) (λ given. (first_alone given ≡ command.now) × (behind_first given ≡ rides_in own.now)) }
{
    let Command::InsertActivities(rides) = command else {
        return if own.is_empty() { Some(*command) } else { None };
    };
    if rides.len() > 1 {
        return None;
    }
    let all = all_rides(rides.first(), own)?;
    Some(Command::InsertActivities(all))
}

/// The request of this row of its own and of these rows of cargo, where one has them.
fn join(row: &Request, own: &[Cargo]) -> Option<Request>
    requires { own.now ≡ cargo_from row.now.number 2 (rides_in own.now) }
    ensures { MatchOption result (IsOfNone row.now own.now) (HasRows row.now own.now) }
{
    let command = join_command(&row.body.command, own)?;
    Some(Request {
        body: Body {
            command,
            ..row.body
        },
        ..*row
    })
}

/// The request of this row of its own and of the rows of cargo in front; `None` where no request has these.
pub(crate) fn join_next<'a>(row: &Request, cargo: &'a [Cargo]) -> Option<Joined<'a>>
    ensures { MatchOption result (IsOfNone row.now (front_from row.now.number 2 cargo.now)) (λ j. IsJoined row.now cargo.now j.request j.rest.now) }
{
    let (own, rest) = cargo.split_at(own_cargo(cargo, row.number.get()));
    let request = join(row, own)?;
    Some(Joined { request, rest })
}
