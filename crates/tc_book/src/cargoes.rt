//! An insert in the rows of the tables: its first activity stands in the row of its request, and each other one in a row of `cargo`.
ghost use Rattle.std.specs.Prelude.{◌≡◌, ◌+◌, ◌≤◌, length, map, vec_len, vec_capacity};
ghost use Rattle.std.specs.List.{flat_map};
ghost use Rattle.tc_types.specs.declared.tables.rows.Row.TheVariants as table_row;
ghost use Rattle.tc_book.specs.Appends.{AppendsMost};
ghost use Rattle.tc_book.specs.Cargoes.{first_alone, alone, behind_first, cargo_from, cargo_of, cargo_length};

use crate::pushes::push_within;
use std::alloc::Allocator;
use tc_types::{Body, Cargo, Command, Request, RequestNumber, Ride, Rides, Row};

/// A command as the request's own row tells it: an insert with its first activity alone.
fn first_alone(command: &Command) -> Command
    ensures { result ≡ first_alone command.now }
{
    match command {
        Command::InsertActivities(rides) => {
            Command::InsertActivities(Rides::of(&[rides.first()]).unwrap())
        }
        _ => *command,
    }
}

/// A request as its own row tells it.
pub(crate) fn alone(request: &Request) -> Request
    ensures { result ≡ alone request.now }
{
    let command = first_alone(&request.body.command);
    Request {
        body: Body {
            command,
            ..request.body
        },
        ..*request
    }
}

/// The activities that a command inserts behind the first.
pub(crate) fn behind_first(command: &Command) -> &[Ride]
    ensures rides { result.now ≡ behind_first command.now }
    ensures few { length result.now ≤ 7 }
{
    match command {
        Command::InsertActivities(rides) => &rides.as_slice()[1..],
        _ => &[],
    }
}

/// Copies these activities of a request, from the second position on.
fn push_rides<A: Allocator>(number: RequestNumber, rides: &[Ride], batch: &mut Vec<Row, A>)
    requires few { length rides.now ≤ 7 }
    requires room { vec_len batch.old + length rides.now ≤ vec_capacity batch.old }
    ensures { AppendsMost batch.old batch.new (length rides.now) (map (λ cargo. table_row.Carried cargo) (cargo_from number 2 rides.now)) }
{
    for (at, ride) in rides.iter().enumerate() {
        let cargo = Cargo {
            request: number,
            position: at as u8 + 2,
            ride: *ride,
        };
        push_within(batch, Row::Carried(cargo));
    }
}

/// Copies what a request names behind the first.
fn push_cargo<A: Allocator>(request: &Request, batch: &mut Vec<Row, A>)
    requires { vec_len batch.old + length (cargo_of request.now) ≤ vec_capacity batch.old }
    ensures { AppendsMost batch.old batch.new (length (cargo_of request.now)) (map (λ cargo. table_row.Carried cargo) (cargo_of request.now)) }
{
    push_rides(request.number, behind_first(&request.body.command), batch);
}

/// Copies what these requests name behind the first, request by request.
pub(crate) fn copy_cargo<A: Allocator>(requests: &[Request], batch: &mut Vec<Row, A>)
    requires { vec_len batch.old + cargo_length requests.now ≤ vec_capacity batch.old }
    ensures { AppendsMost batch.old batch.new (cargo_length requests.now) (map (λ cargo. table_row.Carried cargo) (flat_map cargo_of requests.now)) }
{
    for request in requests {
        push_cargo(request, batch);
    }
}
