//! Outcomes of the rehearsal spacecraft, as they fly.
ghost use Rattle.std.specs.Prelude.{◌≡◌, ◌++◌, OnOk};
ghost use Rattle.tc_packets.specs.Outcomes.{ReadsOutcome, outcome_octets_of};

use std::alloc::{AllocError, Allocator};
use tc_types::{FailureCode, Outcome, Steps};

/// The octets of an outcome.
pub const OUTCOME: usize = 3;

/// Returns the octets of an outcome: kind, steps and code (this project's own).
fn outcome_octets(outcome: Outcome) -> [u8; 3]
    ensures { result ≡ outcome_octets_of outcome }
{
    match outcome {
        Outcome::Completes => [0, 0, 0],
        Outcome::CompletesInSteps(steps) => [1, steps.get(), 0],
        Outcome::Refuses(code) => [2, 0, code.get()],
        Outcome::StartFails(code) => [3, 0, code.get()],
        Outcome::Halts(steps, code) => [4, steps.get(), code.get()],
        Outcome::Fails(code) => [5, 0, code.get()],
    }
}

/// Adds the three octets of an outcome.
pub fn put_outcome<A: Allocator + Copy>(
    out: &mut Vec<u8, A>,
    outcome: Outcome,
) -> Result<(), AllocError>
    ensures { OnOk result (out.new.items ≡ out.old.items ++ outcome_octets_of outcome) }
{
    out.extend_from_slice(&outcome_octets(outcome))
}

/// Returns the outcome that these octets are.
pub fn read_outcome(octets: &[u8]) -> Option<Outcome>
    ensures { ReadsOutcome octets.now result }
{
    match octets {
        [0, 0, 0] => Some(Outcome::Completes),
        [1, steps, 0] => Some(Outcome::CompletesInSteps(Steps::new(*steps)?)),
        [2, 0, code] => Some(Outcome::Refuses(FailureCode::new(*code)?)),
        [3, 0, code] => Some(Outcome::StartFails(FailureCode::new(*code)?)),
        [4, steps, code] => Some(Outcome::Halts(Steps::new(*steps)?, FailureCode::new(*code)?)),
        [5, 0, code] => Some(Outcome::Fails(FailureCode::new(*code)?)),
        _ => None,
    }
}
