//! A mark for each request number: which requests were sent in some session.
ghost use Rattle.std.specs.Prelude.{◌≡◌, ◌==◌, ◌≤◌, ◌++◌, ℕ, List, length, OnOk};
ghost use Rattle.std.specs.List.{list_any, flat_map};
ghost use Rattle.tc_fop.specs.Moves.{transmitted_by};
ghost use Rattle.tc_world.specs.Marks.{AreMarked};

use std::alloc::{AllocError, Allocator};
use tc_fop::signals::Indication;
use tc_types::RequestNumber;

/// One mark for each request number, 1 to 65,535, and one that is never set.
pub(crate) const MARKS: usize = 65_536;

/// Takes the memory of all marks, where it was not taken. What is marked stays.
#[tactic(auto, using(crate::proofs::MarkLemmas::marks_longer))]
pub(crate) fn reserve_marks<A: Allocator + Copy + Drop>(
    marks: &mut Vec<bool, A>,
) -> Result<(), AllocError>
    ensures marks { (requests : List ℕ) → AreMarked requests marks.old.items → AreMarked requests marks.new.items }
    ensures all { OnOk result (65536 ≤ length marks.new.items) }
{
    let count = marks.len();
    if count >= MARKS {
        return Ok(());
    }
    marks.reserve(MARKS - count)?;
    for _ in count..MARKS {
        marks.push_reserved(false);
    }
    Ok(())
}

/// Whether this request is marked.
pub(crate) fn is_marked(marks: &[bool], request: RequestNumber) -> bool
    ensures { (requests : List ℕ) → AreMarked requests marks.now → result ≡ list_any (λ n. n == request) requests }
{
    let place = request.get() as usize;
    if place >= marks.len() {
        return false;
    }
    marks[place]
}

/// Marks the request that this tells to be sent.
#[tactic(auto, using(crate::proofs::MarkLemmas::marks))]
fn mark_one<A: Allocator + Copy + Drop>(marks: &mut Vec<bool, A>, indication: &Indication)
    requires { 65536 ≤ length marks.old.items }
    ensures len { length marks.new.items ≡ length marks.old.items }
    ensures marks { (requests : List ℕ) → AreMarked requests marks.old.items → AreMarked (requests ++ transmitted_by indication.now) marks.new.items }
{
    match *indication {
        Indication::Sent(request) => marks[request.get() as usize] = true,
        Indication::Confirmed(_)
        | Indication::GivenBack(_)
        | Indication::InDoubt(_)
        | Indication::Alert(_)
        | Indication::Started => {}
    }
}

/// Marks the requests that these tell to be sent.
pub(crate) fn mark_sent<A: Allocator + Copy + Drop>(
    marks: &mut Vec<bool, A>,
    indications: &[Indication],
)
    requires { 65536 ≤ length marks.old.items }
    ensures { (requests : List ℕ) → AreMarked requests marks.old.items → AreMarked (requests ++ flat_map transmitted_by indications.now) marks.new.items }
{
    for indication in indications {
        mark_one(marks, indication);
    }
}
