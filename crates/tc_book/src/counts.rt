//! How many requests each application process has had.
ghost use Rattle.std.specs.Prelude.{◌≡◌, ◌-◌, ◌+◌, ◌<◌, ◌≤◌, ◌%◌, ◌++◌, ◌∷◌, [], ℕ, List, length, slice_index_or, OnOk};
ghost use Rattle.tc_types.specs.declared.requests.Request.{Request as SomeRequest};
ghost use Rattle.tc_book.specs.Book.{next_identity};
ghost use Rattle.tc_book.specs.Places.{AreCounted, count_of};

use std::alloc::{AllocError, Allocator};
use tc_types::{Apid, Identity, SequenceCount};

/// How many application processes there are.
const PROCESSES: usize = 2_048;

/// How many sequence counts there are: the next one behind the last is 0.
const SEQUENCE_COUNTS: u32 = 16_384;

/// Takes the memory of all counts, where it was not taken. What was counted stays.
#[tactic(auto, using(crate::proofs::CountLemmas::counts_longer))]
pub(crate) fn reserve_counts<A: Allocator + Copy + Drop>(
    counts: &mut Vec<u32, A>,
) -> Result<(), AllocError>
    ensures counted { (requests : List SomeRequest) → AreCounted requests counts.old.items → AreCounted requests counts.new.items }
    ensures longer { length counts.old.items ≤ length counts.new.items }
    ensures all { OnOk result (2048 ≤ length counts.new.items) }
{
    let count = counts.len();
    if count >= PROCESSES {
        return Ok(());
    }
    counts.reserve(PROCESSES - count)?;
    for _ in count..PROCESSES {
        counts.push_reserved(0);
    }
    Ok(())
}

/// How many requests an application process has had.
pub(crate) fn count_of(counts: &[u32], apid: Apid) -> u32
    ensures value { (requests : List SomeRequest) → AreCounted requests counts.now → result ≡ count_of requests apid }
    ensures kept { result ≡ slice_index_or counts.now apid 0 }
    ensures within { apid < 2048 }
{
    let place = usize::from(apid.get());
    if place < counts.len() {
        counts[place]
    } else {
        0
    }
}

/// The identity of an application process behind so many more requests of it.
pub(crate) fn identity_behind(counts: &[u32], apid: Apid, more: u32) -> Identity
    requires few { slice_index_or counts.now apid 0 + more < 4294967296 }
    ensures { (requests : List SomeRequest) → AreCounted requests counts.now → result ≡ record { apid = apid; count = (count_of requests apid + more) % 16384 } }
{
    let next = (count_of(counts, apid) + more) % SEQUENCE_COUNTS;
    let count = SequenceCount::new(next as u16).unwrap();
    Identity { apid, count }
}

/// The next identity of an application process.
pub(crate) fn next_identity(counts: &[u32], apid: Apid) -> Identity
    ensures { (requests : List SomeRequest) → AreCounted requests counts.now → result ≡ next_identity requests apid }
{
    let next = count_of(counts, apid) % SEQUENCE_COUNTS;
    let count = SequenceCount::new(next as u16).unwrap();
    Identity { apid, count }
}

/// An application process has one more request.
pub(crate) fn count_one<A: Allocator + Copy + Drop>(counts: &mut Vec<u32, A>, apid: Apid)
    requires all { 2048 ≤ length counts.old.items }
    requires few { slice_index_or counts.old.items apid 0 < 4294967295 }
    ensures len { length counts.new.items ≡ length counts.old.items }
    ensures counted { (requests : List SomeRequest) → (request : SomeRequest) → request.body.identity.apid ≡ apid → AreCounted requests counts.old.items → AreCounted (requests ++ request ∷ []) counts.new.items }
{
    counts[usize::from(apid.get())] += 1;
}
