//! Executions: random records beside a plain program, and small heaps.
use super::procedure_texts::procedure;
use linked_list_allocator::LocalHeap;
use rand_core::{Rng, SeedableRng};
use rand_xoshiro::SplitMix64;
use std::alloc::{Allocator, Global};
use std::process::Abort;
use std::test::Fail;
use tc_proc::{Execution, Procedure};
use tc_types::{Name, Refusal, Verdict};

/// A procedure of four steps, of which the second and the fourth want a second person.
const STEPS: &[u8] =
    b"step,text,second,request\n1,check,no,\n2,switch on,yes,1\n3,wait,no,\n4,switch off,yes,2\n";

/// What is to be recorded.
#[derive(Clone, Copy)]
struct Given {
    step: u32,
    verdict: Verdict,
    by: Name,
    second: Option<Name>,
}

/// What the plain program knows: the next step, 0 where the execution has ended.
fn refusal(next: u32, given: &Given) -> Option<Refusal> {
    let is_marked = given.step == 2 || given.step == 4;
    let is_signed = match &given.second {
        Some(second) => second.as_str() != given.by.as_str(),
        None => false,
    };
    if next == 0 || given.step != next {
        Some(Refusal::StepOutOfOrder)
    } else if is_marked && !is_signed {
        Some(Refusal::Countersign)
    } else {
        None
    }
}

/// The step that comes next behind a record.
fn behind(given: &Given) -> u32 {
    if given.step == 4 || given.verdict == Verdict::Failed {
        0
    } else {
        given.step.saturating_add(1)
    }
}

/// A random thing to record: mostly of the next step.
fn random_record(words: &mut SplitMix64, next: u32, ann: Name, bob: Name) -> Given {
    let bits = words.next_u32();
    Given {
        step: if bits & 3 == 0 { bits >> 8 & 7 } else { next },
        verdict: match bits >> 2 & 7 {
            0 => Verdict::Failed,
            1 | 2 => Verdict::Skipped,
            _ => Verdict::Done,
        },
        by: if bits & 32 == 0 { ann } else { bob },
        second: match bits >> 6 & 3 {
            0 => None,
            1 => Some(ann),
            _ => Some(bob),
        },
    }
}

/// Begins an execution of a procedure; None where there is no memory for it.
fn begun<A: Allocator + Copy + Drop>(alloc: A, procedure: &Procedure) -> Option<Execution<A>> {
    let mut marks = Vec::new(alloc);
    for step in procedure.steps() {
        marks.push(step.is_countersigned).ok()?;
    }
    if marks.is_empty() || marks.len() > 100 {
        return None;
    }
    Some(Execution::begin(alloc, marks))
}

/// Records something, and says whether it went as the plain program says.
fn is_recorded<A: Allocator + Copy + Drop>(
    execution: &mut Execution<A>,
    next: u32,
    given: &Given,
) -> bool {
    let count = execution.records().len();
    let why = refusal(next, given);
    match execution.record(given.step, given.verdict, given.by, given.second) {
        Ok(record) => {
            why.is_none()
                && record.step == next
                && execution.records().last() == Some(&record)
                && execution.next_step().unwrap_or(0) == behind(given)
        }
        Err(refused) => why == Some(refused) && execution.records().len() == count,
    }
}

/// Works one execution to its end, or for forty tries: whether all went as the plain program says, and how many records stand.
fn worked(
    alloc: Global,
    words: &mut SplitMix64,
    procedure: &Procedure,
    ann: Name,
    bob: Name,
) -> Option<usize> {
    let mut execution = begun(alloc, procedure)?;
    for _ in 0..40 {
        let next = execution.next_step().unwrap_or(0);
        let given = random_record(words, next, ann, bob);
        if !is_recorded(&mut execution, next, &given) {
            return None;
        }
    }
    Some(execution.records().len())
}

/// The name of a person.
fn name(rt: &impl Abort, text: &[u8]) -> Name {
    Name::read(text).expect(rt, "a name")
}

/// Works 500 executions: how many had all four records, and how many ended before.
fn worked_all(rt: &impl Abort, alloc: Global, procedure: &Procedure) -> Option<(u32, u32)> {
    let ann = name(rt, b"ann");
    let bob = name(rt, b"bob");
    let mut words = SplitMix64::seed_from_u64(11);
    let mut whole = 0_u32;
    let mut ended = 0_u32;
    for _ in 0..500 {
        if worked(alloc, &mut words, procedure, ann, bob)? == 4 {
            whole = whole.saturating_add(1);
        } else {
            ended = ended.saturating_add(1);
        }
    }
    Some((whole, ended))
}

#[test]
fn random_records_are_taken_as_the_plain_program_says(rt: HostRuntime) -> Result<(), Fail> {
    let procedure = procedure(rt.alloc(), STEPS).expect(&rt, "a procedure");
    let (whole, ended) = worked_all(&rt, rt.alloc(), &procedure).expect(&rt, "records as told");
    assert!(rt; whole > 99);
    assert!(rt; ended > 99);
    Ok(())
}

/// How many of four records a heap of this size takes: a refusal is `Memory`, leaves what is recorded, and comes never after
/// `reserve`. None where it goes otherwise.
fn taken<A: Allocator + Copy + Drop>(
    alloc: A,
    procedure: &Procedure,
    ann: Name,
    bob: Name,
) -> Option<u32> {
    let Some(mut execution) = begun(alloc, procedure) else {
        return Some(0);
    };
    let mut count = 0_u32;
    for step in 1..5_u32 {
        let has_room = execution.reserve().is_ok();
        match execution.record(step, Verdict::Done, ann, Some(bob)) {
            Ok(_) => count = count.saturating_add(1),
            Err(refused) => {
                let is_kept = execution.records().len() as u32 == count;
                let is_memory = refused == Refusal::Memory && !has_room;
                return if is_kept && is_memory {
                    Some(count)
                } else {
                    None
                };
            }
        }
    }
    Some(count)
}

#[test]
fn small_heaps_take_some_records(rt: HostRuntime) -> Result<(), Fail> {
    let procedure = procedure(rt.alloc(), STEPS).expect(&rt, "a procedure");
    let ann = name(&rt, b"ann");
    let bob = name(&rt, b"bob");
    let mut least = 4_u32;
    let mut most = 0_u32;
    for blocks in 1..40_usize {
        let heap = LocalHeap::new(rt.alloc(), blocks.saturating_mul(16))?;
        let count = taken(&heap, &procedure, ann, bob).expect(&rt, "records as memory lets them");
        least = least.min(count);
        most = most.max(count);
    }
    assert!(rt; least == 0);
    assert!(rt; most == 4);
    Ok(())
}
