//! What no clause says: that calls succeed where there is memory, and with which values.
use std::process::Abort;
use tc_types::{Ack, Apid, Frame, Identity, Outcome, Payload, RequestNumber, SequenceCount, Task};

mod calls;
mod cells;
mod ends;
mod numbers;
mod queues;
mod rooms;
mod runs;
mod starting;
mod stops;
mod tables;
mod windows;
mod words;

/// Checks that this holds, or else says what does not. Assertions stand here and in the two below alone: one takes a second to
/// prove, and a call next to nothing.
fn check(rt: &impl Abort, holds: bool, what: &str) {
    assert!(rt; holds, "{what}");
}

/// Checks that this holds of a part of something.
fn check_part(rt: &impl Abort, holds: bool, part: &str, what: &str) {
    assert!(rt; holds, "{part} at {what}");
}

/// Checks that this holds at this place, or of this many.
fn check_at(rt: &impl Abort, holds: bool, what: &str, place: u32) {
    assert!(rt; holds, "{what}: {place}");
}

/// The number of a request.
fn number(rt: &impl Abort, n: u32) -> RequestNumber {
    RequestNumber::new(n).expect(rt, "a number of a request")
}

/// The part of request `n` that flies: requests differ by their count.
fn body(rt: &impl Abort, n: u32) -> Payload {
    let count = u16::try_from(n).expect(rt, "a small number");
    Payload {
        identity: Identity {
            apid: Apid::new(5).expect(rt, "an application process"),
            count: SequenceCount::new(count).expect(rt, "a count"),
        },
        ack: Ack {
            acceptance: true,
            start: false,
            progress: false,
            completion: true,
        },
        task: Task::Plain(Outcome::Completes),
    }
}

/// The frame of request `n` under this number.
fn ad(rt: &impl Abort, ns: u8, n: u32) -> Frame {
    Frame::Ad {
        ns,
        request: number(rt, n),
        body: body(rt, n),
    }
}
