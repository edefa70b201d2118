//! A lock-out, and how the service comes back, with each control word bit by bit.
use super::{
    Act, START, STOP, Scenario, UNLOCK, body, check, check_at, check_session, event, number,
    over_lists,
};
use crate::links::Link;
use std::alloc::Global;
use std::process::Abort;
use std::test::Fail;
use tc_farm::{Clcw, FarmState, FrameVerdict};
use tc_fop::signals;
use tc_fop::signals::{AlertKind, FopState};
use tc_types::{Directive, Report};
use tc_world::LinkIndication;

/// What the link tells, a request by its number.
#[derive(Clone, Copy)]
enum Told {
    /// The FOP sent a request.
    Sent(u32),
    /// The FOP has a request in doubt.
    InDoubt(u32),
    /// The FOP stops for this.
    Alert(AlertKind),
    /// The service began.
    Started,
    /// A frame was lost.
    Lost,
    /// The FARM discarded a frame.
    Discarded,
    /// The FARM carried out a control command.
    Control,
    /// The FARM accepted a request.
    Accepted(u32),
    /// A control word on channel 3 with report value 0 came down: whether it says Lockout, its count of control
    /// commands modulo 4, and its 32 bits.
    Word(bool, u8, u32),
}

/// An act, and all that the link tells of it.
#[derive(Clone, Copy)]
struct Step {
    act: Act,
    told: &'static [Told],
}

/// Three frames, the first of which is lost: the second is outside the window.
const LOSES: &[Step] = &[
    Step {
        act: START,
        told: &[Told::Started],
    },
    Step {
        act: Act::Offer(1),
        told: &[Told::Sent(1)],
    },
    Step {
        act: Act::Offer(2),
        told: &[Told::Sent(2)],
    },
    Step {
        act: Act::Offer(3),
        told: &[Told::Sent(3)],
    },
    Step {
        act: Act::LoseUp(3),
        told: &[],
    },
    Step {
        act: Act::LoseUp(0),
        told: &[Told::Lost],
    },
    Step {
        act: Act::Up,
        told: &[Told::Discarded],
    },
];

/// The FARM is locked, and the FOP hears of it.
const LOCKS: &[Step] = &[
    Step {
        act: Act::Clcw,
        told: &[],
    },
    Step {
        act: Act::Downlink,
        told: &[
            Told::Word(true, 0, 0x010c_2000),
            Told::InDoubt(1),
            Told::InDoubt(2),
            Told::InDoubt(3),
            Told::Alert(AlertKind::Lockout),
        ],
    },
    Step {
        act: Act::Up,
        told: &[Told::Discarded],
    },
];

/// An Unlock opens the FARM.
const UNLOCKS: &[Step] = &[
    Step {
        act: UNLOCK,
        told: &[],
    },
    Step {
        act: Act::Up,
        told: &[Told::Control],
    },
];

/// The FARM expects 0 where the FOP is at 3: its word is ignored.
const IGNORES: &[Step] = &[
    Step {
        act: Act::Clcw,
        told: &[],
    },
    Step {
        act: Act::Downlink,
        told: &[Told::Word(false, 1, 0x010c_0200)],
    },
];

/// A Set V(R) makes both sides level, and the next request is accepted.
const GOES_ON: &[Step] = &[
    Step {
        act: STOP,
        told: &[Told::Alert(AlertKind::Term)],
    },
    Step {
        act: Act::Directive(Directive::InitiateSetVr(0)),
        told: &[],
    },
    Step {
        act: Act::Up,
        told: &[Told::Control],
    },
    Step {
        act: Act::Clcw,
        told: &[],
    },
    Step {
        act: Act::Downlink,
        told: &[Told::Word(false, 2, 0x010c_0400), Told::Started],
    },
    Step {
        act: Act::Offer(4),
        told: &[Told::Sent(4)],
    },
    Step {
        act: Act::Up,
        told: &[Told::Accepted(4)],
    },
];

/// The FOP tells this.
fn fop(told: signals::Indication) -> LinkIndication {
    LinkIndication::Fop(told)
}

/// The FARM accepted request `n`.
fn accepted(rt: &impl Abort, n: u32) -> LinkIndication {
    LinkIndication::Farm(FrameVerdict::Accepted {
        request: number(rt, n),
        body: body(rt, n),
    })
}

/// A control word on channel 3 with report value 0 comes down; its bits have to be these.
fn word(rt: &impl Abort, lockout: bool, farm_b: u8, bits: u32) -> LinkIndication {
    let clcw = Clcw {
        vc: 3,
        lockout,
        wait: false,
        retransmit: false,
        farm_b: farm_b % 4,
        report: 0,
    };
    check(rt, clcw.word() == bits, "the bits of a control word");
    LinkIndication::Received(Report::Word(bits))
}

/// What the link tells.
fn indication(rt: &impl Abort, told: &Told) -> LinkIndication {
    match *told {
        Told::Sent(n) => fop(signals::Indication::Sent(number(rt, n))),
        Told::InDoubt(n) => fop(signals::Indication::InDoubt(number(rt, n))),
        Told::Alert(kind) => fop(signals::Indication::Alert(kind)),
        Told::Started => fop(signals::Indication::Started),
        Told::Lost => LinkIndication::Lost,
        Told::Discarded => LinkIndication::Farm(FrameVerdict::Discarded),
        Told::Control => LinkIndication::Farm(FrameVerdict::Control),
        Told::Accepted(n) => accepted(rt, n),
        Told::Word(lockout, farm_b, bits) => word(rt, lockout, farm_b, bits),
    }
}

/// Puts what the link tells into one list.
fn add_told(
    rt: &impl Abort,
    all: &mut Vec<LinkIndication, Global>,
    told: &[Told],
) -> Result<(), Fail> {
    for one in told {
        all.push(indication(rt, one))?;
    }
    Ok(())
}

/// Makes an act happen; whether the link tells exactly this of it.
fn happens<L: Link>(
    rt: &impl Abort,
    alloc: Global,
    link: &mut L,
    step: &Step,
) -> Result<bool, Fail> {
    let mut told = Vec::new(alloc);
    add_told(rt, &mut told, step.told)?;
    let is_told = link.tells(event(rt, &step.act), &told)?;
    Ok(is_told)
}

/// Makes acts happen, and checks all that the link tells of each.
fn all_told<L: Link>(
    rt: &impl Abort,
    alloc: Global,
    link: &mut L,
    steps: &[Step],
    what: &str,
) -> Result<(), Fail> {
    for (place, step) in steps.iter().enumerate() {
        let is_told = happens(rt, alloc, link, step)?;
        check_at(rt, is_told, what, place);
    }
    Ok(())
}

/// Whether the FARM is open, and expects 0 after one control command.
fn is_open<L: Link>(link: &L) -> bool {
    let farm = link.farm();
    farm.state == FarmState::Open && farm.vr == 0 && farm.farm_b == 1
}

/// Three sessions: nothing of the first was accepted, nothing was sent in the second, and the third has the fourth
/// request.
fn check_sessions<L: Link>(rt: &impl Abort, link: &L) {
    check(rt, link.is_clean(), "clean");
    check(rt, link.sessions() == 3, "three sessions");
    check_session(rt, link, 0, 1, [3, 0, 0]);
    check_session(rt, link, 1, 1, [0, 0, 0]);
    check_session(rt, link, 2, 4, [1, 1, 0]);
}

/// A lost frame locks the FARM, and the service comes back.
pub fn comes_back<L: Link>(rt: &impl Abort, alloc: Global, link: &mut L) -> Result<(), Fail> {
    all_told(rt, alloc, link, LOSES, "the loss")?;
    let is_locked = link.farm().state == FarmState::Lockout;
    check(rt, is_locked, "a lock-out");
    all_told(rt, alloc, link, LOCKS, "the lock-out")?;
    all_told(rt, alloc, link, UNLOCKS, "the Unlock")?;
    check(rt, is_open(link), "open after the Unlock");
    all_told(rt, alloc, link, IGNORES, "the word")?;
    let is_beginning = link.fop().state == FopState::InitialisingWithBc;
    check(rt, is_beginning, "S5 after the word");
    all_told(rt, alloc, link, GOES_ON, "the Set V(R)")?;
    check_sessions(rt, link);
    Ok(())
}

#[test]
fn comes_back_from_a_lockout(rt: HostRuntime) -> Result<(), Fail> {
    over_lists(&rt, rt.alloc(), Scenario::Lockout, 3, 2, 3)
}
