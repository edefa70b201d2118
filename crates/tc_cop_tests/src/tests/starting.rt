//! The alerts of S4 and S5, those at the limit, and the outputs of directives.
use super::calls::{Call, check_call, check_view, done};
use super::ends::{OnGround, fop};
use std::process::Abort;
use std::test::Fail;
use tc_fop::FopView;
use tc_fop::signals::{AlertKind, FopState, Indication};
use tc_types::{Directive, Frame, Refusal};

/// A service that stops before it begins: what it is, its initiation, its limit, the call that stops it, the alert, and
/// the Transmission_Count after it.
type Early = (&'static str, Directive, u8, Call, AlertKind, u8);

/// A start with a check.
const CHECK: Directive = Directive::InitiateCheck;

/// A start with an Unlock.
const COMMAND: Directive = Directive::InitiateUnlock;

/// Each alert of S4 and S5.
const EARLY: &[Early] = &[
    ("P3 in S4", CHECK, 3, Call::Wait(0), AlertKind::Clcw, 1),
    ("P4 in S4", CHECK, 3, Call::Again(0), AlertKind::Synch, 1),
    ("P14 in S4", CHECK, 3, Call::Report(1), AlertKind::NnR, 1),
    (
        "P15 in S4",
        CHECK,
        3,
        Call::Lockout(0),
        AlertKind::Lockout,
        1,
    ),
    ("P16 in S4", CHECK, 3, Call::Invalid, AlertKind::Clcw, 1),
    ("P17 in S4", CHECK, 3, Call::Ticks(10), AlertKind::T1, 1),
    ("P18 in S4", CHECK, 1, Call::Ticks(10), AlertKind::T1, 1),
    ("P16 in S5", COMMAND, 3, Call::Invalid, AlertKind::Clcw, 1),
    ("P18 in S5", COMMAND, 1, Call::Ticks(10), AlertKind::T1, 1),
    (
        "P18 in S5, later",
        COMMAND,
        2,
        Call::Ticks(20),
        AlertKind::T1,
        2,
    ),
];

/// In S6 with nothing out, but for the settings of a case.
const STOPPED: FopView = FopView {
    state: FopState::Initial,
    vs: 0,
    nn: 0,
    sent: 0,
    waiting: 0,
    count: 1,
    timer: 0,
    k: 2,
    t1: 10,
    limit: 3,
};

/// Checks that the service stops so, before it begins.
fn check_early<G: OnGround>(rt: &impl Abort, fop: &mut G, early: &Early) -> Result<(), Refusal> {
    let (what, directive, limit, call, kind, count) = *early;
    done(rt, fop, Call::Direct(directive))?;
    check_call(rt, fop, call, &[], &[Indication::Alert(kind)], what)?;
    let view = FopView {
        count,
        limit,
        ..STOPPED
    };
    check_view(rt, fop, &view, what);
    Ok(())
}

#[test]
fn stops_before_it_begins(rt: HostRuntime) -> Result<(), Fail> {
    for early in EARLY {
        let mut fop = fop(rt.alloc(), 2, 10, early.2)?;
        check_early(&rt, &mut fop, early)?;
    }
    Ok(())
}

/// An initiation where V(S) is 5: its BC frame, if it has one, and the state, V(S) and the timer after it.
struct Initiation {
    what: &'static str,
    directive: Directive,
    frame: Option<Frame>,
    state: FopState,
    vs: u8,
    timer: u16,
}

/// Each initiation.
const INITIATIONS: [Initiation; 4] = [
    Initiation {
        what: "a start without check",
        directive: Directive::InitiateNone,
        frame: None,
        state: FopState::Active,
        vs: 5,
        timer: 0,
    },
    Initiation {
        what: "a start with a check",
        directive: Directive::InitiateCheck,
        frame: None,
        state: FopState::InitialisingWithoutBc,
        vs: 5,
        timer: 10,
    },
    Initiation {
        what: "a start with Unlock",
        directive: Directive::InitiateUnlock,
        frame: Some(Frame::Unlock),
        state: FopState::InitialisingWithBc,
        vs: 5,
        timer: 10,
    },
    Initiation {
        what: "a start with Set V(R)",
        directive: Directive::InitiateSetVr(7),
        frame: Some(Frame::SetVr(7)),
        state: FopState::InitialisingWithBc,
        vs: 7,
        timer: 10,
    },
];

/// Checks what an initiation puts out: the BC frame, or that the service begins at once where the state is S1.
fn check_begin<G: OnGround>(
    rt: &impl Abort,
    fop: &mut G,
    case: &Initiation,
) -> Result<(), Refusal> {
    let call = Call::Direct(case.directive);
    let what = case.what;
    match case.frame {
        Some(frame) => check_call(rt, fop, call, &[frame], &[], what),
        None => match case.state {
            FopState::Active => check_call(rt, fop, call, &[], &[Indication::Started], what),
            _ => check_call(rt, fop, call, &[], &[], what),
        },
    }
}

/// Checks an initiation and two terminations after it.
fn check_initiation<G: OnGround>(
    rt: &impl Abort,
    fop: &mut G,
    case: &Initiation,
) -> Result<(), Refusal> {
    done(rt, fop, Call::Direct(Directive::SetVs(5)))?;
    check_begin(rt, fop, case)?;
    let view = FopView {
        state: case.state,
        vs: case.vs,
        nn: case.vs,
        timer: case.timer,
        ..STOPPED
    };
    check_view(rt, fop, &view, case.what);
    let end = Call::Direct(Directive::Terminate);
    let stopped = [Indication::Alert(AlertKind::Term)];
    check_call(rt, fop, end, &[], &stopped, "a termination")?;
    check_call(rt, fop, end, &[], &[], "a termination in S6")
}

#[test]
fn initiates(rt: HostRuntime) -> Result<(), Fail> {
    for case in &INITIATIONS {
        let mut fop = fop(rt.alloc(), 2, 10, 3)?;
        check_initiation(&rt, &mut fop, case)?;
    }
    Ok(())
}
