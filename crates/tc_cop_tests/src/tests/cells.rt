//! A case for each cell of the table that calls can reach in S1 to S5: those that act, and those that ignore.
use super::calls::{Call, all_done, check_view, done};
use super::ends::{OnGround, PutsOut, fop};
use super::stops::{IGNORED_IN_S5, IN_S5, LIMITS, STOPS, Stop};
use super::tables::{
    ACKNOWLEDGES, ALL_AGAIN, BEGINS, Case, Flown, IGNORED, Indicated, LEFT, NO_MORE, STOPPED, Start,
};
use super::{ad, check_part, number};
use std::alloc::Global;
use std::process::Abort;
use std::test::Fail;
use tc_fop::FopView;
use tc_fop::signals::Indication;
use tc_types::{Directive, Frame, Refusal};

/// The indication.
fn indication(rt: &impl Abort, indicated: Indicated) -> Indication {
    match indicated {
        Indicated::Sent(n) => Indication::Sent(number(rt, n)),
        Indicated::Confirmed(n) => Indication::Confirmed(number(rt, n)),
        Indicated::Back(n) => Indication::GivenBack(number(rt, n)),
        Indicated::Doubt(n) => Indication::InDoubt(number(rt, n)),
        Indicated::Alert(kind) => Indication::Alert(kind),
        Indicated::Started => Indication::Started,
    }
}

/// The frame.
fn frame(rt: &impl Abort, flown: Flown) -> Frame {
    match flown {
        Flown::Ad(ns, n) => ad(rt, ns, n),
        Flown::Unlock => Frame::Unlock,
    }
}

/// How a new FOP comes to stand so.
fn calls_to(start: Start) -> &'static [Call] {
    const FIRST: Call = Call::Direct(Directive::InitiateNone);
    const ONE: Call = Call::Offer(1);
    const TWO: Call = Call::Offer(2);
    const THREE: Call = Call::Offer(3);
    match start {
        Start::S1 => &[FIRST, ONE, TWO, THREE],
        Start::S2 => &[FIRST, ONE, TWO, THREE, Call::Again(0)],
        Start::S3 => &[FIRST, ONE, TWO, THREE, Call::AgainWait(0)],
        Start::S4 => &[Call::Direct(Directive::InitiateCheck)],
        Start::S5 => &[Call::Direct(Directive::InitiateUnlock)],
    }
}

/// The name of what is put out from this state.
fn output_from(start: Start) -> &'static str {
    match start {
        Start::S1 => "the output from S1",
        Start::S2 => "the output from S2",
        Start::S3 => "the output from S3",
        Start::S4 => "the output from S4",
        Start::S5 => "the output from S5",
    }
}

/// Whether these frames are put out.
fn are_sent(rt: &impl Abort, frames: &[Frame], want: &[Flown]) -> bool {
    let mut equal = frames.len() == want.len();
    for (got, flown) in frames.iter().zip(want) {
        equal = equal && *got == frame(rt, *flown);
    }
    equal
}

/// Whether these indications are put out.
fn are_indicated(rt: &impl Abort, indications: &[Indication], want: &[Indicated]) -> bool {
    let mut equal = indications.len() == want.len();
    for (got, indicated) in indications.iter().zip(want) {
        equal = equal && *got == indication(rt, *indicated);
    }
    equal
}

/// Makes the calls of a case from this state, and compares the whole output and the view.
fn check_case<G: OnGround>(
    rt: &impl Abort,
    fop: &mut G,
    case: &Case,
    start: Start,
) -> Result<(), Refusal> {
    all_done(rt, fop, calls_to(start))?;
    all_done(rt, fop, case.then)?;
    let out = done(rt, fop, case.call)?;
    let is_put_out = are_sent(rt, out.sent(), case.frames)
        && are_indicated(rt, out.indicated(), case.indicated);
    check_part(rt, is_put_out, output_from(start), case.row);
    check_view(rt, fop, &case.view, case.row);
    Ok(())
}

/// Checks these cases, each from a new FOP.
fn check_cases(rt: &impl Abort, alloc: Global, cases: &[Case]) -> Result<(), Refusal> {
    for case in cases {
        for start in case.starts {
            let mut fop = fop(alloc, 2, 10, 3)?;
            check_case(rt, &mut fop, case, *start)?;
        }
    }
    Ok(())
}

#[test]
fn gives_what_the_cell_says(rt: HostRuntime) -> Result<(), Fail> {
    for cases in [BEGINS, ACKNOWLEDGES, LEFT, ALL_AGAIN, NO_MORE, LIMITS] {
        check_cases(&rt, rt.alloc(), cases)?;
    }
    Ok(())
}

/// Checks that a word of this row is ignored in S5.
fn check_ignored(
    rt: &impl Abort,
    alloc: Global,
    row: &'static str,
    call: Call,
) -> Result<(), Refusal> {
    let case = Case {
        row,
        starts: &[Start::S5],
        then: &[],
        call,
        frames: &[],
        indicated: &[],
        view: IN_S5,
    };
    let mut fop = fop(alloc, 2, 10, 3)?;
    check_case(rt, &mut fop, &case, Start::S5)
}

#[test]
fn ignores_what_the_cell_ignores(rt: HostRuntime) -> Result<(), Fail> {
    check_cases(&rt, rt.alloc(), IGNORED)?;
    for (row, call) in IGNORED_IN_S5 {
        check_ignored(&rt, rt.alloc(), row, *call)?;
    }
    Ok(())
}

/// Checks that a call stops the service in each of its states.
fn check_stop(rt: &impl Abort, alloc: Global, stop: &Stop) -> Result<(), Refusal> {
    let (row, starts, call, indicated) = *stop;
    for start in starts {
        let case = Case {
            row,
            starts,
            then: &[],
            call,
            frames: &[],
            indicated,
            view: FopView {
                count: count_in(*start),
                ..STOPPED
            },
        };
        let mut fop = fop(alloc, 2, 10, 3)?;
        check_case(rt, &mut fop, &case, *start)?;
    }
    Ok(())
}

/// Transmission_Count in this state before the call.
fn count_in(start: Start) -> u8 {
    match start {
        Start::S2 => 2,
        Start::S1 | Start::S3 | Start::S4 | Start::S5 => 1,
    }
}

#[test]
fn stops(rt: HostRuntime) -> Result<(), Fail> {
    for stop in STOPS {
        check_stop(&rt, rt.alloc(), stop)?;
    }
    Ok(())
}
