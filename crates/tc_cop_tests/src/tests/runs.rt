//! Runs of a FOP with whole outputs, what it refuses, and numbers that go around.
use super::calls::{Call, all_done, check_call, check_offer, check_refused, check_view, done};
use super::ends::{OnGround, fop, refusal_to_make};
use super::{ad, check_at, number};
use std::process::Abort;
use std::test::Fail;
use tc_fop::FopView;
use tc_fop::signals::{AlertKind, FopState, Indication};
use tc_types::{Directive, Refusal};

/// The service starts without check.
const START: Call = Call::Direct(Directive::InitiateNone);

/// Where the window is one: one request is out under the number 1, after another was confirmed.
const SECOND_OUT: FopView = FopView {
    state: FopState::Active,
    vs: 2,
    nn: 1,
    sent: 1,
    waiting: 0,
    count: 1,
    timer: 10,
    k: 1,
    t1: 10,
    limit: 3,
};

/// The first request is sent, the second waits, and the third is refused.
fn fills<G: OnGround>(rt: &impl Abort, fop: &mut G) -> Result<(), Refusal> {
    check_call(rt, fop, START, &[], &[Indication::Started], "the start")?;
    let sent = [Indication::Sent(number(rt, 1))];
    check_call(rt, fop, Call::Offer(1), &[ad(rt, 0, 1)], &sent, "request 1")?;
    check_call(rt, fop, Call::Offer(2), &[], &[], "request 2")?;
    let full = Refusal::WaitQueueFull;
    check_offer(rt, fop, Some(full), "while one waits");
    check_refused(rt, fop, Call::Offer(3), full, "request 3");
    Ok(())
}

/// A word that is not valid stops the service with these indications.
fn check_stop<G: OnGround>(
    rt: &impl Abort,
    fop: &mut G,
    indicated: &[Indication],
) -> Result<(), Refusal> {
    let what = "a word that is not valid";
    check_call(rt, fop, Call::Invalid, &[], indicated, what)
}

/// The first request is confirmed and the second sent, which is in doubt when the service stops.
fn empties<G: OnGround>(rt: &impl Abort, fop: &mut G) -> Result<(), Refusal> {
    let indicated = [
        Indication::Confirmed(number(rt, 1)),
        Indication::Sent(number(rt, 2)),
    ];
    check_call(
        rt,
        fop,
        Call::Report(1),
        &[ad(rt, 1, 2)],
        &indicated,
        "report 1",
    )?;
    check_view(rt, fop, &SECOND_OUT, "report 1");
    let indicated = [
        Indication::InDoubt(number(rt, 2)),
        Indication::Alert(AlertKind::Clcw),
    ];
    check_stop(rt, fop, &indicated)?;
    check_call(rt, fop, Call::Invalid, &[], &[], "another in S6")?;
    check_offer(rt, fop, Some(Refusal::ServiceNotActive), "in S6");
    Ok(())
}

#[test]
fn confirms_and_transmits(rt: HostRuntime) -> Result<(), Fail> {
    let mut fop = fop(rt.alloc(), 1, 10, 3)?;
    fills(&rt, &mut fop)?;
    empties(&rt, &mut fop)?;
    Ok(())
}

/// Settings with which no FOP is made: K, T1_Initial and the limit.
const BAD: &[(u8, u16, u8)] = &[(0, 10, 3), (1, 0, 3), (1, 10, 0)];

/// Directives that are never carried out.
const ZEROS: [Directive; 3] = [
    Directive::SetK(0),
    Directive::SetT1(0),
    Directive::SetLimit(0),
];

/// Directives that are not carried out once the service is started.
const LATE: [Directive; 5] = [
    Directive::InitiateNone,
    Directive::InitiateCheck,
    Directive::InitiateUnlock,
    Directive::InitiateSetVr(7),
    Directive::SetVs(7),
];

/// Checks that these directives are refused now.
fn check_bad<G: OnGround>(rt: &impl Abort, fop: &mut G, directives: &[Directive], what: &str) {
    for directive in directives {
        let call = Call::Direct(*directive);
        check_refused(rt, fop, call, Refusal::BadDirective, what);
    }
}

/// Checks what is refused before and after the start.
fn check_refusals<G: OnGround>(rt: &impl Abort, fop: &mut G) -> Result<(), Refusal> {
    let none = Refusal::ServiceNotActive;
    check_refused(rt, fop, Call::Offer(1), none, "before the start");
    check_bad(rt, fop, &ZEROS, "a zero");
    done(rt, fop, START)?;
    check_bad(rt, fop, &LATE, "after the start");
    check_offer(rt, fop, None, "after the start");
    Ok(())
}

#[test]
fn refuses(rt: HostRuntime) -> Result<(), Fail> {
    for (k, t1, limit) in BAD {
        let refusal = refusal_to_make(rt.alloc(), *k, *t1, *limit);
        let is_so = refusal == Some(Refusal::BadDirective);
        check_at(&rt, is_so, "a bad setting beside K", u32::from(*k));
    }
    let mut fop = fop(rt.alloc(), 1, 10, 3)?;
    check_refusals(&rt, &mut fop)?;
    Ok(())
}

/// This report confirms the request before the last, and request `n` is sent in its place.
fn moves_on<G: OnGround>(rt: &impl Abort, fop: &mut G, report: u8, n: u32) -> Result<(), Refusal> {
    let indicated = [Indication::Confirmed(number(rt, n.wrapping_sub(2)))];
    check_call(rt, fop, Call::Report(report), &[], &indicated, "a report")?;
    done(rt, fop, Call::Offer(n))?;
    Ok(())
}

/// From the number 5 on, 256 requests one after the other, each confirmed but for the last two.
fn passes_the_end<G: OnGround>(rt: &impl Abort, fop: &mut G) -> Result<(), Refusal> {
    let set = Call::Direct(Directive::SetVs(5));
    all_done(rt, fop, &[set, START, Call::Offer(1), Call::Offer(2)])?;
    let mut report = 6u8;
    for n in 3..257u32 {
        moves_on(rt, fop, report, n)?;
        report = report.wrapping_add(1);
    }
    Ok(())
}

/// The last two are sent again, and are in doubt when the service stops.
fn sends_the_last_again<G: OnGround>(rt: &impl Abort, fop: &mut G) -> Result<(), Refusal> {
    let again = [ad(rt, 3, 255), ad(rt, 4, 256)];
    check_call(rt, fop, Call::Again(3), &again, &[], "a retransmission")?;
    let indicated = [
        Indication::InDoubt(number(rt, 255)),
        Indication::InDoubt(number(rt, 256)),
        Indication::Alert(AlertKind::Clcw),
    ];
    check_stop(rt, fop, &indicated)
}

#[test]
fn goes_around(rt: HostRuntime) -> Result<(), Fail> {
    let mut fop = fop(rt.alloc(), 2, 10, 3)?;
    passes_the_end(&rt, &mut fop)?;
    sends_the_last_again(&rt, &mut fop)?;
    Ok(())
}
