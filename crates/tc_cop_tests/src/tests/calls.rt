//! The calls of a FOP as data.
use super::ends::{OnGround, PutsOut};
use super::{body, check, check_part, number};
use std::process::Abort;
use tc_farm::Clcw;
use tc_fop::FopView;
use tc_fop::signals::Indication;
use tc_types::{Directive, Frame, Refusal};

/// One call of a FOP.
#[derive(Clone, Copy)]
pub enum Call {
    /// Offers the request of this number.
    Offer(u32),
    /// A directive.
    Direct(Directive),
    /// A control word with this report value and no flag.
    Report(u8),
    /// The same with Wait.
    Wait(u8),
    /// The same with Retransmit.
    Again(u8),
    /// The same with Retransmit and Wait.
    AgainWait(u8),
    /// The same with Lockout.
    Lockout(u8),
    /// A control word that is not valid.
    Invalid,
    /// So many ticks: the output is that of the last.
    Ticks(u32),
}

/// A control word of virtual channel 0.
fn word(report: u8, lockout: bool, retransmit: bool, wait: bool) -> Option<Clcw> {
    Some(Clcw {
        vc: 0,
        lockout,
        wait,
        retransmit,
        farm_b: 0,
        report,
    })
}

/// The output of a call.
pub fn done<G: OnGround>(rt: &impl Abort, fop: &mut G, call: Call) -> Result<G::Out, Refusal> {
    match call {
        Call::Offer(n) => fop.offers(number(rt, n), body(rt, n)),
        Call::Direct(directive) => fop.carries_out(directive),
        Call::Report(report) => fop.hears(word(report, false, false, false)),
        Call::Wait(report) => fop.hears(word(report, false, false, true)),
        Call::Again(report) => fop.hears(word(report, false, true, false)),
        Call::AgainWait(report) => fop.hears(word(report, false, true, true)),
        Call::Lockout(report) => fop.hears(word(report, true, false, false)),
        Call::Invalid => fop.hears(None),
        Call::Ticks(count) => {
            for _ in 1..count {
                fop.ticks()?;
            }
            fop.ticks()
        }
    }
}

/// Checks that a call is refused so.
pub fn check_refused<G: OnGround>(
    rt: &impl Abort,
    fop: &mut G,
    call: Call,
    refusal: Refusal,
    what: &str,
) {
    let is_so = done(rt, fop, call).err() == Some(refusal);
    check(rt, is_so, what);
}

/// Checks how an offer would be refused now.
pub fn check_offer<G: OnGround>(rt: &impl Abort, fop: &G, refusal: Option<Refusal>, what: &str) {
    check(rt, fop.would_refuse() == refusal, what);
}

/// Checks the variables.
pub fn check_view<G: OnGround>(rt: &impl Abort, fop: &G, view: &FopView, what: &str) {
    check_part(rt, fop.variables() == *view, "variables", what);
}

/// Makes calls, none of which is refused.
pub fn all_done<G: OnGround>(rt: &impl Abort, fop: &mut G, calls: &[Call]) -> Result<(), Refusal> {
    for call in calls {
        done(rt, fop, *call)?;
    }
    Ok(())
}

/// Checks a whole output.
pub fn check_output<S: PutsOut>(
    rt: &impl Abort,
    out: &S,
    frames: &[Frame],
    indications: &[Indication],
    what: &str,
) {
    check_part(rt, out.sent() == frames, "frames", what);
    check_part(rt, out.indicated() == indications, "indications", what);
}

/// Makes a call, and checks its whole output.
pub fn check_call<G: OnGround>(
    rt: &impl Abort,
    fop: &mut G,
    call: Call,
    frames: &[Frame],
    indications: &[Indication],
    what: &str,
) -> Result<(), Refusal> {
    let out = done(rt, fop, call)?;
    check_output(rt, &out, frames, indications, what);
    Ok(())
}
