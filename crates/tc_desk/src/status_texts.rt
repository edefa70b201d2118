//! The lines that tell how the link stands, and what it told, without their LF.
ghost use Rattle.std.specs.Prelude.{◌≡◌, ◌∷◌, ◌++◌, [], if◌then◌else◌, IfOk, IfSome, IsTrue, MatchOption, None, OnOk, Some, codes};
ghost use Rattle.std.specs.Fmt.{decimal};
ghost use Rattle.std.specs.String.{string_bytes};
ghost use Rattle.tc_types.specs.Lines.{spaced};
ghost use Rattle.tc_types.specs.Words.{is_one_line};
ghost use Rattle.tc_desk.specs.StatusLines.{fop_state_name, farm_state_name, alert_name, flags_word, premise_word, fop_line, fop_end, farm_line, carriers_line, told_line};

use crate::statuses::LinkStatus;
use std::alloc::{AllocError, Allocator};
use std::fmt::Write;
use tc_farm::{FarmState, FarmView};
use tc_fop::signals::{AlertKind, FopState};
use tc_fop::{FopView, signals};
use tc_world::LinkIndication;

/// The number of a state of FOP-1.
fn fop_state_name(state: FopState) -> &'static str
    ensures { result.now ≡ fop_state_name state }
{
    match state {
        FopState::Active => "S1",
        FopState::RetransmitWithoutWait => "S2",
        FopState::RetransmitWithWait => "S3",
        FopState::InitialisingWithoutBc => "S4",
        FopState::InitialisingWithBc => "S5",
        FopState::Initial => "S6",
    }
}

/// The name of a state of FARM-1.
fn farm_state_name(state: FarmState) -> &'static str
    ensures { result.now ≡ farm_state_name state }
{
    match state {
        FarmState::Open => "Open",
        FarmState::Wait => "Wait",
        FarmState::Lockout => "Lockout",
    }
}

/// The name of an alert.
fn alert_name(kind: AlertKind) -> &'static str
    ensures { result.now ≡ alert_name kind }
{
    match kind {
        AlertKind::Limit => "LIMIT",
        AlertKind::T1 => "T1",
        AlertKind::Lockout => "LOCKOUT",
        AlertKind::Synch => "SYNCH",
        AlertKind::NnR => "NN(R)",
        AlertKind::Clcw => "CLCW",
        AlertKind::Term => "TERM",
    }
}

/// A letter where that flag is 1, else a dash.
fn mark(flag: bool, letter: &'static str) -> &'static str
    ensures { result.now ≡ if flag then letter.now else codes "-" }
{
    if flag { letter } else { "-" }
}

/// The flags of a FARM: `L`, `W` and `R`, or a dash where that flag is 0. Fails where memory is refused.
fn flags_text<A: Allocator + Copy>(alloc: A, farm: &FarmView) -> Result<String<A>, AllocError>
    ensures { IfOk result (λ t. string_bytes t ≡ flags_word farm.now) }
{
    let lockout = mark(farm.lockout, "L");
    let wait = mark(farm.wait, "W");
    let retransmit = mark(farm.retransmit, "R");
    format!(in alloc; "{lockout}{wait}{retransmit}")
}

/// The front of the FOP's line: its state and its counters.
fn fop_begun<A: Allocator + Copy>(
    alloc: A,
    state: &str,
    vs: u8,
    nn: u8,
    sent: u8,
    waiting: u8,
) -> Result<String<A>, AllocError>
    ensures { IfOk result (λ t. string_bytes t ≡ spaced (codes "fop" ∷ state.now ∷ codes "vs" ∷ decimal vs ∷ codes "nn" ∷ decimal nn ∷ codes "sent" ∷ decimal sent ∷ codes "wait" ∷ decimal waiting ∷ [])) }
{
    format!(in alloc; "fop {state} vs {vs} nn {nn} sent {sent} wait {waiting}")
}

/// Adds the end of the FOP's line: its counter, its timer and its settings.
#[tactic(auto, using(crate::proofs::StatusLemmas::fop_end_one))]
fn fop_ended<A: Allocator + Copy>(
    line: &mut String<A>,
    count: u8,
    timer: u16,
    k: u8,
    t1: u16,
    limit: u8,
) -> Result<(), AllocError>
    ensures text { OnOk result (string_bytes line.new ≡ string_bytes line.old ++ 32 ∷ fop_end count timer k t1 limit) }
    ensures one_line { IsTrue (is_one_line (fop_end count timer k t1 limit)) }
{
    write!(
        line,
        " count {count} timer {timer} k {k} t1 {t1} limit {limit}"
    )
}

/// How the FOP stands: `fop STATE vs A nn B sent C wait D count E timer F k G t1 H limit I`. Fails where memory is refused.
#[tactic(auto, using(crate::proofs::StatusLemmas::fop_one))]
pub fn fop_text<A: Allocator + Copy>(alloc: A, view: &FopView) -> Result<String<A>, AllocError>
    ensures text { IfOk result (λ t. string_bytes t ≡ fop_line view.now) }
    ensures one_line { IfOk result (λ t. IsTrue (is_one_line (fop_line view.now))) }
{
    let FopView {
        state,
        vs,
        nn,
        sent,
        waiting,
        count,
        timer,
        k,
        t1,
        limit,
    } = *view;
    let mut line = fop_begun(alloc, fop_state_name(state), vs, nn, sent, waiting)?;
    fop_ended(&mut line, count, timer, k, t1, limit)?;
    Ok(line)
}

/// How the FARM stands: `farm STATE vr A b B flags LWR w W`, a dash for each flag that is 0. Fails where memory is refused.
#[tactic(auto, using(crate::proofs::StatusLemmas::farm_one))]
pub fn farm_text<A: Allocator + Copy>(alloc: A, farm: &FarmView) -> Result<String<A>, AllocError>
    ensures text { IfOk result (λ t. string_bytes t ≡ farm_line farm.now) }
    ensures one_line { IfOk result (λ t. IsTrue (is_one_line (farm_line farm.now))) }
{
    let state = farm_state_name(farm.state);
    let flags = flags_text(alloc, farm)?;
    let flags = flags.as_str();
    let FarmView {
        vr,
        farm_b,
        window,
        ..
    } = *farm;
    format!(in alloc; "farm {state} vr {vr} b {farm_b} flags {flags} w {window}")
}

/// What is said of the starts of the link: `kept` while every one was good.
pub fn premise_name(clean: bool) -> &'static str
    ensures word { result.now ≡ premise_word clean }
    ensures one_line { IsTrue (is_one_line result.now) }
{
    if clean { "kept" } else { "broken" }
}

/// What is in flight, and whether every start was good: `link up A down B premise P`. Fails where memory is refused.
#[tactic(auto, using(crate::proofs::StatusLemmas::carriers_one))]
pub fn carriers_text<A: Allocator + Copy>(
    alloc: A,
    status: &LinkStatus,
) -> Result<String<A>, AllocError>
    ensures text { IfOk result (λ t. string_bytes t ≡ carriers_line status.now) }
    ensures one_line { IfOk result (λ t. IsTrue (is_one_line (carriers_line status.now))) }
{
    let LinkStatus {
        up,
        down,
        clean,
        ..
    } = *status;
    let premise = premise_name(clean);
    format!(in alloc; "link up {up} down {down} premise {premise}")
}

/// The line of what the link told, `started` or `alert NAME`; `None` for all else. Fails where memory is refused.
#[tactic(auto, using(crate::proofs::StatusLemmas::told_one))]
pub fn told_text<A: Allocator + Copy>(
    alloc: A,
    said: &LinkIndication,
) -> Result<Option<String<A>>, AllocError>
    ensures text { IfOk result (λ text. MatchOption text (told_line said.now ≡ None) (λ t. told_line said.now ≡ Some (string_bytes t))) }
    ensures one_line { IfOk result (λ text. IfSome (told_line said.now) (λ line. IsTrue (is_one_line line))) }
{
    match said {
        LinkIndication::Fop(signals::Indication::Started) => {
            Ok(Some(String::from_str(alloc, "started")?))
        }
        LinkIndication::Fop(signals::Indication::Alert(kind)) => {
            let name = alert_name(*kind);
            Ok(Some(format!(in alloc; "alert {name}")?))
        }
        LinkIndication::Fop(
            signals::Indication::Sent(_)
            | signals::Indication::Confirmed(_)
            | signals::Indication::GivenBack(_)
            | signals::Indication::InDoubt(_),
        )
        | LinkIndication::Farm(_)
        | LinkIndication::Received(_)
        | LinkIndication::Lost
        | LinkIndication::Transmitted(_) => Ok(None),
    }
}
