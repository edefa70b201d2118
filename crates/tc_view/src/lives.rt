//! How the link stands, in the words of the wall.
ghost use Rattle.std.specs.Prelude.{◌≡◌};
ghost use Rattle.tc_view.specs.Links.{farm_line_of, farm_word_of, fop_line_of, fop_word_of, link_of};

use tc_desk::LinkStatus;
use tc_farm::{FarmState, FarmView};
use tc_fop::FopView;
use tc_fop::signals::FopState;
use tc_wall::{FarmLine, FarmWord, FopLine, FopWord, LinkLines};

/// A state of the FOP.
fn fop_word_of(state: FopState) -> FopWord
    ensures { result ≡ fop_word_of state }
{
    match state {
        FopState::Active => FopWord::Active,
        FopState::RetransmitWithoutWait => FopWord::RetransmitWithoutWait,
        FopState::RetransmitWithWait => FopWord::RetransmitWithWait,
        FopState::InitialisingWithoutBc => FopWord::InitialisingWithoutBc,
        FopState::InitialisingWithBc => FopWord::InitialisingWithBc,
        FopState::Initial => FopWord::Initial,
    }
}

/// A state of the FARM.
fn farm_word_of(state: FarmState) -> FarmWord
    ensures { result ≡ farm_word_of state }
{
    match state {
        FarmState::Open => FarmWord::Open,
        FarmState::Wait => FarmWord::Wait,
        FarmState::Lockout => FarmWord::Lockout,
    }
}

/// How the FOP stands.
fn fop_line_of(view: &FopView) -> FopLine
    ensures { result ≡ fop_line_of view.now }
{
    FopLine {
        state: fop_word_of(view.state),
        vs: view.vs,
        nn: view.nn,
        sent: view.sent,
        waiting: view.waiting,
        count: view.count,
        timer: view.timer,
        k: view.k,
        t1: view.t1,
        limit: view.limit,
    }
}

/// How the FARM stands.
fn farm_line_of(view: &FarmView) -> FarmLine
    ensures { result ≡ farm_line_of view.now }
{
    FarmLine {
        state: farm_word_of(view.state),
        vr: view.vr,
        farm_b: view.farm_b,
        lockout: view.lockout,
        wait: view.wait,
        retransmit: view.retransmit,
        window: view.window,
    }
}

/// How the link stands.
pub(crate) fn link_of(status: &LinkStatus) -> LinkLines
    ensures { result ≡ link_of status.now }
{
    LinkLines {
        fop: fop_line_of(&status.fop),
        farm: farm_line_of(&status.farm),
        up: status.up,
        down: status.down,
        clean: status.clean,
    }
}
