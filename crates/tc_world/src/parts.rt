//! The parts of the link.
ghost use Rattle.std.specs.Prelude.{◌≡◌, ◌≤◌, map, true, false, [], ◌++◌};
ghost use Rattle.tc_fop.specs.Standing.{IsFop};
ghost use Rattle.tc_farm.specs.Farm.{IsFarm};
ghost use Rattle.tc_world.specs.Logs.{blank};
ghost use Rattle.std.specs.List.{flat_map};
ghost use Rattle.tc_world.specs.Marks.{AreMarked};
ghost use Rattle.tc_world.specs.Pages.{Page};
ghost use Rattle.tc_world.specs.World.{Whole, is_fitting};

use crate::carriers::Carrier;
use crate::fop_side::FopSide;
use crate::session_logs::SessionLog;
use std::alloc::Allocator;
use std::marker::Model;
use tc_farm::Farm;
use tc_fop::Fop;
use tc_types::{Frame, Report};

/// The most that is told of one event: what came down, 255 in doubt, one given back, and the alert.
pub const MOST_INDICATIONS_AN_EVENT: usize = 258;

/// The FOP, the FARM, the carriers and the sessions. What holds of them together is the world's.
#[derive(Drop)]
pub(crate) struct LinkParts<U: Carrier<Frame>, D: Carrier<Report>, A: Allocator + Copy + Drop> {
    pub(crate) alloc: A,
    pub(crate) side: FopSide<U, A>,
    pub(crate) farm: Farm,
    pub(crate) down: D,
    pub(crate) past: Vec<SessionLog<A>, A>,
    pub(crate) clean: bool,
    pub(crate) fits: bool,
    pub(crate) level: bool,
    pub(crate) vc: u8,
}

impl<U: Carrier<Frame>, D: Carrier<Report>, A: Allocator + Copy + Drop> Model
    for LinkParts<U, D, A> {
    ghost Value = { Whole U D };

    ghost view = { λ p. record { fop = p.side.fop.machine; farm = p.farm; up = p.side.up; down = p.down; past = map (λ (page : Page). page.log) p.past.items; newest = p.side.newest.log; clean = p.clean; fits = p.fits; level = p.level; vc = p.vc } };

    // the marks are those of the requests that were sent in some session
    ghost invariant = { λ p. (p.vc ≤ 63) × IsFop p.side.fop.machine × IsFarm p.farm × AreMarked (flat_map (λ (page : Page). page.log.sent) p.past.items ++ p.side.newest.log.sent) p.side.marks.items };
}

impl<U: Carrier<Frame>, D: Carrier<Report>, A: Allocator + Copy + Drop> LinkParts<U, D, A> {
    /// LinkParts in which nothing happened yet. It takes no memory.
    #[tactic(auto, using(crate::proofs::MarkLemmas::marks_none))]
    pub(crate) fn new(
        alloc: A,
        fop: Fop<A>,
        farm: Farm,
        up: U,
        down: D,
        vc: u8,
    ) -> LinkParts<U, D, A>
        requires { vc ≤ 63 }
        ensures { result ≡ record { fop = fop.machine; farm = farm; up = up; down = down; past = []; newest = blank 0; clean = true; fits = is_fitting fop.machine farm; level = false; vc = vc } }
    {
        let fits = fop.view().k <= farm.view().window / 2;
        LinkParts {
            alloc,
            side: FopSide {
                fop,
                up,
                newest: SessionLog::new(alloc, 0),
                marks: Vec::new(alloc),
            },
            farm,
            down,
            past: Vec::new(alloc),
            clean: true,
            fits,
            level: false,
            vc,
        }
    }
}
