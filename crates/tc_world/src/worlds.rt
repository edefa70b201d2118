//! The world: the link, and the sessions that were held over it.
ghost use Rattle.std.specs.Prelude.{◌≡◌, ◌+◌, ◌/◌, ◌≤◌, ◌<◌, ◌↔◌, ℕ, Bool, Some, None, Err, length, true, false, slice_get, IfErr, IfOk, IfSome, IfNone, IsOk, OnOk, [], ◌∷◌};
ghost use Rattle.std.specs.List.{list_any, list_all};
ghost use Rattle.tc_types.specs.declared.refusals.Refusal.TheVariants.{BadDirective};
ghost use Rattle.tc_farm.specs.Farm.{new_farm};
ghost use Rattle.tc_fop.specs.declared.signals.FopState.TheVariants.{Initial};
ghost use Rattle.tc_fop.specs.Views.{view_of};
ghost use Rattle.tc_world.specs.Links.{AreEmpty};
ghost use Rattle.tc_world.specs.Logs.{blank};
ghost use Rattle.tc_world.specs.Abstraction.{seen};
ghost use Rattle.tc_world.specs.Window.{Follows};
ghost use Rattle.tc_world.specs.Kept.{IsKept};
ghost use Rattle.tc_world.specs.Fitting.{IsFit, IsNarrow};
ghost use Rattle.tc_world.specs.Fair.{IsFairOn, is_fair};
ghost use Rattle.tc_world.specs.World.{Whole, Happens, IsRefused, IsAsBefore, IsSpared, IsQuietAboard, sessions_of, is_fitting, clean_by, fits_by, sets_fitting, level_by, puts_down, may_move, tells_move};
ghost use Rattle.tc_world.specs.Runs.{IsRun};
ghost use Rattle.tc_world.specs.Telling.{TellsRequests};
ghost use Rattle.tc_world.specs.Flight.{KeepsClaims};

use crate::carriers::Carrier;
use crate::events::Event;
use crate::indications::Indications;
use crate::laws::window_is_kept;
use crate::parts::LinkParts;
use crate::runs::RunEnd;
use crate::session_logs::SessionLog;
use std::alloc::{AllocError, Allocator};
use std::marker::Model;
use tc_farm::{Farm, FarmView};
use tc_fop::{Fop, FopView};
use tc_types::{Frame, Refusal, Report};

/// FOP-1, FARM-1 and two carriers as one machine, and what was written down of its sessions.
#[derive(Drop)]
pub struct World<U: Carrier<Frame>, D: Carrier<Report>, A: Allocator + Copy + Drop> {
    parts: LinkParts<U, D, A>,
}

impl<U: Carrier<Frame>, D: Carrier<Report>, A: Allocator + Copy + Drop> Model for World<U, D, A> {
    ghost Value = { Whole U D };

    ghost view = { λ w. w.parts };

    // what stands between two events, and carries the window's claims
    ghost invariant = { λ w. IsKept (seen U.kind D.kind w.parts) × IsFit (seen U.kind D.kind w.parts) × IsFairOn (seen U.kind D.kind w.parts) × IsNarrow (seen U.kind D.kind w.parts) };
}

impl<U: Carrier<Frame>, D: Carrier<Report>, A: Allocator + Copy + Drop> World<U, D, A> {
    /// A world in which nothing happened yet, on virtual channel `vc`, 0 to 63, else `BadDirective`. The carriers are
    /// empty, the FOP is in S6, and the FARM is as it was made. It takes no memory.
    pub fn new(
        alloc: A,
        fop: Fop<A>,
        farm: Farm,
        up: U,
        down: D,
        vc: u8,
    ) -> Result<World<U, D, A>, Refusal>
        requires links { AreEmpty U.kind D.kind up down }
        requires fop { fop.machine.state ≡ Initial }
        requires farm { farm ≡ new_farm farm.window }
        ensures world { IfOk result (λ w. w ≡ record { fop = fop.machine; farm = farm; up = up; down = down; past = []; newest = blank 0; clean = true; fits = is_fitting fop.machine farm; level = false; vc = vc }) }
        ensures channel { IsOk result ↔ (vc ≤ 63) }
        ensures bad { IfErr result (λ refusal. refusal ≡ BadDirective) }
    {
        if vc > 63 {
            return Err(Refusal::BadDirective);
        }
        Ok(World {
            parts: LinkParts::new(alloc, fop, farm, up, down, vc),
        })
    }

    /// One event, and what the link tells of it, in order: at most 258 indications, and at most 256 frames are put on
    /// the uplink. An offer of a request that waits or was sent in any session is refused `WrongPlace`; else an offer
    /// and a directive are refused as the FOP refuses them; `Memory` comes where none of these does. An error leaves
    /// the world as it was.
    pub fn step(&mut self, event: Event) -> Result<Indications<A>, Refusal>
        ensures happens { IfOk result (λ answer. Happens U.kind D.kind event self.old self.new answer) }
        ensures refused { IfErr result (λ refusal. IsRefused event self.old refusal × IsAsBefore U.kind D.kind self.old self.new) }
        ensures spared { IsSpared U.kind D.kind D.covered event self.old → IsOk result }
        ensures indications { IfOk result (λ answer. length answer ≤ 258) }
        ensures frames { length (U.kind.content self.new.up) ≤ length (U.kind.content self.old.up) + 256 }
        ensures quiet { IfOk result (λ answer. IsQuietAboard event answer) }
        // but at an offer, the end of the service, a tick and what comes down, no request moves
        ensures still { may_move event ≡ false → IfOk result (λ answer. list_any tells_move answer ≡ false) }
        // what is told of requests is what becomes of them
        ensures requests { IfOk result (λ answer. TellsRequests event self.old self.new answer) }
        ensures kept_room { puts_down event ≡ false → D.covered self.old.down ≤ D.covered self.new.down }
        ensures room { D.covered self.old.down ≤ D.covered self.new.down + 1 }
        // an initiation is a good start or not, and no other event is a start
        ensures clean { IfOk result (λ answer. self.new.clean ≡ clean_by U.kind D.kind event self.old) }
        // whether K fitted at every moment so far, and whether the last start was level
        ensures fits { IfOk result (λ answer. self.new.fits ≡ fits_by event self.old self.new) }
        ensures fitting { self.new.fits ≡ true → self.new.fop.k ≤ self.new.farm.window / 2 }
        ensures level { IfOk result (λ answer. self.new.level ≡ level_by U.kind D.kind event self.old) }
        // while every start was good and K fitted, no other alert comes than those that may
        ensures fair { IfOk result (λ answer. self.new.clean ≡ true → self.new.fits ≡ true → list_all (is_fair self.old.level self.old.fop.state) answer ≡ true) }
        ensures was_fitting { self.new.fits ≡ true → self.old.fits ≡ true }
        // K moves where it is set alone
        ensures keeps_fitting { IfOk result (λ answer. self.old.fits ≡ true → sets_fitting event self.old.farm ≡ true → self.new.fits ≡ true) }
        // while every start was good, an event is a run of the session that is on, or another begins
        ensures window { IfOk result (λ answer. self.new.clean ≡ true → Follows (seen U.kind D.kind self.old) (seen U.kind D.kind self.new)) }
        ensures claims { KeepsClaims U.kind D.kind self.new }
        ensures was_clean { self.new.clean ≡ true → self.old.clean ≡ true }
    {
        // what the FOP's table says of requests, and of K
        tc_fop::laws::keeps_order();
        tc_fop::laws::directives_k();
        // what stands between events stands after this one too
        window_is_kept();
        self.parts.step(event)
    }

    /// Makes these events happen in turn, and stops at the first that is refused: those before it stand, and nothing
    /// of it.
    pub fn run(&mut self, events: &[Event]) -> RunEnd
        ensures run { IsRun U.kind D.kind D.covered events.now result.done result.refusal self.old self.new }
        ensures claims { KeepsClaims U.kind D.kind self.new }
    {
        // read for the proof alone: the claims of the start, where no event happens
        let _clean = self.clean();
        for (done, event) in events.iter().enumerate() {
            if let Err(refusal) = self.step(*event) {
                return RunEnd {
                    done,
                    refusal: Some(refusal),
                };
            }
        }
        RunEnd {
            done: events.len(),
            refusal: None,
        }
    }

    /// Takes the memory of so many reports and control words that are put on the downlink: so many `Put`s, and each
    /// `Release`, are then not refused, if only `Uplink`, `Release` and `Put` come between. Nothing else changes.
    pub fn reserve(&mut self, puts: usize) -> Result<(), AllocError>
        ensures same { IsAsBefore U.kind D.kind self.old self.new }
        ensures room { OnOk result (puts ≤ D.covered self.new.down) }
        ensures kept { D.covered self.old.down ≤ D.covered self.new.down }
    {
        self.parts.down.reserve(puts)
    }

    /// Whether every start so far was good: at each accepted initiation both carriers were empty, and at each without
    /// check also V(S) was V(R) and the FARM had no flag.
    pub fn clean(&self) -> bool
        ensures value { result ≡ self.now.clean }
        ensures claims { KeepsClaims U.kind D.kind self.now }
    {
        // what stands between events carries the claims
        window_is_kept();
        self.parts.clean
    }

    /// Whether K was at most half of the FARM's window, W / 2, at every moment so far.
    pub fn fits(&self) -> bool
        ensures value { result ≡ self.now.fits }
        ensures fitting { self.now.fits ≡ true → self.now.fop.k ≤ self.now.farm.window / 2 }
    {
        self.parts.fits
    }

    /// Whether the last accepted initiation was a level start: both carriers were empty, and, with check or without,
    /// V(S) was V(R) and the FARM had no flag. False before any.
    pub fn level(&self) -> bool
        ensures { result ≡ self.now.level }
    {
        self.parts.level
    }

    /// How many sessions there were, the one that is on among them.
    pub fn session_count(&self) -> usize
        ensures { result ≡ length (sessions_of self.now) }
    {
        self.parts.past.len()
    }

    /// The log of the session at this place, from 0 for the first.
    pub fn session(&self, place: usize) -> Option<&SessionLog<A>>
        ensures found { IfSome result (λ session. slice_get (sessions_of self.now) place ≡ Some session.now.log) }
        ensures none { IfNone result (slice_get (sessions_of self.now) place ≡ None) }
    {
        let count = self.parts.past.len();
        if place >= count {
            return None;
        }
        if place + 1 == count {
            return Some(&self.parts.side.newest);
        }
        Some(&self.parts.past[place + 1])
    }

    /// What a status line prints of the FOP.
    pub fn fop_view(&self) -> FopView
        ensures { result ≡ view_of self.now.fop }
    {
        self.parts.side.fop.view()
    }

    /// The variables of the FARM.
    pub fn farm_view(&self) -> FarmView
        ensures { result ≡ self.now.farm }
    {
        self.parts.farm.view()
    }

    /// How many frames are in flight.
    pub fn up_len(&self) -> usize
        ensures { result ≡ length (U.kind.content self.now.up) }
    {
        self.parts.side.up.len()
    }

    /// How many control words and reports are in flight.
    pub fn down_len(&self) -> usize
        ensures { result ≡ length (D.kind.content self.now.down) }
    {
        self.parts.down.len()
    }
}
