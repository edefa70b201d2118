//! The FOP's side of the link: its calls, its frames on the uplink, and what it tells of the sessions.
//!
//! Each call takes its memory before anything changes, by `FopSide::reserve`: what the FOP needs, room for its frames on
//! the uplink, for its indications in the newest session, all marks, and room for the answer. Only the room of the uplink
//! is then visible.
//!
//! What gets items from the downlink calls `reserve`, then takes an item, and passes a control word by `pass_word`.
ghost use Rattle.std.specs.Prelude.{◌≡◌, ◌+◌, ◌≤◌, length, map, true, false, vec_len, vec_capacity, IfOk, IsOk, OnOk, Ok, [], ◌++◌, ℕ, List};
ghost use Rattle.tc_fop.specs.Calls.{directed};
ghost use Rattle.tc_fop.specs.Machine.{Action, is_window_open};
ghost use Rattle.tc_fop.specs.Moves.{is_initiation};
ghost use Rattle.tc_world.specs.Links.{PutsAll, IsReadied};
ghost use Rattle.tc_fop.specs.Standing.{IsFop};
ghost use Rattle.tc_world.specs.Logs.{noted};
ghost use Rattle.tc_world.specs.Marks.{AreMarked};
ghost use Rattle.tc_world.specs.Sides.{HasRoom, Passes, WritesWithin};
ghost use Rattle.tc_world.specs.World.{Happens, Begins, Directs, EndsWithin, IsTaken, is_known, clean_after, is_level, level_after, is_still_fitting, told_by_fop};

use crate::carriers::Carrier;
use crate::events::{Event, LinkIndication};
use crate::indications::Indications;
use crate::marks::{is_marked, mark_sent, reserve_marks};
use crate::parts::{LinkParts, MOST_INDICATIONS_AN_EVENT};
use crate::session_logs::SessionLog;
use std::alloc::{AllocError, Allocator};
use std::mem;
use tc_farm::Clcw;
use tc_fop::{Fop, MOST_FRAMES, Output, signals};
use tc_types::{Directive, Frame, Payload, Refusal, Report, RequestNumber};

/// What a call of the FOP writes to: the FOP, the uplink, the newest session, and the marks of the requests that were
/// sent in some session.
#[derive(Drop)]
pub(crate) struct FopSide<U: Carrier<Frame>, A: Allocator + Copy + Drop> {
    pub(crate) fop: Fop<A>,
    pub(crate) up: U,
    pub(crate) newest: SessionLog<A>,
    pub(crate) marks: Vec<bool, A>,
}

/// Puts these frames on the uplink, in order.
fn put_all<U: Carrier<Frame>>(up: &mut U, frames: &[Frame])
    requires { length frames.now ≤ U.covered up.old }
    ensures puts { PutsAll U.kind up.old frames.now up.new }
    ensures most { length (U.kind.content up.new) ≤ length (U.kind.content up.old) + length frames.now }
{
    for frame in frames {
        up.put(*frame);
    }
}

/// Answers these indications, in order.
fn answer_all<A: Allocator + Copy + Drop>(
    indications: &[signals::Indication],
    answer: &mut Vec<LinkIndication, A>,
)
    requires { vec_len answer.old + length indications.now ≤ vec_capacity answer.old }
    ensures { answer.new.items ≡ answer.old.items ++ map LinkIndication.Fop indications.now }
{
    for indication in indications {
        answer.push_reserved(LinkIndication::Fop(*indication));
    }
}

/// Whether a directive begins a session.
fn begins_session(directive: &Directive) -> bool
    ensures { result ≡ is_initiation directive.now }
{
    match *directive {
        Directive::InitiateNone
        | Directive::InitiateCheck
        | Directive::InitiateUnlock
        | Directive::InitiateSetVr(_) => true,
        Directive::Terminate
        | Directive::SetVs(_)
        | Directive::SetK(_)
        | Directive::SetT1(_)
        | Directive::SetLimit(_) => false,
    }
}

impl<U: Carrier<Frame>, A: Allocator + Copy + Drop> FopSide<U, A> {
    /// Takes the memory of one call of the FOP: what it needs itself, and room on the uplink, in the newest session, for
    /// the marks and for the answer, whose empty list it gives. What is in flight, written down and marked stays.
    pub(crate) fn reserve(&mut self, alloc: A) -> Result<Vec<LinkIndication, A>, AllocError>
        ensures machine { self.new.fop.machine ≡ self.old.fop.machine }
        ensures readied { IsReadied U.kind self.old.up self.new.up }
        ensures content { U.kind.content self.new.up ≡ U.kind.content self.old.up }
        ensures log { self.new.newest.log ≡ self.old.newest.log }
        ensures marks { (requests : List ℕ) → AreMarked requests self.old.marks.items → AreMarked requests self.new.marks.items }
        ensures ready { OnOk result (self.new.fop.ready ≡ true) }
        ensures room { OnOk result (HasRoom U.covered self.new) }
        ensures answer { IfOk result (λ answer. (answer.items ≡ []) × (258 ≤ vec_capacity answer)) }
    {
        self.fop.reserve()?;
        self.up.reserve(MOST_FRAMES)?;
        self.newest.reserve_notes()?;
        reserve_marks(&mut self.marks)?;
        Vec::with_capacity(alloc, MOST_INDICATIONS_AN_EVENT)
    }

    /// Puts the frames of an output on the uplink, writes its indications down, and appends them to the answer.
    fn carry(&mut self, out: &Output<A>, answer: Vec<LinkIndication, A>) -> Vec<LinkIndication, A>
        requires room { HasRoom U.covered self.old }
        requires answer { vec_len answer + 257 ≤ vec_capacity answer }
        ensures machine { self.new.fop.machine ≡ self.old.fop.machine }
        ensures within { WritesWithin U.kind self.old self.new }
        ensures frames { PutsAll U.kind self.old.up out.now.frames self.new.up }
        ensures log { self.new.newest.log ≡ noted out.now self.old.newest.log }
        ensures answer { result.items ≡ answer.items ++ told_by_fop out.now }
        ensures indications { length result.items ≤ length answer.items + 257 }
    {
        let mut answer = answer;
        put_all(&mut self.up, out.frames());
        answer_all(out.indications(), &mut answer);
        self.newest.note(out);
        mark_sent(&mut self.marks, out.indications());
        answer
    }

    /// Passes a control word, read on channel `vc`, to the FOP; everything was reserved.
    pub(crate) fn pass_word(
        &mut self,
        vc: u8,
        word: u32,
        answer: Vec<LinkIndication, A>,
    ) -> Vec<LinkIndication, A>
        requires ready { self.old.fop.ready ≡ true }
        requires room { HasRoom U.covered self.old }
        requires answer { (answer.items ≡ []) × (258 ≤ vec_capacity answer) }
        ensures within { WritesWithin U.kind self.old self.new }
        ensures heard { Passes U.kind vc word self.old self.new result.items }
        ensures indications { length result.items ≤ 258 }
        ensures sound { IsFop self.new.fop.machine }
    {
        let mut answer = answer;
        answer.push_reserved(LinkIndication::Received(Report::Word(word)));
        let out = self.fop.clcw_reserved(Clcw::read(word, vc));
        self.carry(&out, answer)
    }
}

impl<U: Carrier<Frame>, D: Carrier<Report>, A: Allocator + Copy + Drop> LinkParts<U, D, A> {
    /// Whether a request waits, or was sent in some session.
    fn knows(&self, request: RequestNumber) -> bool
        ensures { result ≡ is_known request self.now }
    {
        if is_marked(&self.side.marks, request) {
            return true;
        }
        self.side.fop.is_waiting(request)
    }

    /// Offers a request. One that waits or was sent in any session is refused `WrongPlace`; else the FOP refuses it, or
    /// memory is refused.
    pub(crate) fn offer(
        &mut self,
        request: RequestNumber,
        body: Payload,
    ) -> Result<Indications<A>, Refusal>
        ensures happens { IfOk result (λ answer. Happens U.kind D.kind (Event.Offer request body) self.old self.new answer) }
        ensures limits { EndsWithin U.kind D.kind D.covered (Event.Offer request body) self.old self.new result }
    {
        if self.knows(request) {
            return Err(Refusal::WrongPlace);
        }
        if let Some(refusal) = self.side.fop.offer_refusal() {
            return Err(refusal);
        }
        if !self.side.fop.may_transmit() {
            return Ok(self.hold(request, body));
        }
        self.pass_offer(request, body)
    }

    /// An offer that is not refused, where the window is closed: the request waits, and nothing is told.
    fn hold(&mut self, request: RequestNumber, body: Payload) -> Indications<A>
        requires taken { IsTaken request body self.old }
        requires closed { is_window_open self.old.fop ≡ false }
        ensures happens { Happens U.kind D.kind (Event.Offer request body) self.old self.new result }
        ensures limits { EndsWithin U.kind D.kind D.covered (Event.Offer request body) self.old self.new (Ok result) }
    {
        self.side.fop.hold(request, body);
        Indications::none(self.alloc)
    }

    /// An offer that is not refused, where the window is open.
    fn pass_offer(
        &mut self,
        request: RequestNumber,
        body: Payload,
    ) -> Result<Indications<A>, Refusal>
        requires taken { IsTaken request body self.old }
        requires opened { is_window_open self.old.fop ≡ true }
        ensures happens { IfOk result (λ answer. Happens U.kind D.kind (Event.Offer request body) self.old self.new answer) }
        ensures limits { EndsWithin U.kind D.kind D.covered (Event.Offer request body) self.old self.new result }
    {
        let answer = self.side.reserve(self.alloc)?;
        let out = self.side.fop.offer_reserved(request, body);
        Ok(Indications::many(self.side.carry(&out, answer)))
    }

    /// One tick of the FOP's timer.
    pub(crate) fn tick(&mut self) -> Result<Indications<A>, Refusal>
        ensures happens { IfOk result (λ answer. Happens U.kind D.kind Event.Tick self.old self.new answer) }
        ensures limits { EndsWithin U.kind D.kind D.covered Event.Tick self.old self.new result }
    {
        if self.side.fop.view().timer == 0 {
            return Ok(Indications::none(self.alloc));
        }
        let answer = self.side.reserve(self.alloc)?;
        let out = self.side.fop.tick_reserved();
        Ok(Indications::many(self.side.carry(&out, answer)))
    }

    /// A directive, and whether K fitted and the last start was level.
    pub(crate) fn directive(&mut self, directive: Directive) -> Result<Indications<A>, Refusal>
        ensures happens { IfOk result (λ answer. Happens U.kind D.kind (Event.Directive directive) self.old self.new answer) }
        ensures limits { EndsWithin U.kind D.kind D.covered (Event.Directive directive) self.old self.new result }
    {
        let level = self.stays_level(&directive);
        let answer = self.carry_out(&directive)?;
        self.fits = self.still_fits();
        self.level = level;
        Ok(answer)
    }

    /// Carries out a directive, as the FOP allows. An accepted initiation ends the newest session and begins another.
    fn carry_out(&mut self, directive: &Directive) -> Result<Indications<A>, Refusal>
        ensures directs { IfOk result (λ answer. (actions : List Action) × (directed self.old.fop directive.now ≡ Ok actions) × Directs U.kind D.kind directive.now actions self.old self.new answer) }
        ensures limits { EndsWithin U.kind D.kind D.covered (Event.Directive directive.now) self.old self.new result }
    {
        if let Some(refusal) = self.side.fop.directive_refusal(directive) {
            return Err(refusal);
        }
        if begins_session(directive) {
            return self.initiate(directive);
        }
        let answer = self.side.reserve(self.alloc)?;
        let out = self.side.fop.directive_reserved(directive);
        Ok(Indications::many(self.side.carry(&out, answer)))
    }

    /// Whether K fitted so far, and is at most half of the FARM's window now.
    fn still_fits(&self) -> bool
        ensures { result ≡ is_still_fitting self.now }
    {
        self.fits && self.side.fop.view().k <= self.farm.view().window / 2
    }

    /// Whether V(S) is V(R), and the FARM has no flag.
    fn is_level(&self) -> bool
        ensures { result ≡ is_level self.now.fop self.now.farm }
    {
        let farm = self.farm.view();
        self.side.fop.view().vs == farm.vr && !farm.lockout && !farm.wait && !farm.retransmit
    }

    /// Whether the last start was level, after this directive: an initiation starts level where nothing is in flight and,
    /// with check or without, both sides agree.
    fn stays_level(&self, directive: &Directive) -> bool
        ensures { result ≡ level_after U.kind D.kind directive.now self.now }
    {
        if !begins_session(directive) {
            return self.level;
        }
        if !self.side.up.is_empty() || !self.down.is_empty() {
            return false;
        }
        if matches!(
            *directive,
            Directive::InitiateUnlock | Directive::InitiateSetVr(_)
        ) {
            return true;
        }
        self.is_level()
    }

    /// Whether every start so far was good, after this initiation: nothing is in flight, and without check both sides
    /// agree.
    fn stays_clean(&self, directive: &Directive) -> bool
        ensures { result ≡ clean_after U.kind D.kind directive.now self.now }
    {
        if !self.clean || !self.side.up.is_empty() || !self.down.is_empty() {
            return false;
        }
        if !matches!(*directive, Directive::InitiateNone) {
            return true;
        }
        self.is_level()
    }

    /// Begins a session.
    fn initiate(&mut self, directive: &Directive) -> Result<Indications<A>, Refusal>
        requires initiation { is_initiation directive.now ≡ true }
        requires taken { IsOk (directed self.old.fop directive.now) }
        ensures begins { IfOk result (λ answer. (actions : List Action) × (directed self.old.fop directive.now ≡ Ok actions) × Begins U.kind D.kind directive.now actions self.old self.new answer) }
        ensures limits { EndsWithin U.kind D.kind D.covered (Event.Directive directive.now) self.old self.new result }
    {
        let clean = self.stays_clean(directive);
        self.past.reserve(1)?;
        let mut session = SessionLog::new(self.alloc, 0);
        session.reserve_notes()?;
        let answer = self.side.reserve(self.alloc)?;
        let output = self.side.fop.directive_reserved(directive);
        session.begin(self.side.fop.view().vs);
        let ended = mem::replace(&mut self.side.newest, session);
        self.past.push_reserved(ended);
        self.clean = clean;
        Ok(Indications::many(self.side.carry(&output, answer)))
    }
}
