//! What is done at an offer and at a directive (CCSDS 232.1-B, 5.2.2).
ghost use Rattle.std.specs.Prelude.{◌≡◌, IsTrue, IsOk, ◌↔◌};
ghost use Rattle.tc_fop.specs.Calls.{offered, directed, is_initial};
ghost use Rattle.tc_fop.specs.Queued.{waiting_of};
ghost use Rattle.tc_fop.specs.Views.{Carried};

use crate::outputs::{Blank, OutputDraft};
use crate::queues::Offer;
use crate::signals::{AlertKind, FopState};
use crate::variables::Variables;
use std::alloc::Allocator;
use tc_types::{Directive, Frame};

impl<A: Allocator + Copy + Drop> Variables<A> {
    /// A request that waits now, and may be transmitted at once in S1 and S2.
    pub(crate) fn offer(&mut self, offer: Offer, blank: Blank<A>) -> OutputDraft<A>
        requires taken { IsOk (offered self.old (waiting_of offer)) }
        ensures { Carried (offered self.old (waiting_of offer)) self.old self.new result }
    {
        let state = self.state();
        let mut out = blank.open();
        self.accept(offer);
        if matches!(state, FopState::Active | FopState::RetransmitWithoutWait) {
            self.look(&mut out);
        }
        out
    }

    /// Whether the directive can be carried out now.
    pub(crate) fn allows(&self, directive: &Directive) -> bool
        ensures { IsTrue result ↔ IsOk (directed self.now directive.now) }
    {
        let is_initial = matches!(self.state(), FopState::Initial);
        match *directive {
            Directive::InitiateNone
            | Directive::InitiateCheck
            | Directive::InitiateUnlock
            | Directive::InitiateSetVr(_)
            | Directive::SetVs(_) => is_initial,
            Directive::Terminate => true,
            Directive::SetK(k) => k != 0,
            Directive::SetT1(t1) => t1 != 0,
            Directive::SetLimit(limit) => limit != 0,
        }
    }

    /// Carries out a directive that is allowed now.
    pub(crate) fn carry_out(&mut self, directive: &Directive, blank: Blank<A>) -> OutputDraft<A>
        requires allowed { IsOk (directed self.old directive.now) }
        ensures { Carried (directed self.old directive.now) self.old self.new result }
    {
        let state = self.state();
        let mut out = blank.open();
        match *directive {
            Directive::InitiateNone => self.begin_at_once(&mut out),
            Directive::InitiateCheck => self.await_check(),
            Directive::InitiateUnlock => self.command(&Frame::Unlock, &mut out),
            Directive::InitiateSetVr(vr) => {
                self.set_vs(vr);
                self.command(&Frame::SetVr(vr), &mut out);
            }
            Directive::Terminate => {
                if !matches!(state, FopState::Initial) {
                    self.alert(AlertKind::Term, &mut out);
                }
            }
            Directive::SetVs(vs) => self.set_both(vs),
            Directive::SetK(k) => self.set_k(k),
            Directive::SetT1(t1) => self.set_t1(t1),
            Directive::SetLimit(limit) => self.set_limit(limit),
        }
        out
    }
}
