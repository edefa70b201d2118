//! The FOP of one virtual channel.
ghost use Rattle.std.specs.Prelude.{◌≡◌, ◌≢◌, ◌↔◌, ◌⊎◌, ◌==◌, true, false, is_some, IfSome, IfNone, IfOk, IfErr, IsOk, OnOk, Some, Ok, Err};
ghost use Rattle.std.specs.List.{list_any};
ghost use Rattle.tc_fop.specs.Machine.{Waiting, nothing, is_window_open};
ghost use Rattle.tc_fop.specs.Rows.{row_of};
ghost use Rattle.tc_fop.specs.Cells.{is_ignored};
ghost use Rattle.tc_fop.specs.Calls.{new_machine, offered, directed, reported, ticked};
ghost use Rattle.tc_fop.specs.Standing.{IsFop};
ghost use Rattle.tc_fop.specs.Requests.{waiting_requests};
ghost use Rattle.tc_fop.specs.Views.{FopModel, MayAnswer, Responds, view_of};

use crate::outputs::{Blank, Output};
use crate::queues::Offer;
use crate::signals::FopState;
use crate::variables::Variables;
use crate::views::FopView;
use std::alloc::{AllocError, Allocator};
use std::marker::Model;
use tc_farm::Clcw;
use tc_types::{Directive, Payload, Refusal, RequestNumber};

/// FOP-1. A contract sees its machine, and whether the memory of the next call was taken.
#[derive(Drop)]
pub struct Fop<A: Allocator + Copy + Drop> {
    alloc: A,
    variables: Variables<A>,
    spare: Option<Blank<A>>,
}

impl<A: Allocator + Copy + Drop> Model for Fop<A> {
    ghost Value = { FopModel };

    ghost view = { λ f. record { machine = f.variables; ready = is_some f.spare } };

    ghost invariant = { λ f. IsFop f.variables };
}

impl<A: Allocator + Copy + Drop> Fop<A> {
    /// S6, with the window width `k`, T1_Initial in ticks, and the Transmission_Limit. `BadDirective` where one of
    /// them is 0, else `Memory` where memory is refused.
    pub fn new(alloc: A, k: u8, t1: u16, limit: u8) -> Result<Fop<A>, Refusal>
        ensures ok { IfOk result (λ fop. fop.machine ≡ new_machine k t1 limit) }
        ensures fop { IfOk result (λ fop. IsFop fop.machine) }
        ensures bad { (result ≡ Err Refusal.BadDirective) ↔ ((k ≡ 0) ⊎ (t1 ≡ 0) ⊎ (limit ≡ 0)) }
        ensures memory { IfErr result (λ e. e ≢ Refusal.BadDirective → e ≡ Refusal.Memory) }
    {
        if k == 0 || t1 == 0 || limit == 0 {
            return Err(Refusal::BadDirective);
        }
        Ok(Fop {
            alloc,
            variables: Variables::new(alloc, k, t1, limit)?,
            spare: None,
        })
    }

    /// Takes the memory of the next call that is not refused. The machine is as before either way.
    pub fn reserve(&mut self) -> Result<(), AllocError>
        ensures machine { self.new.machine ≡ self.old.machine }
        ensures ready { OnOk result (self.new.ready ≡ true) }
        ensures kept { IfErr result (λ e. self.new.ready ≡ self.old.ready) }
        ensures already { self.old.ready ≡ true → IsOk result }
        ensures fop { IsFop self.new.machine }
    {
        if self.spare.is_none() {
            self.spare = Some(Blank::new(self.alloc)?);
        }
        Ok(())
    }

    /// The empty output that `reserve` took.
    fn take_spare(&mut self) -> Blank<A>
        requires ready { self.old.ready ≡ true }
        ensures machine { self.new.machine ≡ self.old.machine }
        ensures fop { IsFop self.old.machine }
    {
        match self.spare.take() {
            Some(blank) => blank,
            None => unreachable!(), // `ready` says that there is one
        }
    }

    /// How an offer would be refused now, whatever the request: `ServiceNotActive` where the link takes no requests,
    /// else `WaitQueueFull` where one waits. It takes no memory.
    pub fn offer_refusal(&self) -> Option<Refusal>
        ensures refused { IfSome result (λ e. (waiting : Waiting) → offered self.now.machine waiting ≡ Err e) }
        ensures taken { IfNone result ((waiting : Waiting) → IsOk (offered self.now.machine waiting)) }
        ensures memory { result ≢ Some Refusal.Memory }
        ensures fop { IsFop self.now.machine }
    {
        match self.variables.state() {
            FopState::Active | FopState::RetransmitWithoutWait | FopState::RetransmitWithWait => {
                if self.variables.has_waiting() {
                    Some(Refusal::WaitQueueFull)
                } else {
                    None
                }
            }
            FopState::InitialisingWithoutBc | FopState::InitialisingWithBc | FopState::Initial =>
                Some(Refusal::ServiceNotActive),
        }
    }

    /// How a directive would be refused now: `BadDirective` where it cannot be carried out now or its number is 0. It
    /// takes no memory.
    pub fn directive_refusal(&self, directive: &Directive) -> Option<Refusal>
        ensures refused { IfSome result (λ e. directed self.now.machine directive.now ≡ Err e) }
        ensures taken { IfNone result (IsOk (directed self.now.machine directive.now)) }
        ensures memory { result ≢ Some Refusal.Memory }
        ensures fop { IsFop self.now.machine }
    {
        if self.variables.allows(directive) {
            None
        } else {
            Some(Refusal::BadDirective)
        }
    }

    /// Whether this request waits for its first transmission. It takes no memory.
    pub fn is_waiting(&self, request: RequestNumber) -> bool
        ensures { result ≡ list_any (λ n. n == request) (waiting_requests self.now.machine) }
    {
        self.variables.is_waiting(request)
    }

    /// Whether the window is open: fewer than K frames are out. It takes no memory.
    pub fn may_transmit(&self) -> bool
        ensures { result ≡ is_window_open self.now.machine }
    {
        self.variables.may_transmit()
    }

    /// Offers a request. `ServiceNotActive` but in S1 to S3, else `WaitQueueFull` where one waits, else `Memory`; an
    /// error changes nothing.
    pub fn offer(&mut self, request: RequestNumber, body: Payload) -> Result<Output<A>, Refusal>
        ensures responds { Responds (offered self.old.machine (record { request = request; body = body })) self.old self.new result }
        // an offer that waits takes no memory
        ensures spared { is_window_open self.old.machine ≡ false → IfErr result (λ e. e ≢ Refusal.Memory) }
    {
        if let Some(refusal) = self.offer_refusal() {
            return Err(refusal);
        }
        if !self.may_transmit() {
            self.hold(request, body);
            return Ok(Output::silent());
        }
        self.reserve()?;
        Ok(self.offer_reserved(request, body))
    }

    /// The same where it is known that the offer is not refused, and the window is closed: the request waits, and nothing
    /// is put out. It takes no memory.
    pub fn hold(&mut self, request: RequestNumber, body: Payload)
        requires taken { IsOk (offered self.old.machine (record { request = request; body = body })) }
        requires closed { is_window_open self.old.machine ≡ false }
        ensures { Responds (offered self.old.machine (record { request = request; body = body })) self.old self.new (Ok nothing) }
    {
        self.variables.accept_only(Offer { request, body });
    }

    /// The same where it is known that the offer is not refused, and its memory was taken by `reserve`.
    pub fn offer_reserved(&mut self, request: RequestNumber, body: Payload) -> Output<A>
        requires { MayAnswer (offered self.old.machine (record { request = request; body = body })) self.old }
        ensures { Responds (offered self.old.machine (record { request = request; body = body })) self.old self.new (Ok result) }
    {
        let blank = self.take_spare();
        Output::of(self.variables.offer(Offer { request, body }, blank))
    }

    /// Carries out a directive. `BadDirective` where it cannot be carried out now or its number is 0, else `Memory`;
    /// an error changes nothing.
    pub fn directive(&mut self, directive: Directive) -> Result<Output<A>, Refusal>
        ensures { Responds (directed self.old.machine directive) self.old self.new result }
    {
        if let Some(refusal) = self.directive_refusal(&directive) {
            return Err(refusal);
        }
        self.reserve()?;
        Ok(self.directive_reserved(&directive))
    }

    /// The same where it is known that the directive is not refused, and its memory was taken by `reserve`.
    pub fn directive_reserved(&mut self, directive: &Directive) -> Output<A>
        requires { MayAnswer (directed self.old.machine directive.now) self.old }
        ensures { Responds (directed self.old.machine directive.now) self.old self.new (Ok result) }
    {
        let blank = self.take_spare();
        Output::of(self.variables.carry_out(directive, blank))
    }

    /// A control word, or `None` for one that is not valid. `Memory` changes nothing.
    pub fn clcw(&mut self, word: Option<Clcw>) -> Result<Output<A>, Refusal>
        ensures responds { Responds (reported self.old.machine word) self.old self.new result }
        // a word that is ignored takes no memory
        ensures spared { is_ignored (row_of self.old.machine word) self.old.machine.state ≡ true → IfErr result (λ e. e ≢ Refusal.Memory) }
    {
        if self.variables.ignores(word) {
            return Ok(Output::silent());
        }
        self.reserve()?;
        Ok(self.clcw_reserved(word))
    }

    /// The same where its memory was taken by `reserve`.
    pub fn clcw_reserved(&mut self, word: Option<Clcw>) -> Output<A>
        requires ready { self.old.ready ≡ true }
        ensures { Responds (reported self.old.machine word) self.old self.new (Ok result) }
    {
        let blank = self.take_spare();
        Output::of(self.variables.clcw(word, blank))
    }

    /// One tick of the timer. `Memory` changes nothing.
    pub fn tick(&mut self) -> Result<Output<A>, Refusal>
        ensures { Responds (ticked self.old.machine) self.old self.new result }
    {
        self.reserve()?;
        Ok(self.tick_reserved())
    }

    /// The same where its memory was taken by `reserve`.
    pub fn tick_reserved(&mut self) -> Output<A>
        requires ready { self.old.ready ≡ true }
        ensures { Responds (ticked self.old.machine) self.old self.new (Ok result) }
    {
        let blank = self.take_spare();
        Output::of(self.variables.tick(blank))
    }

    /// What a status line prints. It takes no memory.
    pub fn view(&self) -> FopView
        ensures view { result ≡ view_of self.now.machine }
        ensures fop { IsFop self.now.machine }
    {
        self.variables.view()
    }
}
