//! The variables of FOP-1 (CCSDS 232.1-B, 5.1) and the actions on them. A method knows what stands between calls once it
//! has read a field; some read one for that alone.
ghost use Rattle.std.specs.Prelude.{◌≡◌, ◌+◌, ◌<◌, ◌≤◌, ◌==◌, nat_lt, [], ◌∷◌, length, map, option_map, true, false, None, Some, IfOk, is_some, IsOk, IsTrue, ◌↔◌, if◌then◌else◌};
ghost use Rattle.std.specs.List.{list_any};
ghost use Rattle.tc_fop.specs.Machine.{Machine, CancelTimer, InitiateRetransmission, Resend, Transmit, Remove, Alert, StartTimer, LowerTimer, CountOne, SendControl, DropControl, Begin, To, Wait, Initiate, SetVsAlone, SetVsAndNn, SetKTo, SetT1To, SetLimitTo, joined, nothing, is_window_open, change, said, transmitted, transmits};
ghost use Rattle.tc_fop.specs.Rows.{row_of};
ghost use Rattle.tc_fop.specs.Calls.{new_machine, offered, is_taking, is_initial};
ghost use Rattle.tc_fop.specs.Cells.{look};
ghost use Rattle.tc_fop.specs.Standing.{IsFop, is_starting, has_control};
ghost use Rattle.tc_fop.specs.Queued.{held_of, waiting_of};
ghost use Rattle.tc_fop.specs.Requests.{waiting_requests};
ghost use Rattle.tc_fop.specs.Views.{Acts, Becomes, Carried, Fits, HasRoom, MayRemove, view_of};

use crate::fop_rows::FopRow;
use crate::outputs::OutputDraft;
use crate::queues::{Offer, Outstanding, confirm_front, doubt_all, send_again};
use crate::signals::{AlertKind, FopState, Indication};
use crate::slots::SentSlots;
use crate::views::FopView;
use std::alloc::{AllocError, Allocator};
use std::marker::Model;
use tc_farm::Clcw;
use tc_types::{Frame, RequestNumber};

/// The variables of FOP-1. A contract sees the machine that they are. The memory of the Sent_Queue is taken by `new`.
#[derive(Drop)]
pub(crate) struct Variables<A: Allocator + Copy + Drop> {
    state: FopState,
    vs: u8,
    nn: u8,
    sent: SentSlots<A>,
    waiting: Option<Offer>,
    control: Option<Frame>,
    t1: u16,
    timer: u16,
    limit: u8,
    count: u8,
    k: u8,
}

impl<A: Allocator + Copy + Drop> Model for Variables<A> {
    ghost Value = { Machine };

    ghost view = { λ v. record {
      state = v.state;
      vs = v.vs;
      nn = v.nn;
      sent = map held_of v.sent;
      waiting = option_map waiting_of v.waiting;
      control = v.control;
      t1 = v.t1;
      timer = v.timer;
      limit = v.limit;
      count = v.count;
      k = v.k;
    } };

    ghost invariant = { λ v. IsFop (record {
      state = v.state;
      vs = v.vs;
      nn = v.nn;
      sent = map held_of v.sent;
      waiting = option_map waiting_of v.waiting;
      control = v.control;
      t1 = v.t1;
      timer = v.timer;
      limit = v.limit;
      count = v.count;
      k = v.k;
    }) };
}

impl<A: Allocator + Copy + Drop> Variables<A> {
    /// S6 with these settings. It takes the room of the Sent_Queue.
    pub(crate) fn new(alloc: A, k: u8, t1: u16, limit: u8) -> Result<Self, AllocError>
        requires k { 0 < k }
        requires t1 { 0 < t1 }
        requires limit { 0 < limit }
        ensures ok { IfOk result (λ v. v ≡ new_machine k t1 limit) }
        ensures fop { IfOk result (λ v. IsFop v) }
    {
        let sent = SentSlots::new(alloc)?;
        Ok(Variables {
            state: FopState::Initial,
            vs: 0,
            nn: 0,
            sent,
            waiting: None,
            control: None,
            t1,
            timer: 0,
            limit,
            count: 1,
            k,
        })
    }

    /// The state.
    pub(crate) fn state(&self) -> FopState
        ensures state { result ≡ self.now.state }
        ensures fop { IsFop self.now }
    {
        self.state
    }

    /// Whether a request waits.
    pub(crate) fn has_waiting(&self) -> bool
        ensures { result ≡ is_some self.now.waiting }
    {
        self.waiting.is_some()
    }

    /// Whether this request waits.
    pub(crate) fn is_waiting(&self, request: RequestNumber) -> bool
        ensures { result ≡ list_any (λ n. n == request) (waiting_requests self.now) }
    {
        match self.waiting {
            Some(offer) => offer.request == request,
            None => false,
        }
    }

    /// Whether one more transmission may be counted.
    pub(crate) fn is_below_limit(&self) -> bool
        ensures { IsTrue result ↔ (self.now.count < self.now.limit) }
    {
        self.limit > self.count
    }

    /// The ticks that are left; 0 is not running.
    pub(crate) fn timer(&self) -> u16
        ensures timer { result ≡ self.now.timer }
        ensures fop { IsFop self.now }
    {
        self.timer
    }

    /// Whether one more may be transmitted.
    pub(crate) fn may_transmit(&self) -> bool
        ensures { result ≡ is_window_open self.now }
    {
        self.vs.wrapping_sub(self.nn) < self.k
    }

    /// What a status line prints.
    pub(crate) fn view(&self) -> FopView
        ensures { result ≡ view_of self.now }
    {
        FopView {
            state: self.state,
            vs: self.vs,
            nn: self.nn,
            sent: self.sent.len(),
            waiting: if self.waiting.is_some() { 1 } else { 0 },
            count: self.count,
            timer: self.timer,
            k: self.k,
            t1: self.t1,
            limit: self.limit,
        }
    }

    /// The row of a control word.
    pub(crate) fn row(&self, word: Option<Clcw>) -> FopRow
        ensures row { result ≡ row_of self.now word }
        ensures fits { is_taking self.now.state ≡ true → Fits result self.now }
    {
        let nn = self.nn; // read here: both returns that follow need what stands between calls
        let Some(word) = word else {
            return FopRow::P16;
        };
        if word.lockout {
            return FopRow::P15;
        }
        let acknowledged = word.report.wrapping_sub(nn);
        let out = self.vs.wrapping_sub(nn);
        if acknowledged > out {
            FopRow::P14
        } else if acknowledged == out {
            match (word.retransmit, word.wait) {
                (true, _) => FopRow::P4,
                (false, true) => FopRow::P3,
                (false, false) if acknowledged == 0 => FopRow::P1,
                (false, false) => FopRow::P2(acknowledged),
            }
        } else if !word.retransmit {
            if word.wait {
                FopRow::P7
            } else if acknowledged == 0 {
                FopRow::P5
            } else {
                FopRow::P6(acknowledged)
            }
        } else {
            self.row_of_missing(word.wait, acknowledged)
        }
    }

    /// The row where a frame is missing.
    fn row_of_missing(&self, wait: bool, acknowledged: u8) -> FopRow
        ensures { result ≡ (if self.now.limit == 1 then FopRow.P8 acknowledged else if nat_lt 0 acknowledged then (if wait then FopRow.P10 acknowledged else FopRow.P9 acknowledged) else if wait then FopRow.P12 else if nat_lt self.now.count self.now.limit then FopRow.P11 else FopRow.P13) }
    {
        if self.limit == 1 {
            FopRow::P8(acknowledged)
        } else if acknowledged > 0 {
            if wait {
                FopRow::P10(acknowledged)
            } else {
                FopRow::P9(acknowledged)
            }
        } else if wait {
            FopRow::P12
        } else if self.count < self.limit {
            FopRow::P11
        } else {
            FopRow::P13
        }
    }

    /// To another of S1 to S3.
    pub(crate) fn enter(&mut self, state: FopState)
        requires from { is_taking self.old.state ≡ true }
        requires to { is_taking state ≡ true }
        ensures machine { Becomes (To state ∷ []) self.old self.new }
    {
        self.state = state;
    }

    /// The timer stops.
    pub(crate) fn cancel_timer(&mut self)
        ensures machine { Becomes (CancelTimer ∷ []) self.old self.new }
    {
        self.timer = 0;
    }

    /// One tick less.
    pub(crate) fn lower_timer(&mut self)
        requires { 0 < self.old.timer }
        ensures machine { Becomes (LowerTimer ∷ []) self.old self.new }
    {
        self.timer -= 1;
    }

    /// The acknowledged requests leave the front of the Sent_Queue.
    #[tactic(auto, using(crate::proofs::QueueLemmas::queues))]
    pub(crate) fn remove(&mut self, acknowledged: u8, out: &mut OutputDraft<A>)
        requires there { MayRemove acknowledged self.old }
        requires room { length out.old.indications + acknowledged ≤ 257 }
        ensures { Acts (Remove acknowledged ∷ []) (said (Remove acknowledged) self.old) self.old self.new out.old out.new }
    {
        confirm_front(&mut self.sent, acknowledged, out);
        self.nn = self.nn.wrapping_add(acknowledged);
        self.count = 1; // what is left counts anew
    }

    /// Sends all that is out again, counts it, and starts the timer.
    #[tactic(auto, using(crate::proofs::QueueLemmas::queues))]
    pub(crate) fn retransmit(&mut self, out: &mut OutputDraft<A>)
        requires taking { is_taking self.old.state ≡ true }
        requires counted { self.old.count < 255 }
        requires room { length out.old.frames + length self.old.sent ≤ 256 }
        ensures acts { Acts (InitiateRetransmission ∷ Resend ∷ []) (said Resend (change InitiateRetransmission self.old)) self.old self.new out.old out.new }
        ensures frames { length out.new.frames ≡ length out.old.frames + length self.old.sent }
    {
        send_again(&self.sent, out);
        self.count += 1;
        self.timer = self.t1;
    }

    /// The first transmission of a request, under the next number.
    #[tactic(auto, using(crate::proofs::QueueLemmas::queues))]
    fn send_first(&mut self, offer: &Offer, out: &mut OutputDraft<A>)
        requires taking { is_taking self.old.state ≡ true }
        requires few { length self.old.sent < 255 }
        requires room { HasRoom out.old }
        ensures machine { self.new ≡ transmitted (Some (waiting_of offer.now)) self.old }
        ensures fop { IsFop self.new }
        ensures out { out.new ≡ joined out.old (transmits (Some (waiting_of offer.now)) self.old.vs) }
    {
        let ns = self.vs;
        if self.sent.is_empty() {
            self.count = 1;
        }
        self.sent.push(&Outstanding {
            ns,
            request: offer.request,
            body: offer.body,
        });
        self.vs = ns.wrapping_add(1);
        self.waiting = None;
        self.timer = self.t1;
        out.send(Frame::Ad {
            ns,
            request: offer.request,
            body: offer.body,
        });
        out.indicate(Indication::Sent(offer.request));
    }

    /// Transmits the waiting request, if there is one and the window is open.
    pub(crate) fn transmit(&mut self, out: &mut OutputDraft<A>)
        requires { HasRoom out.old }
        ensures { Acts (Transmit ∷ []) (said Transmit self.old) self.old self.new out.old out.new }
    {
        let outstanding = self.vs.wrapping_sub(self.nn);
        if outstanding < self.k {
            if let Some(offer) = self.waiting {
                self.send_first(&offer, out);
            }
        }
    }

    /// Transmits where nothing is to be sent again.
    #[tactic(auto, using(crate::proofs::QueueLemmas::queues))]
    pub(crate) fn look(&mut self, out: &mut OutputDraft<A>)
        requires { HasRoom out.old }
        ensures { Acts look (said Transmit self.old) self.old self.new out.old out.new }
    {
        let _ns = self.vs; // read for what it tells the prover alone
        self.transmit(out);
    }

    /// The service stops: both queues are given back, and the timer and a BC copy go.
    #[tactic(auto, using(crate::proofs::QueueLemmas::queues))]
    pub(crate) fn alert(&mut self, kind: AlertKind, out: &mut OutputDraft<A>)
        requires room { length out.old.indications + length self.old.sent ≤ 255 }
        ensures machine { Becomes (Alert kind ∷ []) self.old self.new }
        ensures out { out.new ≡ joined out.old (said (Alert kind) self.old) }
    {
        doubt_all(&self.sent, out);
        if let Some(offer) = self.waiting.take() {
            out.indicate(Indication::GivenBack(offer.request));
        }
        out.indicate(Indication::Alert(kind));
        self.sent.clear();
        self.control = None;
        self.timer = 0;
        self.state = FopState::Initial;
    }

    /// The service begins after the check or a BC frame.
    pub(crate) fn begin(&mut self, out: &mut OutputDraft<A>)
        requires starting { is_starting self.old.state ≡ true }
        requires room { length out.old.indications < 257 }
        ensures { Acts (CancelTimer ∷ DropControl ∷ To FopState.Active ∷ Begin ∷ []) (said Begin self.old) self.old self.new out.old out.new }
    {
        self.timer = 0;
        self.control = None;
        self.state = FopState::Active;
        out.indicate(Indication::Started);
    }

    /// Sends the BC frame again, counts it, and starts the timer.
    pub(crate) fn repeat_control(&mut self, out: &mut OutputDraft<A>)
        requires state { has_control self.old.state ≡ true }
        requires counted { self.old.count < 255 }
        requires room { length out.old.frames < 256 }
        ensures { Acts (SendControl ∷ CountOne ∷ StartTimer ∷ []) (said SendControl self.old) self.old self.new out.old out.new }
    {
        let Some(frame) = self.control else {
            unreachable!() // in S5 the copy of the BC frame is there
        };
        out.send(frame);
        self.count += 1;
        self.timer = self.t1;
    }

    /// The request waits.
    pub(crate) fn accept(&mut self, offer: Offer)
        requires taking { is_taking self.old.state ≡ true }
        ensures machine { Becomes (Wait (waiting_of offer) ∷ []) self.old self.new }
    {
        self.waiting = Some(offer);
    }

    /// The request waits, and none is transmitted, since the window is closed.
    #[tactic(auto, using(crate::proofs::QueueLemmas::queues))]
    pub(crate) fn accept_only(&mut self, offer: Offer)
        requires taken { IsOk (offered self.old (waiting_of offer)) }
        requires closed { is_window_open self.old ≡ false }
        ensures { Carried (offered self.old (waiting_of offer)) self.old self.new nothing }
    {
        let _state = self.state(); // read for what it tells the prover alone
        self.accept(offer);
    }

    /// The service begins with no check.
    pub(crate) fn begin_at_once(&mut self, out: &mut OutputDraft<A>)
        requires initial { is_initial self.old.state ≡ true }
        requires room { length out.old.indications < 257 }
        ensures { Acts (Initiate None ∷ To FopState.Active ∷ Begin ∷ []) (said Begin self.old) self.old self.new out.old out.new }
    {
        self.count = 1;
        self.nn = self.vs;
        self.state = FopState::Active;
        out.indicate(Indication::Started);
    }

    /// Waits for a control word before the service begins.
    pub(crate) fn await_check(&mut self)
        requires initial { is_initial self.old.state ≡ true }
        ensures machine { Becomes (Initiate None ∷ StartTimer ∷ To FopState.InitialisingWithoutBc ∷ []) self.old self.new }
    {
        self.count = 1;
        self.nn = self.vs;
        self.timer = self.t1;
        self.state = FopState::InitialisingWithoutBc;
    }

    /// Sends a BC frame, and waits for its acknowledgement before the service begins.
    pub(crate) fn command(&mut self, frame: &Frame, out: &mut OutputDraft<A>)
        requires initial { is_initial self.old.state ≡ true }
        requires room { length out.old.frames < 256 }
        ensures { Acts (Initiate (Some frame.now) ∷ SendControl ∷ StartTimer ∷ To FopState.InitialisingWithBc ∷ []) (record { frames = frame.now ∷ []; indications = [] }) self.old self.new out.old out.new }
    {
        self.count = 1;
        self.nn = self.vs;
        self.control = Some(*frame);
        self.timer = self.t1;
        self.state = FopState::InitialisingWithBc;
        out.send(*frame);
    }

    /// V(S) alone.
    pub(crate) fn set_vs(&mut self, vs: u8)
        requires initial { is_initial self.old.state ≡ true }
        ensures machine { Becomes (SetVsAlone vs ∷ []) self.old self.new }
    {
        self.vs = vs;
    }

    /// V(S) and NN(R).
    pub(crate) fn set_both(&mut self, vs: u8)
        requires initial { is_initial self.old.state ≡ true }
        ensures machine { Becomes (SetVsAndNn vs ∷ []) self.old self.new }
    {
        self.vs = vs;
        self.nn = vs;
    }

    /// The FOP sliding window width.
    pub(crate) fn set_k(&mut self, k: u8)
        requires { 0 < k }
        ensures machine { Becomes (SetKTo k ∷ []) self.old self.new }
    {
        self.k = k;
    }

    /// T1_Initial; the timer that runs stays.
    pub(crate) fn set_t1(&mut self, t1: u16)
        requires { 0 < t1 }
        ensures machine { Becomes (SetT1To t1 ∷ []) self.old self.new }
    {
        self.t1 = t1;
    }

    /// The Transmission_Limit.
    pub(crate) fn set_limit(&mut self, limit: u8)
        requires { 0 < limit }
        ensures machine { Becomes (SetLimitTo limit ∷ []) self.old self.new }
    {
        self.limit = limit;
    }
}
