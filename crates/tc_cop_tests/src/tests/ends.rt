//! The two ends of the link as a test sees them. Their methods promise nothing: what a test does with them needs no
//! proof but that of its own loops and indexes.
use std::alloc::Allocator;
use tc_farm::{Clcw, Farm, FarmView, FrameVerdict};
use tc_fop::signals::Indication;
use tc_fop::{Fop, FopView, Output};
use tc_types::{Directive, Frame, Payload, Refusal, RequestNumber};

/// The end on board.
pub trait OnBoard {
    /// A frame came: whether it is accepted as data.
    fn accepts(&mut self, frame: Frame, free_buffer: bool) -> bool;

    /// A buffer became free.
    fn frees(&mut self);

    /// The variables.
    fn variables(&self) -> FarmView;

    /// The control word.
    fn control_word(&self) -> Clcw;

    /// The control word on channel 3 as 32 bits; 0 where there is none.
    fn bits(&self) -> u32;
}

impl OnBoard for Farm {
    fn accepts(&mut self, frame: Frame, free_buffer: bool) -> bool {
        match self.frame(frame, free_buffer) {
            FrameVerdict::Accepted { .. } => true,
            FrameVerdict::Discarded | FrameVerdict::Control => false,
        }
    }

    fn frees(&mut self) {
        self.release();
    }

    fn variables(&self) -> FarmView {
        self.view()
    }

    fn control_word(&self) -> Clcw {
        self.clcw()
    }

    fn bits(&self) -> u32 {
        match self.clcw().on(3) {
            Some(clcw) => clcw.word(),
            None => 0,
        }
    }
}

/// What a call put out.
pub trait PutsOut {
    /// The frames, in order.
    fn sent(&self) -> &[Frame];

    /// The indications, in order.
    fn indicated(&self) -> &[Indication];
}

impl<A: Allocator + Copy + Drop> PutsOut for Output<A> {
    fn sent(&self) -> &[Frame] {
        self.frames()
    }

    fn indicated(&self) -> &[Indication] {
        self.indications()
    }
}

/// The end on the ground.
pub trait OnGround {
    /// What a call puts out.
    type Out: PutsOut + Drop;

    /// Offers a request.
    fn offers(&mut self, request: RequestNumber, body: Payload) -> Result<Self::Out, Refusal>;

    /// Carries out a directive.
    fn carries_out(&mut self, directive: Directive) -> Result<Self::Out, Refusal>;

    /// A control word came.
    fn hears(&mut self, word: Option<Clcw>) -> Result<Self::Out, Refusal>;

    /// One tick of the timer.
    fn ticks(&mut self) -> Result<Self::Out, Refusal>;

    /// Takes the memory of the next call.
    fn reserves(&mut self) -> Result<(), Refusal>;

    /// How an offer would be refused now.
    fn would_refuse(&self) -> Option<Refusal>;

    /// The variables.
    fn variables(&self) -> FopView;
}

impl<A: Allocator + Copy + Drop> OnGround for Fop<A> {
    type Out = Output<A>;

    fn offers(&mut self, request: RequestNumber, body: Payload) -> Result<Output<A>, Refusal> {
        self.offer(request, body)
    }

    fn carries_out(&mut self, directive: Directive) -> Result<Output<A>, Refusal> {
        self.directive(directive)
    }

    fn hears(&mut self, word: Option<Clcw>) -> Result<Output<A>, Refusal> {
        self.clcw(word)
    }

    fn ticks(&mut self) -> Result<Output<A>, Refusal> {
        self.tick()
    }

    fn reserves(&mut self) -> Result<(), Refusal> {
        Ok(self.reserve()?)
    }

    fn would_refuse(&self) -> Option<Refusal> {
        self.offer_refusal()
    }

    fn variables(&self) -> FopView {
        self.view()
    }
}

/// A new FOP, of which nothing is promised here.
pub fn fop<A: Allocator + Copy + Drop>(
    alloc: A,
    k: u8,
    t1: u16,
    limit: u8,
) -> Result<Fop<A>, Refusal> {
    Fop::new(alloc, k, t1, limit)
}

/// How the making of a FOP is refused.
pub fn refusal_to_make<A: Allocator + Copy + Drop>(
    alloc: A,
    k: u8,
    t1: u16,
    limit: u8,
) -> Option<Refusal> {
    fop(alloc, k, t1, limit).err()
}
