//! What a call puts out. Its memory is taken before anything changes, so that what follows cannot fail.
ghost use Rattle.std.specs.Prelude.{◌≡◌, ◌+◌, ◌<◌, ◌≤◌, [], ◌∷◌, length, vec_capacity};
ghost use Rattle.tc_fop.specs.Machine.{Out, nothing, joined};
ghost use Rattle.tc_fop.specs.Views.{drawn};

use crate::signals::Indication;
use std::alloc::{AllocError, Allocator};
use std::marker::Model;
use tc_types::Frame;

/// The most frames that one call puts out: 255 again and a new one.
pub const MOST_FRAMES: usize = 256;

/// The most indications that one call puts out: 255 in doubt, one given back, and the alert.
pub const MOST_INDICATIONS_A_CALL: usize = 257;

/// What a call is about to put out, with room for the most.
#[derive(Drop)]
pub(crate) struct OutputDraft<A: Allocator + Copy + Drop> {
    frames: Vec<Frame, A>,
    indications: Vec<Indication, A>,
}

impl<A: Allocator + Copy + Drop> Model for OutputDraft<A> {
    ghost Value = { Out };

    ghost view = { λ o. record { frames = o.frames.items; indications = o.indications.items } };

    ghost invariant = { λ o. (256 ≤ vec_capacity o.frames) × (257 ≤ vec_capacity o.indications) × (length o.frames.items ≤ 256) × (length o.indications.items ≤ 257) };
}

impl<A: Allocator + Copy + Drop> OutputDraft<A> {
    /// One more frame.
    pub(crate) fn send(&mut self, frame: Frame)
        requires room { length self.old.frames < 256 }
        ensures { self.new ≡ joined self.old (record { frames = frame ∷ []; indications = [] }) }
    {
        self.frames.push_reserved(frame);
    }

    /// One more indication.
    pub(crate) fn indicate(&mut self, indication: Indication)
        requires room { length self.old.indications < 257 }
        ensures { self.new ≡ joined self.old (record { frames = []; indications = indication ∷ [] }) }
    {
        self.indications.push_reserved(indication);
    }
}

/// A draft in which nothing is drawn up yet.
#[derive(Drop)]
pub(crate) struct Blank<A: Allocator + Copy + Drop> {
    draft: OutputDraft<A>,
}

impl<A: Allocator + Copy + Drop> Model for Blank<A> {
    ghost Value = { Out };

    ghost view = { λ b. b.draft };

    ghost invariant = { λ b. b.draft ≡ nothing };
}

impl<A: Allocator + Copy + Drop> Blank<A> {
    /// Takes the room for the most.
    pub(crate) fn new(alloc: A) -> Result<Blank<A>, AllocError> {
        let frames = Vec::with_capacity(alloc, MOST_FRAMES)?;
        let indications = Vec::with_capacity(alloc, MOST_INDICATIONS_A_CALL)?;
        Ok(Blank {
            draft: OutputDraft {
                frames,
                indications,
            },
        })
    }

    /// The draft, to be drawn up.
    pub(crate) fn open(self) -> OutputDraft<A>
        ensures { result ≡ nothing }
    {
        self.draft
    }
}

/// What a call puts out: frames for the uplink and indications, each in order. Where there is nothing it takes no memory.
#[derive(Drop)]
pub struct Output<A: Allocator + Copy + Drop> {
    draft: Option<OutputDraft<A>>,
}

impl<A: Allocator + Copy + Drop> Model for Output<A> {
    ghost Value = { Out };

    ghost view = { λ o. drawn o.draft };
}

impl<A: Allocator + Copy + Drop> Output<A> {
    /// Nothing.
    pub(crate) fn silent() -> Output<A>
        ensures { result ≡ nothing }
    {
        Output { draft: None }
    }

    /// What was drawn up.
    pub(crate) fn of(draft: OutputDraft<A>) -> Output<A>
        ensures { result ≡ draft }
    {
        Output { draft: Some(draft) }
    }

    /// The frames, in order: at most 256.
    pub fn frames(&self) -> &[Frame]
        ensures value { result.now ≡ self.now.frames }
        ensures most { length result.now ≤ 256 }
    {
        match &self.draft {
            Some(draft) => draft.frames.as_slice(),
            None => &[],
        }
    }

    /// The indications, in order: at most 257.
    pub fn indications(&self) -> &[Indication]
        ensures value { result.now ≡ self.now.indications }
        ensures most { length result.now ≤ 257 }
    {
        match &self.draft {
            Some(draft) => draft.indications.as_slice(),
            None => &[],
        }
    }
}
