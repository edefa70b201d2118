//! The information of a CLTU, and the octets of its next block.
ghost use Rattle.std.specs.Prelude.{◌≡◌, ◌++◌, ◌∷◌, [], ◌<◌, ◌≤◌, ◌+◌, length};
ghost use Rattle.std.specs.Option.{MatchOption};
ghost use Rattle.tc_octets.specs.Cltus.{HasFrame, IsFrameIn, still, turned_by};

use crate::codeblocks::INFORMATION;
use crate::randomizers::randomize;
use crate::tc_frames::pair_in;
use std::marker::Model;

/// The most octets of information of a CLTU: 147 codeblocks of 7.
pub const MOST_INFORMATION: usize = 1029;

/// The information of the codeblocks of a CLTU (CCSDS 231.0-B): a frame, maybe, and its fill. It has at most 1,029 octets, and takes no memory. A
/// contract sees the octets.
#[derive(Drop)]
pub struct Candidate {
    octets: [u8; 1029],
    count: usize,
}

impl Model for Candidate {
    ghost use Rattle.std.specs.Prelude.{ℕ, ◌≤◌, List, take};

    ghost Value = { List ℕ };

    ghost view = { λ candidate. take candidate.count candidate.octets };

    ghost invariant = { λ candidate. candidate.count ≤ 1029 };
}

impl Candidate {
    /// Returns a candidate without octets.
    pub(crate) fn new() -> Candidate
        ensures { result ≡ [] }
    {
        Candidate {
            octets: [0; 1029],
            count: 0,
        }
    }

    /// Returns how many octets there are.
    pub fn len(&self) -> usize
        ensures number { result ≡ length self.now }
        ensures bound { length self.now ≤ 1029 }
    {
        self.count
    }

    /// Returns the octets.
    pub fn octets(&self) -> &[u8]
        ensures { result.now ≡ self.now }
    {
        &self.octets[..self.count]
    }

    /// Adds the information of a codeblock.
    pub(crate) fn add(&mut self, information: &[u8])
        requires seven { length information.now ≡ 7 }
        requires room { length self.old + 7 ≤ 1029 }
        ensures { self.new ≡ self.old ++ information.now }
    {
        let end = self.count + INFORMATION;
        self.octets[self.count..end].copy_from_slice(information);
        self.count = end;
    }

    /// Lets the octets go if their CLTU ended.
    pub(crate) fn begin(&mut self, ended: bool)
        ensures { self.new ≡ still ended self.old }
    {
        if ended {
            self.count = 0;
        }
    }

    /// Returns a copy with the randomizer undone if the frames of the link are randomized (CCSDS 231.0-B).
    pub fn derandomized(&self, randomizer: bool) -> Candidate
        ensures { result ≡ turned_by randomizer self.now }
    {
        let count = self.count;
        let mut octets = self.octets;
        if randomizer {
            randomize(&mut octets[..count]);
        }
        Candidate { octets, count }
    }

    /// Returns the frame at the front of the octets: as many as its frame length field says (CCSDS 232.0-B, 4.1.2.7), with 0 to 6 octets of fill
    /// after it. `None` if there is none.
    pub fn frame(&self) -> Option<&[u8]>
        ensures { MatchOption result (¬ HasFrame self.now) (λ frame. IsFrameIn self.now frame.now) }
    {
        let octets = self.octets();
        if octets.len() < 5 {
            return None;
        }
        let told = usize::from(pair_in(octets, 2) % 0x400) + 1;
        if told > octets.len() || told + 6 < octets.len() {
            return None;
        }
        Some(&octets[..told])
    }
}

/// The octets of a block that have come, up to eight. A contract sees them.
#[derive(Drop)]
pub(crate) struct Waiting {
    octets: [u8; 8],
    count: usize,
}

impl Model for Waiting {
    ghost use Rattle.std.specs.Prelude.{ℕ, ◌≤◌, List, take};

    ghost Value = { List ℕ };

    ghost view = { λ waiting. take waiting.count waiting.octets };

    ghost invariant = { λ waiting. waiting.count ≤ 8 };
}

impl Waiting {
    /// Returns a block of which no octet has come.
    pub(crate) fn new() -> Waiting
        ensures { result ≡ [] }
    {
        Waiting {
            octets: [0; 8],
            count: 0,
        }
    }

    /// Returns how many octets have come.
    pub(crate) fn len(&self) -> usize
        ensures { result ≡ length self.now }
    {
        self.count
    }

    /// Adds an octet.
    pub(crate) fn add(&mut self, octet: u8)
        requires { length self.old < 8 }
        ensures { self.new ≡ self.old ++ octet ∷ [] }
    {
        self.octets[self.count] = octet;
        self.count += 1;
    }

    /// Returns the block, once all eight have come.
    pub(crate) fn block(&self) -> [u8; 8]
        requires { length self.now ≡ 8 }
        ensures { result ≡ self.now }
    {
        self.octets
    }
}
