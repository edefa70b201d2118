//! The receiver of CLTUs, a machine of one octet at a time.
ghost use Rattle.std.specs.Prelude.{◌≡◌, ◌<◌, ◌≤◌, ◌%◌, [], Some, None, false, length, IfSome};
ghost use Rattle.std.specs.List.{fold};
ghost use Rattle.std.specs.Option.{MatchOption};
ghost use Rattle.tc_octets.specs.CltuRuns.{IdleRestores};
ghost use Rattle.tc_octets.specs.Cltus.{HasNone, after, codeblock_in, come, found_of, fresh, keeping, kept, searching, still, waits, whole_block, within};

use crate::candidates::{Candidate, MOST_INFORMATION, Waiting};
use crate::codeblocks::{CODEBLOCK, INFORMATION, Mode, sent};
use std::marker::Model;

/// The first octet of a start sequence.
const FIRST: u8 = 0xeb;

/// Its second octet.
const SECOND: u8 = 0x90;

/// The place of a receiver: it looks for a start sequence, of which the first octet may just have come; or it is within a CLTU. A contract sees it as
/// a `Place` without information.
#[derive(Drop)]
struct Spot {
    inside: bool,
    begun: bool,
    waiting: Waiting,
}

impl Model for Spot {
    ghost use Rattle.tc_octets.specs.Cltus.{Place, place_of};

    ghost Value = { Place };

    ghost view = { λ spot. place_of spot.inside spot.begun spot.waiting };
}

impl Spot {
    /// Returns the place of a receiver that has seen nothing.
    fn new() -> Spot
        ensures { result ≡ searching false }
    {
        Spot {
            inside: false,
            begun: false,
            waiting: Waiting::new(),
        }
    }

    /// Returns the place of a receiver after a start sequence or a codeblock.
    fn within() -> Spot
        ensures { result ≡ within [] [] }
    {
        Spot {
            inside: true,
            begun: false,
            waiting: Waiting::new(),
        }
    }

    /// Takes the next octet.
    fn take(&mut self, octet: u8)
        requires { waits self.old < 8 }
        ensures { self.new ≡ come self.old octet }
    {
        if self.inside {
            self.waiting.add(octet);
        } else if self.begun && octet == SECOND {
            *self = Spot::within();
        } else {
            self.begun = octet == FIRST;
        }
    }

    /// Returns how many octets of the next block have come.
    fn waits(&self) -> usize
        ensures { result ≡ waits self.now }
    {
        if self.inside { self.waiting.len() } else { 0 }
    }

    /// Returns the block whose octets have all come.
    #[tactic(auto, using(crate::proofs::CltuLemmas::block_waits, crate::proofs::CltuLemmas::block_there))]
    fn block(&self) -> [u8; 8]
        requires { waits self.now ≡ 8 }
        ensures { self.now ≡ within [] result }
    {
        self.waiting.block()
    }
}

/// Returns the codeblock that the next block of a CLTU reads as. `None` if it reads as none, or if 147 came before it.
fn codeblock(information: &Candidate, block: &[u8; 8], mode: Mode) -> Option<[u8; 8]>
    ensures value { result ≡ codeblock_in mode information.now block.now }
    ensures room { IfSome result (λ _. length information.now < 1029) }
{
    if information.len() < MOST_INFORMATION {
        return sent(block, mode);
    }
    None
}

/// Returns the place of a receiver that looked for a start sequence through all octets of a block that failed.
#[tactic(auto, using(crate::proofs::CltuLemmas::looked_few))]
fn looked_through(block: &[u8; 8]) -> Spot
    ensures place { result ≡ fold come (searching false) block.now }
    ensures few { waits result < 8 }
{
    let mut spot = Spot::new();
    for octet in block {
        spot.take(*octet);
    }
    spot
}

/// Takes the next block if its octets have all come. True if it ends the CLTU, whose information then stays as it is.
#[tactic(auto, using(crate::proofs::CltuLemmas::block_found, crate::proofs::CltuLemmas::end_found, crate::proofs::CltuLemmas::none_found))]
fn take_block(mode: Mode, spot: &mut Spot, information: &mut Candidate) -> bool
    requires waits { waits spot.old ≤ 8 }
    requires none { HasNone spot.old information.old }
    requires sevens { length information.old % 7 ≡ 0 }
    requires bound { length information.old ≤ 1029 }
    ensures taken { found_of result information.new spot.new ≡ whole_block mode (keeping information.old spot.old) }
    ensures few { waits spot.new < 8 }
    ensures none { HasNone spot.new (still result information.new) }
    ensures sevens { length information.new % 7 ≡ 0 }
    ensures bound { length information.new ≤ 1029 }
{
    if spot.waits() < CODEBLOCK {
        return false;
    }
    let block = spot.block();
    if let Some(codeblock) = codeblock(information, &block, mode) {
        information.add(&codeblock[..INFORMATION]);
        *spot = Spot::within();
        return false;
    }
    *spot = looked_through(&block);
    true
}

/// The receiver of CLTUs (CCSDS 231.0-B). It is given the octets that come, one after the other, in whatever pieces. It keeps the information of one
/// CLTU and up to 7 octets more, and takes no memory. A contract sees its mode, its place and what the last octet brought.
#[derive(Drop)]
pub struct CltuReader {
    mode: Mode,
    spot: Spot,
    information: Candidate,
    ended: bool,
}

impl Model for CltuReader {
    ghost use Rattle.std.specs.Prelude.{◌≡◌, ◌<◌, ◌≤◌, ◌%◌, length};
    ghost use Rattle.tc_octets.specs.Cltus.{HasNone, Receiver, found_of, still, waits};

    ghost Value = { Receiver };

    ghost view = { λ reader. record { mode = reader.mode; last = found_of reader.ended reader.information reader.spot } };

    ghost invariant = { λ reader. (waits reader.spot < 8) × HasNone reader.spot (still reader.ended reader.information)
        × (length reader.information % 7 ≡ 0) × (length reader.information ≤ 1029) };
}

impl CltuReader {
    /// Returns a receiver that has seen nothing.
    pub fn new(mode: Mode) -> CltuReader
        ensures { result ≡ fresh mode }
    {
        CltuReader {
            mode,
            spot: Spot::new(),
            information: Candidate::new(),
            ended: false,
        }
    }

    /// Takes the next octet. If a CLTU ended with it, `information` gives that of its codeblocks until the next octet comes.
    #[tactic(auto, using(crate::proofs::CltuLemmas::come_keeping, crate::proofs::CltuLemmas::none_come, crate::proofs::CltuLemmas::few_kept, crate::proofs::IdleLemmas::idle_restores), unfolding(crate::specs::Cltus::received))]
    pub fn octet(&mut self, octet: u8)
        ensures taken { self.new ≡ after self.old octet }
        ensures few { waits self.new.last.place < 8 }
        ensures bound { kept self.new.last.place ≤ 1029 }
        ensures idle { IdleRestores self.new }
    {
        self.information.begin(self.ended);
        self.spot.take(octet);
        self.ended = take_block(self.mode, &mut self.spot, &mut self.information);
    }

    /// Returns the information of the CLTU that ended with the last octet, or `None` if none did.
    pub fn information(&self) -> Option<&Candidate>
        ensures { MatchOption result (self.now.last.ended ≡ None) (λ information. self.now.last.ended ≡ Some information.now) }
    {
        if !self.ended {
            return None;
        }
        Some(&self.information)
    }
}
