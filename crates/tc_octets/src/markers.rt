//! The receiver of telemetry frames behind sync markers, a machine of one octet at a time.
ghost use Rattle.std.specs.Prelude.{◌≡◌, ◌++◌, ◌∷◌, [], ◌+◌, ◌-◌, ◌<◌, ◌≤◌, if◌then◌else◌, length, take, drop};
ghost use Rattle.std.specs.Option.{MatchOption};
ghost use Rattle.tc_octets.specs.Markers.{GoesOn, IsWaiting, after, fits, from_marker, heard, heard_in, is_tm_frame, may_begin, silent};

use crate::profiles::Profile;
use crate::tm_frames::read_tm_frame;
use std::marker::Model;

/// The attached sync marker (CCSDS 131.0-B).
pub const MARKER: [u8; 4] = [0x1a, 0xcf, 0xfc, 0x1d];

/// The octets of a marker.
const MARK: usize = 4;

/// Returns whether the octet at this place is the marker's, or has not come.
fn fits(octets: &[u8], place: usize, mark: u8) -> bool
    ensures { result ≡ fits octets.now place mark }
{
    place >= octets.len() || octets[place] == mark
}

/// Returns whether a marker begins with the first of these octets, as far as they have come.
#[tactic(auto, unfolding(crate::specs::Markers::may_begin))]
fn may_begin(octets: &[u8]) -> bool
    ensures { result ≡ may_begin octets.now }
{
    fits(octets, 0, MARKER[0])
        && fits(octets, 1, MARKER[1])
        && fits(octets, 2, MARKER[2])
        && fits(octets, 3, MARKER[3])
}

/// Returns the first place from this one on where a marker may begin; the end if there is none.
#[tactic(auto, using(crate::proofs::MarkerLemmas::begins_here, crate::proofs::MarkerLemmas::begins_later, crate::proofs::MarkerLemmas::begins_never))]
fn first_place(octets: &[u8], start: usize) -> usize
    requires { start ≤ length octets.now }
    ensures place { drop result octets.now ≡ from_marker (drop start octets.now) }
    ensures bound { result ≤ length octets.now }
{
    for at in start..octets.len() {
        if may_begin(&octets[at..]) {
            return at;
        }
    }
    octets.len()
}

/// Moves the octets from one place to another down to the front.
#[tactic(auto, using(crate::proofs::MarkerLemmas::moved))]
fn move_down(octets: &mut [u8; 2052], at: usize, end: usize)
    requires order { at ≤ end }
    requires bound { end ≤ 2052 }
    ensures { take (end - at) octets.new ≡ drop at (take end octets.old) }
{
    octets.copy_within(at..end, 0);
}

/// Returns whether these octets are a frame of this link.
#[tactic(auto, using(crate::proofs::MarkerFrameLemmas::read_is))]
fn is_frame(profile: &Profile, octets: &[u8]) -> bool
    ensures { result ≡ is_tm_frame profile.now octets.now }
{
    read_tm_frame(profile, octets).is_ok()
}

/// The octets that have come and may belong to a marked frame: a marker and the longest frame at most. A contract sees them.
#[derive(Drop)]
struct Window {
    octets: [u8; 2052],
    length: usize,
}

impl Model for Window {
    ghost use Rattle.std.specs.Prelude.{ℕ, ◌≤◌, List, take};

    ghost Value = { List ℕ };

    ghost view = { λ window. take window.length window.octets };

    ghost invariant = { λ window. window.length ≤ 2052 };
}

impl Window {
    /// Returns a window without octets.
    fn new() -> Window
        ensures { result ≡ [] }
    {
        Window {
            octets: [0; 2052],
            length: 0,
        }
    }

    /// Returns how many octets have come.
    fn len(&self) -> usize
        ensures { result ≡ length self.now }
    {
        self.length
    }

    /// Returns the octets.
    fn octets(&self) -> &[u8]
        ensures { result.now ≡ self.now }
    {
        &self.octets[..self.length]
    }

    /// Adds an octet.
    fn add(&mut self, octet: u8)
        requires { length self.old < 2052 }
        ensures { self.new ≡ self.old ++ octet ∷ [] }
    {
        self.octets[self.length] = octet;
        self.length += 1;
    }

    /// Lets the octets go if they are a frame that was given out.
    fn begin(&mut self, whole: bool)
        ensures { self.new ≡ (heard_in whole self.old).waits }
    {
        if whole {
            self.length = 0;
        }
    }

    /// Lets go of what can't belong to a marked frame: all before the first place from this one on where a marker may begin.
    fn align(&mut self, start: usize)
        requires { start ≤ length self.old }
        ensures { self.new ≡ from_marker (drop start self.old) }
    {
        let at = first_place(&self.octets[..self.length], start);
        move_down(&mut self.octets, at, self.length);
        self.length -= at;
    }

    /// Takes the next octet. Returns whether it is the last of a frame after a marker.
    #[tactic(auto, using(crate::proofs::MarkerLemmas::few_taken, crate::proofs::MarkerLemmas::more_taken, crate::proofs::MarkerLemmas::frame_taken, crate::proofs::MarkerLemmas::fault_taken))]
    fn take(&mut self, profile: &Profile, octet: u8) -> bool
        requires { IsWaiting profile.now self.old }
        ensures taken { heard_in result self.new ≡ heard profile.now 0 (self.old ++ octet ∷ []) }
        ensures wait { IsWaiting profile.now (heard_in result self.new).waits }
        ensures whole { (if result then 4 else 0) ≤ length self.new }
    {
        let whole = usize::from(profile.tm.length) + MARK;
        self.add(octet);
        if self.len() <= MARK {
            self.align(0);
            return false;
        }
        if self.len() < whole {
            return false;
        }
        if is_frame(profile, &self.octets()[MARK..]) {
            return true;
        }
        self.align(1);
        false
    }
}

/// The receiver of a stream of telemetry frames, each after an attached sync marker (CCSDS 131.0-B). It is given the octets that come, one after the
/// other, in whatever pieces. It keeps a marker and a frame at most, and takes no memory. A contract sees its profile and what the last octet
/// brought.
#[derive(Drop)]
pub struct MarkerReader {
    profile: Profile,
    window: Window,
    whole: bool,
}

impl Model for MarkerReader {
    ghost use Rattle.std.specs.Prelude.{◌≤◌, if◌then◌else◌, length};
    ghost use Rattle.tc_octets.specs.Markers.{Listener, IsWaiting, heard_in};

    ghost Value = { Listener };

    ghost view = { λ reader. record { profile = reader.profile; last = heard_in reader.whole reader.window } };

    ghost invariant = { λ reader. IsWaiting reader.profile (heard_in reader.whole reader.window).waits
        × ((if reader.whole then 4 else 0) ≤ length reader.window) };
}

impl MarkerReader {
    /// Returns a receiver that has seen nothing.
    pub fn new(profile: Profile) -> MarkerReader
        ensures { result ≡ silent profile }
    {
        MarkerReader {
            profile,
            window: Window::new(),
            whole: false,
        }
    }

    /// Takes the next octet. If it is the last of a frame after a marker, `frame` gives that frame until the next octet comes.
    #[tactic(auto, using(crate::proofs::MarkerLawLemmas::goes_on, crate::proofs::MarkerLawLemmas::few_after))]
    pub fn octet(&mut self, octet: u8)
        ensures value { self.new ≡ after self.old octet }
        ensures stream { GoesOn self.old self.new octet }
        ensures few { length self.new.last.waits < self.new.profile.tm.length + 4 }
    {
        self.window.begin(self.whole);
        self.whole = self.window.take(&self.profile, octet);
    }

    /// Returns the frame that ended with the last octet. `None` if none did.
    pub fn frame(&self) -> Option<&[u8]>
        ensures { MatchOption result (self.now.last.frames ≡ []) (λ frame. self.now.last.frames ≡ frame.now ∷ []) }
    {
        if !self.whole {
            return None;
        }
        Some(&self.window.octets()[MARK..])
    }
}
