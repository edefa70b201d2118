//! The sender of packets over telemetry frames of one virtual channel.
ghost use Rattle.std.specs.Prelude.{◌≡◌, ◌++◌, [], ◌<◌, ◌≤◌, ◌+◌, ◌%◌, ◌^◌, OnErr, OnOk, IfOk, length, map};
ghost use Rattle.std.specs.List.{concat};
ghost use Rattle.tc_octets.specs.TmFrames.{tm_frame_of};
ghost use Rattle.tc_packets.specs.Carriers.{carriers, data_length, fill_of, filled, frame_after, frames_of, idle_frame, later};
ghost use Rattle.tc_packets.specs.Carriers.{octets_of, pointer_in, starts};
ghost use Rattle.tc_packets.specs.LossLaws.{ComesOver};

use crate::space_packets::{FEWEST_PACKET, put_idle_packet};
use std::alloc::{AllocError, Allocator};
use tc_octets::{Profile, TmFrame, tm_frame};

/// The octets of a frame besides its data field and its check: the header and the control word.
const AROUND: usize = 10;

/// The octets of a frame error control field.
const CHECK: usize = 2;

/// The octet that idle data are filled with.
const FILL: u8 = 0x55;

/// The first header pointer of a frame that has idle data alone (CCSDS 132.0-B, 4.1.2.7.6).
const IDLE_DATA: u16 = 2046;

/// The first header pointer of a frame in which no packet starts.
const NO_START: u16 = 2047;

/// The data field status of a frame without its pointer: no flag, and the segment length identifier 11.
const UNSEGMENTED: u16 = 0x1800;

/// Returns the octets of the data field of a frame with a control word.
fn data_length(profile: &Profile) -> usize
    ensures value { result ≡ data_length profile.now }
    ensures least { 20 ≤ result }
    ensures most { result ≤ 2038 }
{
    let check = if profile.tm.fecf { CHECK } else { 0 };
    usize::from(profile.tm.length) - AROUND - check
}

/// Adds packets one after the other, and the places where they start.
#[tactic(auto, using(crate::proofs::SenderLemmas::octets_more, crate::proofs::SenderLemmas::places_more))]
fn put_packets<A: Allocator + Copy + Drop>(
    packets: &[Vec<u8, A>],
    octets: &mut Vec<u8, A>,
    places: &mut Vec<usize, A>,
) -> Result<(), AllocError>
    requires octets { octets.old.items ≡ [] }
    requires places { places.old.items ≡ [] }
    ensures octets { OnOk result (octets.new.items ≡ concat (map octets_of packets.now)) }
    ensures places { OnOk result (places.new.items ≡ starts 0 (map octets_of packets.now)) }
{
    for packet in packets {
        places.push(octets.len())?;
        octets.extend_from_slice(packet)?;
    }
    Ok(())
}

#[tactic(auto, unfolding(crate::specs::Carriers::fill_of))]
/// Adds an idle packet if the octets do not fill the last data field.
fn fill<A: Allocator + Copy + Drop>(
    size: usize,
    octets: &mut Vec<u8, A>,
    places: &mut Vec<usize, A>,
) -> Result<(), AllocError>
    requires least { 7 ≤ size }
    requires most { size ≤ 2048 }
    ensures octets { OnOk result (octets.new.items ≡ octets.old.items ++ concat (fill_of size (length octets.old.items))) }
    ensures places { OnOk result (places.new.items ≡ places.old.items ++ starts (length octets.old.items) (fill_of size (length octets.old.items))) }
{
    let over = octets.len() % size;
    if over == 0 {
        return Ok(());
    }
    let left = size - over;
    let idle = if left < FEWEST_PACKET {
        left + size
    } else {
        left
    };
    places.push(octets.len())?;
    put_idle_packet(octets, idle)
}

/// Packets one after the other, with an idle packet after them if they do not fill the last data field, and the places where these start.
#[derive(Drop)]
struct Joined<A: Allocator + Copy + Drop> {
    octets: Vec<u8, A>,
    places: Vec<usize, A>,
}

/// Joins packets.
fn join<A: Allocator + Copy + Drop>(
    alloc: A,
    size: usize,
    packets: &[Vec<u8, A>],
) -> Result<Joined<A>, AllocError>
    requires least { 7 ≤ size }
    requires most { size ≤ 2048 }
    ensures octets { IfOk result (λ joined. joined.octets.items ≡ concat (filled size (map octets_of packets.now))) }
    ensures places { IfOk result (λ joined. joined.places.items ≡ starts 0 (filled size (map octets_of packets.now))) }
{
    let mut octets = Vec::new(alloc);
    let mut places = Vec::new(alloc);
    put_packets(packets, &mut octets, &mut places)?;
    fill(size, &mut octets, &mut places)?;
    Ok(Joined { octets, places })
}

#[tactic(auto, using(crate::proofs::SenderLemmas::here, crate::proofs::SenderLemmas::before, crate::proofs::SenderLemmas::after))]
/// Returns the first header pointer of the data field of so many octets that begins at a place.
fn pointer_in(places: &[usize], begin: usize, size: usize) -> u16
    requires field { size ≤ 2048 }
    requires room { begin + size < 2 ^ 63 }
    ensures value { result ≡ pointer_in begin size places.now }
    ensures bound { result ≤ 2047 }
{
    for place in places {
        if begin <= *place && *place < begin + size {
            return (*place - begin) as u16;
        }
    }
    NO_START
}

/// Returns a frame count after so many frames.
fn plus(count: u8, frames: usize) -> u8
    requires { frames < 2 ^ 63 }
    ensures { result ≡ (count + frames) % 2 ^ 8 }
{
    ((usize::from(count) + frames) % 256) as u8
}

/// The sender of packets over the frames of one virtual channel (CCSDS 132.0-B, 4.1), the only one of its spacecraft. It keeps both frame counts.
#[derive(Clone, Copy, Debug, PartialEq, Eq)]
pub struct TmSender {
    /// The master channel frame count of the next frame.
    pub master_count: u8,
    /// The virtual channel frame count of the next frame.
    pub channel_count: u8,
}

/// The common parts of the frames of a list: the profile of the link, the sender's counts before it, and the control word.
#[derive(Clone, Copy)]
struct Sending<'a> {
    profile: &'a Profile,
    sender: TmSender,
    word: u32,
    ghost word_fits: { word < 2 ^ 32 },
}

impl Sending<'_> {
    /// Returns the frame after so many others.
    fn frame<A: Allocator + Copy + Drop>(
        &self,
        alloc: A,
        count: usize,
        pointer: u16,
        content: &[u8],
    ) -> Result<Vec<u8, A>, AllocError>
        requires count { count < 2 ^ 63 }
        requires pointer { pointer ≤ 2047 }
        requires content { length content.now ≡ data_length self.now.profile.now }
        ensures { IfOk result (λ frame. octets_of frame
            ≡ tm_frame_of self.now.profile.now (frame_after self.now.profile.now self.now.sender self.now.word count pointer content.now)) }
    {
        let frame = TmFrame {
            vcid: self.profile.tm.vcid,
            master_count: plus(self.sender.master_count, count),
            channel_count: plus(self.sender.channel_count, count),
            status: UNSEGMENTED + pointer,
            data: content,
            word: Some(self.word),
        };
        tm_frame(alloc, self.profile, &frame)
    }

    /// Returns a frame of idle data.
    fn idle<A: Allocator + Copy + Drop>(&self, alloc: A) -> Result<Vec<u8, A>, AllocError>
        ensures { IfOk result (λ frame. octets_of frame
            ≡ tm_frame_of self.now.profile.now (idle_frame self.now.profile.now self.now.sender self.now.word)) }
    {
        let mut content = Vec::new(alloc);
        content.resize(data_length(self.profile), FILL)?;
        self.frame(alloc, 0, IDLE_DATA, &content)
    }

    /// Returns the frames that joined packets fill.
    #[tactic(auto, using(crate::proofs::SenderLemmas::turn_fits))]
    fn carriers<A: Allocator + Copy + Drop>(
        &self,
        alloc: A,
        octets: &[u8],
        places: &[usize],
    ) -> Result<Vec<Vec<u8, A>, A>, AllocError>
        ensures { IfOk result (λ frames. map octets_of frames.items
            ≡ map (λ frame. tm_frame_of self.now.profile.now frame)
            (carriers self.now.profile.now self.now.sender self.now.word octets.now places.now)) }
    {
        let size = data_length(self.profile);
        let mut frames = Vec::new(alloc);
        for count in 0..octets.len() / size {
            let begin = count * size;
            let pointer = pointer_in(places, begin, size);
            let frame = self.frame(alloc, count, pointer, &octets[begin..begin + size])?;
            frames.push(frame)?;
        }
        Ok(frames)
    }

    /// Returns the frames of these packets.
    fn frames<A: Allocator + Copy + Drop>(
        &self,
        alloc: A,
        packets: &[Vec<u8, A>],
    ) -> Result<Vec<Vec<u8, A>, A>, AllocError>
        ensures { IfOk result (λ frames. map octets_of frames.items
            ≡ map (λ frame. tm_frame_of self.now.profile.now frame)
            (frames_of self.now.profile.now self.now.sender self.now.word (map octets_of packets.now))) }
    {
        if packets.is_empty() {
            let frame = self.idle(alloc)?;
            let mut frames = Vec::new(alloc);
            frames.push(frame)?;
            return Ok(frames);
        }
        let joined = join(alloc, data_length(self.profile), packets)?;
        let frames = self.carriers(alloc, &joined.octets, &joined.places)?;
        Ok(frames)
    }
}

impl TmSender {
    /// Returns the frames that carry these packets, in order, each with this control word. An idle packet comes after them if they do not fill the
    /// last frame, and if there are none it is one frame of idle data. Fails if memory is refused: both counts are then as they were.
    ///
    /// A receiver of the frames gives the packets again. If whole frames are lost, it gives those packets whose octets all came: the clause `law`.
    #[tactic(auto, using(crate::proofs::LossLemmas::comes_over))]
    pub fn send<A: Allocator + Copy + Drop>(
        &mut self,
        alloc: A,
        profile: &Profile,
        word: u32,
        packets: &[Vec<u8, A>],
    ) -> Result<Vec<Vec<u8, A>, A>, AllocError>
        ensures frames { IfOk result (λ frames. map octets_of frames.items
            ≡ map (λ frame. tm_frame_of profile.now frame) (frames_of profile.now self.old word (map octets_of packets.now))) }
        ensures counts { IfOk result (λ frames. self.new ≡ later self.old (length frames.items)) }
        ensures refused { OnErr result (self.new ≡ self.old) }
        ensures law { ComesOver profile.now self.old word (map octets_of packets.now) }
    {
        let sending = Sending {
            profile,
            sender: *self,
            word,
        };
        let frames = sending.frames(alloc, packets)?;
        self.master_count = plus(self.master_count, frames.len());
        self.channel_count = plus(self.channel_count, frames.len());
        Ok(frames)
    }
}
