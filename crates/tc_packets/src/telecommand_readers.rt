//! The reader of telecommand packets.
ghost use Rattle.std.specs.Prelude.{◌≡◌, ◌≤◌, ◌↔◌, IfOk, IsErr, IsTrue, false, length, slice_index, ◌%◌, ◌^◌};
ghost use Rattle.tc_octets.specs.Bits.{pair_at};
ghost use Rattle.tc_octets.specs.CrcLaws.{IsDamaged};
ghost use Rattle.tc_packets.specs.TelecommandLaws.{ReadsBack};
ghost use Rattle.tc_packets.specs.Telecommands.{ack_bits, telecommand_of};
ghost use Rattle.tc_packets.specs.TelecommandReaders.{HasHeader, HasType, HeadersSay, IsChecked, IsLong, Names, Passes, Reads, Rejects, data_in};
ghost use Rattle.tc_packets.specs.TelecommandReaders.{rejection_code};

use crate::flights::Flight;
use crate::identities::{REQUEST, REQUEST_ID, WHOLE, read_request_id};
use crate::octet_fields::pair_in;
use crate::space_packets::{IDLE_APID, whole_length};
use crate::task_readers::task_in;
use crate::telecommands::SCHEDULE;
use tc_octets::{Profile, crc};
use tc_types::{Ack, Apid, Identity, SequenceCount};

/// The fewest octets of a telecommand packet.
const FEWEST: usize = 13;

/// The octets before the application data.
const HEADERS: usize = 11;

/// The octets of the check.
const CHECK: usize = 2;

/// The subtypes of the schedule's service that fly.
const SCHEDULE_SUBTYPES: [u8; 8] = [1, 2, 3, 4, 5, 7, 15, 17];

/// Why octets are no telecommand packet of this link. If several apply, it is the first of these.
#[derive(Clone, Copy, Debug, PartialEq, Eq)]
pub enum PacketFault {
    /// Fewer octets than a packet has, or another number than the packet data length says.
    Length,
    /// The last two octets are not the CRC-16 of those before them.
    Check,
    /// Another packet version, type, secondary header flag, sequence flags or PUS version, APID 2047, or another source.
    Header,
    /// A service or a subtype that the link does not have.
    Subtype,
    /// Other application data than the service and the subtype have.
    Data,
}

/// Returns whether there are as many octets as a packet has, and as its length says.
fn is_long(octets: &[u8]) -> bool
    ensures { IsTrue result ↔ IsLong octets.now }
{
    octets.len() >= FEWEST && whole_length(octets) == octets.len()
}

/// Returns whether the check is right.
fn is_checked(octets: &[u8]) -> bool
    requires { 13 ≤ length octets.now }
    ensures { IsTrue result ↔ IsChecked octets.now }
{
    let end = octets.len() - CHECK;
    pair_in(octets, end) == crc(&octets[..end])
}

/// Returns whether the headers are those of a request that flies to this spacecraft.
fn has_header(profile: &Profile, octets: &[u8]) -> bool
    requires { 13 ≤ length octets.now }
    ensures { IsTrue result ↔ HasHeader profile.now octets.now }
{
    let first = pair_in(octets, 0);
    first / 0x800 == REQUEST
        && first % 0x800 != IDLE_APID
        && pair_in(octets, 2) / 0x4000 == WHOLE
        && octets[6] / 0x10 == 2
        && pair_in(octets, 9) == profile.source
}

/// Returns whether the service and the subtype are of this link.
fn has_type(octets: &[u8]) -> bool
    requires { 13 ≤ length octets.now }
    ensures { IsTrue result ↔ HasType octets.now }
{
    octets[7] != 0
        && octets[8] != 0
        && (octets[7] != SCHEDULE || SCHEDULE_SUBTYPES.contains(&octets[8]))
}

/// Returns the first fault of the headers.
pub(crate) fn header_fault(profile: &Profile, octets: &[u8]) -> Option<PacketFault>
    ensures { HeadersSay profile.now octets.now result }
{
    if !is_long(octets) {
        return Some(PacketFault::Length);
    }
    if !is_checked(octets) {
        return Some(PacketFault::Check);
    }
    if !has_header(profile, octets) {
        return Some(PacketFault::Header);
    }
    if !has_type(octets) {
        return Some(PacketFault::Subtype);
    }
    None
}

/// Returns the identity in a header.
pub(crate) fn identity_in(octets: &[u8]) -> Identity
    requires { 13 ≤ length octets.now }
    ensures apid { result.apid ≡ pair_at octets.now 0 % 2 ^ 11 }
    ensures count { result.count ≡ pair_at octets.now 2 % 2 ^ 14 }
{
    Identity {
        apid: Apid::new(pair_in(octets, 0) % 0x800).unwrap(),
        count: SequenceCount::new(pair_in(octets, 2) % 0x4000).unwrap(),
    }
}

/// Returns the acknowledgement flags in a secondary header.
pub(crate) fn ack_in(octets: &[u8]) -> Ack
    requires { 13 ≤ length octets.now }
    ensures { ack_bits result ≡ slice_index octets.now 6 % 2 ^ 4 }
{
    let bits = octets[6];
    Ack {
        acceptance: bits % 2 == 1,
        start: bits / 2 % 2 == 1,
        progress: bits / 4 % 2 == 1,
        completion: bits / 8 % 2 == 1,
    }
}

/// Returns the application data in a packet.
pub(crate) fn data_in(octets: &[u8]) -> &[u8]
    requires { 13 ≤ length octets.now }
    ensures { result.now ≡ data_in octets.now }
{
    &octets[HEADERS..octets.len() - CHECK]
}

/// Returns the request in a packet whose headers pass.
#[tactic(auto, using(crate::proofs::TaskLemmas::read_err))]
fn flight_in(profile: &Profile, octets: &[u8]) -> Result<Flight, PacketFault>
    requires { Passes profile.now octets.now }
    ensures { Reads profile.now octets.now result }
{
    match task_in(profile, octets[7], octets[8], data_in(octets)) {
        Some(task) => Ok(Flight {
            identity: identity_in(octets),
            ack: ack_in(octets),
            task,
        }),
        None => Err(PacketFault::Data),
    }
}

/// Reads a request, or names the first fault.
#[tactic(auto, using(crate::proofs::TaskLemmas::header_err))]
fn answer_of(profile: &Profile, octets: &[u8]) -> Result<Flight, PacketFault>
    ensures { Reads profile.now octets.now result }
{
    match header_fault(profile, octets) {
        Some(fault) => Err(fault),
        None => flight_in(profile, octets),
    }
}

/// Reads the request whose packet these octets are (ECSS-E-ST-70-41C, 7.4.4): all of them, no more and no fewer. Fractions of a second are ignored.
/// Else returns the first fault that applies. Takes no memory.
#[tactic(auto, using(crate::proofs::WrittenLemmas::reads_back, crate::proofs::WrittenLemmas::exactly_read, crate::proofs::WrittenLemmas::damaged_refused))]
pub fn read_telecommand(profile: &Profile, octets: &[u8]) -> Result<Flight, PacketFault>
    ensures value { Reads profile.now octets.now result }
    ensures back { ReadsBack profile.now octets.now result }
    ensures exact { profile.now.fine ≡ false → IfOk result (λ flight. octets.now ≡ telecommand_of profile.now flight) }
    ensures damaged { IsDamaged octets.now → IsErr result }
{
    answer_of(profile, octets)
}

/// Returns the code that a rehearsal spacecraft reports for a packet that it refused, in TM[1,2] (this project's own).
pub fn rejection_code(fault: PacketFault) -> u8
    ensures { result ≡ rejection_code fault }
{
    match fault {
        PacketFault::Length => 8,
        PacketFault::Check => 9,
        PacketFault::Header => 10,
        PacketFault::Subtype => 11,
        PacketFault::Data => 12,
    }
}

/// Returns the request that a rehearsal spacecraft reports on if it refused these octets: the one whose request id they begin with, if there is one.
pub fn named_in(octets: &[u8]) -> Option<Identity>
    ensures { Names octets.now result }
{
    if octets.len() < REQUEST_ID {
        return None;
    }
    read_request_id(&octets[..REQUEST_ID])
}

/// Returns the request and the code that a rehearsal spacecraft reports on a packet that it refused; `None` if it cannot name the request.
pub fn rejection(octets: &[u8], fault: PacketFault) -> Option<(Identity, u8)>
    ensures { Rejects octets.now fault result }
{
    Some((named_in(octets)?, rejection_code(fault)))
}
