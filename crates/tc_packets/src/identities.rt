//! Requests and activities as packets name them.
ghost use Rattle.std.specs.Prelude.{◌≡◌, ◌++◌, IsTrue, OnOk, length, ◌↔◌};
ghost use Rattle.tc_packets.specs.Identities.{Flies, ReadsName, ReadsRequestId, name_of, request_id_of};

use crate::octet_fields::{pair_in, put_pair};
use crate::space_packets::IDLE_APID;
use std::alloc::{AllocError, Allocator};
use tc_types::{Apid, Identity, SequenceCount};

/// The octets of a request id.
pub const REQUEST_ID: usize = 4;

/// The octets of an activity's name.
pub const NAME: usize = 6;

/// Packet version 000, type 1, secondary header flag 1: the first 5 bits of a request's packet.
pub(crate) const REQUEST: u16 = 0b00011;

/// Sequence flags 11: a whole packet.
pub(crate) const WHOLE: u16 = 0b11;

/// The name of an activity in the schedule on board (ECSS-E-ST-70-41C, 8.11.2.5).
#[derive(Clone, Copy, Debug, PartialEq, Eq)]
pub struct ActivityName {
    /// The source of the request.
    pub source: u16,
    /// The request.
    pub identity: Identity,
}

/// Returns whether a request of this identity flies: it does not have the APID of idle packets.
pub fn flies(identity: Identity) -> bool
    ensures { IsTrue result ↔ Flies identity }
{
    let _count = identity.count.get(); // read for the proof alone
    identity.apid.get() != IDLE_APID
}

/// Adds a request id (ECSS-E-ST-70-41C, 8.1.2.1): the first four octets of the request's packet.
pub fn put_request_id<A: Allocator + Copy>(
    out: &mut Vec<u8, A>,
    identity: Identity,
) -> Result<(), AllocError>
    ensures { OnOk result (out.new.items ≡ out.old.items ++ request_id_of identity) }
{
    put_pair(out, REQUEST * 0x800 + identity.apid.get())?;
    put_pair(out, WHOLE * 0x4000 + identity.count.get())
}

/// Returns the identity whose request id these four octets are.
pub fn read_request_id(octets: &[u8]) -> Option<Identity>
    requires { length octets.now ≡ 4 }
    ensures { ReadsRequestId octets.now result }
{
    let first = pair_in(octets, 0);
    let second = pair_in(octets, 2);
    if first / 0x800 != REQUEST || first % 0x800 == IDLE_APID || second / 0x4000 != WHOLE {
        return None;
    }
    Some(Identity {
        apid: Apid::new(first % 0x800).unwrap(),
        count: SequenceCount::new(second % 0x4000).unwrap(),
    })
}

/// Adds the name of an activity.
pub fn put_name<A: Allocator + Copy>(
    out: &mut Vec<u8, A>,
    name: &ActivityName,
) -> Result<(), AllocError>
    ensures { OnOk result (out.new.items ≡ out.old.items ++ name_of name.now) }
{
    put_pair(out, name.source)?;
    put_pair(out, name.identity.apid.get())?;
    put_pair(out, name.identity.count.get())
}

/// Returns the name of an activity that these six octets are.
pub fn read_name(octets: &[u8]) -> Option<ActivityName>
    requires { length octets.now ≡ 6 }
    ensures { ReadsName octets.now result }
{
    let apid = Apid::new(pair_in(octets, 2))?;
    let count = SequenceCount::new(pair_in(octets, 4))?;
    if apid.get() == IDLE_APID {
        return None;
    }
    Some(ActivityName {
        source: pair_in(octets, 0),
        identity: Identity { apid, count },
    })
}
