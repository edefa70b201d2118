//! Numbers of two and of four octets.
ghost use Rattle.std.specs.Prelude.{◌≡◌, ◌++◌, ◌+◌, ◌<◌, ◌≤◌, OnOk, drop, length, take};
ghost use Rattle.tc_octets.specs.Bits.{pair, pair_at};
ghost use Rattle.tc_packets.specs.OctetFields.{quad, quad_at};

use std::alloc::{AllocError, Allocator};

/// Adds a number as two octets.
pub(crate) fn put_pair<A: Allocator + Copy>(
    out: &mut Vec<u8, A>,
    number: u16,
) -> Result<(), AllocError>
    ensures { OnOk result (out.new.items ≡ out.old.items ++ pair number) }
{
    out.push((number / 256) as u8)?;
    out.push((number % 256) as u8)?;
    Ok(())
}

/// Adds a number as four octets.
pub(crate) fn put_quad<A: Allocator + Copy>(
    out: &mut Vec<u8, A>,
    number: u32,
) -> Result<(), AllocError>
    ensures { OnOk result (out.new.items ≡ out.old.items ++ quad number) }
{
    put_pair(out, (number / 0x1_0000) as u16)?;
    put_pair(out, (number % 0x1_0000) as u16)
}

/// Returns the number that two octets are.
pub(crate) fn pair_in(octets: &[u8], at: usize) -> u16
    requires { at + 1 < length octets.now }
    ensures { result ≡ pair_at octets.now at }
{
    u16::from(octets[at]) * 256 + u16::from(octets[at + 1])
}

/// Returns the first so many octets.
pub(crate) fn octets_before(octets: &[u8], at: usize) -> &[u8]
    requires { at ≤ length octets.now }
    ensures { result.now ≡ take at octets.now }
{
    &octets[..at]
}

/// Returns the octets from this place on.
pub(crate) fn octets_from(octets: &[u8], at: usize) -> &[u8]
    requires { at ≤ length octets.now }
    ensures { result.now ≡ drop at octets.now }
{
    &octets[at..]
}

/// Returns the number that four octets are.
pub(crate) fn quad_in(octets: &[u8], at: usize) -> u32
    requires { at + 3 < length octets.now }
    ensures { result ≡ quad_at octets.now at }
{
    u32::from(pair_in(octets, at)) * 0x1_0000 + u32::from(pair_in(octets, at + 2))
}
