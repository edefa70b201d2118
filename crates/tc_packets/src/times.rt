//! Times on board.
ghost use Rattle.std.specs.Prelude.{◌≡◌, ◌++◌, ◌↔◌, IsTrue, OnOk, length};
ghost use Rattle.tc_packets.specs.Times.{FitsOffset, HasTime, ReadsOffset, ReadsTime, complement, first_on_board, fraction, last_on_board};
ghost use Rattle.tc_packets.specs.Times.{offset_of, time_length, time_of};

use crate::octet_fields::{put_quad, quad_in};
use std::alloc::{AllocError, Allocator};
use tc_octets::Profile;
use tc_types::limits::LARGEST_MOMENT;
use tc_types::{Moment, Offset};

/// The most seconds that four octets have.
const MOST_SECONDS: i64 = 0xffff_ffff;

/// Returns how many octets a time or an offset has: 4, and 2 of fraction if times are fine.
pub fn time_octets(profile: &Profile) -> usize
    ensures { result ≡ time_length profile.now }
{
    if profile.fine { 6 } else { 4 }
}

/// Returns whether a moment has octets: it is not before the epoch, nor too long after it (CCSDS 301.0-B).
pub fn has_time(profile: &Profile, moment: Moment) -> bool
    ensures { IsTrue result ↔ HasTime profile.now.epoch moment }
{
    let moment = i64::from(moment.get());
    profile.epoch <= moment && profile.epoch >= moment - MOST_SECONDS
}

/// Adds a fraction of 0, if times are fine.
fn put_fraction<A: Allocator + Copy>(
    out: &mut Vec<u8, A>,
    profile: &Profile,
) -> Result<(), AllocError>
    ensures { OnOk result (out.new.items ≡ out.old.items ++ fraction profile.now.fine) }
{
    if profile.fine {
        out.push(0)?;
        out.push(0)?;
    }
    Ok(())
}

/// Adds a time that has octets: the seconds since the epoch, and a fraction of 0 if times are fine.
pub fn put_time<A: Allocator + Copy>(
    out: &mut Vec<u8, A>,
    profile: &Profile,
    moment: Moment,
) -> Result<(), AllocError>
    requires { HasTime profile.now.epoch moment }
    ensures { OnOk result (out.new.items ≡ out.old.items ++ time_of profile.now moment) }
{
    let seconds = i64::from(moment.get()) - profile.epoch;
    put_quad(out, seconds as u32)?;
    put_fraction(out, profile)
}

/// Returns the moment that a time's octets are. A fraction is ignored. `None` if it is none of Unix time 0 to 4,102,444,799.
pub fn read_time(profile: &Profile, octets: &[u8]) -> Option<Moment>
    requires { length octets.now ≡ time_length profile.now }
    ensures { ReadsTime profile.now octets.now result }
{
    let seconds = i64::from(quad_in(octets, 0));
    let moment = profile.epoch + seconds;
    if moment < 0 || moment > i64::from(LARGEST_MOMENT) {
        return None;
    }
    Moment::new(moment as u32)
}

/// Returns whether an offset has octets: -2,147,483,648 to 2,147,483,647 seconds.
pub fn fits_offset(offset: Offset) -> bool
    ensures { IsTrue result ↔ FitsOffset offset }
{
    offset.get() >= -0x8000_0000 && offset.get() <= 0x7fff_ffff
}

/// Returns the 32 bits of an offset, in two's complement.
fn complement(offset: Offset) -> u32
    requires { FitsOffset offset }
    ensures { result ≡ complement offset }
{
    let seconds = offset.get();
    if seconds < 0 {
        (seconds + 0x1_0000_0000) as u32
    } else {
        seconds as u32
    }
}

/// Adds an offset that has octets, and a fraction of 0 if times are fine.
pub fn put_offset<A: Allocator + Copy>(
    out: &mut Vec<u8, A>,
    profile: &Profile,
    offset: Offset,
) -> Result<(), AllocError>
    requires { FitsOffset offset }
    ensures { OnOk result (out.new.items ≡ out.old.items ++ offset_of profile.now offset) }
{
    put_quad(out, complement(offset))?;
    put_fraction(out, profile)
}

/// Returns the offset that these octets are. A fraction is ignored. All octets are one.
pub fn read_offset(profile: &Profile, octets: &[u8]) -> Option<Offset>
    requires { length octets.now ≡ time_length profile.now }
    ensures { ReadsOffset profile.now octets.now result }
{
    let bits = i64::from(quad_in(octets, 0));
    if bits > 0x7fff_ffff {
        Offset::new(bits - 0x1_0000_0000)
    } else {
        Offset::new(bits)
    }
}

/// Returns the earliest moment that has octets: the later of Unix time 0 and the epoch.
pub fn first_on_board(profile: &Profile) -> Moment
    ensures { result ≡ first_on_board profile.now.epoch }
{
    if profile.epoch < 0 {
        return Moment::new(0).unwrap();
    }
    Moment::new(profile.epoch as u32).unwrap()
}

/// Returns the latest moment that has octets: the earlier of Unix time 4,102,444,799 and the epoch and 2 ^ 32 - 1 seconds.
pub fn last_on_board(profile: &Profile) -> Moment
    ensures { result ≡ last_on_board profile.now.epoch }
{
    let last = profile.epoch + MOST_SECONDS;
    if last > i64::from(LARGEST_MOMENT) {
        return Moment::new(LARGEST_MOMENT).unwrap();
    }
    Moment::new(last as u32).unwrap()
}
