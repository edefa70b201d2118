//! The edges of the FARM's windows, and what control commands do to its control word.
use super::ends::OnBoard;
use super::{ad, check, check_at};
use std::process::Abort;
use tc_farm::{Farm, FarmState};
use tc_types::Frame;

/// A FARM of this width.
fn farm(rt: &impl Abort, w: u16) -> Farm {
    Farm::new(w).expect(rt, "a width")
}

/// A type-AD frame with this number comes: whether it is accepted.
pub fn takes<F: OnBoard>(rt: &impl Abort, farm: &mut F, ns: u8, free_buffer: bool) -> bool {
    farm.accepts(ad(rt, ns, 1), free_buffer)
}

/// Brings a new FARM into this state, where it expects this number.
pub fn comes_to<F: OnBoard>(rt: &impl Abort, farm: &mut F, state: FarmState, vr: u8) {
    farm.accepts(Frame::SetVr(vr), true);
    match state {
        FarmState::Open => {}
        FarmState::Wait => {
            takes(rt, farm, vr, false);
        }
        FarmState::Lockout => {
            takes(rt, farm, vr.wrapping_add(128), true);
        }
    }
}

/// Whether a frame with this number is discarded in Open, and leaves this state and flag.
fn is_discarded<F: OnBoard>(
    rt: &impl Abort,
    farm: &mut F,
    vr: u8,
    ns: u8,
    locks: bool,
    retransmit: bool,
) -> bool {
    comes_to(rt, farm, FarmState::Open, vr);
    let accepted = takes(rt, farm, ns, true);
    let clcw = farm.control_word();
    !accepted
        && farm.variables().state == state_of(locks)
        && clcw.retransmit == retransmit
        && clcw.lockout == locks
        && clcw.report == vr
}

/// Lockout, or else Open.
fn state_of(locks: bool) -> FarmState {
    if locks {
        FarmState::Lockout
    } else {
        FarmState::Open
    }
}

#[test]
fn windows(rt: HostRuntime) {
    for (w, vr, ns, locks, retransmit) in [
        (20, 250, 3, false, true),
        (20, 250, 4, true, false),
        (20, 250, 240, false, false),
        (20, 250, 239, true, false),
        (254, 0, 126, false, true),
        (254, 0, 127, true, false),
        (254, 0, 128, true, false),
        (254, 0, 129, false, false),
    ] {
        let discarded = is_discarded(&rt, &mut farm(&rt, w), vr, ns, locks, retransmit);
        check_at(&rt, discarded, "a frame at an edge", u32::from(ns));
    }
}

/// Checks the control word on channel 3.
fn check_bits<F: OnBoard>(rt: &impl Abort, farm: &F, bits: u32, what: &str) {
    check(rt, farm.bits() == bits, what);
}

/// Whether no FARM is made of this width.
fn is_refused(w: u16) -> bool {
    Farm::new(w).is_none()
}

/// Checks the word of a FARM that waits for a buffer.
fn check_waiting<F: OnBoard>(rt: &impl Abort, farm: &mut F) {
    comes_to(rt, farm, FarmState::Wait, 9);
    check_bits(rt, farm, 0x010c_1a09, "one command, waiting");
    farm.frees();
    let is_open = farm.variables().state == FarmState::Open;
    check(rt, is_open, "a freed buffer opens");
    check_bits(rt, farm, 0x010c_0a09, "Retransmit stays");
    check(rt, takes(rt, farm, 9, true), "9 is taken");
    check_bits(rt, farm, 0x010c_020a, "10 is expected");
}

/// Checks the word of a FARM that is locked out.
fn check_locked<F: OnBoard>(rt: &impl Abort, farm: &mut F) {
    comes_to(rt, farm, FarmState::Lockout, 9);
    farm.accepts(Frame::SetVr(77), true);
    farm.frees();
    check_bits(rt, farm, 0x010c_2409, "two commands, locked out");
    let is_data = farm.accepts(Frame::Unlock, false);
    check(rt, !is_data, "an Unlock is no data");
    check_bits(rt, farm, 0x010c_0609, "three commands, open");
}

#[test]
fn control_commands(rt: HostRuntime) {
    check_waiting(&rt, &mut farm(&rt, 20));
    check_locked(&rt, &mut farm(&rt, 20));
    for odd in [0, 1, 3, 255, 256] {
        check_at(&rt, is_refused(odd), "a width is refused", u32::from(odd));
    }
}
