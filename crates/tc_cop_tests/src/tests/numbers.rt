//! The FARM at every number against the table as a plain program.
use super::check_at;
use super::ends::OnBoard;
use super::windows::{comes_to, takes};
use std::process::Abort;
use tc_farm::{Farm, FarmState, FarmView};

/// The table as a plain program: what a type-AD frame with this number does, and whether it is accepted.
fn by_table(farm: FarmView, ns: u8, free_buffer: bool) -> (FarmView, bool) {
    let half = u32::from(farm.window) / 2;
    let distance = (u32::from(ns) + 256 - u32::from(farm.vr)) % 256;
    let mut after = farm;
    match farm.state {
        FarmState::Open if distance == 0 && free_buffer => {
            after.vr = ((u32::from(farm.vr) + 1) % 256) as u8;
            after.retransmit = false;
            return (after, true);
        }
        FarmState::Open if distance == 0 => {
            after.wait = true;
            after.retransmit = true;
            after.state = FarmState::Wait;
        }
        FarmState::Open if 1 <= distance && distance < half => after.retransmit = true,
        FarmState::Open | FarmState::Wait if half <= distance && distance < 256 - half => {
            after.lockout = true;
            after.state = FarmState::Lockout;
        }
        FarmState::Open | FarmState::Wait | FarmState::Lockout => {}
    }
    (after, false)
}

/// Whether a new FARM, brought into this state at V(R), does with a frame of this number what the table says.
fn agrees<F: OnBoard>(
    rt: &impl Abort,
    farm: &mut F,
    state: FarmState,
    vr: u8,
    ns: u8,
    free_buffer: bool,
) -> bool {
    comes_to(rt, farm, state, vr);
    let before = farm.variables();
    let (after, accepted) = by_table(before, ns, free_buffer);
    before.state == state
        && before.vr == vr
        && takes(rt, farm, ns, free_buffer) == accepted
        && farm.variables() == after
}

/// Checks FARMs of this width in this state at every number and every V(R), with and without a free buffer. What is told is
/// the number, and 256 times V(R), and 65,536 more where a buffer is free.
fn check_agreement(rt: &impl Abort, w: u16, state: FarmState, what: &str) {
    for place in 0..131_072_u32 {
        let free_buffer = place >= 65_536;
        let ns = (place % 256) as u8;
        let vr = (place / 256 % 256) as u8;
        let mut farm = Farm::new(w).expect(rt, "a width");
        let agreed = agrees(rt, &mut farm, state, vr, ns, free_buffer);
        check_at(rt, agreed, what, place);
    }
}

#[test]
fn every_number(rt: HostRuntime) {
    for (w, what) in [
        (2, "W = 2"),
        (4, "W = 4"),
        (20, "W = 20"),
        (128, "W = 128"),
        (252, "W = 252"),
        (254, "W = 254"),
    ] {
        check_agreement(&rt, w, FarmState::Open, what);
        check_agreement(&rt, w, FarmState::Wait, what);
        check_agreement(&rt, w, FarmState::Lockout, what);
    }
}
