//! Control words with their bits written out.
use super::check;
use std::process::Abort;
use tc_farm::Clcw;

/// A control word on channel 3 that reports 5.
fn reported(lockout: bool, wait: bool, retransmit: bool) -> Clcw {
    Clcw {
        vc: 3,
        lockout,
        wait,
        retransmit,
        farm_b: 0,
        report: 5,
    }
}

/// The control word that these bits are on this channel.
fn read(bits: u32, vc: u8) -> Option<Clcw> {
    Clcw::read(bits, vc)
}

/// Checks that this control word is these bits, and that they are read back on its channel alone.
fn check_bits(rt: &impl Abort, clcw: Clcw, bits: u32, what: &str) {
    check(rt, clcw.word() == bits, what);
    check(rt, read(bits, 3) == Some(clcw), what);
    check(rt, read(bits, 4).is_none(), "another channel");
}

/// The control word with the flags Lockout and Retransmit on this channel, as 32 bits; 0 where there is no such channel.
fn bits_on(vc: u8) -> u32 {
    match reported(true, false, true).on(vc) {
        Some(clcw) => clcw.word(),
        None => 0,
    }
}

#[test]
fn control_words(rt: HostRuntime) {
    for (lockout, wait, retransmit, bits, what) in [
        (false, false, false, 0x010c_0005, "no flag"),
        (true, false, false, 0x010c_2005, "Lockout"),
        (false, true, false, 0x010c_1005, "Wait"),
        (false, false, true, 0x010c_0805, "Retransmit"),
    ] {
        check_bits(&rt, reported(lockout, wait, retransmit), bits, what);
    }
    check(&rt, read(0x020c_0005, 3).is_none(), "another COP");
    check(&rt, read(0x5d0f_c105, 3).is_none(), "another version");
    let ignored = read(0x1d0f_c105, 3) == Some(reported(false, false, false));
    check(&rt, ignored, "ignored bits");
    check(&rt, bits_on(63) == 0x01fc_2805, "channel 63");
    check(&rt, bits_on(64) == 0, "channel 64");
}
