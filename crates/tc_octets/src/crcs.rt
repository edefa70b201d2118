//! The check of frames and packets, CRC-16.
ghost use Rattle.std.specs.Prelude.{◌≡◌, ◌<◌};
ghost use Rattle.tc_octets.specs.Bits.{octet_bits};
ghost use Rattle.tc_octets.specs.Crc.{crc_step, crc_from, crc_of};
ghost use Rattle.tc_octets.specs.CrcLaws.{Shows};

/// The generator x^16 + x^12 + x^5 + 1 without its first term.
const GENERATOR: u16 = 0x1021;

/// Returns the register after one more bit.
#[tactic(auto, unfolding(crate::specs::Crc::crc_step))]
fn with_bit(register: u16, bit: u16) -> u16
    ensures { result ≡ crc_step register bit }
{
    if register >> 15 == bit {
        register << 1
    } else {
        register << 1 ^ GENERATOR
    }
}

/// Returns the register after one more octet.
#[tactic(auto, using(crate::proofs::BitLemmas::bit_folded, crate::proofs::BitLemmas::no_bits_folded), unfolding(crate::specs::Bits::octet_bits))]
fn with_octet(register: u16, octet: u8) -> u16
    ensures { result ≡ crc_from register (octet_bits octet) }
{
    let mut after = register;
    for place in (0..8u32).rev() {
        after = with_bit(after, u16::from((octet >> place) % 2));
    }
    after
}

/// Returns the register after these octets, from a preset of ones.
#[tactic(auto, using(crate::proofs::BitLemmas::octet_folded))]
fn register_after(octets: &[u8]) -> u16
    ensures { result ≡ crc_of octets.now }
{
    let mut register = 0xffff;
    for octet in octets {
        register = with_octet(register, *octet);
    }
    register
}

/// Returns the CRC-16 of these octets (CCSDS 232.0-B, 4.1.4; CCSDS 132.0-B, 4.1.6): generator x^16 + x^12 + x^5 + 1, preset ones. It is sent most
/// significant octet first; the CRC of octets with their CRC after them is 0.
#[tactic(auto, using(crate::proofs::CrcWholeLemmas::crc_shows))]
pub fn crc(octets: &[u8]) -> u16
    ensures value { result ≡ crc_of octets.now }
    ensures law { Shows octets.now result }
{
    register_after(octets)
}
