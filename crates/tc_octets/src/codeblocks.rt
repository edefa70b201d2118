//! Codeblocks of the BCH code.
ghost use Rattle.std.specs.Prelude.{◌≡◌, ◌<◌, ◌^◌};
ghost use Rattle.tc_octets.specs.Bits.{octet_bits};
ghost use Rattle.tc_octets.specs.CodeblockLaws.{Tells};
ghost use Rattle.tc_octets.specs.Codeblocks.{bch_step, bch_from, error_control_of, is_codeblock, sent_of, turned, with_one_turned};

/// How a decoder reads codeblocks (CCSDS 231.0-B).
#[derive(Clone, Copy, Debug, PartialEq, Eq)]
pub enum Mode {
    /// It finds wrong bits: a codeblock with any fails.
    Detecting,
    /// It mends one wrong bit; a codeblock with two fails.
    Correcting,
}

/// How many octets a codeblock has.
pub const CODEBLOCK: usize = 8;

/// How many octets of information a codeblock has.
pub const INFORMATION: usize = 7;

/// The generator x^7 + x^6 + x^2 + 1 without its first term.
const GENERATOR: u8 = 0x45;

/// Returns the register of 7 bits after one more bit.
#[tactic(auto, using(crate::proofs::BitLemmas::xor_of_7), unfolding(crate::specs::Codeblocks::bch_step))]
fn with_bit(register: u8, bit: u8) -> u8
    requires { register < 2 ^ 7 }
    ensures value { result ≡ bch_step register bit }
    ensures small { result < 2 ^ 7 }
{
    let shifted = register * 2 % 128;
    if register >> 6 == bit {
        shifted
    } else {
        shifted ^ GENERATOR
    }
}

/// Returns the register of 7 bits after one more octet.
#[tactic(auto, using(crate::proofs::BitLemmas::bit_folded, crate::proofs::BitLemmas::no_bits_folded), unfolding(crate::specs::Bits::octet_bits))]
fn with_octet(register: u8, octet: u8) -> u8
    requires { register < 2 ^ 7 }
    ensures value { result ≡ bch_from register (octet_bits octet) }
    ensures small { result < 2 ^ 7 }
{
    let mut after = register;
    for place in (0..8u32).rev() {
        after = with_bit(after, (octet >> place) % 2);
    }
    after
}

/// Returns the last octet of the codeblock of 7 octets (CCSDS 231.0-B): the 7 parity bits, which are the remainder by x^7 + x^6 + x^2 + 1 with each
/// bit turned, and a filler bit 0.
#[tactic(auto, using(crate::proofs::BitLemmas::octet_folded, crate::proofs::BitLemmas::xor_of_7))]
pub fn error_control(information: &[u8]) -> u8
    ensures { result ≡ error_control_of information.now }
{
    let mut register = 0;
    for octet in information {
        register = with_octet(register, *octet);
    }
    (register ^ 0x7f) * 2
}

/// Returns whether these 8 octets are a codeblock.
#[tactic(auto, unfolding(crate::specs::Codeblocks::is_codeblock))]
fn is_whole(block: &[u8; 8]) -> bool
    ensures { result ≡ is_codeblock block.now }
{
    error_control(&block[..INFORMATION]) == block[INFORMATION]
}

/// Returns the 8 octets with one of their 64 bits turned.
fn with_turned(block: &[u8; 8], place: usize) -> [u8; 8]
    requires { place < 64 }
    ensures { result ≡ turned place block.now }
{
    let mut other = *block;
    other[place / 8] ^= 0x80 >> (place % 8);
    other
}

/// Returns the codeblock that differs in one bit.
#[tactic(auto, using(crate::proofs::CodeblockLemmas::turns, crate::proofs::CodeblockLemmas::passes, crate::proofs::CodeblockLemmas::ends))]
fn mended(block: &[u8; 8]) -> Option<[u8; 8]>
    ensures { result ≡ with_one_turned 64 block.now }
{
    for place in (0..64usize).rev() {
        let tried = with_turned(block, place);
        if is_whole(&tried) {
            return Some(tried);
        }
    }
    None
}

/// Returns the codeblock that was sent if these 8 octets came (CCSDS 231.0-B); its first 7 octets are the information. Detecting, `None` unless they
/// are a codeblock. Correcting, one of the 64 bits may be wrong, the filler bit too.
#[tactic(auto, using(crate::proofs::CodeblockLawLemmas::tells), unfolding(crate::specs::Codeblocks::sent_of))]
pub fn sent(block: &[u8; 8], mode: Mode) -> Option<[u8; 8]>
    ensures value { result ≡ sent_of mode block.now }
    ensures law { Tells mode block.now result }
{
    if is_whole(block) {
        return Some(*block);
    }
    match mode {
        Mode::Detecting => None,
        Mode::Correcting => mended(block),
    }
}
