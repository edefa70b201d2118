//! Texts of hexadecimal digits.
ghost use Rattle.std.specs.Prelude.{◌≡◌, ◌⊎◌, ◌∷◌, [], ◌≤◌, length, IfErr, IfOk, Err, MatchOption, Ok, vec_len};
ghost use Rattle.hex.specs.Hex.{decode_sized};
ghost use Rattle.hex.specs.declared.error.FromHexError.{FromHexError};
ghost use Rattle.tc_hex.specs.HexTexts.{spelled_from, spelled_octets};

use hex::FromHex;
use std::alloc::{AllocError, Allocator};

/// The most octets of a text: as many as the longest space packet has.
pub const MOST_OCTETS: usize = 65_542;

/// The most characters of a text: four for each octet.
pub const MOST_CHARACTERS: usize = 262_168;

/// Why a text spells no octets.
#[derive(Clone, Copy, Debug, PartialEq, Eq)]
pub enum HexFault {
    /// Neither a space nor a pair of digits begins at this character, counted from one.
    NoPair(usize),
    /// It has more than 65,542 octets, or more than 262,168 characters.
    TooLong,
    /// There was no memory for its octets.
    Memory,
}

impl From<AllocError> for HexFault {
    ghost use Rattle.std.specs.Prelude.{◌≡◌};
    ghost use Rattle.tc_hex.specs.declared.hex_texts.HexFault.TheVariants.{Memory};

    ghost from_gives = { λ _ fault. fault ≡ Memory };

    fn from(_error: AllocError) -> HexFault {
        HexFault::Memory
    }
}

/// Returns the octet of a pair of digits.
fn octet_of(high: u8, low: u8) -> Option<[u8; 1]>
    ensures { MatchOption result ((error : FromHexError) × (decode_sized (high ∷ low ∷ []) 1 ≡ Err error)) (λ octet. decode_sized (high ∷ low ∷ []) 1 ≡ Ok octet) }
{
    match <[u8; 1] as FromHex>::from_hex([high, low]) {
        Ok(octet) => Some(octet),
        Err(_) => None,
    }
}

/// Returns the octets that a text spells: pairs of hexadecimal digits of either case, with spaces between pairs, in front of the first or after the
/// last. Fails at the first character at which neither a space nor a pair begins.
#[tactic(auto, using(crate::proofs::HexLemmas::after_space))]
fn spelled_octets<A: Allocator + Copy + Drop>(alloc: A, text: &[u8]) -> Result<Vec<u8, A>, HexFault>
    requires { length text.now ≤ 262168 }
    ensures octets { IfOk result (λ octets. spelled_from 1 text.now ≡ Ok octets.items) }
    ensures fault { IfErr result (λ fault. (fault ≡ HexFault.Memory) ⊎ (spelled_from 1 text.now ≡ Err fault)) }
{
    let mut octets = Vec::new(alloc);
    let mut at = 1;
    let mut left = text;
    while let Some((first, rest)) = left.split_first() {
        if *first == b' ' {
            at += 1;
            left = rest;
        } else {
            let Some((second, others)) = rest.split_first() else {
                return Err(HexFault::NoPair(at));
            };
            let Some(octet) = octet_of(*first, *second) else {
                return Err(HexFault::NoPair(at));
            };
            octets.extend_from_slice(&octet)?;
            at += 2;
            left = others;
        }
    }
    Ok(octets)
}

/// Returns the octets that a text spells, of at most 65,542 octets in at most 262,168 characters.
pub fn octets_in<A: Allocator + Copy + Drop>(alloc: A, text: &[u8]) -> Result<Vec<u8, A>, HexFault>
    ensures octets { IfOk result (λ octets. spelled_octets text.now ≡ Ok octets.items) }
    ensures short { IfOk result (λ octets. vec_len octets ≤ MOST_OCTETS) }
    ensures fault { IfErr result (λ fault. (fault ≡ HexFault.Memory) ⊎ (spelled_octets text.now ≡ Err fault)) }
{
    if text.len() > MOST_CHARACTERS {
        return Err(HexFault::TooLong);
    }
    let octets = spelled_octets(alloc, text)?;
    if octets.len() > MOST_OCTETS {
        return Err(HexFault::TooLong);
    }
    Ok(octets)
}
