//! The values of a profile's keys.
ghost use Rattle.std.specs.Prelude.{◌≡◌, ◌≢◌, ◌<◌, ◌^◌, ◌↔◌, IsTrue, ◌∷◌, length, slice_index};
ghost use Rattle.std.specs.Fmt.{decimal, signed_decimal};
ghost use Rattle.tc_octets.specs.Epochs.{IsEpoch};
ghost use Rattle.tc_octets.specs.ProfileKeys.{IsNumber, IsValue, IsWindow, IsYesOrNo, ReadsWord};

use crate::keys::Key;
use std::str;

/// The most seconds before 1 January 1970: an epoch is 1 January 1958 at the earliest.
const BEFORE: u32 = 378_691_200;

/// The most seconds after 1 January 1970: an epoch is the last second of 2099 at the latest.
const AFTER: u32 = 4_102_444_799;

/// Returns whether a word has neither a leading plus nor a leading zero that it could lack.
fn is_shortest(word: &[u8]) -> bool
    ensures { IsTrue result ↔ ((slice_index word.now 0 ≢ 43) × (slice_index word.now 0 ≡ 48 → length word.now ≡ 1)) }
{
    match word.first() {
        Some(b'+') => false,
        Some(b'0') => word.len() == 1,
        _ => true,
    }
}

/// Reads a decimal number of 32 bits, without sign or leading zeros.
pub(crate) fn number(word: &[u8]) -> Option<u32>
    ensures { ReadsWord decimal (λ n. n < 2 ^ 32) word.now result }
{
    if !is_shortest(word) {
        return None;
    }
    match str::from_utf8(word) {
        Ok(text) => text.parse().ok(),
        Err(_) => None,
    }
}

/// Reads the seconds after a minus: none for 0, which has no sign.
fn before_zero(digits: &[u8]) -> Option<i64>
    ensures { ReadsWord signed_decimal IsEpoch (45 ∷ digits.now) result }
{
    let seconds = number(digits)?;
    if seconds == 0 {
        return None;
    }
    if seconds > BEFORE {
        return None;
    }
    Some(-i64::from(seconds))
}

/// Reads the seconds that have no minus.
fn after_zero(digits: &[u8]) -> Option<i64>
    requires { slice_index digits.now 0 ≢ 45 }
    ensures { ReadsWord signed_decimal IsEpoch digits.now result }
{
    let seconds = number(digits)?;
    if seconds > AFTER {
        return None;
    }
    Some(i64::from(seconds))
}

/// Reads an epoch: Unix seconds, with a minus in front of a negative number.
pub(crate) fn epoch(word: &[u8]) -> Option<i64>
    ensures { ReadsWord signed_decimal IsEpoch word.now result }
{
    match word.split_first() {
        Some((b'-', digits)) => before_zero(digits),
        _ => after_zero(word),
    }
}

/// Returns whether a word is this one.
pub(crate) fn is(word: &[u8], name: &str) -> bool
    ensures { IsTrue result ↔ (word.now ≡ name.now) }
{
    word == name.as_bytes()
}

/// Returns whether a word is a number of this range.
fn is_number(word: &[u8], least: u32, most: u32) -> bool
    ensures { IsTrue result ↔ IsNumber least most word.now }
{
    match number(word) {
        Some(number) => least <= number && number <= most,
        None => false,
    }
}

/// Returns whether a word is the width of a sliding window: an even number.
fn is_window(word: &[u8]) -> bool
    ensures { IsTrue result ↔ IsWindow word.now }
{
    match number(word) {
        Some(number) => 2 <= number && number <= 254 && number % 2 == 0,
        None => false,
    }
}

/// Returns whether a word is `yes` or `no`.
fn is_yes_or_no(word: &[u8]) -> bool
    ensures { IsTrue result ↔ IsYesOrNo word.now }
{
    is(word, "yes") || is(word, "no")
}

/// Returns whether a key may have this value.
pub(crate) fn is_value(key: Key, value: &[u8]) -> bool
    ensures { IsTrue result ↔ IsValue key value.now }
{
    match key {
        Key::Scid => is_number(value, 0, 1023),
        Key::TcVcid => is_number(value, 0, 63),
        Key::TcMap => is(value, "none") || is_number(value, 0, 63),
        Key::TcWindow => is_window(value),
        Key::TcIdle => is_number(value, 0, 255),
        Key::TmLength => is_number(value, 32, 2048),
        Key::TmVcid => is_number(value, 0, 7),
        Key::Apid => is_number(value, 1, 2046),
        Key::Source => is_number(value, 0, 65_535),
        Key::TimeEpoch => epoch(value).is_some(),
        Key::TimeFine => is(value, "0") || is(value, "2"),
        Key::TcFecf | Key::TcRandomizer | Key::TcCorrect | Key::TmFecf | Key::Rehearsal =>
            is_yes_or_no(value),
    }
}
