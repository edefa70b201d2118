//! A link's profile, read from its text. The format is this project's own.
//!
//! Nothing is kept of a text but the text: the value of a key is searched anew where it is needed.
ghost use Rattle.std.specs.Prelude.{◌≡◌, ◌≤◌, ◌%◌, MatchOption, length, take, ⊤};
ghost use Rattle.std.specs.Option.{option_copied};
ghost use Rattle.std.specs.Fmt.{decimal, signed_decimal};
ghost use Rattle.tc_octets.specs.declared.keys.Key.{Key as SomeKey};
ghost use Rattle.tc_octets.specs.declared.keys.Key.TheVariants as keys;
ghost use Rattle.tc_octets.specs.Epochs.{IsEpoch};
ghost use Rattle.tc_octets.specs.ProfileKeys.{IsNumber, IsYesOrNo, ReadsWord, fine_word, map_word, name_of, spelled, yes_no};
ghost use Rattle.tc_octets.specs.ProfileTexts.{AreSound, IsFirstFault, IsOnly, ProfileReads, ReadsPrinted, Says, said_of, setting, statement_of};
ghost use Rattle.tc_octets.specs.ProfileTexts.{statements, value_given, value_in, value_of};
ghost use Rattle.tc_octets.specs.ProfileParts.{AreValues, HasTc, HasTm, IsNumberIn, value_at};

use crate::keys::{KEYS, Key};
use crate::profile_values::{epoch, is, is_value, number};
use crate::profiles::{Map, Profile, TcChannel, TmChannel};
use crate::statements::{Lines, Statement, read_line};

/// The most octets of a profile's text.
pub const LONGEST_PROFILE: usize = 4096;

/// Why a text is no profile. Within a line, it is the first of these that applies.
#[derive(Clone, Copy, Debug, PartialEq, Eq)]
pub enum ProfileWord {
    /// More than 4,096 octets.
    TooLong,
    /// An octet outside space to `~`, or no equals sign.
    BadText,
    /// None of the sixteen keys.
    UnknownKey,
    /// A key that an earlier line has.
    KeyTwice,
    /// A value that the key may not have.
    BadValue,
    /// `tc.correct = yes` with `tc.fecf = no`, if all lines are sound.
    Clash,
}

/// The first fault of a text.
#[derive(Clone, Copy, Debug, PartialEq, Eq)]
pub struct ProfileFault {
    /// The line, from 1; 0 is the text as a whole.
    pub line: u32,
    /// Why that line is refused.
    pub word: ProfileWord,
}

/// Returns the key with this name.
fn key_named(name: &[u8]) -> Option<Key>
    ensures { ReadsWord name_of (λ key. ⊤) name.now result }
{
    KEYS.iter()
        .copied()
        .find(|key| name == key.name().as_bytes())
}

/// Returns the value that a statement gives a key.
fn value_given<'a>(statement: &Statement<'a>, key: Key) -> Option<&'a [u8]>
    ensures { option_copied result ≡ value_given key (said_of statement.now) }
{
    match statement {
        Statement::Setting { name, value } => if is(name, key.name()) {
            Some(value)
        } else {
            None
        },
        _ => None,
    }
}

/// Returns the value that the first lines of a text give a key.
#[tactic(auto, using(crate::proofs::ProfileTextLemmas::stepped, crate::proofs::ProfileTextLemmas::found, crate::proofs::ProfileTextLemmas::ended))]
fn value_in(text: &[u8], key: Key, count: usize) -> Option<&[u8]>
    ensures { option_copied result ≡ value_in key (take count (statements text.now)) }
{
    let mut lines = Lines::new(text);
    for _place in 0..count {
        let line = match lines.next() {
            Some(line) => line,
            None => return None,
        };
        let given = value_given(&read_line(line), key);
        if given.is_some() {
            return given;
        }
    }
    None
}

/// Returns the value of a key: the one that a text gives, or the default.
#[tactic(auto, using(crate::proofs::ProfileTextLemmas::given_is, crate::proofs::ProfileTextLemmas::default_is))]
fn value_of(text: &[u8], key: Key) -> &[u8]
    ensures { result.now ≡ value_of key (statements text.now) }
{
    match value_in(text, key, text.len()) {
        Some(value) => value,
        None => key.default_value().as_bytes(),
    }
}

/// Returns why a setting is refused after the first lines of a text.
fn fault_of_setting(text: &[u8], count: usize, name: &[u8], value: &[u8]) -> Option<ProfileWord>
    ensures { Says (take count (statements text.now)) (setting name.now value.now) result }
{
    match key_named(name) {
        None => Some(ProfileWord::UnknownKey),
        Some(key) => {
            if value_in(text, key, count).is_some() {
                return Some(ProfileWord::KeyTwice);
            }
            if !is_value(key, value) {
                return Some(ProfileWord::BadValue);
            }
            None
        }
    }
}

/// Returns why a line is refused after the first lines of a text.
fn fault_of(text: &[u8], count: usize, line: &[u8]) -> Option<ProfileWord>
    ensures { Says (take count (statements text.now)) (statement_of line.now) result }
{
    match read_line(line) {
        Statement::Blank => None,
        Statement::Setting { name, value } => fault_of_setting(text, count, name, value),
        Statement::Bad => Some(ProfileWord::BadText),
    }
}

/// Returns the first fault in the lines of a text.
fn first_fault(text: &[u8]) -> Option<ProfileFault>
    requires { length text.now ≤ 4096 }
    ensures { MatchOption result (AreSound (length (statements text.now)) (statements text.now))
        (λ fault. IsFirstFault (statements text.now) fault.line fault.word) }
{
    let mut lines = Lines::new(text);
    let mut count = 0;
    while let Some(line) = lines.next() {
        if let Some(word) = fault_of(text, count, line) {
            return Some(ProfileFault {
                line: count as u32 + 1,
                word,
            });
        }
        count += 1;
    }
    None
}

/// Returns the number of this range that a key has. The text has no fault, so there is one.
fn number_of(text: &[u8], key: Key, least: u32, most: u32) -> u32
    requires { IsNumber least most (value_at text.now key) }
    ensures { IsNumberIn least most result (value_at text.now key) }
{
    number(value_of(text, key)).unwrap_or(least)
}

/// Returns whether a key is `yes`.
fn is_yes(text: &[u8], key: Key) -> bool
    requires { IsYesOrNo (value_at text.now key) }
    ensures { yes_no result ≡ value_at text.now key }
{
    is(value_of(text, key), "yes")
}

/// Returns the MAP of the segment header.
fn map_of(text: &[u8]) -> Option<Map>
    requires { AreValues text.now }
    ensures { map_word result ≡ value_at text.now keys.TcMap }
{
    let id = number(value_of(text, Key::TcMap))?;
    Some(Map { id: id as u8 })
}

/// Returns the width of FARM-1's sliding window.
fn window_of(text: &[u8]) -> u8
    requires { AreValues text.now }
    ensures digits { decimal result ≡ value_at text.now keys.TcWindow }
    ensures least { 2 ≤ result }
    ensures most { result ≤ 254 }
    ensures even { result % 2 ≡ 0 }
{
    number_of(text, Key::TcWindow, 2, 254) as u8
}

/// Returns the telecommand channel.
fn tc_channel(text: &[u8]) -> TcChannel
    requires { AreValues text.now }
    ensures { HasTc result text.now }
{
    let vcid = number_of(text, Key::TcVcid, 0, 63);
    let idle = number_of(text, Key::TcIdle, 0, 255);
    TcChannel {
        vcid: vcid as u8,
        map: map_of(text),
        window: window_of(text),
        fecf: is_yes(text, Key::TcFecf),
        randomizer: is_yes(text, Key::TcRandomizer),
        idle: idle as u8,
        correct: is_yes(text, Key::TcCorrect),
    }
}

/// Returns the telemetry channel.
fn tm_channel(text: &[u8]) -> TmChannel
    requires { AreValues text.now }
    ensures { HasTm result text.now }
{
    let length = number_of(text, Key::TmLength, 32, 2048);
    let vcid = number_of(text, Key::TmVcid, 0, 7);
    TmChannel {
        length: length as u16,
        vcid: vcid as u8,
        fecf: is_yes(text, Key::TmFecf),
    }
}

/// Returns the Unix second of time 0 on board. The text has no fault, so there is one.
fn epoch_of(text: &[u8]) -> i64
    requires { AreValues text.now }
    ensures digits { signed_decimal result ≡ value_at text.now keys.TimeEpoch }
    ensures range { IsEpoch result }
{
    epoch(value_of(text, Key::TimeEpoch)).unwrap_or(0)
}

/// Returns whether times have two octets of fraction.
fn is_fine(text: &[u8]) -> bool
    requires { AreValues text.now }
    ensures { fine_word result ≡ value_at text.now keys.TimeFine }
{
    is(value_of(text, Key::TimeFine), "2")
}

/// Returns the profile of a text whose lines have no fault.
fn profile_of(text: &[u8]) -> Profile
    requires { AreValues text.now }
    ensures { (key : SomeKey) → spelled result key ≡ value_at text.now key }
{
    let scid = number_of(text, Key::Scid, 0, 1023);
    let apid = number_of(text, Key::Apid, 1, 2046);
    let source = number_of(text, Key::Source, 0, 65_535);
    Profile {
        scid: scid as u16,
        tc: tc_channel(text),
        tm: tm_channel(text),
        apid: apid as u16,
        source: source as u16,
        epoch: epoch_of(text),
        fine: is_fine(text),
        rehearsal: is_yes(text, Key::Rehearsal),
    }
}

/// Returns the fault of a text as a whole.
fn whole(word: ProfileWord) -> ProfileFault
    ensures { result ≡ record { line = 0; word = word } }
{
    ProfileFault { line: 0, word }
}

/// Reads a profile, or names the first fault.
fn answer_of(text: &[u8]) -> Result<Profile, ProfileFault>
    ensures { ProfileReads text.now result }
{
    if text.len() > LONGEST_PROFILE {
        return Err(whole(ProfileWord::TooLong));
    }
    if let Some(fault) = first_fault(text) {
        return Err(fault);
    }
    let profile = profile_of(text);
    if profile.tc.correct && !profile.tc.fecf {
        return Err(whole(ProfileWord::Clash));
    }
    Ok(profile)
}

/// Reads a profile. A key that the text does not give has its default. Returns the first fault if the text has one. Takes no memory.
#[tactic(auto, using(crate::proofs::ProfileTextLaws::is_only, crate::proofs::ProfileTextLaws::reads_printed))]
pub fn read_profile(text: &[u8]) -> Result<Profile, ProfileFault>
    ensures value { ProfileReads text.now result }
    ensures only { IsOnly text.now result }
    ensures printed { ReadsPrinted text.now result }
{
    answer_of(text)
}
