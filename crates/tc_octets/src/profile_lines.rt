//! A link's profile, printed as its text. The format is this project's own.
ghost use Rattle.std.specs.Prelude.{◌≡◌, Some};
ghost use Rattle.tc_octets.specs.ProfileKeys.{fine_word, spelled, yes_no};
ghost use Rattle.tc_octets.specs.ProfileTexts.{fault_line, profile_text, word_name};

use crate::keys::{KEYS, Key};
use crate::profile_texts::{ProfileFault, ProfileWord};
use crate::profiles::Profile;
use std::fmt;

/// Returns a choice as a text spells it.
fn yes_or_no(yes: bool) -> &'static str
    ensures { result.now ≡ yes_no yes }
{
    if yes { "yes" } else { "no" }
}

/// Returns the octets of the fraction of a second as a text spells them.
fn fine_digits(fine: bool) -> &'static str
    ensures { result.now ≡ fine_word fine }
{
    if fine { "2" } else { "0" }
}

/// The value that a profile has for a key.
#[derive(Clone, Copy)]
struct Spelled<'a> {
    profile: &'a Profile,
    key: Key,
}

impl fmt::Display for Spelled<'_> {
    ghost output = { λ value. Some (spelled value.profile.now value.key) };

    fn fmt<W: fmt::Write>(&self, f: &mut fmt::Formatter<W>) -> fmt::Result {
        let profile = self.profile;
        match self.key {
            Key::Scid => write!(f, "{}", profile.scid),
            Key::TcVcid => write!(f, "{}", profile.tc.vcid),
            Key::TcMap => match profile.tc.map {
                Some(map) => write!(f, "{}", map.id),
                None => write!(f, "none"),
            },
            Key::TcWindow => write!(f, "{}", profile.tc.window),
            Key::TcFecf => write!(f, "{}", yes_or_no(profile.tc.fecf)),
            Key::TcRandomizer => write!(f, "{}", yes_or_no(profile.tc.randomizer)),
            Key::TcIdle => write!(f, "{}", profile.tc.idle),
            Key::TcCorrect => write!(f, "{}", yes_or_no(profile.tc.correct)),
            Key::TmLength => write!(f, "{}", profile.tm.length),
            Key::TmVcid => write!(f, "{}", profile.tm.vcid),
            Key::TmFecf => write!(f, "{}", yes_or_no(profile.tm.fecf)),
            Key::Apid => write!(f, "{}", profile.apid),
            Key::Source => write!(f, "{}", profile.source),
            Key::TimeEpoch => write!(f, "{}", profile.epoch),
            Key::TimeFine => write!(f, "{}", fine_digits(profile.fine)),
            Key::Rehearsal => write!(f, "{}", yes_or_no(profile.rehearsal)),
        }
    }
}

/// All sixteen keys in their order, `key = value` and LF each.
impl fmt::Display for Profile {
    ghost output = { λ profile. Some (profile_text profile) };

    fn fmt<W: fmt::Write>(&self, f: &mut fmt::Formatter<W>) -> fmt::Result {
        for key in KEYS {
            let name = key.name();
            let value = Spelled { profile: self, key };
            writeln!(f, "{name} = {value}")?;
        }
        Ok(())
    }
}

impl ProfileWord {
    /// Returns the word, as it is printed.
    pub fn name(self) -> &'static str
        ensures { result.now ≡ word_name self }
    {
        match self {
            ProfileWord::TooLong => "TooLong",
            ProfileWord::BadText => "BadText",
            ProfileWord::UnknownKey => "UnknownKey",
            ProfileWord::KeyTwice => "KeyTwice",
            ProfileWord::BadValue => "BadValue",
            ProfileWord::Clash => "Clash",
        }
    }
}

impl fmt::Display for ProfileWord {
    ghost output = { λ word. Some (word_name word) };

    fn fmt<W: fmt::Write>(&self, f: &mut fmt::Formatter<W>) -> fmt::Result {
        let name = self.name();
        write!(f, "{name}")
    }
}

/// `line N: Word`, and `Word` alone if the text as a whole is refused.
impl fmt::Display for ProfileFault {
    ghost output = { λ fault. Some (fault_line fault) };

    fn fmt<W: fmt::Write>(&self, f: &mut fmt::Formatter<W>) -> fmt::Result {
        let line = self.line;
        let word = self.word;
        if line == 0 {
            write!(f, "{word}")
        } else {
            write!(f, "line {line}: {word}")
        }
    }
}
