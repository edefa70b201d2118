//! Whether a word is the spelling of a value, as the readers of the desk read one.
ghost use Rattle.std.specs.Prelude.{◌≡◌, ◌==◌, ◌↔◌, ⊤, IsTrue, true, false};
ghost use Rattle.std.specs.Fmt.{decimal, signed_decimal};
ghost use Rattle.std.specs.List.{list_any};
ghost use Rattle.std.specs.Str.{IsUtf8};
ghost use Rattle.tc_types.specs.Numbers.{IsMoment, IsNumber, IsOffset, IsApid, IsCounter, IsWindow, IsTicks, IsTransmissionLimit};
ghost use Rattle.tc_types.specs.Names.{IsName, IsPerson};
ghost use Rattle.tc_types.specs.Grammar.{ack_word, yes_no, outcome_word, IsOutcome};
ghost use Rattle.tc_types.specs.declared.history.places.TheConstants.{ALL_PLACES};
ghost use Rattle.tc_types.specs.Lines.{place_name};
ghost use Rattle.tc_types.specs.Loads.{IsPath};
ghost use Rattle.tc_types.specs.StepGrammar.{verdict_word, second_word, IsSecond};
ghost use Rattle.tc_script.specs.Verbs.{same};
ghost use Rattle.tc_script.specs.Fits.{FitsOutcome, FitsSubtype, IsDash, IsServiceFor, Spells, initiations, is_one_of, schedule_subtypes, settings};

use crate::verbs::same;
use std::str;
use tc_lines::read::entry_reader::outcome;
use tc_lines::read::readers::{
    ack, apid, counter, is, moment, number, offset, subtype, ticks, transmission_limit, window,
    yes_or_no,
};
use tc_types::{ALL_PLACES, Name, Person};

/// A number.
#[tactic(auto, using(crate::proofs::FormLemmas::read_spells))]
pub(crate) fn is_number(word: &[u8]) -> bool
    ensures { IsTrue result ↔ Spells decimal IsNumber word.now }
{
    number(word).is_some()
}

/// A moment.
#[tactic(auto, using(crate::proofs::FormLemmas::read_spells))]
pub(crate) fn is_moment(word: &[u8]) -> bool
    ensures { IsTrue result ↔ Spells decimal IsMoment word.now }
{
    moment(word).is_some()
}

/// Seconds, of either sign.
#[tactic(auto, using(crate::proofs::FormLemmas::read_spells))]
pub(crate) fn is_offset(word: &[u8]) -> bool
    ensures { IsTrue result ↔ Spells signed_decimal IsOffset word.now }
{
    offset(word).is_some()
}

/// An application process.
#[tactic(auto, using(crate::proofs::FormLemmas::read_spells))]
pub(crate) fn is_apid(word: &[u8]) -> bool
    ensures { IsTrue result ↔ Spells decimal IsApid word.now }
{
    apid(word).is_some()
}

/// A counter of the link.
#[tactic(auto, using(crate::proofs::FormLemmas::read_spells))]
pub(crate) fn is_counter(word: &[u8]) -> bool
    ensures { IsTrue result ↔ Spells decimal IsCounter word.now }
{
    counter(word).is_some()
}

/// A width of the FOP sliding window.
#[tactic(auto, using(crate::proofs::FormLemmas::read_spells))]
pub(crate) fn is_window(word: &[u8]) -> bool
    ensures { IsTrue result ↔ Spells decimal IsWindow word.now }
{
    window(word).is_some()
}

/// A T1_Initial.
#[tactic(auto, using(crate::proofs::FormLemmas::read_spells))]
pub(crate) fn is_ticks(word: &[u8]) -> bool
    ensures { IsTrue result ↔ Spells decimal IsTicks word.now }
{
    ticks(word).is_some()
}

/// A Transmission_Limit.
#[tactic(auto, using(crate::proofs::FormLemmas::read_spells))]
pub(crate) fn is_limit(word: &[u8]) -> bool
    ensures { IsTrue result ↔ Spells decimal IsTransmissionLimit word.now }
{
    transmission_limit(word).is_some()
}

/// Four flags, for the reports that are asked for.
#[tactic(auto, using(crate::proofs::FormLemmas::read_spells))]
pub(crate) fn is_ack(word: &[u8]) -> bool
    ensures { IsTrue result ↔ Spells ack_word (λ ack. Unit {0}) word.now }
{
    ack(word).is_some()
}

/// Yes or no.
#[tactic(auto, using(crate::proofs::FormLemmas::read_spells))]
pub(crate) fn is_yes_or_no(word: &[u8]) -> bool
    ensures { IsTrue result ↔ Spells yes_no (λ critical. Unit {0}) word.now }
{
    yes_or_no(word).is_some()
}

/// A person.
#[tactic(auto, using(crate::proofs::FormLemmas::read_is))]
pub(crate) fn is_person(word: &[u8]) -> bool
    ensures { IsTrue result ↔ IsPerson word.now }
{
    Person::read(word).is_some()
}

/// A name of a stack or of a procedure.
pub(crate) fn is_name(word: &[u8]) -> bool
    ensures { IsTrue result ↔ IsName word.now }
{
    Name::read(word).is_some()
}

/// A dash.
pub(crate) fn is_dash(word: &[u8]) -> bool
    ensures { IsTrue result ↔ IsDash word.now }
{
    is(word, b"-")
}

/// The second person, or none.
pub(crate) fn is_second(word: &[u8]) -> bool
    ensures { IsTrue result ↔ Spells second_word IsSecond word.now }
{
    is_dash(word) || is_person(word)
}

/// What became of a step.
pub(crate) fn is_verdict(word: &[u8]) -> bool
    ensures { IsTrue result ↔ Spells verdict_word (λ verdict. ⊤) word.now }
{
    is(word, b"done") || is(word, b"skipped") || is(word, b"failed")
}

/// Whether one of all places has this name.
fn is_named(word: &[u8]) -> bool
    ensures { result ≡ list_any (λ place. same (place_name place) word.now) ALL_PLACES }
{
    ALL_PLACES
        .iter()
        .any(|place| same(place.name().as_bytes(), word))
}

/// The name of a place.
pub(crate) fn is_place(word: &[u8]) -> bool
    ensures { IsTrue result ↔ Spells place_name (λ place. ⊤) word.now }
{
    is_named(word)
}

/// Whether a space is among these bytes.
fn has_space(word: &[u8]) -> bool
    ensures { result ≡ list_any (λ byte. byte == 32) word.now }
{
    word.iter().any(|byte| *byte == b' ')
}

/// Whether these bytes are text.
fn is_text(word: &[u8]) -> bool
    ensures { IsTrue result ↔ IsUtf8 word.now }
{
    str::from_utf8(word).is_ok()
}

/// Where a file is.
pub(crate) fn is_path(word: &[u8]) -> bool
    ensures { IsTrue result ↔ IsPath word.now }
{
    if word.is_empty() || has_space(word) {
        return false;
    }
    is_text(word)
}

/// How the service begins.
pub(crate) fn is_initiation(word: &[u8]) -> bool
    ensures { result ≡ is_one_of initiations word.now }
{
    same(word, b"none") || same(word, b"check") || same(word, b"unlock") || same(word, b"setvr")
}

/// What is set.
pub(crate) fn is_setting(word: &[u8]) -> bool
    ensures { result ≡ is_one_of settings word.now }
{
    same(word, b"vs") || same(word, b"k") || same(word, b"t1") || same(word, b"limit")
}

/// A service: 11 where completion is among the reports alone.
pub(crate) fn is_service(completes: bool, word: &[u8]) -> bool
    ensures { IsTrue result ↔ Spells decimal (IsServiceFor completes) word.now }
{
    match number(word) {
        Some(11) => completes,
        Some(service) => 0 < service && service < 256,
        None => false,
    }
}

/// A subtype of the on-board schedule.
fn is_schedule_subtype(word: &[u8]) -> bool
    ensures { result ≡ is_one_of schedule_subtypes word.now }
{
    let is_few = same(word, b"1") || same(word, b"2") || same(word, b"3") || same(word, b"4");
    is_few || same(word, b"5") || same(word, b"7") || same(word, b"15") || same(word, b"17")
}

/// A subtype of another service.
#[tactic(auto, using(crate::proofs::FormLemmas::read_spells))]
fn is_plain_subtype(word: &[u8]) -> bool
    ensures { IsTrue result ↔ FitsSubtype false word.now }
{
    subtype(word).is_some()
}

/// A subtype, of service 11 or of another.
pub(crate) fn is_subtype(is_scheduling: bool, word: &[u8]) -> bool
    ensures { IsTrue result ↔ FitsSubtype is_scheduling word.now }
{
    if is_scheduling {
        is_schedule_subtype(word)
    } else {
        is_plain_subtype(word)
    }
}

/// An outcome of a plain request.
#[tactic(auto, using(crate::proofs::FormLemmas::read_spells))]
fn is_plain_outcome(word: &[u8]) -> bool
    ensures { IsTrue result ↔ FitsOutcome false word.now }
{
    outcome(word).is_some()
}

/// An outcome, of service 11 or of another.
pub(crate) fn is_outcome(is_scheduling: bool, word: &[u8]) -> bool
    ensures { IsTrue result ↔ FitsOutcome is_scheduling word.now }
{
    if is_scheduling {
        is(word, b"ok")
    } else {
        is_plain_outcome(word)
    }
}
