//! What stands behind a word.
ghost use Rattle.std.specs.Prelude.{◌≡◌};
ghost use Rattle.tc_script.specs.Slots.{behind, behind_entry, behind_initiation, behind_setting, completes};

use crate::lists::count_parts;
use crate::slots::Slot;
use crate::sorts::Sort;
use crate::verbs::{first_slot, same};
use tc_types::Verb;

/// What stands behind `initiate` and this word.
fn behind_initiation(word: &[u8]) -> Option<Slot>
    ensures { result ≡ behind_initiation word.now }
{
    if same(word, b"setvr") {
        Some(Slot::Counter)
    } else {
        None
    }
}

/// What stands behind `set` and this word.
fn behind_setting(word: &[u8]) -> Option<Slot>
    ensures { result ≡ behind_setting word.now }
{
    if same(word, b"vs") {
        Some(Slot::Counter)
    } else if same(word, b"k") {
        Some(Slot::Window)
    } else if same(word, b"t1") {
        Some(Slot::Ticks)
    } else {
        Some(Slot::Limit)
    }
}

/// Whether four flags ask for the report of a completion.
fn completes(word: &[u8]) -> bool
    ensures { result ≡ completes word.now }
{
    match word.get(3) {
        Some(flag) => *flag == b'c',
        None => false,
    }
}

/// What stands behind this word of an entry.
fn behind_entry(slot: Slot, word: &[u8]) -> Option<Slot>
    ensures { result ≡ behind_entry slot word.now }
{
    match slot {
        Slot::Apid => Some(Slot::Ack),
        Slot::Ack => Some(Slot::Critical {
            completes: completes(word),
        }),
        Slot::Critical { completes } => Some(Slot::Service { completes }),
        Slot::Service { .. } => Some(Slot::Subtype {
            is_scheduling: same(word, b"11"),
        }),
        Slot::Subtype { is_scheduling } => Some(Slot::Target(Sort::of(is_scheduling, word))),
        Slot::Target(Sort::Insert) => Some(Slot::Times(count_parts(word))),
        Slot::Target(sort) => Some(Slot::Offset(sort)),
        Slot::Offset(sort) => Some(Slot::Outcome {
            is_scheduling: sort.is_schedule(),
        }),
        Slot::Times(_) => Some(Slot::Outcome {
            is_scheduling: true,
        }),
        _ => None,
    }
}

/// What stands behind this word, at its place; `None` where the line ends there.
pub(crate) fn behind(slot: Slot, word: &[u8]) -> Option<Slot>
    ensures { result ≡ behind slot word.now }
{
    match slot {
        Slot::Moment => Some(Slot::Person),
        Slot::Person => Some(Slot::Verb),
        Slot::Verb => first_slot(Verb::read(word)?),
        Slot::HistoryOf => Some(Slot::After),
        Slot::StandingAt => Some(Slot::Past),
        Slot::StepOf => Some(Slot::Step),
        Slot::Step => Some(Slot::Verdict),
        Slot::Verdict => Some(Slot::Second),
        Slot::NewName => Some(Slot::Path),
        Slot::From => Some(Slot::To),
        Slot::Initiation => behind_initiation(word),
        Slot::Setting => behind_setting(word),
        _ => behind_entry(slot, word),
    }
}
