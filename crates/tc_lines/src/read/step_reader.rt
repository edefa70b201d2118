//! Words that are read as an act which records a step.
ghost use Rattle.std.specs.Prelude.{◌≡◌, ⊤, ◌∷◌};
ghost use Rattle.tc_types.specs.declared.verbs.Verb.TheVariants as verb;
ghost use Rattle.tc_types.specs.Verbs.{verb_word};
ghost use Rattle.tc_types.specs.Grammar.{Reads};
ghost use Rattle.tc_types.specs.StepGrammar.{verdict_word, second_word, IsSecond};
ghost use Rattle.tc_types.specs.ActGrammar.{step_words, IsStepAct};

use crate::read::readers::{is, number};
use crate::read::words::Words;
use tc_types::{Person, StepAct, Verdict};

/// What became of a step.
fn verdict(word: &[u8]) -> Option<Verdict>
    ensures { Reads verdict_word (λ verdict. ⊤) word.now result }
{
    if is(word, b"done") {
        Some(Verdict::Done)
    } else if is(word, b"skipped") {
        Some(Verdict::Skipped)
    } else if is(word, b"failed") {
        Some(Verdict::Failed)
    } else {
        None
    }
}

/// The second person, or none.
fn second(word: &[u8]) -> Option<Option<Person>>
    ensures { Reads second_word IsSecond word.now result }
{
    if is(word, b"-") {
        return Some(None);
    }
    let person = Person::read(word)?;
    Some(Some(person))
}

/// What stands behind `step`.
pub(crate) fn step(words: &mut Words<'_>) -> Option<StepAct>
    ensures { Reads step_words IsStepAct (verb_word verb.Step ∷ words.old) result }
{
    let execution = number(words.next()?)?;
    let step = number(words.next()?)?;
    let verdict = verdict(words.next()?)?;
    let second = second(words.next()?)?;
    words.end()?;
    Some(StepAct {
        execution,
        step,
        verdict,
        second,
    })
}
