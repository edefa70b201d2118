//! Words that are read as questions.
ghost use Rattle.std.specs.Prelude.{◌≡◌, ⊤, ◌∷◌};
ghost use Rattle.tc_types.specs.declared.verbs.Verb.TheVariants as verb;
ghost use Rattle.tc_types.specs.Verbs.{verb_word};
ghost use Rattle.tc_types.specs.Lines.{place_name};
ghost use Rattle.tc_types.specs.Grammar.{Reads};
ghost use Rattle.tc_types.specs.ActGrammar.{query_words, IsQuery, asks};

use crate::read::readers::{moment, number};
use crate::read::words::Words;
use tc_types::{ALL_PLACES, Name, Place, Query, Verb};

/// What stands behind `history`.
fn history(words: &mut Words<'_>) -> Option<Query>
    ensures { Reads query_words IsQuery (verb_word verb.History ∷ words.old) result }
{
    let request = number(words.next()?)?;
    let after = number(words.next()?)?;
    words.end()?;
    Some(Query::History { request, after })
}

/// What stands behind `places`.
fn places(words: &mut Words<'_>) -> Option<Query>
    ensures { Reads query_words IsQuery (verb_word verb.Places ∷ words.old) result }
{
    words.end()?;
    Some(Query::Places)
}

/// What stands behind `request`.
fn request_asked(words: &mut Words<'_>) -> Option<Query>
    ensures { Reads query_words IsQuery (verb_word verb.Request ∷ words.old) result }
{
    let request = number(words.next()?)?;
    words.end()?;
    Some(Query::Request { request })
}

/// What stands behind `link`.
fn link(words: &mut Words<'_>) -> Option<Query>
    ensures { Reads query_words IsQuery (verb_word verb.Link ∷ words.old) result }
{
    words.end()?;
    Some(Query::Link)
}

/// What stands behind `schedule`.
fn schedule(words: &mut Words<'_>) -> Option<Query>
    ensures { Reads query_words IsQuery (verb_word verb.Schedule ∷ words.old) result }
{
    words.end()?;
    Some(Query::Schedule)
}

/// What stands behind `log`.
fn log(words: &mut Words<'_>) -> Option<Query>
    ensures { Reads query_words IsQuery (verb_word verb.Log ∷ words.old) result }
{
    let execution = number(words.next()?)?;
    words.end()?;
    Some(Query::Log { execution })
}

/// What stands behind `report`.
fn report(words: &mut Words<'_>) -> Option<Query>
    ensures { Reads query_words IsQuery (verb_word verb.Report ∷ words.old) result }
{
    let from = moment(words.next()?)?;
    let to = moment(words.next()?)?;
    words.end()?;
    Some(Query::Report { from, to })
}

/// What stands behind `waiting`.
fn waiting(words: &mut Words<'_>) -> Option<Query>
    ensures { Reads query_words IsQuery (verb_word verb.Waiting ∷ words.old) result }
{
    words.end()?;
    Some(Query::Waiting)
}

/// What stands behind `urgent`.
fn urgent(words: &mut Words<'_>) -> Option<Query>
    ensures { Reads query_words IsQuery (verb_word verb.Urgent ∷ words.old) result }
{
    let from = number(words.next()?)?;
    words.end()?;
    Some(Query::Urgent { from })
}

/// What stands behind `moves`.
fn moves(words: &mut Words<'_>) -> Option<Query>
    ensures { Reads query_words IsQuery (verb_word verb.Moves ∷ words.old) result }
{
    let after = number(words.next()?)?;
    words.end()?;
    Some(Query::Moves { after })
}

/// The place with this name.
fn place(word: &[u8]) -> Option<Place>
    ensures { Reads place_name (λ place. ⊤) word.now result }
{
    ALL_PLACES
        .iter()
        .copied()
        .find(|place| word == place.name().as_bytes())
}

/// What stands behind `standing`.
fn standing(words: &mut Words<'_>) -> Option<Query>
    ensures { Reads query_words IsQuery (verb_word verb.Standing ∷ words.old) result }
{
    let place = place(words.next()?)?;
    let after = number(words.next()?)?;
    words.end()?;
    Some(Query::Standing { place, after })
}

/// What stands behind `steps`.
fn steps(words: &mut Words<'_>) -> Option<Query>
    ensures { Reads query_words IsQuery (verb_word verb.Steps ∷ words.old) result }
{
    let procedure = Name::read(words.next()?)?;
    words.end()?;
    Some(Query::Steps { procedure })
}

/// The verbs of questions.
const QUESTIONS: [Verb; 12] = [
    Verb::Places,
    Verb::History,
    Verb::Request,
    Verb::Link,
    Verb::Schedule,
    Verb::Log,
    Verb::Report,
    Verb::Waiting,
    Verb::Urgent,
    Verb::Moves,
    Verb::Standing,
    Verb::Steps,
];

/// Whether a word is the verb of a question.
pub(crate) fn is_question(word: &[u8]) -> bool
    ensures { result ≡ asks word.now }
{
    QUESTIONS.iter().any(|verb| word == verb.word().as_bytes())
}

/// A question: its verb, and the words behind it.
pub(crate) fn query_of(verb: &[u8], words: &mut Words<'_>) -> Option<Query>
    ensures { Reads query_words IsQuery (verb.now ∷ words.old) result }
{
    if Verb::Places.is(verb) {
        places(words)
    } else if Verb::History.is(verb) {
        history(words)
    } else if Verb::Request.is(verb) {
        request_asked(words)
    } else if Verb::Link.is(verb) {
        link(words)
    } else if Verb::Schedule.is(verb) {
        schedule(words)
    } else if Verb::Log.is(verb) {
        log(words)
    } else if Verb::Report.is(verb) {
        report(words)
    } else if Verb::Waiting.is(verb) {
        waiting(words)
    } else if Verb::Urgent.is(verb) {
        urgent(words)
    } else if Verb::Moves.is(verb) {
        moves(words)
    } else if Verb::Standing.is(verb) {
        standing(words)
    } else if Verb::Steps.is(verb) {
        steps(words)
    } else {
        None
    }
}
