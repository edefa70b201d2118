//! Texts that are read as script lines which load a file.
ghost use Rattle.std.specs.Prelude.{◌≡◌, ◌≢◌, ◌↔◌, ◌==◌, ⊤, Err, IfOk, IfErr, IsOkAnd, option_map};
ghost use Rattle.std.specs.List.{list_any};
ghost use Rattle.tc_types.specs.declared.refusals.Refusal.TheVariants as refusal;
ghost use Rattle.tc_types.specs.Grammar.{Reads};
ghost use Rattle.tc_types.specs.ActGrammar.{HasLongAct};
ghost use Rattle.tc_types.specs.Loads.{LoadLine, line_of, IsPath, kind_word, load_words, IsLoad, load_text, SpellsLoad};

use crate::read::line_reader::has_long_act;
use crate::read::readers::moment;
use crate::read::words::Words;
use std::str;
use tc_types::{Load, LoadKind, Name, Person, Refusal, Verb};

/// Whether a space is among these bytes.
fn has_space(word: &[u8]) -> bool
    ensures { result ≡ list_any (λ byte. byte == 32) word.now }
{
    word.iter().any(|byte| *byte == b' ')
}

/// A path.
fn path(word: &[u8]) -> Option<&str>
    ensures { Reads (λ p. p) IsPath word.now (option_map (λ p. p.now) result) }
{
    if word.is_empty() || has_space(word) {
        return None;
    }
    match str::from_utf8(word) {
        Ok(path) => Some(path),
        Err(_) => None,
    }
}

/// What is loaded.
fn kind(word: &[u8]) -> Option<LoadKind>
    ensures { Reads kind_word (λ kind. ⊤) word.now result }
{
    if Verb::Stack.is(word) {
        Some(LoadKind::Stack)
    } else if Verb::Procedure.is(word) {
        Some(LoadKind::Procedure)
    } else {
        None
    }
}

/// The words of such a line.
fn load_of<'a>(words: &mut Words<'a>) -> Option<Load<'a>>
    ensures { Reads load_words IsLoad words.old (option_map line_of result) }
{
    let moment = moment(words.next()?)?;
    let by = Person::read(words.next()?)?;
    let kind = kind(words.next()?)?;
    let name = Name::read(words.next()?)?;
    let path = path(words.next()?)?;
    words.end()?;
    Some(Load {
        moment,
        by,
        kind,
        name,
        path,
    })
}

/// The line that these bytes spell, however many they are.
fn load(text: &[u8]) -> Option<Load<'_>>
    ensures { Reads load_text IsLoad text.now (option_map line_of result) }
{
    load_of(&mut Words::new(text, b' '))
}

/// The script line which loads a file that these bytes spell: `MOMENT PERSON stack NAME PATH`, or `procedure` in place of
/// `stack`, without its LF. Fails with `TooLong` where all behind the second space is more than 200 bytes, whatever stands before
/// it, and with `BadText` where it is no more and the bytes spell no such line.
pub fn read_load(text: &[u8]) -> Result<Load<'_>, Refusal>
    ensures found { IfOk result (λ load. SpellsLoad text.now (line_of load)) }
    ensures only { (line : LoadLine) → SpellsLoad text.now line → (¬ HasLongAct text.now) → IsOkAnd result (λ load. line_of load ≡ line) }
    ensures too_long { (result ≡ Err refusal.TooLong) ↔ HasLongAct text.now }
    ensures others { IfErr result (λ e. e ≢ refusal.TooLong → e ≡ refusal.BadText) }
{
    if has_long_act(text) {
        return Err(Refusal::TooLong);
    }
    match load(text) {
        Some(load) => Ok(load),
        None => Err(Refusal::BadText),
    }
}
