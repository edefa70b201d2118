//! Texts that are read as script lines.
ghost use Rattle.std.specs.Prelude.{◌≡◌, ◌≢◌, ◌↔◌, ◌≤◌, IsTrue, Ok, Err, IfOk, IfErr, length, option_map};
ghost use Rattle.tc_types.specs.declared.acts.Line.{Line};
ghost use Rattle.tc_types.specs.declared.refusals.Refusal.TheVariants as refusal;
ghost use Rattle.tc_types.specs.Grammar.{Reads};
ghost use Rattle.tc_types.specs.ActGrammar.{act_text, line_text, SpellsLine, act_part, HasLongAct, line_words, IsLine};

use crate::read::act_reader::act_of;
use crate::read::readers::moment;
use crate::read::words::{Words, cut};
use tc_types::limits::LONGEST_ACT;
use tc_types::{Line, Person, Refusal};

/// All behind the second space of a line; `None` where it has fewer than two.
fn act_part(text: &[u8]) -> Option<&[u8]>
    ensures { option_map (λ part. part.now) result ≡ act_part text.now }
{
    let (_, rest) = cut(text, b' ');
    let (_, rest) = cut(rest?, b' ');
    rest
}

/// Whether the act of a line is too long.
pub(crate) fn has_long_act(text: &[u8]) -> bool
    ensures { IsTrue result ↔ HasLongAct text.now }
{
    match act_part(text) {
        Some(part) => part.len() > LONGEST_ACT,
        None => false,
    }
}

/// The words of a line.
fn line_of(words: &mut Words<'_>) -> Option<Line>
    ensures { Reads line_words IsLine words.old result }
{
    let moment = moment(words.next()?)?;
    let by = Person::read(words.next()?)?;
    let act = act_of(words)?;
    Some(Line { moment, by, act })
}

/// The line that these bytes spell, however many they are.
fn line(text: &[u8]) -> Option<Line>
    ensures { Reads line_text IsLine text.now result }
{
    line_of(&mut Words::new(text, b' '))
}

/// The script line that these bytes spell: `MOMENT PERSON ACT`, without its LF. Fails with `TooLong` where all behind
/// the second space is more than 200 bytes, whatever stands before it, and with `BadText` where it is no more and the
/// bytes spell no line.
pub fn read_line(text: &[u8]) -> Result<Line, Refusal>
    ensures found { IfOk result (λ line. SpellsLine text.now line) }
    ensures only { (line : Line) → SpellsLine text.now line → length (act_text line.act) ≤ 200 → result ≡ Ok line }
    ensures too_long { (result ≡ Err refusal.TooLong) ↔ HasLongAct text.now }
    ensures others { IfErr result (λ e. e ≢ refusal.TooLong → e ≡ refusal.BadText) }
{
    if has_long_act(text) {
        return Err(Refusal::TooLong);
    }
    match line(text) {
        Some(line) => Ok(line),
        None => Err(Refusal::BadText),
    }
}
