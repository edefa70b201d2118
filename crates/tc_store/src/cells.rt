//! The values of a row that is read. Each function fails where the value is not one that the desk writes.
ghost use Rattle.std.specs.Prelude.{◌≡◌, ◌≢◌, ◌<◌, ◌^◌, ℕ, ℤ, pos, true, if◌then◌else◌, Bool, List, [], string_bytes, Option, Some, IfOk, IfSome};
ghost use Rattle.sqlite_value.specs.declared.value.Value.TheVariants.{Int, Text};
ghost use Rattle.sqlite_value.specs.Order.{column};
ghost use Rattle.tc_types.specs.declared.history.places.Place.{Place as SomePlace};
ghost use Rattle.tc_types.specs.declared.history.causes.Cause.{Cause as SomeCause};
ghost use Rattle.tc_types.specs.Lawful.{place_number, cause_number};
ghost use Rattle.tc_types.specs.declared.verdicts.Verdict.{Verdict as SomeVerdict};
ghost use Rattle.tc_types.specs.Verdicts.{verdict_number};
ghost use Rattle.std.specs.Str.{IsUtf8};
ghost use Rattle.tc_store.specs.Ledgers.{EndsLine, IsKeptText};
ghost use Rattle.tc_store.specs.Moves.{from_number};
ghost use Rattle.tc_store.specs.ProcedureSteps.{released_number};
ghost use Rattle.tc_store.specs.Records.{second_text};
ghost use Rattle.tc_store.specs.Shows.{ShowsNumber};
ghost use Rattle.tc_store.specs.ReadsBack.{OnlyMemory};
ghost use Rattle.tc_types.specs.Names.{IsName};
ghost use Rattle.tc_types.specs.Numbers.{IsMoment, IsRequestNumber};
ghost use Rattle.tc_types.specs.StepTexts.{is_step_text};

use crate::faults::ReadFault;
use sqlite::Row;
use tc_types::{Cause, Moment, Name, Place, RequestNumber, StepText, Verdict};

/// A number.
pub(crate) fn number_at(row: &Row, at: usize) -> Result<u32, ReadFault>
    ensures reads { IfOk result (ShowsNumber row.now at) }
    ensures back { (n : ℕ) → n < 2 ^ 32 → ShowsNumber row.now at n → OnlyMemory result }
{
    Ok(row.get(at)?)
}

/// A number of one byte.
fn byte_at(row: &Row, at: usize) -> Result<u8, ReadFault>
    ensures reads { IfOk result (ShowsNumber row.now at) }
    ensures back { (n : ℕ) → n < 2 ^ 8 → ShowsNumber row.now at n → OnlyMemory result }
{
    let number = number_at(row, at)?;
    u8::try_from(number).map_err(|_| ReadFault::Damaged)
}

/// A position in a list, from 1.
pub(crate) fn position_at(row: &Row, at: usize) -> Result<u8, ReadFault>
    ensures reads { IfOk result (ShowsNumber row.now at) }
    ensures told { IfOk result (λ position. position ≢ 0) }
    ensures back { (n : ℕ) → n < 2 ^ 8 → n ≢ 0 → ShowsNumber row.now at n → OnlyMemory result }
{
    let position = byte_at(row, at)?;
    if position == 0 {
        return Err(ReadFault::Damaged);
    }
    Ok(position)
}

/// The number of a request.
pub(crate) fn request_at(row: &Row, at: usize) -> Result<RequestNumber, ReadFault>
    ensures reads { IfOk result (ShowsNumber row.now at) }
    ensures back { (n : ℕ) → IsRequestNumber n → ShowsNumber row.now at n → OnlyMemory result }
{
    let number = number_at(row, at)?;
    RequestNumber::new(number).ok_or(ReadFault::Damaged)
}

/// A moment.
pub(crate) fn moment_at(row: &Row, at: usize) -> Result<Moment, ReadFault>
    ensures reads { IfOk result (ShowsNumber row.now at) }
    ensures back { (n : ℕ) → IsMoment n → ShowsNumber row.now at n → OnlyMemory result }
{
    let seconds = number_at(row, at)?;
    Moment::new(seconds).ok_or(ReadFault::Damaged)
}

/// A place by its number.
pub(crate) fn place_at(row: &Row, at: usize) -> Result<Place, ReadFault>
    ensures same { IfOk result (λ place. (was : SomePlace) → column row.now at ≡ Int (pos (place_number was)) → place ≡ was) }
    ensures reads { IfOk result (λ place. column row.now at ≡ Int (pos (place_number place))) }
    ensures back { (was : SomePlace) → column row.now at ≡ Int (pos (place_number was)) → OnlyMemory result }
{
    let number = byte_at(row, at)?;
    Place::from_number(number).ok_or(ReadFault::Damaged)
}

/// A place by its number, or nowhere by 0.
pub(crate) fn from_at(row: &Row, at: usize) -> Result<Option<Place>, ReadFault>
    ensures same { IfOk result (λ place. (was : Option SomePlace) → column row.now at ≡ Int (pos (from_number was)) → place ≡ was) }
    ensures reads { IfOk result (λ place. column row.now at ≡ Int (pos (from_number place))) }
    ensures back { (was : Option SomePlace) → column row.now at ≡ Int (pos (from_number was)) → OnlyMemory result }
{
    let number = byte_at(row, at)?;
    if number == 0 {
        return Ok(None);
    }
    match Place::from_number(number) {
        Some(place) => Ok(Some(place)),
        None => Err(ReadFault::Damaged),
    }
}

/// A cause by its number.
pub(crate) fn cause_at(row: &Row, at: usize) -> Result<Cause, ReadFault>
    ensures same { IfOk result (λ cause. (was : SomeCause) → column row.now at ≡ Int (pos (cause_number was)) → cause ≡ was) }
    ensures reads { IfOk result (λ cause. column row.now at ≡ Int (pos (cause_number cause))) }
    ensures back { (was : SomeCause) → column row.now at ≡ Int (pos (cause_number was)) → OnlyMemory result }
{
    let number = byte_at(row, at)?;
    Cause::from_number(number).ok_or(ReadFault::Damaged)
}

/// A name.
pub(crate) fn name_at(row: &Row, at: usize) -> Result<Name, ReadFault>
    ensures reads { IfOk result (λ name. column row.now at ≡ Text name) }
    ensures back { (was : List ℕ) → IsName was → column row.now at ≡ Text was → OnlyMemory result }
{
    let text = text_at(row, at)?;
    Name::read(text.as_bytes()).ok_or(ReadFault::Damaged)
}

/// A number of either sign.
pub(crate) fn signed_at(row: &Row, at: usize) -> Result<i64, ReadFault>
    ensures reads { IfOk result (λ n. column row.now at ≡ Int n) }
    ensures back { (n : ℤ) → column row.now at ≡ Int n → OnlyMemory result }
{
    Ok(row.get(at)?)
}

/// Whether something is so: 1 where it is, and 0 where it is not.
pub(crate) fn flag_at(row: &Row, at: usize) -> Result<bool, ReadFault>
    ensures same { IfOk result (λ flag. (was : Bool) → column row.now at ≡ Int (if was then pos 1 else pos 0) → flag ≡ was) }
    ensures reads { IfOk result (λ flag. column row.now at ≡ Int (if flag then pos 1 else pos 0)) }
    ensures back { (was : Bool) → column row.now at ≡ Int (if was then pos 1 else pos 0) → OnlyMemory result }
{
    match number_at(row, at)? {
        0 => Ok(false),
        1 => Ok(true),
        _ => Err(ReadFault::Damaged),
    }
}

/// What became of a step, by its number.
pub(crate) fn verdict_at(row: &Row, at: usize) -> Result<Verdict, ReadFault>
    ensures same { IfOk result (λ verdict. (was : SomeVerdict) → column row.now at ≡ Int (pos (verdict_number was)) → verdict ≡ was) }
    ensures reads { IfOk result (λ verdict. column row.now at ≡ Int (pos (verdict_number verdict))) }
    ensures back { (was : SomeVerdict) → column row.now at ≡ Int (pos (verdict_number was)) → OnlyMemory result }
{
    match number_at(row, at)? {
        1 => Ok(Verdict::Done),
        2 => Ok(Verdict::Skipped),
        3 => Ok(Verdict::Failed),
        _ => Err(ReadFault::Damaged),
    }
}

/// The number of a request, or none by 0.
pub(crate) fn released_at(row: &Row, at: usize) -> Result<Option<RequestNumber>, ReadFault>
    ensures same { IfOk result (λ request. (was : Option ℕ) → was ≢ Some 0 → column row.now at ≡ Int (pos (released_number was)) → request ≡ was) }
    ensures reads { IfOk result (λ request. column row.now at ≡ Int (pos (released_number request))) }
    ensures told { IfOk result (λ request. request ≢ Some 0) }
    ensures back { (was : Option ℕ) → IfSome was IsRequestNumber → column row.now at ≡ Int (pos (released_number was)) → OnlyMemory result }
{
    let number = number_at(row, at)?;
    if number == 0 {
        return Ok(None);
    }
    match RequestNumber::new(number) {
        Some(request) => Ok(Some(request)),
        None => Err(ReadFault::Damaged),
    }
}

/// A text.
pub(crate) fn text_at(row: &Row, at: usize) -> Result<String, ReadFault>
    ensures reads { IfOk result (λ text. column row.now at ≡ Text (string_bytes text)) }
    ensures back { (was : List ℕ) → IsUtf8 was → column row.now at ≡ Text was → OnlyMemory result }
{
    Ok(row.get(at)?)
}

/// Whether the last line of a text is ended by LF.
fn ends_line(text: &str) -> bool
    ensures ended { result ≡ true → EndsLine text.now }
    ensures only { EndsLine text.now → result ≡ true }
{
    matches!(text.as_bytes().last(), Some(10))
}

/// Whether a text is that of lines that refuse nothing: the last one is ended by LF, and the first does not begin `refused`.
fn is_kept_text(text: &str) -> bool
    ensures kept { result ≡ true → IsKeptText text.now }
    ensures only { IsKeptText text.now → result ≡ true }
{
    ends_line(text) && !text.starts_with("refused")
}

/// The text of a reply that is kept.
pub(crate) fn kept_text_at(row: &Row, at: usize) -> Result<String, ReadFault>
    ensures reads { IfOk result (λ text. column row.now at ≡ Text (string_bytes text)) }
    ensures told { IfOk result (λ text. IsKeptText (string_bytes text)) }
    ensures utf8 { IfOk result (λ text. IsUtf8 (string_bytes text)) }
    ensures back { (was : List ℕ) → IsUtf8 was → IsKeptText was → column row.now at ≡ Text was → OnlyMemory result }
{
    let text = text_at(row, at)?;
    if is_kept_text(text.as_str()) {
        Ok(text)
    } else {
        Err(ReadFault::Damaged)
    }
}

/// A name, or none by an empty text.
pub(crate) fn second_at(row: &Row, at: usize) -> Result<Option<Name>, ReadFault>
    ensures same { IfOk result (λ name. (was : Option (List ℕ)) → was ≢ Some [] → column row.now at ≡ Text (second_text was) → name ≡ was) }
    ensures reads { IfOk result (λ name. column row.now at ≡ Text (second_text name)) }
    ensures told { IfOk result (λ name. name ≢ Some []) }
    ensures back { (was : Option (List ℕ)) → IfSome was IsName → column row.now at ≡ Text (second_text was) → OnlyMemory result }
{
    let text = text_at(row, at)?;
    if text.is_empty() {
        return Ok(None);
    }
    match Name::read(text.as_bytes()) {
        Some(name) => Ok(Some(name)),
        None => Err(ReadFault::Damaged),
    }
}

/// What is done at a step.
pub(crate) fn step_text_at(row: &Row, at: usize) -> Result<StepText, ReadFault>
    ensures reads { IfOk result (λ text. column row.now at ≡ Text text) }
    ensures back { (was : List ℕ) → is_step_text was ≡ true → column row.now at ≡ Text was → OnlyMemory result }
{
    let text = text_at(row, at)?;
    StepText::read(text.as_bytes()).ok_or(ReadFault::Damaged)
}
