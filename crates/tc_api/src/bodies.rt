//! The body of a post: a JSON object (RFC 8259), and what stands at its keys.
ghost use Rattle.std.specs.Prelude.{◌≡◌, ◌⊎◌, None, Some, IfErr, IfOk, option_map};
ghost use Rattle.std.specs.Str.{IsUtf8};
ghost use Rattle.serde_json.specs.Read.{read};
ghost use Rattle.serde_json.specs.View.{number_view, view};
ghost use Rattle.tc_types.specs.declared.refusals.Refusal.TheVariants.{BadText, Memory};
ghost use Rattle.tc_api.specs.Bodies.{JudgesCaller, call_number_in, moment_in, number_at, text_at};

use serde_json::{Number, Value};
use std::alloc::Global;
use tc_room::Caller;
use tc_store::CallNumber;
use tc_types::{Moment, Person, Refusal};

/// The JSON value that a body is. It is refused with `BadText` where it is none, and with `Memory` where that was refused.
pub(crate) fn value_of(alloc: Global, body: &[u8]) -> Result<Value, Refusal>
    ensures read { IfOk result (λ value. IsUtf8 body.now × (read body.now ≡ Some (view value))) }
    ensures refused { IfErr result (λ refusal. (refusal ≡ Memory) ⊎ ((refusal ≡ BadText) × (IsUtf8 body.now → read body.now ≡ None))) }
{
    match Value::from_slice(alloc, body) {
        Ok(value) => Ok(value),
        Err(error) => {
            if error.is_memory() {
                Err(Refusal::Memory)
            } else {
                Err(Refusal::BadText)
            }
        }
    }
}

/// The text at a key.
pub(crate) fn text_at<'a>(value: &'a Value, key: &str) -> Option<&'a str>
    ensures { option_map (λ text. text.now) result ≡ text_at key.now (view value.now) }
{
    value.get(key)?.as_str()
}

/// The number at a key.
pub(crate) fn number_at<'a>(value: &'a Value, key: &str) -> Option<&'a Number>
    ensures { option_map (λ number. number_view number.now) result ≡ number_at key.now (view value.now) }
{
    value.get(key)?.as_number()
}

/// A number as a moment; `None` where it is not whole, or out of range.
pub(crate) fn moment_in(whole: Option<u64>) -> Option<Moment>
    ensures { result ≡ moment_in whole }
{
    match u32::try_from(whole?) {
        Ok(seconds) => Moment::new(seconds),
        Err(_) => None,
    }
}

/// A number as that of a call; `None` where it is not whole, or out of range.
fn call_number_in(whole: Option<u64>) -> Option<CallNumber>
    ensures { result ≡ call_number_in whole }
{
    match u32::try_from(whole?) {
        Ok(number) => CallNumber::new(number),
        Err(_) => None,
    }
}

/// Who calls, by the texts of the keys: a person who may act, and a number.
pub(crate) fn caller_of(by: &str, number: Option<u64>) -> Result<Caller, Refusal>
    ensures { JudgesCaller by.now number (λ caller. caller) result }
{
    let by = Person::read(by.as_bytes()).ok_or(Refusal::BadText)?;
    let number = call_number_in(number).ok_or(Refusal::BadText)?;
    Ok(Caller { by, number })
}
