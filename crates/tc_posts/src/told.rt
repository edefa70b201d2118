//! What a response says (RFC 9112; RFC 8259).
ghost use Rattle.std.specs.Prelude.{◌≡◌, ℕ, List, Err, IfErr, IfNone, IfOk, IfSome, map, option_map};
ghost use Rattle.std.specs.Str.{IsUtf8};
ghost use Rattle.std.specs.String.{string_bytes};
ghost use Rattle.serde_json.specs.Read.{read};
ghost use Rattle.serde_json.specs.View.{items_view, view};
ghost use Rattle.tc_posts.specs.Told.{Answer, IsBody, IsTold, IsUnsaid, IsUntold, Says, Tells, TellsMove, answer_of, last_text, lines_in, lines_text, more_in, refusal_in};

use bstr::ByteSlice;
use serde_json::{Error, Value};
use std::alloc::{AllocError, Global};
use std::str;
use tc_lines::cut;
use tc_lines::read::readers::{is, number};
use tc_report::add_line;

/// What a response says.
#[derive(Drop)]
pub struct Told {
    /// The lines of a reply, each ended by LF.
    pub text: String,
    /// The number of what it is refused with; 0 where it is no refusal.
    pub refusal: u64,
    /// How many lines of the reply are left out after these.
    pub more: u64,
    /// The number of the move that the last of these lines tells, if it tells one.
    pub last: Option<u32>,
}

/// Why a response says nothing.
#[derive(Clone, Copy, Debug, PartialEq, Eq)]
pub enum Untellable {
    /// It is no response of a desk.
    NoResponse,
    /// There was no memory to read it.
    Memory,
}

impl From<AllocError> for Untellable {
    ghost use Rattle.std.specs.Prelude.{◌≡◌};
    ghost use Rattle.tc_posts.specs.declared.told.Untellable.TheVariants.{Memory};

    ghost from_gives = { λ _ why. why ≡ Memory };

    fn from(_error: AllocError) -> Untellable {
        Untellable::Memory
    }
}

impl From<Error> for Untellable {
    ghost use Rattle.std.specs.Prelude.{◌≡◌, ◌↔◌};
    ghost use Rattle.serde_json.specs.Errors.{IsMemory};
    ghost use Rattle.tc_posts.specs.declared.told.Untellable.TheVariants.{Memory};

    ghost from_gives = { λ error why. (why ≡ Memory) ↔ IsMemory error };

    /// A body that was not read as JSON says nothing, or found no memory.
    fn from(error: Error) -> Untellable {
        if error.is_memory() {
            Untellable::Memory
        } else {
            Untellable::NoResponse
        }
    }
}

/// The body of a response, where it is a text.
pub(crate) fn body_of(response: &[u8]) -> Option<&str>
    ensures some { IfSome result (λ body. IsBody response.now body.now × IsUtf8 body.now) }
    ensures none { IfNone result ((body : List ℕ) → IsBody response.now body → ¬ (IsUtf8 body)) }
{
    let end = response.find(b"\r\n\r\n")?;
    str::from_utf8(&response[end + 4..]).ok()
}

/// These lines, each ended by LF.
pub(crate) fn lines_text(alloc: Global, lines: &[Value]) -> Result<String, AllocError>
    ensures { IfOk result (λ text. string_bytes text ≡ lines_text (map view lines.now)) }
{
    let mut text = String::new(alloc);
    for line in lines {
        add_line(&mut text, line.as_str().unwrap_or(""))?;
    }
    Ok(text)
}

/// The number of the refusal that a body tells.
fn refusal_in(value: &Value) -> Option<u64>
    ensures { result ≡ refusal_in (view value.now) }
{
    value.get("refusal").and_then(Value::as_u64)
}

/// The lines that a body tells.
pub(crate) fn lines_in(value: &Value) -> Option<&Vec<Value>>
    ensures { option_map (λ lines. items_view lines.now.items) result ≡ lines_in (view value.now) }
{
    value.get("lines").and_then(Value::as_array)
}

/// How many lines of the reply a body leaves out.
fn more_in(value: &Value) -> Option<u64>
    ensures { result ≡ more_in (view value.now) }
{
    value.get("more").and_then(Value::as_u64)
}

/// The text of the last of these lines.
fn last_text(lines: &[Value]) -> &str
    ensures { result.now ≡ last_text (map view lines.now) }
{
    match lines.last() {
        Some(line) => line.as_str().unwrap_or(""),
        None => "",
    }
}

/// The number of the move that a line tells, if it tells one.
fn move_of(line: &[u8]) -> Option<u32>
    ensures { TellsMove line.now result }
{
    let (word, rest) = cut(line, b' ');
    if !is(word, b"move") {
        return None;
    }
    let (word, _) = cut(rest?, b' ');
    number(word)
}

/// The number of the move that the last of these lines tells, if it tells one.
pub(crate) fn last_move(lines: &[Value]) -> Option<u32>
    ensures { TellsMove (last_text (map view lines.now)) result }
{
    move_of(last_text(lines).as_bytes())
}

/// What a body in JSON says.
fn told_by(alloc: Global, value: &Value) -> Result<Told, Untellable>
    ensures told { IfOk result (λ told. IsTold (view value.now) (answer_of told)) }
    ensures untold { IfErr result (IsUnsaid (view value.now)) }
{
    let refusal = refusal_in(value).ok_or(Untellable::NoResponse)?;
    let more = more_in(value).ok_or(Untellable::NoResponse)?;
    let lines = lines_in(value).ok_or(Untellable::NoResponse)?;
    let last = last_move(lines);
    let text = lines_text(alloc, lines)?;
    Ok(Told {
        text,
        refusal,
        more,
        last,
    })
}

/// What a body says.
fn told_in(alloc: Global, body: &str) -> Result<Told, Untellable>
    ensures told { IfOk result (λ told. Says body.now (answer_of told)) }
    ensures untold { result ≡ Err Untellable.NoResponse → (answer : Answer) → ¬ (Says body.now answer) }
{
    let value = Value::from_str(alloc, body)?;
    told_by(alloc, &value)
}

/// What the response of a desk says: the lines of a reply, what it is refused with, and how many lines are left out.
///
/// # Errors
///
/// `NoResponse` where it is none: it has no body that is a text and says this. `Memory` where there was no memory to read its body.
pub fn read_told(alloc: Global, response: &[u8]) -> Result<Told, Untellable>
    ensures told { IfOk result (λ told. Tells response.now (answer_of told)) }
    ensures untold { IfErr result (IsUntold response.now) }
{
    let body = body_of(response).ok_or(Untellable::NoResponse)?;
    told_in(alloc, body)
}
