//! The bytes of a response (RFC 9112, sections 4 and 6; RFC 8259).
ghost use Rattle.std.specs.Prelude.{◌≡◌, ◌==◌, ◌++◌, ℕ, IfOk, List, codes, length, map};
ghost use Rattle.std.specs.Fmt.{decimal};
ghost use Rattle.std.specs.List.{slice_split};
ghost use Rattle.std.specs.String.{string_bytes};
ghost use Rattle.http.specs.StatusCode.{IsStatusCode};
ghost use Rattle.serde_json.specs.View.{items_view, view};
ghost use Rattle.serde_json.specs.Written.{compact_text};
ghost use Rattle.tc_api.specs.Responses.{body_bytes, body_data, head_text, page_bytes, page_head, phrase_of, reply_data, response_bytes, response_head, status_line, strings, text_lines};

use crate::endings::Ending;
use http::StatusCode;
use serde_json::{Value, json};
use std::alloc::{AllocError, Global};
use tc_front::length_line;

/// How many lines of a reply a response shows at most.
pub const MOST_LINES: usize = 200;

/// The header lines of a page: it is HTML, no copy of an earlier one, its styles and its one script are its own, nothing else is loaded or run, it asks its own desk
/// alone, and no other page frames it. The policy is that of the page (`tc_wall::POLICY`).
const PAGE_LINES: &str =
    "Content-Type: text/html; charset=utf-8\r\nCache-Control: no-store\r\nContent-Security-Policy: default-src 'none'; style-src 'unsafe-inline'; img-src data:; script-src 'sha256-XRfavC3Kd4vrs8ZeNuy/OQZ26ZZC8JYEeCosauWwpwU='; connect-src 'self'; frame-ancestors 'none'\r\nX-Content-Type-Options: nosniff\r\n";

/// What stands before, between and behind the LFs of a text.
fn pieces_of<'a>(alloc: Global, text: &'a str) -> Result<Vec<&'a str>, AllocError>
    ensures { IfOk result (λ pieces. map (λ piece. piece.now) pieces.items ≡ slice_split (λ byte. byte == 10) text.now) }
{
    text.split('\n').collect(alloc)
}

/// The lines of a text, each of which ends in LF.
fn lines_of<'a>(alloc: Global, text: &'a str) -> Result<Vec<&'a str>, AllocError>
    ensures { IfOk result (λ lines. map (λ line. line.now) lines.items ≡ text_lines text.now) }
{
    let mut lines = pieces_of(alloc, text)?;
    lines.pop();
    Ok(lines)
}

/// The lines as JSON strings.
fn json_lines(alloc: Global, lines: &[&str]) -> Result<Vec<Value>, AllocError>
    ensures { IfOk result (λ values. items_view values.items ≡ strings (map (λ line. line.now) lines.now)) }
{
    let mut values = Vec::new(alloc);
    for line in lines {
        values.push(Value::try_from_str(alloc, line)?)?;
    }
    Ok(values)
}

/// What a body says, where these lines are shown and so many more are not.
fn body_value(
    alloc: Global,
    shown: Vec<Value>,
    more: usize,
    refusal: u8,
) -> Result<Value, AllocError>
    ensures { (lines : List (List ℕ)) → items_view shown.items ≡ strings lines → IfOk result (λ value. view value ≡ reply_data lines more refusal) }
{
    json!(in alloc; {"lines": Value::Array(shown), "more": more, "refusal": refusal})
}

/// The body of a response with these lines.
fn body_of(alloc: Global, lines: &[&str], refusal: u8) -> Result<String, AllocError>
    ensures { IfOk result (λ body. string_bytes body ≡ compact_text (body_data (map (λ line. line.now) lines.now) refusal)) }
{
    let shown = json_lines(alloc, &lines[..MOST_LINES.min(lines.len())])?;
    let more = lines.len().saturating_sub(MOST_LINES);
    body_value(alloc, shown, more, refusal)?.to_string(alloc)
}

/// The body of a response.
fn body(alloc: Global, ending: Ending, text: &str) -> Result<String, AllocError>
    ensures { IfOk result (λ body. string_bytes body ≡ body_bytes ending text.now) }
{
    let lines = lines_of(alloc, text)?;
    body_of(alloc, &lines, ending.refusal_number())
}

/// The phrase that goes with a status code.
fn phrase_of(number: u16) -> &'static str
    requires { IsStatusCode number }
    ensures { result.now ≡ phrase_of number }
{
    match StatusCode::from_u16(number) {
        Ok(status) => status.canonical_reason().unwrap_or(""),
        Err(_) => "",
    }
}

/// The version and the code.
fn version_and_code(alloc: Global, number: u16) -> Result<String, AllocError>
    ensures { IfOk result (λ text. string_bytes text ≡ codes "HTTP/1.1 " ++ decimal number ++ codes " ") }
{
    format!(in alloc; "HTTP/1.1 {number} ")
}

/// The status line, without its end.
fn status_line(alloc: Global, number: u16, phrase: &str) -> Result<String, AllocError>
    ensures { IfOk result (λ text. string_bytes text ≡ status_line number phrase.now) }
{
    let mut text = version_and_code(alloc, number)?;
    text.push_str(phrase)?;
    Ok(text)
}

/// The bytes of a head with this code, phrase and length.
fn head_text(alloc: Global, number: u16, phrase: &str, length: usize) -> Result<String, AllocError>
    ensures { IfOk result (λ text. string_bytes text ≡ head_text number phrase.now length) }
{
    let mut text = status_line(alloc, number, phrase)?;
    text.push_str("\r\nContent-Type: application/json\r\n")?;
    text.push_str(length_line(alloc, length)?.as_str())?;
    text.push_str("\r\nConnection: close\r\n\r\n")?;
    Ok(text)
}

/// The head of a response with a body of so many bytes.
fn response_head(alloc: Global, ending: Ending, length: usize) -> Result<String, AllocError>
    ensures { IfOk result (λ text. string_bytes text ≡ response_head ending length) }
{
    let number = ending.status().number();
    head_text(alloc, number, phrase_of(number), length)
}

/// The response to what ended so, with a reply of this text, whose lines each end in LF: a status line, three header lines, an
/// empty line and compact JSON with the keys `lines` (the first 200 of the reply), `more` (how many were left out) and `refusal`
/// (its number, or 0). Fails where memory is refused.
#[tactic(auto, unfolding(crate::specs::Responses::response_bytes))]
pub fn response(alloc: Global, ending: Ending, text: &str) -> Result<String, AllocError>
    ensures { IfOk result (λ response. string_bytes response ≡ response_bytes ending text.now) }
{
    let body = body(alloc, ending, text)?;
    let mut response = response_head(alloc, ending, body.len())?;
    response.push_str(body.as_str())?;
    Ok(response)
}

/// The head of a response with a page of so many bytes.
fn page_head(alloc: Global, length: usize) -> Result<String, AllocError>
    ensures { IfOk result (λ text. string_bytes text ≡ page_head length) }
{
    let mut text = status_line(alloc, 200, phrase_of(200))?;
    text.push_str("\r\n")?;
    text.push_str(PAGE_LINES)?;
    text.push_str(length_line(alloc, length)?.as_str())?;
    text.push_str("\r\nConnection: close\r\n\r\n")?;
    Ok(text)
}

/// The response with a page of HTML: a status line, six header lines, an empty line and the page. Fails where memory is refused.
#[tactic(auto, unfolding(crate::specs::Responses::page_bytes))]
pub fn page_response(alloc: Global, page: &str) -> Result<String, AllocError>
    ensures { IfOk result (λ response. string_bytes response ≡ page_bytes page.now) }
{
    let mut response = page_head(alloc, page.len())?;
    response.push_str(page)?;
    Ok(response)
}
