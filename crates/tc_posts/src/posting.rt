//! The requests that a script's lines are sent in (RFC 9112).
ghost use Rattle.std.specs.Prelude.{◌≡◌, ◌++◌, ◌∷◌, [], IfOk, OnOk, codes};
ghost use Rattle.std.specs.Fmt.{decimal};
ghost use Rattle.std.specs.String.{string_bytes};
ghost use Rattle.serde_json.specs.View.{view};
ghost use Rattle.serde_json.specs.Written.{compact_text};
ghost use Rattle.tc_posts.specs.declared.posting.Posting.{Posting};
ghost use Rattle.tc_posts.specs.Posting.{AsksNothing, Posts, SendsMoment, ascii, body_of, host_line, moment_data, moves_bytes, places_bytes, post_bytes, post_data, post_head, sent};

use serde_json::{Value, json};
use std::alloc::{AllocError, Global};
use tc_front::length_line;
use tc_lines::cut;
use tc_lines::read::readers;

/// How many bytes of an act are sent at most: one more than an act may have.
const MOST_ACT: usize = 201;

/// How many bytes of a name are sent at most: one more than a name may have.
const MOST_NAME: usize = 17;

/// What is sent for the MOMENT of a line.
#[derive(Clone, Copy, Debug, PartialEq, Eq)]
pub enum PostedMoment {
    /// A number.
    Number(u32),
    /// It is no number in form: a number that is no moment is sent.
    NoNumber,
    /// The line has none.
    Nothing,
}

/// What is posted of a line.
#[derive(Drop)]
pub struct Posting {
    pub act: String,
    pub by: String,
    pub moment: PostedMoment,
}

/// Adds the byte that is sent for this one.
fn add_ascii(text: &mut String, byte: u8) -> Result<(), AllocError>
    ensures { OnOk result (string_bytes text.new ≡ string_bytes text.old ++ ascii byte ∷ []) }
{
    if byte < 128 {
        text.push(char::from(byte))
    } else {
        text.push('?')
    }
}

/// What is sent of a text, of which so many bytes are sent at most.
fn sent(alloc: Global, text: &[u8], most: usize) -> Result<String, AllocError>
    ensures { IfOk result (λ bytes. string_bytes bytes ≡ sent most text.now) }
{
    let shown = &text[..most.min(text.len())];
    let mut sent = String::new(alloc);
    for byte in shown {
        add_ascii(&mut sent, *byte)?;
    }
    Ok(sent)
}

/// What is sent for this MOMENT.
fn posted_moment(text: &[u8]) -> PostedMoment
    ensures { SendsMoment text.now result }
{
    match readers::number(text) {
        Some(number) => PostedMoment::Number(number),
        None => PostedMoment::NoNumber,
    }
}

/// What is posted of a line that has fewer than two spaces.
fn post_of_part(alloc: Global, line: &[u8]) -> Result<Posting, AllocError>
    ensures { IfOk result (λ post. (string_bytes post.act ≡ sent 201 line.now) × (string_bytes post.by ≡ []) × (post.moment ≡ PostedMoment.Nothing)) }
{
    Ok(Posting {
        act: sent(alloc, line, MOST_ACT)?,
        by: String::new(alloc),
        moment: PostedMoment::Nothing,
    })
}

/// What is posted of these parts of a line.
fn post_of_parts(alloc: Global, moment: &[u8], by: &[u8], act: &[u8]) -> Result<Posting, AllocError>
    ensures { IfOk result (λ post. (string_bytes post.act ≡ sent 201 act.now) × (string_bytes post.by ≡ sent 17 by.now) × SendsMoment moment.now post.moment) }
{
    Ok(Posting {
        act: sent(alloc, act, MOST_ACT)?,
        by: sent(alloc, by, MOST_NAME)?,
        moment: posted_moment(moment),
    })
}

/// What is posted of a line.
fn post_of(alloc: Global, line: &[u8]) -> Result<Posting, AllocError>
    ensures { IfOk result (Posts line.now) }
{
    let (moment, rest) = cut(line, b' ');
    let Some(rest) = rest else {
        return post_of_part(alloc, line);
    };
    let (by, rest) = cut(rest, b' ');
    match rest {
        Some(act) => post_of_parts(alloc, moment, by, act),
        None => post_of_part(alloc, line),
    }
}

/// A moment in JSON.
fn moment_value(moment: PostedMoment) -> Value
    ensures { view result ≡ moment_data moment }
{
    match moment {
        PostedMoment::Number(number) => Value::from(number),
        PostedMoment::NoNumber => Value::from(-1),
        PostedMoment::Nothing => Value::Null,
    }
}

/// The JSON of a post.
fn post_value(
    alloc: Global,
    act: &str,
    by: &str,
    moment: Value,
    number: u64,
) -> Result<Value, AllocError>
    ensures { IfOk result (λ value. view value ≡ post_data act.now by.now (view moment) number) }
{
    json!(in alloc; {"act": act, "by": by, "moment": moment, "number": number})
}

/// The body that posts this under a number.
fn body_of(alloc: Global, post: &Posting, number: u64) -> Result<String, AllocError>
    ensures { IfOk result (λ body. string_bytes body ≡ body_of post.now number) }
{
    post_value(
        alloc,
        post.act.as_str(),
        post.by.as_str(),
        moment_value(post.moment),
        number,
    )?
    .to_string(alloc)
}

/// The line of the host, without its end.
fn host_line(alloc: Global, port: u16) -> Result<String, AllocError>
    ensures { IfOk result (λ line. string_bytes line ≡ host_line port) }
{
    format!(in alloc; "Host: 127.0.0.1:{port}")
}

/// The head of a request that posts a body of so many bytes.
fn post_head(alloc: Global, port: u16, size: usize) -> Result<String, AllocError>
    ensures { IfOk result (λ head. string_bytes head ≡ post_head port size) }
{
    let mut head = String::from_str(alloc, "POST /acts HTTP/1.1\r\n")?;
    head.push_str(host_line(alloc, port)?.as_str())?;
    head.push_str("\r\nContent-Type: application/json\r\n")?;
    head.push_str(length_line(alloc, size)?.as_str())?;
    head.push_str("\r\n\r\n")?;
    Ok(head)
}

/// The request that posts this under a number.
fn request_of(alloc: Global, port: u16, post: &Posting, number: u64) -> Result<String, AllocError>
    ensures { IfOk result (λ request. string_bytes request ≡ post_bytes port post.now number) }
{
    let body = body_of(alloc, post, number)?;
    let mut request = post_head(alloc, port, body.len())?;
    request.push_str(body.as_str())?;
    Ok(request)
}

/// The request that posts a line of a script under this number to a server of this machine at a port. Of an act no more than 201 bytes are
/// sent and of a name no more than 17, so that one that is too long stays so. A number that no call may have is sent as it is, for the desk
/// to refuse. Fails where memory is refused.
pub fn post_request(
    alloc: Global,
    port: u16,
    line: &[u8],
    number: u64,
) -> Result<String, AllocError>
    ensures { IfOk result (λ request. (post : Posting) × Posts line.now post × (string_bytes request ≡ post_bytes port post number)) }
{
    let post = post_of(alloc, line)?;
    request_of(alloc, port, &post, number)
}

/// The request that asks a server of this machine at a port for the places. Fails where memory is refused.
pub fn places_request(alloc: Global, port: u16) -> Result<String, AllocError>
    ensures { IfOk result (λ request. string_bytes request ≡ places_bytes port) }
{
    let mut request = String::from_str(alloc, "GET /places HTTP/1.1\r\n")?;
    request.push_str(host_line(alloc, port)?.as_str())?;
    request.push_str("\r\n\r\n")?;
    Ok(request)
}

/// The request line of the question for the moves after this one, without its end.
fn moves_line(alloc: Global, after: u32) -> Result<String, AllocError>
    ensures { IfOk result (λ line. string_bytes line ≡ codes "GET /moves/" ++ decimal after ++ codes " HTTP/1.1") }
{
    format!(in alloc; "GET /moves/{after} HTTP/1.1")
}

/// The request that asks a server of this machine at a port for the moves after this one. Fails where memory is refused.
pub fn moves_request(alloc: Global, port: u16, after: u32) -> Result<String, AllocError>
    ensures { IfOk result (λ request. string_bytes request ≡ moves_bytes port after) }
{
    let mut request = moves_line(alloc, after)?;
    request.push_str("\r\n")?;
    request.push_str(host_line(alloc, port)?.as_str())?;
    request.push_str("\r\n\r\n")?;
    Ok(request)
}

/// The request that posts an act of no bytes for the person of a line, under this number, to a server of this machine at a port. The desk refuses it, or
/// answers what it answered before under this number. Fails where memory is refused.
pub fn empty_request(
    alloc: Global,
    port: u16,
    line: &[u8],
    number: u64,
) -> Result<String, AllocError>
    ensures { IfOk result (λ request. (asked : Posting) × AsksNothing line.now asked × (string_bytes request ≡ post_bytes port asked number)) }
{
    let post = post_of(alloc, line)?;
    let asked = Posting {
        act: String::new(alloc),
        by: post.by,
        moment: PostedMoment::Number(0),
    };
    request_of(alloc, port, &asked, number)
}
