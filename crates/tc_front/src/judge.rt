//! What a request asks by the parts of its head, or why it is refused. The tests come in this order: the path, the
//! method, a transfer coding, the body's length.
ghost use Rattle.std.specs.Prelude.{◌≡◌, length, map, All, IsUtf8};
ghost use Rattle.httparse.specs.Spans.{IsHeaderWithin, header_bytes};
ghost use Rattle.tc_front.specs.Fields.{found_view};
ghost use Rattle.tc_front.specs.Paths.{named_by, texts_of};
ghost use Rattle.tc_front.specs.Judge.{JudgesBody, JudgesParts, JudgesPost, JudgesQuestion, method_of, without_body};

use crate::fields::{FieldValues, body_length, find};
use crate::paths::{Path, Post, Question};
use crate::questions::query_of;
use crate::routes::Routes;
use httparse::spans::HeaderSpan;
use tc_lines::read::readers::is;
use tc_types::Query;

/// The largest body, in bytes. It is this desk's own limit.
const LARGEST_BODY: usize = 65_536;

/// Why a request is refused by its front alone.
#[derive(Clone, Copy, Debug, PartialEq, Eq)]
pub enum Refused {
    /// It is not let in (403, RFC 9110, section 15.5.4).
    Foreign,
    /// The target is no path of this desk (404, RFC 9110, section 15.5.5).
    NoPath,
    /// The path is served by another method (405, RFC 9110, section 15.5.6).
    OtherMethod,
    /// The head text is no request's head, or it names a transfer coding, or its body's length is not taken, or a number in
    /// its path is not in form (400, RFC 9110, section 15.5.1).
    Bad,
    /// The body is larger than 65,536 bytes, or the head than 8,192, or it has too many lines (413, RFC 9110, section
    /// 15.5.14; that a large head is answered so is this desk's own).
    Large,
}

/// What a head asks.
#[derive(Clone, Copy, Debug)]
pub(crate) enum Judgement {
    /// It is refused.
    Refused(Refused),
    /// It asks this question.
    Asks(Query),
    /// It asks for the wall.
    ShowsWall,
    /// It asks how the desk was opened.
    TellsOpening,
    /// It posts a body of so many bytes.
    Posts { post: Post, size: usize },
}

/// What a question's path asks.
fn judge_question(question: Question<'_>) -> Judgement
    ensures { JudgesQuestion (texts_of question.entry) result }
{
    match query_of(question) {
        Some(query) => Judgement::Asks(query),
        None => Judgement::Refused(Refused::Bad),
    }
}

/// What is asked by GET, where the head has these lengths of a body: none, or one that is 0. That another is refused is this
/// desk's own (RFC 9110, section 9.3.1: content of a GET has no meaning).
fn judge_get(lengths: FieldValues<'_>, asked: Judgement) -> Judgement
    ensures { result ≡ without_body (found_view lengths.entry) asked }
{
    match lengths {
        FieldValues::Absent => asked,
        FieldValues::One(value) => {
            if is(value, b"0") {
                asked
            } else {
                Judgement::Refused(Refused::Bad)
            }
        }
        FieldValues::Many => Judgement::Refused(Refused::Bad),
    }
}

/// What is posted, where the head has exactly one length of a body (RFC 9112, section 6.3).
fn judge_post(lengths: FieldValues<'_>, post: Post) -> Judgement
    ensures { JudgesPost (found_view lengths.entry) post result }
{
    match lengths {
        FieldValues::One(value) => match body_length(value) {
            Some(size) if size > LARGEST_BODY => Judgement::Refused(Refused::Large),
            Some(size) => Judgement::Posts { post, size },
            None => Judgement::Refused(Refused::Bad),
        },
        _ => Judgement::Refused(Refused::Bad),
    }
}

/// What a path asks whose method fits, where no transfer coding is named.
fn judge_body(lengths: FieldValues<'_>, path: Path<'_>) -> Judgement
    ensures { JudgesBody (found_view lengths.entry) (named_by path.entry) result }
{
    match path {
        Path::Posts(post) => judge_post(lengths, post),
        Path::Asks(question) => judge_get(lengths, judge_question(question)),
        Path::Wall => judge_get(lengths, Judgement::ShowsWall),
        Path::Opening => judge_get(lengths, Judgement::TellsOpening),
    }
}

/// The method by which a path is served. Methods are told apart by case (RFC 9110, section 9.1).
fn method_of(path: Path<'_>) -> &'static [u8]
    ensures { result.now ≡ method_of (named_by path.entry) }
{
    match path {
        Path::Posts(_) => b"POST",
        Path::Asks(_) | Path::Wall | Path::Opening => b"GET",
    }
}

/// What a head asks that has this method, this target and these fields. A transfer coding is refused, whatever it is: that is
/// this desk's own (RFC 9112, section 6.1).
pub(crate) fn judge_parts(
    routes: &Routes,
    method: &[u8],
    target: &[u8],
    head: &[u8],
    headers: &[HeaderSpan],
) -> Judgement
    requires within { All (IsHeaderWithin (length head.now)) headers.now }
    requires text { IsUtf8 target.now }
    ensures { JudgesParts method.now target.now (map (header_bytes head.now) headers.now) result }
{
    let Some(path) = routes.path_of(target) else {
        return Judgement::Refused(Refused::NoPath);
    };
    if !is(method, method_of(path)) {
        return Judgement::Refused(Refused::OtherMethod);
    }
    match find(head, headers, b"transfer-encoding") {
        FieldValues::Absent => {}
        _ => return Judgement::Refused(Refused::Bad),
    }
    let lengths = find(head, headers, b"content-length");
    judge_body(lengths, path)
}
