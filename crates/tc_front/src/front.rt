//! What a front of the input decides.
ghost use Rattle.std.specs.Prelude.{◌≡◌, ◌≤◌, IfSome, IfNone, length, take};
ghost use Rattle.tc_front.specs.Ends.{HasSearched};
ghost use Rattle.tc_front.specs.Front.{Asked, Completes, IsDecided, IsWanted, Waits, asked_of, size_of};

use crate::ends::{HeadSearch, skip_ends};
use crate::heads::judge;
use crate::judge::{Judgement, Refused};
use crate::paths::Post;
use crate::routes::Routes;
use tc_types::Query;

/// The most bytes of a head text, with the CR and LF bytes before it. It is this desk's own limit.
const LARGEST_HEAD: usize = 8_192;

/// What a front of the input decides: what is asked, or why nothing is.
#[derive(Clone, Copy, Debug)]
pub enum Decision<'a> {
    /// The request is refused.
    Refused(Refused),
    /// The request asks this question.
    Asks(Query),
    /// The request asks for the wall.
    ShowsWall,
    /// The request asks how the desk was opened.
    TellsOpening,
    /// The request posts this body, which is whole. It need not be text.
    Posts { post: Post, body: &'a [u8] },
}

/// What is asked, once the bytes behind the head hold the body.
fn complete<'a>(judgement: Judgement, rest: &'a [u8]) -> Option<Decision<'a>>
    ensures some { IfSome result (λ d. Completes judgement rest.now (asked_of d)) }
    ensures none { IfNone result ((d : Asked) → ¬ (Completes judgement rest.now d)) }
{
    match judgement {
        Judgement::Refused(refused) => Some(Decision::Refused(refused)),
        Judgement::Asks(query) => Some(Decision::Asks(query)),
        Judgement::ShowsWall => Some(Decision::ShowsWall),
        Judgement::TellsOpening => Some(Decision::TellsOpening),
        Judgement::Posts { post, size } => {
            if size > rest.len() {
                return None;
            }
            Some(Decision::Posts {
                post,
                body: &rest[..size],
            })
        }
    }
}

/// The bytes that a head may be found in.
pub(crate) fn head_room(text: &[u8]) -> &[u8]
    ensures value { result.now ≡ take 8192 text.now }
    ensures short { length result.now ≤ 8192 }
    ensures within { length result.now ≤ length text.now }
{
    &text[..text.len().min(LARGEST_HEAD)]
}

/// What this front of an input decides: nothing while it may yet become another thing. Any longer front of the same input
/// then decides the same (`laws`).
///
/// A head that has not ended in 8,192 bytes is refused once there is one more. What stands behind a body is not looked at.
pub fn decide<'a>(routes: &Routes, text: &'a [u8]) -> Option<Decision<'a>>
    ensures some { IfSome result (λ d. IsDecided text.now (asked_of d)) }
    ensures none { IfNone result (Waits text.now) }
{
    match HeadSearch::new().end(head_room(text)) {
        Some(end) => complete(judge(routes, skip_ends(&text[..end])), &text[end..]),
        None if text.len() > LARGEST_HEAD => Some(Decision::Refused(Refused::Large)),
        None => None,
    }
}

/// How many bytes a body has: none where none is posted.
fn body_size(judgement: &Judgement) -> usize
    ensures { result ≡ size_of judgement.now }
{
    match judgement {
        Judgement::Posts { size, .. } => *size,
        Judgement::Refused(_)
        | Judgement::Asks(_)
        | Judgement::ShowsWall
        | Judgement::TellsOpening => 0,
    }
}

/// How many bytes of an input are wanted, of which this is a front: with fewer it decides nothing, whatever they are, and
/// a front of so many decides. While the head has not ended it is one byte more, up to 8,193.
pub(crate) fn wanted(routes: &Routes, search: &mut HeadSearch, text: &[u8]) -> usize
    requires { HasSearched search.old (take 8192 text.now) }
    ensures wanted { IsWanted text.now result }
    ensures searched { HasSearched search.new (take 8192 text.now) }
{
    let head = head_room(text);
    match search.end(head) {
        Some(end) => end + body_size(&judge(routes, skip_ends(&text[..end]))),
        None => head.len() + 1,
    }
}
