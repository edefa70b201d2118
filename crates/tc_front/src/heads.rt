//! What a head text asks, or why it is refused.
ghost use Rattle.std.specs.Prelude.{◌≡◌, ◌↔◌, IfSome, IfNone, IsTrue, IsUtf8, length, map};
ghost use Rattle.httparse.specs.Grammar.{RequestHead};
ghost use Rattle.httparse.specs.Spans.{IsRequestAt, IsRequestWithin, name_and_value, span_bytes};
ghost use Rattle.tc_front.specs.Door.{IsForeign, lets_in};
ghost use Rattle.tc_front.specs.Judge.{IsGoodHead, Judges, JudgesHead, unfit};

use crate::door::Door;
use crate::judge::{Judgement, Refused, judge_parts};
use crate::routes::Routes;
use httparse::Status;
use httparse::spans::{EMPTY_HEADER_SPAN, HeaderSpan, RequestSpans, parse_request};

/// The most header lines of a head. It is this desk's own limit.
const MOST_HEADERS: usize = 64;

/// The most LF bytes of a head: of its request line, its header lines and its empty line.
const MOST_LINES: usize = 66;

/// Where the parts of a head are, where the whole text is one (RFC 9112, section 2.1) and these headers have room for its
/// lines.
fn good_head(text: &[u8], headers: &mut [HeaderSpan]) -> Option<RequestSpans>
    ensures within { IfSome result (λ spans. IsRequestWithin text.now headers.new spans) }
    ensures found { IfSome result (λ spans. (h : RequestHead) × IsGoodHead text.now (length headers.old) h × IsRequestAt text.now headers.new spans h) }
    ensures text { IfSome result (λ spans. IsUtf8 (span_bytes text.now spans.path)) }
    ensures none { IfNone result ((h : RequestHead) → ¬ (IsGoodHead text.now (length headers.old) h)) }
{
    match parse_request(text, headers) {
        Ok(Status::Complete(head)) if head.len == text.len() => Some(head),
        _ => None,
    }
}

/// Why a head text is refused that is not good.
fn unfit(text: &[u8]) -> Refused
    ensures { result ≡ unfit text.now }
{
    if text.iter().filter(|byte| **byte == b'\n').count() > MOST_LINES {
        Refused::Large
    } else {
        Refused::Bad
    }
}

/// What a good head asks.
fn judge_spans(
    routes: &Routes,
    head: &[u8],
    headers: &[HeaderSpan],
    spans: &RequestSpans,
) -> Judgement
    requires within { IsRequestWithin head.now headers.now spans.now }
    requires text { IsUtf8 (span_bytes head.now spans.now.path) }
    ensures { (h : RequestHead) → IsRequestAt head.now headers.now spans.now h → JudgesHead h result }
{
    judge_parts(
        routes,
        spans.method.of(head),
        spans.path.of(head),
        head,
        &headers[..spans.headers],
    )
}

/// Whether a good head is let in.
fn lets_in(door: &Door, head: &[u8], headers: &[HeaderSpan], spans: &RequestSpans) -> bool
    requires { IsRequestWithin head.now headers.now spans.now }
    ensures { (h : RequestHead) → IsRequestAt head.now headers.now spans.now h → result ≡ lets_in door.now h.method (map name_and_value h.fields) }
{
    door.lets_in(spans.method.of(head), head, &headers[..spans.headers])
}

/// Whether a head text is a request's that is not let in.
pub(crate) fn is_foreign_head(door: &Door, head: &[u8]) -> bool
    ensures { IsTrue result ↔ IsForeign door.now head.now }
{
    let mut headers = [EMPTY_HEADER_SPAN; MOST_HEADERS];
    match good_head(head, &mut headers) {
        Some(spans) => !lets_in(door, head, &headers, &spans),
        None => false,
    }
}

/// What a head text asks, without the CR and LF bytes before it.
pub(crate) fn judge(routes: &Routes, head: &[u8]) -> Judgement
    ensures { Judges head.now result }
{
    let mut headers = [EMPTY_HEADER_SPAN; MOST_HEADERS];
    match good_head(head, &mut headers) {
        Some(spans) => judge_spans(routes, head, &headers, &spans),
        None => Judgement::Refused(unfit(head)),
    }
}
