//! What a request makes of the room, and how it ends.
ghost use Rattle.std.specs.Prelude.{◌≡◌, ◌&&◌};
ghost use Rattle.serde_json.specs.View.{view};
ghost use Rattle.tc_desk.specs.Replies.{Reply, refusal_reply};
ghost use Rattle.tc_front.specs.declared.paths.Post.TheVariants as paths;
ghost use Rattle.tc_front.specs.Front.{asked_of};
ghost use Rattle.tc_room.specs.Answers.{RefusesWith, Says};
ghost use Rattle.tc_api.specs.Endings.{is_done};
ghost use Rattle.tc_api.specs.Loads.{load_keys};
ghost use Rattle.tc_api.specs.Serving.{EndsWith, HasText, IsOutcome, IsServedBy, Serves, ServesWall, ServesKeys, ServesPost, ServesQuery, ServesValue, TellsOpening, front_ending, front_refusal, outcome_of, refused_front, refused_so};

use crate::acts::judge_act;
use crate::bodies::value_of;
use crate::endings::Ending;
use crate::loads::judge_load;
use crate::openings::opening_text;
use crate::walls::wall_page;
use serde_json::Value;
use sqlite::Alter;
use std::alloc::Global;
use tc_front::{Decision, Post, Refused};
use tc_room::{Answer, Room, answer_query, refusal_answer};
use tc_types::{LoadKind, Moment, Query, Refusal, Untold};

/// What is told.
#[derive(Drop)]
pub enum Told {
    /// A reply, each of its lines ended by LF.
    Lines(String),
    /// A page.
    Page(String),
}

/// What was served.
#[derive(Drop)]
pub struct Served {
    /// How the exchange ends.
    pub ending: Ending,
    /// Whether an act was done, which stands.
    pub stands: bool,
    /// What is told of it; `None` where memory was refused to that.
    pub text: Option<Told>,
}

/// How an exchange ends whose reply refuses with this, if it is a refusal.
fn ending_of(refusal: Option<Refusal>) -> Ending
    ensures { (reply : Reply) → RefusesWith reply refusal → EndsWith reply result }
{
    match refusal {
        Some(refusal) => Ending::Refused(refusal),
        None => Ending::Done,
    }
}

/// What was served: an act stands where one was asked and is done.
fn make_served(ending: Ending, acts: bool, text: Option<Told>) -> Served
    ensures { result ≡ record { ending = ending; stands = acts && is_done ending; text = text } }
{
    Served {
        ending,
        stands: acts && ending.is_done(),
        text,
    }
}

/// What was served, where the room answered so, and an act was asked of it or a question.
fn answer_served(answered: Result<Answer, Untold>, acts: bool) -> Served
    ensures { (reply : Reply) → Says reply answered → IsOutcome acts (outcome_of reply result) × HasText reply result }
{
    match answered {
        Ok(answer) => {
            let told = Told::Lines(answer.text);
            make_served(ending_of(answer.refusal), acts, Some(told))
        }
        Err(untold) => make_served(ending_of(untold.refusal), acts, None),
    }
}

/// What is served where the room is not asked.
fn refused(alloc: Global, ending: Ending, refusal: Refusal) -> Served
    ensures { (outcome_of (refusal_reply refusal) result ≡ refused_so ending refusal) × HasText (refusal_reply refusal) result }
{
    let text = match refusal_answer(alloc, refusal) {
        Ok(answer) => Some(Told::Lines(answer.text)),
        Err(_) => None,
    };
    Served {
        ending,
        stands: false,
        text,
    }
}

/// Asks a question of the room.
fn serve_query<S: Alter + Drop>(alloc: Global, room: &mut Room<S>, query: Query) -> Served
    ensures { IsServedBy (ServesQuery S.Store room.old query) room.old result room.new }
{
    answer_served(answer_query(alloc, room, query), false)
}

/// Shows the wall of the room.
fn serve_wall<S: Alter + Drop>(alloc: Global, room: &Room<S>, since: Moment) -> Served
    ensures { IsServedBy (ServesWall since room.now) room.now result room.now }
{
    match wall_page(alloc, room, since) {
        Ok(page) => Served {
            ending: Ending::Done,
            stands: false,
            text: Some(Told::Page(page)),
        },
        Err(refusal) => refused(alloc, Ending::Refused(refusal), refusal),
    }
}

/// Tells how the desk was opened.
fn serve_opening<S: Alter + Drop>(alloc: Global, room: &Room<S>, since: Moment) -> Served
    ensures { IsServedBy (TellsOpening since room.now) room.now result room.now }
{
    match opening_text(alloc, room, since) {
        Ok(text) => make_served(Ending::Done, false, Some(Told::Lines(text))),
        Err(_) => make_served(Ending::Done, false, None),
    }
}

/// Serves an act or a question that is called.
fn serve_act<S: Alter + Drop>(alloc: Global, room: &mut Room<S>, value: &Value) -> Served
    ensures { IsServedBy (ServesValue S.Store room.old paths.Acts (view value.now)) room.old result room.new }
{
    match judge_act(value) {
        Ok(post) => {
            let text = post.text.as_bytes();
            let called = room.act_once(alloc, post.caller, post.moment, text);
            answer_served(called.answer, called.acts)
        }
        Err(refusal) => refused(alloc, Ending::Refused(refusal), refusal),
    }
}

/// Serves a load of this kind that is called.
fn serve_load<S: Alter + Drop>(
    alloc: Global,
    room: &mut Room<S>,
    kind: LoadKind,
    value: &Value,
) -> Served
    ensures { IsServedBy (ServesKeys S.Store room.old kind (load_keys (view value.now))) room.old result room.new }
{
    match judge_load(value) {
        Ok(post) => {
            let (name, csv) = (post.name.as_bytes(), post.csv.as_bytes());
            let called = room.load_once(alloc, post.caller, post.moment, kind, name, csv);
            answer_served(called.answer, called.acts)
        }
        Err(refusal) => refused(alloc, Ending::Refused(refusal), refusal),
    }
}

/// Serves what stands in a body that is JSON.
fn serve_value<S: Alter + Drop>(
    alloc: Global,
    room: &mut Room<S>,
    post: Post,
    value: &Value,
) -> Served
    ensures { IsServedBy (ServesValue S.Store room.old post (view value.now)) room.old result room.new }
{
    match post {
        Post::Acts => serve_act(alloc, room, value),
        Post::Stacks => serve_load(alloc, room, LoadKind::Stack, value),
        Post::Procedures => serve_load(alloc, room, LoadKind::Procedure, value),
    }
}

/// Serves a body that is posted.
fn serve_post<S: Alter + Drop>(alloc: Global, room: &mut Room<S>, post: Post, body: &[u8]) -> Served
    ensures { IsServedBy (ServesPost S.Store room.old post body.now) room.old result room.new }
{
    match value_of(alloc, body) {
        Ok(value) => serve_value(alloc, room, post, &value),
        Err(refusal) => refused(alloc, Ending::Refused(refusal), refusal),
    }
}

/// How an exchange ends whose head is refused.
fn front_ending(why: Refused) -> Ending
    ensures { result ≡ front_ending why }
{
    match why {
        Refused::Foreign => Ending::Foreign,
        Refused::NoPath => Ending::NoPath,
        Refused::OtherMethod => Ending::OtherMethod,
        Refused::Bad => Ending::Refused(Refusal::BadText),
        Refused::Large => Ending::Refused(Refusal::TooLong),
    }
}

/// What a head is refused with.
fn front_refusal(why: Refused) -> Refusal
    ensures { result ≡ front_refusal why }
{
    match why {
        Refused::Foreign | Refused::NoPath | Refused::OtherMethod | Refused::Bad => {
            Refusal::BadText
        }
        Refused::Large => Refusal::TooLong,
    }
}

/// Refuses a head; the room is not asked.
fn serve_refused(alloc: Global, why: Refused) -> Served
    ensures { (outcome_of (refusal_reply (front_refusal why)) result ≡ refused_front why) × HasText (refusal_reply (front_refusal why)) result }
{
    refused(alloc, front_ending(why), front_refusal(why))
}

/// Serves what a front of the input decides, at a desk that was opened at this moment: a head that is refused asks nothing of the room; the wall is shown, the
/// opening is told, and a question makes its step, whoever asks; a post makes the step of its act, question or load, or is refused as it is read.
pub fn serve_decision<S: Alter + Drop>(
    alloc: Global,
    since: Moment,
    room: &mut Room<S>,
    decision: &Decision<'_>,
) -> Served
    ensures { IsServedBy (Serves since S.Store room.old (asked_of decision.now)) room.old result room.new }
{
    match *decision {
        Decision::Refused(why) => serve_refused(alloc, why),
        Decision::Asks(query) => serve_query(alloc, room, query),
        Decision::ShowsWall => serve_wall(alloc, room, since),
        Decision::TellsOpening => serve_opening(alloc, room, since),
        Decision::Posts { post, body } => serve_post(alloc, room, post, body),
    }
}
