//! What is asked under a number of its caller, and done once though it comes twice.
//!
//! A reply that is kept for the caller under its number is the answer, and nothing else is looked at. Where none is kept, what is asked is judged and done as
//! ever, and the reply of an act or a load that was accepted is kept for good, in the same batch as its rows.
ghost use Rattle.std.specs.Prelude.{◌≡◌, ◌⊎◌, true, false, Some, None, Ok, Err, IfOk, MatchOption, List, Result};
ghost use Rattle.std.specs.String.{string_bytes};
ghost use Rattle.tc_types.specs.declared.acts.Line.{Line as SomeLine};
ghost use Rattle.tc_types.specs.declared.refusals.Refusal.{Refusal as SomeRefusal};
ghost use Rattle.tc_types.specs.declared.refusals.Refusal.TheVariants.{Memory};
ghost use Rattle.tc_types.specs.Names.{IsName};
ghost use Rattle.tc_world.specs.EitherLink.{either};
ghost use Rattle.tc_desk.specs.Acts.{is_question, refusal_of};
ghost use Rattle.tc_desk.specs.Machine.{DeskStep};
ghost use Rattle.tc_desk.specs.Replies.{Reply, refusal_reply};
ghost use Rattle.tc_room.specs.Answers.{Says};
ghost use Rattle.tc_room.specs.Calls.{ActsAnew, AnswersActCall, AnswersLoadCall, AsksOnce, IsAnew, IsCalled, IsUnfit, JudgesActText, KeepsCall, LoadsAnew, LoadsTextOnce, MakesOnce, outcome_in};
ghost use Rattle.tc_room.specs.Joined.{FollowsBoard};
ghost use Rattle.tc_room.specs.Replies.{AreLines, ended, is_refused};
ghost use Rattle.tc_room.specs.Truth.{LeavesLink, TellsTextTrue, TellsTrue};

use crate::answers::{Answer, answer_asked, refusal_answer};
use crate::callers::Caller;
use crate::loadings;
use crate::rooms::Room;
use sqlite::Alter;
use std::alloc::Global;
use tc_book::Stamp;
use tc_lines::read_act;
use tc_types::limits::LONGEST_ACT;
use tc_types::{Act, Line, LoadKind, Moment, Name, Person, Refusal, Untold};

/// What a call was answered.
#[derive(Drop)]
pub struct Called {
    /// The answer.
    pub answer: Result<Answer, Untold>,
    /// Whether it is that of an act or a load, and not of a question.
    pub acts: bool,
}

/// The act that a text spells, of a person at a moment. Refused with `TooLong` where the text has more than 200 bytes, and then with `BadText` where the moment
/// is none, or the text spells no act.
fn judge_act(by: Person, moment: Option<Moment>, text: &[u8]) -> Result<Line, Refusal>
    ensures judged { JudgesActText text.now by moment result }
    // a text is one thing
    ensures only { (outcome : Result SomeLine SomeRefusal) → JudgesActText text.now by moment outcome → result ≡ outcome }
{
    if text.len() > LONGEST_ACT {
        return Err(Refusal::TooLong);
    }
    let moment = moment.ok_or(Refusal::BadText)?;
    match read_act(text) {
        Ok(act) => Ok(Line { moment, by, act }),
        Err(_) => Err(Refusal::BadText),
    }
}

/// The moment and the name of a load, where these are such.
fn known(moment: Option<Moment>, name: &[u8]) -> Option<(Moment, Name)>
    ensures { MatchOption result ((moment ≡ None) ⊎ (¬ (IsName name.now))) (λ known. (moment ≡ Some known.0) × (known.1 ≡ name.now) × IsName name.now) }
{
    let moment = moment?;
    let name = Name::read(name)?;
    Some((moment, name))
}

/// Why a load is refused whose moment is none, or whose name has no form.
fn unfit(alloc: Global, kind: LoadKind, csv: &[u8]) -> Refusal
    ensures { (result ≡ Memory) ⊎ IsUnfit kind csv.now result }
{
    match loadings::is_too_long(alloc, kind, csv) {
        Ok(true) => Refusal::TooLong,
        Ok(false) => Refusal::BadText,
        Err(_) => Refusal::Memory,
    }
}

/// What a refusal answers to a call.
fn refused(alloc: Global, refusal: Refusal) -> Called
    ensures says { Says (refusal_reply refusal) result.answer }
    ensures acts { result.acts ≡ true }
    ensures told { outcome_in result.answer ≡ Err refusal }
{
    Called {
        answer: refusal_answer(alloc, refusal),
        acts: true,
    }
}

/// What the text of a reply that refuses nothing answers to a call.
fn granted(text: String) -> Called
    ensures says { (reply : Reply) → string_bytes text ≡ ended reply → AreLines reply → is_refused reply ≡ false → Says reply result.answer }
    ensures acts { result.acts ≡ true }
    ensures grants { IfOk result.answer (λ answer. answer.refusal ≡ None) }
    ensures told { outcome_in result.answer ≡ Ok tt }
{
    Called {
        answer: Ok(Answer {
            text,
            refusal: None,
        }),
        acts: true,
    }
}

impl<S: Alter + Drop> Room<S> {
    /// What is asked anew by an act that was read.
    fn do_once(&mut self, alloc: Global, caller: Caller, stamp: Stamp, act: Act) -> Called
        requires going { self.old.stopped ≡ false }
        requires acts { is_question act ≡ false }
        ensures called { IsCalled (IsAnew S.Store (λ replies acts reply new. (acts ≡ true) × MakesOnce S.Store replies caller (DeskStep either either self.old.desk stamp act) (refusal_of stamp self.old.desk act ≡ None) self.old reply new) self.old) (λ reply new. TellsTrue act reply self.old new) self.old result self.new }
        ensures keeps { KeepsCall S.Store self.old result self.new }
    {
        match self.act_kept(alloc, caller, stamp, act) {
            Ok(text) => granted(text),
            Err(refusal) => refused(alloc, refusal),
        }
    }

    /// What is asked anew by a line that was read.
    fn ask_once(&mut self, alloc: Global, caller: Caller, line: Line) -> Called
        requires going { self.old.stopped ≡ false }
        ensures called { IsCalled (IsAnew S.Store (λ replies acts reply new. AsksOnce S.Store replies caller self.old line acts reply new) self.old) (λ reply new. TellsTrue line.act reply self.old new) self.old result self.new }
        ensures keeps { KeepsCall S.Store self.old result self.new }
    {
        match line.act {
            Act::Ask(query) => {
                let answer = answer_asked(alloc, self, query);
                // read for the proof alone: the promise is kept
                let _opened = self.opened();
                Called {
                    answer,
                    acts: false,
                }
            }
            act => {
                let stamp = Stamp {
                    by: line.by,
                    moment: line.moment,
                };
                self.do_once(alloc, caller, stamp, act)
            }
        }
    }

    /// What is asked anew by a text, at a moment, where that is one.
    fn ask_anew(
        &mut self,
        alloc: Global,
        caller: Caller,
        moment: Option<Moment>,
        text: &[u8],
    ) -> Called
        requires going { self.old.stopped ≡ false }
        ensures called { IsCalled (IsAnew S.Store (λ replies acts reply new. ActsAnew S.Store moment text.now replies caller self.old acts reply new) self.old) (λ reply new. TellsTextTrue text.now reply self.old new) self.old result self.new }
        ensures keeps { KeepsCall S.Store self.old result self.new }
    {
        // read for the proof alone: the promise is kept
        let _opened = self.opened();
        match judge_act(caller.by, moment, text) {
            Ok(line) => self.ask_once(alloc, caller, line),
            Err(refusal) => refused(alloc, refusal),
        }
    }

    /// The reply that is kept for a caller under its number, or else what is asked anew by a text, at a moment, where that is one.
    fn act_called(
        &mut self,
        alloc: Global,
        caller: Caller,
        moment: Option<Moment>,
        text: &[u8],
    ) -> Called
        ensures called { IsCalled (AnswersActCall S.Store caller moment text.now self.old) (λ reply new. TellsTextTrue text.now reply self.old new) self.old result self.new }
        ensures keeps { KeepsCall S.Store self.old result self.new }
    {
        match self.kept_reply(caller.by, caller.number) {
            Ok(Some(text)) => granted(text),
            Ok(None) => self.ask_anew(alloc, caller, moment, text),
            Err(refusal) => refused(alloc, refusal),
        }
    }

    /// An act or a question of a caller under its number, at a moment, where that is one. A kept reply is the answer, and the text and the moment are not looked
    /// at. Else it is judged and done, and the reply of an act that was accepted is kept. A room that has stopped answers `Stopped` before all else.
    pub fn act_once(
        &mut self,
        alloc: Global,
        caller: Caller,
        moment: Option<Moment>,
        text: &[u8],
    ) -> Called
        ensures called { IsCalled (AnswersActCall S.Store caller moment text.now self.old) (λ reply new. TellsTextTrue text.now reply self.old new) self.old result self.new }
        ensures keeps { KeepsCall S.Store self.old result self.new }
        ensures mirror { FollowsBoard self.new }
    {
        let called = self.act_called(alloc, caller, moment, text);
        // read for the proof alone: the mirror follows the spacecraft
        let _whole = self.whole();
        called
    }

    /// Loads what a text spells under a name, anew.
    fn load_text(
        &mut self,
        alloc: Global,
        caller: Caller,
        kind: LoadKind,
        stamp: Stamp,
        name: Name,
        csv: &[u8],
    ) -> Called
        requires going { self.old.stopped ≡ false }
        ensures called { IsCalled (IsAnew S.Store (λ replies acts reply new. (acts ≡ true) × LoadsTextOnce S.Store kind stamp name csv.now replies caller self.old reply new) self.old) (λ reply new. LeavesLink self.old new) self.old result self.new }
        ensures keeps { KeepsCall S.Store self.old result self.new }
    {
        // read for the proof alone: the promise is kept
        let _opened = self.opened();
        let spelled = match loadings::read(alloc, kind, csv) {
            Ok(spelled) => spelled,
            Err(refusal) => return refused(alloc, refusal),
        };
        match self.load_kept(alloc, caller, stamp, name, &spelled) {
            Ok(text) => granted(text),
            Err(refusal) => refused(alloc, refusal),
        }
    }

    /// What is loaded anew, at a moment and under a name, where these are such.
    fn load_anew(
        &mut self,
        alloc: Global,
        caller: Caller,
        moment: Option<Moment>,
        kind: LoadKind,
        name: &[u8],
        csv: &[u8],
    ) -> Called
        requires going { self.old.stopped ≡ false }
        ensures called { IsCalled (IsAnew S.Store (λ replies acts reply new. LoadsAnew S.Store kind moment name.now csv.now replies caller self.old acts reply new) self.old) (λ reply new. LeavesLink self.old new) self.old result self.new }
        ensures keeps { KeepsCall S.Store self.old result self.new }
    {
        // read for the proof alone: the promise is kept
        let _opened = self.opened();
        match known(moment, name) {
            Some(known) => {
                let stamp = Stamp {
                    by: caller.by,
                    moment: known.0,
                };
                self.load_text(alloc, caller, kind, stamp, known.1, csv)
            }
            None => refused(alloc, unfit(alloc, kind, csv)),
        }
    }

    /// A stack or a procedure that a text spells, of a caller under its number, under a name, at a moment, where these are such. A kept reply is the answer, and the
    /// text, the name and the moment are not looked at. Else it is judged and loaded, and the reply of a load that was accepted is kept. A room that has stopped answers
    /// `Stopped` before all else.
    pub fn load_once(
        &mut self,
        alloc: Global,
        caller: Caller,
        moment: Option<Moment>,
        kind: LoadKind,
        name: &[u8],
        csv: &[u8],
    ) -> Called
        ensures called { IsCalled (AnswersLoadCall S.Store caller kind moment name.now csv.now self.old) (λ reply new. LeavesLink self.old new) self.old result self.new }
        ensures keeps { KeepsCall S.Store self.old result self.new }
    {
        match self.kept_reply(caller.by, caller.number) {
            Ok(Some(text)) => granted(text),
            Ok(None) => self.load_anew(alloc, caller, moment, kind, name, csv),
            Err(refusal) => refused(alloc, refusal),
        }
    }
}
