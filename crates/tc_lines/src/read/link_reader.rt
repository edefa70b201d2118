//! Texts that are read as acts on the link and on the spacecraft.
ghost use Rattle.std.specs.Prelude.{[], ◌∷◌, codes};
ghost use Rattle.std.specs.Fmt.{decimal};
ghost use Rattle.tc_types.specs.declared.verbs.Verb.TheVariants as verb;
ghost use Rattle.tc_types.specs.Verbs.{verb_word};
ghost use Rattle.tc_types.specs.Grammar.{Reads, IsNumber};
ghost use Rattle.tc_types.specs.Numbers.{IsMoment};
ghost use Rattle.tc_types.specs.LinkGrammar.{directive_words, IsDirective, link_act_words, IsLinkAct};

use crate::read::readers::{counter, is, moment, number, ticks, transmission_limit, window};
use crate::read::words::Words;
use tc_types::{Directive, LinkAct, Moment, Verb};

/// A number that is the last word.
fn last_number(words: &mut Words<'_>) -> Option<u32>
    ensures { Reads (λ n. decimal n ∷ []) IsNumber words.old result }
{
    let value = number(words.next()?)?;
    words.end()?;
    Some(value)
}

/// A moment that is the last word.
fn last_moment(words: &mut Words<'_>) -> Option<Moment>
    ensures { Reads (λ n. decimal n ∷ []) IsMoment words.old result }
{
    let value = moment(words.next()?)?;
    words.end()?;
    Some(value)
}

/// What stands behind `initiate setvr`.
fn set_vr(words: &mut Words<'_>) -> Option<Directive>
    ensures { Reads directive_words IsDirective (verb_word verb.Initiate ∷ codes "setvr" ∷ words.old) result }
{
    let value = counter(words.next()?)?;
    words.end()?;
    Some(Directive::InitiateSetVr(value))
}

/// What stands behind `initiate`.
fn initiate(words: &mut Words<'_>) -> Option<Directive>
    ensures { Reads directive_words IsDirective (verb_word verb.Initiate ∷ words.old) result }
{
    let how = words.next()?;
    if is(how, b"setvr") {
        return set_vr(words);
    }
    words.end()?;
    if is(how, b"none") {
        Some(Directive::InitiateNone)
    } else if is(how, b"check") {
        Some(Directive::InitiateCheck)
    } else if is(how, b"unlock") {
        Some(Directive::InitiateUnlock)
    } else {
        None
    }
}

/// What stands behind `set`.
fn set(words: &mut Words<'_>) -> Option<Directive>
    ensures { Reads directive_words IsDirective (verb_word verb.Set ∷ words.old) result }
{
    let what = words.next()?;
    let value = words.next()?;
    words.end()?;
    if is(what, b"vs") {
        Some(Directive::SetVs(counter(value)?))
    } else if is(what, b"k") {
        Some(Directive::SetK(window(value)?))
    } else if is(what, b"t1") {
        Some(Directive::SetT1(ticks(value)?))
    } else if is(what, b"limit") {
        Some(Directive::SetLimit(transmission_limit(value)?))
    } else {
        None
    }
}

/// The act of this verb alone.
fn bare_act(verb: &[u8]) -> Option<LinkAct>
    ensures { Reads link_act_words IsLinkAct (verb.now ∷ []) result }
{
    if Verb::Tick.is(verb) {
        Some(LinkAct::Tick)
    } else if Verb::Up.is(verb) {
        Some(LinkAct::Up)
    } else if Verb::Clcw.is(verb) {
        Some(LinkAct::Clcw)
    } else if Verb::Down.is(verb) {
        Some(LinkAct::Down)
    } else if Verb::Work.is(verb) {
        Some(LinkAct::Work)
    } else if Verb::Terminate.is(verb) {
        Some(LinkAct::Direct(Directive::Terminate))
    } else {
        None
    }
}

/// An act on the link or on the spacecraft: its verb, and the words behind it.
pub fn link_act_of(verb: &[u8], words: &mut Words<'_>) -> Option<LinkAct>
    ensures { Reads link_act_words IsLinkAct (verb.now ∷ words.old) result }
{
    if Verb::Release.is(verb) {
        let request = last_number(words)?;
        Some(LinkAct::Release { request })
    } else if Verb::Initiate.is(verb) {
        Some(LinkAct::Direct(initiate(words)?))
    } else if Verb::Set.is(verb) {
        Some(LinkAct::Direct(set(words)?))
    } else if Verb::LoseUp.is(verb) {
        let place = last_number(words)?;
        Some(LinkAct::LoseUp { place })
    } else if Verb::LoseDown.is(verb) {
        let place = last_number(words)?;
        Some(LinkAct::LoseDown { place })
    } else if Verb::Clock.is(verb) {
        let time = last_moment(words)?;
        Some(LinkAct::Clock { time })
    } else {
        words.end()?;
        bare_act(verb)
    }
}
