//! How the link stands.
ghost use Rattle.std.specs.Prelude.{◌≡◌, ◌++◌, codes, OnOk, IfOk};
ghost use Rattle.std.specs.String.{string_bytes};
ghost use Rattle.tc_wall.specs.Parts.{Adds};
ghost use Rattle.tc_wall.specs.LinkParts.{fop_words, farm_words, flag_words, premise_word, worded_parts, number_parts, share_parts, flies_parts, queue_parts, counter_parts, fop_parts, farm_parts, section_begins, premise_parts, link_parts, closed_link_parts};

use crate::bounds::add_fixed;
use crate::links::{FarmLine, FarmWord, FopLine, FopWord, LinkLines};
use std::alloc::{AllocError, Allocator};
use std::fmt::Write;

/// The states of the FOP in words.
#[tactic(auto, unfolding(crate::specs::LinkParts::fop_words))]
fn fop_words(state: FopWord) -> &'static str
    ensures { result.now ≡ fop_words state }
{
    match state {
        FopWord::Active => "<dd>S1 active",
        FopWord::RetransmitWithoutWait => "<dd>S2 retransmit without wait",
        FopWord::RetransmitWithWait => "<dd>S3 retransmit with wait",
        FopWord::InitialisingWithoutBc => "<dd>S4 initialising without BC frame",
        FopWord::InitialisingWithBc => "<dd>S5 initialising with BC frame",
        FopWord::Initial => "<dd>S6 initial: nothing is sent",
    }
}

/// Those of the FARM.
#[tactic(auto, unfolding(crate::specs::LinkParts::farm_words))]
fn farm_words(state: FarmWord) -> &'static str
    ensures { result.now ≡ farm_words state }
{
    match state {
        FarmWord::Open => "<dd>Open",
        FarmWord::Wait => "<dd class=\"Wait\">Wait",
        FarmWord::Lockout => "<dd class=\"Lockout\">Lockout",
    }
}

/// The flags that stand in words.
#[tactic(auto, unfolding(crate::specs::LinkParts::flag_words))]
fn flag_words(lockout: bool, wait: bool, retransmit: bool) -> &'static str
    ensures { result.now ≡ flag_words lockout wait retransmit }
{
    match (lockout, wait, retransmit) {
        (false, false, false) => "<dd>none",
        (true, false, false) => "<dd class=\"Wait\">Lockout ",
        (false, true, false) => "<dd class=\"Wait\">Wait ",
        (false, false, true) => "<dd class=\"Wait\">Retransmit ",
        (true, true, false) => "<dd class=\"Wait\">Lockout Wait ",
        (true, false, true) => "<dd class=\"Wait\">Lockout Retransmit ",
        (false, true, true) => "<dd class=\"Wait\">Wait Retransmit ",
        (true, true, true) => "<dd class=\"Wait\">Lockout Wait Retransmit ",
    }
}

/// Whether every start so far was good, in a word.
#[tactic(auto, unfolding(crate::specs::LinkParts::premise_word))]
fn premise_word(clean: bool) -> &'static str
    ensures { result.now ≡ premise_word clean }
{
    if clean { "kept" } else { "broken" }
}

/// Adds words below a name.
#[tactic(auto, unfolding(crate::specs::LinkParts::worded_parts))]
fn add_worded<A: Allocator + Copy>(
    page: &mut String<A>,
    name: &str,
    words: &str,
) -> Result<(), AllocError>
    ensures { OnOk result (Adds (worded_parts name.now words.now) (string_bytes page.old) (string_bytes page.new)) }
{
    write!(page, "<div><dt>{name}</dt>{words}</dd></div>\n")
}

/// Adds a number below its name.
#[tactic(auto, unfolding(crate::specs::LinkParts::number_parts))]
fn add_number<A: Allocator + Copy>(
    page: &mut String<A>,
    name: &str,
    number: u8,
) -> Result<(), AllocError>
    ensures { OnOk result (Adds (number_parts name.now number) (string_bytes page.old) (string_bytes page.new)) }
{
    write!(page, "<div><dt>{name}</dt><dd>{number}</dd></div>\n")
}

/// Adds so many of so many below their name.
#[tactic(auto, unfolding(crate::specs::LinkParts::share_parts))]
fn add_share<A: Allocator + Copy>(
    page: &mut String<A>,
    name: &str,
    number: u16,
    most: u16,
) -> Result<(), AllocError>
    ensures { OnOk result (Adds (share_parts name.now number most) (string_bytes page.old) (string_bytes page.new)) }
{
    write!(
        page,
        "<div><dt>{name}</dt><dd>{number} of {most}</dd></div>\n"
    )
}

/// Adds what is in flight.
#[tactic(auto, unfolding(crate::specs::LinkParts::flies_parts))]
fn add_flies<A: Allocator + Copy>(
    page: &mut String<A>,
    up: usize,
    down: usize,
) -> Result<(), AllocError>
    ensures { OnOk result (Adds (flies_parts up down) (string_bytes page.old) (string_bytes page.new)) }
{
    write!(
        page,
        "<div><dt>flies</dt><dd>{up} up, {down} down</dd></div>\n"
    )
}

/// Adds so many of so many below their name, of the FOP's small numbers.
fn add_small_share<A: Allocator + Copy>(
    page: &mut String<A>,
    name: &str,
    number: u8,
    most: u8,
) -> Result<(), AllocError>
    ensures { OnOk result (Adds (share_parts name.now number most) (string_bytes page.old) (string_bytes page.new)) }
{
    add_share(page, name, u16::from(number), u16::from(most))
}

/// Adds the state of the FOP, and what it holds.
#[tactic(auto, using(crate::proofs::PartLemmas::then_adds), unfolding(crate::specs::LinkParts::queue_parts))]
fn add_queues<A: Allocator + Copy>(page: &mut String<A>, fop: &FopLine) -> Result<(), AllocError>
    ensures { OnOk result (Adds (queue_parts fop.now) (string_bytes page.old) (string_bytes page.new)) }
{
    add_worded(page, "FOP", fop_words(fop.state))?;
    add_small_share(page, "not confirmed", fop.sent, fop.k)?;
    add_number(page, "waits to be sent", fop.waiting)?;
    add_small_share(page, "transmission", fop.count, fop.limit)
}

/// Adds its counters.
#[tactic(auto, using(crate::proofs::PartLemmas::then_adds), unfolding(crate::specs::LinkParts::counter_parts))]
fn add_counters<A: Allocator + Copy>(page: &mut String<A>, fop: &FopLine) -> Result<(), AllocError>
    ensures { OnOk result (Adds (counter_parts fop.now) (string_bytes page.old) (string_bytes page.new)) }
{
    add_share(page, "timer", fop.timer, fop.t1)?;
    add_number(page, "V(S)", fop.vs)?;
    add_number(page, "NN(R)", fop.nn)
}

/// Adds how the FOP stands.
#[tactic(auto, using(crate::proofs::PartLemmas::then_adds), unfolding(crate::specs::LinkParts::fop_parts))]
fn add_fop<A: Allocator + Copy>(page: &mut String<A>, fop: &FopLine) -> Result<(), AllocError>
    ensures { OnOk result (Adds (fop_parts fop.now) (string_bytes page.old) (string_bytes page.new)) }
{
    add_queues(page, fop)?;
    add_counters(page, fop)
}

/// Adds how the FARM stands.
#[tactic(auto, using(crate::proofs::PartLemmas::then_adds), unfolding(crate::specs::LinkParts::farm_parts))]
fn add_farm<A: Allocator + Copy>(page: &mut String<A>, farm: &FarmLine) -> Result<(), AllocError>
    ensures { OnOk result (Adds (farm_parts farm.now) (string_bytes page.old) (string_bytes page.new)) }
{
    add_worded(page, "FARM", farm_words(farm.state))?;
    add_number(page, "V(R)", farm.vr)?;
    add_number(page, "FARM-B", farm.farm_b)?;
    let flags = flag_words(farm.lockout, farm.wait, farm.retransmit);
    add_worded(page, "flags", flags)?;
    add_number(page, "W", farm.window)
}

/// Adds where the section begins.
#[tactic(auto, unfolding(crate::specs::LinkParts::section_begins))]
fn begin_section<A: Allocator + Copy>(page: &mut String<A>, clean: bool) -> Result<(), AllocError>
    ensures { OnOk result (Adds (section_begins clean) (string_bytes page.old) (string_bytes page.new)) }
{
    let word = premise_word(clean);
    write!(page, "<section class=\"link {word}\">\n<h2>Link</h2>\n")
}

/// Adds the premise.
#[tactic(auto, unfolding(crate::specs::LinkParts::premise_parts))]
fn add_premise<A: Allocator + Copy>(page: &mut String<A>, clean: bool) -> Result<(), AllocError>
    ensures { OnOk result (Adds (premise_parts clean) (string_bytes page.old) (string_bytes page.new)) }
{
    let word = premise_word(clean);
    write!(page, "<p class=\"premise\">premise {word}</p>\n<dl>\n")
}

/// Adds how the link of an open desk stands.
#[tactic(auto, using(crate::proofs::PartLemmas::then_adds), unfolding(crate::specs::LinkParts::link_parts))]
pub(crate) fn add_link<A: Allocator + Copy>(
    page: &mut String<A>,
    link: &LinkLines,
) -> Result<(), AllocError>
    ensures { OnOk result (Adds (link_parts link.now) (string_bytes page.old) (string_bytes page.new)) }
{
    begin_section(page, link.clean)?;
    add_premise(page, link.clean)?;
    add_fop(page, &link.fop)?;
    add_farm(page, &link.farm)?;
    add_flies(page, link.up, link.down)?;
    add_fixed(page, "</dl>\n</section>\n")
}

/// Adds that there is none of a closed file.
pub(crate) fn add_closed_link<A: Allocator + Copy>(page: &mut String<A>) -> Result<(), AllocError>
    ensures { OnOk result (Adds closed_link_parts (string_bytes page.old) (string_bytes page.new)) }
{
    add_fixed(
        page,
        "<section class=\"link closed\">\n<h2>Link</h2>\n<p class=\"premise\">closed</p>\n</section>\n",
    )
}
