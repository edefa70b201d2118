//! The on-board schedule.
ghost use Rattle.std.specs.Prelude.{◌≡◌, OnOk};
ghost use Rattle.std.specs.List.{flat_map};
ghost use Rattle.std.specs.String.{string_bytes};
ghost use Rattle.tc_wall.specs.Parts.{Adds};
ghost use Rattle.tc_wall.specs.ScheduleParts.{enabled_word, enabled_parts, activity_parts, known_schedule_parts, closed_schedule_parts};

use crate::bounds::{add_fixed, add_left_out, first_of};
use crate::fixed::SCHEDULE;
use crate::times::time_text;
use crate::walls::{MOST_SHOWN_ACTIVITIES, ShownSchedule};
use std::alloc::{AllocError, Allocator};
use std::fmt::Write;
use tc_types::ListedActivity;

/// Whether it is enabled, in a word.
#[tactic(auto, unfolding(crate::specs::ScheduleParts::enabled_word))]
fn enabled_word(enabled: bool) -> &'static str
    ensures { result.now ≡ enabled_word enabled }
{
    if enabled { "enabled" } else { "disabled" }
}

/// Adds whether it is enabled, and how many activities it has.
#[tactic(auto, unfolding(crate::specs::ScheduleParts::enabled_parts))]
fn add_enabled<A: Allocator + Copy>(
    page: &mut String<A>,
    enabled: bool,
    count: usize,
) -> Result<(), AllocError>
    ensures { OnOk result (Adds (enabled_parts enabled count) (string_bytes page.old) (string_bytes page.new)) }
{
    let word = enabled_word(enabled);
    write!(
        page,
        "<p class=\"none\"><b>{word}</b>, activities: {count}</p>\n<ul>\n"
    )
}

/// Adds an activity and its time.
#[tactic(auto, unfolding(crate::specs::ScheduleParts::activity_parts))]
fn add_activity<A: Allocator + Copy>(
    page: &mut String<A>,
    it: &ListedActivity,
) -> Result<(), AllocError>
    ensures { OnOk result (Adds (activity_parts it.now) (string_bytes page.old) (string_bytes page.new)) }
{
    let apid = it.identity.apid.get();
    let count = it.identity.count.get();
    let time = time_text(it.time);
    let time = time.as_str();
    write!(page, "<li><b>{apid}/{count}</b> {time}</li>\n")
}

/// Adds these activities, in order.
#[tactic(auto, using(crate::proofs::PartLemmas::none_added, crate::proofs::PartLemmas::one_more))]
fn add_activities<A: Allocator + Copy>(
    page: &mut String<A>,
    activities: &[ListedActivity],
) -> Result<(), AllocError>
    ensures { OnOk result (Adds (flat_map activity_parts activities.now) (string_bytes page.old) (string_bytes page.new)) }
{
    for it in activities {
        add_activity(page, it)?;
    }
    Ok(())
}

/// Adds the schedule of an open desk.
#[tactic(auto, using(crate::proofs::PartLemmas::then_adds), unfolding(crate::specs::ScheduleParts::known_schedule_parts))]
pub(crate) fn add_known_schedule<A: Allocator + Copy>(
    page: &mut String<A>,
    schedule: &ShownSchedule,
) -> Result<(), AllocError>
    ensures { OnOk result (Adds (known_schedule_parts schedule.now) (string_bytes page.old) (string_bytes page.new)) }
{
    add_fixed(page, SCHEDULE)?;
    add_enabled(page, schedule.enabled, schedule.laid_in)?;
    add_activities(page, first_of(schedule.activities, MOST_SHOWN_ACTIVITIES))?;
    add_fixed(page, "</ul>\n")?;
    add_left_out(page, schedule.laid_in, MOST_SHOWN_ACTIVITIES)?;
    add_fixed(page, "</section>\n")
}

/// Adds that there is none of a closed file.
#[tactic(auto, using(crate::proofs::PartLemmas::then_adds))]
pub(crate) fn add_closed_schedule<A: Allocator + Copy>(
    page: &mut String<A>,
) -> Result<(), AllocError>
    ensures { OnOk result (Adds closed_schedule_parts (string_bytes page.old) (string_bytes page.new)) }
{
    add_fixed(page, SCHEDULE)?;
    add_fixed(page, "<p class=\"none\">closed</p>\n</section>\n")
}
