//! The lines of telecommand packets, those of the activities of an insert among them.
ghost use Rattle.std.specs.Prelude.{◌≡◌, ◌+◌, ◌*◌, ◌++◌, ◌∷◌, [], ◌≤◌, OnOk, true, length, slice_index};
ghost use Rattle.tc_decoded.specs.Added.{Added};
ghost use Rattle.tc_decoded.specs.Rows.{told};
ghost use Rattle.tc_decoded.specs.Telecommands.{ActivitiesTold, ActivityLines, FieldsTold, TelecommandTold, activity_length, activity_packet_lines};
ghost use Rattle.tc_decoded.specs.Telecommands.{closing_rows, cut_row, data_rows, headers, is_cut, is_insert, may_insert};
ghost use Rattle.tc_decoded.specs.Tables.{time_rows};

use crate::lines::Line;
use crate::names::Name;
use crate::places::Place;
use crate::rows::{Fit, Row, Shown, Source, Word, octet_at, octets_from, octets_within, pair_at};
use crate::tables::put_time;
use crate::telecommands::{
    SCHEDULE, put_closing, put_data, put_headers, put_plain, telecommand_word,
};
use crate::telling::tell;
use std::alloc::{AllocError, Allocator};
use tc_octets::Profile;
use tc_packets::time_octets;

/// Adds the lines of an activity's packet, which is one of a plain request.
fn tell_activity_packet<A: Allocator + Copy>(
    alloc: A,
    out: &mut Vec<Line, A>,
    place: &Place,
    word: Option<Word>,
    profile: &Profile,
    octets: &[u8],
) -> Result<(), AllocError>
    requires { length octets.now ≤ 65542 }
    ensures { OnOk result (out.new.items ≡ out.old.items ++ activity_packet_lines place.now word profile.now octets.now) }
{
    let mut rows = Vec::new(alloc);
    put_headers(&mut rows, profile, octets)?;
    put_plain(&mut rows, profile, octets)?;
    put_closing(&mut rows, word, octets)?;
    tell(out, place, word, octets, &rows)
}

/// Returns how many octets the first activity takes.
fn activity_length(profile: &Profile, octets: &[u8]) -> usize
    ensures value { result ≡ activity_length profile.now octets.now }
    ensures small { result ≤ 65548 }
{
    let time = time_octets(profile);
    time + usize::from(pair_at(octets_from(octets, time), 4)) + 7
}

/// Returns whether octets are less than an activity.
fn is_cut(profile: &Profile, octets: &[u8]) -> bool
    ensures { result ≡ is_cut profile.now octets.now }
{
    octets.len() < activity_length(profile, octets)
}

/// Adds the line of octets that are less than an activity.
fn tell_cut<A: Allocator + Copy>(
    out: &mut Vec<Line, A>,
    place: &Place,
    profile: &Profile,
    octets: &[u8],
) -> Result<(), AllocError>
    ensures { OnOk result (out.new.items ≡ out.old.items ++ told place.now (Some Word.Data) octets.now (cut_row profile.now octets.now ∷ [])) }
{
    let needed = Fit::Least(activity_length(profile, octets) as u64);
    let row = count!(Activity, 0, octets.len() as u64, Word::Data, needed);
    tell(out, place, Some(Word::Data), octets, &[row])
}

/// Adds the line of an activity's release time.
fn tell_time<A: Allocator + Copy>(
    alloc: A,
    out: &mut Vec<Line, A>,
    place: &Place,
    word: Option<Word>,
    profile: &Profile,
    octets: &[u8],
) -> Result<(), AllocError>
    ensures { OnOk result (out.new.items ≡ out.old.items ++ told place.now word octets.now (time_rows profile.now 0)) }
{
    let mut rows = Vec::new(alloc);
    put_time(&mut rows, profile, 0)?;
    tell(out, place, word, octets, &rows)
}

/// Adds the lines of the first activity, which is whole.
fn tell_activity<A: Allocator + Copy>(
    alloc: A,
    out: &mut Vec<Line, A>,
    place: &Place,
    word: Option<Word>,
    profile: &Profile,
    octets: &[u8],
) -> Result<(), AllocError>
    requires few { length octets.now ≤ 65542 }
    requires near { place.now.skipped ≤ 1000000 }
    ensures { OnOk result (Added (ActivityLines place.now word profile.now octets.now) out.old.items out.new.items) }
{
    tell_time(alloc, out, place, word, profile, octets)?;
    let time = time_octets(profile);
    let number = activity_length(profile, octets) - time;
    let packet = octets_within(octets, time, number);
    let inner = telecommand_word(profile, packet);
    tell_activity_packet(
        alloc,
        out,
        &place.later(time as u32),
        inner,
        profile,
        packet,
    )
}

/// Adds the lines of so many activities.
fn tell_activities<A: Allocator + Copy>(
    alloc: A,
    out: &mut Vec<Line, A>,
    place: &Place,
    word: Option<Word>,
    profile: &Profile,
    octets: &[u8],
    number: u64,
) -> Result<(), AllocError>
    requires few { length octets.now ≤ 65542 }
    requires near { place.now.skipped + number * 65548 ≤ 1000000 }
    ensures { OnOk result (Added (ActivitiesTold number place.now word profile.now octets.now) out.old.items out.new.items) }
{
    if number == 0 {
        return Ok(());
    }
    if is_cut(profile, octets) {
        return tell_cut(out, place, profile, octets);
    }
    let taken = activity_length(profile, octets);
    tell_activity(alloc, out, place, word, profile, octets)?;
    let others = octets_from(octets, taken);
    let place = place.later(taken as u32);
    tell_activities(alloc, out, &place, word, profile, others, number - 1)
}

/// Returns whether a packet that is refused by this word, or taken, may be an insert.
fn may_insert(word: Option<Word>) -> bool
    ensures { result ≡ may_insert word }
{
    matches!(word, None | Some(Word::Data))
}

/// Returns whether the lines of a packet have those of activities.
fn is_insert(word: Option<Word>, octets: &[u8]) -> bool
    ensures { result ≡ is_insert word octets.now }
{
    let number = octet_at(octets, 11);
    may_insert(word)
        && octet_at(octets, 7) == SCHEDULE
        && octet_at(octets, 8) == 4
        && 1 <= number
        && number <= 8
        && 14 <= octets.len()
}

/// Adds the lines of a packet that has no activities.
fn tell_fields<A: Allocator + Copy>(
    alloc: A,
    out: &mut Vec<Line, A>,
    place: &Place,
    word: Option<Word>,
    profile: &Profile,
    octets: &[u8],
) -> Result<(), AllocError>
    requires { length octets.now ≤ 65542 }
    ensures { OnOk result (out.new.items ≡ out.old.items
        ++ told place.now word octets.now (headers profile.now octets.now ++ data_rows profile.now octets.now ++ closing_rows word octets.now)) }
{
    let mut rows = Vec::new(alloc);
    put_headers(&mut rows, profile, octets)?;
    put_data(&mut rows, profile, octets)?;
    put_closing(&mut rows, word, octets)?;
    tell(out, place, word, octets, &rows)
}

/// Adds the lines of an insert.
fn tell_insert<A: Allocator + Copy>(
    alloc: A,
    out: &mut Vec<Line, A>,
    place: &Place,
    word: Option<Word>,
    profile: &Profile,
    octets: &[u8],
) -> Result<(), AllocError>
    requires few { length octets.now ≤ 65542 }
    requires near { place.now.skipped ≤ 131072 }
    requires number { slice_index octets.now 11 ≤ 8 }
    ensures { OnOk result (Added (FieldsTold true place.now word profile.now octets.now) out.old.items out.new.items) }
{
    let mut rows = Vec::new(alloc);
    put_headers(&mut rows, profile, octets)?;
    put_data(&mut rows, profile, octets)?;
    tell(out, place, word, octets, &rows)?;
    let inserted = octets_within(octets, 12, octets.len().saturating_sub(14));
    let number = octet_at(octets, 11);
    tell_activities(
        alloc,
        out,
        &place.later(12),
        word,
        profile,
        inserted,
        number,
    )?;
    let mut rows = Vec::new(alloc);
    put_closing(&mut rows, word, octets)?;
    tell(out, place, word, octets, &rows)
}

/// Adds the lines of a telecommand packet: its fields, up to the one for which the reader refuses it.
pub(crate) fn tell_telecommand<A: Allocator + Copy>(
    alloc: A,
    out: &mut Vec<Line, A>,
    place: &Place,
    profile: &Profile,
    octets: &[u8],
) -> Result<(), AllocError>
    requires few { length octets.now ≤ 65542 }
    requires near { place.now.skipped ≤ 131072 }
    ensures { OnOk result (Added (TelecommandTold place.now profile.now octets.now) out.old.items out.new.items) }
{
    let word = telecommand_word(profile, octets);
    if is_insert(word, octets) {
        return tell_insert(alloc, out, place, word, profile, octets);
    }
    tell_fields(alloc, out, place, word, profile, octets)
}
