//! The source data of summaries of the schedule.
ghost use Rattle.std.specs.Prelude.{◌≡◌, ◌++◌, ◌≤◌, OnOk};
ghost use Rattle.tc_decoded.specs.ReportLines.{entries_rows, entry_length, entry_rows, status_rows, summary_length, summary_rows, summary_rows_of};

use crate::names::Name;
use crate::reports::{source_at, source_length, source_row};
use crate::rows::{Fit, Row, Shown, Source, Span, Word, octet_at};
use crate::tables::{name_rows, put_time};
use std::alloc::{AllocError, Allocator};
use tc_octets::Profile;
use tc_packets::{NAME, time_octets};

/// Returns how many octets an activity of a summary has.
fn entry_length(profile: &Profile) -> u64
    ensures value { result ≡ entry_length profile.now }
    ensures small { result ≤ 12 }
{
    time_octets(profile) as u64 + NAME as u64
}

/// Adds an activity of a summary: its release time and its name, of any source.
fn put_entry<A: Allocator + Copy>(
    rows: &mut Vec<Row, A>,
    profile: &Profile,
    at: u32,
) -> Result<(), AllocError>
    requires { at ≤ 65542 }
    ensures { OnOk result (rows.new.items ≡ rows.old.items ++ entry_rows profile.now at) }
{
    put_time(rows, profile, at)?;
    let at = at + time_octets(profile) as u32;
    rows.extend_from_slice(&name_rows(Fit::Any, at))
}

/// Adds so many activities of a summary.
fn put_entries<A: Allocator + Copy>(
    rows: &mut Vec<Row, A>,
    profile: &Profile,
    at: u32,
    number: u64,
) -> Result<(), AllocError>
    requires few { number ≤ 255 }
    requires near { at ≤ 1000 }
    ensures { OnOk result (rows.new.items ≡ rows.old.items ++ entries_rows profile.now at number) }
{
    let each = entry_length(profile);
    for entry in 0..number {
        put_entry(rows, profile, at + (entry * each) as u32)?;
    }
    Ok(())
}

/// Returns how many octets the source data of a summary have, without a status.
fn summary_length(profile: &Profile, number: u64) -> u64
    requires { number ≤ 255 }
    ensures value { result ≡ summary_length profile.now number }
    ensures small { result ≤ 3061 }
{
    1 + number * entry_length(profile)
}

/// Adds the status of the schedule, which may be missing.
fn put_status<A: Allocator + Copy>(
    rows: &mut Vec<Row, A>,
    profile: &Profile,
    octets: &[u8],
    number: u64,
) -> Result<(), AllocError>
    requires { number ≤ 255 }
    ensures { OnOk result (rows.new.items ≡ rows.old.items ++ status_rows profile.now octets.now number) }
{
    let before = summary_length(profile, number);
    if source_length(profile, octets) == before + 1 {
        let at = source_at(profile) + before as u32;
        rows.push(row!(
            ScheduleStatus,
            at,
            0,
            8,
            Status,
            Word::Data,
            Fit::Between(0, 1)
        ))?;
    }
    Ok(())
}

/// Adds the source data of a summary of so many activities.
fn put_summary_of<A: Allocator + Copy>(
    rows: &mut Vec<Row, A>,
    profile: &Profile,
    octets: &[u8],
    number: u64,
) -> Result<(), AllocError>
    requires { number ≤ 255 }
    ensures { OnOk result (rows.new.items ≡ rows.old.items ++ summary_rows_of profile.now octets.now number) }
{
    let at = source_at(profile);
    let before = summary_length(profile, number);
    rows.push(source_row(profile, octets, Fit::Between(before, before + 1)))?;
    rows.push(row!(
        NumberOfActivities,
        at,
        0,
        8,
        Number,
        Word::Data,
        Fit::Between(0, 64)
    ))?;
    put_entries(rows, profile, at + 1, number)?;
    put_status(rows, profile, octets, number)
}

/// Adds the source data of a summary (ECSS-E-ST-70-41C, 8.11.2).
pub(crate) fn put_summary<A: Allocator + Copy>(
    rows: &mut Vec<Row, A>,
    profile: &Profile,
    octets: &[u8],
) -> Result<(), AllocError>
    ensures { OnOk result (rows.new.items ≡ rows.old.items ++ summary_rows profile.now octets.now) }
{
    let number = octet_at(octets, source_at(profile) as usize);
    put_summary_of(rows, profile, octets, number)
}
