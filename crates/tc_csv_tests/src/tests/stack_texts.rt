//! Texts of stacks as people and spreadsheets write them, good ones and bad ones.
use super::stack_rows::CASES;
use super::{Told, is_agreed};
use std::alloc::Global;
use std::test::Fail;
use tc_csv::{Rule, read_stack, why_no_stack};
use tc_stack::Stack;
use tc_types::{Command, Ride};

/// The stack that a text spells, if it spells one.
fn stack(alloc: Global, text: &[u8]) -> Option<Stack> {
    read_stack(alloc, text).ok()
}

/// Whether a text has this fault, or none, and is refused so.
fn is_judged(alloc: Global, text: &[u8], told: Option<Told>) -> bool {
    let refused = read_stack(alloc, text).err();
    is_agreed(why_no_stack(alloc, text), refused, told)
}

/// The header.
const HEADER: &[u8] = b"line,apid,service,subtype,target,time,ack,critical,after,outcome\n";

/// The header with these rows behind it; none where memory was refused.
fn text(alloc: Global, rows: &[u8]) -> Option<Vec<u8>> {
    let mut made = Vec::new(alloc);
    made.extend_from_slice(HEADER).ok()?;
    made.extend_from_slice(rows).ok()?;
    Some(made)
}

/// How many of the texts are judged as is written beside their rows.
fn judged(alloc: Global) -> usize {
    let mut count = 0_usize;
    for case in &CASES {
        let is_right = match text(alloc, case.rows) {
            Some(text) => is_judged(alloc, text.as_slice(), case.told),
            None => false,
        };
        if is_right {
            count = count.saturating_add(1);
        }
    }
    count
}

#[test]
fn each_row_is_judged(rt: HostRuntime) -> Result<(), Fail> {
    assert!(rt; judged(rt.alloc()) == CASES.len());
    Ok(())
}

/// Texts with another beginning or end, and what is wrong with them.
const TEXTS: [(&[u8], Option<Told>); 9] = [
    (b"", Some((0, Rule::Header))),
    (
        b"line,apid,service,subtype,target,time,ack,critical,after,outcome",
        Some((1, Rule::SomeRow)),
    ),
    (
        b"line,apid,service,subtype,target,time,ack,critical,after,outcome\r\n\r\n",
        Some((1, Rule::SomeRow)),
    ),
    (
        b"line,apid,service,subtype,time,target,ack,critical,after,outcome\n1,5,8,1,,,---c,no,,ok\n",
        Some((0, Rule::Header)),
    ),
    (
        b"line,apid,service,subtype,target,time,ack,critical,after\n1,5,8,1,,,---c,no,\n",
        Some((0, Rule::Header)),
    ),
    (
        b"\xef\xbb\xbf\xef\xbb\xbfline,apid,service,subtype,target,time,ack,critical,after,outcome\n1,5,8,1,,,---c,no,,ok\n",
        Some((0, Rule::Header)),
    ),
    (
        b"\xef\xbb\xbfline,apid,service,subtype,target,time,ack,critical,after,outcome\r\n1,5,8,1,,,---c,no,,ok\r\n2,5,8,2,,,---c,no,1,ok\r\n",
        None,
    ),
    (
        b"\n\"line\",apid,service,subtype,target,time,ack,critical,after,outcome\n\n\"1\",5,8,1,,,---c,no,,\"ok\"",
        None,
    ),
    (
        b"line;apid;service;subtype;target;time;ack;critical;after;outcome\n1;5;8;1;;;---c;no;;ok\n",
        Some((0, Rule::Header)),
    ),
];

/// How many of these are judged so.
fn judged_whole(alloc: Global) -> usize {
    let mut count = 0_usize;
    for case in &TEXTS {
        if is_judged(alloc, case.0, case.1) {
            count = count.saturating_add(1);
        }
    }
    count
}

#[test]
fn each_text_of_a_stack_is_judged(rt: HostRuntime) -> Result<(), Fail> {
    assert!(rt; judged_whole(rt.alloc()) == TEXTS.len());
    Ok(())
}

/// Whether the two rows of the first case are read as what they say.
fn reads_the_two(alloc: Global) -> bool {
    let Some(text) = text(alloc, CASES[0].rows) else {
        return false;
    };
    let Some(read) = stack(alloc, text.as_slice()) else {
        return false;
    };
    match read.rows() {
        [first, second] => {
            let is_plain = matches!(second.entry.command(), Command::Plain { .. });
            is_plain && first.after.is_none() && second.after == Some(1)
        }
        _ => false,
    }
}

/// Whether the last row of a text is read as an insert of these lines, each at its second.
fn reads_the_insert(alloc: Global, rows: &[u8], rides: &[(u32, u32)]) -> bool {
    let Some(text) = text(alloc, rows) else {
        return false;
    };
    let Some(read) = stack(alloc, text.as_slice()) else {
        return false;
    };
    match read.rows().last() {
        Some(row) => match row.entry.command() {
            Command::InsertActivities(read) => are_rides(read.as_slice(), rides),
            _ => false,
        },
        None => false,
    }
}

/// Whether activities are these: a line and a second each.
fn are_rides(read: &[Ride], rides: &[(u32, u32)]) -> bool {
    if read.len() != rides.len() {
        return false;
    }
    for place in 0..read.len() {
        if (read[place].target, read[place].time.get()) != rides[place] {
            return false;
        }
    }
    true
}

#[test]
fn two_rows_are_read(rt: HostRuntime) -> Result<(), Fail> {
    assert!(rt; reads_the_two(rt.alloc()));
    let one = b"1,5,8,1,,,a--c,no,,ok\n2,5,11,4,1,2031-05-04T12:00:00+02:00,---c,no,,ok\n";
    assert!(rt; reads_the_insert(rt.alloc(), one, &[(1, 1_935_655_200)]));
    Ok(())
}

#[test]
fn a_list_is_read_in_its_order(rt: HostRuntime) -> Result<(), Fail> {
    let rows =
        b"1,5,8,1,,,a--c,no,,ok\n2,5,8,1,,,a--c,no,,ok\n3,5,11,4,2;1,1970-01-01T01:21:00+01:00;1970-01-01T00:20:00Z,---c,no,,ok\n";
    assert!(rt; reads_the_insert(rt.alloc(), rows, &[(2, 1260), (1, 1200)]));
    Ok(())
}

/// A text with so many rows, all alike but for their numbers.
fn rows_text(alloc: Global, count: u32) -> Option<Vec<u8>> {
    let mut made = text(alloc, b"")?;
    for line in 1..=count {
        let row = format!(in alloc; "{line},5,8,1,,,---c,no,,ok\n").ok()?;
        made.extend_from_slice(row.as_bytes()).ok()?;
    }
    Some(made)
}

#[test]
fn a_stack_has_200_rows_at_most(rt: HostRuntime) -> Result<(), Fail> {
    let most = rows_text(rt.alloc(), 200).expect(&rt, "a text");
    assert!(rt; is_judged(rt.alloc(), most.as_slice(), None));
    let more = rows_text(rt.alloc(), 201).expect(&rt, "a text");
    assert!(rt; is_judged(rt.alloc(), more.as_slice(), Some((201, Rule::RowCount))));
    Ok(())
}
