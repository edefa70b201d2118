//! Random texts of stacks.
use super::Told;
use super::dice::Dice;
use super::plain_stacks::{INSTANTS, OUTCOMES, are_rows, fault};
use super::random_texts::{Kind, see_all};
use super::written::{Fields, Headers, field, number};
use std::alloc::{AllocError, Global};
use std::test::Fail;
use tc_csv::{Fault, read_stack, why_no_stack};
use tc_lines::read::readers::is;
use tc_types::Refusal;

/// Application processes: good ones, and behind them bad ones.
const APIDS: [&[u8]; 6] = [b"5", b"0", b"2047", b"2048", b"", b"+5"];

/// Services of plain commands, likewise.
const SERVICES: [&[u8]; 6] = [b"8", b"1", b"255", b"0", b"256", b"08"];

/// Subtypes of schedule commands, likewise.
const SUBTYPES: [&[u8]; 11] = [
    b"4", b"5", b"7", b"15", b"1", b"2", b"3", b"17", b"6", b"0", b"",
];

/// Seconds of shifts, likewise.
const OFFSETS: [&[u8]; 7] = [
    b"60",
    b"-60",
    b"0",
    b"4102444799",
    b"-0",
    b"4102444800",
    b"1.5",
];

/// The reports that are asked for, likewise.
const ACKS: [&[u8]; 6] = [b"a--c", b"aspc", b"---c", b"----", b"c---", b"a--c "];

/// Whether two persons are wanted, likewise.
const CRITICALS: [&[u8]; 4] = [b"yes", b"no", b"", b"y"];

/// The number of a line: mostly one before this one, now and then any, or nothing.
fn line_field(alloc: Global, dice: &mut Dice, line: u32) -> Option<Vec<u8>> {
    if dice.one_in(200) {
        return field(alloc, b"");
    }
    let said = if dice.one_in(200) {
        dice.roll(20)
    } else {
        dice.roll(line.saturating_sub(1)).saturating_add(1)
    };
    number(alloc, dice, said)
}

/// The four fields of a plain command.
fn plain(alloc: Global, dice: &mut Dice, fields: &mut Fields) -> Option<()> {
    fields.push(field(alloc, dice.pick(&SERVICES, 3))?).ok()?;
    fields.push(field(alloc, dice.pick(&SERVICES, 3))?).ok()?;
    fields.push(field(alloc, dice.pick(&[b"", b"1"], 1))?).ok()?;
    fields.push(field(alloc, dice.pick(&[b"", b"60"], 1))?).ok()
}

/// An instant: mostly a good one.
fn instant(dice: &mut Dice) -> &'static [u8] {
    let most = if dice.one_in(60) { 9 } else { 5 };
    match INSTANTS.get(dice.roll(most) as usize) {
        Some(known) => known.0,
        None => b"",
    }
}

/// One word more of a list.
fn append(dice: &mut Dice, list: &mut Vec<u8>, word: &[u8]) -> Option<()> {
    if !list.is_empty() {
        list.push(b';').ok()?;
    }
    if dice.one_in(400) {
        list.push(b' ').ok()?;
    }
    list.extend_from_slice(word).ok()
}

/// So many lines as a list.
fn line_list(alloc: Global, dice: &mut Dice, line: u32, count: u32) -> Option<Vec<u8>> {
    let mut list = Vec::new(alloc);
    for _ in 0..count {
        let word = line_field(alloc, dice, line)?;
        append(dice, &mut list, word.as_slice())?;
    }
    Some(list)
}

/// So many instants as a list.
fn instant_list(alloc: Global, dice: &mut Dice, count: u32) -> Option<Vec<u8>> {
    let mut list = Vec::new(alloc);
    for _ in 0..count {
        let word = instant(dice);
        append(dice, &mut list, word)?;
    }
    Some(list)
}

/// How many activities an insert has: mostly one or a few, now and then about as many as it may have.
fn ride_count(dice: &mut Dice) -> u32 {
    if dice.one_in(20) {
        dice.roll(3).saturating_add(7)
    } else if dice.one_in(3) {
        dice.roll(3).saturating_add(1)
    } else {
        1
    }
}

/// The target and the time of an insert: mostly as many instants as lines.
fn rides(alloc: Global, dice: &mut Dice, line: u32, fields: &mut Fields) -> Option<()> {
    let count = ride_count(dice);
    let times = if dice.one_in(60) {
        ride_count(dice)
    } else {
        count
    };
    fields.push(line_list(alloc, dice, line, count)?).ok()?;
    fields.push(instant_list(alloc, dice, times)?).ok()
}

/// The target and the time of another schedule command.
fn one_target(
    alloc: Global,
    dice: &mut Dice,
    line: u32,
    subtype: &[u8],
    fields: &mut Fields,
) -> Option<()> {
    let is_shift = is(subtype, b"7") || is(subtype, b"15");
    let time = if is_shift {
        dice.pick(&OFFSETS, 4)
    } else {
        b""
    };
    if is(subtype, b"5") || is(subtype, b"7") {
        fields.push(line_field(alloc, dice, line)?).ok()?;
    } else {
        fields.push(field(alloc, b"")?).ok()?;
    }
    fields.push(field(alloc, time)?).ok()
}

/// The four fields of a schedule command.
fn scheduling(alloc: Global, dice: &mut Dice, line: u32, fields: &mut Fields) -> Option<()> {
    let subtype = dice.pick(&SUBTYPES, if line == 1 { 0 } else { 8 });
    fields.push(field(alloc, b"11")?).ok()?;
    fields.push(field(alloc, subtype)?).ok()?;
    if is(subtype, b"4") {
        rides(alloc, dice, line, fields)
    } else {
        one_target(alloc, dice, line, subtype, fields)
    }
}

/// Texts of stacks.
struct StackTexts;

impl Kind for StackTexts {
    fn headers(&self) -> Headers {
        Headers {
            right: b"line,apid,service,subtype,target,time,ack,critical,after,outcome",
            wrong: b"line,apid,service,subtype,time,target,ack,critical,after,outcome",
        }
    }

    fn count(&self, dice: &mut Dice) -> u32 {
        if dice.one_in(100) {
            dice.roll(6).saturating_add(197)
        } else {
            dice.roll(8)
        }
    }

    fn row(&self, alloc: Global, dice: &mut Dice, line: u32) -> Option<Fields> {
        let mut fields = Vec::new(alloc);
        fields.push(number(alloc, dice, line)?).ok()?;
        fields.push(field(alloc, dice.pick(&APIDS, 3))?).ok()?;
        let is_plain = line == 1 || !dice.one_in(4);
        if is_plain {
            plain(alloc, dice, &mut fields)?;
        } else {
            scheduling(alloc, dice, line, &mut fields)?;
        }
        fields.push(field(alloc, dice.pick(&ACKS, 3))?).ok()?;
        fields.push(field(alloc, dice.pick(&CRITICALS, 2))?).ok()?;
        if line > 1 && dice.one_in(3) {
            fields.push(line_field(alloc, dice, line)?).ok()?;
        } else {
            fields.push(field(alloc, b"")?).ok()?;
        }
        let outcomes = if is_plain { 4 } else { 1 };
        fields
            .push(field(alloc, dice.pick(&OUTCOMES, outcomes))?)
            .ok()?;
        if dice.one_in(300) {
            fields.push(field(alloc, b"")?).ok()?;
        }
        Some(fields)
    }

    fn fault(&self, has_header: bool, rows: &[Fields]) -> Option<Told> {
        fault(has_header, rows)
    }

    fn why_not(&self, alloc: Global, text: &[u8]) -> Result<Option<Fault>, AllocError> {
        why_no_stack(alloc, text)
    }

    fn reads(&self, alloc: Global, text: &[u8], rows: &[Fields]) -> Result<bool, Refusal> {
        let stack = read_stack(alloc, text)?;
        Ok(are_rows(stack.rows(), rows))
    }
}

#[test]
fn random_stacks_are_read_as_the_plain_reader_reads_them(rt: HostRuntime) -> Result<(), Fail> {
    let seen = see_all(&StackTexts, rt.alloc(), 8).expect(&rt, "texts that are judged alike");
    assert!(rt; seen.good > 999);
    assert!(rt; seen.bad > 499);
    assert!(rt; seen.long > 9);
    assert!(rt; seen.barred > 99);
    Ok(())
}
