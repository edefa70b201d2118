//! Random texts of procedures.
use super::Told;
use super::dice::Dice;
use super::plain_procedures::{are_steps, fault};
use super::random_texts::{Kind, see_all};
use super::written::{Fields, Headers, field, number};
use std::alloc::{AllocError, Global};
use std::test::Fail;
use tc_csv::{Fault, read_procedure, why_no_procedure};
use tc_types::Refusal;

/// What stands in the column of requests: good ones, and behind them bad ones.
const REQUESTS: [&[u8]; 9] = [
    b"",
    b"1",
    b"17",
    b"0",
    b"4294967295",
    b"4294967296",
    b"01",
    b"+1",
    b"one",
];

/// What stands in the column of second persons.
const SECONDS: [&[u8]; 5] = [b"yes", b"no", b"YES", b"", b"no "];

/// What stands now and then in place of a step's text.
const BAD_TEXTS: [&[u8]; 5] = [b"", b"a\tb", b"two\r\nlines", b"\xff", b"caf\xc3\xa9"];

/// The text of a step.
fn text(alloc: Global, dice: &mut Dice) -> Option<Vec<u8>> {
    if dice.one_in(80) {
        return field(alloc, dice.pick(&BAD_TEXTS, 5));
    }
    let longest = if dice.one_in(20) { 82 } else { 20 };
    let count = dice.roll(longest).saturating_add(1);
    let mut made = Vec::new(alloc);
    for _ in 0..count {
        let byte = if dice.one_in(8) {
            b'"'
        } else {
            b' '.saturating_add(dice.byte(95))
        };
        made.push(byte).ok()?;
    }
    Some(made)
}

/// Texts of procedures.
struct ProcedureTexts;

impl Kind for ProcedureTexts {
    fn headers(&self) -> Headers {
        Headers {
            right: b"step,text,second,request",
            wrong: b"step,text,request,second",
        }
    }

    fn count(&self, dice: &mut Dice) -> u32 {
        if dice.one_in(40) {
            dice.roll(6).saturating_add(97)
        } else {
            dice.roll(12)
        }
    }

    fn row(&self, alloc: Global, dice: &mut Dice, number_of_row: u32) -> Option<Fields> {
        let mut fields = Vec::new(alloc);
        fields.push(number(alloc, dice, number_of_row)?).ok()?;
        fields.push(text(alloc, dice)?).ok()?;
        fields.push(field(alloc, dice.pick(&SECONDS, 2))?).ok()?;
        if !dice.one_in(100) {
            fields.push(field(alloc, dice.pick(&REQUESTS, 5))?).ok()?;
        }
        if dice.one_in(100) {
            fields.push(field(alloc, b"")?).ok()?;
        }
        Some(fields)
    }

    fn fault(&self, has_header: bool, rows: &[Fields]) -> Option<Told> {
        fault(has_header, rows)
    }

    fn why_not(&self, alloc: Global, text: &[u8]) -> Result<Option<Fault>, AllocError> {
        why_no_procedure(alloc, text)
    }

    fn reads(&self, alloc: Global, text: &[u8], rows: &[Fields]) -> Result<bool, Refusal> {
        let procedure = read_procedure(alloc, text)?;
        Ok(are_steps(procedure.steps(), rows))
    }
}

#[test]
fn random_texts_are_read_as_the_plain_reader_reads_them(rt: HostRuntime) -> Result<(), Fail> {
    let seen = see_all(&ProcedureTexts, rt.alloc(), 7).expect(&rt, "texts that are judged alike");
    assert!(rt; seen.good > 999);
    assert!(rt; seen.bad > 999);
    assert!(rt; seen.long > 9);
    Ok(())
}
