//! Random texts: rows with a field that is wrong now and then, written in the ways in which spreadsheets write them, beside the
//! plain reader, which sees the fields as they were before they were written.
use super::dice::Dice;
use super::written::{Fields, Headers, write_text};
use super::{Told, is_agreed};
use std::alloc::{AllocError, Global};
use tc_csv::{Fault, Rule};
use tc_types::Refusal;

/// How many texts of a kind there are.
const TEXTS: u32 = 5_000;

/// A kind of texts, of which nothing is promised here.
pub trait Kind {
    /// The header, and one in another order.
    fn headers(&self) -> Headers;

    /// How many rows a text has: mostly a few, now and then about as many as there may be.
    fn count(&self, dice: &mut Dice) -> u32;

    /// The fields of the row of this number, mostly as many as the header names.
    fn row(&self, alloc: Global, dice: &mut Dice, number: u32) -> Option<Fields>;

    /// What is wrong with these rows, under a header that is right or not.
    fn fault(&self, has_header: bool, rows: &[Fields]) -> Option<Told>;

    /// What is wrong with a text.
    fn why_not(&self, alloc: Global, text: &[u8]) -> Result<Option<Fault>, AllocError>;

    /// Whether what a text spells has these rows, or how the text is refused.
    fn reads(&self, alloc: Global, text: &[u8], rows: &[Fields]) -> Result<bool, Refusal>;
}

/// The rows of a text.
fn rows<K: Kind>(kind: &K, alloc: Global, dice: &mut Dice) -> Option<Vec<Fields>> {
    let mut made = Vec::new(alloc);
    for index in 0..kind.count(dice) {
        made.push(kind.row(alloc, dice, index.saturating_add(1))?)
            .ok()?;
    }
    Some(made)
}

/// Whether this fault is told of a text, or none, and the text is refused so, or has these rows.
fn is_read<K: Kind>(
    kind: &K,
    alloc: Global,
    text: &[u8],
    told: Option<Told>,
    rows: &[Fields],
) -> bool {
    let (has_rows, refused) = match kind.reads(alloc, text, rows) {
        Ok(has_rows) => (has_rows, None),
        Err(refusal) => (true, Some(refusal)),
    };
    has_rows && is_agreed(kind.why_not(alloc, text), refused, told)
}

/// What was seen of the texts: how many are good, have a bad row, are too long, and have a bad target.
#[derive(Clone, Copy)]
pub struct Seen {
    pub good: u32,
    pub bad: u32,
    pub long: u32,
    pub barred: u32,
}

/// What is seen of one text more; none where it is judged otherwise than by the plain reader.
fn see<K: Kind>(kind: &K, alloc: Global, dice: &mut Dice, seen: Seen) -> Option<Seen> {
    let rows = rows(kind, alloc, dice)?;
    let mut text = Vec::new(alloc);
    let has_header = write_text(dice, &kind.headers(), rows.as_slice(), &mut text)?;
    let told = kind.fault(has_header, rows.as_slice());
    if !is_read(kind, alloc, text.as_slice(), told, rows.as_slice()) {
        return None;
    }
    let mut next = seen;
    match told {
        None => next.good = seen.good.saturating_add(1),
        Some((_, Rule::RowCount)) => next.long = seen.long.saturating_add(1),
        Some((_, Rule::TargetRow)) => next.barred = seen.barred.saturating_add(1),
        Some(_) => next.bad = seen.bad.saturating_add(1),
    }
    Some(next)
}

/// What is seen of all texts of a kind, drawn from this seed.
pub fn see_all<K: Kind>(kind: &K, alloc: Global, seed: u64) -> Option<Seen> {
    let mut dice = Dice::new(seed);
    let mut seen = Seen {
        good: 0,
        bad: 0,
        long: 0,
        barred: 0,
    };
    for _ in 0..TEXTS {
        seen = see(kind, alloc, &mut dice, seen)?;
    }
    Some(seen)
}
