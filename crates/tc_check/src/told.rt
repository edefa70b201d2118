//! A fault of a text, as a line.
ghost use Rattle.std.specs.Prelude.{◌≡◌, [], IfOk, get_or, map};
ghost use Rattle.std.specs.String.{string_bytes};
ghost use Rattle.csv.specs.Records.{fields_of};
ghost use Rattle.tc_csv.specs.Tables.{records_of};
ghost use Rattle.tc_check.specs.FileLines.{ends_quoted, record_lines};
ghost use Rattle.tc_check.specs.Told.{fault_line, has_open_quote, open_quote, why_row};

use crate::file_lines::{ends_quoted, record_lines};
use crate::found::found;
use crate::places::{in_field, place};
use crate::records::{has_time_each_at, sort_at};
use crate::words::why;
use csv::ByteRecord;
use std::alloc::{AllocError, Global};
use tc_csv::{Fault, Rule, read_records};
use tc_types::LoadKind;

/// A text, with its records and the lines of the file at which they begin.
#[derive(Drop)]
pub(crate) struct Sheet<'a> {
    /// What it should hold.
    pub(crate) kind: LoadKind,
    /// Its bytes.
    pub(crate) text: &'a [u8],
    /// Its records.
    pub(crate) records: Vec<ByteRecord>,
    /// Where they begin.
    pub(crate) lines: Vec<usize>,
    /// Whether a quote stays open to the end of the text.
    is_open: bool,
    ghost read: { map fields_of records.items ≡ records_of text.now },
    ghost placed: { lines.items ≡ record_lines text.now },
    ghost quoted: { is_open ≡ ends_quoted text.now },
}

/// What is told of a quote that stays open.
fn open_quote(is_open: bool) -> &'static str
    ensures { result.now ≡ open_quote is_open }
{
    if is_open {
        ", and a quote stays open to the end of the file"
    } else {
        ""
    }
}

/// Returns why the record at a place breaks a rule.
fn why_at(kind: LoadKind, records: &[ByteRecord], place: u32, rule: Rule) -> &'static str
    ensures { result.now ≡ why_row kind (get_or (map fields_of records.now) place []) rule }
{
    why(
        kind,
        sort_at(records, place),
        has_time_each_at(records, place),
        rule,
    )
}

impl<'a> Sheet<'a> {
    /// This text.
    pub(crate) fn of(alloc: Global, kind: LoadKind, text: &'a [u8]) -> Result<Sheet<'a>, AllocError>
        ensures { IfOk result (λ sheet. (sheet.kind ≡ kind) × (sheet.text.now ≡ text.now)) }
    {
        let Some(records) = read_records(alloc, text) else {
            return Err(AllocError);
        };
        let lines = record_lines(alloc, text)?;
        Ok(Sheet {
            kind,
            text,
            records,
            lines,
            is_open: ends_quoted(text),
        })
    }

    /// Whether a quote stays open to the end of the text, and this row is the last.
    fn has_open_quote(&self, row: u32) -> bool
        ensures { result ≡ has_open_quote self.now.text.now row }
    {
        self.is_open && row as usize + 1 == self.records.len()
    }

    /// Where it is wrong, why, and what was found there; and whether a quote of its row stays open.
    pub(crate) fn fault_line(&self, alloc: Global, fault: Fault) -> Result<String, AllocError>
        ensures { IfOk result (λ line. string_bytes line ≡ fault_line self.now.kind self.now.text.now fault) }
    {
        let mut line = place(alloc, self.kind, &self.lines, fault)?;
        line.push_str(in_field(alloc, fault.rule.column())?.as_str())?;
        line.push_str(": ")?;
        line.push_str(why_at(self.kind, &self.records, fault.row, fault.rule))?;
        line.push_str(found(alloc, self.kind, self.text, &self.records, fault)?.as_str())?;
        line.push_str(open_quote(self.has_open_quote(fault.row)))?;
        Ok(line)
    }
}
