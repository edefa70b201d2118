//! A script, checked line by line.
ghost use Rattle.std.specs.Prelude.{◌≡◌, ◌++◌, ◌∷◌, [], ℕ, List, Option, IfOk, OnOk, codes, option_map, option_to_list};
ghost use Rattle.std.specs.Option.{option_copied};
ghost use Rattle.std.specs.String.{string_bytes};
ghost use Rattle.tc_check.specs.Findings.{Shows};
ghost use Rattle.tc_check.specs.LineTexts.{word_place};
ghost use Rattle.tc_types.specs.Verbs.{verb_in};
ghost use Rattle.tc_check.specs.Scripts.{back_line, back_lines_from, back_text, counts, goes_back, is_before, is_question, latest_with, ok_text, SaysOfFile, SaysOfLine, SaysOfLines, SaysOfScript, SaysSeen, is_skipped, script_lines};
ghost use Rattle.tc_check.specs.Shown.{quoted};
ghost use Rattle.tc_check.specs.Sources.{Gives, Seen, seen_at};

use crate::checks::{Checked, check_text};
use crate::findings::Findings;
use crate::line_texts::{fault_text, line_place, names_twice, twice_text, word_of, word_place};
use crate::shown::{push_bytes, quoted};
use crate::sources::Texts;
use bstr::ByteSlice;
use std::alloc::{AllocError, Global};
use std::cmp::Ordering;
use tc_lines::read::load_reader::read_load;
use tc_script::line_fault;
use tc_types::{Load, LoadKind, Verb};

/// Whether a line is empty or begins with `#`.
pub fn is_skipped(line: &[u8]) -> bool
    ensures { result ≡ is_skipped line.now }
{
    match line {
        [] => true,
        [first, ..] => *first == b'#',
    }
}

/// What is told of a line of a script by its number, from 1, without its line end: which word is wrong, and what would be taken there. Nothing where
/// the line is skipped, or where a run takes it and it names no request twice.
pub fn script_line(alloc: Global, number: usize, line: &[u8]) -> Result<Option<String>, AllocError>
    ensures { IfOk result (λ told. SaysOfLine number line.now (option_map string_bytes told)) }
{
    if is_skipped(line) {
        return Ok(None);
    }
    match line_fault(line) {
        Some(fault) => Ok(Some(fault_text(alloc, number, line, fault)?)),
        None if names_twice(line) => Ok(Some(twice_text(alloc, number, line)?)),
        None => Ok(None),
    }
}

/// What is told of a file that is not there.
fn unread_text(alloc: Global, number: usize, path: &str) -> Result<String, AllocError>
    ensures { IfOk result (λ told. string_bytes told ≡ word_place number 5 ++ codes "no file that can be read: " ++ quoted path.now) }
{
    let mut text = word_place(alloc, number, 5)?;
    text.push_str("no file that can be read: ")?;
    text.push_str(quoted(alloc, path.as_bytes())?.as_str())?;
    Ok(text)
}

/// What is told of a file that is wrong, of which this is the first line.
fn wrong_text(alloc: Global, number: usize, path: &str, first: &str) -> Result<String, AllocError>
    ensures { IfOk result (λ told. string_bytes told ≡ word_place number 5 ++ path.now ++ codes ": " ++ first.now) }
{
    let mut text = word_place(alloc, number, 5)?;
    text.push_str(path)?;
    text.push_str(": ")?;
    text.push_str(first)?;
    Ok(text)
}

/// What is told of a line by its number that loads the file at a path, which has this text, or none that can be read. Nothing where nothing is
/// wrong with the text.
pub fn load_line(
    alloc: Global,
    number: usize,
    kind: LoadKind,
    path: &str,
    text: Option<&[u8]>,
) -> Result<Option<String>, AllocError>
    ensures { IfOk result (λ told. SaysOfFile number kind path.now (option_copied text.entry) (option_map string_bytes told)) }
{
    let Some(text) = text else {
        return Ok(Some(unread_text(alloc, number, path)?));
    };
    let checked = check_text(alloc, kind, text)?;
    if checked.is_ok {
        return Ok(None);
    }
    Ok(Some(wrong_text(alloc, number, path, checked.first.as_str())?))
}

/// What is told of the file that a line by its number loads.
fn file_told<T: Texts>(
    alloc: Global,
    number: usize,
    load: &Load<'_>,
    texts: &mut T,
) -> Result<Option<String>, AllocError>
    ensures { IfOk result (λ told. (text : Option (List ℕ)) × Gives (T.seen texts.old) (T.seen texts.new) (seen_at load.now.path.now text ∷ [])
        × SaysOfFile number load.now.kind load.now.path.now text (option_map string_bytes told)) }
{
    match texts.text(alloc, load.path)? {
        Some(text) => load_line(alloc, number, load.kind, load.path, Some(text.as_slice())),
        None => load_line(alloc, number, load.kind, load.path, None),
    }
}

/// What is told of a line by its number, and of the file that it loads.
fn whole_told<T: Texts>(
    alloc: Global,
    number: usize,
    line: &[u8],
    texts: &mut T,
) -> Result<Option<String>, AllocError>
    ensures { IfOk result (λ told. SaysSeen number line.now (T.seen texts.old) (T.seen texts.new) (option_map string_bytes told)) }
{
    if let Some(wrong) = script_line(alloc, number, line)? {
        return Ok(Some(wrong));
    }
    match read_load(line) {
        Ok(load) => file_told(alloc, number, &load, texts),
        Err(_) => Ok(None),
    }
}

/// Adds what is told, if anything is.
fn add_told(told: Option<String>, findings: &mut Findings) -> Result<(), AllocError>
    ensures { (lines : List (List ℕ)) → Shows lines findings.old → OnOk result (Shows (lines ++ option_to_list (option_map string_bytes told)) findings.new) }
{
    match told {
        Some(told) => findings.add(told.as_str()),
        None => Ok(()),
    }
}

/// What is told of lines, and of the files that they load.
fn lines_told<T: Texts>(alloc: Global, text: &[u8], texts: &mut T) -> Result<Findings, AllocError>
    ensures { IfOk result (λ findings. (files : List Seen) × (lines : List (List ℕ)) × SaysOfLines 1 (script_lines text.now) files lines
        × Gives (T.seen texts.old) (T.seen texts.new) files × Shows lines findings) }
{
    let mut findings = Findings::new(alloc);
    let mut number = 1;
    for line in text.lines() {
        let told = whole_told(alloc, number, line, texts)?;
        add_told(told, &mut findings)?;
        number += 1;
    }
    Ok(findings)
}

/// Whether a number in plain digits is less than another.
fn is_before(first: &[u8], second: &[u8]) -> bool
    ensures { result ≡ is_before first.now second.now }
{
    first.len() < second.len()
        || first.len() == second.len() && matches!(first.cmp(second), Ordering::Less)
}

/// Whether a word begins a question, which moves nothing.
fn is_question(word: &[u8]) -> bool
    ensures { result ≡ is_question (verb_in word.now) }
{
    matches!(
        Verb::read(word),
        Some(
            Verb::Places
                | Verb::History
                | Verb::Request
                | Verb::Link
                | Verb::Schedule
                | Verb::Log
                | Verb::Report
                | Verb::Waiting
                | Verb::Urgent
                | Verb::Moves
                | Verb::Standing
                | Verb::Steps
        )
    )
}

/// Whether the moment of a line counts: a run works it, and it is no question.
fn counts(line: &[u8]) -> bool
    ensures { result ≡ counts line.now }
{
    !is_skipped(line) && !is_question(word_of(line, 3))
}

/// Returns the latest moment up to a line, in plain digits, by the latest before it.
fn latest_with<'a>(latest: &'a [u8], line: &'a [u8]) -> &'a [u8]
    ensures { result.now ≡ latest_with latest.now line.now }
{
    let moment = word_of(line, 1);
    if counts(line) && is_before(latest, moment) {
        moment
    } else {
        latest
    }
}

/// Whether a line lies before a moment.
fn goes_back(latest: &[u8], line: &[u8]) -> bool
    ensures { result ≡ goes_back latest.now line.now }
{
    counts(line) && is_before(word_of(line, 1), latest)
}

/// What is told of a line that lies before one above it.
fn back_text(alloc: Global, number: usize, latest: &[u8], line: &[u8]) -> Result<String, AllocError>
    ensures { IfOk result (λ text. string_bytes text ≡ back_text number latest.now line.now) }
{
    let mut text = line_place(alloc, number)?;
    text.push_str(": at ")?;
    push_bytes(&mut text, word_of(line, 1))?;
    text.push_str(", before a line at ")?;
    push_bytes(&mut text, latest)?;
    Ok(text)
}

/// Adds what is told of a line, if it lies before one above it.
fn add_back(
    alloc: Global,
    number: usize,
    latest: &[u8],
    line: &[u8],
    findings: &mut Findings,
) -> Result<(), AllocError>
    ensures { (lines : List (List ℕ)) → Shows lines findings.old → OnOk result (Shows (lines ++ back_line number latest.now line.now) findings.new) }
{
    if !goes_back(latest, line) {
        return Ok(());
    }
    let text = back_text(alloc, number, latest, line)?;
    findings.add(text.as_str())
}

/// What is told of lines that lie before one above them.
fn back_lines(alloc: Global, text: &[u8]) -> Result<Findings, AllocError>
    ensures { IfOk result (Shows (back_lines_from 1 [] (script_lines text.now))) }
{
    let mut findings = Findings::new(alloc);
    let mut latest: &[u8] = &[];
    let mut number = 1;
    for line in text.lines() {
        add_back(alloc, number, latest, line, &mut findings)?;
        latest = latest_with(latest, line);
        number += 1;
    }
    Ok(findings)
}

/// What is said of a script with which nothing is wrong.
fn ok_text(alloc: Global, text: &[u8]) -> Result<String, AllocError>
    ensures { IfOk result (λ told. string_bytes told ≡ ok_text (script_lines text.now)) }
{
    let (_, lines) = back_lines(alloc, text)?.into_texts();
    let mut told = String::from_str(alloc, "ok\n")?;
    told.push_str(lines.as_str())?;
    Ok(told)
}

/// Checks a script, and each file that a line of it loads: `ok` and each line that lies before one above it in time, or what is wrong with each line that is none, or whose file is none, in a line each. A file is looked for
/// where this source has it, and each as often as lines load it.
pub fn check_script<T: Texts>(
    alloc: Global,
    text: &[u8],
    texts: &mut T,
) -> Result<Checked, AllocError>
    ensures { IfOk result (λ checked. SaysOfScript text.now (T.seen texts.old) (T.seen texts.new) (string_bytes checked.text) checked.is_ok) }
{
    let findings = lines_told(alloc, text, texts)?;
    let is_ok = findings.is_empty();
    let (first, told) = findings.into_texts();
    let text = if is_ok { ok_text(alloc, text)? } else { told };
    Ok(Checked { text, first, is_ok })
}
