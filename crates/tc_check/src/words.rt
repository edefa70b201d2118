//! What does not stand at a place of a text, in words.
ghost use Rattle.std.specs.Prelude.{◌≡◌};
ghost use Rattle.tc_check.specs.Words.{why, why_ack, why_fields, why_header, why_instants, why_outcome, why_rows, why_subtype, why_target, why_target_row, why_time};

use tc_csv::Rule;
use tc_script::Sort;
use tc_types::LoadKind;

/// Why a first record is no header.
fn why_header(kind: LoadKind) -> &'static str
    ensures { result.now ≡ why_header kind }
{
    match kind {
        LoadKind::Stack => "not line,apid,service,subtype,target,time,ack,critical,after,outcome",
        LoadKind::Procedure => "not step,text,second,request",
    }
}

/// Why there are too many rows.
fn why_rows(kind: LoadKind) -> &'static str
    ensures { result.now ≡ why_rows kind }
{
    match kind {
        LoadKind::Stack => "more than 200 lines",
        LoadKind::Procedure => "more than 100 steps",
    }
}

/// Why a row has not the fields of the header.
fn why_fields(kind: LoadKind) -> &'static str
    ensures { result.now ≡ why_fields kind }
{
    match kind {
        LoadKind::Stack => "not 10 fields",
        LoadKind::Procedure => "not 4 fields",
    }
}

fn why_subtype(sort: Sort) -> &'static str
    ensures { result.now ≡ why_subtype sort }
{
    match sort {
        Sort::Other => "not 1 to 255 in plain digits",
        _ => "not 1, 2, 3, 4, 5, 7, 15 or 17, which service 11 has",
    }
}

fn why_target(sort: Sort) -> &'static str
    ensures { result.now ≡ why_target sort }
{
    match sort {
        Sort::Insert => "not 1 to 8 earlier lines, parted by ;",
        Sort::Delete | Sort::Shift => "not an earlier line",
        _ => "not empty",
    }
}

/// Why the times of an insert are not taken; `has_each` says whether they are as many as its targets.
fn why_instants(has_each: bool) -> &'static str
    ensures { result.now ≡ why_instants has_each }
{
    if has_each {
        "not instants of whole seconds from 1970 to 2099 with an offset, such as 2031-05-04T10:00:00Z, parted by ;"
    } else {
        "not as many instants as targets, parted by ;"
    }
}

fn why_time(sort: Sort, has_each: bool) -> &'static str
    ensures { result.now ≡ why_time sort has_each }
{
    match sort {
        Sort::Insert => why_instants(has_each),
        Sort::Shift | Sort::ShiftAll => "not seconds, -4102444799 to 4102444799",
        _ => "not empty",
    }
}

fn why_ack(sort: Sort) -> &'static str
    ensures { result.now ≡ why_ack sort }
{
    match sort {
        Sort::Other => "not aspc, with - for each report that is not wanted",
        _ => "not aspc, with - for each report that is not wanted; service 11 wants c",
    }
}

fn why_outcome(sort: Sort) -> &'static str
    ensures { result.now ≡ why_outcome sort }
{
    match sort {
        Sort::Other => "not an outcome, such as ok or halt/2/17, where a code is 16 to 255",
        _ => "not ok, which service 11 wants",
    }
}

/// Why a command may not name a row that it names.
fn why_target_row(sort: Sort) -> &'static str
    ensures { result.now ≡ why_target_row sort }
{
    match sort {
        Sort::Insert => "a line of service 11, one whose ack has no a, or one that is named twice",
        _ => "a line of service 11",
    }
}

/// Returns why a text of a kind breaks a rule, at a row that commands this; `has_each` says whether the row has as many times as targets.
pub(crate) fn why(kind: LoadKind, sort: Sort, has_each: bool, rule: Rule) -> &'static str
    ensures { result.now ≡ why kind sort has_each rule }
{
    match rule {
        Rule::TextLength => "more than 65536 bytes",
        Rule::RowCount => why_rows(kind),
        Rule::Header => why_header(kind),
        Rule::SomeRow => "missing",
        Rule::FieldCount => why_fields(kind),
        Rule::Line => "not the number of the line",
        Rule::Apid => "not 0 to 2047 in plain digits",
        Rule::Service => "not 1 to 255 in plain digits",
        Rule::Subtype => why_subtype(sort),
        Rule::Target => why_target(sort),
        Rule::Time => why_time(sort, has_each),
        Rule::Ack => why_ack(sort),
        Rule::Critical | Rule::Second => "neither yes nor no",
        Rule::After => "neither empty nor an earlier line",
        Rule::Outcome => why_outcome(sort),
        Rule::TargetRow => why_target_row(sort),
        Rule::StepNumber => "not the number of the step",
        Rule::StepText => "not 1 to 80 printable characters of ASCII",
        Rule::StepRequest => "neither empty nor a number",
    }
}
