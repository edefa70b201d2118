//! A plain reader: what is wrong with records of fields, and whether steps are those that the fields say.
use super::Told;
use super::written::{Fields, at, number_of};
use tc_csv::Rule;
use tc_proc::Step;

/// Whether a field may be the text of a step.
fn is_text(field: &[u8]) -> bool {
    let is_long = field.is_empty() || field.len() > 80;
    !is_long
        && field
            .iter()
            .all(|byte| byte.is_ascii_graphic() || *byte == b' ')
}

/// The first rule that a row breaks.
fn row_rule(row: u32, fields: &Fields) -> Option<Rule> {
    let second = at(fields, 2);
    let request = at(fields, 3);
    if fields.len() != 4 {
        Some(Rule::FieldCount)
    } else if number_of(at(fields, 0)) != Some(row) {
        Some(Rule::StepNumber)
    } else if !is_text(at(fields, 1)) {
        Some(Rule::StepText)
    } else if second != b"yes".as_slice() && second != b"no".as_slice() {
        Some(Rule::Second)
    } else if !request.is_empty() && number_of(request).is_none() {
        Some(Rule::StepRequest)
    } else {
        None
    }
}

/// What is wrong with these rows, under a header that is right or not.
pub fn fault(has_header: bool, rows: &[Fields]) -> Option<Told> {
    if rows.len() > 100 {
        return Some((101, Rule::RowCount));
    }
    if !has_header {
        return Some((0, Rule::Header));
    }
    if rows.is_empty() {
        return Some((1, Rule::SomeRow));
    }
    let mut row = 0_u32;
    for fields in rows {
        row = row.saturating_add(1);
        if let Some(rule) = row_rule(row, fields) {
            return Some((row, rule));
        }
    }
    None
}

/// Whether a step is what a row says.
fn is_step(step: &Step, fields: &Fields) -> bool {
    step.text.as_str().as_bytes() == at(fields, 1)
        && step.is_countersigned == (at(fields, 2) == b"yes".as_slice())
        && step.request == number_of(at(fields, 3))
}

/// Whether steps are what these rows say.
pub fn are_steps(steps: &[Step], rows: &[Fields]) -> bool {
    if steps.len() != rows.len() {
        return false;
    }
    for place in 0..steps.len() {
        if !is_step(&steps[place], &rows[place]) {
            return false;
        }
    }
    true
}
