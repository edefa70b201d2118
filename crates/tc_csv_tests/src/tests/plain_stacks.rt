//! A plain reader of stacks: what is wrong with records of fields, and whether rows are those that the fields say. Which texts are
//! instants it knows from a list.
use super::Told;
use super::written::{Fields, at, number_of};
use tc_csv::Rule;
use tc_stack::StackRow;
use tc_types::{Command, Ride};

/// Texts that stand in the column of times, and the second that each says, if it says a whole one that the desk knows.
pub const INSTANTS: [(&[u8], Option<u32>); 9] = [
    (b"2031-05-04T10:00:00Z", Some(1_935_655_200)),
    (b"2031-05-04T12:00:00+02:00", Some(1_935_655_200)),
    (b"1970-01-01T00:00:00Z", Some(0)),
    (b"2099-12-31T23:59:59.00Z", Some(4_102_444_799)),
    (b"2028-02-29T23:59:59Z", Some(1_835_481_599)),
    (b"2100-01-01T00:00:00Z", None),
    (b"2031-05-04T10:00:00.5Z", None),
    (b"2031-02-29T10:00:00Z", None),
    (b"2031-05-04", None),
];

/// The second that a field says, if it says one.
fn instant(field: &[u8]) -> Option<u32> {
    for known in &INSTANTS {
        if known.0 == field {
            return known.1;
        }
    }
    None
}

/// The seconds that a field says, if it says some that a shift may have.
fn seconds(field: &[u8]) -> Option<i64> {
    let (is_back, digits) = match field.split_first() {
        Some((b'-', digits)) => (true, digits),
        _ => (false, field),
    };
    let count = number_of(digits)?;
    if count > 4_102_444_799 || (is_back && count == 0) {
        return None;
    }
    let ahead = i64::from(count);
    Some(if is_back {
        0_i64.saturating_sub(ahead)
    } else {
        ahead
    })
}

/// Whether a field is a number from `least` to `most`.
fn is_within(field: &[u8], least: u32, most: u32) -> bool {
    match number_of(field) {
        Some(number) => number >= least && number <= most,
        None => false,
    }
}

/// Whether a row's command is of service 11 and of this subtype.
fn is_schedule(fields: &Fields, subtype: &[u8]) -> bool {
    at(fields, 2) == b"11".as_slice() && at(fields, 3) == subtype
}

/// Whether a row's command names a line.
fn names_a_line(fields: &Fields) -> bool {
    is_schedule(fields, b"4") || is_schedule(fields, b"5") || is_schedule(fields, b"7")
}

/// Whether a field is one of these.
fn is_among(field: &[u8], words: &[&[u8]]) -> bool {
    words.iter().any(|word| *word == field)
}

/// How many words a field has, which semicolons part.
fn word_count(field: &[u8]) -> usize {
    field
        .iter()
        .filter(|byte| **byte == b';')
        .count()
        .saturating_add(1)
}

/// The word of a field at a place, empty where it has none there.
fn word(field: &[u8], place: usize) -> &[u8] {
    field.split(|byte| *byte == b';').nth(place).unwrap_or(b"")
}

/// Whether a field is 1 to 8 lines before this one.
fn are_lines(line: u32, field: &[u8]) -> bool {
    for place in 0..word_count(field) {
        if !is_within(word(field, place), 1, line.saturating_sub(1)) {
            return false;
        }
    }
    word_count(field) <= 8
}

/// Whether a field is an instant for each word of another.
fn are_instants(target: &[u8], field: &[u8]) -> bool {
    for place in 0..word_count(field) {
        if instant(word(field, place)).is_none() {
            return false;
        }
    }
    word_count(field) == word_count(target)
}

/// Whether the target of a row is one that its command may have.
fn is_target(line: u32, fields: &Fields) -> bool {
    let target = at(fields, 4);
    if is_schedule(fields, b"4") {
        are_lines(line, target)
    } else if names_a_line(fields) {
        is_within(target, 1, line.saturating_sub(1))
    } else {
        target.is_empty()
    }
}

/// Whether the time of a row is one that its command may have.
fn is_time(fields: &Fields) -> bool {
    let time = at(fields, 5);
    if is_schedule(fields, b"4") {
        are_instants(at(fields, 4), time)
    } else if is_schedule(fields, b"7") || is_schedule(fields, b"15") {
        seconds(time).is_some()
    } else {
        time.is_empty()
    }
}

/// The first rule of service, subtype, target and time that a row breaks.
fn command_rule(line: u32, fields: &Fields) -> Option<Rule> {
    let scheduled: [&[u8]; 8] = [b"1", b"2", b"3", b"4", b"5", b"7", b"15", b"17"];
    let subtype = at(fields, 3);
    let is_eleven = at(fields, 2) == b"11".as_slice();
    if !is_within(at(fields, 2), 1, 255) {
        Some(Rule::Service)
    } else if !is_within(subtype, 1, 255) || (is_eleven && !is_among(subtype, &scheduled)) {
        Some(Rule::Subtype)
    } else if !is_target(line, fields) {
        Some(Rule::Target)
    } else if !is_time(fields) {
        Some(Rule::Time)
    } else {
        None
    }
}

/// Whether a field is four flags, with the last one set where it has to be.
fn is_ack(field: &[u8], wants_completion: bool) -> bool {
    match field {
        [acceptance, start, progress, completion] => {
            let is_spelled = (*acceptance == b'a' || *acceptance == b'-')
                && (*start == b's' || *start == b'-')
                && (*progress == b'p' || *progress == b'-');
            let is_last = *completion == b'c' || (*completion == b'-' && !wants_completion);
            is_spelled && is_last
        }
        _ => false,
    }
}

/// The outcomes that the random texts have.
pub const OUTCOMES: [&[u8]; 8] = [
    b"ok",
    b"ok/9",
    b"refuse/16",
    b"halt/1/255",
    b"OK",
    b"ok/0",
    b"fail/15",
    b"",
];

/// The first rule that a row breaks.
fn row_rule(line: u32, fields: &Fields) -> Option<Rule> {
    let is_eleven = at(fields, 2) == b"11".as_slice();
    let after = at(fields, 8);
    if fields.len() != 10 {
        return Some(Rule::FieldCount);
    }
    if number_of(at(fields, 0)) != Some(line) {
        return Some(Rule::Line);
    }
    if !is_within(at(fields, 1), 0, 2047) {
        return Some(Rule::Apid);
    }
    if let Some(rule) = command_rule(line, fields) {
        return Some(rule);
    }
    if !is_ack(at(fields, 6), is_eleven) {
        Some(Rule::Ack)
    } else if !is_among(at(fields, 7), &[b"yes", b"no"]) {
        Some(Rule::Critical)
    } else if !after.is_empty() && !is_within(after, 1, line.saturating_sub(1)) {
        Some(Rule::After)
    } else if !is_among(
        at(fields, 9),
        if is_eleven {
            &OUTCOMES[..1]
        } else {
            &OUTCOMES[..4]
        },
    ) {
        Some(Rule::Outcome)
    } else {
        None
    }
}

/// Whether the command of a row may not name the line that this word is.
fn is_barred_line(rows: &[Fields], fields: &Fields, line: &[u8]) -> bool {
    let place = number_of(line).unwrap_or(0).saturating_sub(1);
    match rows.get(place as usize) {
        Some(named) => {
            let is_asked = at(named, 6).first() == Some(&b'a');
            at(named, 2) == b"11".as_slice() || (is_schedule(fields, b"4") && !is_asked)
        }
        None => false,
    }
}

/// Whether the word of a field at a place stands there once more behind it.
fn is_twice(field: &[u8], place: usize) -> bool {
    for other in place.saturating_add(1)..word_count(field) {
        if word(field, other) == word(field, place) {
            return true;
        }
    }
    false
}

/// Whether the target of a row has a line that may not be one, or one twice.
fn is_barred(rows: &[Fields], fields: &Fields) -> bool {
    if !names_a_line(fields) {
        return false;
    }
    let target = at(fields, 4);
    for place in 0..word_count(target) {
        if is_barred_line(rows, fields, word(target, place)) || is_twice(target, place) {
            return true;
        }
    }
    false
}

/// The first row that breaks a rule of its own.
fn row_fault(rows: &[Fields]) -> Option<Told> {
    let mut line = 0_u32;
    for fields in rows {
        line = line.saturating_add(1);
        if let Some(rule) = row_rule(line, fields) {
            return Some((line, rule));
        }
    }
    None
}

/// The first row whose target may not be one.
fn target_fault(rows: &[Fields]) -> Option<Told> {
    let mut line = 0_u32;
    for fields in rows {
        line = line.saturating_add(1);
        if is_barred(rows, fields) {
            return Some((line, Rule::TargetRow));
        }
    }
    None
}

/// What is wrong with these rows, under a header that is right or not.
pub fn fault(has_header: bool, rows: &[Fields]) -> Option<Told> {
    if rows.len() > 200 {
        return Some((201, Rule::RowCount));
    }
    if !has_header {
        return Some((0, Rule::Header));
    }
    if rows.is_empty() {
        return Some((1, Rule::SomeRow));
    }
    match row_fault(rows) {
        Some(told) => Some(told),
        None => target_fault(rows),
    }
}

/// Whether activities are those that the target and the time of a row say.
fn are_rides(rides: &[Ride], fields: &Fields) -> bool {
    let target = at(fields, 4);
    let time = at(fields, 5);
    for place in 0..rides.len() {
        let ride = rides[place];
        let is_line = number_of(word(target, place)) == Some(ride.target);
        if !is_line || instant(word(time, place)) != Some(ride.time.get()) {
            return false;
        }
    }
    rides.len() == word_count(target)
}

/// Whether a command is what a row says.
fn is_command(command: Command, fields: &Fields) -> bool {
    let line = number_of(at(fields, 4));
    match command {
        Command::Plain { service, subtype } => {
            number_of(at(fields, 2)) == Some(u32::from(service.get()))
                && number_of(at(fields, 3)) == Some(u32::from(subtype.get()))
        }
        Command::EnableSchedule => is_schedule(fields, b"1"),
        Command::DisableSchedule => is_schedule(fields, b"2"),
        Command::ResetSchedule => is_schedule(fields, b"3"),
        Command::InsertActivities(rides) => {
            is_schedule(fields, b"4") && are_rides(rides.as_slice(), fields)
        }
        Command::DeleteActivity { target } => is_schedule(fields, b"5") && line == Some(target),
        Command::ShiftActivity { target, offset } => {
            is_schedule(fields, b"7")
                && line == Some(target)
                && seconds(at(fields, 5)) == Some(offset.get())
        }
        Command::ShiftAll { offset } => {
            is_schedule(fields, b"15") && seconds(at(fields, 5)) == Some(offset.get())
        }
        Command::SummarizeAll => is_schedule(fields, b"17"),
    }
}

/// Whether a row is what its fields say, but for its outcome.
fn is_row(row: &StackRow, fields: &Fields) -> bool {
    let form = row.entry.form();
    let ack = at(fields, 6);
    number_of(at(fields, 1)) == Some(u32::from(form.apid.get()))
        && is_command(form.command, fields)
        && form.ack.acceptance == (ack.first() == Some(&b'a'))
        && form.ack.completion == (ack.last() == Some(&b'c'))
        && form.critical == (at(fields, 7) == b"yes".as_slice())
        && row.after == number_of(at(fields, 8))
}

/// Whether rows are what these fields say.
pub fn are_rows(rows: &[StackRow], given: &[Fields]) -> bool {
    if rows.len() != given.len() {
        return false;
    }
    for place in 0..rows.len() {
        if !is_row(&rows[place], &given[place]) {
            return false;
        }
    }
    true
}
