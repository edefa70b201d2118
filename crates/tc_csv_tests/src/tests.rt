//! What no clause says: that texts are read where there is memory, and what is told of those that are not; executions on small
//! heaps, and beside a plain program.
//!
//! Nothing is promised by the helpers here: what a test does with them needs no proof but that of its own loops and indexes.
use std::alloc::AllocError;
use tc_csv::{Fault, Rule};
use tc_types::Refusal;

mod dice;
mod executions;
mod plain_procedures;
mod plain_stacks;
mod procedure_texts;
mod random_procedures;
mod random_stacks;
mod random_texts;
mod stack_rows;
mod stack_texts;
mod written;

/// A fault, as a test writes it down: the row and the rule.
type Told = (u32, Rule);

/// Whether a fault is this one.
fn is_told(fault: Fault, told: Told) -> bool {
    fault.row == told.0 && fault.rule == told.1
}

/// Whether this fault is told of a text, or none, and the text is refused so.
fn is_agreed(
    found: Result<Option<Fault>, AllocError>,
    refused: Option<Refusal>,
    told: Option<Told>,
) -> bool {
    match (found, told) {
        (Ok(None), None) => refused.is_none(),
        (Ok(Some(fault)), Some(told)) => {
            is_told(fault, told) && refused == Some(refusal(told.1))
        }
        _ => false,
    }
}

/// What a text is refused with that breaks a rule, written down once more.
fn refusal(rule: Rule) -> Refusal {
    if rule == Rule::TextLength || rule == Rule::RowCount {
        Refusal::TooLong
    } else if rule == Rule::TargetRow {
        Refusal::BadActivity
    } else {
        Refusal::BadText
    }
}
