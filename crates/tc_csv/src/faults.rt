//! What is wrong with a text, and where.
ghost use Rattle.std.specs.Prelude.{◌≡◌};
ghost use Rattle.tc_csv.specs.declared.faults.NotRead.TheVariants.{Wrong as IsWrong};
ghost use Rattle.tc_csv.specs.Faults.{rule_refusal, rule_column};

use crate::columns::Column;
use std::alloc::AllocFailed;
use tc_types::Refusal;

/// A rule that a text keeps, or breaks.
#[derive(Clone, Copy, Debug, PartialEq, Eq)]
pub enum Rule {
    /// The text has at most 65,536 bytes.
    TextLength,
    /// There are no more rows than a table of this kind may have.
    RowCount,
    /// The first record is the header: the names of the columns, in order.
    Header,
    /// A row stands under the header.
    SomeRow,
    /// The row has as many fields as the header.
    FieldCount,
    /// The field is the number of its row, counted from 1: a line of a stack.
    Line,
    /// The field is 0 to 2047.
    Apid,
    /// The field is 1 to 255.
    Service,
    /// The field is 1 to 255; for service 11, one of 1, 2, 3, 4, 5, 7, 15 and 17.
    Subtype,
    /// The field is an earlier line where the command names a request, of an insert 1 to 8 of them, parted by `;`; else it is empty.
    Target,
    /// The field is as many instants of whole seconds as targets for an insert, parted by `;`, seconds for a shift, else it is empty.
    Time,
    /// The field is four flags, `a`, `s`, `p`, `c` or `-` for each that is not set; a schedule command has `c`.
    Ack,
    /// The field is `yes` or `no`.
    Critical,
    /// The field is empty or an earlier line.
    After,
    /// The field is an outcome, as `ok` or `halt/2/17`; for a schedule command, `ok`.
    Outcome,
    /// Each row that the target names holds no schedule command and, for an insert, asks for the report of its acceptance; none is named twice.
    TargetRow,
    /// The field is the number of its row, counted from 1: a step of a procedure.
    StepNumber,
    /// The field is 1 to 80 printable characters of ASCII.
    StepText,
    /// The field is `yes` or `no`.
    Second,
    /// The field is empty or a number.
    StepRequest,
}

impl Rule {
    /// What a text is refused with that breaks this rule: 17 where it is too long, 19 where a target may not be one, else 1.
    pub fn refusal(self) -> Refusal
        ensures { result ≡ rule_refusal self }
    {
        match self {
            Rule::TextLength | Rule::RowCount => Refusal::TooLong,
            Rule::TargetRow => Refusal::BadActivity,
            _ => Refusal::BadText,
        }
    }

    /// The column that the rule speaks of; none where it is of a whole record or text.
    pub fn column(self) -> Option<Column>
        ensures { result ≡ rule_column self }
    {
        match self {
            Rule::Line => Some(Column::Line),
            Rule::Apid => Some(Column::Apid),
            Rule::Service => Some(Column::Service),
            Rule::Subtype => Some(Column::Subtype),
            Rule::Target | Rule::TargetRow => Some(Column::Target),
            Rule::Time => Some(Column::Time),
            Rule::Ack => Some(Column::Ack),
            Rule::Critical => Some(Column::Critical),
            Rule::After => Some(Column::After),
            Rule::Outcome => Some(Column::Outcome),
            Rule::StepNumber => Some(Column::Step),
            Rule::StepText => Some(Column::Text),
            Rule::Second => Some(Column::Second),
            Rule::StepRequest => Some(Column::Request),
            _ => None,
        }
    }
}

/// Where a text is wrong, and why.
#[derive(Clone, Copy, Debug, PartialEq, Eq)]
pub struct Fault {
    /// The record: 0 for the header or the text as a whole, else the number of the row, from 1.
    pub row: u32,
    /// The rule that is broken, which names the field.
    pub rule: Rule,
}

/// Why a text was not read.
#[derive(Clone, Copy, Debug, PartialEq, Eq)]
pub enum NotRead {
    /// It breaks a rule.
    Wrong(Fault),
    /// Memory was refused.
    Memory,
}

impl<T: Drop> From<AllocFailed<T>> for NotRead {
    ghost use Rattle.std.specs.Prelude.{◌≡◌};
    ghost use Rattle.tc_csv.specs.declared.faults.NotRead.TheVariants.{Memory};

    ghost from_gives = { λ _ why. why ≡ Memory };

    fn from(_refused: AllocFailed<T>) -> NotRead {
        NotRead::Memory
    }
}

impl NotRead {
    /// It breaks this rule at this record: 0 for the header or the text as a whole, else the number of the row, from 1.
    pub fn wrong(row: u32, rule: Rule) -> NotRead
        ensures { result ≡ IsWrong (record { row = row; rule = rule }) }
    {
        NotRead::Wrong(Fault { row, rule })
    }
}
