//! Moments as people read them.
ghost use Rattle.std.specs.Prelude.{IsTrue};
ghost use Rattle.tc_types.specs.Words.{is_one_line};
ghost use Rattle.tc_report.specs.ShiftReport.{IsTimeText};

use arrayvec::ArrayString;
use jiff::Timestamp;
use jiff::fmt::temporal::DateTimePrinter;
use jiff::tz::Offset;
use tc_types::Moment;

/// What a clock at UTC shows at a moment: `YYYY-MM-DD hh:mm:ss`.
#[tactic(auto, using(crate::proofs::LineLemmas::time_one))]
pub fn time_text(moment: Moment) -> ArrayString<32>
    ensures text { IsTimeText moment result.bytes }
    ensures one_line { IsTrue (is_one_line result.bytes) }
{
    let instant = Timestamp::from_second(i64::from(moment.get())).unwrap();
    let shown = Offset::UTC.to_datetime(instant).to_plain();
    let printer = DateTimePrinter::new().separator(b' ').precision(Some(0));
    printer.datetime_text(shown)
}
