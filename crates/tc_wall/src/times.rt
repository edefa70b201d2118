//! Moments as people read them.
ghost use Rattle.std.specs.Prelude.{◌≡◌};
ghost use Rattle.tc_wall.specs.Clock.{clock_text};

use arrayvec::ArrayString;
use jiff::Timestamp;
use jiff::fmt::temporal::DateTimePrinter;
use jiff::tz::Offset;
use tc_types::Moment;

/// What a clock at UTC shows at a moment: `YYYY-MM-DD hh:mm:ss`.
pub(crate) fn time_text(moment: Moment) -> ArrayString<32>
    ensures { result.bytes ≡ clock_text moment }
{
    let instant = Timestamp::from_second(i64::from(moment.get())).unwrap();
    let shown = Offset::UTC.to_datetime(instant).to_plain();
    let printer = DateTimePrinter::new().separator(b' ').precision(Some(0));
    printer.datetime_text(shown)
}
