//! Instants as people write them.
ghost use Rattle.std.specs.Prelude.{◌≡◌, ℕ, IfSome, Some};
ghost use Rattle.tc_types.specs.Numbers.{IsMoment};
ghost use Rattle.tc_csv.specs.StackTexts.{IsInstant};

use jiff::Timestamp;
use std::str;
use tc_types::Moment;

/// An instant of whole seconds, with its offset from UTC, as `jiff` reads one: `2031-05-04T10:00:00Z`. `None` where the text is none, or the
/// instant is no moment of the desk's.
pub fn instant(field: &[u8]) -> Option<Moment>
    ensures found { IfSome result (λ time. IsMoment time × IsInstant time field.now) }
    ensures only { (time : ℕ) → IsMoment time → IsInstant time field.now → result ≡ Some time }
{
    let text = str::from_utf8(field).ok()?;
    let instant: Timestamp = text.parse().ok()?;
    if instant.subsec_nanosecond() != 0 {
        return None;
    }
    Moment::new(u32::try_from(instant.as_second()).ok()?)
}
