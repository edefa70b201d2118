//! Header fields of a request, and a body's length.
ghost use Rattle.std.specs.Prelude.{◌≡◌, ◌↔◌, IfSome, IfNone, IsTrue, All, length, map, min};
ghost use Rattle.std.specs.Char.{to_ascii_lowercase};
ghost use Rattle.std.specs.Str.Parse.{digits_value};
ghost use Rattle.httparse.specs.Spans.{IsHeaderWithin, header_bytes};
ghost use Rattle.tc_front.specs.Fields.{IsDecimal, found_of, found_view, values};

use httparse::spans::HeaderSpan;

/// The values of the fields of one name.
#[derive(Clone, Copy, Debug)]
pub(crate) enum FieldValues<'a> {
    /// There is no such field.
    Absent,
    /// There is one, and this is its value.
    One(&'a [u8]),
    /// There are two or more.
    Many,
}

/// Whether a field has this name, in letters of either case (RFC 9110, section 5.1).
pub(crate) fn is_named(field: &[u8], name: &[u8]) -> bool
    ensures { IsTrue result ↔ (map to_ascii_lowercase field.now ≡ map to_ascii_lowercase name.now) }
{
    field.eq_ignore_ascii_case(name)
}

/// The values of the fields of a name. The white space around a value is no part of it (RFC 9112, section 5.1).
pub(crate) fn find<'a>(head: &'a [u8], headers: &[HeaderSpan], name: &[u8]) -> FieldValues<'a>
    requires { All (IsHeaderWithin (length head.now)) headers.now }
    ensures { found_of (values name.now (map (header_bytes head.now) headers.now)) ≡ found_view result }
{
    let mut found = FieldValues::Absent;
    let mut left = headers;
    while let Some((header, rest)) = left.split_first() {
        if is_named(header.name.of(head), name) {
            match found {
                FieldValues::Absent => found = FieldValues::One(header.value.of(head)),
                _ => return FieldValues::Many,
            }
        }
        left = rest;
    }
    found
}

/// A body's length in bytes, which stops at 65,537: none where the value is no decimal. RFC 9110, section 8.6, has digits,
/// as many as there are; that a zero in front is none is this desk's own.
pub(crate) fn body_length(value: &[u8]) -> Option<usize>
    ensures some { IfSome result (λ size. IsDecimal value.now × (size ≡ min (digits_value 10 value.now) 65537)) }
    ensures none { IfNone result (¬ (IsDecimal value.now)) }
{
    let mut size = 0;
    let mut left = value;
    if value.is_empty() || value.len() > 1 && value[0] == b'0' {
        return None;
    }
    while let Some((byte, rest)) = left.split_first() {
        if !byte.is_ascii_digit() {
            return None;
        }
        size = (size * 10 + (*byte - b'0') as usize).min(65_537);
        left = rest;
    }
    Some(size)
}
