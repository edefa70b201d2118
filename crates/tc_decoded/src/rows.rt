//! Rows of the tables of fields: where a field lies, how it is shown, and what it must be.
ghost use Rattle.std.specs.Prelude.{◌≡◌, ◌+◌, ◌<◌, ◌≤◌, ◌^◌, slice_index, drop, take};
ghost use Rattle.tc_octets.specs.Bits.{pair_at};
ghost use Rattle.tc_decoded.specs.Rows.{bits_in, fits, room_of, value_of, window_of, word_code};

use crate::names::Name;

/// How a value is shown.
#[derive(Clone, Copy)]
pub(crate) enum Shown {
    /// In decimal.
    Number,
    /// In four hexadecimal digits.
    Hexadecimal,
    /// `yes` or `no`.
    Flag,
    /// As a number of octets.
    Octets,
    /// As the type of a packet.
    Kind,
    /// As sequence flags.
    Sequence,
    /// As a control command.
    Command,
    /// As the status of a schedule.
    Status,
    /// As an outcome of a rehearsal.
    Outcome,
    /// As a number of 32 bits in two's complement.
    Offset,
}

/// A condition on a value.
#[derive(Clone, Copy)]
pub(crate) enum Fit {
    /// Any value.
    Any,
    /// This one.
    Is(u64),
    /// One from the first to the second.
    Between(u64, u64),
    /// At least this one.
    Least(u64),
    /// At most this one.
    Most(u64),
    /// The length field of so many octets.
    Given {
        /// How many octets there are.
        octets: u64,
        /// The value that says so.
        value: u64,
    },
    /// A message subtype of the schedule's service.
    Scheduled,
    /// A control command; whether the data field is one.
    Command(bool),
    /// No value: no CLTU ends in the octets.
    Ended,
    /// No value: the reader refuses the layer.
    Refused,
}

/// The words by which readers refuse a layer.
#[derive(Clone, Copy)]
pub(crate) enum Word {
    /// Another number of octets.
    Length,
    /// Another CRC-16.
    Check,
    /// Another version.
    Version,
    /// Another spacecraft.
    Spacecraft,
    /// Another virtual channel.
    Channel,
    /// Another type of frame.
    Kind,
    /// Another content of a frame.
    Content,
    /// Another header of a packet.
    Header,
    /// Another service or subtype.
    Subtype,
    /// Other application data or source data.
    Data,
}

/// Bits of octets: the first of them in the first octet, and how many, up to 32.
#[derive(Clone, Copy)]
pub(crate) struct Span {
    /// The first bit, 0 to 7; 0 is the most significant.
    pub bit: u8,
    /// How many bits.
    pub bits: u8,
}

/// The source of a value.
#[derive(Clone, Copy)]
pub(crate) enum Source {
    /// It is a field.
    Field(Span),
    /// It was counted.
    Count(u64),
}

/// A row of a table of fields.
#[derive(Clone, Copy)]
pub(crate) struct Row {
    /// The field's name.
    pub name: Name,
    /// The octet of the layer in which it begins, from 0.
    pub octet: u32,
    /// The source of its value.
    pub source: Source,
    /// How its value is shown.
    pub shown: Shown,
    /// The condition on its value.
    pub fit: Fit,
    /// The word by which a reader refuses another value.
    pub word: Word,
}

/// Returns an octet, or 0 if there is none.
pub(crate) fn octet_at(octets: &[u8], at: usize) -> u64
    ensures value { result ≡ slice_index octets.now at }
    ensures small { result < 2 ^ 8 }
{
    match octets.get(at) {
        Some(octet) => u64::from(*octet),
        None => 0,
    }
}

/// Returns the number that two octets are.
pub(crate) fn pair_at(octets: &[u8], at: usize) -> u16
    requires { at ≤ 131072 }
    ensures { result ≡ pair_at octets.now at }
{
    (octet_at(octets, at) * 0x100 + octet_at(octets, at + 1)) as u16
}

/// Returns the octets from one on.
pub(crate) fn octets_from(octets: &[u8], at: usize) -> &[u8]
    ensures { result.now ≡ drop at octets.now }
{
    match octets.get(at..) {
        Some(rest) => rest,
        None => &[],
    }
}

/// Returns up to so many octets from one on.
pub(crate) fn octets_within(octets: &[u8], at: usize, number: usize) -> &[u8]
    ensures { result.now ≡ take number (drop at octets.now) }
{
    let rest = octets_from(octets, at);
    match rest.get(..number) {
        Some(within) => within,
        None => rest,
    }
}

/// Returns the number that the 1, 2 or 4 octets are in which bits up to this one lie.
fn window(octets: &[u8], end: u32) -> u64
    ensures { result ≡ window_of octets.now end }
{
    let first = octet_at(octets, 0);
    if end <= 8 {
        return first;
    }
    let pair = first * 0x100 + octet_at(octets, 1);
    if end <= 16 {
        return pair;
    }
    pair * 0x1_0000 + (octet_at(octets, 2) * 0x100 + octet_at(octets, 3))
}

/// Returns how many bits of that window come after this one.
fn room(end: u32) -> u32
    ensures value { result ≡ room_of end }
    ensures small { result ≤ 32 }
{
    if end <= 8 {
        8 - end
    } else if end <= 16 {
        16 - end
    } else {
        32u32.saturating_sub(end)
    }
}

/// Returns the number in a field that begins in an octet.
pub(crate) fn bits_in(octets: &[u8], at: usize, span: Span) -> u64
    ensures { result ≡ bits_in octets.now at span }
{
    let end = u32::from(span.bit) + u32::from(span.bits);
    let bits = u32::from(span.bits.min(32));
    let window = window(octets_from(octets, at), end);
    (window >> room(end)) % (1 << bits)
}

/// Returns the value of a row.
pub(crate) fn value_of(octets: &[u8], row: &Row) -> u64
    ensures { result ≡ value_of octets.now row.now }
{
    match row.source {
        Source::Field(span) => bits_in(octets, row.octet as usize, span),
        Source::Count(number) => number,
    }
}

/// Returns whether a value meets its condition.
pub(crate) fn is_fit(fit: &Fit, value: u64) -> bool
    ensures { result ≡ fits fit.now value }
{
    match fit {
        Fit::Any => true,
        Fit::Is(number) => value == *number,
        Fit::Between(least, most) => *least <= value && value <= *most,
        Fit::Least(least) => *least <= value,
        Fit::Most(most) => value <= *most,
        Fit::Given { value: field, .. } => value == *field,
        Fit::Scheduled => matches!(value, 1 | 2 | 3 | 4 | 5 | 7 | 15 | 17),
        Fit::Command(command) => *command,
        Fit::Ended | Fit::Refused => false,
    }
}

/// Returns a word's place among all words.
pub(crate) fn word_code(word: Word) -> u8
    ensures { result ≡ word_code word }
{
    match word {
        Word::Length => 0,
        Word::Check => 1,
        Word::Version => 2,
        Word::Spacecraft => 3,
        Word::Channel => 4,
        Word::Kind => 5,
        Word::Content => 6,
        Word::Header => 7,
        Word::Subtype => 8,
        Word::Data => 9,
    }
}
