//! What the arguments of a command were given.
ghost use Rattle.std.specs.Prelude.{◌%◌, ◌≡◌, ◌↔◌, ◌≤◌, IfErr, IfNone, IfOk, IfSome, IsTrue, option_map};
ghost use Rattle.clap.specs.Words.{first_of, found_of, one_of, rows_of};
ghost use Rattle.tc_types.specs.Loads.{kind_word};
ghost use Rattle.tc_types.specs.declared.loads.LoadKind.{LoadKind as SomeKind};
ghost use Rattle.tc_world.specs.Config.{IsConfig, IsRing};
ghost use Rattle.tc_words.specs.Asked.{SpellsMoment, SpellsNoMoment, given, given_channel, given_count, given_echo, given_first, given_flag, given_only_new, given_port, given_ring, given_terms, given_verbose, given_window, number_in, number_within};
ghost use Rattle.tc_words.specs.Lines.{terms_of};

use crate::lines::{Numbers, Service, Telling, UsageFault};
use clap::ArgMatches;
use tc_csv::instant;
use tc_lines::read::readers;
use tc_types::{LoadKind, Moment};
use tc_world::{Config, GREATEST_RING};

/// The text of an argument, or `-` where none was given.
pub(crate) fn text_of<'a>(matches: &ArgMatches<'a>, id: &str) -> &'a str
    ensures { result.now ≡ given id.now (rows_of (found_of matches.now)) }
{
    match matches.get_str(id) {
        Some(text) => text,
        None => "-",
    }
}

/// The path that was given for an option, if one was.
pub(crate) fn path_of<'a>(matches: &ArgMatches<'a>, id: &str) -> Option<&'a str>
    ensures { option_map (λ path. path.now) result ≡ first_of id.now (rows_of (found_of matches.now)) }
{
    matches.get_str(id)
}

/// The number of an argument where it is one from least to most.
fn number_within(matches: &ArgMatches<'_>, id: &str, least: u32, most: u32) -> Option<u32>
    ensures value { result ≡ number_within least most (one_of id.now (rows_of (found_of matches.now))) }
    ensures range { IfSome result (λ number. (least ≤ number) × (number ≤ most)) }
{
    match matches.get_one::<u32>(id) {
        Some(number) if least <= number && number <= most => Some(number),
        _ => None,
    }
}

/// The number of an argument where it is one from least to most, and else another.
fn number_of(matches: &ArgMatches<'_>, id: &str, least: u32, most: u32, other: u32) -> u32
    requires { (least ≤ other) × (other ≤ most) }
    ensures value { result ≡ number_in least most other (one_of id.now (rows_of (found_of matches.now))) }
    ensures range { (least ≤ result) × (result ≤ most) }
{
    number_within(matches, id, least, most).unwrap_or(other)
}

/// How many items the rings of the links hold, where they are rings.
fn ring_of(matches: &ArgMatches<'_>) -> Option<u32>
    ensures ring { result ≡ given_ring (rows_of (found_of matches.now)) }
    ensures size { IsRing result }
{
    number_within(matches, "ring", 1, GREATEST_RING)
}

/// The window, the channel and the links, where the window is even.
pub(crate) fn config_of<'a>(matches: &ArgMatches<'_>) -> Result<Config, UsageFault<'a>>
    ensures window { IfOk result (λ config. config.window ≡ given_window (rows_of (found_of matches.now))) }
    ensures channel { IfOk result (λ config. config.channel ≡ given_channel (rows_of (found_of matches.now))) }
    ensures ring { IfOk result (λ config. config.ring ≡ given_ring (rows_of (found_of matches.now))) }
    ensures config { IfOk result IsConfig }
    ensures odd { IfErr result (λ fault.
        (fault ≡ UsageFault.OddWindow) × (given_window (rows_of (found_of matches.now)) % 2 ≡ 1)) }
{
    let window = number_of(matches, "w", 2, 254, 20) as u16;
    if !is_even(window) {
        return Err(UsageFault::OddWindow);
    }
    Ok(Config {
        window,
        channel: number_of(matches, "vc", 0, 63, 3) as u8,
        ring: ring_of(matches),
    })
}

/// Whether a window is even.
fn is_even(window: u16) -> bool
    ensures { IsTrue result ↔ (window % 2 ≡ 0) }
{
    window % 2 == 0
}

/// The moment that a text spells, if it spells one: Unix seconds, or an instant.
fn moment_in(text: &[u8]) -> Option<Moment>
    ensures found { IfSome result (λ moment. SpellsMoment moment text.now) }
    ensures none { IfNone result (SpellsNoMoment text.now) }
{
    match readers::moment(text) {
        Some(moment) => Some(moment),
        None => instant(text),
    }
}

/// The moment of an opening, which a text spells: Unix seconds, or an instant.
pub(crate) fn spelled_opening<'a>(text: &'a str) -> Result<Moment, UsageFault<'a>>
    ensures moment { IfOk result (λ moment. SpellsMoment moment text.entry.now) }
    ensures fault { IfErr result (λ fault. (fault ≡ UsageFault.NoOpening text.entry) × SpellsNoMoment text.entry.now) }
{
    moment_in(text.as_bytes()).ok_or(UsageFault::NoOpening(text))
}

/// The port at which the desk is served.
fn port_of(matches: &ArgMatches<'_>) -> u16
    ensures { result ≡ given_port (rows_of (found_of matches.now)) }
{
    number_of(matches, "PORT", 1, 65_535, 1) as u16
}

/// After how many connections a server ends, if after any.
fn count_of(matches: &ArgMatches<'_>) -> Option<u32>
    ensures { result ≡ given_count (rows_of (found_of matches.now)) }
{
    number_within(matches, "COUNT", 1, 1_000_000)
}

/// Whether an option was given that has no value.
fn has(matches: &ArgMatches<'_>, id: &str) -> bool
    ensures { result ≡ given_flag id.now (rows_of (found_of matches.now)) }
{
    0 < matches.get_count(id)
}

/// How the desk is served.
pub(crate) fn service_of<'a>(matches: &ArgMatches<'a>) -> Service<'a>
    ensures { terms_of result ≡ given_terms (rows_of (found_of matches.now)) }
{
    Service {
        port: port_of(matches),
        count: count_of(matches),
        host: path_of(matches, "host"),
        until_eof: has(matches, "until-eof"),
        end_when_stopped: has(matches, "end-when-stopped"),
        verbose: has(matches, "verbose"),
    }
}

/// The numbers of the lines that are sent.
pub(crate) fn numbers_of(matches: &ArgMatches<'_>) -> Numbers
    ensures first { result.first ≡ given_first (rows_of (found_of matches.now)) }
    ensures only { result.only_new ≡ given_only_new (rows_of (found_of matches.now)) }
{
    Numbers {
        first: number_of(matches, "first", 1, 4_294_967_295, 1),
        only_new: has(matches, "new"),
    }
}

/// What is to be told of the lines of a script.
pub(crate) fn telling_of(matches: &ArgMatches<'_>) -> Telling
    ensures echo { result.echo ≡ given_echo (rows_of (found_of matches.now)) }
    ensures verbose { result.verbose ≡ given_verbose (rows_of (found_of matches.now)) }
{
    Telling {
        echo: has(matches, "echo"),
        verbose: has(matches, "verbose"),
    }
}

/// The moment that a text spells: Unix seconds, or an instant.
pub(crate) fn spelled_moment<'a>(text: &'a str) -> Result<Moment, UsageFault<'a>>
    ensures moment { IfOk result (λ moment. SpellsMoment moment text.entry.now) }
    ensures fault { IfErr result (λ fault. (fault ≡ UsageFault.NoMoment text.entry) × SpellsNoMoment text.entry.now) }
{
    moment_in(text.as_bytes()).ok_or(UsageFault::NoMoment(text))
}

/// The kind of a file that a word names.
pub(crate) fn spelled_kind<'a>(word: &'a str) -> Result<LoadKind, UsageFault<'a>>
    ensures kind { IfOk result (λ kind. word.entry.now ≡ kind_word kind) }
    ensures fault { IfErr result (λ fault. (fault ≡ UsageFault.NoKind word.entry) × ((some : SomeKind) → ¬ (word.entry.now ≡ kind_word some))) }
{
    if word == LoadKind::Stack.word() {
        Ok(LoadKind::Stack)
    } else if word == LoadKind::Procedure.word() {
        Ok(LoadKind::Procedure)
    } else {
        Err(UsageFault::NoKind(word))
    }
}
