//! The arguments of the commands: which have to be given, which values pass, and what stands where none is given.
ghost use Rattle.std.specs.Prelude.{◌≡◌};
ghost use Rattle.tc_words.specs.Commands.{channel_rule, checked_rule, copy_rule, count_rule, database_rule, echo_rule, end_when_stopped_rule, file_rule, first_rule, flag_rule, from_rule, hex_rule, host_rule, kind_rule, layer_rule, moment_rule, only_new_rule, port_rule, profile_rule};
ghost use Rattle.tc_words.specs.Commands.{required_rule, ring_rule, script_rule, to_rule, until_eof_rule, verbose_rule, window_rule};

use clap::builder::ValueParser;
use clap::{Arg, ArgAction};
use std::alloc::Global;
use std::marker::Model;
use tc_world::GREATEST_RING;

/// An argument of one command, and of none below it. A contract sees it as its rule.
#[derive(Drop)]
pub(crate) struct Argument<'a> {
    pub(crate) arg: Arg<'a>,
}

impl<'a> Model for Argument<'a> {
    ghost use Rattle.std.specs.Prelude.{◌≡◌, false};
    ghost use Rattle.clap.specs.Words.{Rule, rule_of};

    ghost Value = { Rule };

    ghost view = { λ argument. rule_of argument.arg };

    ghost invariant = { λ argument. argument.arg.global ≡ false };
}

/// A positional argument that has to be given.
fn required_arg<'a>(alloc: Global, id: &'a str, help: &'a str) -> Argument<'a>
    ensures { result ≡ required_rule id.entry.now }
{
    Argument {
        arg: Arg::new(alloc, id).required(true).help(help),
    }
}

pub(crate) fn script_arg<'a>(alloc: Global) -> Argument<'a>
    ensures { result ≡ script_rule }
{
    required_arg(
        alloc,
        "SCRIPT",
        "The script's path, or - for the standard input",
    )
}

pub(crate) fn kind_arg<'a>(alloc: Global) -> Argument<'a>
    ensures { result ≡ kind_rule }
{
    required_arg(
        alloc,
        "KIND",
        "What the file holds: script, stack or procedure",
    )
}

pub(crate) fn checked_arg<'a>(alloc: Global) -> Argument<'a>
    ensures { result ≡ checked_rule }
{
    required_arg(
        alloc,
        "FILE",
        "The file's path, or - for the standard input",
    )
}

pub(crate) fn profile_arg<'a>(alloc: Global) -> Argument<'a>
    ensures { result ≡ profile_rule }
{
    Argument {
        arg: Arg::new(alloc, "profile")
            .long("profile")
            .value_name("FILE")
            .help("The file of the link's profile [default: the standard profile]"),
    }
}

pub(crate) fn layer_arg<'a>(alloc: Global) -> Argument<'a>
    ensures { result ≡ layer_rule }
{
    required_arg(
        alloc,
        "LAYER",
        "What the octets are: frame or cltu (upward), packet (either way) or tm (downward)",
    )
}

pub(crate) fn hex_arg<'a>(alloc: Global) -> Argument<'a>
    ensures { result ≡ hex_rule }
{
    required_arg(
        alloc,
        "HEX",
        "The octets, as pairs of hexadecimal digits, or - for the lines of the standard input",
    )
}

/// DB of a command that opens the desk.
pub(crate) fn file_arg<'a>(alloc: Global) -> Argument<'a>
    ensures { result ≡ file_rule }
{
    required_arg(
        alloc,
        "DB",
        "The database file that keeps the desk; a new desk is made where there is none",
    )
}

/// DB of a command that only reads it.
pub(crate) fn read_file_arg<'a>(alloc: Global) -> Argument<'a>
    ensures { result ≡ file_rule }
{
    required_arg(alloc, "DB", "The database file that keeps the desk")
}

pub(crate) fn copy_arg<'a>(alloc: Global) -> Argument<'a>
    ensures { result ≡ copy_rule }
{
    required_arg(
        alloc,
        "COPY",
        "The file that the desk is copied to, which is not there yet",
    )
}

pub(crate) fn from_arg<'a>(alloc: Global) -> Argument<'a>
    ensures { result ≡ from_rule }
{
    required_arg(
        alloc,
        "FROM",
        "The first moment of the shift: Unix seconds, 0 to 4102444799, or an instant such as 2031-05-04T10:00:00Z",
    )
}

pub(crate) fn to_arg<'a>(alloc: Global) -> Argument<'a>
    ensures { result ≡ to_rule }
{
    required_arg(
        alloc,
        "TO",
        "The first moment after the shift, in the same forms",
    )
}

pub(crate) fn port_arg<'a>(alloc: Global) -> Argument<'a>
    ensures { result ≡ port_rule }
{
    let port = required_arg(
        alloc,
        "PORT",
        "The port of 127.0.0.1 at which the desk is served: 1 to 65535",
    );
    Argument {
        arg: port.arg.value_parser(ValueParser::Unsigned(1, 65_535)),
    }
}

pub(crate) fn count_arg<'a>(alloc: Global) -> Argument<'a>
    ensures { result ≡ count_rule }
{
    Argument {
        arg: Arg::new(alloc, "COUNT")
            .value_parser(ValueParser::Unsigned(1, 1_000_000))
            .help("After how many connections it ends: 1 to 1000000 [default: it goes on]"),
    }
}

pub(crate) fn host_arg<'a>(alloc: Global) -> Argument<'a>
    ensures { result ≡ host_rule }
{
    Argument {
        arg: Arg::new(alloc, "host").long("host").value_name("NAME").help(
            "A name by which clients call the desk, besides 127.0.0.1 and localhost: requests with another Host are refused",
        ),
    }
}

pub(crate) fn until_eof_arg<'a>(alloc: Global) -> Argument<'a>
    ensures { result ≡ until_eof_rule }
{
    flag_arg(alloc, "until-eof", "End when the standard input ends")
}

pub(crate) fn end_when_stopped_arg<'a>(alloc: Global) -> Argument<'a>
    ensures { result ≡ end_when_stopped_rule }
{
    flag_arg(
        alloc,
        "end-when-stopped",
        "End with status 3 when the desk has stopped, as it does without COUNT",
    )
}

/// An option that has no value.
fn flag_arg<'a>(alloc: Global, name: &'a str, help: &'a str) -> Argument<'a>
    ensures { result ≡ flag_rule name.entry.now }
{
    Argument {
        arg: Arg::new(alloc, name)
            .long(name)
            .action(ArgAction::Count)
            .help(help),
    }
}

/// --verbose of a server.
pub(crate) fn verbose_arg<'a>(alloc: Global) -> Argument<'a>
    ensures { result ≡ verbose_rule }
{
    flag_arg(
        alloc,
        "verbose",
        "Say on the standard error how each connection ended",
    )
}

/// --verbose of a script.
pub(crate) fn lines_arg<'a>(alloc: Global) -> Argument<'a>
    ensures { result ≡ verbose_rule }
{
    flag_arg(
        alloc,
        "verbose",
        "Say on the standard error which lines were refused, and why, also where that is no terminal, and which act or load came before the last move",
    )
}

pub(crate) fn echo_arg<'a>(alloc: Global) -> Argument<'a>
    ensures { result ≡ echo_rule }
{
    flag_arg(
        alloc,
        "echo",
        "Print each line that is answered, behind > and a space, before its answer",
    )
}

pub(crate) fn window_arg<'a>(alloc: Global) -> Argument<'a>
    ensures { result ≡ window_rule }
{
    Argument {
        arg: Arg::new(alloc, "w")
            .long("w")
            .value_name("N")
            .value_parser(ValueParser::Unsigned(2, 254))
            .default_value("20")
            .help("The window of the FARM: even, 2 to 254"),
    }
}

pub(crate) fn channel_arg<'a>(alloc: Global) -> Argument<'a>
    ensures { result ≡ channel_rule }
{
    Argument {
        arg: Arg::new(alloc, "vc")
            .long("vc")
            .value_name("N")
            .value_parser(ValueParser::Unsigned(0, 63))
            .default_value("3")
            .help("The virtual channel: 0 to 63"),
    }
}

pub(crate) fn ring_arg<'a>(alloc: Global) -> Argument<'a>
    ensures { result ≡ ring_rule }
{
    Argument {
        arg: Arg::new(alloc, "ring")
            .long("ring")
            .value_name("N")
            .value_parser(ValueParser::Unsigned(1, u64::from(GREATEST_RING)))
            .help(
                "Links that hold N items and drop the oldest: 1 to 4096 [default: lists, which lose nothing by themselves]",
            ),
    }
}

pub(crate) fn database_arg<'a>(alloc: Global) -> Argument<'a>
    ensures { result ≡ database_rule }
{
    Argument {
        arg: Arg::new(alloc, "db").long("db").value_name("FILE").help(
            "The database file that keeps the desk; a new desk is made where there is none [default: the desk is in memory]",
        ),
    }
}

pub(crate) fn moment_arg<'a>(alloc: Global) -> Argument<'a>
    ensures { result ≡ moment_rule }
{
    Argument {
        arg: Arg::new(alloc, "at")
            .long("at")
            .value_name("MOMENT")
            .default_value("0")
            .help(
                "The moment at which the desk in the file is opened: Unix seconds, 0 to 4102444799, or an instant such as 2031-05-04T10:00:00Z",
            ),
    }
}

pub(crate) fn first_arg<'a>(alloc: Global) -> Argument<'a>
    ensures { result ≡ first_rule }
{
    Argument {
        arg: Arg::new(alloc, "first")
            .long("first")
            .value_name("N")
            .value_parser(ValueParser::Unsigned(1, 4_294_967_295))
            .default_value("1")
            .help(
                "The number of the first line that is sent, and each line behind it has the next: 1 to 4294967295",
            ),
    }
}

pub(crate) fn only_new_arg<'a>(alloc: Global) -> Argument<'a>
    ensures { result ≡ only_new_rule }
{
    flag_arg(
        alloc,
        "new",
        "Send nothing, and end with status 1, if a number of a line was used before",
    )
}
