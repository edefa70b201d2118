//! The reading of a command line's words.
ghost use Rattle.std.specs.Prelude.{◌≡◌, ◌⊎◌, [], IfErr, IfOk, OnOk, map, true};
ghost use Rattle.clap.specs.Words.{fault_of, found_of, rows_of, subcommand_of, subcommand_rows_of, takes};
ghost use Rattle.tc_words.specs.Asked.{asked, asked_backup, asked_wall, asked_check, asked_loop, asked_octets, asked_of, asked_report, asked_run, asked_serve};
ghost use Rattle.tc_words.specs.Commands.{desk_app};
ghost use Rattle.tc_words.specs.Lines.{IsFaultOf, IsLineFor, IsTold};

use crate::commands::matches;
use crate::given::{
    config_of, numbers_of, path_of, service_of, spelled_kind, spelled_moment, spelled_opening,
    telling_of, text_of,
};
use crate::layers::spelled_layer;
use crate::lines::{CommandLine, Telling, UsageFault};
use clap::ArgMatches;
use std::alloc::Global;
use tc_world::Config;

/// The window, the channel and the links where none are given.
const CONFIG: Config = Config {
    window: 20,
    channel: 3,
    ring: None,
};

/// What is told of the lines of a script where nothing is asked for.
const ANSWERS_ALONE: Telling = Telling {
    echo: false,
    verbose: false,
};

/// Reads the words of a command line, of which the first is the program's name.
pub fn read_words<'a>(
    alloc: Global,
    words: &'a [&'a str],
) -> Result<CommandLine<'a>, UsageFault<'a>>
    ensures line { IfOk result (λ line.
        IsLineFor line (asked (subcommand_of desk_app (map (λ word. word.now) words.entry.now)))) }
    ensures taken { OnOk result (fault_of desk_app (map (λ word. word.now) words.entry.now) ≡ []) }
    ensures fault { IfErr result (λ fault.
        takes desk_app (map (λ word. word.now) words.entry.now) ≡ true
        → (fault ≡ UsageFault.Memory) ⊎ IsFaultOf (asked (subcommand_of desk_app (map (λ word. word.now) words.entry.now))) fault) }
    ensures told { IfErr result (IsTold
        (fault_of desk_app (map (λ word. word.now) words.entry.now)) (asked (subcommand_of desk_app (map (λ word. word.now) words.entry.now)))) }
{
    let matches = matches(alloc, words)?;
    line_of(&matches)
}

fn line_of<'a>(matches: &ArgMatches<'a>) -> Result<CommandLine<'a>, UsageFault<'a>>
    ensures line { IfOk result (λ line. IsLineFor line (asked (subcommand_rows_of matches.now))) }
    ensures fault { IfErr result (IsFaultOf (asked (subcommand_rows_of matches.now))) }
{
    match matches.subcommand() {
        Some((name, inner)) => command_line_of(name, inner),
        None => Ok(CommandLine::Run {
            script: "-",
            config: CONFIG,
            telling: ANSWERS_ALONE,
        }),
    }
}

/// What the command of this name was given.
fn command_line_of<'a>(
    name: &str,
    matches: &ArgMatches<'a>,
) -> Result<CommandLine<'a>, UsageFault<'a>>
    ensures line { IfOk result (λ line. IsLineFor line (asked_of name.now (rows_of (found_of matches.now)))) }
    ensures fault { IfErr result (IsFaultOf (asked_of name.now (rows_of (found_of matches.now)))) }
{
    if name == "report" {
        report_line_of(matches)
    } else if name == "backup" {
        backup_line_of(matches)
    } else if name == "board" {
        wall_line_of(matches)
    } else if name == "check" {
        check_line_of(matches)
    } else if name == "octets" {
        octets_line_of(matches)
    } else if name == "serve" {
        serve_line_of(matches)
    } else if name == "loop" {
        loop_line_of(matches)
    } else {
        run_line_of(matches)
    }
}

fn run_line_of<'a>(matches: &ArgMatches<'a>) -> Result<CommandLine<'a>, UsageFault<'a>>
    ensures line { IfOk result (λ line. IsLineFor line (asked_run (rows_of (found_of matches.now)))) }
    ensures fault { IfErr result (IsFaultOf (asked_run (rows_of (found_of matches.now)))) }
{
    let script = text_of(matches, "SCRIPT");
    let config = config_of(matches)?;
    let moment = spelled_opening(text_of(matches, "at"))?;
    let telling = telling_of(matches);
    match path_of(matches, "db") {
        Some(database) => Ok(CommandLine::RunKept {
            script,
            config,
            database,
            moment,
            telling,
        }),
        None => Ok(CommandLine::Run {
            script,
            config,
            telling,
        }),
    }
}

fn report_line_of<'a>(matches: &ArgMatches<'a>) -> Result<CommandLine<'a>, UsageFault<'a>>
    ensures line { IfOk result (λ line. IsLineFor line (asked_report (rows_of (found_of matches.now)))) }
    ensures fault { IfErr result (IsFaultOf (asked_report (rows_of (found_of matches.now)))) }
{
    let from = spelled_moment(text_of(matches, "FROM"))?;
    let to = spelled_moment(text_of(matches, "TO"))?;
    Ok(CommandLine::Report {
        database: text_of(matches, "DB"),
        from,
        to,
    })
}

fn backup_line_of<'a>(matches: &ArgMatches<'a>) -> Result<CommandLine<'a>, UsageFault<'a>>
    ensures line { IfOk result (λ line. IsLineFor line (asked_backup (rows_of (found_of matches.now)))) }
    ensures fault { IfErr result (IsFaultOf (asked_backup (rows_of (found_of matches.now)))) }
{
    Ok(CommandLine::Backup {
        database: text_of(matches, "DB"),
        copy: text_of(matches, "COPY"),
    })
}

fn wall_line_of<'a>(matches: &ArgMatches<'a>) -> Result<CommandLine<'a>, UsageFault<'a>>
    ensures line { IfOk result (λ line. IsLineFor line (asked_wall (rows_of (found_of matches.now)))) }
    ensures fault { IfErr result (IsFaultOf (asked_wall (rows_of (found_of matches.now)))) }
{
    Ok(CommandLine::Wall {
        database: text_of(matches, "DB"),
    })
}

fn check_line_of<'a>(matches: &ArgMatches<'a>) -> Result<CommandLine<'a>, UsageFault<'a>>
    ensures line { IfOk result (λ line. IsLineFor line (asked_check (rows_of (found_of matches.now)))) }
    ensures fault { IfErr result (IsFaultOf (asked_check (rows_of (found_of matches.now)))) }
{
    let word = text_of(matches, "KIND");
    let file = text_of(matches, "FILE");
    if word == "script" {
        return Ok(CommandLine::CheckScript { file });
    }
    let kind = spelled_kind(word)?;
    Ok(CommandLine::Check { kind, file })
}

fn octets_line_of<'a>(matches: &ArgMatches<'a>) -> Result<CommandLine<'a>, UsageFault<'a>>
    ensures line { IfOk result (λ line. IsLineFor line (asked_octets (rows_of (found_of matches.now)))) }
    ensures fault { IfErr result (IsFaultOf (asked_octets (rows_of (found_of matches.now)))) }
{
    let layer = spelled_layer(text_of(matches, "LAYER"))?;
    Ok(CommandLine::Octets {
        profile: path_of(matches, "profile"),
        layer,
        octets: text_of(matches, "HEX"),
    })
}

fn serve_line_of<'a>(matches: &ArgMatches<'a>) -> Result<CommandLine<'a>, UsageFault<'a>>
    ensures line { IfOk result (λ line. IsLineFor line (asked_serve (rows_of (found_of matches.now)))) }
    ensures fault { IfErr result (IsFaultOf (asked_serve (rows_of (found_of matches.now)))) }
{
    let config = config_of(matches)?;
    let moment = spelled_opening(text_of(matches, "at"))?;
    Ok(CommandLine::Serve {
        database: text_of(matches, "DB"),
        service: service_of(matches),
        config,
        moment,
    })
}

fn loop_line_of<'a>(matches: &ArgMatches<'a>) -> Result<CommandLine<'a>, UsageFault<'a>>
    ensures line { IfOk result (λ line. IsLineFor line (asked_loop (rows_of (found_of matches.now)))) }
    ensures fault { IfErr result (IsFaultOf (asked_loop (rows_of (found_of matches.now)))) }
{
    let config = config_of(matches)?;
    let moment = spelled_opening(text_of(matches, "at"))?;
    Ok(CommandLine::Loop {
        database: text_of(matches, "DB"),
        script: text_of(matches, "SCRIPT"),
        config,
        moment,
        numbers: numbers_of(matches),
        telling: telling_of(matches),
    })
}
