//! The program's commands, and the matches of words that name one.
ghost use Rattle.std.specs.Prelude.{◌≡◌, [], IfErr, IfOk, OnOk, map, true};
ghost use Rattle.clap.specs.Words.{HasKind, fault_of, kind_of, new_app, subcommand_of, subcommand_rows_of, takes, with_rule, with_subcommand};
ghost use Rattle.tc_words.specs.Commands.{backup_app, bare_app, bare_serve_app, wall_app, check_app, desk_app, loop_app, octets_app, report_app, run_app, script_apps, send_app, serve_app};
ghost use Rattle.tc_words.specs.Commands.{with_backup, with_wall, with_check, with_database, with_desk, with_ends, with_http, with_link, with_numbers, with_octets, with_told};

use crate::arguments::{
    Argument, channel_arg, checked_arg, copy_arg, count_arg, database_arg, echo_arg,
    end_when_stopped_arg, file_arg, first_arg, from_arg, hex_arg, host_arg, kind_arg, layer_arg,
    lines_arg, moment_arg, only_new_arg, port_arg, profile_arg, read_file_arg, ring_arg,
    script_arg, to_arg, until_eof_arg, verbose_arg, window_arg,
};
use clap::error::ErrorKind;
use clap::{ArgMatches, Command};
use std::alloc::{AllocError, Global};
use std::marker::Model;

/// The version of the program, which `--version` prints after its name.
const VERSION: &str = "0.1.0";

/// How the program is called: without a word it runs the script that the standard input has.
const USAGE: &str = "tcdesk [COMMAND]";

/// What stands below the help of the program.
const EXAMPLES: &str = "\
Without a command: tcdesk run -

Examples:
  tcdesk run examples/first-pass.tc            a pass, on a desk in memory
  tcdesk run --db desk.db examples/monday.tc   a shift, on a desk that a file keeps
  tcdesk report desk.db 0 86400                what happened in it
  tcdesk backup desk.db copy.db                a copy of it, also while it runs
  tcdesk check script examples/monday.tc       what is wrong with its lines
  tcdesk check stack examples/stack.csv        whether a stack can be loaded
  tcdesk octets frame 30010c070000416f         what these octets mean";

/// A command with those below it, each of whose arguments is its own alone. A contract sees it as what it takes.
#[derive(Drop)]
struct Tree<'a> {
    command: Command<'a>,
}

impl<'a> Model for Tree<'a> {
    ghost use Rattle.std.specs.Prelude.{◌≡◌, false};
    ghost use Rattle.clap.specs.Words.{App, app_of};
    ghost use Rattle.clap.specs.declared.builder.command.Command.TheViews.{out-Command};

    ghost Value = { App };

    ghost view = { λ tree. app_of tree.command };

    ghost invariant = { λ tree. (out-Command tree.command).has_globals ≡ false };
}

impl<'a> Tree<'a> {
    /// A command of this name, which takes nothing yet.
    fn new(alloc: Global, name: &'a str, about: &'a str) -> Tree<'a>
        ensures { result ≡ new_app name.entry.now }
    {
        Tree {
            command: Command::new(alloc, name).about(about),
        }
    }

    /// With one argument more.
    fn arg(self, argument: Argument<'a>) -> Result<Tree<'a>, AllocError>
        ensures { IfOk result (λ more. more ≡ with_rule self.entry argument.entry) }
    {
        let command = self.command.arg(argument.arg)?;
        Ok(Tree { command })
    }

    /// With one command more below it.
    fn subcommand(self, below: Tree<'a>) -> Result<Tree<'a>, AllocError>
        ensures { IfOk result (λ more. more ≡ with_subcommand self.entry below.entry.top) }
    {
        let command = self.command.subcommand(below.command)?;
        Ok(Tree { command })
    }
}

/// The matches of a command line's words, of which the first is the program's name.
pub(crate) fn matches<'a>(
    alloc: Global,
    words: &'a [&'a str],
) -> Result<ArgMatches<'a>, clap::Error>
    ensures rows { IfOk result (λ found. subcommand_rows_of found
        ≡ subcommand_of desk_app (map (λ word. word.now) words.entry.now)) }
    ensures taken { OnOk result (fault_of desk_app (map (λ word. word.now) words.entry.now) ≡ []) }
    ensures fault { IfErr result (λ error.
        takes desk_app (map (λ word. word.now) words.entry.now) ≡ true
        → kind_of error ≡ ErrorKind.OutOfMemory) }
    // an error is want of memory, or a fault that `clap` finds in the words
    ensures kind { IfErr result (HasKind (fault_of desk_app (map (λ word. word.now) words.entry.now))) }
{
    let desk = desk_command(alloc)?;
    desk.command.try_get_matches_from(words)
}

/// The program, with its commands.
fn desk_command<'a>(alloc: Global) -> Result<Tree<'a>, AllocError>
    ensures { IfOk result (λ desk. desk ≡ desk_app) }
{
    let commands = with_backup(alloc, script_commands(alloc)?)?;
    let commands = with_wall(alloc, commands)?;
    let commands = with_octets(alloc, with_check(alloc, commands)?)?;
    with_http(alloc, commands)
}

/// The program with the commands that run a script, or print what one came to.
fn script_commands<'a>(alloc: Global) -> Result<Tree<'a>, AllocError>
    ensures { IfOk result (λ desk. desk ≡ script_apps) }
{
    bare_command(alloc)?
        .subcommand(run_command(alloc)?)?
        .subcommand(report_command(alloc)?)
}

/// With the command that copies a desk.
fn with_backup<'a>(alloc: Global, command: Tree<'a>) -> Result<Tree<'a>, AllocError>
    ensures { IfOk result (λ more. more ≡ with_backup command.entry) }
{
    command.subcommand(backup_command(alloc)?)
}

/// With the command that prints the wall of one.
fn with_wall<'a>(alloc: Global, command: Tree<'a>) -> Result<Tree<'a>, AllocError>
    ensures { IfOk result (λ more. more ≡ with_wall command.entry) }
{
    command.subcommand(wall_command(alloc)?)
}

/// With the command that checks a file.
fn with_check<'a>(alloc: Global, command: Tree<'a>) -> Result<Tree<'a>, AllocError>
    ensures { IfOk result (λ more. more ≡ with_check command.entry) }
{
    command.subcommand(check_command(alloc)?)
}

/// With the command that says what octets mean.
fn with_octets<'a>(alloc: Global, command: Tree<'a>) -> Result<Tree<'a>, AllocError>
    ensures { IfOk result (λ more. more ≡ with_octets command.entry) }
{
    command.subcommand(octets_command(alloc)?)
}

/// With the commands that serve a desk over HTTP.
fn with_http<'a>(alloc: Global, command: Tree<'a>) -> Result<Tree<'a>, AllocError>
    ensures { IfOk result (λ more. more ≡ with_http command.entry) }
{
    command
        .subcommand(serve_command(alloc)?)?
        .subcommand(loop_command(alloc)?)
}

fn bare_command<'a>(alloc: Global) -> Result<Tree<'a>, AllocError>
    ensures { IfOk result (λ bare. bare ≡ bare_app) }
{
    let command = Command::new(alloc, "tcdesk")
        .about("A spacecraft telecommand desk")
        .override_usage(USAGE)
        .version(VERSION)
        .after_help(EXAMPLES)
        .subcommand_required(true)
        .bin_name("tcdesk")?;
    Ok(Tree { command })
}

fn run_command<'a>(alloc: Global) -> Result<Tree<'a>, AllocError>
    ensures { IfOk result (λ run. run ≡ run_app) }
{
    let run = Tree::new(
        alloc,
        "run",
        "Run the lines of a script on a desk: a new one, or one that is kept in a file",
    )
    .arg(script_arg(alloc))?;
    with_told(alloc, with_database(alloc, with_link(alloc, run)?)?)
}

/// With the options of a desk that may be kept in a file.
fn with_database<'a>(alloc: Global, command: Tree<'a>) -> Result<Tree<'a>, AllocError>
    ensures { IfOk result (λ more. more ≡ with_database command.entry) }
{
    command.arg(database_arg(alloc))?.arg(moment_arg(alloc))
}

/// With the options of what is told of the lines of a script.
fn with_told<'a>(alloc: Global, command: Tree<'a>) -> Result<Tree<'a>, AllocError>
    ensures { IfOk result (λ more. more ≡ with_told command.entry) }
{
    command.arg(echo_arg(alloc))?.arg(lines_arg(alloc))
}

/// With the options of a desk, wherever it is kept.
fn with_link<'a>(alloc: Global, command: Tree<'a>) -> Result<Tree<'a>, AllocError>
    ensures { IfOk result (λ more. more ≡ with_link command.entry) }
{
    command
        .arg(window_arg(alloc))?
        .arg(channel_arg(alloc))?
        .arg(ring_arg(alloc))
}

/// With the options of a desk that is kept in a file.
fn with_desk<'a>(alloc: Global, command: Tree<'a>) -> Result<Tree<'a>, AllocError>
    ensures { IfOk result (λ more. more ≡ with_desk command.entry) }
{
    with_link(alloc, command)?.arg(moment_arg(alloc))
}

fn report_command<'a>(alloc: Global) -> Result<Tree<'a>, AllocError>
    ensures { IfOk result (λ report. report ≡ report_app) }
{
    Tree::new(
        alloc,
        "report",
        "Print the shift report of a desk that is kept in a file",
    )
    .arg(read_file_arg(alloc))?
    .arg(from_arg(alloc))?
    .arg(to_arg(alloc))
}

fn backup_command<'a>(alloc: Global) -> Result<Tree<'a>, AllocError>
    ensures { IfOk result (λ backup. backup ≡ backup_app) }
{
    Tree::new(
        alloc,
        "backup",
        "Copy a desk that is kept in a file to another file, also while the desk runs",
    )
    .arg(read_file_arg(alloc))?
    .arg(copy_arg(alloc))
}

fn wall_command<'a>(alloc: Global) -> Result<Tree<'a>, AllocError>
    ensures { IfOk result (λ wall. wall ≡ wall_app) }
{
    Tree::new(
        alloc,
        "board",
        "Print the board of a desk that is kept in a file, as a page of HTML",
    )
    .arg(read_file_arg(alloc))
}

fn check_command<'a>(alloc: Global) -> Result<Tree<'a>, AllocError>
    ensures { IfOk result (λ check. check ≡ check_app) }
{
    Tree::new(
        alloc,
        "check",
        "Say what is wrong with a script, or with the file of a stack or of a procedure",
    )
    .arg(kind_arg(alloc))?
    .arg(checked_arg(alloc))
}

fn octets_command<'a>(alloc: Global) -> Result<Tree<'a>, AllocError>
    ensures { IfOk result (λ octets. octets ≡ octets_app) }
{
    Tree::new(
        alloc,
        "octets",
        "Say what octets of the link mean, field by field, or what is wrong and where",
    )
    .arg(profile_arg(alloc))?
    .arg(layer_arg(alloc))?
    .arg(hex_arg(alloc))
}

fn serve_command<'a>(alloc: Global) -> Result<Tree<'a>, AllocError>
    ensures { IfOk result (λ serve. serve ≡ serve_app) }
{
    with_ends(alloc, with_desk(alloc, bare_serve_command(alloc)?)?)
}

/// With the options of a server.
fn with_ends<'a>(alloc: Global, command: Tree<'a>) -> Result<Tree<'a>, AllocError>
    ensures { IfOk result (λ more. more ≡ with_ends command.entry) }
{
    command
        .arg(host_arg(alloc))?
        .arg(until_eof_arg(alloc))?
        .arg(end_when_stopped_arg(alloc))?
        .arg(verbose_arg(alloc))
}

fn bare_serve_command<'a>(alloc: Global) -> Result<Tree<'a>, AllocError>
    ensures { IfOk result (λ serve. serve ≡ bare_serve_app) }
{
    Tree::new(
        alloc,
        "serve",
        "Serve a desk that is kept in a file over HTTP, on 127.0.0.1 alone",
    )
    .arg(file_arg(alloc))?
    .arg(port_arg(alloc))?
    .arg(count_arg(alloc))
}

fn loop_command<'a>(alloc: Global) -> Result<Tree<'a>, AllocError>
    ensures { IfOk result (λ sending. sending ≡ loop_app) }
{
    with_told(alloc, send_command(alloc)?)
}

fn send_command<'a>(alloc: Global) -> Result<Tree<'a>, AllocError>
    ensures { IfOk result (λ sending. sending ≡ send_app) }
{
    let sending = Tree::new(
        alloc,
        "loop",
        "Send the lines of a script over HTTP to a desk that is kept in a file",
    )
    .arg(file_arg(alloc))?
    .arg(script_arg(alloc))?;
    with_numbers(alloc, with_desk(alloc, sending)?)
}

/// With the options of the numbers of the lines that are sent.
fn with_numbers<'a>(alloc: Global, command: Tree<'a>) -> Result<Tree<'a>, AllocError>
    ensures { IfOk result (λ more. more ≡ with_numbers command.entry) }
{
    command.arg(first_arg(alloc))?.arg(only_new_arg(alloc))
}
