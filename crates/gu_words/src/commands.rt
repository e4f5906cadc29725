//! The program's command line.

ghost use Rattle.std.specs.Prelude.{◌≡◌, IfOk, false, true};
ghost use Rattle.clap.specs.Words.{Shape, app_of, rule_of, shape_of, with_subcommand};
ghost use Rattle.gu_words.specs.CommandLine.{check_shape, counted_app, fix_shape, flag_rule, lines_rule, most_connections, needed, number_rule, operated_app, path_rule, program, replay_shape, secret_shape, serve_shape, tell_shape, workers_rule};

use crate::version::VERSION;
use clap::builder::ValueParser;
use clap::{Arg, ArgAction, Command};
use std::alloc::{AllocError, Global};

/// The examples that help shows after the commands.
const EXAMPLES: &str = "\
Examples:
  giveup check < three-agreements.sheet
  giveup fix E1 house.csv < session.fix
  giveup replay house.csv < day.script
  giveup serve house.csv 9878

`giveup COMMAND --help` shows the words of a command.";

/// The example that help shows for `secret`.
const SECRET_EXAMPLE: &str = "\
Example: giveup secret E1 >> firms.secrets

The row alone goes to standard output, so that >> adds it to the file and the secret stays out of it.
Nothing keeps the secret: give it to the firm, which sends it as Password (554).";

/// The help text for a firm.
const FIRM: &str = "The name of the firm";

/// The help text for a reference.
const REFERENCE: &str = "The path of the reference";

/// The help text for a port.
const PORT: &str = "The port on which it listens, 1 to 65535, or - for none";

/// The help text for a script that is run first.
const SCRIPT: &str = "The path of a script that is run first, without output";

/// The help text for a journal.
const JOURNAL: &str =
    "The path of a new or empty file to which the day is written as it goes on, as a script that makes the same entries; an answer leaves once what it shows is on the disk. Or etcd://HOST:PORT[,HOST:PORT..]/NAME: the log NAME of an etcd on this machine, which keeps it on several";

/// The help text for resuming a day.
const RESUME: &str =
    "Goes on with the day in the file or log of --journal, if it has lines: they are played in the place of --script";

/// The help text for a console.
const CONSOLE: &str =
    "The path of a socket that answers operators: lines of a script, STATUS, JOURNAL, CUT, CLOSE and LEAD";

/// The help text for a watch.
const WATCH: &str =
    "The path of a socket that answers those who only look: STATUS, JOURNAL, POSITION, INTEREST and LIMITS";

/// The help text for a server that runs until it is closed.
const UNTIL_CLOSED: &str =
    "Goes on until CLOSE at the console; N, 1 to 1024, is then how many connections there may be at once";

/// The help text for workers.
const WORKERS: &str =
    "How many threads serve the connections with --until-closed, 1 to 60; as many as processors where none is given";

/// The help text for doors.
const DOORS: &str =
    "The path of a folder in which each firm of the reference has a socket of its own, at which that firm alone may log on";

/// The help text for a log.
const LOG: &str =
    "Writes a line on standard error for each thing that happens: who connects, logs on and is refused, what is swept, and so on";

/// The help text for a firm's share.
const SHARE: &str =
    "The percentage that the sessions of one firm may make of the entries for which there is room when it begins, and of a group's open offers, 1 to 100";

/// The help text for a standby.
const STANDBY: &str =
    "Follows the log of --journal and plays it; listens once this desk leads: when the lease of the one that leads has ended, or at LEAD on its console";

/// The help text for secrets.
const SECRETS: &str =
    "The path of a file of secrets: a firm then logs on only with a Password (554) that fits one of its rows";

/// Returns a positional word that a command requires.
fn needed<'a>(alloc: Global, name: &'a str, help: &'a str) -> Arg<'a>
    ensures rule { rule_of result ≡ needed name.entry.now }
    ensures local { result.global ≡ false }
{
    Arg::new(alloc, name).required(true).help(help)
}

/// Returns an option whose value is a path, which help calls `value`.
fn path_option<'a>(alloc: Global, name: &'a str, value: &'a str, help: &'a str) -> Arg<'a>
    ensures rule { rule_of result ≡ path_rule name.entry.now }
    ensures local { result.global ≡ false }
{
    Arg::new(alloc, name)
        .long(name)
        .value_name(value)
        .help(help)
}

/// Returns an option whose value is a number in a range, with a default.
fn number_option<'a>(
    alloc: Global,
    name: &'a str,
    long: &'a str,
    numbers: ValueParser<'a>,
    usual: &'a str,
    help: &'a str,
) -> Arg<'a>
    ensures rule { rule_of result ≡ number_rule name.entry.now long.entry.now numbers.entry usual.entry.now }
    ensures local { result.global ≡ false }
{
    Arg::new(alloc, name)
        .long(long)
        .value_parser(numbers)
        .default_value(usual)
        .help(help)
}

/// Returns an option that takes no value.
fn flag<'a>(alloc: Global, name: &'a str, help: &'a str) -> Arg<'a>
    ensures rule { rule_of result ≡ flag_rule name.entry.now }
    ensures local { result.global ≡ false }
{
    Arg::new(alloc, name)
        .long(name)
        .action(ArgAction::SetTrue)
        .help(help)
}

/// Returns the option for a server's number of workers.
fn workers_option<'a>(alloc: Global) -> Arg<'a>
    ensures rule { rule_of result ≡ workers_rule }
    ensures local { result.global ≡ false }
{
    Arg::new(alloc, "W")
        .long("workers")
        .value_parser(ValueParser::unsigned(1, 60))
        .help(WORKERS)
}

/// Returns the words for lines that are sent to a console.
fn lines_word<'a>(alloc: Global) -> Arg<'a>
    ensures rule { rule_of result ≡ lines_rule }
    ensures local { result.global ≡ false }
{
    Arg::new(alloc, "LINE").num_args(0..).help(
        "A line to send; without any, the lines of standard input are sent",
    )
}

/// Returns the command `check`.
fn check_command<'a>(alloc: Global) -> Command<'a>
    ensures { shape_of result ≡ check_shape }
{
    Command::new(alloc, "check")
        .about(
            "Checks the sweep sheet on standard input: prints OK and its lots, or its first fault",
        )
        .after_help("Example: giveup check < three-agreements.sheet")
}

/// Returns the command `fix`.
pub fn fix_command<'a>(alloc: Global) -> Result<Command<'a>, AllocError>
    ensures { IfOk result (λ command. shape_of command ≡ fix_shape) }
{
    let bare = Command::new(alloc, "fix")
        .about("Serves one session of a firm over standard input and output")
        .after_help("Example: giveup fix E1 house.csv --script open.script < session.fix");
    let firm = needed(alloc, "FIRM", FIRM);
    let of_firm = bare.arg(firm)?;
    let reference = needed(alloc, "REF", REFERENCE);
    let on_reference = of_firm.arg(reference)?;
    let script = path_option(alloc, "script", "FILE", SCRIPT);
    on_reference.arg(script)
}

/// Returns the command `replay`.
fn replay_command<'a>(alloc: Global) -> Result<Command<'a>, AllocError>
    ensures { IfOk result (λ command. shape_of command ≡ replay_shape) }
{
    let bare = Command::new(alloc, "replay")
        .about("Answers the script on standard input, line by line")
        .after_help("Example: giveup replay house.csv < day.script");
    let reference = needed(alloc, "REF", REFERENCE);
    bare.arg(reference)
}

/// Returns how many connections a server may have.
fn most_connections(is_until_closed: bool) -> u64
    ensures { result ≡ most_connections is_until_closed }
{
    if is_until_closed { 1024 } else { 32 }
}

/// Returns the command `serve` with the words of a counted day, for a server that may have this many connections.
fn counted_command<'a>(alloc: Global, most: u64) -> Result<Command<'a>, AllocError>
    ensures { IfOk result (λ command. app_of command ≡ counted_app most) }
{
    let bare = Command::new(alloc, "serve")
        .about(
            "Serves firms at a port or at doors of this machine, with sweepers beside them: prints ENTRIES, SWEPT and AUDIT at the end",
        )
        .after_help(
            "Example: giveup serve house.csv 9878 --script open.script --journal day.script",
        );
    let reference = needed(alloc, "REF", REFERENCE);
    let on_reference = bare.arg(reference)?;
    let port = needed(alloc, "PORT", PORT);
    let on_port = on_reference.arg(port)?;
    let script = path_option(alloc, "script", "FILE", SCRIPT);
    let after_script = on_port.arg(script)?;
    let connections = number_option(
        alloc,
        "N",
        "connections",
        ValueParser::unsigned(1, most),
        "8",
        "How many connections it accepts, 1 to 32",
    );
    let of_firms = after_script.arg(connections)?;
    let every = number_option(
        alloc,
        "K",
        "every",
        ValueParser::unsigned(0, 1000),
        "16",
        "Each connection sends every K-th of its accepted give-ups to the sweepers, 0 to 1000; 0 sends none",
    );
    let with_sweeps = of_firms.arg(every)?;
    let journal = path_option(alloc, "journal", "FILE", JOURNAL);
    let with_journal = with_sweeps.arg(journal)?;
    let resume = flag(alloc, "resume", RESUME);
    with_journal.arg(resume)
}

/// Returns the command `serve` with the words of an operated day too.
fn operated_command<'a>(alloc: Global, is_until_closed: bool) -> Result<Command<'a>, AllocError>
    ensures { IfOk result (λ command. app_of command ≡ operated_app is_until_closed) }
{
    let counted = counted_command(alloc, most_connections(is_until_closed))?;
    let console = path_option(alloc, "console", "PATH", CONSOLE);
    let with_console = counted.arg(console)?;
    let watch = path_option(alloc, "watch", "PATH", WATCH);
    let watched = with_console.arg(watch)?;
    let until_closed = flag(alloc, "until-closed", UNTIL_CLOSED);
    let going_on = watched.arg(until_closed)?;
    let workers = workers_option(alloc);
    going_on.arg(workers)
}

/// Returns the command `serve`, for words that say how the day ends, or don't.
pub fn serve_command<'a>(alloc: Global, is_until_closed: bool) -> Result<Command<'a>, AllocError>
    ensures { IfOk result (λ command. shape_of command ≡ serve_shape is_until_closed) }
{
    let operated = operated_command(alloc, is_until_closed)?;
    let doors = path_option(alloc, "doors", "FOLDER", DOORS);
    let with_doors = operated.arg(doors)?;
    let secrets = path_option(alloc, "secrets", "FILE", SECRETS);
    let with_secrets = with_doors.arg(secrets)?;
    let log = flag(alloc, "log", LOG);
    let logged = with_secrets.arg(log)?;
    let share = number_option(
        alloc,
        "PERCENT",
        "share",
        ValueParser::unsigned(1, 100),
        "100",
        SHARE,
    );
    let shared = logged.arg(share)?;
    let standby = flag(alloc, "standby", STANDBY);
    shared.arg(standby)
}

/// Returns a command that takes only a port, and only as a number.
pub fn port_command<'a>(alloc: Global) -> Result<Command<'a>, AllocError> {
    let port = needed(alloc, "PORT", PORT).value_parser(ValueParser::unsigned(1, 65535));
    Command::new(alloc, "serve").arg(port)
}

/// Returns the command `tell`.
pub fn tell_command<'a>(alloc: Global) -> Result<Command<'a>, AllocError>
    ensures { IfOk result (λ command. shape_of command ≡ tell_shape) }
{
    let bare = Command::new(alloc, "tell")
        .about("Sends lines to the console of a server, and prints its answers")
        .after_help("Example: giveup tell desk.socket 'LIMIT G1 ACCT A1 50' STATUS");
    let path = needed(alloc, "PATH", "The path of the console, or of the watch");
    let at_path = bare.arg(path)?;
    let lines = lines_word(alloc);
    at_path.arg(lines)
}

/// Returns the command `secret`.
pub fn secret_command<'a>(alloc: Global) -> Result<Command<'a>, AllocError>
    ensures { IfOk result (λ command. shape_of command ≡ secret_shape) }
{
    let bare = Command::new(alloc, "secret")
        .about(
            "Draws a secret for a firm: prints its row for the file of secrets, and the secret, once, on standard error",
        )
        .after_help(SECRET_EXAMPLE);
    let firm = needed(alloc, "FIRM", FIRM);
    bare.arg(firm)
}

/// Returns a command with one more subcommand, if that one could be made.
fn with<'a>(
    command: Command<'a>,
    made: Result<Command<'a>, AllocError>,
) -> Result<Command<'a>, AllocError>
    ensures { (shape : Shape) → shape.is_plain ≡ true → IfOk made.entry (λ added. shape_of added ≡ shape)
        → IfOk result (λ with. app_of with ≡ with_subcommand (app_of command.entry) shape) }
{
    match made {
        Ok(added) => command.subcommand(added),
        Err(refused) => {
            drop(command);
            Err(refused)
        }
    }
}

/// Returns the program's command, a subcommand for each task but trade capture.
pub fn program<'a>(alloc: Global, is_until_closed: bool) -> Result<Command<'a>, AllocError>
    ensures { IfOk result (λ command. app_of command ≡ program is_until_closed) }
{
    let bare = Command::new(alloc, "giveup")
        .about(
            "The desk of a clearing house. Without a command: trade capture on the sample, from standard input",
        )
        .version(VERSION)
        .after_help(EXAMPLES);
    let checking = bare.subcommand(check_command(alloc))?;
    let fixing = with(checking, fix_command(alloc))?;
    let replaying = with(fixing, replay_command(alloc))?;
    let serving = with(replaying, serve_command(alloc, is_until_closed))?;
    let telling = with(serving, tell_command(alloc))?;
    with(telling, secret_command(alloc))
}
