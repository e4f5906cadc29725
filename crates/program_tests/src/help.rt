//! What help and refusals say.

use crate::rows::check_told;
use crate::told_words::{Telling, check, told};

/// The message about a word that is no command.
const NO_COMMAND: &str =
    "error: unrecognized subcommand 'claim'\n\nUsage: giveup [COMMAND]\n\nFor more information, try '--help'.\n";

/// The message about a word that is almost a command.
const ALMOST: &str =
    "error: unrecognized subcommand 'sweep'\n\n  tip: some similar subcommands exist: 'secret', 'serve'\n\nUsage: giveup [COMMAND]\n\nFor more information, try '--help'.\n";

/// The message about a word that `check` doesn't take.
const UNEXPECTED: &str =
    "error: unexpected argument 'sheet' found\n\nUsage: giveup check\n\nFor more information, try '--help'.\n";

/// The message about a number that is no port.
const NO_PORT: &str =
    "error: invalid value '0' for '<PORT>': 0 is not in 1..=65535\n\nFor more information, try '--help'.\n";

/// The message about more connections than there may be.
const MANY_CONNECTIONS: &str =
    "error: invalid value '33' for '--connections <N>': 33 is not in 1..=32\n\nFor more information, try '--help'.\n";

/// What help says.
const HELP_TEXT: &str =
    "The desk of a clearing house. Without a command: trade capture on the sample, from standard input\n\nUsage: giveup [COMMAND]\n\nCommands:\n  check   Checks the sweep sheet on standard input: prints OK and its lots, or its first fault\n  fix     Serves one session of a firm over standard input and output\n  replay  Answers the script on standard input, line by line\n  serve   Serves firms at a port or at doors of this machine, with sweepers beside them: prints ENTRIES, SWEPT and AUDIT at the end\n  tell    Sends lines to the console of a server, and prints its answers\n  secret  Draws a secret for a firm: prints its row for the file of secrets, and the secret, once, on standard error\n  help    Print this message or the help of the given subcommand(s)\n\nOptions:\n  -h, --help     Print help\n  -V, --version  Print version\n\nExamples:\n  giveup check < three-agreements.sheet\n  giveup fix E1 house.csv < session.fix\n  giveup replay house.csv < day.script\n  giveup serve house.csv 9878\n\n`giveup COMMAND --help` shows the words of a command.\n";

/// What help says of a server.
const SERVE_TEXT: &str =
    "Serves firms at a port or at doors of this machine, with sweepers beside them: prints ENTRIES, SWEPT and AUDIT at the end\n\nUsage: giveup serve [OPTIONS] <REF> <PORT>\n\nArguments:\n  <REF>   The path of the reference\n  <PORT>  The port on which it listens, 1 to 65535, or - for none\n\nOptions:\n      --script <FILE>    The path of a script that is run first, without output\n      --connections <N>  How many connections it accepts, 1 to 32 [default: 8]\n      --every <K>        Each connection sends every K-th of its accepted give-ups to the sweepers, 0 to 1000; 0 sends none [default: 16]\n      --journal <FILE>   The path of a new or empty file to which the day is written as it goes on, as a script that makes the same entries; an answer leaves once what it shows is on the disk. Or etcd://HOST:PORT[,HOST:PORT..]/NAME: the log NAME of an etcd on this machine, which keeps it on several\n      --resume           Goes on with the day in the file or log of --journal, if it has lines: they are played in the place of --script\n      --console <PATH>   The path of a socket that answers operators: lines of a script, STATUS, JOURNAL, CUT, CLOSE and LEAD\n      --watch <PATH>     The path of a socket that answers those who only look: STATUS, JOURNAL, POSITION, INTEREST and LIMITS\n      --until-closed     Goes on until CLOSE at the console; N, 1 to 1024, is then how many connections there may be at once\n      --workers <W>      How many threads serve the connections with --until-closed, 1 to 60; as many as processors where none is given\n      --doors <FOLDER>   The path of a folder in which each firm of the reference has a socket of its own, at which that firm alone may log on\n      --secrets <FILE>   The path of a file of secrets: a firm then logs on only with a Password (554) that fits one of its rows\n      --log              Writes a line on standard error for each thing that happens: who connects, logs on and is refused, what is swept, and so on\n      --share <PERCENT>  The percentage that the sessions of one firm may make of the entries for which there is room when it begins, and of a group's open offers, 1 to 100 [default: 100]\n      --standby          Follows the log of --journal and plays it; listens once this desk leads: when the lease of the one that leads has ended, or at LEAD on its console\n  -h, --help             Print help\n\nExample: giveup serve house.csv 9878 --script open.script --journal day.script\n";

/// What help says of a session.
const FIX_TEXT: &str =
    "Serves one session of a firm over standard input and output\n\nUsage: giveup fix [OPTIONS] <FIRM> <REF>\n\nArguments:\n  <FIRM>  The name of the firm\n  <REF>   The path of the reference\n\nOptions:\n      --script <FILE>  The path of a script that is run first, without output\n  -h, --help           Print help\n\nExample: giveup fix E1 house.csv --script open.script < session.fix\n";

/// What help says of a script.
const REPLAY_TEXT: &str =
    "Answers the script on standard input, line by line\n\nUsage: giveup replay <REF>\n\nArguments:\n  <REF>  The path of the reference\n\nOptions:\n  -h, --help  Print help\n\nExample: giveup replay house.csv < day.script\n";

/// What help says of the check of a sheet.
const CHECK_TEXT: &str =
    "Checks the sweep sheet on standard input: prints OK and its lots, or its first fault\n\nUsage: giveup check\n\nOptions:\n  -h, --help  Print help\n\nExample: giveup check < three-agreements.sheet\n";

/// What help says of lines for a server.
const TELL_TEXT: &str =
    "Sends lines to the console of a server, and prints its answers\n\nUsage: giveup tell <PATH> [LINE]...\n\nArguments:\n  <PATH>     The path of the console, or of the watch\n  [LINE]...  A line to send; without any, the lines of standard input are sent\n\nOptions:\n  -h, --help  Print help\n\nExample: giveup tell desk.socket 'LIMIT G1 ACCT A1 50' STATUS\n";

/// What help says of a secret.
const SECRET_TEXT: &str =
    "Draws a secret for a firm: prints its row for the file of secrets, and the secret, once, on standard error\n\nUsage: giveup secret <FIRM>\n\nArguments:\n  <FIRM>  The name of the firm\n\nOptions:\n  -h, --help  Print help\n\nExample: giveup secret E1 >> firms.secrets\n\nThe row alone goes to standard output, so that >> adds it to the file and the secret stays out of it.\nNothing keeps the secret: give it to the firm, which sends it as Password (554).\n";

/// The message about more connections than there may be at once.
const MANY_AT_ONCE: &str =
    "error: invalid value '1025' for '--connections <N>': 1025 is not in 1..=1024\n\nFor more information, try '--help'.\n";

/// The message about a server that nobody could close.
const NO_CONSOLE: &str =
    "error: the following required arguments were not provided:\n  --console <PATH>\n\nUsage: giveup serve [OPTIONS] <REF> <PORT>\n\nFor more information, try '--help'.\n";

/// The message about a number of workers for a server of a counted day.
const NOT_UNTIL_CLOSED: &str =
    "error: the following required arguments were not provided:\n  --until-closed\n\nUsage: giveup serve [OPTIONS] <REF> <PORT>\n\nFor more information, try '--help'.\n";

/// The message about one path for two sockets.
const ONE_PATH: &str =
    "error: the arguments '--console <PATH>' and '--watch <PATH>' cannot have the same path\n\nUsage: giveup serve [OPTIONS] <REF> <PORT>\n\nFor more information, try '--help'.\n";

/// The message for too many connections if another word has the option's text.
const NOT_CLOSED: &str =
    "error: invalid value for '--connections <N>': without '--until-closed' it is 1 to 32\n\nUsage: giveup serve [OPTIONS] <REF> <PORT>\n\nFor more information, try '--help'.\n";

/// The message about resuming a day without naming a journal.
const NO_JOURNAL: &str =
    "error: the following required arguments were not provided:\n  --journal <FILE>\n\nUsage: giveup serve [OPTIONS] <REF> <PORT>\n\nFor more information, try '--help'.\n";

/// The message about a server that nobody could reach.
const NO_DOORS: &str =
    "error: the following required arguments were not provided:\n  --doors <FOLDER>\n\nUsage: giveup serve [OPTIONS] <REF> <PORT>\n\nFor more information, try '--help'.\n";

/// The message about a port that is open to all, beside doors.
const NO_SECRETS: &str =
    "error: the following required arguments were not provided:\n  --secrets <FILE>\n\nUsage: giveup serve [OPTIONS] <REF> <PORT>\n\nFor more information, try '--help'.\n";

/// The message about a word that begins with `-`, given as a port.
const MINUS_ONE: &str =
    "error: invalid value '-1' for '<PORT>': invalid digit found in string\n\nFor more information, try '--help'.\n";

/// The message about an empty word, given as a port.
const EMPTY_PORT: &str =
    "error: invalid value '' for '<PORT>': cannot parse integer from empty string\n\nFor more information, try '--help'.\n";

/// Words that get a message.
const SAID: &[(&str, &str)] = &[
    ("giveup serve house.csv -", NO_DOORS),
    ("giveup serve house.csv 9878 --doors hall", NO_SECRETS),
    ("giveup serve house.csv 0 --doors hall", NO_PORT),
    ("giveup serve house.csv -- -1", MINUS_ONE),
    ("giveup serve house.csv ", EMPTY_PORT),
    ("giveup secret --help", SECRET_TEXT),
    ("giveup serve house.csv 9878 --resume", NO_JOURNAL),
    ("giveup tell --help", TELL_TEXT),
    (
        "giveup serve house.csv 9878 --until-closed --console desk --connections 1025",
        MANY_AT_ONCE,
    ),
    (
        "giveup serve house.csv 9878 --console desk --connections 33",
        MANY_CONNECTIONS,
    ),
    ("giveup serve house.csv 9878 --until-closed", NO_CONSOLE),
    (
        "giveup serve house.csv 9878 --console desk --workers 4",
        NOT_UNTIL_CLOSED,
    ),
    (
        "giveup serve house.csv 9878 --console desk --watch desk",
        ONE_PATH,
    ),
    (
        "giveup serve house.csv 9878 --until-closed --console desk --watch desk",
        ONE_PATH,
    ),
    (
        "giveup serve --connections 33 -- --until-closed 9878",
        NOT_CLOSED,
    ),
];

#[test]
fn options_that_do_not_go_together_are_refused_as_clap_words_it(rt: HostRuntime) {
    for &(words, expected) in SAID {
        check_told(&rt, words, told(rt.alloc(), Telling::Text, words), expected);
    }
}

#[test]
fn a_refusal_says_why_and_how_to_call_and_help_names_each_task(rt: HostRuntime) {
    let text = Telling::Text;
    let said = told(rt.alloc(), text, "giveup claim");
    check_told(&rt, "a refusal", said, NO_COMMAND);
    let said = told(rt.alloc(), text, "giveup sweep");
    check_told(&rt, "almost a command", said, ALMOST);
    let said = told(rt.alloc(), text, "giveup check sheet");
    check_told(&rt, "an argument", said, UNEXPECTED);
    let said = told(rt.alloc(), text, "giveup serve house.csv 0");
    check_told(&rt, "a port", said, NO_PORT);
    let said = told(
        rt.alloc(),
        text,
        "giveup serve house.csv 9878 --connections 33",
    );
    check_told(&rt, "connections", said, MANY_CONNECTIONS);
    let said = told(rt.alloc(), text, "giveup --help");
    check_told(&rt, "help", said, HELP_TEXT);
    let said = told(rt.alloc(), text, "giveup serve --help");
    check_told(&rt, "help of a server", said, SERVE_TEXT);
    let said = told(rt.alloc(), text, "giveup fix --help");
    check_told(&rt, "help of a session", said, FIX_TEXT);
    let said = told(rt.alloc(), text, "giveup help replay");
    check_told(&rt, "help of a script", said, REPLAY_TEXT);
    let said = told(rt.alloc(), text, "giveup check -h");
    check_told(&rt, "help of a check", said, CHECK_TEXT);
}

/// How many bytes of the texts above are shown on standard output and on standard error.
const SHOWN: &str = "\
giveup --help -> done 1034 0
giveup --version -> done 57 0
giveup claim -> refused 0 101
";

/// Help that can't be written is a fault; a refusal has its status all the same.
const NOT_SHOWN: &str = "\
giveup --help -> write fault 0 0
giveup claim -> refused 0 0
";

#[test]
fn help_is_written_to_standard_output_and_a_refusal_to_standard_error(rt: HostRuntime) {
    check(&rt, rt.alloc(), Telling::Answer, SHOWN);
    check(&rt, rt.alloc(), Telling::AnswerToNobody, NOT_SHOWN);
}
