//! Words of the command line, each with what it asks for.

use crate::rows::check_told;
use crate::told_words::{Telling, check, error_text};
use gu_words::{FirmCommand, firm_named};
use std::alloc::{AllocError, Global};
use trials::columns;

/// Words that ask for a task.
const TASKS: &str = "\
giveup -> capture
giveup check -> check
giveup replay house.csv -> replay house.csv
giveup fix E1 house.csv -> fix E1 house.csv, no script
giveup fix E1 house.csv --script day -> fix E1 house.csv, day
giveup serve house.csv 9878 -> serve house.csv 9878, no script, no journal, 8 in all, no console, no watch, 16
giveup serve house.csv 1 -> serve house.csv 1, no script, no journal, 8 in all, no console, no watch, 16
giveup serve house.csv 65535 -> serve house.csv 65535, no script, no journal, 8 in all, no console, no watch, 16
giveup serve house.csv 09878 -> serve house.csv 9878, no script, no journal, 8 in all, no console, no watch, 16
giveup serve house.csv 9878 --script day -> serve house.csv 9878, day, no journal, 8 in all, no console, no watch, 16
giveup serve house.csv 9878 --journal log -> serve house.csv 9878, no script, log, 8 in all, no console, no watch, 16
giveup serve house.csv 9878 --journal=log --script day -> serve house.csv 9878, day, log, 8 in all, no console, no watch, 16
giveup serve house.csv 9878 --journal log --resume -> serve house.csv 9878, no script, log resumed, 8 in all, no console, no watch, 16
giveup serve house.csv 9878 --journal etcd://localhost:2379/DAY --standby -> serve house.csv 9878, no script, etcd://localhost:2379/DAY followed, 8 in all, no console, no watch, 16
giveup serve house.csv 9878 --standby --resume --journal etcd://localhost:2379/DAY --script day -> serve house.csv 9878, day, etcd://localhost:2379/DAY followed, 8 in all, no console, no watch, 16
giveup serve --resume house.csv 9878 --script day --journal=log -> serve house.csv 9878, day, log resumed, 8 in all, no console, no watch, 16
giveup serve house.csv 9878 --connections 1 -> serve house.csv 9878, no script, no journal, 1 in all, no console, no watch, 16
giveup serve house.csv 9878 --connections 32 -> serve house.csv 9878, no script, no journal, 32 in all, no console, no watch, 16
giveup serve house.csv 9878 --every 0 -> serve house.csv 9878, no script, no journal, 8 in all, no console, no watch, 0
giveup serve house.csv 9878 --every=1000 -> serve house.csv 9878, no script, no journal, 8 in all, no console, no watch, 1000
giveup serve --every 1 --connections=2 --script day house.csv 9878 -> serve house.csv 9878, day, no journal, 2 in all, no console, no watch, 1
giveup serve house.csv 9878 --console desk -> serve house.csv 9878, no script, no journal, 8 in all, desk, no watch, 16
giveup serve house.csv 9878 --console=desk --watch=glass -> serve house.csv 9878, no script, no journal, 8 in all, desk, glass, 16
giveup serve house.csv 9878 --watch glass -> serve house.csv 9878, no script, no journal, 8 in all, no console, glass, 16
giveup serve house.csv 9878 --until-closed --console desk -> serve house.csv 9878, no script, no journal, 8 at once, desk, no watch, 16
giveup serve --console desk --until-closed --watch glass house.csv 9878 -> serve house.csv 9878, no script, no journal, 8 at once, desk, glass, 16
giveup serve house.csv 9878 --until-closed --console desk --connections 1 -> serve house.csv 9878, no script, no journal, 1 at once, desk, no watch, 16
giveup serve house.csv 9878 --until-closed --console desk --connections 33 -> serve house.csv 9878, no script, no journal, 33 at once, desk, no watch, 16
giveup serve house.csv 9878 --connections 1024 --until-closed --console desk -> serve house.csv 9878, no script, no journal, 1024 at once, desk, no watch, 16
giveup serve house.csv 9878 --until-closed --console desk --workers 1 -> serve house.csv 9878, no script, no journal, 8 at once, desk, workers 1, no watch, 16
giveup serve house.csv 9878 --until-closed --console desk --workers=60 --journal log -> serve house.csv 9878, no script, log, 8 at once, desk, workers 60, no watch, 16
giveup serve --console desk -- --until-closed 9878 -> serve --until-closed 9878, no script, no journal, 8 in all, desk, no watch, 16
giveup serve house.csv - --doors hall -> serve house.csv no port, no script, no journal, 8 in all, no console, no watch, 16, doors hall
giveup serve --doors=hall house.csv - -> serve house.csv no port, no script, no journal, 8 in all, no console, no watch, 16, doors hall
giveup serve house.csv - --doors hall --secrets keys -> serve house.csv no port, no script, no journal, 8 in all, no console, no watch, 16, doors hall, secrets keys
giveup serve house.csv 9878 --secrets keys -> serve house.csv 9878, no script, no journal, 8 in all, no console, no watch, 16, secrets keys
giveup serve house.csv 9878 --doors hall --secrets=keys -> serve house.csv 9878, no script, no journal, 8 in all, no console, no watch, 16, doors hall, secrets keys
giveup serve house.csv 65535 --secrets keys --doors hall --until-closed --console hall -> serve house.csv 65535, no script, no journal, 8 at once, hall, no watch, 16, doors hall, secrets keys
giveup serve house.csv 9878 --log -> serve house.csv 9878, no script, no journal, 8 in all, no console, no watch, 16, log
giveup serve --log house.csv 9878 --secrets keys -> serve house.csv 9878, no script, no journal, 8 in all, no console, no watch, 16, secrets keys, log
giveup serve house.csv 9878 --share 100 -> serve house.csv 9878, no script, no journal, 8 in all, no console, no watch, 16
giveup serve house.csv 9878 --share 1 -> serve house.csv 9878, no script, no journal, 8 in all, no console, no watch, 16, share 1
giveup serve --share=99 house.csv 9878 --log --every 4 -> serve house.csv 9878, no script, no journal, 8 in all, no console, no watch, 4, log, share 99
giveup serve house.csv 9878 --console desk --watch keys --secrets keys -> serve house.csv 9878, no script, no journal, 8 in all, desk, keys, 16, secrets keys
giveup serve - 9878 -> serve - 9878, no script, no journal, 8 in all, no console, no watch, 16
giveup serve - - --doors - -> serve - no port, no script, no journal, 8 in all, no console, no watch, 16, doors -
giveup serve house.csv 9878 --script - -> serve house.csv 9878, -, no journal, 8 in all, no console, no watch, 16
giveup serve house.csv 9878 --script - --journal - -> serve house.csv 9878, -, -, 8 in all, no console, no watch, 16
giveup serve house.csv --doors hall -- - -> serve house.csv no port, no script, no journal, 8 in all, no console, no watch, 16, doors hall
giveup serve house.csv +9878 -> serve house.csv 9878, no script, no journal, 8 in all, no console, no watch, 16
giveup replay - -> replay -
giveup fix E1 - --script - -> fix E1 -, -
giveup secret E1 -> secret E1
giveup secret -- -E -> secret -E
giveup tell desk -> tell desk
giveup tell desk CLOSE -> tell desk, CLOSE
giveup tell desk STATUS CLOSE -> tell desk, STATUS, CLOSE
giveup tell desk -- --until-closed -> tell desk, --until-closed
";

/// Words that ask for help.
const HELP: &str = "\
giveup --help -> DisplayHelp 0
giveup -h -> DisplayHelp 0
giveup help -> DisplayHelp 0
giveup help check -> DisplayHelp 0
giveup check --help -> DisplayHelp 0
giveup serve --help -> DisplayHelp 0
giveup serve house.csv 9878 -h -> DisplayHelp 0
giveup help serve -> DisplayHelp 0
giveup serve --until-closed --help -> DisplayHelp 0
giveup serve house.csv - --help -> DisplayHelp 0
giveup secret --help -> DisplayHelp 0
giveup help secret -> DisplayHelp 0
giveup tell --help -> DisplayHelp 0
giveup help tell -> DisplayHelp 0
";

/// Words that ask for nothing that there is.
const OTHERS: &str = "\
giveup claim -> InvalidSubcommand 2
giveup sweep -> InvalidSubcommand 2
giveup help sweep -> InvalidSubcommand 2
giveup --sheet -> UnknownArgument 2
giveup check sheet -> UnknownArgument 2
giveup check check -> UnknownArgument 2
giveup fix E1 house.csv E2 -> UnknownArgument 2
giveup fix E1 house.csv --resume -> UnknownArgument 2
giveup replay house.csv --journal log -> UnknownArgument 2
giveup serve house.csv 9878 --resume -> MissingRequiredArgument 2
giveup serve house.csv 9878 --standby -> MissingRequiredArgument 2
giveup serve house.csv 9878 --journal log --resume=yes -> TooManyValues 2
giveup fix -> MissingRequiredArgument 2
giveup fix E1 -> MissingRequiredArgument 2
giveup replay -> MissingRequiredArgument 2
giveup replay house.csv day -> UnknownArgument 2
giveup serve -> MissingRequiredArgument 2
giveup serve house.csv -> MissingRequiredArgument 2
giveup serve house.csv --script day -> MissingRequiredArgument 2
giveup serve house.csv 0 -> ValueValidation 2
giveup serve house.csv 65536 -> ValueValidation 2
giveup serve house.csv 18446744073709551617 -> ValueValidation 2
giveup serve house.csv x -> ValueValidation 2
giveup serve house.csv  -> ValueValidation 2
giveup serve 9878 house.csv -> ValueValidation 2
giveup serve house.csv -1 -> UnknownArgument 2
giveup serve house.csv 9878 9879 -> UnknownArgument 2
giveup serve house.csv 9878 --connections 0 -> ValueValidation 2
giveup serve house.csv 9878 --connections 33 -> ValueValidation 2
giveup serve house.csv 9878 --connections many -> ValueValidation 2
giveup serve house.csv 9878 --connections -> InvalidValue 2
giveup serve house.csv 9878 --connections 8 --connections 8 -> ArgumentConflict 2
giveup serve house.csv 9878 --every 1001 -> ValueValidation 2
giveup serve house.csv 9878 --every=-1 -> ValueValidation 2
giveup serve house.csv 9878 --every -> InvalidValue 2
giveup serve house.csv 9878 --sweepers 2 -> UnknownArgument 2
giveup serve house.csv 9878 --journal -> InvalidValue 2
giveup serve house.csv 9878 --journal log --journal log -> ArgumentConflict 2
giveup serve house.csv 9878 --day log -> UnknownArgument 2
giveup serve house.csv 9878 --share 0 -> ValueValidation 2
giveup serve house.csv 9878 --share 101 -> ValueValidation 2
giveup serve house.csv 9878 --share half -> ValueValidation 2
giveup serve house.csv 9878 --share -> InvalidValue 2
giveup serve house.csv 9878 --share 50 --share 50 -> ArgumentConflict 2
giveup replay house.csv --share 50 -> UnknownArgument 2
giveup fix E1 house.csv --share 50 -> UnknownArgument 2
giveup replay house.csv --journal log -> UnknownArgument 2
giveup serve house.csv 9878 --console -> InvalidValue 2
giveup serve house.csv 9878 --console desk --console desk -> ArgumentConflict 2
giveup serve house.csv 9878 --watch -> InvalidValue 2
giveup serve house.csv 9878 --console desk --watch desk -> ArgumentConflict 2
giveup serve house.csv 9878 --until-closed --console desk --watch desk -> ArgumentConflict 2
giveup serve house.csv 9878 --until-closed -> MissingRequiredArgument 2
giveup serve house.csv 9878 --until-closed --watch glass -> MissingRequiredArgument 2
giveup serve house.csv 9878 --until-closed=yes --console desk -> TooManyValues 2
giveup serve house.csv 9878 --until-closed --until-closed --console desk -> ArgumentConflict 2
giveup serve house.csv 9878 --until-closed --console desk --connections 0 -> ValueValidation 2
giveup serve house.csv 9878 --until-closed --console desk --connections 1025 -> ValueValidation 2
giveup serve house.csv 9878 --console desk --connections 33 -> ValueValidation 2
giveup serve --connections 33 -- --until-closed 9878 -> ValueValidation 2
giveup serve house.csv 9878 --workers 4 -> MissingRequiredArgument 2
giveup serve house.csv 9878 --console desk --workers 4 -> MissingRequiredArgument 2
giveup serve house.csv 9878 --until-closed --console desk --workers 0 -> ValueValidation 2
giveup serve house.csv 9878 --until-closed --console desk --workers 61 -> ValueValidation 2
giveup serve house.csv 9878 --until-closed --console desk --workers -> InvalidValue 2
giveup fix E1 house.csv --console desk -> UnknownArgument 2
giveup replay house.csv --until-closed -> UnknownArgument 2
giveup check --workers 2 -> UnknownArgument 2
giveup serve house.csv - -> MissingRequiredArgument 2
giveup serve house.csv - --secrets keys -> MissingRequiredArgument 2
giveup serve house.csv - --until-closed --console desk -> MissingRequiredArgument 2
giveup serve house.csv 9878 --doors hall -> MissingRequiredArgument 2
giveup serve house.csv 0 --doors hall -> ValueValidation 2
giveup serve house.csv 0 --resume -> ValueValidation 2
giveup serve house.csv 0 --workers 4 -> ValueValidation 2
giveup serve house.csv -- -1 -> ValueValidation 2
giveup serve house.csv -- -- -> ValueValidation 2
giveup serve house.csv 9878- -> ValueValidation 2
giveup serve house.csv --doors hall -> MissingRequiredArgument 2
giveup serve - --doors hall -> MissingRequiredArgument 2
giveup serve house.csv - - --doors hall -> UnknownArgument 2
giveup serve house.csv - --doors -> InvalidValue 2
giveup serve house.csv - --doors hall --doors hall -> ArgumentConflict 2
giveup serve house.csv - --doors hall --resume -> MissingRequiredArgument 2
giveup serve house.csv 9878 --secrets -> InvalidValue 2
giveup serve house.csv 9878 --secrets keys --secrets keys -> ArgumentConflict 2
giveup fix E1 house.csv --secrets keys -> UnknownArgument 2
giveup replay house.csv --doors hall -> UnknownArgument 2
giveup secret -> MissingRequiredArgument 2
giveup secret E1 E2 -> UnknownArgument 2
giveup secret E1 --secrets keys -> UnknownArgument 2
giveup tell -> MissingRequiredArgument 2
giveup tell desk --until-closed -> UnknownArgument 2
";

#[test]
fn words_ask_for_a_task_or_for_help_with_status_0_or_are_refused_with_status_2(rt: HostRuntime) {
    check(&rt, rt.alloc(), Telling::Kind, TASKS);
    check(&rt, rt.alloc(), Telling::Kind, HELP);
    check(&rt, rt.alloc(), Telling::Kind, OTHERS);
}

/// Words that name a firm, and that name none.
const FIRMS: &str = "\
E-1 -> E-1
 -> InvalidValue 2
e1 -> InvalidValue 2
E 1 -> InvalidValue 2
ABCDEFGHIJKLM -> InvalidValue 2
";

/// Returns the firm that a command names, or the outcome if there is none.
fn firm_told(alloc: Global, command: FirmCommand, name: &str) -> Result<String, AllocError> {
    match firm_named(alloc, command, name) {
        Ok(firm) => String::from_str(alloc, str::from_utf8(firm.get()).unwrap_or("?")),
        Err(error) => {
            let told = error_text(alloc, Telling::Kind, &error);
            drop(error);
            told
        }
    }
}

#[test]
fn a_word_that_names_no_firm_is_refused_with_status_2(rt: HostRuntime) {
    for row in FIRMS.lines() {
        let (name, expected) = columns(row);
        for command in [FirmCommand::Fix, FirmCommand::Secret] {
            check_told(&rt, row, firm_told(rt.alloc(), command, name), expected);
        }
    }
}
