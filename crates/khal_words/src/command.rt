//! The program's command line, as clap takes it.
ghost use Rattle.std.specs.Prelude.{◌≡◌, IfOk, false, map};
ghost use Rattle.std.specs.List.{AllByRecursion};
ghost use Rattle.clap.specs.Words.{App, app_of, kind_of, new_app, rule_of, with_subcommand};
ghost use Rattle.clap.specs.declared.builder.command.Command.TheViews.{out-Command};
ghost use Rattle.clap.specs.declared.error.kind.ErrorKind.TheVariants.{ArgumentConflict};
ghost use Rattle.khal_words.specs.Commands as spec;

use crate::field::LIST_EXAMPLES;
use clap::error::ErrorKind;
use clap::{Arg, ArgAction, Command, Error};
use std::alloc::{AllocError, Global};

/// The text below the help of the program.
const EXAMPLES: &str = "Without a time zone all times, and `today`, are in UTC.

Examples:
  khal-list list ~/calendars --zone-file /etc/localtime
      today and tomorrow, by the clock of this machine
  khal-list list ~/calendars 2024-01-01 7d
      a week, in UTC
  khal-list at ~/calendars 2024-01-03T14:00
      what is on at a moment, in UTC

`khal-list list --help` lists the options, and `man khal-list` says more.";

/// The text below the help of `at`.
const AT_EXAMPLES: &str = "Without a time zone all times are in UTC.

Examples:
  khal-list at ~/calendars 2024-01-03T14:00 --zone-file /etc/localtime
  khal-list at ~/calendars 2024-01-03T14:00 --zone=-05:00";

/// The heading of the options that choose entries.
const WHICH_ENTRIES: &str = "Which entries";

/// The heading of the options for what an entry looks like.
const HOW_WRITTEN: &str = "How they are written";

// What the help says of each argument.
const FOLDER: &str = "The folder whose .ics files are read";

const START: &str = "YYYY-MM-DD or YYYY-MM-DDTHH:MM [default: today]";

const END: &str =
    "A date (that day is listed too), a date-time (up to it),{n}or Nd (N days from START)";

const MOMENT: &str = "YYYY-MM-DDTHH:MM, by the clock of the time zone";

const ZONE: &str =
    "The time zone: UTC, an offset (--zone=-05:00), or a{n}POSIX TZ string, one rule for all years [default: UTC]";

const ZONE_FILE: &str =
    "The time zone by its file: /etc/localtime for one's{n}own, or e.g. /usr/share/zoneinfo/Europe/Berlin";

const ZONES: &str = "Zone files for undefined names: /usr/share/zoneinfo";

const KEEP_GOING: &str = "List the sound events of refused files too";

const LIMIT: &str =
    "At most N entries. If more follow, the last line of{n}standard error is `more: TOKEN`";

const AFTER: &str = "Only the entries after the one with this token";

const NOTSTARTED: &str = "Leave out what began before START";

const EVERY_DAY: &str = "List what lasts several days under each of them";

const FORMAT: &str = "An entry's line [default: {cell} {title}]";

const DAY_FORMAT: &str = "A day's heading [default: {name}, {date}]";

/// What is said of words that name the display zone twice.
const TWO_ZONES: &str = "the argument '--zone <Z>' cannot be used with '--zone-file <FILE>'";

/// The program's command: `list FOLDER [START [END]] [--zone Z | --zone-file FILE] [--zones DIR]
/// [--keep-going] [--limit N] [--after TOKEN] [--notstarted] [--every-day] [--format F] [--day-format F]` and
/// `at FOLDER MOMENT [--zone Z | --zone-file FILE] [--zones DIR] [--keep-going]`. That `--zone` and `--zone-file` do
/// not stand together is checked apart: the entries of a command with conflicts have no definition.
pub(crate) fn command<'a>(alloc: Global) -> Result<Command<'a>, AllocError>
    ensures shape { IfOk result (λ c. app_of c ≡ spec.khal_app) }
    ensures local { IfOk result (λ c. (out-Command c).has_globals ≡ false) }
{
    let bare = bare_command(alloc)?;
    let command = add(bare, list_command(alloc))?;
    add(command, at_command(alloc))
}

/// Adds a subcommand, if there was memory for it.
fn add<'a>(
    command: Command<'a>,
    subcommand: Result<Command<'a>, AllocError>,
) -> Result<Command<'a>, AllocError>
    requires local { (out-Command command).has_globals ≡ false }
    requires local_too { IfOk subcommand (λ c. (out-Command c).has_globals ≡ false) }
    ensures shape { (app : App) → IfOk subcommand.entry (λ c. app_of c ≡ app)
        → IfOk result (λ c. app_of c ≡ with_subcommand (app_of command.entry) app.top) }
    ensures local { IfOk result (λ c. (out-Command c).has_globals ≡ false) }
{
    match subcommand {
        Ok(subcommand) => command.subcommand(subcommand),
        Err(error) => {
            drop(command);
            Err(error)
        }
    }
}

/// The command without its subcommands.
fn bare_command<'a>(alloc: Global) -> Result<Command<'a>, AllocError>
    ensures shape { IfOk result (λ c. app_of c ≡ spec.bare_app) }
    ensures local { IfOk result (λ c. (out-Command c).has_globals ≡ false) }
{
    Command::new(alloc, "khal-list")
        .about("Lists the events of a folder of iCalendar files (RFC 5545)")
        .after_help(EXAMPLES)
        .subcommand_required(true)
        .no_binary_name(true)
        .bin_name("khal-list")
}

/// The subcommand `list`.
fn list_command<'a>(alloc: Global) -> Result<Command<'a>, AllocError>
    ensures shape { IfOk result (λ c. app_of c ≡ spec.list_app) }
    ensures local { IfOk result (λ c. (out-Command c).has_globals ≡ false) }
{
    let args = list_args(alloc)?;
    subcommand(
        alloc,
        "list",
        "Lists the events of a window of time",
        LIST_EXAMPLES,
        args,
    )
}

/// The subcommand `at`.
fn at_command<'a>(alloc: Global) -> Result<Command<'a>, AllocError>
    ensures shape { IfOk result (λ c. app_of c ≡ spec.at_app) }
    ensures local { IfOk result (λ c. (out-Command c).has_globals ≡ false) }
{
    let args = at_args(alloc)?;
    subcommand(
        alloc,
        "at",
        "Lists what is on at a moment",
        AT_EXAMPLES,
        args,
    )
}

/// The refusal of words that name the display zone twice, in the form of clap's own.
pub(crate) fn two_zones(alloc: Global, is_moment: bool) -> Result<Error, AllocError>
    ensures { IfOk result (λ error. kind_of error ≡ ArgumentConflict) }
{
    let mut command = if is_moment {
        at_command(alloc)?.bin_name("khal-list at")?
    } else {
        list_command(alloc)?.bin_name("khal-list list")?
    };
    command.error(ErrorKind::ArgumentConflict, TWO_ZONES)
}

/// A subcommand with these arguments.
fn subcommand<'a>(
    alloc: Global,
    name: &'a str,
    about: &'a str,
    examples: &'a str,
    args: Vec<Arg<'a>>,
) -> Result<Command<'a>, AllocError>
    requires local { AllByRecursion (λ arg. arg.global ≡ false) args.items }
    ensures shape { IfOk result (λ c. app_of c ≡ spec.with_rules (new_app name.entry.now) (map rule_of args.entry.items)) }
    ensures local { IfOk result (λ c. (out-Command c).has_globals ≡ false) }
{
    Command::new(alloc, name)
        .about(about)
        .after_help(examples)
        .args(args)
}

/// The arguments of `list`, in the order of its help.
fn list_args<'a>(alloc: Global) -> Result<Vec<Arg<'a>>, AllocError>
    ensures rules { IfOk result (λ args. map rule_of args.items ≡ spec.list_rules) }
    ensures local { IfOk result (λ args. AllByRecursion (λ arg. arg.global ≡ false) args.items) }
{
    Ok(vec![in alloc;
        folder(alloc),
        argument(alloc, "start", "START", START),
        argument(alloc, "end", "END", END).default_value("2d"),
        option(alloc, "zone", "Z", WHICH_ENTRIES, ZONE),
        option(alloc, "zone-file", "FILE", WHICH_ENTRIES, ZONE_FILE),
        option(alloc, "zones", "DIR", WHICH_ENTRIES, ZONES),
        flag(alloc, "keep-going", WHICH_ENTRIES, KEEP_GOING),
        limit(alloc),
        option(alloc, "after", "TOKEN", WHICH_ENTRIES, AFTER),
        flag(alloc, "notstarted", WHICH_ENTRIES, NOTSTARTED),
        flag(alloc, "every-day", WHICH_ENTRIES, EVERY_DAY),
        option(alloc, "format", "F", HOW_WRITTEN, FORMAT),
        option(alloc, "day-format", "F", HOW_WRITTEN, DAY_FORMAT),
    ]?)
}

/// The arguments of `at`, in the order of its help.
fn at_args<'a>(alloc: Global) -> Result<Vec<Arg<'a>>, AllocError>
    ensures rules { IfOk result (λ args. map rule_of args.items ≡ spec.at_rules) }
    ensures local { IfOk result (λ args. AllByRecursion (λ arg. arg.global ≡ false) args.items) }
{
    Ok(vec![in alloc;
        folder(alloc),
        argument(alloc, "moment", "MOMENT", MOMENT).required(true),
        option(alloc, "zone", "Z", WHICH_ENTRIES, ZONE),
        option(alloc, "zone-file", "FILE", WHICH_ENTRIES, ZONE_FILE),
        option(alloc, "zones", "DIR", WHICH_ENTRIES, ZONES),
        flag(alloc, "keep-going", WHICH_ENTRIES, KEEP_GOING),
    ]?)
}

/// An argument with a value. It stands at a place if it is not made an option.
fn argument<'a>(alloc: Global, id: &'a str, value: &'a str, help: &'a str) -> Arg<'a>
    ensures rule { rule_of result ≡ spec.place id.entry.now }
    ensures local { result.global ≡ false }
{
    Arg::new(alloc, id).value_name(value).help(help)
}

/// An option with a value, below this heading of the help.
fn option<'a>(
    alloc: Global,
    name: &'a str,
    value: &'a str,
    heading: &'a str,
    help: &'a str,
) -> Arg<'a>
    ensures rule { rule_of result ≡ spec.option name.entry.now }
    ensures local { result.global ≡ false }
{
    argument(alloc, name, value, help)
        .long(name)
        .help_heading(heading)
}

/// An option that is given or not.
fn flag<'a>(alloc: Global, name: &'a str, heading: &'a str, help: &'a str) -> Arg<'a>
    ensures rule { rule_of result ≡ spec.flag name.entry.now }
    ensures local { result.global ≡ false }
{
    Arg::new(alloc, name)
        .long(name)
        .help_heading(heading)
        .help(help)
        .action(ArgAction::SetTrue)
}

/// The folder that is read.
fn folder<'a>(alloc: Global) -> Arg<'a>
    ensures rule { rule_of result ≡ spec.folder }
    ensures local { result.global ≡ false }
{
    argument(alloc, "folder", "FOLDER", FOLDER).required(true)
}

/// `--limit`: a number from 1 on.
fn limit<'a>(alloc: Global) -> Arg<'a>
    ensures rule { rule_of result ≡ spec.limit }
    ensures local { result.global ≡ false }
{
    let numbers = clap::value_parser!(u32).range(1..);
    option(alloc, "limit", "N", WHICH_ENTRIES, LIMIT).value_parser(numbers)
}
