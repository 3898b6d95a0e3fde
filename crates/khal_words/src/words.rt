//! The words of the command line, as clap reads them.
ghost use Rattle.std.specs.Prelude.{◌≡◌, ◌↔◌, IfOk, IsTrue, map, option_map, codes};
ghost use Rattle.std.specs.Str.{bytes_eq};
ghost use Rattle.clap.specs.Words.{fault_of, subcommand_rows_of, FailsBy};
ghost use Rattle.khal_words.specs.Commands.{khal_app};
ghost use Rattle.khal_words.specs.Entries as spec;
ghost use Rattle.khal_words.specs.Limits.{IsLimitOf};

use crate::command::{command, two_zones};
use clap::{ArgMatches, Error};
use std::alloc::Global;

/// What clap makes of the words after the program's name, or why they are refused: by clap or, if clap
/// takes them, since they have both `--zone` and `--zone-file`. An error of kind OutOfMemory says that an
/// allocation failed.
pub fn matches<'a>(alloc: Global, words: &'a [&'a str]) -> Result<ArgMatches<'a>, Error>
    ensures entries { IfOk result (λ m. subcommand_rows_of m
        ≡ spec.entries_of (map (λ word. word.now) words.entry.now)) }
    ensures tested { IfOk result (λ m. spec.AreTested (subcommand_rows_of m)) }
    ensures faults { FailsBy (spec.refusal_of (map (λ word. word.now) words.entry.now)) result }
{
    match parsed(alloc, words) {
        Ok(found) => free_of_conflict(alloc, found),
        Err(error) => Err(error),
    }
}

/// What clap makes of words, unless two options are given that may not stand together.
fn free_of_conflict<'a>(alloc: Global, found: ArgMatches<'a>) -> Result<ArgMatches<'a>, Error>
    ensures same { IfOk result (λ m. m ≡ found.entry) }
    ensures faults { FailsBy (spec.conflict_of (subcommand_rows_of found.entry)) result }
{
    if has_two_zones(&found) {
        return Err(two_zones(alloc, found.subcommand_name() == Some("at"))?);
    }
    Ok(found)
}

/// The same without a look at which options stand together.
fn parsed<'a>(alloc: Global, words: &'a [&'a str]) -> Result<ArgMatches<'a>, Error>
    ensures entries { IfOk result (λ m. subcommand_rows_of m
        ≡ spec.entries_of (map (λ word. word.now) words.entry.now)) }
    ensures tested { IfOk result (λ m. spec.AreTested (subcommand_rows_of m)) }
    ensures faults { FailsBy (fault_of khal_app (map (λ word. word.now) words.entry.now)) result }
{
    command(alloc)?.try_get_matches_from(words)
}

/// Whether both options are given that name the display zone.
fn has_two_zones(found: &ArgMatches<'_>) -> bool
    ensures { result ≡ spec.has_two_zones (subcommand_rows_of found.now) }
{
    entry(found, "zone").is_some() && zone_file(found).is_some()
}

/// The text of the entry with this name, if the subcommand has one.
pub fn entry<'a>(found: &ArgMatches<'a>, id: &str) -> Option<&'a str>
    ensures { option_map (λ text. text.now) result
        ≡ spec.entry id.now (subcommand_rows_of found.now) }
{
    let (_, entries) = found.subcommand()?;
    entries.get_str(id)
}

/// The text of the entry with this name, or the empty text if there is none.
pub fn text<'a>(found: &ArgMatches<'a>, id: &str) -> &'a str
    ensures { result.now ≡ spec.entries_text id.now (subcommand_rows_of found.now) }
{
    text_or(found, id, "")
}

/// The text of that entry, or `default` if there is none.
pub(crate) fn text_or<'a>(found: &ArgMatches<'a>, id: &str, default: &'a str) -> &'a str
    ensures { result.now ≡ spec.text_or id.now default.entry.now (subcommand_rows_of found.now) }
{
    entry(found, id).unwrap_or(default)
}

/// The text of `--zone`, or UTC if it is not given.
pub fn zone_text<'a>(found: &ArgMatches<'a>) -> &'a str
    ensures { result.now ≡ spec.zone_text (subcommand_rows_of found.now) }
{
    text_or(found, "zone", "UTC")
}

/// The path of `--zone-file`, if it is given.
pub fn zone_file<'a>(found: &ArgMatches<'a>) -> Option<&'a str>
    ensures { option_map (λ text. text.now) result ≡ spec.zone_file_text (subcommand_rows_of found.now) }
{
    entry(found, "zone-file")
}

/// Whether the flag with this name is given.
pub fn is_given(found: &ArgMatches<'_>, id: &str) -> bool
    requires { spec.IsFlag id.now (subcommand_rows_of found.now) }
    ensures { IsTrue result ↔ (spec.entries_text id.now (subcommand_rows_of found.now) ≡ codes "true") }
{
    match found.subcommand() {
        Some((_, entries)) => entries.get_flag(id),
        None => false,
    }
}

/// The number of `--limit`, from 1 on, if it is given.
pub fn limit_of<'a>(found: &ArgMatches<'a>) -> Option<u32>
    requires { spec.HasLimit (subcommand_rows_of found.now) }
    ensures { IsLimitOf (spec.limit_text (subcommand_rows_of found.now)) result }
{
    entry(found, "limit")?.parse::<u32>().ok()
}
