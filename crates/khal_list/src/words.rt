//! The words of a command line, and the request that they make in a display zone.
ghost use Rattle.std.specs.Prelude.{◌≡◌, ◌↔◌, ◌⊎◌, ◌<◌, length, map, Some, None, Err, IfOk, IfErr};
ghost use Rattle.std.specs.Option.{option_map};
ghost use Rattle.std.specs.String.{string_bytes};
ghost use Rattle.clap.specs.Words.{subcommand_rows_of};
ghost use Rattle.jiff_core.specs.declared.error.TzifFault.{TzifFault};
ghost use Rattle.jiff_tz.specs.TzifReader.{read_tzif};
ghost use Rattle.ics_zone.specs.ZoneFiles.{zone_file};
ghost use Rattle.ics_zone.specs.ZoneSaid.{ZoneSaid, display_said};
ghost use Rattle.khal_words.specs.Entries.{zone_file_text, zones_text, AreTested};
ghost use Rattle.khal_list.specs.RequestOf.{AnswerIn};

use crate::RequestFault;
use crate::every_day::After;
use crate::request::Request;
use crate::window::window_of;
use clap::ArgMatches;
use ics_values::Moment;
use ics_zone::{Display, ZoneFile, ZoneFileFault};
use khal_words::{
    Span, entry, formats_of, is_given, limit_of, matches, text, zone_file, zone_text,
};
use std::alloc::{AllocError, Global};
use std::marker::Model;

/// The words of a command line, as clap takes them. They come before the display zone, since they may name
/// the zone file that gives it, and the request comes after both.
#[derive(Drop)]
pub struct Words<'a> {
    found: ArgMatches<'a>,
}

impl<'a> Model for Words<'a> {
    ghost use Rattle.clap.specs.Words.{subcommand_rows_of};
    ghost use Rattle.khal_words.specs.Entries.{Entries, AreTested};

    ghost Value = { Entries };

    ghost view = { λ a. subcommand_rows_of a.found };

    ghost invariant = { λ a. AreTested (subcommand_rows_of a.found) };
}

impl<'a> Words<'a> {
    ghost use Rattle.khal_list.specs.RequestOf.{WordsOf, zone_named};

    /// What clap makes of the words after the program's name: `list FOLDER [START [END]] [--zone Z |
    /// --zone-file FILE] [--zones DIR] [--keep-going] [--limit N] [--after TOKEN] [--notstarted]
    /// [--every-day] [--format F] [--day-format F]` or `at FOLDER MOMENT [--zone Z | --zone-file FILE]
    /// [--zones DIR] [--keep-going]`.
    /// Usage if clap refuses them, or if they have both `--zone` and `--zone-file`.
    pub fn of(alloc: Global, words: &'a [&'a str]) -> Result<Words<'a>, RequestFault>
        ensures { WordsOf (map (λ word. word.now) words.entry.now) result }
    {
        match matches(alloc, words) {
            Ok(found) => Ok(Words { found }),
            Err(error) => Err(RequestFault::of_clap(alloc, error)),
        }
    }

    /// The path of the zone file that the words name, if they do.
    pub fn zone_file(&self) -> Option<&'a str>
        ensures { option_map (λ path. path.now) result ≡ zone_file_text self.now }
    {
        zone_file(&self.found)
    }

    /// The display zone that `--zone` names, by default UTC. BadZone if it names none, and if the words
    /// name a zone file, which then gives the display zone.
    pub fn zone(&self, alloc: Global) -> Result<Display, RequestFault>
        ensures named { IfOk result (λ zone. Some (display_said zone) ≡ zone_named self.now) }
        ensures refused { (result ≡ Err RequestFault.BadZone) ↔ (zone_named self.now ≡ None) }
        ensures only { IfErr result (λ fault. fault ≡ RequestFault.BadZone) }
    {
        if self.zone_file().is_some() {
            return Err(RequestFault::BadZone);
        }
        match Display::parse(alloc, zone_text(&self.found)) {
            Ok(zone) => Ok(zone),
            Err(_) => Err(RequestFault::BadZone),
        }
    }

    /// The request of the words in a display zone, at a clock.
    ///
    /// START is `YYYY-MM-DD` (its midnight) or `YYYY-MM-DDTHH:MM`, by default today. END is a date
    /// (its day included), a date-time (excluded) or `Nd`, START's local plus 1 to 3,700,000 days;
    /// by default `2d`. MOMENT is a date-time, whose one second is the window. All are locals of the
    /// display zone, from 0001-01-02 to 9800-01-01.
    ///
    /// `--zones` takes the folder of zone files for names that a calendar does not define.
    ///
    /// `--limit` takes a number from 1 to 4,294,967,295, the most entries that are listed, and
    /// `--after` the token of the key after which the listing continues. With `--every-day` an
    /// occurrence is listed under each of its days in the window, and the token is that of an entry
    /// under a day, or that of an entry, which then stands for it under its first day there. `--format`
    /// says how an entry is written, by default `{cell} {title}`, and `--day-format` how a day's
    /// heading is, by default `{name}, {date}`.
    ///
    /// The first of these faults is reported: BadWindow if a text of the window has another form or is out
    /// of its bounds, or the end's instant is not after the start's, BadToken if `--after` is not a token,
    /// BadFormat if `--format` or `--day-format` is not a format.
    pub fn request(
        &self,
        alloc: Global,
        zone: &Display,
        now: Moment,
    ) -> Result<Request, RequestFault>
        ensures { AnswerIn self.now (display_said zone.now) now result }
    {
        request_of(alloc, &self.found, zone, now)
    }
}

/// The display zone of a zone file: the one that jiff reads from its bytes (RFC 9636). BadZone if there are
/// more than 1,048,576, or if jiff refuses them for another cause than want of memory, else Memory if an
/// allocation fails.
pub fn zone_of_file(alloc: Global, bytes: &[u8]) -> Result<Display, RequestFault>
    ensures file { IfOk result (λ zone. Some (display_said zone) ≡ option_map ZoneSaid.ByFile (zone_file bytes.now)) }
    ensures bad { (result ≡ Err RequestFault.BadZone) → zone_file bytes.now ≡ None }
    ensures long { 1_048_576 < length bytes.now → result ≡ Err RequestFault.BadZone }
    ensures broken { (fault : TzifFault) → read_tzif bytes.now ≡ Err fault → result ≡ Err RequestFault.BadZone }
    ensures only { IfErr result (λ fault. (fault ≡ RequestFault.BadZone) ⊎ (fault ≡ RequestFault.Memory)) }
{
    match ZoneFile::read(alloc, bytes) {
        Ok(file) => Ok(Display::of_file(&file)?),
        Err(ZoneFileFault::BadZoneFile) => Err(RequestFault::BadZone),
        Err(ZoneFileFault::Memory) => Err(RequestFault::Memory),
    }
}

/// The request of clap's entries, which clap has tested, in a display zone.
fn request_of(
    alloc: Global,
    found: &ArgMatches<'_>,
    zone: &Display,
    now: Moment,
) -> Result<Request, RequestFault>
    requires { AreTested (subcommand_rows_of found.now) }
    ensures { AnswerIn (subcommand_rows_of found.now) (display_said zone.now) now result }
{
    let notstarted = is_given(found, "notstarted");
    let Some(window) = window_of(zone, now, Span::of(found), notstarted) else {
        return Err(RequestFault::BadWindow);
    };
    let folder = String::from_str(alloc, text(found, "folder"))?;
    let zones = zones_of(alloc, found)?;
    let after = After::of(alloc, found, zone, &window)?;
    let formats = formats_of(alloc, found)?;
    Ok(Request {
        folder,
        zone: zone.clone()?,
        zones,
        keep_going: is_given(found, "keep-going"),
        window,
        limit: limit_of(found),
        after: after.once,
        every_day: after.every_day,
        formats,
    })
}

/// The text of `--zones`, if it is given.
fn zones_of<'a>(alloc: Global, found: &ArgMatches<'a>) -> Result<Option<String>, AllocError>
    ensures { IfOk result (λ zones. option_map string_bytes zones
        ≡ zones_text (subcommand_rows_of found.now)) }
{
    match entry(found, "zones") {
        Some(zones) => Ok(Some(String::from_str(alloc, zones)?)),
        None => Ok(None),
    }
}
