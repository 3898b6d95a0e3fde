//! Requests for a listing.
ghost use Rattle.std.specs.Prelude.{◌≡◌, map};
ghost use Rattle.std.specs.Option.{option_map};
ghost use Rattle.std.specs.String.{string_bytes};

use crate::RequestFault;
use crate::every_day::EveryDay;
use crate::words::Words;
use ics_series::{Key, Window};
use ics_values::Moment;
use ics_zone::Display;
use khal_words::Formats;
use std::alloc::Global;

/// A request for a listing: the folder, the zone in which it is shown, the folder of zone files, the
/// window that an occurrence has to meet, how many entries are listed and after which key, and how they
/// are written.
#[derive(Drop)]
pub struct Request {
    pub folder: String,
    pub zone: Display,
    /// The folder of zone files for names that a calendar does not define.
    pub zones: Option<String>,
    /// Whether the sound events of a file that has faults are listed too.
    pub keep_going: bool,
    pub window: Window,
    /// The most entries that are listed.
    pub limit: Option<u32>,
    /// The key after which the listing continues: only entries with greater keys are listed. A listing
    /// under each day has a key of its own.
    pub after: Option<Key>,
    /// Whether an occurrence is listed under each of its days, and after which key.
    pub every_day: Option<EveryDay>,
    /// How entries and days are written.
    pub formats: Formats,
}

impl Request {
    ghost use Rattle.khal_list.specs.RequestOf.{RequestOf};

    /// The request of the words after the program's name, in the display zone that `--zone` names, at a
    /// clock: `list FOLDER [START [END]] [--zone Z] [--zones DIR] [--keep-going] [--limit N]
    /// [--after TOKEN] [--notstarted] [--every-day] [--format F] [--day-format F]` or
    /// `at FOLDER MOMENT [--zone Z] [--zones DIR] [--keep-going]`.
    ///
    /// Faults are reported in this order: Usage if the words are refused, BadZone if `--zone` does not name
    /// a display zone, or if the words have `--zone-file`, whose file has to be read first, and those of
    /// `Words::request`.
    pub fn of(alloc: Global, words: &[&str], now: Moment) -> Result<Request, RequestFault>
        ensures { RequestOf (map (λ word. word.now) words.now) now result }
    {
        let words = Words::of(alloc, words)?;
        let zone = words.zone(alloc)?;
        words.request(alloc, &zone, now)
    }

    /// The folder whose files are listed, as the words give it.
    pub fn folder(&self) -> &str
        ensures { result.now ≡ string_bytes self.now.folder }
    {
        self.folder.as_str()
    }

    /// The folder of zone files, as the words give it; none if they give none.
    pub fn zones(&self) -> Option<&str>
        ensures { option_map (λ zones. zones.now) result ≡ option_map string_bytes self.now.zones }
    {
        match &self.zones {
            Some(zones) => Some(zones.as_str()),
            None => None,
        }
    }
}
