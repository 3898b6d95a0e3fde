//! The events of a folder.
ghost use Rattle.std.specs.Prelude.{◌≡◌, List, map, IfOk};
ghost use Rattle.std.specs.Option.{option_map};
ghost use Rattle.ics_file.specs.File.{said_by};
ghost use Rattle.ics_listing.specs.After.{after_key};
ghost use Rattle.ics_series.specs.Ahead.{scope_of, IsAhead};
ghost use Rattle.ics_starts.specs.Clocks.{display_clock};
ghost use Rattle.ics_days.specs.NearDays.{HasOffsets};
ghost use Rattle.ics_listing.specs.DayKeys.{day_key_rank, day_rank_of, after_day_key, on_day_cmp, OnDay};
ghost use Rattle.ics_series.specs.OnDays.{IsOnDay};
ghost use Rattle.ics_series.specs.DaySteps.{scope_by, AreMasters};
ghost use Rattle.ics_listing.specs.Entry.{Entry, entry_cmp, key_rank, rank_of};
ghost use Rattle.ics_listing.specs.Listing.{IsListing};
ghost use Rattle.ics_series.specs.Meets.{IsListed, IsToCome};
ghost use Rattle.ics_series.specs.Occurs.{Occurs};
ghost use Rattle.ics_series.specs.PlacedEvents.{Placed};
ghost use Rattle.ics_series.specs.Sources.{AreSources, ComeSince};
ghost use Rattle.ics_listing.specs.Tokens.{IsDayKey, IsKey};

use crate::agenda::Agenda;
use crate::days::Days;
use crate::prepare::{prepare_each, prepare_shown};
use ics_file::FileEvents;
use ics_listing::{Coming, DayKey, Key, Window};
use ics_zone::Display;
use std::alloc::{AllocError, Global};
use std::marker::Model;

/// The events of a folder's files, in the order of the files, and the zone in which they are shown.
#[derive(Drop)]
pub struct Folder {
    files: Vec<FileEvents>,
    display: Display,
    alloc: Global,
}

impl Model for Folder {
    ghost use Rattle.ics_series.specs.FolderContents.{Contents};

    ghost Value = { Contents };

    ghost view = { λ a. record { files = a.files.items; display = a.display } };
}

impl Folder {
    /// The events of these files. The order of the list is the order of the files.
    pub fn new(
        alloc: Global,
        files: Vec<FileEvents>,
        display: Display,
    ) -> Result<Folder, AllocError>
        ensures files { IfOk result (λ folder. folder.files ≡ files.items) }
        ensures display { IfOk result (λ folder. folder.display ≡ display) }
    {
        Ok(Folder {
            files,
            display,
            alloc,
        })
    }

    /// Prepares the zones of the files and the display zone for a window, so that listing it, under each day or not, is faster. No listing needs this
    /// call, and it changes no answer.
    pub fn prepare(&mut self, window: &Window, every_day: bool)
        ensures { self.new ≡ self.old }
    {
        prepare_each(&mut self.files, window, every_day);
        prepare_shown(&mut self.display, &self.files, window, every_day);
    }

    /// The occurrences that meet the window, in the order of their keys. With a key, only those of
    /// them that come after it.
    pub fn agenda<'a>(
        &'a self,
        window: Window,
        after: Option<&Key>,
    ) -> Result<Agenda<'a>, AllocError>
        ensures listing { IfOk result (λ agenda. IsListing entry_cmp
            (IsToCome (map said_by self.entry.now.files) (display_clock self.entry.now.display) window
            (option_map (λ key. key_rank key.now) after.entry))
            (⟦<Agenda<'a> as Coming>⟧.coming agenda)) }
        ensures behind { IfOk result (λ agenda. (list : List Entry)
            × IsListing entry_cmp (IsListed (map said_by self.entry.now.files) (display_clock self.entry.now.display) window) list
            × (⟦<Agenda<'a> as Coming>⟧.coming agenda ≡ after_key (option_map (λ key. key_rank key.now) after.entry) list)) }
        ensures sources { IfOk result (λ agenda. AreSources (map said_by self.entry.now.files) (display_clock self.entry.now.display) window
            (option_map (λ key. key_rank key.now) after.entry) (⟦<Agenda<'a> as Coming>⟧.sources agenda)) }
        ensures since { IfOk result (λ agenda. ComeSince (⟦<Agenda<'a> as Coming>⟧.sources agenda) (⟦<Agenda<'a> as Coming>⟧.coming agenda)) }
        ensures keys { IfOk result (λ _. (o : Entry)
            → Occurs (map said_by self.entry.now.files) (display_clock self.entry.now.display) o → IsKey (rank_of o)) }
    {
        Agenda::new(self.alloc, &self.files, &self.display, window, after)
    }

    /// The occurrences that meet the window, under each of their days there, by day and then in the
    /// order of their keys; after a key only those of this listing that come after it.
    pub fn days<'a>(
        &'a self,
        window: Window,
        after: Option<&DayKey>,
    ) -> Result<Days<'a>, AllocError>
        ensures listing { IfOk result (λ days. (list : List OnDay)
            × IsListing on_day_cmp (IsOnDay (map said_by self.entry.now.files) (display_clock self.entry.now.display) window) list
            × IsAhead days (after_day_key (option_map (λ key. day_key_rank key.now) after.entry) list)
            × (scope_of days ≡ scope_by (map said_by self.entry.now.files) (display_clock self.entry.now.display)
            (scope_of days).bounds window (option_map (λ key. day_key_rank key.now) after.entry))) }
        ensures bounds { IfOk result (λ days. HasOffsets (display_clock self.entry.now.display) window (scope_of days).bounds) }
        ensures masters { IfOk result (λ days. (masters : List Placed) × AreMasters (scope_of days) masters) }
        ensures keys { IfOk result (λ _. (p : OnDay)
            → IsOnDay (map said_by self.entry.now.files) (display_clock self.entry.now.display) window p → IsDayKey (day_rank_of p)) }
    {
        Days::new(self.alloc, &self.files, &self.display, window, after)
    }
}
