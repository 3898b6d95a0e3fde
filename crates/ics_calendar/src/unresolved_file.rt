//! Files in which the first round finds nothing.
ghost use Rattle.std.specs.Prelude.{◌≡◌, ◌≤◌, ◌++◌, ℕ, List, length, map, None, IfOk, IfErr, OnOk};
ghost use Rattle.std.specs.List.{All, flat_map};
ghost use Rattle.ics_calendar.specs.UnresolvedFiles.{unresolved_said, IsFaultOf};
ghost use Rattle.ics_calendar.specs.Inner.PartialFiles.{IsReadOrFront};
ghost use Rattle.ics_calendar.specs.Files.{unresolved_of, SaysFile};
ghost use Rattle.ics_calendar.specs.Kept.{kept_unresolved};
ghost use Rattle.ics_components.specs.FileReading.{HasRead};
ghost use Rattle.ics_components.specs.FirstFault.{first_fault};
ghost use Rattle.ics_components.specs.ParsedFiles.{IsSoundParsed};
ghost use Rattle.ics_components.specs.PlacedLines.{placed};
ghost use Rattle.ics_values.specs.KeptTexts.{KeptTexts};
ghost use Rattle.ics_calendar.specs.Settled.{event_in, known_in, unresolved_by, IsReady};
ghost use Rattle.ics_calendar.specs.ZoneTables.{given_by, known_by};

use crate::event::event_of;
use crate::judged::first_judged;
use crate::parsed_lists::ParsedLists;
use crate::shared_zones::SharedZones;
use crate::unknown_zones::{copied, unknown_names};
use crate::zone_files::ZoneFiles;
use crate::zone_table::ZoneTable;
use ics_components::{
    CalendarEvent, Fault, FileFault, FileReader, FirstRead, Front, LineCheck, Tzid, read_first,
};
use ics_event::{Event, KeptTexts};
use ics_file::FileEvents;
use ics_text::numbers_rise;
use std::alloc::{AllocError, Global};
use std::marker::Model;

/// A file in which the first round has found no fault. Contracts see the names of the time zones that it wants, and what it is with zone files.
#[derive(Drop)]
pub struct UnresolvedFile {
    table: ZoneTable,
    events: Vec<Vec<CalendarEvent>>,
    checks: Vec<LineCheck>,
    wanted: Vec<Tzid>,
}

impl Model for UnresolvedFile {
    ghost use Rattle.std.specs.Coded.{codes};
    ghost use Rattle.std.specs.List.{flat_map};
    ghost use Rattle.std.specs.Prelude.{◌≡◌};
    ghost use Rattle.ics_calendar.specs.contracts.zone_table.ZoneTable as zone_table;
    ghost use Rattle.ics_calendar.specs.UnresolvedFiles.{UnresolvedSeen, IsSoundUnresolved};
    ghost use Rattle.ics_calendar.specs.Settled.{all_unknown};
    ghost use Rattle.ics_calendar.specs.Wanted.{each_once};
    ghost use Rattle.ics_calendar.specs.ZoneTables.{known_by};

    ghost Value = { UnresolvedSeen };

    ghost coded = { Prim.hlevel (codes, zone_table.the_row.coded) };

    ghost view = { λ a. record { table = a.table; events = flat_map (λ own. own.items) a.events.items; checks = a.checks.items } };

    ghost invariant = { λ a. IsSoundUnresolved (known_by a.table) (flat_map (λ own. own.items) a.events.items) a.checks.items
        × (a.wanted.items ≡ each_once (all_unknown (known_by a.table).index a.checks.items)) };
}

/// How many events there are in all lists.
fn number_in(lists: &[Vec<CalendarEvent>]) -> usize {
    let mut number: usize = 0;
    for own in lists {
        number = number.saturating_add(own.len());
    }
    number
}

/// Adds events that have ended.
fn add_events(
    alloc: Global,
    table: &ZoneTable,
    events: &mut Vec<Event>,
    ended: Vec<CalendarEvent>,
) -> Result<(), AllocError>
    requires { All (IsReady (known_by table.now)) ended.items }
    ensures { IfOk result (λ _. events.new.items ≡ events.old.items ++ map (event_in (known_by table.now).index) ended.items) }
{
    for event in ended {
        events.push(event_of(alloc, table, event)?)?;
    }
    Ok(())
}

/// The events that have ended.
fn events_of(
    alloc: Global,
    table: &ZoneTable,
    ended: Vec<Vec<CalendarEvent>>,
) -> Result<Vec<Event>, AllocError>
    requires { All (IsReady (known_by table.now)) (flat_map (λ own. own.items) ended.items) }
    ensures { IfOk result (λ events. events.items ≡ map (event_in (known_by table.now).index) (flat_map (λ own. own.items) ended.items)) }
{
    let mut events = Vec::with_capacity(alloc, number_in(&ended))?;
    for own in ended {
        add_events(alloc, table, &mut events, own)?;
    }
    Ok(events)
}

impl UnresolvedFile {
    /// Reads a file of at most 16,777,216 bytes as far as no zone files are needed. A fault is the file's first, whatever zone files are given.
    /// `Memory` if an allocation fails.
    pub fn read(alloc: Global, bytes: &[u8]) -> Result<UnresolvedFile, FileFault>
        requires { length bytes.now ≤ 16_777_216 }
        ensures unresolved { IfOk result (λ unresolved. unresolved_said unresolved ≡ unresolved_of bytes.now) }
        ensures whole { OnOk result (first_fault (placed bytes.now) ≡ None) }
        ensures fault { IfErr result (IsFaultOf bytes.now) }
    {
        let mut shared = SharedZones::none(alloc);
        let mut reader = FileReader::new(alloc, KeptTexts::all());
        reader.add(alloc, bytes)?;
        UnresolvedFile::of_reader(alloc, &mut shared, reader)
    }

    /// The same of a file whose bytes a reader has read. Time zones that are shared are not made again, and of the texts of events those alone are kept that
    /// the reader keeps.
    pub fn of_reader(
        alloc: Global,
        shared: &mut SharedZones,
        reader: FileReader,
    ) -> Result<UnresolvedFile, FileFault>
        requires { (keep : KeptTexts) × (bytes : List ℕ) × HasRead keep bytes reader }
        ensures unresolved { (keep : KeptTexts) (bytes : List ℕ) → HasRead keep bytes reader
            → IfOk result (λ unresolved. unresolved_said unresolved ≡ kept_unresolved keep (unresolved_of bytes)) }
        ensures whole { (keep : KeptTexts) (bytes : List ℕ) → HasRead keep bytes reader → OnOk result (first_fault (placed bytes) ≡ None) }
        ensures fault { (keep : KeptTexts) (bytes : List ℕ) → HasRead keep bytes reader → IfErr result (IsFaultOf bytes) }
    {
        numbers_rise();
        let parsed = reader.finish(alloc)?;
        let lists = ParsedLists::whole(alloc, parsed)?;
        Ok(UnresolvedFile::of_parsed(alloc, shared, lists)?)
    }

    /// The same with all texts, or the file's first fault and the events before it.
    pub(crate) fn or_front(
        alloc: Global,
        shared: &mut SharedZones,
        bytes: &[u8],
    ) -> Result<Result<UnresolvedFile, (Fault, Front)>, AllocError>
        requires { length bytes.now ≤ 16_777_216 }
        ensures { IfOk result (IsReadOrFront bytes.now) }
    {
        numbers_rise();
        match read_first(alloc, KeptTexts::all(), bytes)? {
            FirstRead::Whole(parsed) => {
                let lists = ParsedLists::whole(alloc, parsed)?;
                Ok(Ok(UnresolvedFile::of_parsed(alloc, shared, lists)?))
            }
            FirstRead::Faulty(fault, front) => Ok(Err((fault, front))),
        }
    }

    /// What is gathered of a file, with the names that it wants.
    pub(crate) fn of(alloc: Global, parsed: ParsedLists) -> Result<UnresolvedFile, AllocError>
        requires { IsSoundParsed parsed }
        ensures { IfOk result (λ unresolved. unresolved_said unresolved ≡ unresolved_by (known_in parsed.zones) parsed.events parsed.checks) }
    {
        let mut shared = SharedZones::none(alloc);
        UnresolvedFile::of_parsed(alloc, &mut shared, parsed)
    }

    /// The same. Time zones that are shared are not made again.
    fn of_parsed(
        alloc: Global,
        shared: &mut SharedZones,
        parsed: ParsedLists,
    ) -> Result<UnresolvedFile, AllocError>
        requires { IsSoundParsed parsed }
        ensures { IfOk result (λ unresolved. unresolved_said unresolved ≡ unresolved_by (known_in parsed.zones) parsed.events parsed.checks) }
    {
        let ParsedLists {
            zones,
            events,
            checks,
        } = parsed;
        let table = ZoneTable::for_events(alloc, shared, zones, &events)?;
        let wanted = unknown_names(alloc, &table, &checks)?;
        Ok(UnresolvedFile {
            table,
            events,
            checks,
            wanted,
        })
    }

    /// The names of the time zones that it wants: see [`wanted`](crate::wanted). The error means that an allocation failed.
    pub fn wanted(&self, alloc: Global) -> Result<Vec<Vec<u8>>, AllocError>
        ensures { IfOk result (λ names. map (λ name. name.items) names.items ≡ (unresolved_said self.now).wants) }
    {
        copied(alloc, &self.wanted)
    }

    /// The time zones and the events of the file with these zone files, or its first fault. `Memory` if an allocation fails.
    pub fn settle(self, alloc: Global, files: &ZoneFiles) -> Result<FileEvents, FileFault>
        ensures { SaysFile result ((unresolved_said self).says (given_by files.now)) }
    {
        let UnresolvedFile {
            table,
            events,
            checks,
            wanted,
        } = self;
        let table = table.with_files(files, wanted)?;
        if let Some(Fault { line, kind }) = first_judged(&table, &checks) {
            return Err(FileFault::At { line, kind });
        }
        let events = events_of(alloc, &table, events)?;
        Ok(FileEvents {
            zones: table.into_zones(),
            events,
        })
    }
}
