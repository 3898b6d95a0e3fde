//! The parts of a file: which of them are sound, and the first faults of the others.
ghost use Rattle.std.specs.Prelude.{◌≡◌, ◌≤◌, ◌<◌, ℕ, ◌∷◌, ◌++◌, ◌&&◌, ◌||◌, [], ◌==◌, if◌then◌else◌, length, fold, get_or, Some, None, IfOk, OnOk};
ghost use Rattle.std.specs.Option.{option_or};
ghost use Rattle.std.specs.BTreeSet.{contains, insert_key};
ghost use Rattle.std.specs.List.{All, flat_map, list_all, list_any};
ghost use Rattle.ics_components.specs.EventLines.{is_none_of};
ghost use Rattle.ics_components.specs.declared.deferred_check.ZoneName.{ZoneName};
ghost use Rattle.ics_components.specs.ParsedFiles.{IsSoundParsed};
ghost use Rattle.ics_file.specs.File.{said_by};
ghost use Rattle.ics_calendar.specs.DeferredChecks.{is_same};
ghost use Rattle.ics_calendar.specs.Parts.{fault_cmp, in_order};
ghost use Rattle.ics_components.specs.Fronts.{IsFrontOf};
ghost use Rattle.ics_components.specs.PlacedLines.{placed};
ghost use Rattle.ics_components.specs.Parted.{IsSoundParted, LacksUids, parted_of};
ghost use Rattle.ics_calendar.specs.Inner.PartialFiles.{ArePartsOf};
ghost use Rattle.ics_calendar.specs.Inner.PartsRead.{AreRead};
ghost use Rattle.ics_calendar.specs.Inner.SoundParts.{checks_of, faults_at, is_sound, later_of, listed, gathered_of, named_at, names_zone, of_parts};
ghost use Rattle.ics_calendar.specs.Inner.SoundParts.{parts_said};
ghost use Rattle.ics_calendar.specs.Inner.SoundParts.{wanted_by, said_with, zones_for};
ghost use Rattle.ics_calendar.specs.ZoneTables.{given_by, known_by, name_cmp};

use crate::given_file::GivenFile;
use crate::judged::first_judged;
use crate::labels::Labels;
use crate::parsed_lists::ParsedLists;
use crate::shared_faults::{SharedFaults, fault_of_rest, sound_zones};
use crate::unknown_zones::UnknownNames;
use crate::unresolved_file::UnresolvedFile;
use crate::zone::copied_zone;
use crate::zone_files::ZoneFiles;
use crate::zone_table::ZoneTable;
use ics_components::{
    CalendarZone, Fault, FileFault, Front, ParsedFile, PartedComponent, PartedFile, Tzid, ZoneName,
    lacks_uids, parse_parts, parse_parts_behind,
};
use ics_file::FileEvents;
use std::alloc::{AllocError, Global};
use std::collections::BTreeSet;
use std::marker::Model;

/// A sound event: the number of its part, its calendar, the time zones that it names, and what is gathered of its lines.
#[derive(Drop)]
pub struct SoundEvent {
    pub part: usize,
    pub calendar: u64,
    pub zones: Vec<Tzid>,
    pub read: ParsedFile,
}

impl Model for SoundEvent {
    ghost use Rattle.ics_calendar.specs.Inner.SoundParts.{SoundEventSeen};

    ghost Value = { SoundEventSeen };

    ghost view = { λ a. record { part = a.part; calendar = a.calendar; zones = a.zones.items; read = a.read } };
}

/// The parts of a file, before zone files are given. Contracts see what they want, and what they give with zone files.
#[derive(Drop)]
pub struct FileParts {
    /// The sound time zones and events, in the order of the lines.
    zones: Vec<CalendarZone>,
    events: Vec<SoundEvent>,
    /// The first fault of each part in the first round, and that of the lines that are none of an event.
    faults: Vec<Option<Fault>>,
    rest: Option<Fault>,
    table: ZoneTable,
    wanted: Vec<Tzid>,
}

impl Model for FileParts {
    ghost use Rattle.std.specs.Coded.{codes};
    ghost use Rattle.std.specs.Prelude.{◌≡◌};
    ghost use Rattle.ics_calendar.specs.contracts.zone_table.ZoneTable as zone_table;
    ghost use Rattle.ics_calendar.specs.Inner.SoundParts.{AreSoundParts, PartsSeen, wanted_by};
    ghost use Rattle.ics_calendar.specs.ZoneTables.{known_by};

    ghost Value = { PartsSeen };

    ghost coded = { Prim.hlevel (codes, zone_table.the_row.coded) };

    ghost view = { λ a. record { table = a.table; zones = a.zones.items; events = a.events.items; faults = a.faults.items; rest = a.rest } };

    ghost invariant = { λ a. AreSoundParts a.table a.zones.items a.events.items
        × (a.wanted.items ≡ wanted_by (known_by a.table).index a.faults.items a.events.items) };
}

/// The same time zones, in other memory.
fn copied_zones(alloc: Global, zones: &[CalendarZone]) -> Result<Vec<CalendarZone>, AllocError>
    ensures { IfOk result (λ copies. copies.items ≡ zones.now) }
{
    let mut copies = Vec::with_capacity(alloc, zones.len())?;
    for zone in zones {
        copies.push(copied_zone(alloc, zone)?)?;
    }
    Ok(copies)
}

/// Whether no event has a UID.
fn has_no_uids(events: &[PartedComponent]) -> bool
    ensures { result ≡ list_all (λ event. is_none_of event.uids) events.now }
{
    for event in events {
        if !event.uids.is_empty() {
            return false;
        }
    }
    true
}

/// Whether no fault stands for that part.
fn is_sound(faults: &[Option<Fault>], part: usize) -> bool
    ensures { result ≡ is_sound faults.now part }
{
    match faults.get(part) {
        Some(None) => true,
        _ => false,
    }
}

/// Notes a fault of a part, unless one is noted already.
fn note_fault(later: &mut Vec<Option<Fault>>, part: usize, fault: Option<Fault>)
    ensures count { length later.new.items ≡ length later.old.items }
    ensures each { (other : ℕ) → other < length later.old.items → get_or later.new.items other None
        ≡ (if part == other then option_or (get_or later.old.items other None) fault else get_or later.old.items other None) }
{
    if let Some(first) = later.get_mut(part) {
        if first.is_none() {
            *first = fault;
        }
    }
}

/// The first fault of each part in the second round; `faults` has one place for each part.
fn later_faults(
    alloc: Global,
    table: &ZoneTable,
    events: &[SoundEvent],
    faults: &[Option<Fault>],
) -> Result<Vec<Option<Fault>>, AllocError>
    requires { All (λ sound. IsSoundParsed sound.read) events.now }
    ensures count { IfOk result (λ later. length later.items ≡ length faults.now) }
    ensures each { IfOk result (λ later. (part : ℕ) → part < length faults.now
        → get_or later.items part None ≡ later_of (known_by table.now) events.now part) }
{
    let mut later: Vec<Option<Fault>> = Vec::from_elem(alloc, None, faults.len())?;
    for sound in events {
        let fault = first_judged(table, &sound.read.checks);
        note_fault(&mut later, sound.part, fault);
    }
    Ok(later)
}

/// Adds these faults.
fn add_faults(named: &mut BTreeSet<Fault>, faults: &[Option<Fault>]) -> Result<(), AllocError>
    ensures { OnOk result (named.new.keys ≡ fold (insert_key fault_cmp) named.old.keys (flat_map listed faults.now)) }
{
    for first in faults {
        if let Some(fault) = first {
            named.insert(*fault)?;
        }
    }
    Ok(())
}

/// The first fault of a part in the second round, if it is sound in the first.
fn named_at(faults: &[Option<Fault>], later: &[Option<Fault>], part: usize) -> Option<Fault>
    ensures { result ≡ named_at faults.now later.now part }
{
    if !is_sound(faults, part) {
        return None;
    }
    match later.get(part) {
        Some(fault) => *fault,
        None => None,
    }
}

/// Adds the faults of the parts of these events, as far as they are sound in the first round.
fn add_later(
    named: &mut BTreeSet<Fault>,
    events: &[SoundEvent],
    faults: &[Option<Fault>],
    later: &[Option<Fault>],
) -> Result<(), AllocError>
    ensures { OnOk result (named.new.keys ≡ fold (insert_key fault_cmp) named.old.keys (flat_map (faults_at faults.now later.now) events.now)) }
{
    for sound in events {
        if let Some(fault) = named_at(faults, later, sound.part) {
            named.insert(fault)?;
        }
    }
    Ok(())
}

/// The same faults as a list.
fn in_list(alloc: Global, named: BTreeSet<Fault>) -> Result<Vec<Fault>, AllocError>
    ensures { IfOk result (λ list. list.items ≡ named.keys) }
{
    let mut list = Vec::with_capacity(alloc, named.len())?;
    for fault in named {
        list.push(fault)?;
    }
    Ok(list)
}

/// The events of the parts in which no fault stands.
fn accepted(
    events: Vec<SoundEvent>,
    faults: &[Option<Fault>],
    later: &[Option<Fault>],
) -> Vec<SoundEvent>
    ensures { result.items ≡ of_parts (λ part. is_sound faults.now part && is_sound later.now part) events.items }
{
    let mut accepted = events;
    accepted.retain(|sound| is_sound(faults, sound.part) && is_sound(later, sound.part));
    accepted
}

/// Adds these time zones of a calendar.
fn add_zones(used: &mut BTreeSet<ZoneName>, calendar: u64, zones: &[Tzid]) -> Result<(), AllocError>
    ensures { OnOk result ((name : ZoneName) → contains name_cmp used.new name
        ≡ contains name_cmp used.old name || list_any (λ zone. is_same name (record { calendar = calendar; name = zone })) zones.now) }
{
    for zone in zones {
        used.insert(ZoneName {
            calendar,
            name: zone.shared()?,
        })?;
    }
    Ok(())
}

/// The time zones that the events name.
fn used_zones(alloc: Global, events: &[SoundEvent]) -> Result<BTreeSet<ZoneName>, AllocError>
    ensures { IfOk result (λ used. (name : ZoneName) → contains name_cmp used name ≡ list_any (names_zone name) events.now) }
{
    let mut used = BTreeSet::new(alloc);
    for sound in events {
        add_zones(&mut used, sound.calendar, &sound.zones)?;
    }
    Ok(used)
}

/// Those of the time zones that the events name.
fn zones_for(
    alloc: Global,
    events: &[SoundEvent],
    zones: Vec<CalendarZone>,
) -> Result<Vec<CalendarZone>, AllocError>
    ensures { IfOk result (λ named. named.items ≡ zones_for events.now zones.items) }
{
    let used = used_zones(alloc, events)?;
    let mut named = Vec::new(alloc);
    for zone in zones {
        if used.contains(&zone.name) {
            named.push(zone)?;
        }
    }
    Ok(named)
}

/// What is gathered of some events and time zones.
fn gathered(
    alloc: Global,
    sound: Vec<SoundEvent>,
    zones: Vec<CalendarZone>,
) -> Result<ParsedLists, AllocError>
    ensures { IfOk result (λ parsed. parsed ≡ gathered_of sound.items zones.items) }
{
    let mut events = Vec::with_capacity(alloc, sound.len())?;
    // most events defer one check
    let mut checks = Vec::with_capacity(alloc, sound.len())?;
    for one in sound {
        let SoundEvent {
            zones: names,
            read,
            ..
        } = one;
        drop(names);
        let ParsedFile {
            zones: none,
            events: own,
            checks: mut deferred,
        } = read;
        drop(none);
        events.push(own)?;
        checks.append(&mut deferred)?;
    }
    Ok(ParsedLists {
        zones,
        events,
        checks,
    })
}

/// The names of the time zones that sound parts want, each once, in the order of the lines.
fn wanted_names(
    alloc: Global,
    table: &ZoneTable,
    events: &[SoundEvent],
    faults: &[Option<Fault>],
) -> Result<Vec<Tzid>, AllocError>
    ensures { IfOk result (λ names. names.items ≡ wanted_by (known_by table.now).index faults.now events.now) }
{
    let mut unknown = UnknownNames::new(alloc);
    for sound in events {
        if is_sound(faults, sound.part) {
            unknown.add(table, &sound.read.checks)?;
        }
    }
    Ok(unknown.names)
}

/// What is gathered says with these zone files, or nothing where a fault stands in it.
fn said(alloc: Global, parsed: ParsedLists, files: &ZoneFiles) -> Result<FileEvents, AllocError>
    requires { IsSoundParsed parsed }
    ensures { IfOk result (λ file. said_by file ≡ said_with parsed (given_by files.now)) }
{
    match UnresolvedFile::of(alloc, parsed)?.settle(alloc, files) {
        Ok(file) => Ok(file),
        Err(FileFault::Memory) => Err(AllocError),
        Err(FileFault::At { .. }) => Ok(FileEvents {
            zones: Vec::new(alloc),
            events: Vec::new(alloc),
        }),
    }
}

/// The faults that are named, by their lines, then by their kinds, each once.
fn named_faults(
    alloc: Global,
    fault: Fault,
    rest: Option<Fault>,
    faults: &[Option<Fault>],
    later: &[Option<Fault>],
    events: &[SoundEvent],
) -> Result<Vec<Fault>, AllocError>
    ensures { IfOk result (λ named. named.items
        ≡ in_order (fault ∷ (listed rest ++ (flat_map listed faults.now ++ flat_map (faults_at faults.now later.now) events.now)))) }
{
    let mut named = BTreeSet::new(alloc);
    named.insert(fault)?;
    if let Some(fault) = rest {
        named.insert(fault)?;
    }
    add_faults(&mut named, faults)?;
    add_later(&mut named, events, faults, later)?;
    in_list(alloc, named)
}

impl FileParts {
    /// The parts of a file of that name, of at most 16,777,216 bytes, if it has parts.
    pub fn read(alloc: Global, name: &str, bytes: &[u8]) -> Result<Option<FileParts>, AllocError>
        requires { length bytes.now ≤ 16_777_216 }
        ensures { IfOk result (ArePartsOf name.now bytes.now) }
    {
        FileParts::behind(alloc, name, bytes, Front::none(alloc))
    }

    /// The same. The lines of the events of a front are not read again.
    pub fn behind(
        alloc: Global,
        name: &str,
        bytes: &[u8],
        front: Front,
    ) -> Result<Option<FileParts>, AllocError>
        requires size { length bytes.now ≤ 16_777_216 }
        requires front { IsFrontOf (placed bytes.now) front }
        ensures { IfOk result (ArePartsOf name.now bytes.now) }
    {
        if lacks_uids(alloc, bytes)? {
            return FileParts::made(alloc, name, bytes);
        }
        match parse_parts_behind(alloc, bytes, front)? {
            Some(parted) => FileParts::with_uids(alloc, name, bytes, parted),
            None => Ok(None),
        }
    }

    /// The parts of a file of which this is gathered. Where no event has a UID, it is gathered again with made ones.
    fn with_uids(
        alloc: Global,
        name: &str,
        bytes: &[u8],
        parted: PartedFile,
    ) -> Result<Option<FileParts>, AllocError>
        requires parted { parted_of None bytes.now ≡ Some parted }
        requires sound { IsSoundParted parted }
        ensures { IfOk result (ArePartsOf name.now bytes.now) }
    {
        if !has_no_uids(&parted.events) {
            return Ok(Some(FileParts::of(alloc, parted)?));
        }
        drop(parted);
        FileParts::made(alloc, name, bytes)
    }

    /// The parts of a file that has parts, and no event of which has a UID.
    fn made(alloc: Global, name: &str, bytes: &[u8]) -> Result<Option<FileParts>, AllocError>
        requires { LacksUids bytes.now }
        ensures { IfOk result (ArePartsOf name.now bytes.now) }
    {
        match parse_parts(alloc, bytes, Some(name))? {
            Some(parted) => Ok(Some(FileParts::of(alloc, parted)?)),
            None => Ok(None),
        }
    }

    /// What is kept of what is gathered.
    fn of(alloc: Global, parted: PartedFile) -> Result<FileParts, AllocError>
        requires { IsSoundParted parted }
        ensures { IfOk result (AreRead parted) }
    {
        let PartedFile {
            events,
            zones,
            calendars,
            outside,
        } = parted;
        let shared = SharedFaults::new(alloc, &calendars, &zones)?;
        let rest = fault_of_rest(&zones, outside);
        let Labels {
            events,
            faults,
            by_uid,
        } = Labels::numbered(alloc, events, &shared)?;
        drop(by_uid);
        let zones = sound_zones(alloc, zones)?;
        let copies = copied_zones(alloc, &zones)?;
        let table = ZoneTable::new(alloc, copies)?;
        let wanted = wanted_names(alloc, &table, &events, &faults)?;
        Ok(FileParts {
            zones,
            events,
            faults,
            rest,
            table,
            wanted,
        })
    }

    /// The names of the time zones that the parts want in which the first round finds nothing.
    pub fn wanted(&self) -> &[Tzid]
        ensures { result.now ≡ (parts_said self.now).wants }
    {
        &self.wanted
    }

    /// What the parts give with these zone files; `fault` is the first of the file.
    pub fn settle(
        self,
        alloc: Global,
        files: &ZoneFiles,
        fault: Fault,
    ) -> Result<GivenFile, AllocError>
        ensures { IfOk result (λ given. given ≡ (parts_said self).gives (given_by files.now) fault) }
    {
        let FileParts {
            zones,
            events,
            faults,
            rest,
            table,
            wanted,
        } = self;
        let table = table.with_files(files, wanted)?;
        let later = later_faults(alloc, &table, &events, &faults)?;
        drop(table);
        let named = named_faults(alloc, fault, rest, &faults, &later, &events)?;
        let events = accepted(events, &faults, &later);
        let zones = zones_for(alloc, &events, zones)?;
        let parsed = gathered(alloc, events, zones)?;
        Ok(GivenFile {
            file: said(alloc, parsed, files)?,
            faults: named,
        })
    }
}
