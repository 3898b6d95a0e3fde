//! The numbers of parts: each part has the place of its UID among those of all events.
ghost use Rattle.std.specs.Prelude.{◌≡◌, ◌∷◌, [], ℕ, List, if◌then◌else◌, Some, None, map, fold, IfOk, OnOk};
ghost use Rattle.std.specs.List.{list_any};
ghost use Rattle.std.specs.Option.{option_or};
ghost use Rattle.std.specs.Str.{bytes_eq};
ghost use Rattle.ics_calendar.specs.Inner.Labels.{AreLabels, AreNumbered};
ghost use Rattle.ics_calendar.specs.Inner.PartsRead.{fault_read, labelled, least_at, nothing_labelled, numbered_with};
ghost use Rattle.ics_calendar.specs.Inner.PartsRead.{searched, with_event, with_key, Labelled, Numbered};
ghost use Rattle.ics_calendar.specs.Inner.SharedFaults.{needed_by};
ghost use Rattle.ics_calendar.specs.Inner.SummedUids.{number_by, place_of};

use crate::file_parts::SoundEvent;
use crate::rising::uid_numbers_rise;
use crate::shared_faults::SharedFaults;
use crate::summed_uid::SummedUid;
use ics_components::{Fault, ParsedFile, PartedComponent, earlier};
use ics_event::Text;
use std::alloc::{AllocError, Global};
use std::collections::BTreeMap;

/// Notes a first fault of a part, which stays the least.
fn note_least(faults: &mut Vec<Option<Fault>>, part: usize, fault: Option<Fault>)
    ensures { faults.new.items ≡ least_at fault faults.old.items part }
{
    if let Some(first) = faults.get_mut(part) {
        *first = earlier(*first, fault);
    }
}

/// The number of the part of a UID: that of an event before, or a new one.
fn number(
    by_uid: &mut BTreeMap<SummedUid, usize>,
    uid: Text,
    place: usize,
) -> Result<usize, AllocError>
    ensures number { IfOk result (λ number. number ≡ number_by by_uid.old place uid) }
    ensures put { OnOk result ((other : List ℕ) → place_of by_uid.new other
        ≡ option_or (place_of by_uid.old other) (if bytes_eq other uid then Some place else None)) }
{
    let uid = SummedUid::of(uid);
    Ok(*by_uid.entry(uid)?.or_insert(place))
}

/// Notes a first fault of the part of a UID, which may be new, and answers its number.
fn note_uid(
    by_uid: &mut BTreeMap<SummedUid, usize>,
    faults: &mut Vec<Option<Fault>>,
    uid: Text,
    fault: Option<Fault>,
) -> Result<usize, AllocError>
    ensures kept { OnOk result ((had : Numbered) → AreNumbered had by_uid.old faults.old.items
        → AreNumbered (with_key fault had (Some uid)) by_uid.new faults.new.items) }
    ensures part { IfOk result (λ part. (had : Numbered) → AreNumbered had by_uid.old faults.old.items → part ≡ (with_key fault had (Some uid)).part) }
{
    let had = faults.as_slice();
    let place = had.len();
    faults.push(None)?;
    let part = number(by_uid, uid, place)?;
    note_least(faults, part, fault);
    Ok(part)
}

/// Notes a first fault of the parts of an event with UIDs, and answers the number of the last.
fn note_uids(
    by_uid: &mut BTreeMap<SummedUid, usize>,
    faults: &mut Vec<Option<Fault>>,
    uids: Vec<Text>,
    fault: Option<Fault>,
) -> Result<usize, AllocError>
    ensures kept { OnOk result ((had : Numbered) → AreNumbered had by_uid.old faults.old.items
        → AreNumbered (fold (with_key fault) had (map (λ uid. Some uid) uids.items)) by_uid.new faults.new.items) }
    ensures part { IfOk result (λ last. (had : Numbered) → AreNumbered had by_uid.old faults.old.items → had.part ≡ 0
        → last ≡ (fold (with_key fault) had (map (λ uid. Some uid) uids.items)).part) }
{
    let mut last = 0;
    for uid in uids {
        last = note_uid(by_uid, faults, uid, fault)?;
    }
    Ok(last)
}

/// Notes a first fault of the parts of an event, and answers the number of the last. Without a UID it is a part of its own.
fn note_event(
    by_uid: &mut BTreeMap<SummedUid, usize>,
    faults: &mut Vec<Option<Fault>>,
    uids: Vec<Text>,
    fault: Option<Fault>,
) -> Result<usize, AllocError>
    ensures kept { OnOk result ((had : Numbered) → AreNumbered had by_uid.old faults.old.items
        → AreNumbered (numbered_with fault had uids.items) by_uid.new faults.new.items) }
    ensures part { IfOk result (λ last. (had : Numbered) → AreNumbered had by_uid.old faults.old.items
        → last ≡ (numbered_with fault had uids.items).part) }
{
    if uids.is_empty() {
        let had = faults.as_slice();
        let place = had.len();
        faults.push(None)?;
        note_least(faults, place, fault);
        return Ok(place);
    }
    note_uids(by_uid, faults, uids, fault)
}

/// The UIDs that an event is searched for by: none where it is alone in its part.
fn searched(uids: Vec<Text>, is_alone: bool) -> Vec<Text>
    ensures { result.items ≡ (if is_alone then [] else uids.items) }
{
    let mut searched = uids;
    if is_alone {
        searched.clear();
    }
    searched
}

/// The fault that is read, if one is.
fn fault_read(read: &Result<ParsedFile, Fault>) -> Option<Fault>
    ensures { result ≡ fault_read read.now }
{
    match read {
        Ok(_) => None,
        Err(fault) => Some(*fault),
    }
}

/// The sound events of a file with the numbers of their parts, and the first fault of each part.
#[derive(Drop)]
pub struct Labels {
    pub by_uid: BTreeMap<SummedUid, usize>,
    pub faults: Vec<Option<Fault>>,
    pub events: Vec<SoundEvent>,
}

impl Labels {
    /// Those of no events, with room for so many.
    fn new(alloc: Global, room: usize) -> Result<Labels, AllocError>
        ensures { IfOk result (AreLabels nothing_labelled) }
    {
        Ok(Labels {
            by_uid: BTreeMap::new(alloc),
            faults: Vec::with_capacity(alloc, room)?,
            events: Vec::with_capacity(alloc, room)?,
        })
    }

    /// Adds an event, which may be alone in its part.
    fn add(
        &mut self,
        event: PartedComponent,
        is_alone: bool,
        shared: &SharedFaults,
    ) -> Result<(), AllocError>
        ensures { OnOk result ((had : Labelled) → AreLabels had self.old
            → AreLabels (with_event (needed_by shared.now) had (searched is_alone event)) self.new) }
    {
        let PartedComponent {
            calendar,
            uids,
            zones,
            read,
            ..
        } = event;
        let beside = shared.beside(calendar, &zones)?;
        let fault = earlier(fault_read(&read), beside);
        let uids = searched(uids, is_alone);
        let part = note_event(&mut self.by_uid, &mut self.faults, uids, fault)?;
        match read {
            Ok(read) => {
                self.events.push(SoundEvent {
                    part,
                    calendar,
                    zones,
                    read,
                })?;
                Ok(())
            }
            Err(_) => Ok(()),
        }
    }

    /// Those of these events, each of which may be alone in its part, in the order of the lines.
    fn of(
        alloc: Global,
        events: Vec<PartedComponent>,
        are_alone: bool,
        shared: &SharedFaults,
    ) -> Result<Labels, AllocError>
        ensures { IfOk result (AreLabels (labelled (needed_by shared.now) (map (searched are_alone) events.items))) }
    {
        let mut labels = Labels::new(alloc, events.len())?;
        for event in events {
            labels.add(event, are_alone, shared)?;
        }
        Ok(labels)
    }

    /// Those of any events. Made UIDs, of which each is of one event, are not searched for.
    pub fn numbered(
        alloc: Global,
        events: Vec<PartedComponent>,
        shared: &SharedFaults,
    ) -> Result<Labels, AllocError>
        ensures faults { IfOk result (λ labels. labels.faults.items ≡ (labelled (needed_by shared.now) events.items).numbered.faults) }
        ensures events { IfOk result (λ labels. labels.events.items ≡ (labelled (needed_by shared.now) events.items).events) }
    {
        let are_alone = uid_numbers_rise(&events);
        Labels::of(alloc, events, are_alone, shared)
    }
}
