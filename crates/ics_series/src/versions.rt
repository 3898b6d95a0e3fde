//! The versions of the events of a folder, and their order.
ghost use Rattle.std.specs.Prelude.{◌≡◌, ◌++◌, map, slice_index_or, IfOk};
ghost use Rattle.hex.specs.Hex.{IsBytes};
ghost use Rattle.ics_file.specs.File.{said_by, AreEventsOf, IsEventOf};
ghost use Rattle.ics_series.specs.Chosen.{overridden};
ghost use Rattle.ics_starts.specs.Clocks.{display_clock};
ghost use Rattle.ics_series.specs.Versions.{label_by, label_cmp, label_of, placed_from, placed_in, seen};
ghost use Rattle.ics_series.specs.Inner.Beginnings.{beginning_of};
ghost use Rattle.ics_series.specs.Inner.Whole.{AreRead, AreReadIn};
ghost use Rattle.ics_starts.specs.FileZones.{clocks_in};
ghost use Rattle.ics_zone.specs.ZoneSaid.{zone_said};

use crate::spot::Spot;
use crate::version::{Subject, Version};
use ics_event::Event;
use ics_file::FileEvents;
use ics_starts::{FileZones, instant};
use ics_values::Moment;
use ics_zone::Display;
use std::alloc::{AllocError, Global};
use std::cmp::Ordering;

/// By subject, then by SEQUENCE, file and place.
pub(crate) fn compare(a: &Version<'_>, b: &Version<'_>) -> Ordering
    ensures { result ≡ label_cmp (seen a.now) (seen b.now) }
{
    are_bytes(a.subject.uid);
    are_bytes(b.subject.uid);
    match a.beginning.cmp(&b.beginning) {
        Ordering::Equal => compare_labels(a, b),
        order => order,
    }
}

/// By all of both.
fn compare_labels(a: &Version<'_>, b: &Version<'_>) -> Ordering
    ensures { result ≡ label_cmp (seen a.now) (seen b.now) }
{
    let sequence = a.sequence.cmp(&b.sequence);
    let file = a.spot.file.cmp(&b.spot.file);
    let place = a.spot.place.cmp(&b.spot.place);
    a.subject
        .cmp(&b.subject)
        .then(sequence.then(file.then(place)))
}

/// The versions of these files' events, in the order of the files and of the events in each.
pub(crate) fn versions<'a>(
    alloc: Global,
    files: &'a [FileEvents],
    display: &Display,
) -> Result<Vec<Version<'a>>, AllocError>
    ensures labels { IfOk result (λ versions. map seen versions.items
        ≡ map (label_of (map said_by files.entry.now) (display_clock display.now)) (placed_in 0 (map said_by files.entry.now))) }
    ensures read { IfOk result (λ _. AreRead (map said_by files.entry.now)) }
{
    let mut versions = Vec::new(alloc);
    for (number, file) in files.iter().enumerate() {
        let zones = FileZones {
            display,
            zones: &file.zones,
        };
        push_versions(&mut versions, number, zones, &file.events)?;
    }
    Ok(versions)
}

/// Adds the versions of a file's events.
fn push_versions<'a>(
    versions: &mut Vec<Version<'a>>,
    file: usize,
    zones: FileZones<'_>,
    events: &'a [Event],
) -> Result<(), AllocError>
    requires own { AreEventsOf (map zone_said zones.zones.now) events.now }
    ensures labels { IfOk result (λ _. map seen versions.new.items
        ≡ map seen versions.old.items ++ map (label_by (clocks_in zones.entry)) (placed_from file 0 events.entry.now)) }
    ensures read { IfOk result (λ _. AreReadIn events.entry.now) }
{
    for (place, event) in events.iter().enumerate() {
        let uid = event.uid.as_slice();
        are_bytes(uid);
        let version = Version {
            subject: Subject {
                uid,
                recurrence: overridden(zones, event),
            },
            sequence: event.sequence,
            spot: Spot { file, place },
            beginning: beginning(uid),
        };
        versions.push(version)?;
    }
    Ok(())
}

/// The first eight bytes of a UID as a number, each that is missing as 0.
fn beginning(uid: &[u8]) -> u64
    ensures { result ≡ beginning_of uid.now }
{
    let mut number = 0;
    for place in 0..8 {
        number = number * 256 + u64::from(byte_at(uid, place));
    }
    number
}

/// The byte at a place, or 0 if there is none.
fn byte_at(bytes: &[u8], place: usize) -> u8
    ensures { result ≡ slice_index_or bytes.now place 0 }
{
    match bytes.get(place) {
        None => 0,
        Some(byte) => *byte,
    }
}

/// What a slice of bytes holds are bytes: its type says so, and this makes it known of the list that it stands for.
fn are_bytes(bytes: &[u8])
    ensures { IsBytes bytes.now }
{}

/// The instance of its UID that an event overrides.
fn overridden(zones: FileZones<'_>, event: &Event) -> Option<Moment>
    requires own { IsEventOf (map zone_said zones.zones.now) event.now }
    ensures { result ≡ overridden (clocks_in zones.entry) event.now }
{
    match event.recurrence {
        None => None,
        Some(time) => Some(instant(zones, time)),
    }
}
