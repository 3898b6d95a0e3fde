//! The events that count: for each UID a master, and for each of its instances an override.
ghost use Rattle.std.specs.Prelude.{◌≡◌, false, filter, map, IfOk};
ghost use Rattle.std.specs.List.Sorted.{IsSorted};
ghost use Rattle.std.specs.Ordering.{on};
ghost use Rattle.ics_file.specs.File.{said_by};
ghost use Rattle.ics_starts.specs.Clocks.{display_clock};
ghost use Rattle.ics_series.specs.Versions.{is_followed, is_named, is_override, is_same, lasts, seen, subject_cmp, subject_seen, AreChosen};
ghost use Rattle.ics_series.specs.Inner.Whole.{AreRead};

use crate::version::{Subject, Version};
use crate::versions::{compare, versions};
use ics_file::FileEvents;
use ics_zone::Display;
use std::alloc::{AllocError, Global};

/// For each subject the greatest of its versions by SEQUENCE, then file, then place (RFC 5545, section
/// 3.8.7.4), in the order of the subjects.
pub(crate) fn chosen<'a>(
    alloc: Global,
    files: &'a [FileEvents],
    display: &Display,
) -> Result<Vec<Version<'a>>, AllocError>
    ensures chosen { IfOk result (λ chosen. AreChosen (map said_by files.entry.now) (display_clock display.now) chosen.items) }
    ensures read { IfOk result (λ _. AreRead (map said_by files.entry.now)) }
{
    let mut versions = versions(alloc, files, display)?;
    // Files mostly have their events in some order of their UIDs: this sort keeps what is in order.
    versions.sort_by(compare)?;
    last_of_each(alloc, versions)
}

/// The last of each run of versions of one subject. Where no subject has several versions, the list is given back as it is.
fn last_of_each<'a>(
    alloc: Global,
    versions: Vec<Version<'a>>,
) -> Result<Vec<Version<'a>>, AllocError>
    ensures { IfOk result (λ last. map seen last.items ≡ lasts is_same (map seen versions.entry.items)) }
{
    if has_followed(&versions) {
        lasts(alloc, &versions)
    } else {
        Ok(versions)
    }
}

/// Whether two versions of one subject follow each other.
fn has_followed(versions: &[Version<'_>]) -> bool
    ensures { result ≡ false → lasts is_same (map seen versions.now) ≡ map seen versions.now }
{
    for (k, version) in versions.iter().enumerate() {
        let rest = &versions[k + 1..];
        if is_followed(version, rest) {
            return true;
        }
    }
    false
}

/// The last of each run of versions of one subject, as another list.
fn lasts<'a>(alloc: Global, versions: &[Version<'a>]) -> Result<Vec<Version<'a>>, AllocError>
    ensures { IfOk result (λ last. map seen last.items ≡ lasts is_same (map seen versions.entry.now)) }
{
    let mut last = Vec::new(alloc);
    for (k, version) in versions.iter().enumerate() {
        if is_followed(version, &versions[k + 1..]) {
            continue;
        }
        last.push(*version)?;
    }
    Ok(last)
}

/// Whether the next version has the same subject.
fn is_followed(version: &Version<'_>, rest: &[Version<'_>]) -> bool
    ensures { result ≡ is_followed is_same (seen version.now) (map seen rest.now) }
{
    match rest.first() {
        Some(next) => is_same(version, next),
        None => false,
    }
}

/// Whether two versions have one subject. The first bytes of their UIDs tell most apart.
#[tactic(auto, using(crate::proofs::BeginningLemmas::apart))]
fn is_same(a: &Version<'_>, b: &Version<'_>) -> bool
    ensures { result ≡ is_same (seen a.now) (seen b.now) }
{
    if a.beginning != b.beginning {
        return false;
    }
    a.subject == b.subject
}

/// The versions that override an instance.
pub(crate) fn overrides<'a>(
    alloc: Global,
    chosen: &[Version<'a>],
) -> Result<Vec<Version<'a>>, AllocError>
    ensures { IfOk result (λ overrides. map seen overrides.items ≡ filter is_override (map seen chosen.entry.now)) }
{
    let mut overrides = Vec::new(alloc);
    for version in chosen {
        if version.subject.recurrence.is_some() {
            overrides.push(*version)?;
        }
    }
    Ok(overrides)
}

/// Whether one of the versions has this subject.
pub(crate) fn is_named(subject: Subject<'_>, versions: &[Version<'_>]) -> bool
    requires { IsSorted (on (λ v. subject_seen v.subject) subject_cmp) versions.now }
    ensures { result ≡ is_named (subject_seen subject.entry) (map seen versions.now) }
{
    versions
        .binary_search_by_key(&subject, |version| version.subject)
        .is_ok()
}
