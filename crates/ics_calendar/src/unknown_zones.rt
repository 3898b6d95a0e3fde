//! The time zones that a file wants.
ghost use Rattle.std.specs.Prelude.{◌≡◌, ◌≤◌, ◌∷◌, ◌++◌, ℕ, List, [], length, map, IfOk, OnOk};
ghost use Rattle.ics_calendar.specs.DeferredChecks.{unknown_in};
ghost use Rattle.ics_calendar.specs.Settled.{all_unknown};
ghost use Rattle.ics_calendar.specs.Files.{wanted_names};
ghost use Rattle.ics_calendar.specs.Inner.UnknownNames.{name_in, AreNames};
ghost use Rattle.ics_calendar.specs.Wanted.{each_once};
ghost use Rattle.ics_calendar.specs.ZoneTables.{known_by};

use crate::unresolved_file::UnresolvedFile;
use crate::zone_table::ZoneTable;
use ics_components::{DeferredCheck, FileFault, LineCheck, Tzid};
use std::alloc::{AllocError, Global};
use std::collections::BTreeSet;

/// Names of time zones, each once, in the order of their first places.
#[derive(Drop)]
pub struct UnknownNames {
    pub seen: BTreeSet<Tzid>,
    pub names: Vec<Tzid>,
}

impl UnknownNames {
    /// No names.
    pub fn new(alloc: Global) -> UnknownNames
        ensures { AreNames [] result }
    {
        UnknownNames {
            seen: BTreeSet::new(alloc),
            names: Vec::new(alloc),
        }
    }

    /// Adds a name.
    fn put(&mut self, name: &Tzid) -> Result<(), AllocError>
        ensures { OnOk result ((names : List (List ℕ)) → AreNames names self.old → AreNames (names ++ name.now ∷ []) self.new) }
    {
        if !self.seen.insert(name.shared()?)? {
            return Ok(());
        }
        self.names.push(name.shared()?)?;
        Ok(())
    }

    /// Adds the name of the time zone that is to be known, if it is not.
    fn note(&mut self, table: &ZoneTable, check: &DeferredCheck) -> Result<(), AllocError>
        ensures { OnOk result ((names : List (List ℕ)) → AreNames names self.old
            → AreNames (names ++ name_in (unknown_in (known_by table.now).index check.now)) self.new) }
    {
        match check {
            DeferredCheck::Zone(used) if table.index(used).is_none() => self.put(&used.name),
            _ => Ok(()),
        }
    }

    /// Adds the names of the time zones that are to be known and are not, in the order of the checks.
    pub fn add(&mut self, table: &ZoneTable, checks: &[LineCheck]) -> Result<(), AllocError>
        ensures { OnOk result ((names : List (List ℕ)) → AreNames names self.old
            → AreNames (names ++ all_unknown (known_by table.now).index checks.now) self.new) }
    {
        for deferred in checks {
            self.note(table, &deferred.check)?;
        }
        Ok(())
    }
}

/// The names of the time zones that are to be known and are not, each once, in the order of the checks.
pub fn unknown_names(
    alloc: Global,
    table: &ZoneTable,
    checks: &[LineCheck],
) -> Result<Vec<Tzid>, AllocError>
    ensures { IfOk result (λ names. names.items ≡ each_once (all_unknown (known_by table.now).index checks.now)) }
{
    let mut unknown = UnknownNames::new(alloc);
    unknown.add(table, checks)?;
    Ok(unknown.names)
}

/// The bytes of each of these names.
pub fn copied(alloc: Global, names: &[Tzid]) -> Result<Vec<Vec<u8>>, AllocError>
    ensures { IfOk result (λ copies. map (λ name. name.items) copies.items ≡ names.now) }
{
    let mut copies = Vec::with_capacity(alloc, names.len())?;
    for name in names {
        copies.push(Vec::from_slice(alloc, name.as_slice())?)?;
    }
    Ok(copies)
}

/// The names of the time zones that stamps of a file are in and that no VTIMEZONE of their calendar defines (RFC 5545,
/// section 3.2.19), each once, in the order of the lines. The file has at most 16,777,216 bytes.
///
/// These are the TZIDs of the properties on whose lines UnknownZone is a fault of the second round if no zone files are
/// given. There are none if the first round finds a fault. The error means that an allocation failed.
pub fn wanted(alloc: Global, bytes: &[u8]) -> Result<Vec<Vec<u8>>, AllocError>
    requires { length bytes.now ≤ 16_777_216 }
    ensures { IfOk result (λ names. map (λ name. name.items) names.items ≡ wanted_names bytes.now) }
{
    match UnresolvedFile::read(alloc, bytes) {
        Ok(unresolved) => unresolved.wanted(alloc),
        Err(FileFault::Memory) => Err(AllocError),
        Err(FileFault::At { .. }) => Ok(Vec::new(alloc)),
    }
}
