//! Files of which the sound parts are kept.
ghost use Rattle.std.specs.Prelude.{◌≡◌, ◌≤◌, ◌∷◌, [], length, map, Err, IfOk};
ghost use Rattle.ics_calendar.specs.Files.{file_of};
ghost use Rattle.ics_calendar.specs.GivenFiles.{files_by};
ghost use Rattle.ics_calendar.specs.Parts.{file_gives, names_for_parts, nothing_said};
ghost use Rattle.ics_calendar.specs.UnresolvedFiles.{IsFirstOf};
ghost use Rattle.ics_components.specs.Fronts.{IsFrontOf};
ghost use Rattle.ics_components.specs.PlacedLines.{placed};
ghost use Rattle.ics_calendar.specs.ZoneTables.{given_by};

use crate::file_parts::FileParts;
use crate::given_file::GivenFile;
use crate::shared_zones::SharedZones;
use crate::unknown_zones::copied;
use crate::unresolved_file::UnresolvedFile;
use crate::zone_files::ZoneFiles;
use ics_components::{Fault, FileFault, Front};
use ics_file::FileEvents;
use std::alloc::{AllocError, Global};
use std::marker::Model;

/// How far a file is read before zone files are given.
#[derive(Drop)]
pub enum State {
    /// The first round finds nothing.
    Whole(UnresolvedFile),
    /// It finds this fault first, and the file has parts.
    Parted(Fault, FileParts),
    /// It finds this fault first, and the file has no parts.
    Refused(Fault),
}

/// A file of which the sound parts are kept, as far as it is read before zone files are given. Contracts see its name and its bytes.
#[derive(Drop)]
pub struct PartialFile<'a> {
    name: &'a str,
    bytes: &'a [u8],
    state: State,
}

impl<'a> Model for PartialFile<'a> {
    ghost use Rattle.std.specs.Prelude.{◌≤◌, length};
    ghost use Rattle.ics_calendar.specs.Parts.{NamedFile};

    ghost Value = { NamedFile };

    ghost use Rattle.ics_calendar.specs.Inner.PartialFiles.{IsRead};

    ghost view = { λ a. record { name = a.name.now; bytes = a.bytes.now } };

    ghost invariant = { λ a. (length a.bytes.now ≤ 16_777_216) × IsRead a.name.now a.bytes.now a.state };
}

/// A file that gives nothing, for that fault.
fn refused(alloc: Global, fault: Fault) -> Result<GivenFile, AllocError>
    ensures { IfOk result (λ given. given ≡ record { said = nothing_said; faults = fault ∷ [] }) }
{
    let mut faults = Vec::new(alloc);
    faults.push(fault)?;
    Ok(GivenFile {
        file: FileEvents {
            zones: Vec::new(alloc),
            events: Vec::new(alloc),
        },
        faults,
    })
}

/// What the parts of a file give with these zone files, or nothing if it has none; `fault` is its first.
fn given_in_parts(
    alloc: Global,
    name: &str,
    bytes: &[u8],
    files: &ZoneFiles,
    fault: Fault,
) -> Result<GivenFile, AllocError>
    requires size { length bytes.now ≤ 16_777_216 }
    requires refused { file_of (given_by files.now) bytes.now ≡ Err fault }
    ensures { IfOk result (λ given. given ≡ file_gives (given_by files.now) name.now bytes.now) }
{
    match FileParts::read(alloc, name, bytes)? {
        Some(parts) => parts.settle(alloc, files, fault),
        None => refused(alloc, fault),
    }
}

impl<'a> PartialFile<'a> {
    /// Reads a file of that name, of at most 16,777,216 bytes, as far as no zone files are needed.
    pub fn read(
        alloc: Global,
        name: &'a str,
        bytes: &'a [u8],
    ) -> Result<PartialFile<'a>, AllocError>
        requires { length bytes.now ≤ 16_777_216 }
        ensures { IfOk result (λ partial. partial ≡ record { name = name.now; bytes = bytes.now }) }
    {
        let mut shared = SharedZones::none(alloc);
        PartialFile::sharing(alloc, &mut shared, name, bytes)
    }

    /// The same. Time zones that are shared are not made again. Most files have no fault: only one that has is read event by event.
    pub fn sharing(
        alloc: Global,
        shared: &mut SharedZones,
        name: &'a str,
        bytes: &'a [u8],
    ) -> Result<PartialFile<'a>, AllocError>
        requires { length bytes.now ≤ 16_777_216 }
        ensures { IfOk result (λ partial. partial ≡ record { name = name.now; bytes = bytes.now }) }
    {
        match UnresolvedFile::or_front(alloc, shared, bytes)? {
            Ok(unresolved) => Ok(PartialFile {
                name,
                bytes,
                state: State::Whole(unresolved),
            }),
            Err((fault, front)) => PartialFile::in_parts(alloc, name, bytes, fault, front),
        }
    }

    /// The parts of a file, if it has any, in which the first round finds a fault first.
    fn in_parts(
        alloc: Global,
        name: &'a str,
        bytes: &'a [u8],
        fault: Fault,
        front: Front,
    ) -> Result<PartialFile<'a>, AllocError>
        requires size { length bytes.now ≤ 16_777_216 }
        requires first { IsFirstOf bytes.now fault }
        requires front { IsFrontOf (placed bytes.now) front }
        ensures { IfOk result (λ partial. partial ≡ record { name = name.now; bytes = bytes.now }) }
    {
        let state = match FileParts::behind(alloc, name, bytes, front)? {
            Some(parts) => State::Parted(fault, parts),
            None => State::Refused(fault),
        };
        Ok(PartialFile { name, bytes, state })
    }

    /// The names of the time zones that it wants.
    pub fn wanted(&self, alloc: Global) -> Result<Vec<Vec<u8>>, AllocError>
        ensures { IfOk result (λ names. map (λ name. name.items) names.items ≡ names_for_parts self.now.name self.now.bytes) }
    {
        match &self.state {
            State::Whole(unresolved) => unresolved.wanted(alloc),
            State::Parted(_, parts) => copied(alloc, parts.wanted()),
            State::Refused(_) => Ok(Vec::new(alloc)),
        }
    }

    /// What the file gives with these zone files.
    pub fn settle(self, alloc: Global, files: &ZoneFiles) -> Result<GivenFile, AllocError>
        ensures { IfOk result (λ given. given ≡ file_gives (given_by files.now) self.entry.name self.entry.bytes) }
    {
        let PartialFile { name, bytes, state } = self;
        match state {
            State::Whole(unresolved) => match unresolved.settle(alloc, files) {
                Ok(file) => Ok(GivenFile {
                    file,
                    faults: Vec::new(alloc),
                }),
                Err(FileFault::Memory) => Err(AllocError),
                Err(FileFault::At { line, kind }) => {
                    given_in_parts(alloc, name, bytes, files, Fault { line, kind })
                }
            },
            State::Parted(fault, parts) => parts.settle(alloc, files, fault),
            State::Refused(fault) => refused(alloc, fault),
        }
    }
}

/// The events that a file of that name gives, of at most 16,777,216 bytes, and the faults that are named: those of an accepted file, or else those of its sound
/// parts. `zones` are zone files, as `read_file` takes them. The error means that an allocation failed.
pub fn read_sound_parts(
    alloc: Global,
    name: &str,
    bytes: &[u8],
    zones: &[(Vec<u8>, Vec<u8>)],
) -> Result<GivenFile, AllocError>
    requires { length bytes.now ≤ 16_777_216 }
    ensures { IfOk result (λ given. given ≡ file_gives (files_by (map (λ pair. (pair.0.items, pair.1.items)) zones.now)) name.now bytes.now) }
{
    let file = PartialFile::read(alloc, name, bytes)?;
    let files = ZoneFiles::by(alloc, zones)?;
    file.settle(alloc, &files)
}
