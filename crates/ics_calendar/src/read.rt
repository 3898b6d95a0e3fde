//! Reading a file.
ghost use Rattle.std.specs.Prelude.{◌≤◌, length, map};
ghost use Rattle.ics_calendar.specs.Files.{file_of, SaysFile};
ghost use Rattle.ics_calendar.specs.GivenFiles.{files_by};

use crate::unresolved_file::UnresolvedFile;
use crate::zone_files::ZoneFiles;
use ics_components::FileFault;
use ics_file::FileEvents;
use std::alloc::Global;

/// The time zones and the events of a file of at most 16,777,216 bytes, or its first fault (RFC 5545, sections 3.4 and 3.6).
///
/// The first fault is the one on the least line and, if that has several, of the least kind. Faults of zones and of
/// instants count only if there is no other. `zones` are zone files (RFC 9636), each with the TZID that it is for: of equal
/// names the first counts, and a VTIMEZONE of the calendar goes before them. `Memory` if an allocation fails.
pub fn read_file(
    alloc: Global,
    bytes: &[u8],
    zones: &[(Vec<u8>, Vec<u8>)],
) -> Result<FileEvents, FileFault>
    requires { length bytes.now ≤ 16_777_216 }
    ensures { SaysFile result (file_of (files_by (map (λ pair. (pair.0.items, pair.1.items)) zones.now)) bytes.now) }
{
    let unresolved = UnresolvedFile::read(alloc, bytes)?;
    let files = ZoneFiles::by(alloc, zones)?;
    unresolved.settle(alloc, &files)
}
