//! The zone files below a folder.
ghost use Rattle.std.specs.Prelude.{◌≡◌};
ghost use Rattle.std.specs.List.{list_all};
ghost use Rattle.khal_ports.specs.Finds.{has_empty_part, is_path, is_path_byte};

use crate::fault::SourceFault;
use crate::file_bytes::read_front;
use crate::zone_source::{MOST_ZONE_BYTES, ZoneSource};
use std::alloc::Global;
use std::rt::Files;

/// The most bytes of a name that has a file.
const LONGEST_NAME: usize = 255;

/// The zone files below a folder, such as `/usr/share/zoneinfo`, or none if there is no folder.
///
/// A name of 1 to 255 bytes of letters, digits, `_`, `-`, `+` and `/` without an empty part has the file
/// with that path below the folder. There is none for any other name, nor where the path leads nowhere or
/// through a file. Asking fails as Device for every other fault of the system and for anything that is no
/// regular file, such as a folder or a pipe, which is not opened; as TooLarge once it has read one byte more
/// than a file may have. A file that is changed for a pipe just before it is opened is waited for.
#[derive(Drop)]
pub struct FolderZones<R> {
    rt: R,
    path: Option<String>,
    failures: u64,
}

impl<R: Files + Clone + Drop> FolderZones<R> {
    /// The zone files below this folder, if there is one. None of them has failed so far.
    pub fn below(rt: R, path: Option<String>) -> FolderZones<R>
        ensures path { result.path ≡ path }
        ensures failed { ⟦<FolderZones<R> as ZoneSource>⟧.failed result ≡ 0 }
    {
        FolderZones {
            rt,
            path,
            failures: 0,
        }
    }
}

/// Whether a byte may stand in a path.
fn is_path_byte(byte: u8) -> bool
    ensures { result ≡ is_path_byte byte }
{
    byte.is_ascii_alphanumeric() || matches!(byte, b'_' | b'-' | b'+' | b'/')
}

/// Whether each byte of a name may stand in a path.
fn has_path_bytes(name: &str) -> bool
    ensures { result ≡ list_all is_path_byte name.now }
{
    name.bytes().all(is_path_byte)
}

/// Whether a part of a name between slashes is empty.
fn has_empty_part(name: &str) -> bool
    ensures { result ≡ has_empty_part name.now }
{
    name.split('/').any(|part| part.is_empty())
}

/// Whether a name may have a file: no path out of the folder does.
fn is_path(name: &str) -> bool
    ensures { result ≡ is_path name.now }
{
    name.len() <= LONGEST_NAME && !has_empty_part(name) && has_path_bytes(name)
}

impl<R: Files + Clone + Drop> ZoneSource for FolderZones<R> {
    ghost use Rattle.std.specs.Prelude.{◌≡◌};
    ghost use Rattle.khal_ports.specs.Finds.{IsFindBelow};

    ghost finds = { λ before name answer after. (after.path ≡ before.path) × IsFindBelow before.path name answer };

    ghost failed = { λ zones. zones.failures };

    fn find(&mut self, alloc: Global, name: &[u8]) -> Result<Option<Vec<u8>>, SourceFault> {
        let (Some(folder), Ok(name)) = (&self.path, str::from_utf8(name)) else {
            return Ok(None);
        };
        if !is_path(name) {
            return Ok(None);
        }
        let most = MOST_ZONE_BYTES as u64 + 1;
        match read_front(&self.rt, alloc, folder.as_str(), name, most) {
            Ok(Some(bytes)) if bytes.len() > MOST_ZONE_BYTES => Err(SourceFault::TooLarge),
            Err(SourceFault::Device) => {
                self.failures = self.failures.saturating_add(1);
                Err(SourceFault::Device)
            }
            answer => answer,
        }
    }

    fn failures(&self) -> u64 {
        self.failures
    }
}
