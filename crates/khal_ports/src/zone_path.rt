//! A zone file that is named by its path.
ghost use Rattle.std.specs.Prelude.{◌≤◌, IfOk, vec_len};
ghost use Rattle.khal_ports.specs.Finds.{most_zone_bytes};

use crate::fault::SourceFault;
use crate::file_bytes::read_path;
use crate::zone_source::MOST_ZONE_BYTES;
use std::alloc::Global;
use std::rt::Files;

/// The bytes of the zone file with this path, such as `/etc/localtime`; a link is followed. Device if the
/// path leads nowhere, for every other fault of the system and for anything that is no regular file, such as
/// a folder or a pipe, which is not opened; TooLarge once one byte more is read than a zone file may have. A
/// file that is changed for a pipe just before it is opened is waited for.
pub fn read_zone_file<R: Files>(rt: &R, alloc: Global, path: &str) -> Result<Vec<u8>, SourceFault>
    ensures { IfOk result (λ bytes. vec_len bytes ≤ most_zone_bytes) }
{
    match read_path(rt, alloc, path, MOST_ZONE_BYTES as u64 + 1)? {
        Some(bytes) if bytes.len() <= MOST_ZONE_BYTES => Ok(bytes),
        Some(_) => Err(SourceFault::TooLarge),
        None => Err(SourceFault::Device),
    }
}
