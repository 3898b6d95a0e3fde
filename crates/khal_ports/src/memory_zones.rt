//! Zone files in memory.
ghost use Rattle.std.specs.Prelude.{◌≡◌, map, option_map};
ghost use Rattle.khal_ports.specs.Finds.{file_named};

use crate::fault::SourceFault;
use crate::zone_source::{MOST_ZONE_BYTES, ZoneSource};
use std::alloc::Global;

/// A zone file in memory, and the name that it is for.
#[derive(Drop)]
pub struct MemoryZone {
    pub name: Vec<u8>,
    pub bytes: Vec<u8>,
}

/// Zone files in memory. The first of a name counts; it is TooLarge if it has too many bytes.
#[derive(Drop)]
pub struct MemoryZones {
    pub files: Vec<MemoryZone>,
}

/// The bytes for a name.
fn bytes_of<'a>(files: &'a [MemoryZone], name: &[u8]) -> Option<&'a [u8]>
    ensures { option_map (λ bytes. bytes.now) result
        ≡ file_named (map (λ file. (file.name.items, file.bytes.items)) files.entry.now) name.now }
{
    for file in files {
        if file.name.as_slice() == name {
            return Some(file.bytes.as_slice());
        }
    }
    None
}

impl ZoneSource for MemoryZones {
    ghost use Rattle.std.specs.Prelude.{◌≡◌, map};
    ghost use Rattle.khal_ports.specs.Finds.{IsFind};

    ghost finds = { λ before name answer after. (after ≡ before)
        × IsFind (map (λ file. (file.name.items, file.bytes.items)) before.files.items) name answer };

    ghost failed = { λ _. 0 };

    fn find(&mut self, alloc: Global, name: &[u8]) -> Result<Option<Vec<u8>>, SourceFault> {
        let Some(bytes) = bytes_of(&self.files, name) else {
            return Ok(None);
        };
        if bytes.len() > MOST_ZONE_BYTES {
            return Err(SourceFault::TooLarge);
        }
        match Vec::from_slice(alloc, bytes) {
            Ok(bytes) => Ok(Some(bytes)),
            Err(_) => Err(SourceFault::Memory),
        }
    }

    /// No device fails.
    fn failures(&self) -> u64 {
        0
    }
}
