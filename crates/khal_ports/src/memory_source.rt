//! Files in memory.
ghost use Rattle.std.specs.Prelude.{◌≡◌};

use crate::fault::SourceFault;
use crate::pieces::Pieces;
use crate::source::{MOST_BYTES, Source};
use std::alloc::Global;

/// A file in memory.
#[derive(Drop)]
pub struct MemoryFile {
    pub name: String,
    pub bytes: Vec<u8>,
}

/// Files in memory. A read gives the bytes that the file has, or TooLarge if they are too many.
#[derive(Drop)]
pub struct MemorySource {
    pub files: Vec<MemoryFile>,
}

impl Source for MemorySource {
    ghost use Rattle.std.specs.Prelude.{◌≡◌, map, string_bytes};
    ghost use Rattle.khal_ports.specs.Answers.{IsRead};

    ghost names = { λ source. map (λ file. string_bytes file.name) source.files.items };

    ghost reads = { λ before index answer after. (after ≡ before)
        × IsRead (map (λ file. file.bytes.items) before.files.items) index answer };

    ghost failed = { λ _. 0 };

    fn count(&self) -> usize {
        self.files.len()
    }

    fn name(&self, index: usize) -> &str {
        self.files[index].name.as_str()
    }

    /// The bytes are one piece.
    fn read_into<P: Pieces>(
        &mut self,
        alloc: Global,
        index: usize,
        pieces: &mut P,
    ) -> Result<(), SourceFault> {
        let bytes = self.files[index].bytes.as_slice();
        if bytes.len() > MOST_BYTES {
            return Err(SourceFault::TooLarge);
        }
        match pieces.add(alloc, bytes) {
            Ok(()) => Ok(()),
            Err(_) => Err(SourceFault::Memory),
        }
    }

    /// No device fails.
    fn failures(&self) -> u64 {
        0
    }
}
