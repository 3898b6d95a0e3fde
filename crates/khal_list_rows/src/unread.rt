//! Files in memory, of which one is not read.

use crate::runs::run_over;
use khal_list::{MOST_BYTES, MemoryFile, MemorySource, NoZones, Pieces, Source, SourceFault};
use std::alloc::Global;
use std::io;

/// Files in memory, of which the device fails one.
#[derive(Drop)]
pub struct Unread<'a> {
    files: &'a [MemoryFile],
    index: usize,
    failures: u64,
}

impl<'a> Unread<'a> {
    /// The files, of which the one with this index is not read.
    pub fn new(files: &'a [MemoryFile], index: usize) -> Unread<'a> {
        Unread {
            files,
            index,
            failures: 0,
        }
    }
}

impl Source for Unread<'_> {
    ghost use Rattle.std.specs.Prelude.{map, string_bytes};

    ghost names = { λ source. map (λ file. string_bytes file.name) source.files.now };

    ghost reads = { λ before index answer after. Unit {0} };

    ghost failed = { λ source. source.failures };

    fn count(&self) -> usize {
        self.files.len()
    }

    fn name(&self, index: usize) -> &str {
        self.files[index].name.as_str()
    }

    fn read_into<P: Pieces>(
        &mut self,
        alloc: Global,
        index: usize,
        pieces: &mut P,
    ) -> Result<(), SourceFault> {
        if index == self.index {
            self.failures = self.failures.saturating_add(1);
            return Err(SourceFault::Device);
        }
        let bytes = self.files[index].bytes.as_slice();
        if bytes.len() > MOST_BYTES {
            return Err(SourceFault::TooLarge);
        }
        match pieces.add(alloc, bytes) {
            Ok(()) => Ok(()),
            Err(_) => Err(SourceFault::Memory),
        }
    }

    fn failures(&self) -> u64 {
        self.failures
    }
}

/// Runs words over files of which the one with an index is not read: `unread INDEX WORDS`.
pub fn run_unread(rt: HostRuntime, source: &MemorySource, line: &str, now: i64) -> io::Result<()> {
    let (index, words) = line.split_once(' ').unwrap_or((line, ""));
    let mut unread = Unread::new(source.files.as_slice(), index.parse().unwrap_or(0));
    run_over(rt, &mut unread, &mut NoZones, words, now)
}
