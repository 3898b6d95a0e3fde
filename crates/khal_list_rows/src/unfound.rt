//! Runs in which asking for a zone file fails.

use crate::runs::run_over;
use khal_list::{MemorySource, SourceFault, ZoneSource};
use std::alloc::Global;
use std::io;

/// Zone files of which none is read.
#[derive(Drop)]
pub struct Unfound {
    failures: u64,
}

impl ZoneSource for Unfound {
    ghost finds = { λ before name answer after. Unit {0} };

    ghost failed = { λ zones. zones.failures };

    fn find(&mut self, _alloc: Global, _name: &[u8]) -> Result<Option<Vec<u8>>, SourceFault> {
        self.failures = self.failures.saturating_add(1);
        Err(SourceFault::Device)
    }

    fn failures(&self) -> u64 {
        self.failures
    }
}

/// Runs words where asking for a zone file fails, and prints how often it was asked: `unfound WORDS`.
pub fn run_unfound(
    rt: HostRuntime,
    source: &mut MemorySource,
    words: &str,
    now: i64,
) -> io::Result<()> {
    let mut zones = Unfound { failures: 0 };
    run_over(rt, source, &mut zones, words, now)?;
    println!(rt; "asked {}", zones.failures())
}
