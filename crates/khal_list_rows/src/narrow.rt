//! Runs whose outputs take few bytes.

use crate::row::shown_bytes;
use crate::runs::{print_fault, request};
use khal_list::{AtEnd, MemorySource, NoZones, Request, Sink, SinkFault, run};
use std::alloc::Global;
use std::io;

/// Bytes in memory. It takes those that there is room for, and then fails or takes none.
#[derive(Drop)]
pub struct Narrow {
    pub bytes: Vec<u8>,
    room: usize,
    fails: bool,
    failures: u64,
}

impl Narrow {
    /// Room for so many bytes, behind which it fails where `fails`.
    pub fn new(alloc: Global, room: usize, fails: bool) -> Narrow {
        Narrow {
            bytes: Vec::new(alloc),
            room,
            fails,
            failures: 0,
        }
    }
}

impl Sink for Narrow {
    ghost use Rattle.std.specs.Prelude.{None};

    ghost taken = { λ _. None };

    ghost puts = { λ before bytes answer after. Unit {0} };

    ghost flushes = { λ before answer after. Unit {0} };

    ghost failed = { λ sink. sink.failures };

    fn put(&mut self, bytes: &[u8]) -> Result<usize, SinkFault> {
        if self.fails && self.room == 0 {
            self.failures = self.failures.saturating_add(1);
            return Err(SinkFault::Device);
        }
        let count = bytes.len().min(self.room);
        match self.bytes.extend_from_slice(&bytes[..count]) {
            Ok(()) => {
                self.room -= count;
                Ok(count)
            }
            Err(_) => Err(SinkFault::Memory),
        }
    }

    fn flush(&mut self) -> Result<(), SinkFault> {
        Ok(())
    }

    fn failures(&self) -> u64 {
        self.failures
    }
}

/// Runs words where standard output takes at most so many bytes, or standard error where `is_err`, and
/// prints the status or the fault, and what each took.
pub fn run_narrow(
    rt: HostRuntime,
    source: &mut MemorySource,
    line: &str,
    now: i64,
    is_err: bool,
) -> io::Result<()> {
    let (room, words) = line.split_once(' ').unwrap_or((line, ""));
    match request(rt.alloc(), words, now) {
        Ok(request) => print_narrow(rt, source, &request, room.parse().unwrap_or(0), is_err),
        Err(fault) => print_fault(rt, fault),
    }
}

/// The same of their request.
fn print_narrow(
    rt: HostRuntime,
    source: &mut MemorySource,
    request: &Request,
    room: usize,
    is_err: bool,
) -> io::Result<()> {
    let mut out = Narrow::new(rt.alloc(), if is_err { 1_000 } else { room }, false);
    let mut err = Narrow::new(rt.alloc(), if is_err { room } else { 1_000 }, false);
    match run(
        rt.alloc(),
        source,
        &mut NoZones,
        request,
        AtEnd::GivenBack,
        &mut out,
        &mut err,
    ) {
        Ok(status) => println!(rt; "[{}]", status.code())?,
        Err(fault) => println!(rt; "[{}]", fault.name())?,
    }
    println!(rt;
        "out: {}\nerr: {}",
        shown_bytes(out.bytes.as_slice()),
        shown_bytes(err.bytes.as_slice())
    )
}
