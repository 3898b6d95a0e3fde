//! Runs in which a read fails, or an output ends after some of its bytes.

use crate::narrow::Narrow;
use crate::runs::{Written, outcome, request_in};
use crate::unread::Unread;
use khal_list::{AtEnd, MemoryFile, MemorySource, MemoryZones, Request, RunFault, Status, run};
use std::alloc::{AllocError, Global};
use std::{io, mem};

/// More than any output of a row.
const AMPLE: usize = 1_000_000;

/// How many reads failed, and after how many bytes an output ended.
#[derive(Clone, Copy)]
pub struct Tried {
    runs: usize,
    reads: usize,
    out: usize,
    err: usize,
}

impl Tried {
    /// Nothing so far.
    pub const fn none() -> Tried {
        Tried {
            runs: 0,
            reads: 0,
            out: 0,
            err: 0,
        }
    }

    /// Runs words with each read failing in turn, and with each output ending after each of its bytes,
    /// once by a fault and once by taking none. Prints the runs that are not as they must be.
    pub fn run(
        &mut self,
        rt: HostRuntime,
        source: &mut MemorySource,
        zones: &mut MemoryZones,
        words: &str,
        now: i64,
    ) -> io::Result<()> {
        match request_in(rt.alloc(), zones, words, now) {
            Ok(request) => self.run_request(rt, source, zones, &request),
            Err(fault) => {
                drop(fault);
                Ok(())
            }
        }
    }

    /// The same of their request.
    fn run_request(
        &mut self,
        rt: HostRuntime,
        source: &mut MemorySource,
        zones: &mut MemoryZones,
        request: &Request,
    ) -> io::Result<()> {
        match outcome(rt.alloc(), source, zones, request) {
            Ok(whole) => {
                depart(rt, source, zones, request)?;
                ends_early(rt, source, zones, request, &whole)?;
                self.count(source, &whole);
                Ok(())
            }
            Err(_) => Ok(()),
        }
    }

    /// Counts a run.
    fn count(&mut self, source: &MemorySource, whole: &Written) {
        self.runs = self.runs.saturating_add(1);
        self.reads = self.reads.saturating_add(source.files.len());
        self.out = self.out.saturating_add(whole.out.len());
        self.err = self.err.saturating_add(whole.err.len());
    }

    /// Prints how many these were.
    pub fn print(&self, rt: HostRuntime) -> io::Result<()> {
        println!(rt;
            "{} runs: {} reads, {} bytes of output, {} of standard error",
            self.runs, self.reads, self.out, self.err
        )
    }
}

/// Prints the files for which a run that does not read them is not as it must be.
fn depart(
    rt: HostRuntime,
    source: &mut MemorySource,
    zones: &mut MemoryZones,
    request: &Request,
) -> io::Result<()> {
    for index in 0..source.files.len() {
        if !lists_without(rt.alloc(), source, zones, request, index)? {
            println!(rt; "read {index} departs")?;
        }
    }
    Ok(())
}

/// Whether a run that does not read one of the files lists as one in which that file is refused, and
/// says so.
fn lists_without(
    alloc: Global,
    source: &mut MemorySource,
    zones: &mut MemoryZones,
    request: &Request,
    index: usize,
) -> Result<bool, AllocError> {
    let Ok(without) = run_without(alloc, source.files.as_slice(), zones, request, index) else {
        return Ok(false);
    };
    let mut bytes = Vec::from_slice(alloc, b"x")?;
    swap_bytes(source, index, &mut bytes);
    let refused = outcome(alloc, source, zones, request);
    swap_bytes(source, index, &mut bytes);
    let Ok(refused) = refused else {
        return Ok(false);
    };
    let is_said = differ_by_one(without.err.as_str(), refused.err.as_str());
    Ok(is_said && without.out == refused.out && without.status == Status::Faulty)
}

/// Runs a request over files of which one is not read.
fn run_without(
    alloc: Global,
    files: &[MemoryFile],
    zones: &mut MemoryZones,
    request: &Request,
    index: usize,
) -> Result<Written, RunFault> {
    let mut unread = Unread::new(files, index);
    outcome(alloc, &mut unread, zones, request)
}

/// Puts other bytes in place of a file's, and gives these.
fn swap_bytes(source: &mut MemorySource, index: usize, bytes: &mut Vec<u8>) {
    if let Some(file) = source.files.get_mut(index) {
        mem::swap(&mut file.bytes, bytes);
    }
}

/// Whether some lines are others, but for one that has ReadFault in place of a refusal.
fn differ_by_one(lines: &str, others: &str) -> bool {
    let mut unread = 0u32;
    for (line, other) in lines.lines().zip(others.lines()) {
        if line != other {
            let name = line.strip_suffix(": ReadFault");
            if name.is_none() || name != other.strip_suffix(": line 1: BadLine") {
                return false;
            }
            unread = unread.saturating_add(1);
        }
    }
    unread == 1 && lines.lines().count() == others.lines().count()
}

/// Prints the runs that are not as they must be where an output ends after some of its bytes.
fn ends_early(
    rt: HostRuntime,
    source: &mut MemorySource,
    zones: &mut MemoryZones,
    request: &Request,
    whole: &Written,
) -> io::Result<()> {
    for fails in [false, true] {
        for room in 0..whole.out.len() {
            let ended = Ended::of(rt.alloc(), source, zones, request, (room, AMPLE), fails)?;
            if !ended.is_front(whole, room, lines_len(whole)) {
                println!(rt; "output after {room} departs")?;
            }
        }
        for room in 0..whole.err.len() {
            let ended = Ended::of(rt.alloc(), source, zones, request, (AMPLE, room), fails)?;
            let listed = if room < lines_len(whole) {
                0
            } else {
                whole.out.len()
            };
            if !ended.is_front(whole, listed, room) {
                println!(rt; "standard error after {room} departs")?;
            }
        }
    }
    Ok(())
}

/// How many bytes of standard error are the lines of files, before that which says where it goes on.
fn lines_len(whole: &Written) -> usize {
    let err = whole.err.as_str();
    match err.find("more: ") {
        Some(length) => length,
        None => err.len(),
    }
}

/// What was written by a run that ended with WriteFault, if it did.
#[derive(Drop)]
struct Ended {
    out: Vec<u8>,
    err: Vec<u8>,
    is_write_fault: bool,
}

impl Ended {
    /// A run whose outputs have room for so many bytes.
    fn of(
        alloc: Global,
        source: &mut MemorySource,
        zones: &mut MemoryZones,
        request: &Request,
        (out_room, err_room): (usize, usize),
        fails: bool,
    ) -> Result<Ended, AllocError> {
        let mut out = Narrow::new(alloc, out_room, fails);
        let mut err = Narrow::new(alloc, err_room, fails);
        let is_write_fault = match run(
            alloc,
            source,
            zones,
            request,
            AtEnd::GivenBack,
            &mut out,
            &mut err,
        ) {
            Ok(_) => false,
            Err(RunFault::WriteFault) => true,
            Err(RunFault::Memory) => return Err(AllocError),
        };
        let (out, err) = (out.bytes, err.bytes);
        Ok(Ended {
            out,
            err,
            is_write_fault,
        })
    }

    /// Whether the run failed, and its outputs hold so many of the first bytes of the whole.
    fn is_front(&self, whole: &Written, out: usize, err: usize) -> bool {
        self.is_write_fault
            && self.out.len() == out
            && self.err.len() == err
            && whole.out.as_bytes().starts_with(self.out.as_slice())
            && whole.err.as_bytes().starts_with(self.err.as_slice())
    }
}
