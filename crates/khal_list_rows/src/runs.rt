//! Runs of the program's words over files.

use crate::row::shown_bytes;
use crate::words::words_of;
use khal_list::{
    AtEnd, FolderSource, FolderZones, MemorySink, MemorySource, NoZones, Request, RequestFault,
    RunFault, Source, Status, Stream, Words, ZoneSource, run, zone_of_file,
};
use std::alloc::{AllocError, Global};
use std::io;

/// What a run wrote, and its status.
#[derive(Drop)]
pub struct Written {
    pub out: String,
    pub err: String,
    pub status: Status,
}

/// Why words give no request.
#[derive(Drop)]
pub enum NoRequest {
    Fault(RequestFault),
    /// There is no such zone file.
    Unread,
}

impl NoRequest {
    /// The name that the program prints.
    pub fn name(&self) -> &'static str {
        match self {
            NoRequest::Fault(fault) => fault.name(),
            NoRequest::Unread => "ReadFault",
        }
    }
}

impl From<RequestFault> for NoRequest {
    fn from(fault: RequestFault) -> NoRequest {
        NoRequest::Fault(fault)
    }
}

impl From<AllocError> for NoRequest {
    fn from(_error: AllocError) -> NoRequest {
        NoRequest::Fault(RequestFault::Memory)
    }
}

/// The request of these words.
pub fn request(alloc: Global, words: &str, now: i64) -> Result<Request, RequestFault> {
    let words = words_of(alloc, words)?;
    Request::of(alloc, words.as_slice(), now)
}

/// The same where the words may name a zone file.
pub fn request_in<Z: ZoneSource>(
    alloc: Global,
    zones: &mut Z,
    words: &str,
    now: i64,
) -> Result<Request, NoRequest> {
    let texts = words_of(alloc, words)?;
    let words = Words::of(alloc, texts.as_slice())?;
    let zone = match words.zone_file() {
        Some(name) => match zones.find(alloc, name.as_bytes()) {
            Ok(Some(bytes)) => zone_of_file(alloc, bytes.as_slice())?,
            _ => return Err(NoRequest::Unread),
        },
        None => words.zone(alloc)?,
    };
    Ok(words.request(alloc, &zone, now)?)
}

/// Runs a request over files and zone files.
pub fn outcome<S: Source, Z: ZoneSource>(
    alloc: Global,
    source: &mut S,
    zones: &mut Z,
    request: &Request,
) -> Result<Written, RunFault> {
    let mut out = Stream::new(Vec::new(alloc));
    let mut err = MemorySink::new(alloc);
    let status = run(
        alloc,
        source,
        zones,
        request,
        AtEnd::GivenBack,
        &mut out,
        &mut err,
    )?;
    let written = out.into_writer();
    let out = String::from_str(alloc, shown_bytes(written.as_slice()))?;
    let err = String::from_str(alloc, shown_bytes(err.bytes.as_slice()))?;
    Ok(Written { out, err, status })
}

/// Runs words over files and zone files, and prints what they write, their status in brackets, and what they write to
/// standard error; or the fault in brackets.
pub fn run_over<S: Source, Z: ZoneSource>(
    rt: HostRuntime,
    source: &mut S,
    zones: &mut Z,
    words: &str,
    now: i64,
) -> io::Result<()> {
    let request = match request_in(rt.alloc(), zones, words, now) {
        Ok(request) => request,
        Err(fault) => return println!(rt; "[{}]", fault.name()),
    };
    let written = outcome(rt.alloc(), source, zones, &request);
    drop(request);
    match written {
        Ok(written) => print_written(rt, &written),
        Err(fault) => println!(rt; "[{}]", fault.name()),
    }
}

/// Prints the fault of words in brackets.
pub fn print_fault(rt: HostRuntime, fault: RequestFault) -> io::Result<()> {
    println!(rt; "[{}]", fault.name())
}

/// Prints what a run wrote, with its status in brackets.
fn print_written(rt: HostRuntime, written: &Written) -> io::Result<()> {
    rt.print(written.out.as_str())?;
    println!(rt; "[{}]", written.status.code())?;
    rt.print(written.err.as_str())
}

/// Runs words over the folder on disk that they name, and the folder of zone files.
pub fn run_disk(rt: HostRuntime, words: &str, now: i64) -> io::Result<()> {
    let (path, zones) = match request(rt.alloc(), words, now) {
        Ok(request) => folders_of(rt.alloc(), &request)?,
        Err(fault) => return print_fault(rt, fault),
    };
    match FolderSource::open(rt, path) {
        Ok(mut source) => {
            let mut zones = FolderZones::below(rt, zones);
            run_over(rt, &mut source, &mut zones, words, now)
        }
        Err(_) => println!(rt; "[not listed]"),
    }
}

/// The folder that a request names, and that of its zone files.
fn folders_of(alloc: Global, request: &Request) -> Result<(String, Option<String>), AllocError> {
    let path = String::from_str(alloc, request.folder())?;
    match request.zones() {
        Some(zones) => Ok((path, Some(String::from_str(alloc, zones)?))),
        None => Ok((path, None)),
    }
}

/// Prints how the last file is refused, or that it is not, where it is cut after each of its bytes, from
/// the last on: a line for each size down from which that is the same.
pub fn cuts(rt: HostRuntime, source: &mut MemorySource, words: &str, now: i64) -> io::Result<()> {
    match request(rt.alloc(), words, now) {
        Ok(request) => print_cuts(rt, source, &request),
        Err(fault) => print_fault(rt, fault),
    }
}

/// The same of their request.
fn print_cuts(rt: HostRuntime, source: &mut MemorySource, request: &Request) -> io::Result<()> {
    let mut before = String::from_str(rt.alloc(), "not run")?;
    for _ in 0..1_000 {
        let Ok(written) = outcome(rt.alloc(), source, &mut NoZones, request) else {
            break;
        };
        let Some(file) = source.files.last_mut() else {
            break;
        };
        if written.err != before {
            println!(rt; "{} and fewer: {}", file.bytes.len(), fault_of(&written))?;
            before = written.err;
        }
        if file.bytes.pop().is_none() {
            break;
        }
    }
    Ok(())
}

/// How the files of a run were refused, or that they were not.
fn fault_of(written: &Written) -> &str {
    if written.err.is_empty() {
        return "accepted";
    }
    written.err.as_str().trim_end()
}
