//! How much a listing gives, and its pages.

use crate::narrow::Narrow;
use crate::requests::yes_no;
use crate::rules::print_bounds;
use crate::runs::{Written, outcome, print_fault, request};
use ics_calendar::read_file;
use ics_series::{Agenda, Feed, Folder};
use khal_list::{MOST_BYTES, MemorySource, NoZones, Request, print};
use std::alloc::{AllocError, Global};
use std::io;

/// Prints how many occurrences the agenda of some words gives, up to their limit, whether no more were
/// held after each, and whether so many periods were looked at: `entries HELD LEAST MOST WORDS`.
pub fn entries(rt: HostRuntime, source: &MemorySource, line: &str, now: i64) -> io::Result<()> {
    let (most_held, line) = line.split_once(' ').unwrap_or((line, ""));
    let (least, line) = line.split_once(' ').unwrap_or((line, ""));
    let (most, words) = line.split_once(' ').unwrap_or((line, ""));
    let drawn = match request(rt.alloc(), words, now) {
        Ok(request) => {
            let drawn = Drawn::of(rt.alloc(), source, &request);
            drop(request);
            drawn?
        }
        Err(fault) => return print_fault(rt, fault),
    };
    let is_within = yes_no(drawn.held <= most_held.parse().unwrap_or(0));
    println!(rt;
        "{} entries, at most {most_held} held: {is_within}",
        drawn.count
    )?;
    print_bounds(rt, drawn.steps, &[least, most])
}

/// Prints how many entries the listing of some words has under its days, and whether so many periods were
/// looked at for all of these days: `days LEAST MOST WORDS`.
pub fn days(rt: HostRuntime, source: &MemorySource, line: &str, now: i64) -> io::Result<()> {
    let (least, line) = line.split_once(' ').unwrap_or((line, ""));
    let (most, words) = line.split_once(' ').unwrap_or((line, ""));
    let (count, steps) = match request(rt.alloc(), words, now) {
        Ok(request) => {
            let drawn = under_days(rt.alloc(), source, &request);
            drop(request);
            drawn?
        }
        Err(fault) => return print_fault(rt, fault),
    };
    println!(rt; "{count} entries under their days")?;
    print_bounds(rt, steps, &[least, most])
}

/// How many entries the listing of a request has under its days, and how many periods were looked at.
fn under_days(
    alloc: Global,
    source: &MemorySource,
    request: &Request,
) -> Result<(u32, u64), AllocError> {
    let folder = folder_of(alloc, source, request)?;
    let mut days = folder.days(request.window, None)?;
    for count in 0..u32::MAX {
        if days.next()?.is_none() {
            return Ok((count, days.steps()));
        }
    }
    Ok((u32::MAX, days.steps()))
}

/// Prints an agenda of some words to an output that takes no byte, and whether so many periods were
/// looked at: `prints-none LEAST MOST WORDS`.
pub fn print_none(rt: HostRuntime, source: &MemorySource, line: &str, now: i64) -> io::Result<()> {
    let (least, line) = line.split_once(' ').unwrap_or((line, ""));
    let (most, words) = line.split_once(' ').unwrap_or((line, ""));
    let (said, steps) = match request(rt.alloc(), words, now) {
        Ok(request) => {
            let came = printed(rt.alloc(), source, &request);
            drop(request);
            came?
        }
        Err(fault) => return print_fault(rt, fault),
    };
    println!(rt; "[{said}]")?;
    print_bounds(rt, steps, &[least, most])
}

/// What comes of an agenda that is printed to an output that takes no byte, and how many periods were looked at.
fn printed(
    alloc: Global,
    source: &MemorySource,
    request: &Request,
) -> Result<(&'static str, u64), AllocError> {
    let folder = folder_of(alloc, source, request)?;
    let mut agenda = folder.agenda(request.window, request.after.as_ref())?;
    let mut out = Narrow::new(alloc, 0, false);
    let said = match print(alloc, &mut agenda, request, &mut out) {
        Ok(_) => "0",
        Err(fault) => fault.name(),
    };
    Ok((said, agenda.steps()))
}

/// The events of the files that are accepted.
fn folder_of(
    alloc: Global,
    source: &MemorySource,
    request: &Request,
) -> Result<Folder, AllocError> {
    let mut files = Vec::new(alloc);
    for file in &source.files {
        if file.bytes.len() <= MOST_BYTES {
            if let Ok(events) = read_file(alloc, file.bytes.as_slice(), &[]) {
                files.push(events)?;
            }
        }
    }
    Folder::new(alloc, files, request.zone.clone()?)
}

/// How many occurrences an agenda gives, the most that it holds on the way, and how many periods were looked at.
#[derive(Clone, Copy)]
struct Drawn {
    count: u32,
    held: usize,
    steps: u64,
}

impl Drawn {
    /// Of the agenda of a request, up to its limit.
    fn of(alloc: Global, source: &MemorySource, request: &Request) -> Result<Drawn, AllocError> {
        let folder = folder_of(alloc, source, request)?;
        let mut agenda = folder.agenda(request.window, request.after.as_ref())?;
        Drawn::by(&mut agenda, request.limit.unwrap_or(u32::MAX))
    }

    /// Of an agenda, up to a limit.
    fn by(agenda: &mut Agenda<'_>, limit: u32) -> Result<Drawn, AllocError> {
        let mut drawn = Drawn {
            count: limit,
            held: agenda.held(),
            steps: 0,
        };
        for count in 0..limit {
            let is_end = agenda.next()?.is_none();
            drawn.held = drawn.held.max(agenda.held());
            if is_end {
                drawn.count = count;
                break;
            }
        }
        drawn.steps = agenda.steps();
        Ok(drawn)
    }
}

/// Prints how many entries words list, in how many pages of a limit, each from the token of the one
/// before, and whether these join to the whole: `pages LIMIT WORDS`. A heading is a line `#`, by the
/// words' own day format, and is left out.
pub fn pages(rt: HostRuntime, source: &mut MemorySource, line: &str, now: i64) -> io::Result<()> {
    let (limit, words) = line.split_once(' ').unwrap_or((line, ""));
    let alloc = rt.alloc();
    let mut whole = String::new(alloc);
    page(alloc, source, words, now, &mut whole)?;
    let mut joined = String::new(alloc);
    let mut after = String::new(alloc);
    for count in 1..10_000u32 {
        let words = format!(in alloc; "{words} --limit {limit}{after}")?;
        match page(alloc, source, words.as_str(), now, &mut joined)? {
            Some(token) => after = format!(in alloc; " --after {token}")?,
            None => {
                let entries = whole.as_str().lines().count();
                let same = yes_no(joined == whole);
                return println!(rt; "{entries} entries, {count} pages, joined: {same}");
            }
        }
    }
    println!(rt; "no end")
}

/// Adds the entries that words list, and answers the token from which the listing goes on.
fn page(
    alloc: Global,
    source: &mut MemorySource,
    words: &str,
    now: i64,
    entries: &mut String,
) -> Result<Option<String>, AllocError> {
    let Ok(request) = request(alloc, words, now) else {
        return Ok(None);
    };
    let written = outcome(alloc, source, &mut NoZones, &request);
    drop(request);
    match written {
        Ok(written) => taken(alloc, &written, entries),
        Err(_) => Ok(None),
    }
}

/// Adds the entries of what was written, and answers its token.
fn taken(
    alloc: Global,
    written: &Written,
    entries: &mut String,
) -> Result<Option<String>, AllocError> {
    for line in written.out.as_str().lines() {
        if line != "#" {
            entries.push_str(line)?;
            entries.push('\n')?;
        }
    }
    match written.err.as_str().strip_prefix("more: ") {
        Some(token) => Ok(Some(String::from_str(alloc, token.trim_end())?)),
        None => Ok(None),
    }
}
