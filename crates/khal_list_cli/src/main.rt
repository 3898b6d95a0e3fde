//! The program `khal-list`: its clock, its words, a folder, zone files, and the standard streams.
#![tactic(auto)]

mod failure;

use failure::Failure;
use khal_list::{
    AtEnd, Display, FolderSource, FolderZones, Request, RunFault, SourceFault, Status, Stream,
    Words, read_zone_file, run, zone_of_file,
};
use std::alloc::Global;
use std::io::{BufWriter, Stdout};
use std::process::ExitCode;
use std::rt::{Clock, Env, Files};
use std::{env, mem};

/// The program's name and version, as `--version` prints them.
const VERSION: &str = "khal-list 0.1.0";

/// How many bytes of a listing are written at a time.
const PIECE: usize = 8_192;

/// The instant that the clock shows.
fn clock_now(clock: &impl Clock) -> Result<i64, Failure> {
    let Ok(since) = clock.since_1970() else {
        return Err(Failure::Read);
    };
    i64::try_from(since.as_secs()).map_err(|_| Failure::Read)
}

/// The words of the command line, the program's name with them.
fn own_words<R: Env + AllocGlobal>(rt: &R) -> Result<Vec<String>, Failure> {
    let words = env::args(rt).map_err(Failure::of_words)?;
    words.collect(rt.alloc()).map_err(|_| Failure::Memory)
}

/// The bytes of the zone file with this path.
fn zone_bytes<R: Files + AllocGlobal>(rt: &R, path: &str) -> Result<Vec<u8>, Failure> {
    match read_zone_file(rt, rt.alloc(), path) {
        Ok(bytes) => Ok(bytes),
        Err(SourceFault::Memory) => Err(Failure::Memory),
        Err(_) => Err(Failure::Read),
    }
}

/// The display zone of the words: that of the zone file that they name, or else the one of `--zone`.
fn display<R: Files + AllocGlobal>(rt: &R, words: &Words<'_>) -> Result<Display, Failure> {
    let found = match words.zone_file() {
        Some(path) => zone_of_file(rt.alloc(), zone_bytes(rt, path)?.as_slice()),
        None => words.zone(rt.alloc()),
    };
    found.map_err(Failure::Request)
}

/// Whether the one word after the program's name is `--version`.
fn is_version(own: &[String]) -> bool {
    own.len() == 2 && own[1].as_str() == "--version"
}

/// Prints the version.
fn say_version(rt: &impl Print) -> Result<Status, Failure> {
    match rt.println(VERSION) {
        Ok(()) => Ok(Status::Clean),
        Err(_) => Err(Failure::Write),
    }
}

/// The request of the words after the program's name.
fn request<R: Files + AllocGlobal>(rt: &R, own: &[String], now: i64) -> Result<Request, Failure> {
    let mut texts = Vec::new(rt.alloc());
    for word in own.iter().skip(1) {
        texts.push(word.as_str())?;
    }
    let words = Words::of(rt.alloc(), texts.as_slice()).map_err(Failure::Request)?;
    let zone = display(rt, &words)?;
    words
        .request(rt.alloc(), &zone, now)
        .map_err(Failure::Request)
}

/// Standard output, in large pieces. `run` writes out the last of them before the line that says where a
/// listing continues.
fn output(rt: HostRuntime) -> Result<BufWriter<Stdout, Global>, Failure> {
    BufWriter::with_capacity(rt.alloc(), PIECE, rt.stdout()).map_err(|_| Failure::Memory)
}

/// The zone files of the folder that `--zones` names, or none.
fn zones(rt: HostRuntime, request: &Request) -> Result<FolderZones<HostRuntime>, Failure> {
    let path = match request.zones() {
        Some(zones) => Some(String::from_str(rt.alloc(), zones)?),
        None => None,
    };
    Ok(FolderZones::below(rt, path))
}

/// Writes the listing of a folder to `out`, and to standard error what is not listed.
fn write(
    rt: HostRuntime,
    source: &mut FolderSource<HostRuntime>,
    zones: &mut FolderZones<HostRuntime>,
    request: &Request,
    out: &mut Stream<BufWriter<Stdout, Global>>,
) -> Result<Status, RunFault> {
    let mut err = Stream::new(rt.stderr());
    run(
        rt.alloc(),
        source,
        zones,
        request,
        AtEnd::Left,
        out,
        &mut err,
    )
}

/// The path of the folder of a request, from where the program stands. It goes there, if it can, so that the system finds each file by its name alone;
/// but it stays where a path of zone files begins.
fn inner_path(rt: HostRuntime, request: &Request) -> Result<String, Failure> {
    let folder = request.folder();
    let stays = request.zones().is_some_and(|zones| !zones.starts_with('/'));
    let path = if !stays && env::set_current_dir(&rt, folder).is_ok() {
        "."
    } else {
        folder
    };
    Ok(String::from_str(rt.alloc(), path)?)
}

/// Lists the folder of a request to the standard streams. It has its own room on the stack, beside that of
/// the words, which takes the most.
#[inline(never)]
fn list(rt: HostRuntime, request: &Request) -> Result<Status, Failure> {
    let folder = inner_path(rt, request)?;
    let mut source = FolderSource::open(rt, folder).map_err(Failure::of_folder)?;
    let mut zones = zones(rt, request)?;
    let mut out = Stream::new(output(rt)?);
    let ran = write(rt, &mut source, &mut zones, request, &mut out);
    // the program ends here: the names of the files are left to the system, too
    mem::forget(source);
    let finished = out.finish();
    let status = ran.map_err(Failure::of_run)?;
    finished.map_err(Failure::of_run)?;
    Ok(status)
}

/// Lists what the words ask for, or prints the version.
fn list_by_words(rt: HostRuntime) -> Result<Status, Failure> {
    let own = own_words(&rt)?;
    if is_version(own.as_slice()) {
        return say_version(&rt);
    }
    let now = clock_now(&rt)?;
    let request = request(&rt, own.as_slice(), now)?;
    list(rt, &request)
}

/// Runs the program, and ends with its status.
fn main(rt: HostRuntime) -> ExitCode {
    match list_by_words(rt) {
        Ok(status) => ExitCode::from(status.code()),
        Err(failure) => ExitCode::from(failure.report(&rt)),
    }
}
