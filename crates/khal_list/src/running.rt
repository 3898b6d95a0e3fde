//! A whole run: files, errors and the listing.
ghost use Rattle.std.specs.Prelude.{◌≡◌, ◌⊎◌, Ok, Err, IfOk, OnOk, OnErr, IsErrOf, map};
ghost use Rattle.std.specs.Option.{option_map};
ghost use Rattle.std.specs.String.{string_bytes};
ghost use Rattle.ics_file.specs.File.{said_by};
ghost use Rattle.khal_ports.specs.declared.fault.SinkFault.TheVariants.{Device};
ghost use Rattle.khal_ports.specs.Growth.{LeftByFault, LeftByFlush};
ghost use Rattle.khal_list.specs.Headline.{Lists, Shown, ShownInPart, Shows, ShowsDays, ShowsOnce, Stops};

use crate::every_day::EveryDay;
use crate::kept::texts_named;
use crate::more::put_more;
use crate::printing::{print, print_days};
use crate::request::Request;
use ics_file::FileEvents;
use ics_series::{DayToken, Folder, Token};
use khal_ports::{RunFault, Sink, Source, ZoneSource, flush_all, put_all};
use khal_reading::{Status, read_all};
use std::alloc::Global;
use std::mem;

/// Writes the requested listing of a folder that is shown in the request's zone, each occurrence once,
/// and returns the token from which it continues.
fn list_once<O: Sink>(
    alloc: Global,
    folder: &Folder,
    request: &Request,
    out: &mut O,
) -> Result<Option<String>, RunFault>
    requires { folder.now.display ≡ request.now.zone }
    ensures ok { IfOk result (λ token. Shown (ShowsOnce (map said_by folder.now.files) request.now)
        (O.taken out.old) (O.taken out.new) (option_map string_bytes token)) }
    ensures err { OnErr result (ShownInPart (ShowsOnce (map said_by folder.now.files) request.now)
        (O.taken out.old) (O.taken out.new)) }
    ensures cause { IsErrOf result RunFault.WriteFault → LeftByFault O.puts out.new }
{
    let mut agenda = folder.agenda(request.window, request.after.as_ref())?;
    match print(alloc, &mut agenda, request, out)? {
        None => Ok(None),
        Some(key) => Ok(Some(Token::write(alloc, &key)?)),
    }
}

/// The same with each occurrence under each of its days.
fn list_days<O: Sink>(
    alloc: Global,
    folder: &Folder,
    request: &Request,
    every_day: &EveryDay,
    out: &mut O,
) -> Result<Option<String>, RunFault>
    requires { folder.now.display ≡ request.now.zone }
    ensures ok { IfOk result (λ token. Shown (ShowsDays (map said_by folder.now.files) request.now every_day.now)
        (O.taken out.old) (O.taken out.new) (option_map string_bytes token)) }
    ensures err { OnErr result (ShownInPart (ShowsDays (map said_by folder.now.files) request.now every_day.now)
        (O.taken out.old) (O.taken out.new)) }
    ensures cause { IsErrOf result RunFault.WriteFault → LeftByFault O.puts out.new }
{
    let mut days = folder.days(request.window, every_day.after.as_ref())?;
    match print_days(alloc, &mut days, request, out)? {
        None => Ok(None),
        Some(key) => Ok(Some(DayToken::write(alloc, &key)?)),
    }
}

/// Writes the requested listing of a folder that is shown in the request's zone, and returns the token from
/// which it continues.
fn list_folder<O: Sink>(
    alloc: Global,
    folder: &Folder,
    request: &Request,
    out: &mut O,
) -> Result<Option<String>, RunFault>
    requires { folder.now.display ≡ request.now.zone }
    ensures ok { IfOk result (λ token. Shown (Shows (map said_by folder.now.files) request.now)
        (O.taken out.old) (O.taken out.new) (option_map string_bytes token)) }
    ensures err { OnErr result (ShownInPart (Shows (map said_by folder.now.files) request.now)
        (O.taken out.old) (O.taken out.new)) }
    ensures cause { IsErrOf result RunFault.WriteFault → LeftByFault O.puts out.new }
{
    match &request.every_day {
        None => list_once(alloc, folder, request, out),
        Some(every_day) => list_days(alloc, folder, request, every_day, out),
    }
}

/// What becomes of the memory of the files that were read, once their listing is written.
#[derive(Clone, Copy)]
pub enum AtEnd {
    /// It is given back piece by piece.
    GivenBack,
    /// It is left to the system, which takes it back at once when the program ends.
    Left,
}

impl AtEnd {
    /// Parts with a folder.
    fn part_with(self, folder: Folder) {
        match self {
            AtEnd::GivenBack => drop(folder),
            AtEnd::Left => mem::forget(folder),
        }
    }
}

/// Writes the requested listing of these files, and returns the token from which it continues.
fn list<O: Sink>(
    alloc: Global,
    files: Vec<FileEvents>,
    request: &Request,
    at_end: AtEnd,
    out: &mut O,
) -> Result<Option<String>, RunFault>
    ensures ok { IfOk result (λ token. Shown (Shows (map said_by files.items) request.now)
        (O.taken out.old) (O.taken out.new) (option_map string_bytes token)) }
    ensures err { OnErr result (ShownInPart (Shows (map said_by files.items) request.now)
        (O.taken out.old) (O.taken out.new)) }
    ensures cause { IsErrOf result RunFault.WriteFault → LeftByFault O.puts out.new }
{
    let mut folder = Folder::new(alloc, files, request.zone.clone()?)?;
    folder.prepare(&request.window, request.every_day.is_some());
    let token = list_folder(alloc, &folder, request, out);
    at_end.part_with(folder);
    token
}

/// The same, and flushes `out` at its end.
fn list_whole<O: Sink>(
    alloc: Global,
    files: Vec<FileEvents>,
    request: &Request,
    at_end: AtEnd,
    out: &mut O,
) -> Result<Option<String>, RunFault>
    ensures ok { IfOk result (λ token. Shown (Shows (map said_by files.items) request.now)
        (O.taken out.old) (O.taken out.new) (option_map string_bytes token)) }
    ensures flushed { OnOk result (LeftByFlush O.flushes (Ok tt) out.new) }
    ensures err { OnErr result (ShownInPart (Shows (map said_by files.items) request.now)
        (O.taken out.old) (O.taken out.new)) }
    ensures cause { IsErrOf result RunFault.WriteFault
        → LeftByFault O.puts out.new ⊎ LeftByFlush O.flushes (Err Device) out.new }
{
    let token = list(alloc, files, request, at_end, out)?;
    flush_all(out)?;
    Ok(token)
}

/// Reads each file of the source once, in order, and asks `zones` for the names that they want and no
/// VTIMEZONE defines, for each once in a run. A file is not read if one of its zone files is not. Writes to
/// `err` a line for each file that is not read or is refused, and then to `out` the listing of the others.
/// With `keep_going` the accepted parts of refused files are listed too, and each fault that is named has a
/// line. The listing has each occurrence that meets the request's window once, in the order of start, UID and
/// recurrence, or if the request asks for it under each of its days there, by day and then in that order;
/// of these those after the request's key, up to its limit. Behind it `out` is flushed. If the limit cuts
/// them, then the last line on `err` says where the listing continues.
///
/// WriteFault comes only if an output failed, or was given bytes and took none. `at_end` says what becomes of
/// the memory of what was read; it changes no answer.
pub fn run<S: Source, Z: ZoneSource, O: Sink, E: Sink>(
    alloc: Global,
    source: &mut S,
    zones: &mut Z,
    request: &Request,
    at_end: AtEnd,
    out: &mut O,
    err: &mut E,
) -> Result<Status, RunFault>
    ensures lists { IfOk result (Lists S.reads Z.finds
        (record { names = S.names source.old; source = source.old; source_after = source.new; zones = zones.old; zones_after = zones.new })
        request.now
        (record { out = O.taken out.old; out_after = O.taken out.new; err = E.taken err.old; err_after = E.taken err.new })) }
    ensures stops { OnErr result (Stops S.reads Z.finds
        (record { names = S.names source.old; source = source.old; source_after = source.new; zones = zones.old; zones_after = zones.new })
        request.now
        (record { out = O.taken out.old; out_after = O.taken out.new; err = E.taken err.old; err_after = E.taken err.new })) }
    ensures flushed { OnOk result (LeftByFlush O.flushes (Ok tt) out.new) }
    ensures cause { IsErrOf result RunFault.WriteFault
        → (LeftByFault O.puts out.new ⊎ LeftByFlush O.flushes (Err Device) out.new) ⊎ LeftByFault E.puts err.new }
{
    let window = &request.window;
    let reading = read_all(
        alloc,
        source,
        zones,
        window.from,
        window.to,
        request.keep_going,
        texts_named(request),
    )?;
    put_all(err, &reading.errors)?;
    let status = reading.status();
    let token = list_whole(alloc, reading.files, request, at_end, out)?;
    put_more(alloc, err, &token)?;
    Ok(status)
}
