//! The bytes of a file of the system.
use crate::fault::SourceFault;
use std::alloc::{AllocError, Global};
use std::fs::{self, File};
use std::io::{self, ErrorKind, Read};
use std::rt::Files;

/// Writes the path of the file with this name in a folder. Room is made for it once.
pub(crate) fn write_path(path: &mut String, folder: &str, name: &str) -> Result<(), AllocError> {
    path.clear();
    path.reserve(folder.len().saturating_add(name.len()).saturating_add(1))?;
    path.push_str(folder)?;
    path.push('/')?;
    path.push_str(name)
}

/// The first bytes of the file with this name in a folder, at most `most`; None if the path leads nowhere or
/// through a file. It is Device for anything that is no regular file.
pub(crate) fn read_front<R: Files>(
    rt: &R,
    alloc: Global,
    folder: &str,
    name: &str,
    most: u64,
) -> Result<Option<Vec<u8>>, SourceFault> {
    let mut path = String::new(alloc);
    if write_path(&mut path, folder, name).is_err() {
        return Err(SourceFault::Memory);
    }
    read_path(rt, alloc, path.as_str(), most)
}

/// The same of the file with this path. Links are followed.
pub(crate) fn read_path<R: Files>(
    rt: &R,
    alloc: Global,
    path: &str,
    most: u64,
) -> Result<Option<Vec<u8>>, SourceFault> {
    let Some(length) = length_of(rt, path)? else {
        return Ok(None);
    };
    // Room for the whole file and one byte more, so that its end is found without growing.
    let room = length.saturating_add(1).min(most) as usize;
    let Ok(bytes) = Vec::with_capacity(alloc, room) else {
        return Err(SourceFault::Memory);
    };
    read_into(rt, path, bytes, most)
}

/// The length of the file with this path, or None if there is none. Anything else there is a fault, and is
/// not opened: a pipe or a terminal would have to be waited for.
pub(crate) fn length_of<R: Files>(rt: &R, path: &str) -> Result<Option<u64>, SourceFault> {
    match fs::metadata(rt, path) {
        Ok(found) if found.is_file() => Ok(Some(found.len())),
        Ok(_) => Err(SourceFault::Device),
        Err(error) if is_absence(&error) => Ok(None),
        Err(error) => Err(fault_of(error)),
    }
}

/// Whether a fault of the system says that there is no such file.
fn is_absence(error: &io::Error) -> bool {
    matches!(error.kind(), ErrorKind::NotFound | ErrorKind::NotADirectory)
}

/// The first bytes of the file with this path, behind those that are given.
fn read_into<R: Files>(
    rt: &R,
    path: &str,
    mut bytes: Vec<u8>,
    most: u64,
) -> Result<Option<Vec<u8>>, SourceFault> {
    let file = match File::open(rt, path) {
        Ok(file) => file,
        Err(error) => return Err(fault_of(error)),
    };
    let mut front = file.take(most);
    match front.read_to_end(&mut bytes) {
        Ok(_) => Ok(Some(bytes)),
        Err(error) => Err(fault_of(error)),
    }
}

/// The fault that an error of the system is.
pub(crate) fn fault_of(error: io::Error) -> SourceFault {
    if error.kind() == ErrorKind::OutOfMemory {
        return SourceFault::Memory;
    }
    SourceFault::Device
}
