//! The calendar files of a folder.
ghost use Rattle.std.specs.Prelude.{◌≡◌, IfOk};

use crate::fault::SourceFault;
use crate::file_pieces::FileRoom;
use crate::pieces::Pieces;
use crate::source::Source;
use std::alloc::Global;
use std::fs;
use std::io::{self, ErrorKind};
use std::rt::Files;

/// The files of a folder whose names end in `.ics` and do not begin with `.`, sorted by bytes, and
/// then a `?` for each name that is not UTF-8, which is never read. Folders below it are not read.
///
/// A read fails as Device for every fault of the system and for anything that is no regular file, such as a
/// pipe, which is not opened; as TooLarge once it has read one byte more than a file may have. A file that is
/// changed for a pipe just before it is opened is waited for.
#[derive(Drop)]
pub struct FolderSource<R> {
    rt: R,
    path: String,
    names: Vec<String>,
    // how many of the names, from the first on, are those of files
    named: usize,
    failures: u64,
    room: FileRoom,
}

/// Whether a file with that name is a calendar file.
fn is_calendar(name: &str) -> bool {
    name.ends_with(".ics") && !name.starts_with('.')
}

/// Adds a name.
fn add_name(alloc: Global, names: &mut Vec<String>, name: &str) -> io::Result<()> {
    names.push(String::from_str(alloc, name)?)?;
    Ok(())
}

/// The names of a folder's calendar files, sorted, and how many names are not UTF-8.
fn list<R: Files + AllocGlobal + Clone>(rt: &R, path: &str) -> io::Result<(Vec<String>, u64)> {
    let entries = fs::read_dir(rt, path)?;
    let mut names = Vec::new(rt.alloc());
    let mut unnamed = 0u64;
    for entry in entries {
        match entry {
            Ok(entry) => {
                let name = entry.file_name();
                if is_calendar(name) {
                    add_name(rt.alloc(), &mut names, name)?;
                }
            }
            Err(error) => {
                if error.kind() != ErrorKind::InvalidFilename {
                    return Err(error);
                }
                unnamed = unnamed.saturating_add(1);
            }
        }
    }
    names.sort_unstable();
    Ok((names, unnamed))
}

impl<R: Files + AllocGlobal + Clone + Drop> FolderSource<R> {
    /// Lists a folder. No read of it has failed so far.
    pub fn open(rt: R, path: String) -> io::Result<FolderSource<R>>
        ensures { IfOk result (λ source. ⟦<FolderSource<R> as Source>⟧.failed source ≡ 0) }
    {
        let (mut names, unnamed) = list(&rt, path.as_str())?;
        let named = names.len();
        let room = FileRoom::new(rt.alloc());
        for _ in 0..unnamed {
            add_name(rt.alloc(), &mut names, "?")?;
        }
        Ok(FolderSource {
            rt,
            path,
            names,
            named,
            failures: 0,
            room,
        })
    }
}

impl<R: Files + AllocGlobal + Clone + Drop> Source for FolderSource<R> {
    ghost use Rattle.std.specs.Prelude.{map, string_bytes};

    ghost names = { λ source. map (λ name. string_bytes name) source.names.items };

    ghost reads = { λ before index answer after. Unit {0} };

    ghost failed = { λ source. source.failures };

    fn count(&self) -> usize {
        self.names.len()
    }

    fn name(&self, index: usize) -> &str {
        self.names[index].as_str()
    }

    fn read_into<P: Pieces>(
        &mut self,
        alloc: Global,
        index: usize,
        pieces: &mut P,
    ) -> Result<(), SourceFault> {
        if index >= self.named {
            self.failures = self.failures.saturating_add(1);
            return Err(SourceFault::Device);
        }
        let name = self.names[index].as_str();
        let folder = self.path.as_str();
        match self.room.read(&self.rt, alloc, folder, name, pieces) {
            Err(SourceFault::Device) => {
                self.failures = self.failures.saturating_add(1);
                Err(SourceFault::Device)
            }
            answer => answer,
        }
    }

    fn failures(&self) -> u64 {
        self.failures
    }
}
