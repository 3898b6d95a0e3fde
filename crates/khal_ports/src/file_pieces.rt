//! The bytes of a file of the system, piece by piece.
ghost use Rattle.std.specs.Prelude.{◌≤◌, ℕ, List, IfOk, OnOk, length};
ghost use Rattle.khal_ports.specs.Answers.{HasNone, TakesFile};

use crate::fault::SourceFault;
use crate::file_bytes::{fault_of, length_of, write_path};
use crate::pieces::Pieces;
use crate::source::MOST_BYTES;
use std::alloc::{AllocError, Global};
use std::fs::File;
use std::io::{ErrorKind, Read};
use std::rt::Files;

/// The least and the most bytes that are asked for at once.
const LEAST_PIECE: u64 = 4_096;

const MOST_PIECE: u64 = 65_536;

/// Room that one file has after another: for its path, and for a piece of its bytes.
#[derive(Drop)]
pub(crate) struct FileRoom {
    path: String,
    piece: Vec<u8>,
}

impl FileRoom {
    /// No room yet.
    pub(crate) fn new(alloc: Global) -> FileRoom {
        FileRoom {
            path: String::new(alloc),
            piece: Vec::new(alloc),
        }
    }

    /// Hands the bytes of the file with this name in a folder, at most 16,777,216, to what takes them. It is Device for anything that is no regular file, and
    /// TooLarge once one byte more is read than a file may have.
    pub(crate) fn read<R: Files, P: Pieces>(
        &mut self,
        rt: &R,
        alloc: Global,
        folder: &str,
        name: &str,
        pieces: &mut P,
    ) -> Result<(), SourceFault>
        requires { HasNone P.took pieces.old }
        ensures { OnOk result ((bytes : List ℕ) × TakesFile P.took pieces.old bytes pieces.new) }
    {
        if write_path(&mut self.path, folder, name).is_err() {
            return Err(SourceFault::Memory);
        }
        let path = self.path.as_str();
        let Some(length) = length_of(rt, path)? else {
            return Err(SourceFault::Device);
        };
        let count = length.min(MOST_BYTES as u64) as usize;
        if widen(&mut self.piece, length).is_err() || pieces.make_room(alloc, count).is_err() {
            return Err(SourceFault::Memory);
        }
        match File::open(rt, path) {
            Ok(mut file) => hand_on(&mut file, alloc, length, self.piece.as_mut_slice(), pieces),
            Err(error) => Err(fault_of(error)),
        }
    }
}

/// Widens the room for a piece of a file of that length. It takes the whole file and one byte more, if they are no more than a piece.
fn widen(piece: &mut Vec<u8>, length: u64) -> Result<(), AllocError> {
    let wanted = length.saturating_add(1).max(LEAST_PIECE).min(MOST_PIECE) as usize;
    if piece.len() < wanted {
        piece.resize(wanted, 0)?;
    }
    Ok(())
}

/// Hands on what is still to be read of a file of that length, piece by piece. It ends where a read gives no byte, or fewer than it could where they are the
/// last of that length.
fn hand_on<F: Read, P: Pieces>(
    file: &mut F,
    alloc: Global,
    length: u64,
    buffer: &mut [u8],
    pieces: &mut P,
) -> Result<(), SourceFault>
    requires { HasNone P.took pieces.old }
    ensures { OnOk result ((bytes : List ℕ) × TakesFile P.took pieces.old bytes pieces.new) }
{
    let mut left = MOST_BYTES;
    loop {
        let count = next_piece(file, buffer)?;
        if count > left {
            return Err(SourceFault::TooLarge);
        }
        match pieces.add(alloc, &buffer[..count]) {
            Ok(()) => left -= count,
            Err(_) => return Err(SourceFault::Memory),
        }
        let is_whole = (MOST_BYTES - left) as u64 == length;
        if count == 0 || (is_whole && count < buffer.len()) {
            return Ok(());
        }
    }
}

/// Reads the next bytes of a file into the first of a buffer, and says how many. A read that a signal interrupts is tried again.
fn next_piece<F: Read>(file: &mut F, buffer: &mut [u8]) -> Result<usize, SourceFault>
    ensures { IfOk result (λ count. count ≤ length buffer.new) }
{
    for _ in 0..u64::MAX {
        match file.read(buffer) {
            Ok(count) => return Ok(count),
            Err(error) => {
                if error.kind() != ErrorKind::Interrupted {
                    return Err(fault_of(error));
                }
            }
        }
    }
    Err(SourceFault::Device)
}
