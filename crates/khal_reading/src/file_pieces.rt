//! A file that the first round reads as it comes.
ghost use Rattle.std.specs.Prelude.{[]};
ghost use Rattle.ics_components.specs.FileReading.{HasRead};

use ics_calendar::FileReader;
use ics_event::KeptTexts;
use khal_ports::Pieces;
use std::alloc::{AllocError, Global};

/// Has the first round read each piece of a file as it comes.
#[derive(Drop)]
pub(crate) struct ReadPieces {
    pub(crate) reader: FileReader,
}

impl ReadPieces {
    /// No piece has come.
    pub(crate) fn new(alloc: Global, keep: KeptTexts) -> ReadPieces
        ensures { HasRead keep [] result.reader }
    {
        ReadPieces {
            reader: FileReader::new(alloc, keep),
        }
    }
}

impl Pieces for ReadPieces {
    type Setting = KeptTexts;

    ghost took = { λ keep bytes pieces. HasRead keep bytes pieces.reader };

    /// The bytes are not kept.
    fn make_room(&mut self, _alloc: Global, _count: usize) -> Result<(), AllocError> {
        Ok(())
    }

    fn add(&mut self, alloc: Global, piece: &[u8]) -> Result<(), AllocError> {
        self.reader.add(alloc, piece)
    }
}
