//! What a file gives where a listing goes on behind faults.

ghost use Rattle.std.specs.Prelude.{◌≡◌};
ghost use Rattle.ics_calendar.specs.Kept.{kept_given};

use ics_components::Fault;
use ics_event::KeptTexts;
use ics_file::FileEvents;
use std::alloc::Global;
use std::marker::Model;

/// The events that a file gives, and the faults that are named: by their lines, then by their kinds, each once.
#[derive(Drop)]
pub struct GivenFile {
    pub file: FileEvents,
    pub faults: Vec<Fault>,
}

impl Model for GivenFile {
    ghost use Rattle.ics_calendar.specs.Parts.{Given};
    ghost use Rattle.ics_file.specs.File.{said_by};

    ghost Value = { Given };

    ghost view = { λ a. record { said = said_by a.file; faults = a.faults.items } };
}

impl GivenFile {
    /// The same, with these texts of its events alone.
    pub fn kept(self, alloc: Global, keep: KeptTexts) -> GivenFile
        ensures { result ≡ kept_given keep self }
    {
        let GivenFile { file, faults } = self;
        GivenFile {
            file: file.kept(alloc, keep),
            faults,
        }
    }
}
