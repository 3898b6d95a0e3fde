//! The files of a source, read one by one.
ghost use Rattle.std.specs.Prelude.{◌≡◌, ◌≢◌, ◌↔◌, ◌++◌, List, [], IfOk, IfErr, OnOk, map};
ghost use Rattle.ics_file.specs.File.{said_by};
ghost use Rattle.khal_ports.specs.Answers.{Contents};
ghost use Rattle.khal_reading.specs.Errors.{lines_of};
ghost use Rattle.khal_reading.specs.Asked.{Asked, AsksAll, AsksSome};
ghost use Rattle.khal_reading.specs.Gives.{all_wanted, file_first, reads_of, IsReading};
ghost use Rattle.khal_reading.specs.Inner.Outcomes.{seen_outcome};
ghost use Rattle.khal_ports.specs.Reads.{ReadsAll, ReadsSome};

use crate::answered::Answered;
use crate::outcome::{Outcome, read_outcome};
use crate::refusal::add_refusal_lines;
use crate::status::Status;
use ics_calendar::{SharedZones, only_names_for_parts_count, only_wanted_files_count};
use ics_event::KeptTexts;
use ics_file::FileEvents;
use khal_ports::{RunFault, Source, ZoneSource};
use std::alloc::Global;

/// What is kept from the files of a source: the events that they give, and the lines of those that are not
/// listed, or not whole.
#[derive(Drop)]
pub struct Reading {
    /// The files that are listed, in the order of the reads.
    pub files: Vec<FileEvents>,
    /// The lines of the files that are not listed, or not whole, in the order of the reads.
    pub errors: Vec<u8>,
}

impl Reading {
    /// Nothing is read.
    fn new(alloc: Global) -> Reading
        ensures files { result.files.items ≡ [] }
        ensures errors { result.errors.items ≡ [] }
    {
        Reading {
            files: Vec::new(alloc),
            errors: Vec::new(alloc),
        }
    }

    /// Keeps the events of the next file, and the lines that say why it is not listed, or not whole.
    fn keep(&mut self, alloc: Global, name: &str, outcome: Outcome) -> Result<(), RunFault>
        ensures files { OnOk result (map said_by self.new.files.items
            ≡ map said_by self.old.files.items ++ file_first (seen_outcome outcome).file) }
        ensures errors { OnOk result (self.new.errors.items
            ≡ self.old.errors.items ++ lines_of name.now (seen_outcome outcome).refusals) }
        ensures err { IfErr result (λ fault. fault ≡ RunFault.Memory) }
    {
        let Outcome { file, refusals } = outcome;
        if let Some(file) = file {
            self.files.push(file)?;
        }
        add_refusal_lines(alloc, &mut self.errors, name, &refusals)?;
        Ok(())
    }

    /// How a run ends that reads this: Faulty if a file is not listed, or not whole.
    pub fn status(&self) -> Status
        ensures { (result ≡ Status.Faulty) ↔ (self.now.errors.items ≢ []) }
    {
        if self.errors.is_empty() {
            Status::Clean
        } else {
            Status::Faulty
        }
    }
}

/// Reads each file of the source once, in order, and asks `zones` for each name that the files want and no
/// VTIMEZONE defines, for each once in a run. A file that cannot be read, or one of whose zone files cannot,
/// and a file that is refused have a line in the errors: none of them is a fault here. With `keep_going` a file
/// gives the events of its accepted parts, and has a line for each fault that is named. Of the texts of events
/// those are kept that `keep` names. Memory if an allocation failed, and then only the first of the files are
/// read. Time zones that files share are prepared between two instants, the first of which is `from`: that
/// makes a listing there faster, and changes no answer.
pub fn read_all<S: Source, Z: ZoneSource>(
    alloc: Global,
    source: &mut S,
    zones: &mut Z,
    from: i64,
    to: i64,
    keep_going: bool,
    keep: KeptTexts,
) -> Result<Reading, RunFault>
    ensures some { (contents : List Contents) × (asked : List Asked)
        × ReadsSome S.reads (S.names source.old) source.old contents source.new
        × AsksSome Z.finds [] (all_wanted keep_going (reads_of (S.names source.old) contents)) zones.old asked zones.new }
    ensures all { IfOk result (λ reading. (contents : List Contents) × (asked : List Asked)
        × ReadsAll S.reads (S.names source.old) source.old contents source.new
        × AsksAll Z.finds [] (all_wanted keep_going (reads_of (S.names source.old) contents)) zones.old asked zones.new
        × IsReading keep_going keep asked (reads_of (S.names source.old) contents) (map said_by reading.files.items) reading.errors.items) }
    ensures err { IfErr result (λ fault. fault ≡ RunFault.Memory) }
{
    only_wanted_files_count();
    only_names_for_parts_count();
    let mut reading = Reading::new(alloc);
    let mut answered = Answered::new(alloc);
    let mut shared = SharedZones::new(alloc, from, to);
    for index in 0..source.count() {
        let outcome = read_outcome(
            alloc,
            source,
            zones,
            &mut answered,
            &mut shared,
            index,
            keep_going,
            keep,
        )?;
        reading.keep(alloc, source.name(index), outcome)?;
    }
    Ok(reading)
}
