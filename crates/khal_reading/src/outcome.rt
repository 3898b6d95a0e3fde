//! What becomes of a file that is read.
ghost use Rattle.std.specs.Prelude.{◌≡◌, ◌<◌, ◌≤◌, ◌∷◌, [], List, ℕ, Some, None, Err, IfOk, IfErr, OnErr, OnOk, length, map};
ghost use Rattle.std.specs.BTreeSet.{contains};
ghost use Rattle.std.specs.Cmp.Lexicographic.{slice_cmp};
ghost use Rattle.std.specs.List.{list_any};
ghost use Rattle.std.specs.Ordering.{nat_cmp};
ghost use Rattle.ics_file.specs.File.{said_by};
ghost use Rattle.ics_calendar.specs.ZoneTables.{given_by};
ghost use Rattle.ics_components.specs.FileReading.{HasRead};
ghost use Rattle.ics_event.specs.Kept.{KeptTexts};
ghost use Rattle.khal_ports.specs.Answers.{contents_of, most_bytes, Answer};
ghost use Rattle.khal_reading.specs.Asked.{Asked};
ghost use Rattle.khal_reading.specs.Gives.{gives_in_parts, gives_whole, in_parts, kept_gives, name_at, unread};
ghost use Rattle.khal_reading.specs.Inner.Learned.{Knows, Learns, LearnsSome, Settles, WantedCount};
ghost use Rattle.khal_reading.specs.Inner.Outcomes.{half_gives, refusal_by, refusal_of, seen_outcome, EndsReading, IsOutcome};

use crate::answered::Answered;
use crate::file_pieces::ReadPieces;
use crate::refusal::Refusal;
use ics_calendar::{
    Fault, FaultKind, FileFault, FileReader, GivenFile, PartialFile, SharedZones, UnresolvedFile,
    ZoneFiles, only_names_for_parts_count, only_wanted_files_count,
};
use ics_event::{KeptTexts, Text};
use ics_file::FileEvents;
use khal_ports::{RunFault, Source, SourceFault, ZoneSource};
use std::alloc::{AllocError, Global};

/// What becomes of a file: its events, if it is listed, and why it is not listed, or not whole.
#[derive(Drop)]
pub(crate) struct Outcome {
    pub(crate) file: Option<FileEvents>,
    pub(crate) refusals: Vec<Refusal>,
}

/// A file that is read as far as no zone files are needed.
#[derive(Drop)]
enum HalfRead<'a> {
    /// The first round finds nothing.
    Whole(UnresolvedFile),
    /// Its sound parts are kept, and of its events these texts alone are to be.
    InParts(PartialFile<'a>, KeptTexts),
    /// Its first fault.
    Faulty { line: u64, kind: FaultKind },
}

/// Why a file of which these faults are named is not whole.
fn refusals_of(alloc: Global, faults: Vec<Fault>) -> Result<Vec<Refusal>, AllocError>
    ensures { IfOk result (λ refusals. refusals.items ≡ map refusal_by faults.items) }
{
    faults.into_iter().map(Refusal::of).collect(alloc)
}

impl Outcome {
    /// A file that is accepted.
    fn accepted(alloc: Global, file: FileEvents) -> Outcome
        ensures { seen_outcome result ≡ record { file = Some (said_by file); refusals = [] } }
    {
        Outcome {
            file: Some(file),
            refusals: Vec::new(alloc),
        }
    }

    /// A file that is not listed.
    fn refused(alloc: Global, refusal: Refusal) -> Result<Outcome, AllocError>
        ensures { IfOk result (λ outcome. seen_outcome outcome ≡ record { file = None; refusals = refusal_of refusal ∷ [] }) }
    {
        let mut refusals = Vec::new(alloc);
        refusals.push(refusal)?;
        Ok(Outcome {
            file: None,
            refusals,
        })
    }

    /// A file of which the accepted parts are listed.
    fn in_parts(alloc: Global, given: GivenFile) -> Result<Outcome, AllocError>
        ensures { IfOk result (λ outcome. seen_outcome outcome ≡ in_parts given) }
    {
        let GivenFile { file, faults } = given;
        let refusals = refusals_of(alloc, faults)?;
        Ok(Outcome {
            file: Some(file),
            refusals,
        })
    }
}

impl<'a> HalfRead<'a> {
    /// A file of which all events are listed or none, and whose bytes are read.
    fn whole(
        alloc: Global,
        shared: &mut SharedZones,
        reader: FileReader,
    ) -> Result<HalfRead<'a>, RunFault>
        requires { (keep : KeptTexts) × (bytes : List ℕ) × HasRead keep bytes reader }
        ensures ok { (keep : KeptTexts) (bytes : List ℕ) → HasRead keep bytes reader
            → IfOk result (λ half. half_gives half ≡ kept_gives keep (gives_whole bytes)) }
        ensures err { IfErr result (λ fault. fault ≡ RunFault.Memory) }
    {
        match UnresolvedFile::of_reader(alloc, shared, reader) {
            Ok(unresolved) => Ok(HalfRead::Whole(unresolved)),
            Err(FileFault::At { line, kind }) => Ok(HalfRead::Faulty { line, kind }),
            Err(FileFault::Memory) => Err(RunFault::Memory),
        }
    }

    /// The names of the time zones that it wants, as bytes.
    fn names(&self, alloc: Global) -> Result<Vec<Vec<u8>>, AllocError>
        ensures { IfOk result (λ names. map (λ name. name.items) names.items ≡ (half_gives self.now).wants) }
    {
        match self {
            HalfRead::Whole(unresolved) => unresolved.wanted(alloc),
            HalfRead::InParts(partial, _) => partial.wanted(alloc),
            HalfRead::Faulty { .. } => Ok(Vec::new(alloc)),
        }
    }

    /// The names of the time zones that it wants.
    fn wanted(&self, alloc: Global) -> Result<Vec<Text>, AllocError>
        ensures { IfOk result (λ names. names.items ≡ (half_gives self.now).wants) }
    {
        self.names(alloc)?.into_iter().map(Text::of).collect(alloc)
    }

    /// What it comes to with these zone files.
    fn settle(self, alloc: Global, files: &ZoneFiles) -> Result<Outcome, RunFault>
        ensures ok { IfOk result (λ outcome. seen_outcome outcome ≡ (half_gives self.entry).gives (given_by files.now)) }
        ensures err { IfErr result (λ fault. fault ≡ RunFault.Memory) }
    {
        match self {
            HalfRead::Whole(unresolved) => match unresolved.settle(alloc, files) {
                Ok(file) => Ok(Outcome::accepted(alloc, file)),
                Err(FileFault::At { line, kind }) => {
                    Ok(Outcome::refused(alloc, Refusal::At { line, kind })?)
                }
                Err(FileFault::Memory) => Err(RunFault::Memory),
            },
            HalfRead::InParts(partial, keep) => {
                let given = partial.settle(alloc, files)?.kept(alloc, keep);
                Ok(Outcome::in_parts(alloc, given)?)
            }
            HalfRead::Faulty { line, kind } => {
                Ok(Outcome::refused(alloc, Refusal::At { line, kind })?)
            }
        }
    }
}

/// Asks for the names that a file wants, and says whether the zone file of one of them was not read.
fn wants_unread<Z: ZoneSource>(
    alloc: Global,
    zones: &mut Z,
    answered: &mut Answered,
    half: &HalfRead<'_>,
) -> Result<bool, RunFault>
    ensures ok { OnOk result ((asked : List Asked) → Knows asked answered.old
        → Learns Z.finds asked (half_gives half.now).wants zones.old zones.new answered.new) }
    ensures unread { IfOk result (λ unread. unread
        ≡ list_any (contains (slice_cmp nat_cmp) answered.new.unread) (half_gives half.now).wants) }
    ensures some { OnErr result ((asked : List Asked) → Knows asked answered.old
        → LearnsSome Z.finds asked (half_gives half.now).wants zones.old zones.new) }
    ensures err { IfErr result (λ fault. fault ≡ RunFault.Memory) }
{
    let wanted = half.wanted(alloc)?;
    answered.ask_all(alloc, zones, &wanted)?;
    Ok(answered.lacks(&wanted))
}

/// Asks for the names that a file wants, and says what it comes to.
fn outcome_with<Z: ZoneSource>(
    alloc: Global,
    zones: &mut Z,
    answered: &mut Answered,
    half: HalfRead<'_>,
) -> Result<Outcome, RunFault>
    ensures ok { IfOk result (λ outcome. (asked : List Asked) → Knows asked answered.old → WantedCount (half_gives half.entry)
        → Settles Z.finds asked (half_gives half.entry) zones.old zones.new answered.new (seen_outcome outcome)) }
    ensures some { OnErr result ((asked : List Asked) → Knows asked answered.old
        → LearnsSome Z.finds asked (half_gives half.entry).wants zones.old zones.new) }
    ensures err { IfErr result (λ fault. fault ≡ RunFault.Memory) }
{
    match wants_unread(alloc, zones, answered, &half) {
        Ok(false) => half.settle(alloc, &answered.files),
        Ok(true) => {
            drop(half);
            Ok(Outcome::refused(alloc, Refusal::Unread)?)
        }
        Err(fault) => {
            drop(half);
            Err(fault)
        }
    }
}

/// What a file comes to of which all events are listed or none, and whose bytes are read.
fn outcome_of_whole<Z: ZoneSource>(
    alloc: Global,
    zones: &mut Z,
    answered: &mut Answered,
    shared: &mut SharedZones,
    reader: FileReader,
) -> Result<Outcome, RunFault>
    requires { (keep : KeptTexts) × (bytes : List ℕ) × HasRead keep bytes reader }
    ensures ok { (keep : KeptTexts) (bytes : List ℕ) → HasRead keep bytes reader
        → IfOk result (λ outcome. (asked : List Asked) → Knows asked answered.old
        → Settles Z.finds asked (kept_gives keep (gives_whole bytes)) zones.old zones.new answered.new (seen_outcome outcome)) }
    ensures some { (keep : KeptTexts) (bytes : List ℕ) → HasRead keep bytes reader → OnErr result ((asked : List Asked) → Knows asked answered.old
        → LearnsSome Z.finds asked (gives_whole bytes).wants zones.old zones.new) }
    ensures err { IfErr result (λ fault. fault ≡ RunFault.Memory) }
{
    only_wanted_files_count();
    only_names_for_parts_count();
    let half = HalfRead::whole(alloc, shared, reader)?;
    outcome_with(alloc, zones, answered, half)
}

/// What the bytes of a file of that name come to whose sound parts are kept.
fn outcome_in_parts<Z: ZoneSource>(
    alloc: Global,
    zones: &mut Z,
    answered: &mut Answered,
    shared: &mut SharedZones,
    name: &str,
    bytes: &[u8],
    keep: KeptTexts,
) -> Result<Outcome, RunFault>
    requires { length bytes.now ≤ most_bytes }
    ensures ok { IfOk result (λ outcome. (asked : List Asked) → Knows asked answered.old
        → Settles Z.finds asked (kept_gives keep (gives_in_parts name.now bytes.now)) zones.old zones.new answered.new (seen_outcome outcome)) }
    ensures some { OnErr result ((asked : List Asked) → Knows asked answered.old
        → LearnsSome Z.finds asked (gives_in_parts name.now bytes.now).wants zones.old zones.new) }
    ensures err { IfErr result (λ fault. fault ≡ RunFault.Memory) }
{
    only_wanted_files_count();
    only_names_for_parts_count();
    let partial = PartialFile::sharing(alloc, shared, name, bytes)?;
    outcome_with(alloc, zones, answered, HalfRead::InParts(partial, keep))
}

/// What a file comes to that is not read.
fn not_read(alloc: Global, fault: SourceFault) -> Result<Outcome, RunFault>
    ensures ok { IfOk result (λ outcome. (seen_outcome outcome ≡ unread) × (contents_of (Err fault) ≡ Some None)) }
    ensures err { IfErr result (λ fault. fault ≡ RunFault.Memory) }
{
    match fault {
        SourceFault::Memory => Err(RunFault::Memory),
        _ => Ok(Outcome::refused(alloc, Refusal::Unread)?),
    }
}

/// Reads a file, and asks for the names that it wants. Only a failed allocation is a fault here; a file
/// that cannot be read, or whose zone files cannot, is an outcome.
pub(crate) fn read_outcome<S: Source, Z: ZoneSource>(
    alloc: Global,
    source: &mut S,
    zones: &mut Z,
    answered: &mut Answered,
    shared: &mut SharedZones,
    index: usize,
    keep_going: bool,
    keep: KeptTexts,
) -> Result<Outcome, RunFault>
    requires { index < length (S.names source.old) }
    ensures names { S.names source.new ≡ S.names source.old }
    ensures read { (answer : Answer) × S.reads source.old index answer source.new
        × IfOk result (λ outcome. IsOutcome Z.finds keep_going keep (name_at (S.names source.old) index) answer zones.old zones.new answered.old answered.new
        (seen_outcome outcome))
        × OnErr result (EndsReading Z.finds keep_going (name_at (S.names source.old) index) answer zones.old zones.new answered.old) }
    ensures err { IfErr result (λ fault. fault ≡ RunFault.Memory) }
{
    if keep_going {
        let mut bytes = Vec::new(alloc);
        match source.read_into(alloc, index, &mut bytes) {
            Ok(()) => {}
            Err(fault) => return not_read(alloc, fault),
        }
        let name = source.name(index);
        return outcome_in_parts(alloc, zones, answered, shared, name, bytes.as_slice(), keep);
    }
    let mut pieces = ReadPieces::new(alloc, keep);
    match source.read_into(alloc, index, &mut pieces) {
        Ok(()) => outcome_of_whole(alloc, zones, answered, shared, pieces.reader),
        Err(fault) => not_read(alloc, fault),
    }
}
