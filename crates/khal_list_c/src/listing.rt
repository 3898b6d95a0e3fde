//! Listings.
ghost use Rattle.std.specs.Prelude.{◌≡◌, ◌≤◌, ℕ, List, IfOk, IfErr};
ghost use Rattle.khal_list_c.specs.Refused.{fault_status, fault_text, IsRefusal, IsToldWhy};
ghost use Rattle.khal_list_c.specs.Listed.{ListsFiles, ListsGiven};
ghost use Rattle.khal_list_c.specs.Handed.{IsHanded};
ghost use Rattle.khal_reading.specs.Status.{code_of};
ghost use Rattle.khal_reading.specs.declared.status.Status.{Status};
ghost use Rattle.khal_list_c.specs.Given.{given_of, held_files, held_zones};

use crate::given::{GivenFault, KhalFile, source_of, zones_of};
use crate::handing::hand_over;
use crate::requests::request_of;
use crate::words::{KhalWord, texts_of};
use khal_list::{
    AtEnd, MemorySink, MemorySource, MemoryZones, Request, RequestFault, RunFault, Status, run,
};
use std::alloc::Global;

/// What a run wrote, and its status.
#[derive(Drop)]
pub struct Written {
    out: Vec<u8>,
    err: Vec<u8>,
    status: Status,
}

/// Why there is no listing.
#[derive(Drop)]
enum ListingFault {
    Given(GivenFault),
    Request(RequestFault),
    Memory,
}

impl From<GivenFault> for ListingFault {
    ghost use Rattle.std.specs.Prelude.{◌≡◌};
    ghost use Rattle.khal_list_c.specs.declared.listing.ListingFault.TheVariants.{Given};

    ghost from_gives = { λ given fault. fault ≡ Given given };

    fn from(fault: GivenFault) -> ListingFault {
        ListingFault::Given(fault)
    }
}

impl From<RequestFault> for ListingFault {
    ghost use Rattle.std.specs.Prelude.{◌≡◌};
    ghost use Rattle.khal_list_c.specs.declared.listing.ListingFault.TheVariants.{Request};

    ghost from_gives = { λ request fault. fault ≡ Request request };

    fn from(fault: RequestFault) -> ListingFault {
        ListingFault::Request(fault)
    }
}

impl From<RunFault> for ListingFault {
    ghost use Rattle.std.specs.Prelude.{◌≡◌};
    ghost use Rattle.khal_list_c.specs.declared.listing.ListingFault.TheVariants.{Memory};

    ghost from_gives = { λ _ fault. fault ≡ Memory };

    fn from(_fault: RunFault) -> ListingFault {
        ListingFault::Memory
    }
}

/// How long both texts are, and the status: 0, or 1 if a file is not listed, or not whole, and otherwise a fault: 2 if the words are no request, 3 if
/// memory is short, and 4 if a word or a name is not UTF-8.
#[repr(C)]
#[derive(Clone, Copy)]
pub struct KhalListed {
    pub out_length: usize,
    pub err_length: usize,
    pub status: u32,
}

/// The listing of a request.
fn run_held(
    alloc: Global,
    mut source: MemorySource,
    mut zones: MemoryZones,
    request: &Request,
) -> Result<Written, RunFault>
    ensures { IfOk result (λ written. ListsFiles (held_files source) (held_zones zones) request.now written.out.items written.err.items written.status) }
{
    let mut out = MemorySink::new(alloc);
    let mut err = MemorySink::new(alloc);
    let status = run(
        alloc,
        &mut source,
        &mut zones,
        request,
        AtEnd::GivenBack,
        &mut out,
        &mut err,
    )?;
    Ok(Written {
        out: out.bytes,
        err: err.bytes,
        status,
    })
}

/// The listing of what was handed over.
fn listed(
    alloc: Global,
    words: &[KhalWord<'_>],
    files: &[KhalFile<'_>],
    zones: &[KhalFile<'_>],
    zone_file: &[u8],
    now: i64,
) -> Result<Written, ListingFault>
    ensures lists { IfOk result (λ written. ListsGiven (given_of words.now files.now zones.now zone_file.now now)
        written.out.items written.err.items written.status) }
    ensures refused { IfErr result (λ fault. IsRefusal (given_of words.now files.now zones.now zone_file.now now) fault) }
{
    let texts = texts_of(alloc, words)?;
    let request = request_of(alloc, texts.as_slice(), zone_file, now)?;
    let source = source_of(alloc, files)?;
    let zones = zones_of(alloc, zones)?;
    Ok(run_held(alloc, source, zones, &request)?)
}

/// What is told of a fault, and its number.
fn hand_fault(fault: &ListingFault, err: &mut [u8]) -> KhalListed
    ensures status { result.status ≡ fault_status fault.now }
    ensures none { result.out_length ≡ 0 }
    ensures told { IsHanded (fault_text fault.now) err.old err.new result.err_length }
{
    let (text, status) = match fault {
        ListingFault::Given(GivenFault::NotText) => ("NotText", 4),
        ListingFault::Given(GivenFault::Memory) | ListingFault::Memory => ("Memory", 3),
        ListingFault::Request(RequestFault::Usage { text, .. }) => (text.as_str(), 2),
        ListingFault::Request(RequestFault::Memory) => ("Memory", 3),
        ListingFault::Request(fault) => (fault.name(), 2),
    };
    KhalListed {
        out_length: 0,
        err_length: hand_over(text.as_bytes(), err),
        status,
    }
}

/// Lists files as `khal-list` does: the words of its command line without the program's name, the files of the folder in order, zone files by
/// name, the bytes of the file that `--zone-file` names, and the clock in seconds since 1970. Writes the text of standard output and that of
/// standard error, as much as there is room for, and gives how long both are. Nothing but what is handed over is read.
#[unsafe(no_mangle)]
pub extern "C" fn khal_list(
    alloc: Global,
    words: &[KhalWord<'_>],
    files: &[KhalFile<'_>],
    zones: &[KhalFile<'_>],
    zone_file: &[u8],
    now: i64,
    out: &mut [u8],
    err: &mut [u8],
) -> KhalListed
    ensures listed { result.status ≤ 1 → (text : List ℕ) × (told : List ℕ) × (status : Status)
        × ListsGiven (given_of words.now files.now zones.now zone_file.now now) text told status
        × (result.status ≡ code_of status) × IsHanded text out.old out.new result.out_length × IsHanded told err.old err.new result.err_length }
    ensures refused { 2 ≤ result.status → IsToldWhy (given_of words.now files.now zones.now zone_file.now now) out.old out.new err.old err.new result }
{
    match listed(alloc, words, files, zones, zone_file, now) {
        Ok(written) => KhalListed {
            out_length: hand_over(written.out.as_slice(), out),
            err_length: hand_over(written.err.as_slice(), err),
            status: u32::from(written.status.code()),
        },
        Err(fault) => hand_fault(&fault, err),
    }
}
