//! The request of words that the caller hands over.
ghost use Rattle.std.specs.Prelude.{◌≡◌, ◌⊎◌, Some, None, Err, IfOk, IfErr, map};
ghost use Rattle.ics_zone.specs.ZoneSaid.{display_said};
ghost use Rattle.khal_list_c.specs.Asked.{display_by, RequestBy};

use khal_list::{Display, Request, RequestFault, Words, zone_of_file};
use std::alloc::Global;

/// The display zone of the words: that of the zone file if they have `--zone-file`, and else the one of `--zone`.
fn display(alloc: Global, words: &Words<'_>, zone_file: &[u8]) -> Result<Display, RequestFault>
    ensures zone { IfOk result (λ zone. Some (display_said zone) ≡ display_by zone_file.now words.now) }
    ensures bad { (result ≡ Err RequestFault.BadZone) → display_by zone_file.now words.now ≡ None }
    ensures only { IfErr result (λ fault. (fault ≡ RequestFault.BadZone) ⊎ (fault ≡ RequestFault.Memory)) }
{
    match words.zone_file() {
        Some(_) => zone_of_file(alloc, zone_file),
        None => words.zone(alloc),
    }
}

/// The request of words at a clock, or their first fault.
pub fn request_of(
    alloc: Global,
    words: &[&str],
    zone_file: &[u8],
    now: i64,
) -> Result<Request, RequestFault>
    ensures { RequestBy zone_file.now (map (λ word. word.now) words.now) now result }
{
    let words = Words::of(alloc, words)?;
    let zone = display(alloc, &words, zone_file)?;
    words.request(alloc, &zone, now)
}
