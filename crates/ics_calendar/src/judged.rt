//! What the deferred checks find, once the time zones of the file are known (RFC 5545, sections 3.2.19 and 3.8.2.2).
ghost use Rattle.std.specs.Prelude.{◌≡◌};
ghost use Rattle.std.specs.List.{All};
ghost use Rattle.ics_components.specs.ParsedFiles.{IsSoundCheck};
ghost use Rattle.ics_calendar.specs.DeferredChecks.{judged};
ghost use Rattle.ics_calendar.specs.Settled.{first_judged};
ghost use Rattle.ics_calendar.specs.ZoneTables.{known_by};

use crate::zone_table::ZoneTable;
use ics_components::{DeferredCheck, Fault, FaultKind, LineCheck, is_out};

/// The fault that a deferred check finds, if it finds one.
fn judged(table: &ZoneTable, check: &DeferredCheck) -> Option<FaultKind>
    requires { IsSoundCheck check.now }
    ensures { result ≡ judged (known_by table.now) check.now }
{
    match check {
        DeferredCheck::End => Some(FaultKind::BadEnd),
        DeferredCheck::Zone(name) if table.index(name).is_some() => None,
        DeferredCheck::Zone(name) if table.is_bad(&name.name) => Some(FaultKind::BadZoneFile),
        DeferredCheck::Zone(_) => Some(FaultKind::UnknownZone),
        DeferredCheck::Ends(start, end) => {
            if is_out(table.moment_of(start)?, table.moment_of(end)?) {
                Some(FaultKind::BadEnd)
            } else {
                None
            }
        }
    }
}

/// The first of the deferred checks that finds a fault.
pub fn first_judged(table: &ZoneTable, checks: &[LineCheck]) -> Option<Fault>
    requires { All (λ w. IsSoundCheck w.check) checks.now }
    ensures { result ≡ first_judged (known_by table.now) checks.now }
{
    for deferred in checks {
        if let Some(kind) = judged(table, &deferred.check) {
            return Some(Fault {
                line: deferred.line,
                kind,
            });
        }
    }
    None
}
