//! The observances of a time zone (RFC 5545, section 3.6.5).
ghost use Rattle.std.specs.Prelude.{◌≡◌, false, IfOk};
ghost use Rattle.ics_components.specs.DateValues.{values_of};
ghost use Rattle.ics_components.specs.declared.date_values.Listing.TheVariants.{Rdate};
ghost use Rattle.ics_components.specs.Faults as reading;
ghost use Rattle.ics_components.specs.Lines.{Gives, unfit};
ghost use Rattle.ics_components.specs.Observances.{locals_of};

use crate::date_list::local_in;
use crate::date_values::{Listing, read_values};
use crate::fault::FaultKind;
use crate::listed::Listed;
use crate::refused::Refused;
use crate::tzid::Tzid;
use ics_values::{Local, Observance};
use std::alloc::{AllocError, Global};

/// The values of an RDATE of an observance, which are locals without a TZID, or the least fault of them.
pub fn read_locals(alloc: Global, text: &[u8]) -> Result<Listed<Local>, Refused>
    ensures { Gives result (unfit (reading.Dates (values_of Rdate false text.now))) (locals_of text.now) }
{
    let no_zone: Option<Tzid> = None;
    let dates = read_values(alloc, Listing::Rdate, text, &no_zone)?;
    let mut values = Vec::new(alloc);
    for value in &dates.values {
        let Some(local) = local_in(value) else {
            return Err(Refused::Fault(FaultKind::ObservanceField));
        };
        values.push(local)?;
    }
    Ok(Listed { values })
}

/// The same observances, in other memory.
pub fn copied_observances(
    alloc: Global,
    observances: &Listed<Observance>,
) -> Result<Listed<Observance>, AllocError>
    ensures { IfOk result (λ copies. copies ≡ observances.now) }
{
    let mut values = Vec::with_capacity(alloc, observances.values.len())?;
    for observance in &observances.values {
        values.push(observance.copied(alloc)?)?;
    }
    Ok(Listed { values })
}
