//! The values of RDATE and EXDATE with the zones that their lines name (RFC 5545, sections 3.8.5.1 and 3.8.5.2).
ghost use Rattle.std.specs.Prelude.{◌≡◌, is_some, IfOk};
ghost use Rattle.std.specs.List.{list_any};
ghost use Rattle.ics_components.specs.DateValues.{has_zoned, list_of, local_in, values_of};
ghost use Rattle.ics_components.specs.Faults as reading;
ghost use Rattle.ics_components.specs.Lines.{Gives, misread};
ghost use Rattle.ics_components.specs.SecondRound.{list_zone, zone_check};
ghost use Rattle.ics_components.specs.Values.{zone_name};

use crate::date_values::{Listing, read_values};
use crate::deferred_check::{DeferredCheck, ZoneName};
use crate::listed::Listed;
use crate::refused::Refused;
use crate::time::zone_name;
use crate::tzid::{Tzid, Tzids};
use ics_text::Content;
use ics_values::{Length, Local, Rdate, Stamp, is_zoned};
use std::alloc::{AllocError, Global};

/// The values of an RDATE or EXDATE line, in its order, and the name of the zone in its TZID, if it has one.
#[derive(Drop)]
pub struct DateList {
    pub values: Listed<Rdate<Tzid>>,
    pub zone: Option<Tzid>,
}

/// Whether one of its stamps is a local one beside a TZID.
fn has_zoned(value: &Rdate<Tzid>) -> bool
    ensures { result ≡ has_zoned value.now }
{
    match value {
        Rdate::At(time) => is_zoned(time.stamp),
        Rdate::Span(start, Length::Until(end)) => is_zoned(start.stamp) || is_zoned(end.stamp),
        Rdate::Span(start, _) => is_zoned(start.stamp),
    }
}

/// The local without a TZID that a value is, if it is one.
pub fn local_in(value: &Rdate<Tzid>) -> Option<Local>
    ensures { result ≡ local_in value.now }
{
    match value {
        Rdate::At(time) => match time.stamp {
            Stamp::Floating(local) => Some(local),
            _ => None,
        },
        Rdate::Span(_, _) => None,
    }
}

impl DateList {
    /// What a line lists, and the zone that its TZID names, or the least fault of its values.
    pub(crate) fn read(
        alloc: Global,
        tzids: &mut Tzids,
        listing: Listing,
        content: &Content<'_>,
    ) -> Result<DateList, Refused>
        ensures { Gives result (misread (reading.Dates (values_of listing (is_some (zone_name content.now.params)) content.now.value)))
            (list_of listing content.now.params content.now.value) }
    {
        let zone = zone_name(alloc, tzids, content)?;
        let values = read_values(alloc, listing, content.value(), &zone)?;
        Ok(DateList { values, zone })
    }

    /// Whether a stamp among them is a local one beside a TZID.
    fn have_zoned(&self) -> bool
        ensures { result ≡ list_any has_zoned self.now.values }
    {
        self.values.values.iter().any(|value| has_zoned(value))
    }

    /// The check that the time zone of the stamps is known, if they have one (RFC 5545, section 3.2.19).
    pub(crate) fn check(&self, calendar: u64) -> Result<Option<DeferredCheck>, AllocError>
        ensures { IfOk result (λ check. check ≡ zone_check (list_zone calendar self.now)) }
    {
        if !self.have_zoned() {
            return Ok(None);
        }
        let name = ZoneName::shared(calendar, &self.zone)?;
        Ok(Some(DeferredCheck::Zone(name)))
    }
}
