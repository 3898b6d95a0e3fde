//! When the events of a folder are.
ghost use Rattle.std.specs.Prelude.{◌≡◌, map, IfOk, IsSome};
ghost use Rattle.ics_file.specs.File.{said_by};
ghost use Rattle.ics_starts.specs.Clocks.{display_clock};
ghost use Rattle.ics_days.specs.Spans.{can_meet, first_at, is_out};
ghost use Rattle.ics_series.specs.Inner.Spans.{span_at, IsSpanPut};
ghost use Rattle.ics_series.specs.Spots.{event_at};
ghost use Rattle.ics_series.specs.Versions.{seen, AreChosen};

use crate::version::Version;
use ics_days::Span;
use ics_file::FileEvents;
use ics_listing::Window;
use ics_starts::{Single, is_single};
use ics_values::Moment;
use ics_zone::Display;
use std::alloc::{AllocError, Global};

/// The spans of versions, for windows that end no later than this one.
pub(crate) fn spans(
    alloc: Global,
    files: &[FileEvents],
    display: &Display,
    chosen: &[Version<'_>],
    window: &Window,
) -> Result<Vec<Span>, AllocError>
    requires { AreChosen (map said_by files.now) (display_clock display.now) chosen.now }
    ensures { IfOk result (λ spans. spans.items
        ≡ map (span_at (map said_by files.entry.now) (display_clock display.entry.now) window.now) (map seen chosen.entry.now)) }
{
    let mut spans = Vec::new(alloc);
    for version in chosen {
        spans.push(span_at(files, display, version, window))?;
    }
    Ok(spans)
}

/// That of a version.
fn span_at(files: &[FileEvents], display: &Display, version: &Version<'_>, window: &Window) -> Span
    requires { IsSome (event_at (map said_by files.now) version.now.spot) }
    ensures { result ≡ span_at (map said_by files.entry.now) (display_clock display.entry.now) window.now (seen version.now) }
{
    let zones = version.spot.zones(files, display);
    let event = version.spot.event(files);
    if !is_single(event) {
        return Span {
            first: Moment::MIN,
            last: Moment::MAX,
        };
    }
    match Single::begun(zones, event, None, window) {
        None => Span {
            first: window.to,
            last: window.to,
        },
        Some(single) => {
            let occurrence = single.occurrence();
            Span {
                first: occurrence.start,
                last: occurrence.finish,
            }
        }
    }
}

/// Puts a span at a place, if there is one there.
pub(crate) fn put_span(spans: &mut Vec<Span>, place: usize, span: Span)
    ensures { IsSpanPut spans.old.items place span spans.new.items }
{
    if place < spans.len() {
        spans[place] = span;
    }
}

/// Whether the span at a place, if there is one there, cannot meet a window.
pub(crate) fn is_out(spans: &[Span], place: usize, window: &Window) -> bool
    ensures { result ≡ is_out spans.now place window.now }
{
    match spans.get(place) {
        None => false,
        Some(span) => !span.can_meet(window),
    }
}
