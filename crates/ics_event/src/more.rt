//! What few events have.
ghost use Rattle.std.specs.Prelude.{◌≡◌, true, [], IfOk};
ghost use Rattle.ics_event.specs.More.{kept_more, more_in, no_more, texts_in_more};
ghost use Rattle.ics_values.specs.TextNames.{text_at};
ghost use Rattle.ics_values.specs.KeptTexts.{kept_text};

use crate::time::{Rdate, Time};
use ics_values::{KeptTexts, Text, TextName};
use std::alloc::{AllocError, Global};
use std::marker::Model;

/// What an event has beside what each has. It has a place of its own in memory, since most events have none of it.
#[derive(Drop)]
pub struct More {
    /// Whether its STATUS is `CANCELLED`.
    pub cancelled: bool,
    /// The values of its RDATEs, in the order of the file (RFC 5545, section 3.8.5.2).
    pub rdates: Vec<Rdate>,
    /// The values of its EXDATEs, which remove starts, in the order of the file (RFC 5545, section 3.8.5.1).
    pub exdates: Vec<Time>,
    /// LOCATION, or the empty text.
    pub location: Text,
    /// DESCRIPTION, or the empty text.
    pub description: Text,
    /// The value of its first URL as it stands, or the empty text (RFC 5545, section 3.8.4.6).
    pub url: Text,
}

impl Model for More {
    ghost use Rattle.ics_event.specs.More.{MoreSeen};

    ghost Value = { MoreSeen };

    ghost view = { λ a. record {
      cancelled = a.cancelled;
      rdates = a.rdates.items;
      exdates = a.exdates.items;
      location = a.location;
      description = a.description;
      url = a.url;
    } };
}

/// Empties a text that is not kept.
pub(crate) fn keep_text(alloc: Global, keep: bool, text: &mut Text)
    ensures { text.new ≡ kept_text keep text.old }
{
    if !keep {
        *text = Text::new(alloc);
    }
}

/// Whether a text has no bytes.
fn is_empty(text: &Text) -> bool
    ensures { result ≡ true → text.now ≡ [] }
{
    text.as_slice().is_empty()
}

impl More {
    /// Whether it is nothing.
    fn is_none(&self) -> bool
        ensures { result ≡ true → self.now ≡ no_more }
    {
        !self.cancelled
            && self.rdates.is_empty()
            && self.exdates.is_empty()
            && is_empty(&self.location)
            && is_empty(&self.description)
            && is_empty(&self.url)
    }

    /// The text of a property. SUMMARY is not among them.
    pub(crate) fn text(&self, name: TextName) -> &[u8]
        ensures { result.now ≡ text_at name (texts_in_more self.now) }
    {
        match name {
            TextName::Summary => &[],
            TextName::Location => self.location.as_slice(),
            TextName::Description => self.description.as_slice(),
            TextName::Url => self.url.as_slice(),
        }
    }

    /// The same in a place of its own, if it is anything.
    pub fn boxed(self, alloc: Global) -> Result<Option<Box<More>>, AllocError>
        ensures { IfOk result (λ more. more_in more ≡ self) }
    {
        if self.is_none() {
            return Ok(None);
        }
        let more = Box::new(alloc, self)?;
        Ok(Some(more))
    }
}

/// The same with these texts alone.
pub(crate) fn more_kept(
    alloc: Global,
    keep: KeptTexts,
    more: Option<Box<More>>,
) -> Option<Box<More>>
    ensures { more_in result ≡ kept_more keep (more_in more) }
{
    let Some(mut more) = more else {
        return None;
    };
    keep_text(alloc, keep.location, &mut more.location);
    keep_text(alloc, keep.description, &mut more.description);
    keep_text(alloc, keep.url, &mut more.url);
    if more.is_none() { None } else { Some(more) }
}
