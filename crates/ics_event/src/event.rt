ghost use Rattle.std.specs.Prelude.{◌≡◌, All};
ghost use Rattle.ics_event.specs.Event.{texts_in, IsRdate, IsTime};
ghost use Rattle.ics_event.specs.Kept.{kept_event};
ghost use Rattle.ics_values.specs.TextNames.{text_at};

use crate::more::{More, keep_text, more_kept};
use crate::time::{Length, Rdate, Time};
use ics_values::{KeptRule, KeptTexts, Text, TextName};
use std::alloc::Global;
use std::marker::Model;

/// An event of a file (RFC 5545, section 3.6.1).
///
/// Its UID is not empty. Its stamps are in the years 0001 to 9899. They have a zone exactly if they are zoned. It ends
/// at most 36,525 days after its start, and not before it.
#[derive(Drop)]
pub struct Event {
    pub uid: Text,
    /// SEQUENCE, or 0. Of several versions of an event, the one with the greatest number counts (RFC 5545, section 3.8.7.4).
    pub sequence: u32,
    pub start: Time,
    pub length: Length,
    /// The recurrence rule that RRULE gives (RFC 5545, section 3.8.5.3).
    pub rule: Option<KeptRule>,
    /// SUMMARY, or the empty text.
    pub title: Text,
    /// RECURRENCE-ID. An event with one is an override: it replaces that instance of the event with its UID and without one.
    pub recurrence: Option<Time>,
    /// Its RDATEs, EXDATEs, LOCATION, DESCRIPTION and URL, and that it is cancelled, if it has any of these.
    pub more: Option<Box<More>>,
}

impl Model for Event {
    ghost use Rattle.ics_event.specs.Event.{EventSeen, IsEvent};
    ghost use Rattle.ics_event.specs.More.{more_in};

    ghost Value = { EventSeen };

    ghost view = { λ a. record {
      uid = a.uid;
      sequence = a.sequence;
      start = a.start;
      length = a.length;
      rule = a.rule;
      rdates = (more_in a.more).rdates;
      exdates = (more_in a.more).exdates;
      recurrence = a.recurrence;
      title = a.title;
      location = (more_in a.more).location;
      description = (more_in a.more).description;
      cancelled = (more_in a.more).cancelled;
      url = (more_in a.more).url;
    } };

    ghost invariant = { λ a. IsEvent (record {
      uid = a.uid;
      sequence = a.sequence;
      start = a.start;
      length = a.length;
      rule = a.rule;
      rdates = (more_in a.more).rdates;
      exdates = (more_in a.more).exdates;
      recurrence = a.recurrence;
      title = a.title;
      location = (more_in a.more).location;
      description = (more_in a.more).description;
      cancelled = (more_in a.more).cancelled;
      url = (more_in a.more).url;
    }) };
}

impl Event {
    /// Whether its STATUS is `CANCELLED`.
    pub fn is_cancelled(&self) -> bool
        ensures { result ≡ self.now.cancelled }
    {
        match &self.more {
            None => false,
            Some(more) => more.cancelled,
        }
    }

    /// The values of its RDATEs, in the order of the file (RFC 5545, section 3.8.5.2).
    #[inline]
    pub fn rdates(&self) -> &[Rdate]
        ensures value { result.now ≡ self.now.rdates }
        ensures sound { All IsRdate result.now }
    {
        match &self.more {
            None => &[],
            Some(more) => more.rdates.as_slice(),
        }
    }

    /// The values of its EXDATEs, which remove starts, in the order of the file (RFC 5545, section 3.8.5.1).
    #[inline]
    pub fn exdates(&self) -> &[Time]
        ensures value { result.now ≡ self.now.exdates }
        ensures sound { All IsTime result.now }
    {
        match &self.more {
            None => &[],
            Some(more) => more.exdates.as_slice(),
        }
    }

    /// The text of a property, or the empty text.
    pub fn text(&self, name: TextName) -> &[u8]
        ensures { result.now ≡ text_at name (texts_in self.now) }
    {
        if let TextName::Summary = name {
            return self.title.as_slice();
        }
        match &self.more {
            None => &[],
            Some(more) => more.text(name),
        }
    }

    /// Empties the texts that are not kept. Nothing else is changed.
    pub fn keep_texts(&mut self, alloc: Global, keep: KeptTexts)
        ensures { self.new ≡ kept_event keep self.old }
    {
        keep_text(alloc, keep.title, &mut self.title);
        self.more = more_kept(alloc, keep, self.more.take());
    }
}
