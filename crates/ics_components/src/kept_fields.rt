//! What an event has that has ended, in little memory (RFC 5545, section 3.6.1).
ghost use Rattle.std.specs.Prelude.{◌≡◌, [], true, IfOk, option_map};
ghost use Rattle.ics_components.specs.Builders.{collected_of};
ghost use Rattle.ics_components.specs.Inner.KeptFields.{beside_in, duration_in, end_in, if_there, no_rare, rare_in, without_rare};

use crate::event_fields::EventFields;
use crate::listed::Listed;
use crate::tzid::Tzid;
use ics_values::{Duration, KeptRule, Length, Rdate, Stamp, Text, Texts, Time};
use std::alloc::{AllocError, Global};
use std::marker::Model;
use std::mem;

/// What few events have.
#[derive(Drop)]
pub struct RareFields {
    pub rule: Option<KeptRule>,
    pub rdates: Listed<Rdate<Tzid>>,
    pub exdates: Listed<Rdate<Tzid>>,
    pub recurrence: Option<Time<Tzid>>,
    /// The DURATION beside a DTEND.
    pub duration: Option<Duration>,
    pub location: Option<Text>,
    pub description: Option<Text>,
    pub url: Option<Text>,
}

/// The same. An event that has none of it, or a rule alone, takes no memory for it.
#[derive(Drop)]
enum Few {
    Nothing,
    Rule(KeptRule),
    Recurrence(Box<Time<Tzid>>),
    More(Box<RareFields>),
}

/// The same. Contracts see its fields.
#[derive(Drop)]
struct Rare {
    few: Few,
}

impl Model for Rare {
    ghost use Rattle.ics_components.specs.declared.kept_fields.RareFields.{RareFields};
    ghost use Rattle.ics_components.specs.Inner.KeptFields.{few_in};

    ghost Value = { RareFields };

    ghost view = { λ a. few_in a.few };
}

/// What an event has that has ended. What few events have stands apart, and nothing takes the room of a value that is not there. Contracts see its fields.
#[derive(Drop)]
pub struct KeptFields {
    uid: Text,
    title: Text,
    start: Time<Tzid>,
    length: Length<Tzid>,
    rare: Rare,
    sequence: Option<u32>,
    cancelled: Option<bool>,
    has_uid: bool,
    has_title: bool,
    has_start: bool,
}

impl Model for KeptFields {
    ghost use Rattle.ics_components.specs.declared.event_fields.EventFields.{EventFields};
    ghost use Rattle.ics_components.specs.Inner.KeptFields.{duration_in, end_in, if_there};

    ghost Value = { EventFields };

    ghost view = { λ a. record {
      uid = if_there a.has_uid a.uid;
      start = if_there a.has_start a.start;
      end = end_in a.length;
      duration = duration_in a.length a.rare.duration;
      rule = a.rare.rule;
      rdates = a.rare.rdates;
      exdates = a.rare.exdates;
      recurrence = a.rare.recurrence;
      sequence = a.sequence;
      texts = record {
        title = if_there a.has_title a.title;
        location = a.rare.location;
        description = a.rare.description;
        url = a.rare.url;
      };
      cancelled = a.cancelled;
    } };
}

/// A text, and whether it is there.
fn text_in(alloc: Global, text: Option<Text>) -> (bool, Text)
    ensures { if_there result.0 result.1 ≡ text }
{
    match text {
        Some(text) => (true, text),
        None => (false, Text::new(alloc)),
    }
}

/// The text, if it is there.
fn if_there(there: bool, text: Text) -> Option<Text>
    ensures { result ≡ if_there there text }
{
    if there { Some(text) } else { None }
}

/// A time, and whether it is there.
fn time_in(time: Option<Time<Tzid>>) -> (bool, Time<Tzid>)
    ensures { if_there result.0 result.1 ≡ time }
{
    match time {
        Some(time) => (true, time),
        None => {
            let stamp = Stamp::Date(0);
            (false, Time { stamp, zone: None })
        }
    }
}

/// The length of an end and a duration. It says no duration beside an end.
fn length_in(end: Option<Time<Tzid>>, duration: Option<Duration>) -> Length<Tzid>
    ensures end { end_in result ≡ end }
    ensures duration { duration_in result (beside_in end duration) ≡ duration }
{
    match (end, duration) {
        (Some(end), _) => Length::Until(end),
        (None, Some(duration)) => Length::Lasting(duration),
        (None, None) => Length::Open,
    }
}

/// The end and the duration that a length stands for, where that duration stands beside an end.
fn ends_of(length: Length<Tzid>, beside: Option<Duration>) -> (Option<Time<Tzid>>, Option<Duration>)
    ensures end { result.0 ≡ end_in length }
    ensures duration { result.1 ≡ duration_in length beside }
{
    match length {
        Length::Open => (None, None),
        Length::Until(end) => (Some(end), beside),
        Length::Lasting(duration) => (None, Some(duration)),
    }
}

/// Whether an event has nothing that few events have, but for a rule or the instance that it replaces.
fn is_common(fields: &EventFields) -> bool
    ensures { result ≡ true → rare_in fields.now ≡ record no_rare { rule = fields.now.rule; recurrence = fields.now.recurrence } }
{
    fields.rdates.values.is_empty()
        && fields.exdates.values.is_empty()
        && (fields.end.is_none() || fields.duration.is_none())
        && fields.texts.location.is_none()
        && fields.texts.description.is_none()
        && fields.texts.url.is_none()
}

impl RareFields {
    /// What few events have, of these fields. They have none of it any more.
    fn taken(alloc: Global, fields: &mut EventFields) -> RareFields
        ensures taken { result ≡ rare_in fields.old }
        ensures rest { fields.new ≡ without_rare fields.old }
    {
        let texts = &mut fields.texts;
        RareFields {
            location: texts.location.take(),
            description: texts.description.take(),
            url: texts.url.take(),
            rule: fields.rule.take(),
            rdates: mem::replace(&mut fields.rdates, Listed::nothing(alloc)),
            exdates: mem::replace(&mut fields.exdates, Listed::nothing(alloc)),
            recurrence: fields.recurrence.take(),
            duration: if fields.end.is_some() {
                fields.duration
            } else {
                None
            },
        }
    }
}

impl Rare {
    /// What few events have, of these fields in a place of its own. They have none of it any more.
    ///
    /// It takes much room, so this stands apart from `taken`.
    #[inline(never)]
    fn apart(alloc: Global, fields: &mut EventFields) -> Result<Rare, AllocError>
        ensures taken { IfOk result (λ rare. rare ≡ rare_in fields.old) }
        ensures rest { IfOk result (λ _. fields.new ≡ without_rare fields.old) }
    {
        if is_common(fields) && fields.rule.is_none() {
            if let Some(time) = fields.recurrence.take() {
                let time = Box::new(alloc, time)?;
                return Ok(Rare {
                    few: Few::Recurrence(time),
                });
            }
        }
        let rare = RareFields::taken(alloc, fields);
        Ok(Rare {
            few: Few::More(Box::new(alloc, rare)?),
        })
    }

    /// The same, where these fields have nothing of it but a rule.
    fn of_rule(rule: Option<KeptRule>) -> Rare
        ensures { result ≡ record no_rare { rule = rule } }
    {
        Rare {
            few: match rule {
                Some(rule) => Few::Rule(rule),
                None => Few::Nothing,
            },
        }
    }

    /// The same, in as little memory as it takes.
    fn taken(alloc: Global, fields: &mut EventFields) -> Result<Rare, AllocError>
        ensures taken { IfOk result (λ rare. rare ≡ rare_in fields.old) }
        ensures rest { IfOk result (λ _. fields.new ≡ without_rare fields.old) }
    {
        if is_common(fields) && fields.recurrence.is_none() {
            return Ok(Rare::of_rule(fields.rule.take()));
        }
        Rare::apart(alloc, fields)
    }

    /// The fields themselves.
    fn into_fields(self, alloc: Global) -> RareFields
        ensures { result ≡ self }
    {
        let (rule, recurrence) = match self.few {
            Few::Nothing => (None, None),
            Few::Rule(rule) => (Some(rule), None),
            Few::Recurrence(time) => (None, Some(Box::into_inner(time))),
            Few::More(fields) => return Box::into_inner(fields),
        };
        RareFields {
            rule,
            rdates: Listed::nothing(alloc),
            exdates: Listed::nothing(alloc),
            recurrence,
            duration: None,
            location: None,
            description: None,
            url: None,
        }
    }
}

impl KeptFields {
    /// What an event has that has ended. The fields are those of one that has only begun then.
    pub fn taken(alloc: Global, fields: &mut EventFields) -> Result<KeptFields, AllocError>
        ensures kept { IfOk result (λ kept. kept ≡ fields.old) }
        ensures begun { IfOk result (λ _. fields.new ≡ collected_of []) }
    {
        let rare = Rare::taken(alloc, fields)?;
        let (has_uid, uid) = text_in(alloc, fields.uid.take());
        let (has_title, title) = text_in(alloc, fields.texts.title.take());
        let (has_start, start) = time_in(fields.start.take());
        Ok(KeptFields {
            uid,
            title,
            start,
            length: length_in(fields.end.take(), fields.duration.take()),
            rare,
            sequence: fields.sequence.take(),
            cancelled: fields.cancelled.take(),
            has_uid,
            has_title,
            has_start,
        })
    }

    /// The fields themselves.
    pub fn into_fields(self, alloc: Global) -> EventFields
        ensures { result ≡ self }
    {
        let KeptFields {
            uid,
            title,
            start,
            length,
            rare,
            sequence,
            cancelled,
            has_uid,
            has_title,
            has_start,
        } = self;
        let RareFields {
            rule,
            rdates,
            exdates,
            recurrence,
            duration,
            location,
            description,
            url,
        } = rare.into_fields(alloc);
        let (end, duration) = ends_of(length, duration);
        EventFields {
            uid: if_there(has_uid, uid),
            start: if has_start { Some(start) } else { None },
            end,
            duration,
            rule,
            rdates,
            exdates,
            recurrence,
            sequence,
            texts: Texts {
                title: if_there(has_title, title),
                location,
                description,
                url,
            },
            cancelled,
        }
    }

    /// Its start.
    pub fn start(&self) -> Option<&Time<Tzid>>
        ensures { option_map (λ time. time.now) result ≡ self.now.start }
    {
        if self.has_start {
            Some(&self.start)
        } else {
            None
        }
    }

    /// Its end.
    pub fn end(&self) -> Option<&Time<Tzid>>
        ensures { option_map (λ time. time.now) result ≡ self.now.end }
    {
        match &self.length {
            Length::Until(end) => Some(end),
            _ => None,
        }
    }

    /// The instance that it replaces.
    pub fn recurrence(&self) -> Option<&Time<Tzid>>
        ensures { option_map (λ time. time.now) result ≡ self.now.recurrence }
    {
        match &self.rare.few {
            Few::Recurrence(time) => Some(time),
            Few::More(fields) => fields.recurrence.as_ref(),
            _ => None,
        }
    }

    /// What its RDATEs list.
    pub fn rdates(&self) -> &[Rdate<Tzid>]
        ensures { result.now ≡ self.now.rdates }
    {
        match &self.rare.few {
            Few::More(fields) => &fields.rdates.values,
            _ => &[],
        }
    }

    /// What its EXDATEs list.
    pub fn exdates(&self) -> &[Rdate<Tzid>]
        ensures { result.now ≡ self.now.exdates }
    {
        match &self.rare.few {
            Few::More(fields) => &fields.exdates.values,
            _ => &[],
        }
    }
}
