//! The names of properties and components, which compare without case (RFC 5545, section 3.1).
ghost use Rattle.std.specs.Prelude.{◌≡◌, ◌==◌, map};
ghost use Rattle.std.specs.Str.{bytes_eq};
ghost use Rattle.ics_text.specs.Bytes.{upper};
ghost use Rattle.ics_values.specs.TextNames.{text_named};
ghost use Rattle.ics_components.specs.Names.{name_of, named_in, other_words, text_or};
ghost use Rattle.ics_components.specs.declared.name.Name.TheVariants.{Other};
ghost use Rattle.ics_components.specs.Known.{kept_name};

use ics_values::{KeptTexts, TextName};

/// The names that a file is read for.
#[derive(Clone, Copy)]
pub enum Name {
    Begin,
    End,
    Uid,
    Dtstart,
    Dtend,
    Duration,
    Rrule,
    RecurrenceId,
    Sequence,
    Rdate,
    Exdate,
    Exrule,
    Version,
    Status,
    Tzid,
    OffsetFrom,
    OffsetTo,
    Text(TextName),
    Other,
}

/// Whether two bytes are one, letters without regard to their case. Where the other is written out, this is one comparison, so it is always inlined.
#[inline(always)]
fn is_one_letter(b: u8, other: u8) -> bool
    ensures { result ≡ (upper b == upper other) }
{
    b == other
        || (other.is_ascii_uppercase() && b == other + 32)
        || (other.is_ascii_lowercase() && b == other - 32)
}

/// Whether two names are one. They compare without case.
#[inline(always)]
pub fn is_called(name: &[u8], other: &[u8]) -> bool
    ensures { result ≡ bytes_eq (map upper name.now) (map upper other.now) }
{
    if name.len() != other.len() {
        return false;
    }
    for (i, b) in name.iter().enumerate() {
        if !is_one_letter(*b, other[i]) {
            return false;
        }
    }
    true
}

/// What a property is called. An extension is not looked for among the names that are read: its name begins with an X (RFC 5545, section 3.8.8.2).
pub fn name_of(name: &[u8]) -> Name
    ensures { result ≡ name_of (map upper name.now) }
{
    match name {
        [b'X' | b'x', ..] => Name::Other,
        _ => known_name_of(name),
    }
}

/// What a property is called that is no extension.
fn known_name_of(name: &[u8]) -> Name
    ensures { result ≡ name_of (map upper name.now) }
{
    if is_called(name, b"BEGIN") {
        Name::Begin
    } else if is_called(name, b"END") {
        Name::End
    } else if is_called(name, b"UID") {
        Name::Uid
    } else if is_called(name, b"DTSTART") {
        Name::Dtstart
    } else if is_called(name, b"DTEND") {
        Name::Dtend
    } else if is_called(name, b"DURATION") {
        Name::Duration
    } else if is_called(name, b"RRULE") {
        Name::Rrule
    } else if is_called(name, b"RECURRENCE-ID") {
        Name::RecurrenceId
    } else if is_called(name, b"SEQUENCE") {
        Name::Sequence
    } else if is_called(name, b"RDATE") {
        Name::Rdate
    } else if is_called(name, b"EXDATE") {
        Name::Exdate
    } else {
        text_or_other(name)
    }
}

/// What a property is called that is none of these.
fn text_or_other(name: &[u8]) -> Name
    ensures { result ≡ text_or (named_in other_words Other (map upper name.now)) (text_named (map upper name.now)) }
{
    match TextName::of(name) {
        Some(text) => Name::Text(text),
        None => other_name_of(name),
    }
}

/// The same of one that is no text either.
fn other_name_of(name: &[u8]) -> Name
    ensures { result ≡ named_in other_words Other (map upper name.now) }
{
    if is_called(name, b"EXRULE") {
        Name::Exrule
    } else if is_called(name, b"VERSION") {
        Name::Version
    } else if is_called(name, b"STATUS") {
        Name::Status
    } else if is_called(name, b"TZID") {
        Name::Tzid
    } else if is_called(name, b"TZOFFSETFROM") {
        Name::OffsetFrom
    } else if is_called(name, b"TZOFFSETTO") {
        Name::OffsetTo
    } else {
        Name::Other
    }
}

/// The name by which a property is read; that of a text that is not kept is none that a file is read for.
pub fn kept_as(keep: KeptTexts, name: Name) -> Name
    ensures { result ≡ kept_name keep name }
{
    match name {
        Name::Text(text) if !*keep.at(text) => Name::Other,
        _ => name,
    }
}
