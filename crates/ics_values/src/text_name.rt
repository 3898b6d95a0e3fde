//! The properties of an event that are kept as texts (RFC 5545, sections 3.8.1 and 3.8.4.6).
ghost use Rattle.std.specs.Prelude.{◌≡◌, Some, None, IfOk, map};
ghost use Rattle.std.specs.Option.{option_or};
ghost use Rattle.ics_values.specs.Digits.{upper as upper_of};
ghost use Rattle.ics_values.specs.KeptTexts.{all_texts, no_texts};
ghost use Rattle.ics_values.specs.TextNames.{text_at, text_named, text_read, texts_of, with_text};

use crate::part_name::is_word;
use crate::text_value::Text;
use std::alloc::{AllocError, Global};

/// A property of an event that is kept as a text. The first of its name counts.
#[derive(Clone, Copy)]
pub enum TextName {
    Summary,
    Location,
    Description,
    Url,
}

/// One thing for each of these properties.
#[derive(Clone, Copy, Drop)]
pub struct Texts<T> {
    pub title: T,
    pub location: T,
    pub description: T,
    pub url: T,
}

/// Which texts of an event are kept. One that is not kept is empty.
pub type KeptTexts = Texts<bool>;

impl TextName {
    /// The property that is called so, in upper or lower case. A name is compared with the words of its length alone.
    pub fn of(name: &[u8]) -> Option<TextName>
        ensures { result ≡ text_named (map upper_of name.now) }
    {
        match name.len() {
            7 if is_word(name, b"SUMMARY") => Some(TextName::Summary),
            8 if is_word(name, b"LOCATION") => Some(TextName::Location),
            11 if is_word(name, b"DESCRIPTION") => Some(TextName::Description),
            3 if is_word(name, b"URL") => Some(TextName::Url),
            _ => None,
        }
    }

    /// What a value of the property says. That of a URL is no TEXT, and is kept as it stands.
    pub fn read(self, alloc: Global, value: &[u8]) -> Result<Text, AllocError>
        ensures { IfOk result (λ text. text ≡ text_read self value.now) }
    {
        match self {
            TextName::Url => Ok(Text::of(Vec::from_slice(alloc, value)?)),
            _ => Text::of_value(alloc, value),
        }
    }
}

impl<T: Copy> Texts<T> {
    /// The same for each.
    fn each(value: T) -> Texts<T>
        ensures { result ≡ texts_of (λ name. value) }
    {
        Texts {
            title: value,
            location: value,
            description: value,
            url: value,
        }
    }
}

impl<T: Drop> Texts<T> {
    /// What stands there for that one.
    pub fn at(&self, name: TextName) -> &T
        ensures { result.now ≡ text_at name self.now }
    {
        match name {
            TextName::Summary => &self.title,
            TextName::Location => &self.location,
            TextName::Description => &self.description,
            TextName::Url => &self.url,
        }
    }

    /// Puts another thing there.
    pub fn put(&mut self, name: TextName, value: T)
        ensures { self.new ≡ with_text name value self.old }
    {
        match name {
            TextName::Summary => self.title = value,
            TextName::Location => self.location = value,
            TextName::Description => self.description = value,
            TextName::Url => self.url = value,
        }
    }
}

impl Texts<bool> {
    /// All of them.
    pub fn all() -> KeptTexts
        ensures { result ≡ all_texts }
    {
        Texts::each(true)
    }

    /// None of them.
    pub fn none() -> KeptTexts
        ensures { result ≡ no_texts }
    {
        Texts::each(false)
    }
}

impl<T: Drop> Texts<Option<T>> {
    /// What an event has that has only begun.
    pub fn nothing() -> Texts<Option<T>>
        ensures { result ≡ texts_of (λ name. None) }
    {
        Texts {
            title: None,
            location: None,
            description: None,
            url: None,
        }
    }

    /// Keeps a value, if there is none before it.
    #[inline(always)]
    pub fn keep(&mut self, name: TextName, value: T)
        ensures { self.new ≡ with_text name (option_or (text_at name self.old) (Some value)) self.old }
    {
        if self.at(name).is_none() {
            self.put(name, Some(value));
        }
    }
}
