//! The keys that order the occurrences of a listing.
ghost use Rattle.std.specs.Prelude.{◌≡◌, IfOk};
ghost use Rattle.std.specs.Ordering.{is_lt};
ghost use Rattle.ics_listing.specs.Entry.{entry_of, key_rank, rank_cmp, rank_of};
ghost use Rattle.std.specs.Option.{option_map};
ghost use Rattle.ics_listing.specs.After.{is_after};

use crate::key_order::{Keyed, order_of_keys};
use crate::occurrence::Occurrence;
use ics_values::Moment;
use std::alloc::{AllocError, Global};

/// Identifies an occurrence of a folder, and orders it among the others: by its start, then by the bytes
/// of its UID, then by its recurrence.
#[derive(Drop, PartialEq, Eq, PartialOrd, Ord)]
pub struct Key {
    pub start: Moment,
    pub uid: Vec<u8>,
    pub recurrence: Moment,
}

impl Key {
    /// The key of an occurrence. `AllocError` if an allocation fails.
    pub fn of(alloc: Global, occurrence: &Occurrence<'_>) -> Result<Key, AllocError>
        ensures { IfOk result (λ key. key_rank key ≡ rank_of (entry_of occurrence.now)) }
    {
        let event = occurrence.event;
        Ok(Key {
            start: occurrence.start,
            uid: event.uid.as_slice().to_vec(alloc)?,
            recurrence: occurrence.recurrence,
        })
    }

    /// Whether an occurrence comes after this key.
    pub(crate) fn is_before(&self, occurrence: &Occurrence<'_>) -> bool
        ensures { result ≡ is_lt (rank_cmp (key_rank self.now) (rank_of (entry_of occurrence.now))) }
    {
        order_of_keys(self, occurrence, None).is_lt()
    }
}

impl Keyed for Key {
    ghost use Rattle.ics_listing.specs.Entry.{key_rank};

    ghost rank = { key_rank };

    fn start(&self) -> Moment {
        self.start
    }

    fn uid(&self) -> &[u8] {
        self.uid.as_slice()
    }

    fn recurrence(&self) -> Moment {
        self.recurrence
    }
}

/// Whether an occurrence comes after the key, if there is one.
pub fn is_after(after: Option<&Key>, occurrence: &Occurrence<'_>) -> bool
    ensures { result ≡ is_after (option_map (λ key. key_rank key.now) after.entry) (entry_of occurrence.now) }
{
    match after {
        None => true,
        Some(key) => key.is_before(occurrence),
    }
}
