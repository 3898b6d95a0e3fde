//! A feed whose first occurrence is known, or from when on it gives any.
ghost use Rattle.std.specs.Prelude.{◌≡◌, ◌-◌, ◌^◌, None, length, min, OnErr, OnOk};
ghost use Rattle.std.specs.Option.{option_map};
ghost use Rattle.ics_listing.specs.Leads.{listed, AreNear, IsAhead, IsAhead-prop, IsFresh};
ghost use Rattle.ics_listing.specs.Inner.Tournament.{turn_of};

use crate::feed::{Begins, Coming, Feed};
use crate::holding::Holding;
use crate::occurrence::Occurrence;
use ics_values::Moment;
use std::alloc::AllocError;

/// A feed and the first occurrence still to come, once it was drawn from it.
#[derive(Drop)]
pub struct Lead<'a, F: Coming> {
    pub(crate) feed: F,
    // As long as nothing was drawn, an instant before which no occurrence starts.
    pub(crate) unread: Option<Moment>,
    // None if nothing was drawn, or nothing is left.
    pub(crate) head: Option<Occurrence<'a>>,
    pub(crate) ghost ahead: { IsAhead unread head (F.coming feed) } by { IsAhead-prop unread head (F.coming feed) },
}

impl<'a, F: Coming + Drop> Lead<'a, F> {
    /// Its feed.
    pub fn into_feed(self) -> F
        ensures { result ≡ self.entry.feed }
    {
        let Lead { feed, .. } = self;
        feed
    }
}

impl<'a, F: Coming> Lead<'a, F> {
    /// The start of the first occurrence or, as long as that is not known, an instant that is no later; None
    /// if nothing is left.
    pub(crate) fn from(&self) -> Option<Moment>
        ensures { result ≡ option_map (λ turn. turn.start) (turn_of self.now.unread self.now.head) }
    {
        match (self.unread, &self.head) {
            (Some(from), _) => Some(from),
            (None, Some(head)) => Some(head.start),
            (None, None) => None,
        }
    }
}

impl<'a, F: Begins> Lead<'a, F> {
    /// The lead of a feed. Nothing is drawn from it yet.
    pub fn of(feed: F) -> Lead<'a, F>
        ensures feed { result.feed ≡ feed }
        ensures fresh { IsFresh (F.near result.feed) result.head (F.coming result.feed) }
    {
        let from = feed.from();
        Lead {
            feed,
            unread: Some(from),
            head: None,
        }
    }
}

impl<'a, F: Feed<'a>> Lead<'a, F> {
    /// Drops what was drawn and draws the next.
    pub(crate) fn draw(&mut self) -> Result<(), AllocError>
        ensures drawn { OnOk result (listed self.new.head (F.coming self.new.feed) ≡ F.coming self.old.feed) }
        ensures read { OnOk result (self.new.unread ≡ None) }
        ensures unread { OnErr result (self.new.unread ≡ self.old.unread) }
        ensures head { OnErr result (self.new.head ≡ self.old.head) }
        ensures rest { OnErr result (F.coming self.new.feed ≡ F.coming self.old.feed) }
        ensures sources { F.sources self.new.feed ≡ F.sources self.old.feed }
        ensures near { AreNear (F.near self.new.feed) (F.coming self.old.feed) }
    {
        let next = self.feed.next()?;
        self.unread = None;
        self.head = next;
        Ok(())
    }

    /// Draws the first, if nothing was read yet and it may start by an instant. The result is the lesser of that instant and of the first
    /// start that is known.
    pub(crate) fn read_by(&mut self, soon: Moment) -> Result<Moment, AllocError>
        ensures list { listed self.new.head (F.coming self.new.feed) ≡ listed self.old.head (F.coming self.old.feed) }
        ensures sources { F.sources self.new.feed ≡ F.sources self.old.feed }
        ensures near { AreNear (F.near self.old.feed) (listed self.old.head (F.coming self.old.feed))
            → AreNear (F.near self.new.feed) (listed self.new.head (F.coming self.new.feed)) }
    {
        if let Some(from) = self.unread {
            if from <= soon {
                self.draw()?;
            }
        }
        Ok(soon.min(self.from().unwrap_or(soon)))
    }
}

impl<'a, F: Holding> Lead<'a, F> {
    /// How many built occurrences it holds: the drawn one, and those that its feed holds.
    pub fn held(&self) -> usize
        ensures { result ≡ min (length (listed self.now.head (F.holds self.now.feed))) (2 ^ 64 - 1) }
    {
        let drawn = usize::from(self.head.is_some());
        self.feed.held().saturating_add(drawn)
    }
}
