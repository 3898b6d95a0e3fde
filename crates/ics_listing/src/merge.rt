//! The merge of feeds.
ghost use Rattle.std.specs.Prelude.{◌≡◌, ◌<◌, ◌-◌, ◌^◌, [], true, false, All, IfOk, OnErr, OnOk, length, map, min, sum_by};
ghost use Rattle.std.specs.List.{flat_map, AllByRecursion, AllByRecursion-prop};
ghost use Rattle.std.specs.Option.{option_map};
ghost use Rattle.ics_listing.specs.Entry.{entry_cmp, entry_of};
ghost use Rattle.ics_listing.specs.Inner.EntryLaws.{entry_total};
ghost use Rattle.ics_listing.specs.Leads.{listed, past, to_draw, AreNear, AreNear-prop, ComeAfter, ComeAfter-prop, HasNear, HasNear-prop, IsFresh};
ghost use Rattle.ics_listing.specs.Merged.{merged};
ghost use Rattle.ics_listing.specs.Inner.MergedLaws.{rises-merged};
ghost use Rattle.ics_listing.specs.Inner.Tournament.{first_turn, held_by, is_unread, must_draw, node_count, turn_of, AreSettled};
ghost use Rattle.ics_listing.specs.Uids.{AreSortedFrom, AreSortedFrom-prop, IsLastSorted, IsLastSorted-prop};

use crate::feed::{Begins, Coming, Feed};
use crate::holding::Holding;
use crate::lead::Lead;
use crate::occurrence::Occurrence;
use crate::tournament::{first_place, order_by_place, replay, winners};
use ics_values::Moment;
use std::alloc::{AllocError, Global};
use std::mem;

/// Feeds as one feed. It gives each of their keys once; if several feeds have a key, it gives the entry
/// of the first of them.
#[derive(Drop)]
pub struct Merge<'a, F: Coming> {
    leads: Vec<Lead<'a, F>>,
    // For each node of a tournament of the leads, the first of those below it.
    winners: Vec<usize>,
    // The occurrence that was given last. Others with its key count as given.
    last: Option<Occurrence<'a>>,
    // The lead that gave it.
    source: usize,
    // From this place on the leads stand in the order of their UIDs, of which each has one. So long
    // UIDs are not read again for each occurrence.
    sorted_from: usize,
    ghost counted: { length winners.items ≡ node_count (length leads.items) },
    ghost within: { All (λ lead. lead < length leads.items) winners.items },
    ghost settled: { AreSettled (map (λ l. turn_of l.unread l.head) leads.items) winners.items },
    ghost follows: { ComeAfter last (map (λ l. past last (listed l.head (F.coming l.feed))) leads.items) } by { ComeAfter-prop last
        (map (λ l. past last (listed l.head (F.coming l.feed))) leads.items) },
    ghost near: { AllByRecursion (λ l. AreNear (F.near l.feed) (past last (listed l.head (F.coming l.feed)))) leads.items } by { AllByRecursion-prop
        (λ l. AreNear (F.near l.feed) (past last (listed l.head (F.coming l.feed))))
        (λ l. AreNear-prop (F.near l.feed) (F.near_prop l.feed) (past last (listed l.head (F.coming l.feed)))) leads.items },
    ghost sorted: { AreSortedFrom sorted_from (map (λ l. listed l.head (F.coming l.feed)) leads.items) } by { AreSortedFrom-prop sorted_from
        (map (λ l. listed l.head (F.coming l.feed)) leads.items) },
    ghost last_sorted: { IsLastSorted sorted_from source last (map (λ l. listed l.head (F.coming l.feed)) leads.items) } by { IsLastSorted-prop sorted_from
        source last (map (λ l. listed l.head (F.coming l.feed)) leads.items) },
}

impl<'a, F: Feed<'a> + Begins + Drop> Merge<'a, F> {
    /// The merge of these feeds. None of them is read before it can be the next to give an entry.
    pub fn new(alloc: Global, feeds: Vec<F>) -> Result<Merge<'a, F>, AllocError>
        ensures coming { IfOk result (λ merge. ⟦<Merge<'a, F> as Coming>⟧.coming merge ≡ merged entry_cmp (map F.coming feeds.items)) }
        ensures sources { IfOk result (λ merge. ⟦<Merge<'a, F> as Coming>⟧.sources merge ≡ flat_map F.sources feeds.items) }
    {
        let mut leads: Vec<Lead<'a, F>> = Vec::with_capacity(alloc, feeds.len())?;
        for feed in feeds {
            leads.push(Lead::of(feed))?;
        }
        let none = leads.len();
        let mut merge: Merge<'a, F> = Merge::none(alloc);
        merge.begin(alloc, leads, none, Moment::MIN)?;
        Ok(merge)
    }

    /// Begins with these leads, from which nothing was drawn yet, in place of what was to come. From a place on the feed of each is of one
    /// UID, and they stand in the order of their UIDs. A feed that begins by an instant, and by the first start that is known, is read at
    /// once: it is to be read soon, and many are put in order faster together than one by one. After an `AllocError` nothing has changed.
    pub fn begin(
        &mut self,
        alloc: Global,
        mut leads: Vec<Lead<'a, F>>,
        sorted_from: usize,
        mut soon: Moment,
    ) -> Result<(), AllocError>
        requires fresh { AllByRecursion (λ l. IsFresh (F.near l.feed) l.head (F.coming l.feed)) leads.items }
        requires sorted { AreSortedFrom sorted_from (map (λ l. F.coming l.feed) leads.items) }
        ensures coming { OnOk result (⟦<Merge<'a, F> as Coming>⟧.coming self.new ≡ merged entry_cmp (map (λ l. F.coming l.feed) leads.entry.items)) }
        ensures sources { OnOk result (⟦<Merge<'a, F> as Coming>⟧.sources self.new ≡ flat_map (λ l. F.sources l.feed) leads.entry.items) }
        ensures err { OnErr result (self.new ≡ self.old) }
    {
        let mut place = 0;
        while place < leads.len() {
            soon = leads[place].read_by(soon)?;
            place += 1;
        }
        let winners = winners(alloc, &leads, sorted_from)?;
        self.leads = leads;
        self.winners = winners;
        self.last = None;
        self.source = 0;
        self.sorted_from = sorted_from;
        Ok(())
    }
}

impl<'a, F: Coming> Merge<'a, F> {
    /// The merge of no feeds.
    pub fn none(alloc: Global) -> Merge<'a, F>
        ensures coming { ⟦<Merge<'a, F> as Coming>⟧.coming result ≡ [] }
        ensures sources { ⟦<Merge<'a, F> as Coming>⟧.sources result ≡ [] }
    {
        Merge {
            leads: Vec::new(alloc),
            winners: Vec::new(alloc),
            last: None,
            source: 0,
            sorted_from: 0,
        }
    }
}

impl<'a, F: Coming> Coming for Merge<'a, F> {
    ghost coming = { λ merge. merged entry_cmp (map (λ l. past merge.last (listed l.head (F.coming l.feed))) merge.leads.items) };

    ghost sources = { λ merge. flat_map (λ l. F.sources l.feed) merge.leads.items };

    ghost near = { λ merge o. AllByRecursion (λ l. HasNear (F.near l.feed) (listed l.head (F.coming l.feed)) o) merge.leads.items };

    ghost near_prop = { λ merge o. AllByRecursion-prop (λ l. HasNear (F.near l.feed) (listed l.head (F.coming l.feed)) o)
        (λ l. HasNear-prop (F.near l.feed) (F.near_prop l.feed) (listed l.head (F.coming l.feed)) o) merge.leads.items };
}

impl<'a, F: Feed<'a>> Feed<'a> for Merge<'a, F> {
    ghost rises = { λ merge. rises-merged entry_cmp entry_total (map (λ l. past merge.last (listed l.head (F.coming l.feed))) merge.leads.items) };

    fn next(&mut self) -> Result<Option<Occurrence<'a>>, AllocError> {
        self.skip_given()?;
        match self.first() {
            None => Ok(None),
            Some(first) => {
                self.source = first_place(&self.winners);
                self.last = Some(first);
                Ok(Some(first))
            }
        }
    }
}

impl<'a, F: Feed<'a>> Merge<'a, F> {
    /// Draws from the first lead as long as that was not read yet, or holds what has been given.
    fn skip_given(&mut self) -> Result<(), AllocError>
        ensures same { ⟦<Merge<'a, F> as Coming>⟧.coming self.new ≡ ⟦<Merge<'a, F> as Coming>⟧.coming self.old }
        ensures sources { ⟦<Merge<'a, F> as Coming>⟧.sources self.new ≡ ⟦<Merge<'a, F> as Coming>⟧.sources self.old }
        ensures skipped { OnOk result (must_draw self.new.last (first_turn (map (λ l. turn_of l.unread l.head) self.new.leads.items) self.new.winners.items)
            ≡ false) }
    {
        while self.must_draw() {
            self.draw_first()?;
        }
        Ok(())
    }

    /// Draws from the first lead, which was not read yet or holds what has been given.
    fn draw_first(&mut self) -> Result<(), AllocError>
        requires { must_draw self.old.last (first_turn (map (λ l. turn_of l.unread l.head) self.old.leads.items) self.old.winners.items) ≡ true }
        ensures same { ⟦<Merge<'a, F> as Coming>⟧.coming self.new ≡ ⟦<Merge<'a, F> as Coming>⟧.coming self.old }
        ensures sources { ⟦<Merge<'a, F> as Coming>⟧.sources self.new ≡ ⟦<Merge<'a, F> as Coming>⟧.sources self.old }
        ensures fewer { OnOk result (sum_by (λ l. to_draw l.unread (listed l.head (F.coming l.feed))) self.new.leads.items
            < sum_by (λ l. to_draw l.unread (listed l.head (F.coming l.feed))) self.old.leads.items) }
    {
        let lead = first_place(&self.winners);
        self.leads[lead].draw()?;
        replay(&self.leads, self.sorted_from, &mut self.winners, lead);
        Ok(())
    }

    /// Whether the first lead was not read yet, or what it holds has been given.
    fn must_draw(&self) -> bool
        ensures { result ≡ must_draw self.now.last (first_turn (map (λ l. turn_of l.unread l.head) self.now.leads.items) self.now.winners.items) }
    {
        match (self.last, self.first()) {
            (Some(last), Some(first)) => {
                let lead = first_place(&self.winners);
                let uids = order_by_place(self.sorted_from, self.source, lead);
                Occurrence::compare(&last, &first, uids).is_eq()
            }
            (None, Some(_)) => false,
            (_, None) => self.is_unread(),
        }
    }

    /// Whether the first lead was not read yet.
    fn is_unread(&self) -> bool
        ensures { result ≡ is_unread (first_turn (map (λ l. turn_of l.unread l.head) self.now.leads.items) self.now.winners.items) }
    {
        match self.leads.get(first_place(&self.winners)) {
            None => false,
            Some(lead) => lead.unread.is_some(),
        }
    }

    /// What the first lead holds.
    fn first(&self) -> Option<Occurrence<'a>>
        ensures { option_map entry_of result ≡ held_by (first_turn (map (λ l. turn_of l.unread l.head) self.now.leads.items) self.now.winners.items) }
    {
        self.leads.get(first_place(&self.winners))?.head
    }
}

impl<'a, F: Holding + Drop> Merge<'a, F> {
    /// Gives the feeds back, each with what was drawn from it, and drops what was given last, so that nothing is to come. It allocates nothing.
    pub fn end(&mut self, alloc: Global) -> Vec<Lead<'a, F>>
        ensures coming { ⟦<Merge<'a, F> as Coming>⟧.coming self.new ≡ [] }
        ensures sources { ⟦<Merge<'a, F> as Coming>⟧.sources self.new ≡ [] }
        ensures holds { listed self.new.last (flat_map (λ l. listed l.head (F.holds l.feed)) self.new.leads.items) ≡ [] }
        ensures looked { sum_by (λ l. F.looked l.feed) self.new.leads.items ≡ 0 }
        ensures leads { result.items ≡ self.old.leads.items }
    {
        let leads = mem::replace(&mut self.leads, Vec::new(alloc));
        self.winners.clear();
        self.last = None;
        leads
    }
}

impl<'a, F: Holding> Merge<'a, F> {
    /// How many built occurrences are held: the one that was given last, the one drawn from each
    /// feed that was read, and those that the feeds hold. The count stops at the greatest `usize`.
    pub fn held(&self) -> usize
        ensures { result ≡ min (length (listed self.now.last (flat_map (λ l. listed l.head (F.holds l.feed)) self.now.leads.items))) (2 ^ 64 - 1) }
    {
        let mut held = usize::from(self.last.is_some());
        for lead in &self.leads {
            held = held.saturating_add(lead.held());
        }
        held
    }

    /// How many periods of rules the feeds have looked at. The count stops at the greatest `u64`.
    pub fn steps(&self) -> u64
        ensures { result ≡ min (sum_by (λ l. F.looked l.feed) self.now.leads.items) (2 ^ 64 - 1) }
    {
        let mut steps: u64 = 0;
        for lead in &self.leads {
            steps = steps.saturating_add(lead.feed.steps());
        }
        steps
    }
}
