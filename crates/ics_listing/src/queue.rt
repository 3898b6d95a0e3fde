//! Starts that wait, in the order of their instants.
ghost use Rattle.std.specs.Prelude.{◌≡◌, ◌<◌, ◌∷◌, [], drop, length, slice_get, OnErr, OnOk, false};
ghost use Rattle.std.specs.VecDeque.{deque_capacity, deque_len};
ghost use Rattle.ics_listing.specs.Merged.{union};
ghost use Rattle.ics_listing.specs.Rising.{Rises};
ghost use Rattle.ics_listing.specs.WaitingOrder.{begins_after, begins_between, between_in, ends_before, in_order, waiting_cmp, waits_at};

use crate::start::{Start, StartSource, time_at};
use ics_event::{Rdate, Time};
use ics_values::{Local, Moment};
use std::alloc::{AllocError, Global};
use std::collections::{BTreeMap, VecDeque};

/// A start that waits: its instant, and the local that gives it.
#[derive(Clone, Copy)]
pub struct Waiting {
    pub moment: Moment,
    pub local: Local,
}

impl Waiting {
    ghost use Rattle.ics_listing.specs.Waiting.{start_of};

    /// The start that its local gives an event with this DTSTART.
    pub fn start(self, first: Time) -> Start
        ensures { result ≡ start_of first self }
    {
        Start {
            moment: self.moment,
            source: StartSource::Kept(self.local),
            given: Rdate::At(time_at(first, self.local)),
        }
    }
}

/// Starts that wait, in two parts: a line, in which each is later than the one before it, and between
/// them those that came when an earlier and a later one stood in the line already. The first of all is
/// the first of the line. So what comes in order is put at once, and what goes between others moves
/// none of them.
#[derive(Drop)]
pub struct Queue {
    line: VecDeque<Waiting>,
    between: BTreeMap<Moment, Local>,
    ghost first_in_line: { begins_between line.items (between_in between.entries) ≡ false },
}

impl Queue {
    ghost use Rattle.ics_listing.specs.Waiting.{waiting_in};

    /// A queue in which nothing waits.
    pub fn new(alloc: Global) -> Queue
        ensures { waiting_in result ≡ [] }
    {
        Queue {
            line: VecDeque::new(alloc),
            between: BTreeMap::new(alloc),
        }
    }

    /// How many wait.
    pub fn len(&self) -> usize
        ensures { result ≡ length (waiting_in self.now) }
    {
        self.line.len() + self.between.len()
    }

    /// The first that waits.
    pub fn first(&self) -> Option<Waiting>
        ensures { result ≡ slice_get (waiting_in self.now) 0 }
    {
        self.line.front().copied()
    }

    /// Drops the first that waits.
    pub fn drop_first(&mut self)
        ensures { waiting_in self.new ≡ drop 1 (waiting_in self.old) }
    {
        if self.line.pop_front().is_none() {
            return;
        }
        if self.between.is_empty() {
            return;
        }
        move_first(&mut self.line, &mut self.between);
    }

    /// Puts a start in its place, unless one at its instant waits.
    pub fn put(&mut self, start: Waiting) -> Result<(), AllocError>
        requires { Rises waiting_cmp (waiting_in self.old) }
        ensures put { OnOk result (waiting_in self.new ≡ union waiting_cmp (waiting_in self.old) (start ∷ [])) }
        ensures same { OnErr result (waiting_in self.new ≡ waiting_in self.old) }
    {
        if !self.ends_before(start.moment) {
            return self.put_earlier(start);
        }
        if self.is_between(start.moment) {
            return Ok(());
        }
        self.line.reserve(1)?;
        self.line.push_back_reserved(start);
        Ok(())
    }

    /// Puts a start in its place, unless one at its instant waits, where the line does not end before it.
    ///
    /// Few starts are put so. So it stands apart from what is done for all.
    #[inline(never)]
    fn put_earlier(&mut self, start: Waiting) -> Result<(), AllocError>
        requires rises { Rises waiting_cmp (waiting_in self.old) }
        requires ends { ends_before start.moment self.old.line.items ≡ false }
        ensures put { OnOk result (waiting_in self.new ≡ union waiting_cmp (waiting_in self.old) (start ∷ [])) }
        ensures same { OnErr result (waiting_in self.new ≡ waiting_in self.old) }
    {
        if begins_after(&self.line, start.moment) {
            self.line.reserve(1)?;
            self.line.push_front_reserved(start);
            return Ok(());
        }
        if self.is_in_line(start.moment) {
            return Ok(());
        }
        if self.is_between(start.moment) {
            return Ok(());
        }
        self.between.insert(start.moment, start.local)?;
        Ok(())
    }

    /// Whether the line ends before an instant.
    fn ends_before(&self, moment: Moment) -> bool
        ensures { result ≡ ends_before moment self.now.line.items }
    {
        match self.line.back() {
            None => true,
            Some(last) => last.moment < moment,
        }
    }

    /// Whether a start at an instant waits in the line.
    fn is_in_line(&self, moment: Moment) -> bool
        requires { Rises waiting_cmp self.now.line.items }
        ensures { result ≡ waits_at moment self.now.line.items }
    {
        self.line
            .binary_search_by_key(&moment, |waiting| waiting.moment)
            .is_ok()
    }

    /// Whether a start at an instant waits between others.
    fn is_between(&self, moment: Moment) -> bool
        ensures { result ≡ waits_at moment (between_in self.now.between.entries) }
    {
        !self.between.is_empty() && has_key(&self.between, moment)
    }
}

/// Whether a start at an instant stands in a map.
#[inline(never)]
fn has_key(between: &BTreeMap<Moment, Local>, moment: Moment) -> bool
    ensures { result ≡ waits_at moment (between_in between.now.entries) }
{
    between.contains_key(&moment)
}

/// Whether a line begins after an instant.
fn begins_after(line: &VecDeque<Waiting>, moment: Moment) -> bool
    ensures { result ≡ begins_after moment line.now.items }
{
    match line.front() {
        None => true,
        Some(first) => moment < first.moment,
    }
}

/// Whether the first of a line and a map stands in the map.
fn begins_between(line: &VecDeque<Waiting>, between: &BTreeMap<Moment, Local>) -> bool
    ensures { result ≡ begins_between line.now.items (between_in between.now.entries) }
{
    match between.first_key_value() {
        None => false,
        Some((moment, _)) => begins_after(line, *moment),
    }
}

/// Moves the first of a line and a map to the line, in which there is room for it.
#[inline(never)]
fn move_first(line: &mut VecDeque<Waiting>, between: &mut BTreeMap<Moment, Local>)
    requires { deque_len line.old < deque_capacity line.old }
    ensures same { in_order line.new.items (between_in between.new.entries) ≡ in_order line.old.items (between_in between.old.entries) }
    ensures first { begins_between line.new.items (between_in between.new.entries) ≡ false }
{
    if begins_between(line, between) {
        if let Some((moment, local)) = between.pop_first() {
            line.push_front_reserved(Waiting { moment, local });
        }
    }
}
