//! Zones of jiff's, with stretches of their clocks that have been asked for once.
ghost use Rattle.std.specs.Prelude.{◌≡◌, ◌<ℤ◌, ◌≤ℤ◌, ℤ, IfOk, IfSome};
ghost use Rattle.std.specs.List.{All};
ghost use Rattle.ics_fields.specs.Locals.{seconds_at};
ghost use Rattle.ics_zone.specs.Bounds.{HasBounds};
ghost use Rattle.ics_zone.specs.JiffZones.{IsMomentIn, IsOffsetIn};
ghost use Rattle.ics_zone.specs.Seconds.{IsDay, IsMoment};
ghost use Rattle.ics_zone.specs.Stretches.{IsStretch};
ghost use Rattle.ics_zone.specs.ZoneSaid.{ZoneSaid, jiff_said, said_moment, said_offset};

use crate::clock::{FIRST_HELD, is_moment};
use crate::jiff_zone::JiffZone;
use crate::{Bounds, Stretch, ZoneFile};
use ics_fields::{Local, Moment};
use std::alloc::{AllocError, Global};
use std::marker::Model;

/// Between no instants.
const NOWHERE: (Moment, Moment) = (Moment::MAX, Moment::MIN);

const DAY: i64 = 86_400;

/// So many seconds on another stretch is asked for, where there is none.
const STEP: i64 = 8 * DAY;

/// So often at most.
const STEPS: u32 = 64;

/// Instants are told apart by 2^12 seconds where a stretch is guessed.
const COARSE: u32 = 12;

/// A zone of jiff's, with stretches of its clock. Contracts see the zone.
#[derive(Drop)]
pub(crate) struct LearnedZone {
    zone: JiffZone,
    /// Between which instants the zone will be asked again and again, if the first is not after the second.
    through: (Moment, Moment),
    /// Stretches in order.
    known: Vec<Stretch>,
    /// Where the first of them ends, and about how many end in 2^12 seconds, times 2^32.
    first_end: Moment,
    pace: u64,
}

impl Model for LearnedZone {
    ghost use Rattle.ics_zone.specs.declared.jiff_zone.JiffZone.{JiffZone};

    ghost Value = { JiffZone };

    ghost use Rattle.std.specs.List.{All};
    ghost use Rattle.ics_zone.specs.Stretches.{IsStretch};
    ghost use Rattle.ics_zone.specs.ZoneSaid.{jiff_said, said_moment, said_offset};

    ghost view = { λ a. a.zone };

    ghost invariant = { λ a. All (IsStretch (said_offset (jiff_said a.zone)) (said_moment (jiff_said a.zone))) a.known.items };
}

impl LearnedZone {
    /// A zone of which nothing is known yet.
    pub fn new(alloc: Global, zone: JiffZone) -> LearnedZone
        ensures { result ≡ zone }
    {
        LearnedZone {
            zone,
            through: NOWHERE,
            known: Vec::new(alloc),
            first_end: 0,
            pace: 0,
        }
    }

    /// The zone of a zone file that has been read, in the same memory.
    pub fn of_file(file: &ZoneFile) -> Result<LearnedZone, AllocError>
        ensures { IfOk result (λ zone. jiff_said zone ≡ ZoneSaid.ByFile file.now) }
    {
        Ok(LearnedZone::new(file.table.alloc(), JiffZone::of_file(file)?))
    }

    /// The same zone. A table is shared, and what is known is not.
    pub fn share(&self) -> Result<LearnedZone, AllocError>
        ensures { IfOk result (λ zone. zone ≡ self.now) }
    {
        let alloc = *self.known.allocator();
        Ok(LearnedZone::new(alloc, self.zone.share()?))
    }

    /// Takes note of instants between which the zone will be asked again and again.
    pub fn note_often(&mut self, from: Moment, to: Moment)
        ensures { self.new ≡ self.old }
    {
        self.through = (self.through.0.min(from), self.through.1.max(to));
    }

    /// Finds the stretches between the instants that were noted, at most so many, so that answers are faster. None changes.
    /// A zone of one offset needs none.
    pub fn learn(&mut self, most: usize)
        ensures { self.new ≡ self.old }
    {
        let (from, to) = self.through;
        if from > to || self.zone.is_fixed() {
            return;
        }
        self.through = NOWHERE;
        let alloc = *self.known.allocator();
        let known = stretches_between(alloc, &self.zone, from, to, most);
        (self.first_end, self.pace) = pace_of(&known);
        self.known = known;
    }

    /// About where the stretch of a local is, given by its seconds, if all are of about one length.
    fn guess(&self, seconds: i64) -> usize {
        let past = seconds.saturating_sub(self.first_end).max(0) as u64;
        let passed = (past >> COARSE).wrapping_mul(self.pace) >> 32;
        (passed as usize).wrapping_add(1)
    }

    /// The place of the stretch of a local, given by its seconds, if there is one.
    fn place_of(&self, seconds: i64) -> usize {
        self.known.partition_point(|stretch| stretch.to <= seconds)
    }

    /// The stretch at a place, if it has a local, given by its seconds.
    fn with_local(&self, place: usize, seconds: i64) -> Option<Stretch>
        ensures holds { IfSome result (λ s. (s.from ≤ℤ seconds) × (seconds <ℤ s.to)) }
        ensures is { IfSome result (IsStretch (said_offset (jiff_said self.now)) (said_moment (jiff_said self.now))) }
    {
        if place < self.known.len() {
            let stretch = self.known[place];
            if stretch.from <= seconds && seconds < stretch.to {
                return Some(stretch);
            }
        }
        None
    }

    /// A stretch that is known of a local, given by its seconds.
    fn known_at(&self, seconds: i64) -> Option<Stretch>
        ensures holds { IfSome result (λ s. (s.from ≤ℤ seconds) × (seconds <ℤ s.to)) }
        ensures is { IfSome result (IsStretch (said_offset (jiff_said self.now)) (said_moment (jiff_said self.now))) }
    {
        if self.known.is_empty() {
            return None;
        }
        let guess = self.guess(seconds);
        if let Some(stretch) = self.with_local(guess, seconds) {
            return Some(stretch);
        }
        if let Some(stretch) = self.with_local(guess.wrapping_add(1), seconds) {
            return Some(stretch);
        }
        if let Some(stretch) = self.with_local(guess.wrapping_sub(1), seconds) {
            return Some(stretch);
        }
        self.with_local(self.place_of(seconds), seconds)
    }

    /// The offset at an instant, if the known stretch at a place has the local that is shown then.
    fn offset_by(&self, place: usize, moment: Moment) -> Option<i32>
        requires { IsMoment moment }
        ensures { IfSome result (λ offset. offset ≡ said_offset (jiff_said self.now) moment) }
    {
        if place >= self.known.len() {
            return None;
        }
        let stretch = self.known[place];
        let local = moment + stretch.offset;
        if stretch.from <= local && local < stretch.to {
            Some(stretch.shown as i32)
        } else {
            None
        }
    }

    /// The offset at an instant, if a stretch about a place tells it.
    fn offset_about(&self, place: usize, moment: Moment) -> Option<i32>
        requires { IsMoment moment }
        ensures { IfSome result (λ offset. offset ≡ said_offset (jiff_said self.now) moment) }
    {
        if let Some(offset) = self.offset_by(place, moment) {
            return Some(offset);
        }
        if let Some(offset) = self.offset_by(place.wrapping_add(1), moment) {
            return Some(offset);
        }
        self.offset_by(place.wrapping_sub(1), moment)
    }

    /// The offset at an instant, if a known stretch tells it: one about the local with the same seconds.
    fn known_offset(&self, moment: Moment) -> Option<i32>
        requires { IsMoment moment }
        ensures { IfSome result (λ offset. offset ≡ said_offset (jiff_said self.now) moment) }
    {
        if self.known.is_empty() {
            return None;
        }
        if let Some(offset) = self.offset_about(self.guess(moment), moment) {
            return Some(offset);
        }
        self.offset_about(self.place_of(moment), moment)
    }

    /// The offset that jiff gives at the instant, in seconds.
    pub fn offset(&self, moment: Moment) -> i32
        requires { IsMoment moment }
        ensures means { IsOffsetIn (jiff_said self.now) moment result }
        ensures value { result ≡ said_offset (jiff_said self.now) moment }
    {
        self.zone.gives(moment);
        match self.known_offset(moment) {
            Some(offset) => offset,
            None => self.zone.offset(moment),
        }
    }

    /// The instant of the local, by jiff's compatible strategy.
    pub fn moment(&self, local: Local) -> Moment
        requires { IsDay local.day }
        ensures means { IsMomentIn (jiff_said self.now) (seconds_at local.day local.second) result }
        ensures value { result ≡ said_moment (jiff_said self.now) (seconds_at local.day local.second) }
    {
        self.zone.picks(local);
        let seconds = local.seconds();
        match self.known_at(seconds) {
            Some(stretch) => seconds - stretch.offset,
            None => self.zone.moment(local),
        }
    }

    /// Two offsets between which all others lie.
    pub fn bounds(&self) -> Bounds
        ensures { HasBounds (said_offset (jiff_said self.now)) (said_moment (jiff_said self.now)) result.least result.most }
    {
        self.zone.bounds()
    }

    /// A stretch of locals about one, given by its seconds.
    pub fn stretch(&self, local: Moment) -> Stretch
        requires { IsMoment local }
        ensures { IsStretch (said_offset (jiff_said self.now)) (said_moment (jiff_said self.now)) result }
    {
        match self.known_at(local) {
            Some(stretch) => stretch,
            None => self.zone.stretch(local),
        }
    }
}

/// Adds a stretch, unless it is so short that few locals are asked for in it: a gap between two others would spoil the guess.
fn keep(known: &mut Vec<Stretch>, stretch: Stretch)
    ensures { (offset moment : ℤ → ℤ) → All (IsStretch offset moment) known.old.items → IsStretch offset moment stretch
        → All (IsStretch offset moment) known.new.items }
{
    if stretch.to.saturating_sub(stretch.from) >= DAY {
        known.push(stretch).ok();
    }
}

/// The stretches of a zone's clock from one local on and up to another, given by their seconds, but at most so many. Those that find no memory are
/// left out.
fn stretches_between(
    alloc: Global,
    zone: &JiffZone,
    from: i64,
    to: i64,
    most: usize,
) -> Vec<Stretch>
    ensures { All (IsStretch (said_offset (jiff_said zone.now)) (said_moment (jiff_said zone.now))) result.items }
{
    let mut known = Vec::new(alloc);
    let mut next = from.max(FIRST_HELD);
    let mut steps = 0;
    for _ in 0..most {
        if next > to || steps >= STEPS || !is_moment(next) {
            return known;
        }
        let stretch = zone.stretch(next);
        if !stretch.is_empty() && stretch.to > next {
            keep(&mut known, stretch);
            next = stretch.to;
        } else {
            next = next.saturating_add(STEP);
            steps += 1;
        }
    }
    known
}

/// Where the first of some stretches ends, and about how many end in 2^12 seconds, times 2^32.
fn pace_of(known: &[Stretch]) -> (Moment, u64) {
    if known.is_empty() {
        return (0, 0);
    }
    let first = known[0].to;
    let last = known[known.len() - 1].to;
    let span = (last.saturating_sub(first).max(0) as u64 >> COARSE).max(1);
    (first, (known.len() as u64 - 1).wrapping_mul(1 << 32) / span)
}
