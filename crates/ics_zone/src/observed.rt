//! A zone by the observances of a VTIMEZONE.
ghost use Rattle.std.specs.Prelude.{◌≡◌, ◌≢◌, ◌↔◌, ◌<◌, length, ◌<ℤ◌, ◌≤ℤ◌, ◌+ℤ◌, ◌-ℤ◌, ℤ, pos, []};
ghost use Rattle.std.specs.Prelude.{Err, IsTrue, IfSome, Ok, IfOk, MatchBool, MatchOption, true, false};
ghost use Rattle.std.specs.Int.{int_max, int_min};
ghost use Rattle.std.specs.List.{All, list_any};
ghost use Rattle.ics_zone.specs.Observances.{has_finer_rule, IsObservance};
ghost use Rattle.jiff_core.specs.Calendar.{IsWithin};
ghost use Rattle.ics_zone.specs.Seconds.{IsDay, IsMoment};
ghost use Rattle.ics_zone.specs.Inner.Answers.{AreAnswers};
ghost use Rattle.ics_fields.specs.Locals.{seconds_at};
ghost use Rattle.ics_zone.specs.Inner.EachSecond.{TellsOffsets};
ghost use Rattle.ics_zone.specs.Inner.OnsetSets.{IsSearched};
ghost use Rattle.ics_zone.specs.Inner.ZoneOnsets.{AreOnsetsOfAll, AreSteady, HaveOffsets, IsLatestOf, IsOnsetOf, IsSteady};
ghost use Rattle.ics_zone.specs.Inner.Tables.{IsTable};

use crate::answers::{Answer, add_answers, group_end};
use crate::clock::{FIRST_HELD, LAST_HELD, is_moment};
use crate::gap_stretch::{Jump, greatest};
use crate::latest::{
    Latest, NO_ONSET, Steady, clear_after, find_each, first_listed, first_offset, latest_of,
    latest_within, look_on, next_change, next_other, next_past, overrides, running_onsets,
    turns_after,
};
use crate::onsets::Onsets;
use crate::seconds::OffsetEachSecond;
use crate::spans::{SpanList, told_stretch};
use crate::stretches::span_over;
use crate::table::{first_instant, next_of, onset_of, table_of};
use crate::turns::turn_often;
use crate::walk::moment_in;
use crate::zone_fault::ZoneFault;
use crate::zone_observances::ZoneObservances;
use crate::{Bounds, Spans, Stretch};
use ics_fields::{Local, Moment};
use ics_values::{Observance, are_same_observances};
use std::alloc::{AllocError, Global};
use std::marker::Model;

const DAY: i64 = 86_400;

const HOUR: i64 = 3_600;

/// Onsets are found for so many seconds at most: ten thousand years.
const LONGEST: i64 = 10_000 * 366 * DAY;

/// No offset of an observance is greater.
const SHORT: i64 = 86_399;

/// How many seconds after an instant the end of a span is searched for.
const AHEAD: i64 = 400 * DAY;

/// How many it is for a stretch in a zone that may turn often: it takes long there.
const SOON_AHEAD: i64 = HOUR;

/// How many seconds after an instant spans are held.
const HELD_AHEAD: i64 = 120 * DAY;

/// After a span that goes on for longer than this, spans are held for the day of an instant alone.
const A_LONG_SPAN: i64 = 7 * DAY;

/// How many seconds from the first span on others are held, after one that passes over onsets: each of these takes long.
const PASSED_AHEAD: i64 = 5 * DAY;

/// The number of spans that a zone holds, unless it makes more for one instant.
const HELD: usize = 1_024;

/// A zone that holds more spans, and has few offsets, looks for a local under each of them.
const WALKED: usize = 64;

/// How many spans are made for one instant, unless a zone has many offsets.
const HELD_AT_ONCE: usize = 128;

/// Behind so many places where spans are short others are held.
const BURSTS: usize = 48;

const WEEK: i64 = 7 * DAY;

/// After so many spans no more are made, if they are shorter than a minute each.
const SHORT_SPANS: usize = 16;

/// What spans of a minute each are of a day then: a quarter of an hour and a little more.
const SHORT_PART: i64 = 90;

/// How many observances are looked at for the spans of one instant, unless they are few.
const LOOKED_AT: usize = 32_000_000;

/// A zone that has more observances has its onsets listed, so that spans are made without a look at each observance for each span.
const FEW: usize = 96;

/// How many onsets a zone lists for each of its observances, but not more than `LISTED`.
const LISTED_OF_EACH: usize = 640;

const LISTED: usize = 1_500_000;

/// In a zone that has more observances, all onsets are listed where it is asked again and again.
const SOME: usize = 32;

/// How many onsets are listed so for each of its observances, but not more than `THROUGH`, of how many blocks, and of how many at a time.
const THROUGH_OF_EACH: usize = 4_096;

const THROUGH: usize = 400_000;

const THROUGH_BLOCKS: usize = 128;

const AT_A_TIME: usize = 64;

/// Of how many spans a zone takes note to list all onsets there.
const ASKED_SPANS: usize = 4_096;

/// How many onsets near one local are listed for each observance of a zone that has more than `FEW`.
const NEAR_OF_EACH: usize = 16;

/// In a zone that has no more offsets, spans are made for the instants at which each of them may show a local.
const FEW_OFFSETS: usize = 4;

/// How many spans are made for one local then.
const MADE: usize = 6;

/// Instants between which all spans are to be held.
#[derive(Clone, Copy)]
struct AskedSpan {
    from: Moment,
    to: Moment,
}

/// A span of no instant, which comes after all others.
const NO_SPAN: Steady = Steady {
    from: Moment::MAX,
    next: Moment::MIN,
    offset: 0,
};

/// How many onsets near locals are listed at once for their stretches, if spans for more than `LONG` seconds are not few.
const STRETCHED: usize = 32_768;

const LONG: i64 = 20 * DAY;

/// How many times shorter a list for stretches is made, if it is too long.
const SHORTER: i64 = 8;

/// Where the instants of many locals are found at once, those of so many days are mostly found together.
const DAYS: u32 = 32;

/// How many onsets are listed at a time then for each observance, and how many in all. They are not held.
const AT_A_TIME_OF_EACH: usize = 96;

const ASKED_OF_EACH: usize = 4_096;

const ASKED: usize = 16_000_000;

/// How many seconds the onsets are listed for at a time, and how often at most near one instant.
const BLOCK: i64 = 32 * DAY;

const BLOCKS: i64 = 6;

/// From how many seconds before an instant on the offset at each second is held, and how many after it at most and at least.
const EACH_BEFORE: i64 = 4 * DAY;

const EACH_AFTER: i64 = 8 * DAY;

const EACH_NEAR: i64 = 2 * DAY;

/// How many seconds are between two onsets there at most, on an average.
const OFTEN: i64 = 60;

/// How many are between them if most stretches are short.
const SOON: i64 = 2;

/// For how many instants this is tried.
const EACH_TRIED: u8 = 3;

/// How many times as long a block is as what is listed near one local.
const BLOCK_OF_NEAR: usize = 8;

/// A zone by observances (RFC 5545, section 3.6.5). It has no table of all onsets: it searches the observances near each instant. Contracts see
/// the observances alone.
#[derive(Drop)]
pub struct Observed {
    observances: ZoneObservances,
    onsets: Vec<Onsets>,
    /// How many seconds back the search for an onset goes at first.
    ago: i64,
    /// The place of an observance whose rule has locals on most days.
    often: usize,
    /// Whether an observance may begin more than a few times a year by its rule.
    turns: bool,
    /// How many spans are made for one instant.
    at_once: usize,
    /// How many onsets may still be listed.
    room: usize,
    /// Where all spans are to be held, since the zone is asked there again and again. How many onsets may still be listed for that, and of how many
    /// blocks.
    asked: Vec<AskedSpan>,
    through: usize,
    blocks: usize,
    /// How many onsets near one local are listed. None, if the zone has few observances, or more onsets in a block than can be listed.
    listed_near: usize,
    /// Every offset that the zone has at some instant.
    offsets: Vec<i32>,
    /// Spans about the instants that were given to `reach`, in order.
    held: Vec<Steady>,
    /// The offsets at each second of some days, where onsets follow each other so often that spans do not reach through them.
    each_second: Vec<OffsetEachSecond>,
    /// For how many more instants they are tried.
    tries: u8,
}

impl Model for Observed {
    ghost use Rattle.ics_zone.specs.declared.zone_observances.ZoneObservances.{ZoneObservances};

    ghost Value = { ZoneObservances };

    ghost use Rattle.ics_zone.specs.Inner.ZoneOnsets.{IsKnown};

    ghost view = { λ z. z.observances };

    ghost invariant = { λ z. IsKnown z.observances.said.items z.onsets.items z.offsets.items z.held.items z.each_second.items };
}

impl Observed {
    ghost use Rattle.ics_zone.specs.Bounds.{HasBounds};
    ghost use Rattle.ics_zone.specs.Spans.{AreSpans};
    ghost use Rattle.ics_zone.specs.Stretches.{IsStretch};
    ghost use Rattle.ics_zone.specs.ZoneOffsets.{IsOffset, zone_offset};
    ghost use Rattle.ics_zone.specs.Moments.{shown, IsFirstTime, IsInGap, IsMomentOf, zone_moment};
    ghost use Rattle.ics_zone.specs.Inner.GapStretches.{IsJumpRead};
    ghost use Rattle.ics_zone.specs.Inner.ZoneOnsets.{IsJump, IsSteady};

    /// The zone of these observances. `NoObservance` if there is none, `ZoneRule` if one repeats more often than daily, else `Memory` if an allocation fails.
    pub fn read(alloc: Global, observances: Vec<Observance>) -> Result<Observed, ZoneFault>
        requires { All IsObservance observances.items }
        ensures observances { IfOk result (λ zone. zone.said.items ≡ observances.items) }
        ensures none { (result ≡ Err ZoneFault.NoObservance) ↔ (observances.items ≡ []) }
        ensures fine { (result ≡ Err ZoneFault.ZoneRule) ↔ IsTrue (list_any has_finer_rule observances.items) }
    {
        if observances.is_empty() {
            return Err(ZoneFault::NoObservance);
        }
        if any_is_finer(&observances) {
            return Err(ZoneFault::ZoneRule);
        }
        let Ok(onsets) = onsets_of(alloc, &observances) else {
            return Err(ZoneFault::Memory);
        };
        let Ok(offsets) = offsets_of(alloc, &observances) else {
            return Err(ZoneFault::Memory);
        };
        let ago = least_ago(&onsets);
        let often = first_often(&onsets);
        let turns = turn_often(&observances);
        let at_once = spans_at_once(observances.len(), offsets.len());
        let room = onsets_listed(observances.len());
        let through = onsets_through(observances.len());
        let listed_near = onsets_near(observances.len());
        let zone = ZoneObservances { said: observances };
        Ok(Observed {
            observances: zone,
            onsets,
            ago,
            often,
            turns,
            at_once,
            room,
            asked: Vec::new(alloc),
            through,
            blocks: THROUGH_BLOCKS,
            listed_near,
            offsets,
            held: Vec::new(alloc),
            each_second: Vec::new(alloc),
            tries: EACH_TRIED,
        })
    }

    /// Whether it is the zone of these observances. The answer may be no of rules that are the same in other words.
    pub fn has(&self, observances: &[Observance]) -> bool
        ensures { result ≡ true → self.now.said.items ≡ observances.now }
    {
        are_same_observances(&self.observances.said, observances)
    }

    /// Whether it has so many observances that its onsets are listed.
    pub fn has_many(&self) -> bool {
        self.onsets.len() > FEW
    }

    /// Whether an observance may begin more than a few times a year by its rule, so that a stretch may take long to find.
    pub fn turns_often(&self) -> bool {
        self.turns
    }

    /// Whether it holds no spans about a local, given by its seconds.
    pub fn is_slow_at(&self, seconds: i64) -> bool {
        is_moment(seconds) && self.held_moment(seconds).is_none()
    }

    /// The instants of locals, which are given by their seconds, each found by itself. Those that find no memory are left out.
    pub(crate) fn each_answer(&self, locals: &[i64]) -> Vec<Answer>
        ensures { AreAnswers self.now.said.items result.items }
    {
        let mut answers = Vec::new(*self.held.allocator());
        for k in 0..locals.len() {
            let seconds = locals[k];
            if is_moment(seconds) {
                let moment = self.instant_of(seconds);
                answers.push(Answer { seconds, moment }).ok();
            }
        }
        answers
    }

    /// The instants of locals, which are given by their seconds in order, if the onsets near them can be listed.
    pub(crate) fn answers(&self, locals: &[i64]) -> Vec<Answer>
        ensures { AreAnswers self.now.said.items result.items }
    {
        let mut answers = Vec::new(*self.held.allocator());
        let count = self.onsets.len();
        let most = count.saturating_mul(AT_A_TIME_OF_EACH).min(LISTED);
        let mut room = count.saturating_mul(ASKED_OF_EACH).min(ASKED);
        let mut days = DAYS;
        let mut k = 0;
        while k < locals.len() && room > 0 {
            let end = group_end(locals, k, days);
            match self.answer_group(&locals[k..end], most, &mut answers) {
                Some(made) => {
                    room = room.saturating_sub(made);
                    k = end;
                }
                None if days == 0 => return answers,
                None => days /= 4,
            }
        }
        answers
    }

    /// Adds the instants of a group of locals, by spans whose onsets are no more than so many. How many spans there are. None if the onsets are more,
    /// or an allocation fails.
    fn answer_group(&self, locals: &[i64], most: usize, answers: &mut Vec<Answer>) -> Option<usize>
        requires some { 0 < length locals.now }
        requires answers { AreAnswers self.now.said.items answers.old.items }
        ensures { AreAnswers self.now.said.items answers.new.items }
    {
        let spans = self.spans_about(locals[0], locals[locals.len() - 1], most)?;
        add_answers(&spans, locals, answers);
        Some(spans.len())
    }

    /// Makes answers near an instant faster and changes none: the zone answers at every instant, before this call and after it. It holds
    /// spans from a day before the instant on if there is room for them and no allocation fails. Where these are so short that they end soon, it holds
    /// the offset at each second of some days. The result is always `Ok`.
    pub fn reach(&mut self, to: Moment) -> Result<(), AllocError>
        ensures same { self.new ≡ self.old }
        ensures always { result ≡ Ok tt }
    {
        let near = to.clamp(FIRST_HELD, LAST_HELD);
        let last = near + HELD_AHEAD;
        let soon = if self.at_once > HELD_AT_ONCE {
            last
        } else {
            near + DAY
        };
        let first = first_listed(&self.onsets);
        if self.room > 0 {
            self.hold_blocks(first, near - DAY, last);
        }
        if self.room == 0 && !self.is_listed(near) {
            let begin = first.clamp(near - DAY, last);
            if !self.hold_from(begin, soon, last) {
                self.reach_each_second(near);
            }
        }
        Ok(())
    }

    /// Makes answers faster from an instant on and up to another and changes none: each observance of which a search may take long finds its onsets.
    pub fn find_through(&mut self, from: Moment, to: Moment)
        ensures { self.new ≡ self.old }
    {
        let last = to
            .min(from.saturating_add(LONGEST))
            .clamp(FIRST_HELD, LAST_HELD);
        let first = from.clamp(FIRST_HELD, last);
        self.find_between(first - 2 * DAY, last + 2 * DAY);
    }

    /// The same between instants that are near enough.
    fn find_between(&mut self, from: Moment, to: Moment)
        ensures { self.new ≡ self.old }
    {
        find_each(&mut self.onsets, from, to);
    }

    /// Holds the spans from an instant on and up to another, if there is room for them. Answers there are faster, and none changes.
    pub fn reach_through(&mut self, from: Moment, to: Moment)
        ensures { self.new ≡ self.old }
    {
        let last = to.clamp(FIRST_HELD, LAST_HELD);
        let first = from.clamp(FIRST_HELD, last);
        if self.room == 0 && !self.is_listed(first) {
            self.hold_through(first, last);
        }
    }

    /// Takes note of instants between which all spans are to be held, if the zone has some observances.
    pub fn note_spans(&mut self, from: Moment, to: Moment)
        ensures { self.new ≡ self.old }
    {
        if self.through > 0 && self.asked.len() < ASKED_SPANS {
            self.asked.push(AskedSpan { from, to }).ok();
        }
    }

    /// Holds all spans between the instants that were noted, as far as there is room for them. Answers there are faster, and none changes.
    pub fn hold_noted(&mut self)
        ensures { self.new ≡ self.old }
    {
        if self.asked.is_empty() {
            return;
        }
        let count = self.held.len();
        self.list_each(count);
        self.asked.clear();
        if self.held.len() > count {
            self.sort_held();
        }
    }

    /// Lists the blocks of days between the instants that were noted, in their order, unless their spans are among the first that are held, of which
    /// there are so many.
    fn list_each(&mut self, count: usize)
        ensures { self.new ≡ self.old }
    {
        self.asked.sort_unstable_by_key(|asked| asked.from);
        let mut begin = FIRST_HELD;
        for k in 0..self.asked.len() {
            let Some(asked) = self.asked.get(k) else {
                return;
            };
            let last = asked.to.clamp(FIRST_HELD, LAST_HELD);
            let first = asked.from.max(begin).clamp(FIRST_HELD, LAST_HELD);
            begin = self.list_blocks(count, first, last);
        }
    }

    /// Holds all spans of the blocks of days that reach from an instant to another, as far as there is room. The instant where the next block begins.
    fn list_blocks(&mut self, count: usize, from: Moment, to: Moment) -> Moment
        requires from { IsWithin 270_000_000_000 from }
        requires to { to ≤ℤ pos 270_000_000_000 }
        ensures { self.new ≡ self.old }
    {
        let mut at = from - from.rem_euclid(BLOCK);
        for _ in 0..AT_A_TIME {
            if at > to || self.through == 0 {
                return at;
            }
            let last = at + (BLOCK - 1);
            self.list_block(count, at, last);
            at = last + 1;
        }
        at
    }

    /// The same of one block, if there is room. Else no more blocks are listed so.
    fn list_block(&mut self, count: usize, from: Moment, last: Moment)
        requires from { IsSearched from }
        requires last { IsSearched last }
        requires order { from ≤ℤ last }
        ensures { self.new ≡ self.old }
    {
        if self.is_held_to(count, from, last) {
            return;
        }
        let room = self.through;
        self.through = 0;
        if self.blocks == 0 {
            return;
        }
        self.blocks -= 1;
        if let Some((count, spans)) = self.block_spans(from, last, room) {
            self.through = room.saturating_sub(count);
            self.hold_each(&spans);
        }
    }

    /// Whether all spans about an instant may be held, since blocks were listed.
    fn is_listed(&self, near: Moment) -> bool {
        self.blocks < THROUGH_BLOCKS && self.held_over(near, near).is_some()
    }

    /// Whether two instants are in the first spans that are held, of which there are so many.
    fn is_held_to(&self, count: usize, from: Moment, to: Moment) -> bool {
        let Some(held) = self.held.get(..count) else {
            return false;
        };
        span_over(held, from, from).is_some() && span_over(held, to, to).is_some()
    }

    /// Holds the spans from an instant on and up to another. Where short ones follow each other it goes on a week later.
    fn hold_through(&mut self, from: Moment, to: Moment)
        requires from { IsSearched from }
        requires to { IsSearched to }
        ensures { self.new ≡ self.old }
    {
        let mut at = from;
        for _ in 0..BURSTS {
            if at > to {
                return;
            }
            self.hold_from(at, to, to);
            let reached = self.held_up_to(at);
            if reached > to {
                return;
            }
            at = at.max(reached) + WEEK;
        }
    }

    /// The end of the spans that are held one behind the other from an instant on.
    fn held_up_to(&self, from: Moment) -> Moment {
        let mut at = from;
        for _ in 0..HELD_AT_ONCE {
            match self.held_over(at, at) {
                Some(held) => at = held.next,
                None => return at,
            }
        }
        at
    }

    /// The offset at an instant, in seconds: TZOFFSETTO of the greatest onset that is not after it or, before all onsets, TZOFFSETFROM of the
    /// least.
    pub fn offset(&self, moment: Moment) -> i32
        ensures means { IsOffset self.now.said.items moment result }
        ensures value { result ≡ zone_offset self.now.said.items moment }
    {
        if let Some(offset) = self.told_offset(moment) {
            return offset;
        }
        let mut hint = NO_ONSET;
        match self.held_over(moment, moment) {
            Some(held) => held.offset,
            None => self.offset_of_latest(moment, &mut hint),
        }
    }

    /// The first instant at which the clock shows the local. If there is none, the local read with the offset before the gap.
    pub fn moment(&self, local: Local) -> Moment
        requires { IsDay local.day }
        ensures means { IsMomentOf self.now.said.items (seconds_at local.day local.second) result }
        ensures value { result ≡ zone_moment self.now.said.items (seconds_at local.day local.second) }
    {
        self.instant_of(local.seconds())
    }

    /// The same of a local that is given by its seconds.
    fn instant_of(&self, seconds: i64) -> Moment
        requires { IsMoment seconds }
        ensures { IsMomentOf self.now.said.items seconds result }
    {
        if self.told_about(seconds).is_some() {
            return self.moment_by_offsets(seconds);
        }
        if self.is_dense() {
            if let Some(moment) = self.first_by_offset(seconds) {
                return moment;
            }
        }
        if let Some(moment) = self.held_moment(seconds) {
            return moment;
        }
        if let Some(moment) = self.near_moment(seconds) {
            return moment;
        }
        match self.first_time(seconds) {
            Some(moment) => moment,
            None => self.across_gap(seconds),
        }
    }

    /// The least and the greatest of its offsets.
    pub fn bounds(&self) -> Bounds
        ensures { HasBounds (zone_offset self.now.said.items) (zone_moment self.now.said.items) result.least result.most }
    {
        let mut least = SHORT;
        let mut most = -SHORT;
        for offset in &self.offsets {
            least = least.min(i64::from(*offset));
            most = most.max(i64::from(*offset));
        }
        Bounds {
            least: least.max(-SHORT),
            most: most.min(SHORT),
        }
    }

    /// A stretch of locals from one on, given by its seconds, that the clock shows, or skips, by one offset.
    pub fn stretch(&self, seconds: i64) -> Stretch
        requires { IsMoment seconds }
        ensures { IsStretch (zone_offset self.now.said.items) (zone_moment self.now.said.items) result }
    {
        if self.offsets.len() == 1 {
            return Stretch::of_bounds(self.bounds());
        }
        if let Some(stretch) = self.stretch_each_second(seconds) {
            return stretch;
        }
        if let Some(stretch) = told_stretch(&self.offsets, &self.held, seconds) {
            return stretch;
        }
        match told_stretch(&self.offsets, &self.made(seconds), seconds) {
            Some(stretch) => stretch,
            None => Stretch::none(),
        }
    }

    /// The spans about a local, given by its seconds, and some days on. If their onsets are too many, the list is empty. None if the zone has one
    /// offset or an allocation fails.
    pub fn spans(&self, seconds: i64) -> Option<Spans>
        requires { IsMoment seconds }
        ensures { IfSome result (AreSpans (zone_offset self.now.said.items) (zone_moment self.now.said.items)) }
    {
        if self.offsets.len() == 1 {
            return None;
        }
        let alloc = *self.held.allocator();
        let Ok(offsets) = self.offsets.as_slice().to_vec(alloc) else {
            return None;
        };
        let (until, steady) = self.listed_on(seconds);
        Spans::of(
            alloc,
            SpanList {
                until,
                offsets,
                steady,
            },
        )
    }

    /// Whether its few offsets are soon looked at, and the spans within days of a local may be too many for a walk.
    fn is_dense(&self) -> bool {
        let few = self.offsets.len() <= FEW_OFFSETS && !self.has_many();
        few && self.held.len() > WALKED
    }

    /// The spans about a local, given by its seconds, and the local before which they are: those of a long stretch or else as many days on as their
    /// onsets are not too many. If these are too many for hours or an allocation fails, and where offsets are held second by second, there are none for a
    /// day.
    fn listed_on(&self, seconds: i64) -> (Moment, Vec<Steady>)
        requires { IsMoment seconds }
        ensures { AreSteady (zone_offset self.now.said.items) result.1.items }
    {
        if self.told_about(seconds).is_some() {
            return (seconds + DAY, Vec::new(*self.held.allocator()));
        }
        if let Some(long) = self.made_on(seconds) {
            return long;
        }
        let mut ahead = self.listed_ahead(seconds);
        while ahead >= HOUR {
            if let Some(spans) = self.listed_spans(seconds, ahead) {
                return (seconds + ahead, spans);
            }
            ahead /= SHORTER;
        }
        (seconds + DAY, Vec::new(*self.held.allocator()))
    }

    /// The spans about a local, given by its seconds, for so many seconds on. None if their onsets are too many or an allocation fails.
    fn listed_spans(&self, seconds: i64, ahead: i64) -> Option<Vec<Steady>>
        requires seconds { IsMoment seconds }
        requires some { pos 0 ≤ℤ ahead }
        requires most { ahead ≤ℤ pos 34_560_000 }
        ensures { IfSome result (λ spans. AreSteady (zone_offset self.now.said.items) spans.items) }
    {
        let beside = DAY + beside(ahead);
        let from = seconds - beside;
        let last = seconds + ahead + beside;
        if from > last {
            return None;
        }
        self.spans_between(from, seconds - DAY, last, self.listed_for(ahead))
    }

    /// For how many seconds on the spans about a local, given by its seconds, are listed first: half as many, again and again, where the onsets by the
    /// rules that run on are too many.
    fn listed_ahead(&self, seconds: i64) -> i64
        requires { IsMoment seconds }
        ensures some { pos 0 ≤ℤ result }
        ensures most { result ≤ℤ pos 34_560_000 }
    {
        let running = running_onsets(&self.onsets, seconds, seconds + AHEAD);
        let mut ahead = AHEAD;
        while ahead >= 2 * HOUR && self.are_too_many(running, ahead) {
            ahead /= 2;
        }
        ahead
    }

    /// Whether more onsets are expected than are listed for so many seconds on, where so many are in `AHEAD` seconds.
    fn are_too_many(&self, running: u64, ahead: i64) -> bool
        requires some { pos 0 ≤ℤ ahead }
        requires most { ahead ≤ℤ pos 34_560_000 }
    {
        let seconds = ahead + 2 * (DAY + beside(ahead));
        let expected = running.saturating_mul(seconds as u64) / AHEAD as u64;
        expected.saturating_add(self.onsets.len() as u64) > self.listed_for(ahead) as u64
    }

    /// How many onsets are listed at most for stretches of so many seconds on.
    fn listed_for(&self, ahead: i64) -> usize {
        let few = if ahead > LONG { HELD } else { STRETCHED };
        self.onsets.len().saturating_mul(NEAR_OF_EACH).max(few)
    }

    /// The spans that are made for a stretch from a local on, given by its seconds, and the end of the stretch. None if it is not a long one or an
    /// allocation fails.
    fn made_on(&self, seconds: i64) -> Option<(Moment, Vec<Steady>)>
        requires { IsMoment seconds }
        ensures { IfSome result (λ made. AreSteady (zone_offset self.now.said.items) made.1.items) }
    {
        let made = self.made(seconds);
        let stretch = told_stretch(&self.offsets, &made, seconds)?;
        if stretch.to <= seconds + LONG {
            return None;
        }
        let mut spans = Vec::new(*self.held.allocator());
        for k in 0..MADE {
            spans.push(made[k]).ok()?;
        }
        Some((stretch.to, spans))
    }

    /// The spans over the instants at which a local, given by its seconds, may be shown, in a zone of few offsets, and else none. Those that follow
    /// each other between them are made too, as far as there is room.
    fn made(&self, seconds: i64) -> [Steady; MADE]
        requires { IsMoment seconds }
        ensures { AreSteady (zone_offset self.now.said.items) result }
    {
        let mut made = [NO_SPAN; MADE];
        let count = self.offsets.len();
        if count > FEW_OFFSETS || self.has_many() {
            return made;
        }
        let mut asked = 0;
        let mut next = seconds + DAY;
        for k in 0..MADE {
            if asked >= count {
                return made;
            }
            let at = seconds - i64::from(self.offsets[asked]);
            let has_room = k + (count - asked) < MADE;
            let span = self.span_near(on_to(seconds, at, next, has_room));
            made[k] = span;
            next = span.next;
            asked = asked_before(&self.offsets, seconds, next);
        }
        made
    }

    /// A span over an instant: one that is held or, if there is none, one that is made for it.
    fn span_near(&self, at: Moment) -> Steady
        requires { IsSearched at }
        ensures { IsSteady (zone_offset self.now.said.items) result.from result.next result.offset }
    {
        match self.held_over(at, at) {
            Some(held) => held,
            None => {
                let ahead = if self.turns { SOON_AHEAD } else { AHEAD };
                self.steady_about(at, ahead)
            }
        }
    }

    /// Holds the spans of the blocks of days that reach from an instant to another, from the first onset of all on.
    fn hold_blocks(&mut self, first: Moment, from: Moment, to: Moment)
        requires from { IsWithin 270_000_000_000 from }
        requires to { to ≤ℤ pos 270_000_000_000 }
        ensures { self.new ≡ self.old }
    {
        let mut at = from - from.rem_euclid(BLOCK);
        for _ in 0..BLOCKS {
            if at > to || self.room == 0 {
                return;
            }
            let last = at + (BLOCK - 1);
            self.hold_block(first.clamp(at, last), last);
            at = last + 1;
        }
    }

    /// Holds the spans from an instant on and up to another, unless the span about the first is held.
    fn hold_block(&mut self, from: Moment, last: Moment)
        requires from { IsSearched from }
        requires last { IsSearched last }
        requires order { from ≤ℤ last }
        ensures { self.new ≡ self.old }
    {
        if self.held_over(from, from).is_some() {
            return;
        }
        self.look_about(from);
        match self.block_spans(from, last, self.room) {
            Some((count, spans)) => {
                self.room = self.room.saturating_sub(count);
                self.hold_each(&spans);
                self.sort_held();
            }
            None => self.list_no_more(),
        }
    }

    /// Lists no more blocks. Where one has many times as many onsets as are listed near one local, those near a local are listed no more.
    fn list_no_more(&mut self)
        ensures { self.new ≡ self.old }
    {
        if self.room / BLOCK_OF_NEAR > self.listed_near {
            self.listed_near = 0;
        }
        self.room = 0;
    }

    /// Holds spans, as far as no allocation fails.
    fn hold_each(&mut self, spans: &[Steady])
        requires { AreSteady (zone_offset self.old.said.items) spans.now }
        ensures { self.new ≡ self.old }
    {
        for k in 0..spans.len() {
            self.hold_span(spans[k]);
        }
    }

    /// The spans from an instant on and up to another, unless their onsets are more than so many or an allocation fails. Onsets are listed from an
    /// instant on that may be earlier: if one is there, the first span begins with it.
    fn spans_between(
        &self,
        from: Moment,
        near: Moment,
        last: Moment,
        most: usize,
    ) -> Option<Vec<Steady>>
        requires from { IsSearched from }
        requires near { IsSearched near }
        requires last { IsSearched last }
        requires order { from ≤ℤ last }
        ensures { IfSome result (λ spans. AreSteady (zone_offset self.now.said.items) spans.items) }
    {
        let alloc = *self.held.allocator();
        let table = table_of(alloc, &self.onsets, from, last, most)?;
        self.spans_by(&table, near, last)
    }

    /// How many onsets a block of days has, and its spans. None if the onsets are more than so many or an allocation fails.
    fn block_spans(&self, from: Moment, last: Moment, most: usize) -> Option<(usize, Vec<Steady>)>
        requires from { IsSearched from }
        requires last { IsSearched last }
        requires order { from ≤ℤ last }
        ensures { IfSome result (λ block. AreSteady (zone_offset self.now.said.items) block.1.items) }
    {
        let alloc = *self.held.allocator();
        let table = table_of(alloc, &self.onsets, from, last, most)?;
        let spans = self.spans_by(&table, from, last)?;
        Some((table.len(), spans))
    }

    /// The spans from an instant on, or from the first onset of a table if that is earlier, and up to another by the onsets of the table. None if an
    /// allocation fails.
    fn spans_by(&self, table: &[i64], near: Moment, last: Moment) -> Option<Vec<Steady>>
        requires near { IsSearched near }
        requires last { IsSearched last }
        requires table { (from : ℤ) × IsTable self.now.said.items from last table.now }
        ensures { IfSome result (λ spans. AreSteady (zone_offset self.now.said.items) spans.items) }
    {
        let mut spans = self.first_span(first_instant(table, last), near, last)?;
        self.add_spans(table, last, &mut spans).ok()?;
        Some(spans)
    }

    /// The span about an instant up to another, as a list. An empty one, if spans begin at that instant or before.
    fn first_span(&self, begin: Moment, near: Moment, last: Moment) -> Option<Vec<Steady>>
        requires near { IsSearched near }
        requires last { IsSearched last }
        ensures { IfSome result (λ spans. AreSteady (zone_offset self.now.said.items) spans.items) }
    {
        let mut spans = Vec::new(*self.held.allocator());
        if begin > near {
            let first = self.steady_about(near, AHEAD);
            spans.push(clipped(first, near, last + 1)).ok()?;
        }
        Some(spans)
    }

    /// Adds the span from each onset of a table of those that are not after an instant. The error means that an allocation failed.
    fn add_spans(
        &self,
        table: &[i64],
        last: Moment,
        spans: &mut Vec<Steady>,
    ) -> Result<(), AllocError>
        requires last { IsSearched last }
        requires table { (from : ℤ) × IsTable self.now.said.items from last table.now }
        requires spans { AreSteady (zone_offset self.now.said.items) spans.old.items }
        ensures { AreSteady (zone_offset self.now.said.items) spans.new.items }
    {
        for k in 0..table.len() {
            let span = self.span_from(table, k, last);
            if span.from < span.next {
                add_span(spans, span)?;
            }
        }
        Ok(())
    }

    /// The spans from a day before one local to a day after another, given by their seconds.
    fn spans_about(&self, first: i64, last: i64, most: usize) -> Option<Vec<Steady>>
        ensures { IfSome result (λ spans. AreSteady (zone_offset self.now.said.items) spans.items) }
    {
        let near = first.clamp(FIRST_HELD, LAST_HELD) - DAY;
        let last = last.clamp(FIRST_HELD, LAST_HELD) + DAY;
        if near > last {
            return None;
        }
        self.spans_between(near - DAY, near, last, most)
    }

    /// The span from an onset of a table of those that are not after an instant: to the next, or to the end of the table.
    fn span_from(&self, table: &[i64], k: usize, last: Moment) -> Steady
        requires last { IsSearched last }
        requires inside { k < length table.now }
        requires table { (from : ℤ) × IsTable self.now.said.items from last table.now }
        ensures { IsSteady (zone_offset self.now.said.items) result.from result.next result.offset }
    {
        let (at, place) = onset_of(table[k]);
        let next = next_of(table, k, last);
        Steady {
            from: at,
            next,
            offset: self.onsets[place].offset_to,
        }
    }

    /// Holds a span, if no allocation fails.
    fn hold_span(&mut self, span: Steady)
        requires { IsSteady (zone_offset self.old.said.items) span.from span.next span.offset }
        ensures { self.new ≡ self.old }
    {
        self.held.push(span).ok();
    }

    /// Puts the held spans in order.
    fn sort_held(&mut self)
        ensures { self.new ≡ self.old }
    {
        self.held
            .sort_unstable_by_key(|span| (span.from, span.next));
    }

    /// Holds the spans from an instant on and up to another, some at a time, but only up to an earlier one if a span is long. Whether they reach so far.
    fn hold_from(&mut self, from: Moment, soon: Moment, to: Moment) -> bool
        requires from { IsSearched from }
        requires to { IsSearched to }
        requires soon { soon ≤ℤ to }
        ensures { self.new ≡ self.old }
    {
        let mut at = from;
        let mut last = to;
        let ahead = self.first_ahead();
        for made in 0..self.at_once {
            if at > last {
                return true;
            }
            if is_enough(made, at - from, ahead) {
                return false;
            }
            self.hold_about(at);
            let Some(held) = self.held_over(at, at) else {
                return false;
            };
            if held.next > at + A_LONG_SPAN {
                last = soon;
            }
            last = self.held_to(at, &held, last, from + PASSED_AHEAD);
            at = held.next;
        }
        at > last
    }

    /// Holds the offset at each second of some days about an instant, if onsets follow each other often there. They are not made again for instants
    /// near by, and for few instants in all.
    fn reach_each_second(&mut self, near: Moment)
        requires { IsMoment near }
        ensures { self.new ≡ self.old }
    {
        if self.tries == 0 || self.told_over(near - EACH_NEAR, near + EACH_NEAR).is_some() {
            return;
        }
        self.tries -= 1;
        if let Some(each_second) = self.each_second_about(near) {
            self.hold_each_second(each_second);
        }
    }

    /// Holds offsets at each second, if no allocation fails.
    fn hold_each_second(&mut self, each_second: OffsetEachSecond)
        requires { TellsOffsets (zone_offset self.old.said.items) each_second }
        ensures { self.new ≡ self.old }
    {
        self.each_second.push(each_second).ok();
    }

    /// The offset at each second of some days about an instant, of none if onsets are seldom there. None if they are too many or an allocation fails.
    fn each_second_about(&self, near: Moment) -> Option<OffsetEachSecond>
        requires { IsMoment near }
        ensures { IfSome result (TellsOffsets (zone_offset self.now.said.items)) }
    {
        let from = near - EACH_BEFORE;
        let mut ahead = EACH_AFTER;
        while ahead >= EACH_NEAR {
            if let Some(each_second) = self.each_second_between(from, near + ahead) {
                return Some(each_second);
            }
            ahead /= 2;
        }
        None
    }

    /// The offset at each second from an instant on and up to another, of none if onsets are seldom there. None if they are too many or an allocation fails.
    fn each_second_between(&self, from: Moment, last: Moment) -> Option<OffsetEachSecond>
        requires from { IsSearched from }
        requires last { IsSearched last }
        requires order { from ≤ℤ last }
        ensures { IfSome result (TellsOffsets (zone_offset self.now.said.items)) }
    {
        let alloc = *self.held.allocator();
        let table = table_of(alloc, &self.onsets, from, last, LISTED)?;
        let count = table.len() as i64;
        let seconds = last - from;
        if count < seconds / OFTEN {
            return OffsetEachSecond::with_room(alloc, from, from, false);
        }
        let is_often = count > seconds / SOON;
        let mut each_second = OffsetEachSecond::with_room(alloc, from, last + 1, is_often)?;
        let first = self.first_span(first_instant(&table, last), from, last)?;
        self.add_each(&first, &mut each_second).ok()?;
        self.add_offsets(&table, last, &mut each_second).ok()?;
        Some(each_second)
    }

    /// Adds the offsets of spans at each second. The error means that an allocation failed.
    fn add_each(
        &self,
        spans: &[Steady],
        each_second: &mut OffsetEachSecond,
    ) -> Result<(), AllocError>
        requires spans { AreSteady (zone_offset self.now.said.items) spans.now }
        requires told { TellsOffsets (zone_offset self.now.said.items) each_second.old }
        ensures { TellsOffsets (zone_offset self.now.said.items) each_second.new }
    {
        for k in 0..spans.len() {
            each_second.add(spans[k])?;
        }
        Ok(())
    }

    /// The same of the spans from each onset of a table of those that are not after an instant.
    fn add_offsets(
        &self,
        table: &[i64],
        last: Moment,
        each_second: &mut OffsetEachSecond,
    ) -> Result<(), AllocError>
        requires last { IsSearched last }
        requires table { (from : ℤ) × IsTable self.now.said.items from last table.now }
        requires told { TellsOffsets (zone_offset self.now.said.items) each_second.old }
        ensures { TellsOffsets (zone_offset self.now.said.items) each_second.new }
    {
        for k in 0..table.len() {
            let span = self.span_from(table, k, last);
            each_second.add(span)?;
        }
        Ok(())
    }

    /// Up to where spans are held after one: the earlier of two instants, if the span passes over onsets that begin another offset, from an instant in
    /// it on, and else the first of the two.
    fn held_to(&self, at: Moment, span: &Steady, last: Moment, soon: Moment) -> Moment
        requires { at <ℤ span.now.next }
        ensures { result ≤ℤ last }
    {
        if next_other(&self.onsets, span.offset, at, span.next) < span.next {
            last.min(soon)
        } else {
            last
        }
    }

    /// Holds the span about an instant, unless it is held. Each observance is asked for its next onset first, so that it is known.
    fn hold_about(&mut self, near: Moment)
        requires { IsSearched near }
        ensures { self.new ≡ self.old }
    {
        if self.held_over(near, near).is_some() {
            return;
        }
        self.look_about(near);
        self.hold(near);
    }

    /// Holds the span about an instant, if there is room for it and no allocation fails.
    fn hold(&mut self, near: Moment)
        requires { IsSearched near }
        ensures { self.new ≡ self.old }
    {
        if self.held.len() >= HELD.max(self.at_once) {
            return;
        }
        let steady = self.steady_about(near, AHEAD);
        self.hold_span(steady);
        self.sort_held();
    }

    /// Looks for the next onset of each observance about an instant, so that it is known.
    fn look_about(&mut self, near: Moment)
        requires { IsSearched near }
        ensures { self.new ≡ self.old }
    {
        look_on(&mut self.onsets, near, near + AHEAD);
    }

    /// How many seconds the first spans for an instant have to reach ahead, so that more are made. Observances without rules have but few onsets.
    fn first_ahead(&self) -> i64
        ensures low { pos 0 ≤ℤ result }
        ensures high { result ≤ℤ pos 86_400 }
    {
        for observance in &self.observances.said {
            if observance.rule.is_some() {
                return DAY;
            }
        }
        0
    }

    /// The offset at an instant, if it is held for its second.
    fn told_offset(&self, moment: Moment) -> Option<i32>
        ensures some { 0 < length self.now.said.items }
        ensures told { IfSome result (λ told. told ≡ zone_offset self.now.said.items moment) }
    {
        for each_second in &self.each_second {
            if let Some(offset) = each_second.offset_at(moment) {
                return Some(offset);
            }
        }
        None
    }

    /// What is held for each second from one instant to another.
    fn told_over(&self, from: Moment, to: Moment) -> Option<&OffsetEachSecond>
        ensures { IfSome result (λ told. TellsOffsets (zone_offset self.now.said.items) told.now) }
    {
        for each_second in &self.each_second {
            if each_second.reaches(from, to) {
                return Some(each_second);
            }
        }
        None
    }

    /// What is held for each second at which a local, given by its seconds, may be shown.
    fn told_about(&self, seconds: i64) -> Option<&OffsetEachSecond>
        requires { IsMoment seconds }
        ensures { IfSome result (λ told. TellsOffsets (zone_offset self.now.said.items) told.now) }
    {
        self.told_over(seconds - DAY, seconds + DAY)
    }

    /// A stretch from a local on, given by its seconds, by the offsets at each second. None if these are not held, or do not tell so much.
    fn stretch_each_second(&self, seconds: i64) -> Option<Stretch>
        requires { IsMoment seconds }
        ensures { IfSome result (IsStretch (zone_offset self.now.said.items) (zone_moment self.now.said.items)) }
    {
        let each_second = self.told_about(seconds)?;
        each_second.stretch(&self.offsets, seconds)
    }

    /// The first instant at which the clock shows a later local than one, given by its seconds, by the offsets at each second.
    fn told_jump(&self, seconds: i64) -> Option<Jump>
        requires { IsMoment seconds }
        ensures { IfSome result (IsJumpRead (zone_offset self.now.said.items) seconds) }
    {
        let each_second = self.told_about(seconds)?;
        each_second.jump(seconds, greatest(&self.offsets))
    }

    /// A held span that reaches from one instant to another.
    fn held_over(&self, from: Moment, to: Moment) -> Option<Steady>
        ensures some { 0 < length self.now.said.items }
        ensures over { IfSome result (λ s. (s.from ≤ℤ from) × (to <ℤ s.next)) }
        ensures steady { IfSome result (λ s. IsSteady (zone_offset self.now.said.items) s.from s.next s.offset) }
    {
        span_over(&self.held, from, to)
    }

    /// The instant that a local means, given by its seconds, if the spans within a day of it are held.
    fn held_moment(&self, seconds: i64) -> Option<Moment>
        requires bound { IsMoment seconds }
        ensures { IfSome result (IsMomentOf self.now.said.items seconds) }
    {
        moment_in(&self.held, seconds)
    }

    /// Whether the onsets by rules are known about a local, given by its seconds.
    fn is_found_about(&self, seconds: i64) -> bool
        requires { IsMoment seconds }
    {
        for one in &self.onsets {
            if one.rule.is_some() && !(one.is_known(seconds - DAY) && one.is_known(seconds + DAY)) {
                return false;
            }
        }
        true
    }

    /// The same by spans that are made for it and not held, in a zone of many observances. None if their onsets are too many or an allocation fails.
    fn near_moment(&self, seconds: i64) -> Option<Moment>
        requires bound { IsMoment seconds }
        ensures { IfSome result (IsMomentOf self.now.said.items seconds) }
    {
        if self.listed_near == 0 || self.is_found_about(seconds) {
            return None;
        }
        let spans = self.spans_about(seconds, seconds, self.listed_near)?;
        moment_in(&spans, seconds)
    }

    /// The span about an instant, from one onset to the next that begins another offset and is not overridden at its own instant by one that begins
    /// the same, but no more than so many seconds on. Before all onsets it has no beginning.
    fn steady_about(&self, near: Moment, ahead: i64) -> Steady
        requires near { IsSearched near }
        requires some { pos 1 ≤ℤ ahead }
        requires most { ahead ≤ℤ pos 34_560_000 }
        ensures { IsSteady (zone_offset self.now.said.items) result.from result.next result.offset }
    {
        let last = near + ahead;
        match self.latest_about(near) {
            Some(latest) => Steady {
                from: latest.at,
                next: next_change(&self.onsets, latest.offset, near, last),
                offset: latest.offset,
            },
            None => {
                let offset = first_offset(&self.onsets);
                Steady {
                    from: Moment::MIN,
                    next: next_change(&self.onsets, offset, near, last),
                    offset,
                }
            }
        }
    }

    /// The greatest onset that is not after an instant. It is at the instant, if the span before is held and ends there.
    fn latest_about(&self, near: Moment) -> Option<Latest>
        requires { IsSearched near }
        ensures { IsLatestOf self.now.said.items near (length self.now.said.items) result }
    {
        if self.held_over(near - 1, near - 1).is_some() {
            let latest = latest_within(&self.onsets, near - 1, near);
            if latest.is_some() {
                return latest;
            }
        }
        latest_of(&self.onsets, self.ago, near)
    }

    /// The offset at an instant, by the observances. The hint becomes the onset in force, if there is one.
    fn offset_of_latest(&self, moment: Moment, hint: &mut Latest) -> i32
        requires { IsOnsetOf self.now.said.items hint.old }
        ensures means { IsOffset self.now.said.items moment result }
        ensures value { result ≡ zone_offset self.now.said.items moment }
        ensures hint { IsOnsetOf self.now.said.items hint.new }
    {
        match latest_of(&self.onsets, self.ago, moment) {
            Some(latest) => {
                *hint = latest;
                latest.offset
            }
            None => first_offset(&self.onsets),
        }
    }

    /// Whether the zone has an offset at an instant. The hint is an onset that was in force at another instant.
    fn has_offset(&self, moment: Moment, offset: i32, hint: &mut Latest) -> bool
        requires { IsOnsetOf self.now.said.items hint.old }
        ensures hint { IsOnsetOf self.now.said.items hint.new }
        ensures value { MatchBool result (zone_offset self.now.said.items moment ≡ offset) (zone_offset self.now.said.items moment ≢ offset) }
    {
        if let Some(told) = self.told_offset(moment) {
            return told == offset;
        }
        if let Some(held) = self.held_over(moment, moment) {
            return held.offset == offset;
        }
        if overrides(&self.onsets, *hint, offset, moment) {
            return false;
        }
        self.offset_of_latest(moment, hint) == offset
    }

    /// The span from the greatest onset that is not after an instant up to that instant. If there is no such onset, it has no beginning.
    fn steady_to(&self, to: Moment) -> Steady
        requires { IsSearched to }
        ensures to { to <ℤ result.next }
        ensures steady { IsSteady (zone_offset self.now.said.items) result.from result.next result.offset }
    {
        let next = to + 1;
        match latest_of(&self.onsets, self.ago, to) {
            Some(latest) => Steady {
                from: latest.at,
                next,
                offset: latest.offset,
            },
            None => Steady {
                from: Moment::MIN,
                next,
                offset: first_offset(&self.onsets),
            },
        }
    }

    /// A span that reaches from one instant to another. None if an onset is after the first and not after the second.
    fn steady_over(&self, from: Moment, to: Moment) -> Option<Steady>
        requires { IsSearched to }
        ensures over { IfSome result (λ s. (s.from ≤ℤ from) × (to <ℤ s.next)) }
        ensures steady { IfSome result (λ s. IsSteady (zone_offset self.now.said.items) s.from s.next s.offset) }
    {
        if let Some(held) = self.held_over(from, to) {
            return Some(held);
        }
        if turns_after(&self.onsets, self.often, from, to) {
            return None;
        }
        let steady = self.steady_to(to);
        if steady.from <= from {
            Some(steady)
        } else {
            None
        }
    }

    /// The instant of a local, if the offset does not change within a day of it.
    fn steady_time(&self, seconds: i64) -> Option<Moment>
        requires bound { IsMoment seconds }
        ensures { IfSome result (IsFirstTime (zone_offset self.now.said.items) seconds) }
    {
        let steady = self.steady_over(seconds - DAY, seconds + DAY)?;
        Some(seconds - i64::from(steady.offset))
    }

    /// The instant of a local on a clock with this offset, if the offset is the zone's then.
    fn shown_with(&self, seconds: i64, offset: i32, hint: &mut Latest) -> Option<Moment>
        requires bound { IsMoment seconds }
        requires hint { IsOnsetOf self.now.said.items hint.old }
        ensures hint { IsOnsetOf self.now.said.items hint.new }
        ensures shown { MatchOption result
            (zone_offset self.now.said.items (seconds -ℤ offset) ≢ offset)
            (λ t. (t ≡ seconds -ℤ offset) × (zone_offset self.now.said.items t ≡ offset)) }
    {
        let moment = seconds - i64::from(offset);
        if self.has_offset(moment, offset, hint) {
            Some(moment)
        } else {
            None
        }
    }

    /// The first instant at which the clock shows a local, given by its seconds.
    fn first_time(&self, seconds: i64) -> Option<Moment>
        requires { IsMoment seconds }
        ensures { MatchOption result
            ((t : ℤ) → shown (zone_offset self.now.said.items) t ≢ seconds)
            (IsFirstTime (zone_offset self.now.said.items) seconds) }
    {
        match self.steady_time(seconds) {
            Some(moment) => Some(moment),
            None => self.first_by_offset(seconds),
        }
    }

    /// The same by a look at each offset of the zone: such an instant is the local less one of them.
    fn first_by_offset(&self, seconds: i64) -> Option<Moment>
        requires { IsMoment seconds }
        ensures { MatchOption result
            ((t : ℤ) → shown (zone_offset self.now.said.items) t ≢ seconds)
            (IsFirstTime (zone_offset self.now.said.items) seconds) }
    {
        let offsets = self.offsets.as_slice();
        let mut first: Option<Moment> = None;
        let mut hint = NO_ONSET;
        for offset in offsets {
            if is_by(first, seconds - i64::from(*offset)) {
                continue;
            }
            let Some(moment) = self.shown_with(seconds, *offset, &mut hint) else {
                continue;
            };
            first = Some(earlier(first, moment));
        }
        first
    }

    /// The instant that a local means, by a look at each offset.
    fn moment_by_offsets(&self, seconds: i64) -> Moment
        requires { IsMoment seconds }
        ensures { IsMomentOf self.now.said.items seconds result }
    {
        match self.first_by_offset(seconds) {
            Some(moment) => moment,
            None => self.across_gap(seconds),
        }
    }

    /// Whether the clock shows, at an instant, a later local than this one, given by its seconds.
    fn is_past(&self, seconds: i64, moment: Moment) -> bool
        requires { IsSearched moment }
        ensures { MatchBool result
            (seconds <ℤ shown (zone_offset self.now.said.items) moment)
            (shown (zone_offset self.now.said.items) moment ≤ℤ seconds) }
    {
        moment + i64::from(self.offset(moment)) > seconds
    }

    /// An instant up to which the clock shows earlier locals than one, where it does up to another. Onsets that are overridden at their own
    /// instants are passed over.
    fn clear_to(&self, seconds: i64, after: Moment) -> Moment
        requires bound { IsMoment seconds }
        requires low { (seconds -ℤ pos 86_400) ≤ℤ after }
        requires high { after ≤ℤ (seconds +ℤ pos 86_401) }
        requires skipped { (t : ℤ) → shown (zone_offset self.now.said.items) t ≢ seconds }
        requires earlier { (t : ℤ) → t ≤ℤ after → shown (zone_offset self.now.said.items) t <ℤ seconds }
        ensures low { after ≤ℤ result }
        ensures high { result ≤ℤ (seconds +ℤ pos 86_401) }
        ensures earlier { (t : ℤ) → t ≤ℤ result → shown (zone_offset self.now.said.items) t <ℤ seconds }
    {
        let clear = clear_after(&self.onsets, seconds, after);
        (after + clear).min(seconds + DAY + 1)
    }

    /// The same, hour by hour as long as nothing but such onsets is in an hour.
    fn clear_hours(&self, seconds: i64, after: Moment) -> Moment
        requires bound { IsMoment seconds }
        requires low { (seconds -ℤ pos 86_400) ≤ℤ after }
        requires high { after ≤ℤ (seconds +ℤ pos 86_401) }
        requires skipped { (t : ℤ) → shown (zone_offset self.now.said.items) t ≢ seconds }
        requires earlier { (t : ℤ) → t ≤ℤ after → shown (zone_offset self.now.said.items) t <ℤ seconds }
        ensures low { after ≤ℤ result }
        ensures high { result ≤ℤ (seconds +ℤ pos 86_401) }
        ensures earlier { (t : ℤ) → t ≤ℤ result → shown (zone_offset self.now.said.items) t <ℤ seconds }
    {
        let mut at = after;
        while at <= seconds + DAY {
            let next = self.clear_to(seconds, at);
            if next < at + 3_600 {
                return next;
            }
            at = next;
        }
        at
    }

    /// The instant at which the clock jumps over a local that it never shows: the first onset that shows a later one.
    fn jump(&self, seconds: i64) -> Moment
        requires bound { IsMoment seconds }
        requires skipped { (t : ℤ) → shown (zone_offset self.now.said.items) t ≢ seconds }
        ensures low { (seconds -ℤ pos 86_400) ≤ℤ result }
        ensures high { result ≤ℤ (seconds +ℤ pos 86_401) }
        ensures jump { IsJump (zone_offset self.now.said.items) seconds result }
    {
        let mut after = seconds - DAY;
        while after <= seconds + DAY {
            after = next_past(&self.onsets, seconds, after);
            if self.is_past(seconds, after) {
                return after;
            }
            after = self.clear_hours(seconds, after);
        }
        // not reached: a day after the local the clock shows a later one
        after
    }

    /// The instant of a local that the clock skips: it is read with the offset before the gap.
    fn across_gap(&self, seconds: i64) -> Moment
        requires bound { IsMoment seconds }
        requires skipped { (t : ℤ) → shown (zone_offset self.now.said.items) t ≢ seconds }
        ensures { IsInGap (zone_offset self.now.said.items) seconds result }
    {
        if let Some(jump) = self.told_jump(seconds) {
            return seconds - i64::from(jump.before);
        }
        let past = self.jump(seconds);
        seconds - i64::from(self.offset(past - 1))
    }
}

/// Adds a span to a list. If the last one reaches to its beginning and has the same offset, the two become one.
fn add_span(spans: &mut Vec<Steady>, span: Steady) -> Result<(), AllocError>
    ensures { (offset : ℤ → ℤ) → AreSteady offset spans.old.items → IsSteady offset span.from span.next span.offset → AreSteady offset spans.new.items }
{
    let count = spans.len();
    if count > 0 {
        let last = spans[count - 1];
        if span.from <= last.next && last.offset == span.offset {
            spans[count - 1] = joined(last, span);
            return Ok(());
        }
    }
    spans.push(span)?;
    Ok(())
}

/// Two spans of one offset as one, where the first reaches to the second.
fn joined(first: Steady, second: Steady) -> Steady
    ensures from { result.from ≡ first.from }
    ensures next { result.next ≡ int_max first.next second.next }
    ensures offset { result.offset ≡ first.offset }
{
    Steady {
        from: first.from,
        next: first.next.max(second.next),
        offset: first.offset,
    }
}

/// Whether there is a first instant, and it is not after a second.
fn is_by(first: Option<Moment>, second: Moment) -> bool
    ensures { MatchOption first (result ≡ false) (λ f. result ≡ true → f ≤ℤ second) }
{
    match first {
        Some(first) => first <= second,
        None => false,
    }
}

/// The earlier of two instants, of which the first may be none.
fn earlier(first: Option<Moment>, second: Moment) -> Moment
    ensures { MatchOption first (result ≡ second) (λ f. result ≡ int_min f second) }
{
    match first {
        Some(first) => first.min(second),
        None => second,
    }
}

/// The onsets of each observance.
fn onsets_of(alloc: Global, observances: &[Observance]) -> Result<Vec<Onsets>, AllocError>
    requires { All IsObservance observances.now }
    ensures { IfOk result (λ onsets. AreOnsetsOfAll observances.now onsets.items) }
{
    let mut all = Vec::with_capacity(alloc, observances.len())?;
    for observance in observances {
        all.push(Onsets::of(alloc, observance)?)?;
    }
    Ok(all)
}

/// The least number of seconds that the search for an onset of an observance goes back at first.
fn least_ago(onsets: &[Onsets]) -> i64 {
    let mut ago = i64::MAX;
    for one in onsets {
        ago = ago.min(i64::try_from(one.ago).unwrap_or(i64::MAX));
    }
    ago
}

/// The place of the first observance whose rule has locals on most days, or one past all.
fn first_often(onsets: &[Onsets]) -> usize {
    for k in 0..onsets.len() {
        if onsets[k].by_days {
            return k;
        }
    }
    onsets.len()
}

/// How many spans are made for one instant. They are more than usual, if a zone has many offsets: a local that is in no span is looked for
/// under each of them.
fn spans_at_once(observances: usize, offsets: usize) -> usize {
    let most = LOOKED_AT / observances.max(1);
    offsets.saturating_mul(8).min(most).max(HELD_AT_ONCE)
}

/// How many seconds beside those that are needed are listed too, for so many seconds: then no stretch is cut short but at their end.
fn beside(ahead: i64) -> i64
    requires { pos 0 ≤ℤ ahead }
    ensures some { pos 0 ≤ℤ result }
    ensures most { result ≤ℤ pos 86_400 }
{
    ahead.min(DAY)
}

/// Whether so many spans are enough, since they reach through so few seconds, of those that the first ones are to reach through.
fn is_enough(made: usize, reached: i64, ahead: i64) -> bool {
    match made {
        SHORT_SPANS => reached < ahead / SHORT_PART,
        HELD_AT_ONCE => reached < ahead,
        _ => false,
    }
}

/// The instant at which the next span about a local is made, given its seconds: that at which an offset shows it or, if there is room, the end of the
/// last span, where this is earlier.
fn on_to(seconds: i64, at: Moment, next: Moment, has_room: bool) -> Moment
    requires local { IsMoment seconds }
    requires at { IsSearched at }
    ensures { IsSearched result }
{
    if has_room {
        at.min(next.max(seconds - DAY))
    } else {
        at
    }
}

/// How many offsets, of those from the greatest on, show a local, given by its seconds, before an instant.
fn asked_before(offsets: &[i32], seconds: i64, next: Moment) -> usize
    requires { IsMoment seconds }
{
    for k in 0..offsets.len() {
        if seconds - i64::from(offsets[k]) >= next {
            return k;
        }
    }
    offsets.len()
}

/// How many onsets of a zone are listed.
fn onsets_listed(observances: usize) -> usize {
    if observances > FEW {
        observances.saturating_mul(LISTED_OF_EACH).min(LISTED)
    } else {
        0
    }
}

/// How many onsets of a zone are listed where it is asked again and again.
fn onsets_through(observances: usize) -> usize {
    if observances > SOME {
        observances.saturating_mul(THROUGH_OF_EACH).min(THROUGH)
    } else {
        0
    }
}

/// How many onsets of a zone are listed near one local.
fn onsets_near(observances: usize) -> usize {
    if observances > FEW {
        observances.saturating_mul(NEAR_OF_EACH)
    } else {
        0
    }
}

/// The part of a span from an instant on and before another.
fn clipped(span: Steady, from: Moment, end: Moment) -> Steady
    ensures from { result.from ≡ int_max span.from from }
    ensures next { result.next ≡ int_min span.next end }
    ensures offset { result.offset ≡ span.offset }
{
    Steady {
        from: span.from.max(from),
        next: span.next.min(end),
        offset: span.offset,
    }
}

/// The offsets before and after the onsets, each of them once, the greatest first.
fn offsets_of(alloc: Global, observances: &[Observance]) -> Result<Vec<i32>, AllocError>
    ensures { IfOk result (λ offsets. HaveOffsets offsets.items observances.now) }
{
    let mut offsets = Vec::new(alloc);
    for observance in observances {
        offsets.push(observance.offset_to)?;
        offsets.push(observance.offset_from)?;
    }
    offsets.sort_unstable();
    offsets.dedup();
    offsets.reverse();
    Ok(offsets)
}

/// Whether one of the observances repeats more often than daily.
fn any_is_finer(observances: &[Observance]) -> bool
    ensures { result ≡ list_any has_finer_rule observances.now }
{
    observances
        .iter()
        .any(|observance| is_finer_than_daily(observance))
}

/// Whether an observance repeats more often than daily.
fn is_finer_than_daily(observance: &Observance) -> bool
    ensures { result ≡ has_finer_rule observance.now }
{
    match &observance.rule {
        None => false,
        Some(rule) => rule.parts().frequency.is_finer_than_daily(),
    }
}
