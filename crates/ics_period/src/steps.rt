//! Steps of an interval, by the times of day and the weekdays that their periods have.
ghost use Rattle.std.specs.Prelude.{◌≡◌, ℕ, ◌<◌, ◌≤◌, ◌+◌, ◌*◌, ◌%◌, ◌^◌, true, MatchOption};
ghost use Rattle.ics_fields.specs.Sets.{contains};
ghost use Rattle.ics_period.specs.Candidates.{IsClosed};
ghost use Rattle.ics_period.specs.RecurrencePeriods.{has_time};
ghost use Rattle.ics_period.specs.Inner.StepClocks.{may_have};
ghost use Rattle.ics_period.specs.Inner.StepClasses.{HasClasses};

use crate::date::names_weekdays_alone;
use crate::effective_rule::EffectiveRule;
use crate::members::members_below;
use crate::recurrence_period::next_minute;
use crate::step_clock::StepClock;
use ics_fields::BitSet;

/// The greatest common divisor of an interval and of the periods of a cycle, and how many steps of the interval lead on by so much, whole cycles
/// aside. No contract says that they do: the caller tests it.
fn advance_of(interval: u64, cycle: u64) -> (u64, u64)
    requires some { 0 < cycle }
    requires most { cycle ≤ 604800 }
    ensures { result.1 < cycle }
{
    let mut divisor = cycle;
    let mut steps = 0;
    let mut rest = interval % cycle;
    let mut steps_of_rest = 1 % cycle;
    while rest > 0 {
        let times = divisor / rest;
        let left = divisor % rest;
        let steps_of_left = (steps + (cycle - times * steps_of_rest % cycle)) % cycle;
        divisor = rest;
        steps = steps_of_rest;
        rest = left;
        steps_of_rest = steps_of_left;
    }
    (divisor, steps)
}

/// The rest of a number by the periods of a cycle. Those of seconds are known to the compiler.
fn rest_of(n: u64, cycle: u64) -> u64
    requires { 0 < cycle }
    ensures { result ≡ n % cycle }
{
    match cycle {
        86_400 => n % 86_400,
        604_800 => n % 604_800,
        _ => n % cycle,
    }
}

/// The seconds of a set, by the rest that they leave by a divisor.
fn classes_of(seconds: BitSet, divisor: u64) -> [BitSet; 60]
    requires { 0 < divisor }
    ensures { HasClasses seconds divisor result }
{
    let mut classes = [BitSet::new(); 60];
    for second in 0..60 {
        if seconds.contains(second) {
            classes[(second as u64 % divisor) as usize].insert(second);
        }
    }
    classes
}

/// How the steps of an interval go round a cycle: by `factor` of them to the next period that any reaches, `divisor` periods on.
#[derive(Clone, Copy)]
struct Round {
    clock: StepClock,
    /// The periods of a cycle.
    periods: u64,
    divisor: u64,
    factor: u64,
    /// The period of a cycle from which the steps count, and its rest by the divisor.
    from: u64,
    rest: u64,
    /// The seconds by which the periods are numbered, by their rest.
    classes: [BitSet; 60],
    ghost periods_are: { periods ≡ clock.cycle * clock.per_day },
    ghost most: { periods ≤ 604800 },
    ghost some: { 0 < divisor },
    ghost whole: { periods % divisor ≡ 0 },
    ghost less: { factor < periods },
    ghost inside: { from < periods },
    ghost rest_is: { rest ≡ from % divisor },
    ghost classes_are: { HasClasses clock.seconds divisor classes },
}

impl Round {
    ghost use Rattle.ics_period.specs.Inner.StepRounds.{product, is_reached};

    /// That of an interval from a period on. None if the divisor is not one.
    fn new(clock: StepClock, number: u64, interval: u32) -> Option<Round>
        ensures { MatchOption result (Unit {0}) (λ round. (round.clock ≡ clock) × ((round.from ≡ number % round.periods)
            × ((interval % round.divisor ≡ 0) × (round.factor * interval % round.periods ≡ round.divisor % round.periods)))) }
    {
        let interval = interval as u64;
        let periods = clock.cycle as u64 * clock.per_day as u64;
        let (divisor, factor) = advance_of(interval, periods);
        if divisor == 0 || periods % divisor > 0 || interval % divisor > 0 {
            return None;
        }
        if factor * interval % periods != divisor % periods {
            return None;
        }
        let from = number % periods;
        Some(Round {
            clock,
            periods,
            divisor,
            factor,
            from,
            rest: from % divisor,
            classes: classes_of(clock.seconds, divisor),
        })
    }

    /// The rest that each second of a minute leaves by the divisor if steps reach it. The minute begins at a period of a cycle.
    fn rest_at(&self, begin: u64) -> u64
        ensures { (s : ℕ) → is_reached self.now (begin + s) ≡ true → s % self.now.divisor ≡ result }
    {
        let own = begin % self.divisor;
        if own <= self.rest {
            self.rest - own
        } else {
            self.rest + self.divisor - own
        }
    }

    /// A number and the products of the periods of a numbered minute that are allowed and that steps reach: the least of them.
    fn least_of_minute(&self, begin: u64, least: u64) -> u64
        requires { begin < 2 ^ 20 }
        ensures less { result ≤ least }
        ensures low { (s : ℕ) → s < 60 → contains self.now.clock.seconds s ≡ true → is_reached self.now (begin + s) ≡ true
            → result ≤ product self.now (begin + s) }
    {
        let first = self.rest_at(begin);
        if first >= 60 {
            return least;
        }
        let seconds = self.classes[first as usize];
        let mut least = least;
        let mut at = 0;
        while let Some(second) = seconds.next_from(at) {
            let apart = begin + second as u64 + (self.periods - self.from);
            least = least.min(rest_of(apart * self.factor, self.periods));
            at = second + 1;
        }
        least
    }

    /// The same of a day.
    fn least_of_day(&self, begin: u64, least: u64) -> u64
        requires { begin < 604800 }
        ensures less { result ≤ least }
        ensures low { (t : ℕ) → has_time self.now.clock.hours self.now.clock.minutes self.now.clock.seconds t ≡ true
            → is_reached self.now (begin + t) ≡ true → result ≤ product self.now (begin + t) }
    {
        let mut least = least;
        let mut at = 0;
        while let Some(minute) = next_minute(self.clock.hours, self.clock.minutes, at) {
            least = self.least_of_minute(begin + minute as u64 * 60, least);
            at = minute + 1;
        }
        least
    }

    /// How many looks at single steps take about as long as to ask all the periods of a cycle by their products, or fewer. None if a part restricts
    /// the date.
    fn looks(&self, dated: bool) -> u64
        ensures { result ≤ 512 }
    {
        if dated {
            return 0;
        }
        let seconds = members_below(&self.clock.seconds, 60);
        let periods = self.clock.minutes_of_cycle() * seconds / self.divisor.min(60);
        periods.min(512)
    }

    /// The least product of the periods of a cycle that may be allowed and that steps reach. The periods of a cycle if there is none.
    fn least(&self) -> u64
        ensures low { (p : ℕ) → p < self.now.periods → may_have self.now.clock p ≡ true → is_reached self.now p ≡ true → result ≤ product self.now p }
        ensures most { result ≤ self.now.periods }
    {
        let mut least = self.periods;
        for day in 0..self.clock.cycle {
            if self.clock.days.contains(day as u8) {
                least = self.least_of_day(day as u64 * self.clock.per_day as u64, least);
            }
        }
        least
    }
}

/// More periods than the years of rules have.
const FAR: u64 = 1 << 40;

/// Whether a part restricts the date.
fn is_dated(parts: &EffectiveRule) -> bool {
    !names_weekdays_alone(parts) | !parts.weekdays.is_empty()
}

/// The greatest common divisor of two numbers. No contract says that it is one: it tells a cost.
fn common_divisor(a: u64, b: u64) -> u64 {
    let mut divisor = a;
    let mut rest = b;
    while rest > 0 {
        let next = divisor % rest;
        divisor = rest;
        rest = next;
    }
    divisor
}

/// A look at a period costs about as much as so many at single steps.
const LOOK: u64 = 16;

/// Whether a set has the least number that is given, or one that is some divisors greater, below sixty.
fn has_rest(set: BitSet, least: u64, divisor: u64) -> bool
    requires some { 0 < divisor }
    requires most { divisor ≤ 86400 }
{
    let mut own = least;
    while own < 60 {
        if set.contains(own as u8) {
            return true;
        }
        own += divisor;
    }
    false
}

/// So many steps are looked at to see whether one is allowed.
const FEW_STEPS: u64 = 2_880;

/// Whether steps of an interval from a period on reach one whose time of day and weekday are allowed or, where they go through many periods of a cycle,
/// one whose time of day is. No contract says that they do: it tells a cost.
fn reaches(clock: &StepClock, number: u64, interval: u32) -> bool
    requires { number < 2 ^ 40 }
{
    let periods = u64::from(clock.cycle) * u64::from(clock.per_day);
    let steps = periods / common_divisor(periods, u64::from(interval)).clamp(1, 604_800);
    if steps <= FEW_STEPS {
        return clock.steps_passed(number, interval, steps) < steps;
    }
    let divisor = common_divisor(u64::from(clock.per_day), u64::from(interval)).clamp(1, 86_400);
    let rest = number % divisor;
    let mut at = 0;
    while let Some(minute) = next_minute(clock.hours, clock.minutes, at) {
        let begin = u64::from(minute) * 60 % divisor;
        if has_rest(clock.seconds, (rest + (divisor - begin)) % divisor, divisor) {
            return true;
        }
        at = minute + 1;
    }
    false
}

/// Whether it is time to go round a cycle: the looks since the last time have cost as much. It is asked after each four looks. After the last of them
/// it is time if all have cost half as much.
fn is_time(clock: &StepClock, interval: u32, looks: u64, is_last: bool) -> bool
    requires { 1 ≤ interval }
{
    let fours = looks / 4;
    let each = LOOK + u64::from(clock.per_day / interval);
    let minutes = clock.minutes_of_cycle() * 2 / each / 4 + 1;
    if !is_last && fours % minutes > 0 {
        return false;
    }
    let periods = u64::from(clock.cycle) * u64::from(clock.per_day);
    let divisor = common_divisor(periods, u64::from(interval)).clamp(1, 60);
    let seconds = members_below(&clock.seconds, 60) / divisor / 2 + 1;
    if is_last {
        minutes * seconds <= looks / 2
    } else {
        fours % (minutes * seconds) == 0
    }
}

/// A number of steps of INTERVAL, from the period with a number on, in whose periods a rule allows no local, by their times of day and weekdays.
/// It is made to save looks: how many of those before the first that it allows are counted no clause says. If a period is longer than a day, 0.
/// `looks` are those in vain so far, `is_last` says whether none follows.
pub fn steps_out(parts: &EffectiveRule, number: u64, looks: u64, is_last: bool) -> u64
    requires number { number < 2 ^ 40 }
    requires interval { 1 ≤ parts.now.interval }
    ensures none { (k : ℕ) → k < result → IsClosed parts.now (number + k * parts.now.interval) }
    ensures most { result * parts.now.interval ≤ 2 ^ 60 }
{
    let Some(clock) = StepClock::of(parts) else {
        return 0;
    };
    let interval = parts.interval;
    let dated = is_dated(parts);
    let short = clock.minutes_of_cycle() * 2;
    let most = if dated {
        short.min(clock.steps_of_day(number, interval))
    } else {
        short
    };
    let passed = clock.steps_passed(number, interval, most);
    if passed < most {
        return passed;
    }
    let in_vain = is_last && !reaches(&clock, number, interval);
    if dated && !in_vain && !is_time(&clock, interval, looks, is_last) {
        return passed;
    }
    let Some(round) = Round::new(clock, number, interval) else {
        return passed;
    };
    let most = round.looks(dated);
    let next = number + passed * interval as u64;
    let more = clock.steps_passed(next, interval, most);
    if more < most {
        return passed + more;
    }
    let least = round.least();
    if least < round.periods {
        least / round.divisor
    } else {
        FAR / interval as u64 + 1
    }
}
