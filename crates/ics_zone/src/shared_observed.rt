//! Zones by observances, which files share.
ghost use Rattle.std.specs.Prelude.{◌≡◌, Ok, IfOk};
ghost use Rattle.ics_fields.specs.Locals.{seconds_at};
ghost use Rattle.ics_zone.specs.Moments.{IsMomentOf, zone_moment};
ghost use Rattle.ics_zone.specs.Seconds.{IsDay};

use crate::answers::{Answer, answer_of};
use crate::observed::Observed;
use ics_fields::{Local, Moment};
use std::alloc::{AllocError, Global};
use std::marker::Model;
use std::rc::Rc;

/// Between no instants.
const NOWHERE: (Moment, Moment) = (Moment::MAX, Moment::MIN);

/// A zone by observances, held once for all files that share it, with the instants of locals of one file. Contracts see the observances.
#[derive(Drop)]
pub(crate) struct SharedObserved {
    zone: Rc<Observed>,
    /// Locals that will be asked for, given by their seconds.
    noted: Vec<i64>,
    /// Between which instants the zone will be asked again and again, if the first is not after the second.
    through: (Moment, Moment),
    /// Locals whose instants are known, in order.
    answers: Vec<Answer>,
}

impl Model for SharedObserved {
    ghost use Rattle.ics_zone.specs.declared.zone_observances.ZoneObservances.{ZoneObservances};

    ghost Value = { ZoneObservances };

    ghost use Rattle.ics_zone.specs.Inner.Answers.{AreAnswers};

    ghost view = { λ a. a.zone.value };

    ghost invariant = { λ a. AreAnswers a.zone.value.said.items a.answers.items };
}

impl SharedObserved {
    /// The zone, to be shared.
    pub fn new(alloc: Global, zone: Observed) -> Result<SharedObserved, AllocError>
        ensures { IfOk result (λ shared. shared ≡ zone) }
    {
        match Rc::new(alloc, zone) {
            Ok(zone) => Ok(SharedObserved {
                zone,
                noted: Vec::new(alloc),
                through: NOWHERE,
                answers: Vec::new(alloc),
            }),
            Err(_) => Err(AllocError),
        }
    }

    /// The same zone, in the same memory. What is known for the file stays with it.
    pub fn share(&self) -> Result<SharedObserved, AllocError>
        ensures { IfOk result (λ shared. shared ≡ self.now) }
    {
        let alloc = *self.answers.allocator();
        Ok(SharedObserved {
            zone: self.zone.clone()?,
            noted: Vec::new(alloc),
            through: NOWHERE,
            answers: Vec::new(alloc),
        })
    }

    /// The zone.
    pub fn get(&self) -> &Observed
        ensures { result.now ≡ self.now }
    {
        &self.zone
    }

    /// Makes answers near an instant faster and changes none, if the zone is not shared yet. The result is always `Ok`.
    pub fn reach(&mut self, to: Moment) -> Result<(), AllocError>
        ensures same { self.new ≡ self.old }
        ensures always { result ≡ Ok tt }
    {
        match Rc::get_mut(&mut self.zone) {
            Some(zone) => zone.reach(to),
            None => Ok(()),
        }
    }

    /// The same from an instant on and up to another, if a few spans reach far.
    pub fn reach_through(&mut self, from: Moment, to: Moment)
        ensures { self.new ≡ self.old }
    {
        if let Some(zone) = Rc::get_mut(&mut self.zone) {
            zone.reach_through(from, to);
        }
    }

    /// Takes note of a local that will be asked for, if that is slow.
    pub fn note(&mut self, local: Local)
        ensures { self.new ≡ self.old }
    {
        let seconds = local.seconds();
        if self.get().has_many() && self.get().is_slow_at(seconds) {
            self.noted.push(seconds).ok();
        }
    }

    /// Takes note of a local, given by its seconds, that will be asked for again and again, if that is slow. A zone of many observances knows it already.
    pub fn note_again(&mut self, seconds: i64)
        ensures { self.new ≡ self.old }
    {
        if !self.get().has_many() && self.get().is_slow_at(seconds) {
            self.noted.push(seconds).ok();
        }
    }

    /// Takes note of instants between which the zone will be asked again and again.
    pub fn note_through(&mut self, from: Moment, to: Moment)
        ensures { self.new ≡ self.old }
    {
        self.through = (self.through.0.min(from), self.through.1.max(to));
    }

    /// Takes note of instants between which all spans are to be held, if the zone is not shared yet and has some observances.
    pub fn note_spans(&mut self, from: Moment, to: Moment)
        ensures { self.new ≡ self.old }
    {
        if let Some(zone) = Rc::get_mut(&mut self.zone) {
            zone.note_spans(from, to);
        }
    }

    /// Finds the onsets between the instants that were noted, if the zone is not shared yet, so that answers are faster. None changes.
    fn find(&mut self)
        ensures { self.new ≡ self.old }
    {
        let (from, to) = self.through;
        if from > to {
            return;
        }
        self.through = NOWHERE;
        if let Some(zone) = Rc::get_mut(&mut self.zone) {
            zone.find_through(from, to);
            zone.hold_noted();
        }
    }

    /// Finds the onsets between the instants and then the instants of all locals that were noted, so that answers are faster. None changes.
    pub fn learn(&mut self)
        ensures { self.new ≡ self.old }
    {
        self.find();
        if self.noted.is_empty() {
            return;
        }
        self.noted.sort_unstable();
        self.noted.dedup();
        let answers = if self.get().has_many() {
            self.get().answers(&self.noted)
        } else {
            self.get().each_answer(&self.noted)
        };
        self.answers = answers;
        self.noted.clear();
    }

    /// The first instant at which the clock shows the local. If there is none, the local read with the offset before the gap.
    pub fn moment(&self, local: Local) -> Moment
        requires { IsDay local.day }
        ensures means { IsMomentOf self.now.said.items (seconds_at local.day local.second) result }
        ensures value { result ≡ zone_moment self.now.said.items (seconds_at local.day local.second) }
    {
        match answer_of(&self.answers, local.seconds()) {
            Some(moment) => moment,
            None => self.get().moment(local),
        }
    }
}
