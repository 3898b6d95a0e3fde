//! What a source of zone files has answered so far.
ghost use Rattle.std.specs.Prelude.{◌≡◌, ◌&&◌, ◌||◌, ◌∷◌, [], List, ℕ, IfErr, OnErr, OnOk, bytes_eq};
ghost use Rattle.std.specs.BTreeSet.{contains};
ghost use Rattle.std.specs.Cmp.Lexicographic.{slice_cmp};
ghost use Rattle.std.specs.List.{list_any};
ghost use Rattle.std.specs.Ordering.{nat_cmp};

use crate::finding::{Found, find};
use ics_calendar::ZoneFiles;
use ics_event::Text;
use khal_ports::{RunFault, ZoneSource};
use std::alloc::{AllocError, Global};
use std::collections::BTreeSet;

/// The zone files that were found, the names that were asked for, and those whose files were not read.
#[derive(Drop)]
pub(crate) struct Answered {
    pub(crate) files: ZoneFiles,
    pub(crate) names: BTreeSet<Text>,
    pub(crate) unread: BTreeSet<Text>,
}

/// Adds a name.
fn see(alloc: Global, seen: &mut BTreeSet<Text>, name: &Text) -> Result<(), AllocError>
    ensures { OnOk result ((other : List ℕ) →
        contains (slice_cmp nat_cmp) seen.new other ≡ (bytes_eq other name.now || contains (slice_cmp nat_cmp) seen.old other)) }
{
    seen.insert(name.copied(alloc)?)?;
    Ok(())
}

impl Answered {
    ghost use Rattle.ics_calendar.specs.ZoneTables.{given_by};
    ghost use Rattle.khal_reading.specs.Asked.{Asked, was_unread, with_found};
    ghost use Rattle.khal_reading.specs.Inner.Learned.{Knows, Learns, LearnsSome, seen_found};

    /// Nothing so far.
    pub(crate) fn new(alloc: Global) -> Answered
        ensures { Knows [] result }
    {
        Answered {
            files: ZoneFiles::new(alloc),
            names: BTreeSet::new(alloc),
            unread: BTreeSet::new(alloc),
        }
    }

    /// Keeps what was found for a name.
    fn keep(&mut self, alloc: Global, name: &Text, found: &Found) -> Result<(), AllocError>
        ensures files { OnOk result ((other : List ℕ) → given_by self.new.files other
            ≡ with_found (given_by self.old.files) (name.now, seen_found found.now) other) }
        ensures names { OnOk result ((other : List ℕ) → contains (slice_cmp nat_cmp) self.new.names other
            ≡ (bytes_eq other name.now || contains (slice_cmp nat_cmp) self.old.names other)) }
        ensures unread { OnOk result ((other : List ℕ) → contains (slice_cmp nat_cmp) self.new.unread other
            ≡ ((bytes_eq other name.now && was_unread (seen_found found.now)) || contains (slice_cmp nat_cmp) self.old.unread other)) }
    {
        match found {
            Found::Given(bytes) => self.files.add(alloc, name.as_slice(), bytes.as_slice())?,
            Found::Absent => {}
            Found::Unread => see(alloc, &mut self.unread, name)?,
        }
        see(alloc, &mut self.names, name)
    }

    /// Asks for a name, unless it was asked for before.
    fn ask<Z: ZoneSource>(
        &mut self,
        alloc: Global,
        zones: &mut Z,
        name: &Text,
    ) -> Result<(), RunFault>
        ensures ok { OnOk result ((asked : List Asked) → Knows asked self.old
            → Learns Z.finds asked (name.now ∷ []) zones.old zones.new self.new) }
        ensures some { OnErr result ((asked : List Asked) → Knows asked self.old
            → LearnsSome Z.finds asked (name.now ∷ []) zones.old zones.new) }
        ensures err { IfErr result (λ fault. fault ≡ RunFault.Memory) }
    {
        if self.names.contains(name) {
            return Ok(());
        }
        let found = find(alloc, zones, name.as_slice())?;
        self.keep(alloc, name, &found)?;
        Ok(())
    }

    /// Asks for these names.
    pub(crate) fn ask_all<Z: ZoneSource>(
        &mut self,
        alloc: Global,
        zones: &mut Z,
        names: &[Text],
    ) -> Result<(), RunFault>
        ensures ok { OnOk result ((asked : List Asked) → Knows asked self.old
            → Learns Z.finds asked names.now zones.old zones.new self.new) }
        ensures some { OnErr result ((asked : List Asked) → Knows asked self.old
            → LearnsSome Z.finds asked names.now zones.old zones.new) }
        ensures err { IfErr result (λ fault. fault ≡ RunFault.Memory) }
    {
        for name in names {
            self.ask(alloc, zones, name)?;
        }
        Ok(())
    }

    /// Whether the file of one of these names was not read.
    pub(crate) fn lacks(&self, names: &[Text]) -> bool
        ensures { result ≡ list_any (contains (slice_cmp nat_cmp) self.now.unread) names.now }
    {
        names.iter().any(|name| self.unread.contains(name))
    }
}
