//! The names of time zones, whose copies share their bytes (RFC 5545, section 3.2.19).
ghost use Rattle.std.specs.Prelude.{◌≡◌, IfOk, [], Some, refl, bytes_eq};
ghost use Rattle.std.specs.Cmp.{partial_equiv_from_equiv};
ghost use Rattle.std.specs.Cmp.Lexicographic.{slice_cmp, nat_list_eq_equiv, nat_list_cmp_total, texts_ties, texts_po};
ghost use Rattle.std.specs.Ordering.{nat_cmp};
ghost use Rattle.ics_values.specs.Plain.{text_of};

use ics_values::text_bytes;
use std::alloc::{AllocError, Global};
use std::cmp::Ordering;
use std::collections::BTreeSet;
use std::marker::Model;
use std::rc::RcSlice;

/// The name of a time zone (RFC 5545, section 3.2.19), seen as its bytes. Names are ordered by them.
#[derive(Drop)]
pub struct Tzid {
    bytes: Option<RcSlice<u8, Global>>,
}

impl Model for Tzid {
    ghost use Rattle.std.specs.Prelude.{List, ℕ, [], unwrap_or, option_map};
    ghost use Rattle.std.specs.Rc.{rc_slice_items};

    ghost Value = { List ℕ };

    ghost view = { λ a. unwrap_or (option_map rc_slice_items a.bytes) [] };
}

/// The names of time zones in a file. Each stands once: lines that name one zone share its bytes.
#[derive(Drop)]
pub struct Tzids {
    last: Option<Tzid>,
    names: BTreeSet<Tzid>,
}

impl Tzid {
    /// No name.
    pub fn empty() -> Tzid
        ensures { result ≡ [] }
    {
        Tzid { bytes: None }
    }

    /// A name of these bytes. The error means that an allocation failed.
    pub fn copied(alloc: Global, bytes: &[u8]) -> Result<Tzid, AllocError>
        ensures { IfOk result (λ zone. zone ≡ bytes.now) }
    {
        let bytes = RcSlice::from_slice(alloc, bytes)?;
        Ok(Tzid { bytes: Some(bytes) })
    }

    /// The same name, in the same memory. The error is that of `RcSlice::clone`.
    pub fn shared(&self) -> Result<Tzid, AllocError>
        ensures { IfOk result (λ zone. zone ≡ self.now) }
    {
        match &self.bytes {
            Some(bytes) => Ok(Tzid {
                bytes: Some(bytes.clone()?),
            }),
            None => Ok(Tzid::empty()),
        }
    }

    /// Its bytes.
    pub fn as_slice(&self) -> &[u8]
        ensures { result.now ≡ self.now }
    {
        match &self.bytes {
            Some(bytes) => bytes.as_slice(),
            None => b"".as_slice(),
        }
    }
}

impl Tzids {
    /// None was read.
    pub fn new(alloc: Global) -> Tzids {
        Tzids {
            last: None,
            names: BTreeSet::new(alloc),
        }
    }

    /// The name, in the memory of the same one that was read before, if there is one.
    fn kept(&mut self, name: Tzid) -> Result<Tzid, AllocError>
        ensures { IfOk result (λ kept. kept ≡ name) }
    {
        if let Some(known) = self.names.get(&name) {
            return known.shared();
        }
        self.names.insert(name.shared()?)?;
        Ok(name)
    }

    /// The name of these bytes. It is looked up only where it is not the one that was read last.
    pub fn name(&mut self, alloc: Global, bytes: &[u8]) -> Result<Tzid, AllocError>
        ensures { IfOk result (λ zone. zone ≡ bytes.now) }
    {
        if let Some(last) = &self.last {
            if last.as_slice() == bytes {
                return last.shared();
            }
        }
        let zone = self.kept(Tzid::copied(alloc, bytes)?)?;
        self.last = Some(zone.shared()?);
        Ok(zone)
    }

    /// The name that a TEXT value stands for, without its escapes.
    pub fn of_value(&mut self, alloc: Global, value: &[u8]) -> Result<Tzid, AllocError>
        ensures { IfOk result (λ zone. zone ≡ text_of value.now) }
    {
        let bytes = RcSlice::from_vec(text_bytes(alloc, value)?)?;
        self.kept(Tzid { bytes: Some(bytes) })
    }
}

impl PartialEq for Tzid {
    ghost eq = { bytes_eq };

    ghost laws = { partial_equiv_from_equiv nat_list_eq_equiv };

    fn eq(&self, other: &Tzid) -> bool {
        self.as_slice() == other.as_slice()
    }
}

impl Eq for Tzid {
    ghost laws = { nat_list_eq_equiv };
}

impl PartialOrd for Tzid {
    ghost partial_cmp = { λ a b. Some (slice_cmp nat_cmp a b) };

    ghost laws = { texts_po };

    fn partial_cmp(&self, other: &Tzid) -> Option<Ordering> {
        Some(self.cmp(other))
    }
}

/// By the bytes.
impl Ord for Tzid {
    ghost cmp = { slice_cmp nat_cmp };

    ghost total = { nat_list_cmp_total };

    ghost matches_partial_cmp = { λ a b. refl };

    ghost matches_eq = { texts_ties };

    fn cmp(&self, other: &Tzid) -> Ordering {
        self.as_slice().cmp(other.as_slice())
    }
}
