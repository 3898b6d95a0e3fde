//! The zone files that are given for names of time zones (RFC 5545, section 3.2.19; RFC 9636).
ghost use Rattle.std.specs.Prelude.{◌≡◌, map, ℕ, List, Some, None, OnOk, OnErr, IfOk, if◌then◌else◌};
ghost use Rattle.std.specs.BTreeMap.{get};
ghost use Rattle.std.specs.Option.{option_or};
ghost use Rattle.std.specs.Ordering.{is_eq};
ghost use Rattle.ics_calendar.specs.GivenFiles.{with_file, files_by};
ghost use Rattle.ics_calendar.specs.ZoneTables.{given_by};

use ics_components::Tzid;
use ics_zone::{ZoneFile, ZoneFileFault};
use std::alloc::{AllocError, Global};
use std::collections::BTreeMap;

/// Zone files, each read once and given for a name. Contracts see what is given for each name.
#[derive(Drop)]
pub struct ZoneFiles {
    pub(crate) files: BTreeMap<Tzid, Option<ZoneFile>>,
}

/// Puts a value for a key, unless the map has one for it.
pub(crate) fn put_first<K: Ord + Drop, V: Drop>(
    map: &mut BTreeMap<K, V>,
    key: K,
    value: V,
) -> Result<(), AllocError>
    ensures put { OnOk result ((used : K) → get K.cmp map.new used
        ≡ option_or (get K.cmp map.old used) (if is_eq (K.cmp key used) then Some value else None)) }
    ensures same { OnErr result (get K.cmp map.new ≡ get K.cmp map.old) }
{
    if !map.contains_key(&key) {
        map.insert(key, value)?;
    }
    Ok(())
}

impl ZoneFiles {
    /// No file is given.
    pub fn new(alloc: Global) -> ZoneFiles
        ensures { (name : List ℕ) → given_by result name ≡ None }
    {
        ZoneFiles {
            files: BTreeMap::new(alloc),
        }
    }

    /// Gives a file for a name, unless one is given for it already. The bytes may be no zone file: then the name has a bad one.
    #[tactic(auto, using(crate::proofs::FilesGiven::ties))]
    pub fn add(&mut self, alloc: Global, name: &[u8], bytes: &[u8]) -> Result<(), AllocError>
        ensures added { OnOk result ((other : List ℕ) → given_by self.new other ≡ with_file (given_by self.old) name.now bytes.now other) }
        ensures same { OnErr result (given_by self.new ≡ given_by self.old) }
    {
        let name = Tzid::copied(alloc, name)?;
        if self.files.contains_key(&name) {
            return Ok(());
        }
        let file = match ZoneFile::read(alloc, bytes) {
            Ok(file) => Some(file),
            Err(ZoneFileFault::BadZoneFile) => None,
            Err(ZoneFileFault::Memory) => return Err(AllocError),
        };
        put_first(&mut self.files, name, file)
    }

    /// The files of these pairs of a name and bytes.
    pub(crate) fn by(alloc: Global, pairs: &[(Vec<u8>, Vec<u8>)]) -> Result<ZoneFiles, AllocError>
        ensures { IfOk result (λ files. given_by files ≡ files_by (map (λ pair. (pair.0.items, pair.1.items)) pairs.now)) }
    {
        let mut files = ZoneFiles::new(alloc);
        for pair in pairs {
            files.add(alloc, &pair.0, &pair.1)?;
        }
        Ok(files)
    }
}
