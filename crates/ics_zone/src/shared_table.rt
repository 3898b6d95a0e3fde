//! Tables of zone files, which zones share.
ghost use Rattle.std.specs.Prelude.{◌≡◌, IfOk};
ghost use Rattle.jiff_tz.specs.Tzif.{tzif_view};
ghost use Rattle.ics_zone.specs.Bounds.{HasBounds};
ghost use Rattle.ics_zone.specs.ZoneFiles.{file_offset, file_moment};

use crate::Bounds;
use jiff::tz::Tzif;
use std::alloc::{AllocError, Global};
use std::marker::Model;
use std::rc::Rc;

/// The table of a zone file, held once for all zones of the file, with two offsets between which its clock stays. Contracts see the table.
#[derive(Drop)]
pub(crate) struct SharedTable {
    table: Rc<Tzif>,
    bounds: Bounds,
    alloc: Global,
}

impl Model for SharedTable {
    ghost use Rattle.jiff_tz.specs.declared.tzif.Tzif.{Tzif};

    ghost Value = { Tzif };

    ghost use Rattle.jiff_tz.specs.Tzif.{tzif_view};
    ghost use Rattle.ics_zone.specs.Bounds.{HasBounds};
    ghost use Rattle.ics_zone.specs.ZoneFiles.{file_offset, file_moment};

    ghost view = { λ a. a.table.value };

    ghost invariant = { λ a. HasBounds (file_offset (tzif_view a.table.value)) (file_moment (tzif_view a.table.value)) a.bounds.least a.bounds.most };
}

impl SharedTable {
    /// The table, to be shared.
    pub fn new(alloc: Global, table: Tzif) -> Result<SharedTable, AllocError>
        ensures { IfOk result (λ shared. shared ≡ table) }
    {
        let bounds = Bounds::of_table(&table);
        match Rc::new(alloc, table) {
            Ok(table) => Ok(SharedTable {
                table,
                bounds,
                alloc,
            }),
            Err(_) => Err(AllocError),
        }
    }

    /// The same table, in the same memory.
    pub fn share(&self) -> Result<SharedTable, AllocError>
        ensures { IfOk result (λ shared. shared ≡ self.now) }
    {
        Ok(SharedTable {
            table: self.table.clone()?,
            bounds: self.bounds,
            alloc: self.alloc,
        })
    }

    /// The table.
    pub fn get(&self) -> &Tzif
        ensures { result.now ≡ self.now }
    {
        &self.table
    }

    /// Where the table is held.
    pub fn alloc(&self) -> Global {
        self.alloc
    }

    /// Two offsets between which all others lie.
    pub fn bounds(&self) -> Bounds
        ensures { HasBounds (file_offset (tzif_view self.now)) (file_moment (tzif_view self.now)) result.least result.most }
    {
        self.bounds
    }
}
