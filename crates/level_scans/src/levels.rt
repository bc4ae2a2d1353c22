//! The programs of a plant, each in its part of the cells, and their levels.

ghost use Rattle.std.specs.Prelude.{◌≡◌, IfOk};
ghost use Rattle.std.specs.Arc.{arc_value};
ghost use Rattle.level_scans.specs.Levels.{AreLevelsOf};

use crate::parts::{parts_of, shared};
use level_jobs::{Parts, plan_of};
use level_plan::Levels;
use std::alloc::{AllocError, Global};
use std::marker::Model;
use std::sync::Arc;
use vm_carry::Framed;

/// The programs of a plant, each in its part of the cells, and the levels in which they may run together. Contracts see these.
pub struct Levelled {
    parts: Arc<Parts>,
    levels: Levels,
}

impl Drop for Levelled {
    fn drop(self) {
        let Levelled {
            parts: _,
            levels: _,
        } = self;
    }
}

impl Model for Levelled {
    ghost use Rattle.std.specs.Arc.{arc_value};
    ghost use Rattle.level_scans.specs.Levels.{PlainLevelled};

    ghost Value = { PlainLevelled };

    ghost view = { λ l. record { parts = arc_value l.parts; levels = l.levels } };
}

impl Levelled {
    /// The programs of a plant in levels. It takes time in proportion to the plant's values and to the size of its programs.
    pub fn of(alloc: Global, framed: &Framed) -> Result<Levelled, AllocError>
        ensures { IfOk result (AreLevelsOf framed.now) }
    {
        let parts = parts_of(alloc, framed)?;
        let levels = plan_of(alloc, parts.as_slice(), framed.global_cells())?;
        let parts = shared(alloc, parts)?;
        Ok(Levelled { parts, levels })
    }

    /// The programs' parts of the cells.
    pub fn parts(&self) -> &Arc<Parts>
        ensures { arc_value result.now ≡ self.now.parts }
    {
        &self.parts
    }

    /// The programs' levels.
    pub fn levels(&self) -> &Levels
        ensures { result.now ≡ self.now.levels }
    {
        &self.levels
    }
}
