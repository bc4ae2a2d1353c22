//! A reload that was made ready, and what is told of it.

ghost use Rattle.std.specs.Prelude.{◌≡◌};

use engine_system::{EngineFault, Plant, ReadyReload};
use std::marker::Model;

/// A reload that was made ready to be committed.
pub struct PreparedReload {
    pub(crate) plant: Plant,
    pub(crate) ready: ReadyReload,
}

impl Drop for PreparedReload {
    fn drop(self) {
        let PreparedReload { plant: _, ready: _ } = self;
    }
}

impl Model for PreparedReload {
    ghost use Rattle.std.specs.Coded.{codes};
    ghost use Rattle.engine_system.specs.Code.{plant_code};
    ghost use Rattle.engine.specs.Engines.{PlainPreparedReload};

    ghost Value = { PlainPreparedReload };

    ghost coded = { Prim.hlevel (codes, plant_code) };

    ghost view = { λ p. record { plant = p.plant; state = p.ready.state; kept = p.ready.kept; fresh = p.ready.fresh } };
}

impl PreparedReload {
    /// The plant.
    pub fn plant(&self) -> &Plant
        ensures { result.now ≡ self.now.plant }
    {
        &self.plant
    }

    /// The plant alone: the reload isn't made.
    pub fn into_plant(self) -> Plant
        ensures { result ≡ self.plant }
    {
        let PreparedReload { plant, ready } = self;
        drop(ready);
        plant
    }

    /// The plant, and what was made ready of it, apart.
    pub(crate) fn into_parts(self) -> (Plant, ReadyReload)
        ensures plant { result.0 ≡ self.plant }
        ensures state { result.1.state ≡ self.state }
        ensures kept { result.1.kept ≡ self.kept }
        ensures fresh { result.1.fresh ≡ self.fresh }
    {
        let PreparedReload { plant, ready } = self;
        (plant, ready)
    }
}

/// What a reload did to the alarms of the new plant.
#[derive(Clone, Copy, Drop)]
pub struct Reloaded {
    /// How many kept their states.
    pub kept: u32,
    /// How many are new.
    pub fresh: u32,
}

/// A reload that was refused.
pub struct ReloadRefused {
    /// The plant, which is handed back.
    pub plant: Plant,
    /// Why.
    pub fault: EngineFault,
}

impl Drop for ReloadRefused {
    fn drop(self) {
        let ReloadRefused { plant: _, fault: _ } = self;
    }
}
