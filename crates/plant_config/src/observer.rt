//! Who sees the units of a plant's sources while it is read.

ghost use Rattle.std.specs.Prelude.{map};
ghost use Rattle.st_parser.specs.Units.{view_unit};
ghost use Rattle.st_sources.specs.Sources.{HaveUnits};
ghost use Rattle.vm_logic.specs.Faults.{AreTyped};

use st_parser::Unit;
use std::alloc::Global;

/// Who sees the units of a plant's sources while it is read, so that no source is parsed twice for what a person is told. What an observer does changes no
/// plant.
pub trait Observer {
    /// Sees the sources, each by its name and its text, and their units, which are well formed. Limits and alarms are judged later, so the plant may still be
    /// refused.
    fn typed(&mut self, alloc: Global, sources: &[(&str, &[u8])], units: &[Unit])
        requires spelled { HaveUnits (map (λ s. s.1.now) sources.now) (map view_unit units.now) }
        requires typed { AreTyped (map view_unit units.now) };
}

/// The observer where nobody looks on.
#[derive(Clone, Copy, Drop)]
pub struct Nobody;

impl Observer for Nobody {
    fn typed(&mut self, _alloc: Global, _sources: &[(&str, &[u8])], _units: &[Unit]) {}
}
