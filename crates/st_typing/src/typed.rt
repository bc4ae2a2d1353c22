//! Sources that are well formed.

ghost use Rattle.std.specs.Prelude.{◌≡◌, map};
ghost use Rattle.st_blocks.specs.Blocks.{AreOrdered};
ghost use Rattle.st_names.specs.Units.{view_unit};
ghost use Rattle.st_typing.specs.Blocks.{blocks_of};
ghost use Rattle.st_typing.specs.Faults.{AreTyped, IsTyped};

use st_names::Unit;
use std::marker::Model;

/// The sources of a plant, well formed: each name in them stands for something, each expression has the kind that it must have, no
/// function block holds itself, initial values and the bounds of FOR are constant, and the limits are kept. It owns the sources. Contracts see
/// these.
pub struct Typed {
    units: Vec<Unit>,
    order: Vec<usize>,
}

impl Drop for Typed {
    fn drop(self) {
        let Typed { units: _, order: _ } = self;
    }
}

impl Model for Typed {
    ghost use Rattle.std.specs.Prelude.{List, map};
    ghost use Rattle.st_names.specs.Units.{PlainUnit, view_unit};
    ghost use Rattle.st_names.specs.Code.{units_code};
    ghost use Rattle.st_typing.specs.Faults.{IsTyped};

    ghost Value = { List PlainUnit };

    ghost coded = { units_code };

    ghost view = { λ typed. map view_unit typed.units.items };

    ghost invariant = { λ typed. IsTyped (map view_unit typed.units.items) typed.order.items };
}

impl Typed {
    /// Well-formed sources, with an order of their function blocks.
    pub(crate) fn new(units: Vec<Unit>, order: Vec<usize>) -> Typed
        requires { IsTyped (map view_unit units.items) order.items }
        ensures { result ≡ map view_unit units.items }
    {
        Typed { units, order }
    }

    /// The sources.
    pub fn units(&self) -> &[Unit]
        ensures units { map view_unit result.now ≡ self.now }
        ensures typed { AreTyped self.now }
    {
        self.units.as_slice()
    }

    /// The numbers of the function blocks, from 0 in their order of text, each after those that it declares.
    pub fn order(&self) -> &[usize]
        ensures { AreOrdered (blocks_of self.now) result.now }
    {
        self.order.as_slice()
    }

    /// The sources and the order of their function blocks, apart: the sources are moved out, and nothing of them is copied.
    pub fn into_parts(self) -> (Vec<Unit>, Vec<usize>)
        ensures units { map view_unit result.0.items ≡ self }
        ensures typed { AreTyped self }
        ensures order { AreOrdered (blocks_of self) result.1.items }
    {
        let Typed { units, order } = self;
        (units, order)
    }
}
