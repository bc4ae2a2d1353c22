use crate::values::Given;
use std::marker::Model;

/// A name and the value given for it: one part of a scan's image. Contracts see the name's bytes.
pub struct Pair {
    pub name: String,
    pub given: Given,
}

impl Drop for Pair {
    fn drop(self) {
        let Pair { name: _, given: _ } = self;
    }
}

impl Model for Pair {
    ghost use Rattle.plant_types.specs.Pairs.{PlainPair};
    ghost use Rattle.std.specs.Prelude.{string_bytes};

    ghost Value = { PlainPair };

    ghost view = { λ p. record { name = string_bytes p.name; given = p.given } };
}
