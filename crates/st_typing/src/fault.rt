//! Why a plant's sources are refused.

use st_names::{Unit, UnitPlace};
use std::alloc::AllocError;

/// Why sources aren't well formed. A place is the first unit, in order of text, that has the fault.
#[derive(Clone, Copy, Drop)]
pub enum TypeFault {
    /// Allocation failed.
    Memory,
    /// C6: a name that isn't declared, or is declared twice (the later unit), or is a standard block's; an input of a call given twice, or an output
    /// taken twice.
    Name(UnitPlace),
    /// C7: something of another kind than it must have, or an assigned input; an instance or an array where a variable has to be; an instance
    /// among globals, inputs or outputs, or an array among inputs or outputs; a call of what is no instance, or an index of what is no array;
    /// an initial value of an instance, an array or a VAR_EXTERNAL; a VAR_EXTERNAL that isn't as its global.
    Kind(UnitPlace),
    /// C8: a function block that contains itself, directly or through others.
    HoldsItself(UnitPlace),
    /// C9: an initial value, or a bound or step of a FOR, that reads a variable or traps, a step 0, a control variable that isn't allowed, or an
    /// array whose low bound is above its high one.
    Constant(UnitPlace),
    /// C10: a FOR of more than 10,000 turns.
    Turns,
    /// C10: function blocks nested deeper than 16.
    BlockDepth,
    /// C10: more than 512 programs.
    Programs,
    /// C10: an array of more than 4,096 elements.
    Elements,
}

impl From<AllocError> for TypeFault {
    ghost use Rattle.std.specs.Prelude.{◌≡◌};
    ghost use Rattle.st_typing.specs.declared.fault.TypeFault.TheVariants.{Memory};

    ghost from_gives = { λ _ fault. fault ≡ Memory };

    fn from(_: AllocError) -> TypeFault {
        TypeFault::Memory
    }
}

/// Sources that aren't well formed: why, and the sources, which are given back to whom they were taken from.
pub struct Mistyped {
    pub fault: TypeFault,
    pub units: Vec<Unit>,
}

impl Drop for Mistyped {
    fn drop(self) {
        let Mistyped { fault: _, units: _ } = self;
    }
}
