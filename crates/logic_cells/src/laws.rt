//! A law of the definitions. The function does nothing: it has the law as its contract, for the crates above.

ghost use Rattle.std.specs.Prelude.{◌≡◌, ◌∷◌, List};
ghost use Rattle.std_blocks.specs.Calls.{Call};
ghost use Rattle.logic_cells.specs.declared.clock.Standard.{Standard};
ghost use Rattle.logic_cells.specs.Clocks.{clock_of, clock_step};

/// A clock that stands for all calls of a standard block's instance stands, after a call, for these and that one.
pub fn called_clock()
    ensures { (of : Standard) (c : Call) (calls : List Call)
        → clock_step c (clock_of of calls) ≡ clock_of of (c ∷ calls) }
{}
