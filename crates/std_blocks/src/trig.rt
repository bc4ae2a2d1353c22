ghost use Rattle.std.specs.Prelude.{◌≡◌, [], ◌∷◌, List, Bool};
ghost use Rattle.std_blocks.specs.Edges.{r_trig, trig_state, trig_step, trig_shown};

use std::marker::Model;

/// The state of a rising-edge detector (IEC 61131-3's R_TRIG): CLK of the last call.
#[derive(Clone, Copy, PartialEq, Eq, Drop)]
pub struct TrigState {
    last: bool,
}

impl Model for TrigState {
    ghost use Rattle.std_blocks.specs.Edges.{PlainTrigState};

    ghost Value = { PlainTrigState };

    ghost view = { λ s. record { last = s.last } };

    ghost inverse = { λ s. record { last = s.last } };
}

impl TrigState {
    /// The state before the first call, as if CLK had been FALSE. Q is FALSE until then.
    pub fn new() -> TrigState
        ensures { result ≡ trig_state [] }
    {
        TrigState { last: false }
    }

    /// Calls the detector with CLK and returns Q: TRUE where CLK is TRUE and was FALSE in the call before, or there was none.
    pub fn call(&mut self, clk: bool) -> bool
        ensures step { self.new ≡ trig_step clk self.old }
        ensures shown { result ≡ trig_shown clk self.old }
        ensures output { (clks : List Bool) → self.old ≡ trig_state clks → result ≡ r_trig (clk ∷ clks) }
        ensures state { (clks : List Bool) → self.old ≡ trig_state clks
            → self.new ≡ trig_state (clk ∷ clks) }
    {
        let rises = clk && !self.last;
        self.last = clk;
        rises
    }
}
