//! What the instance of a standard block keeps of its calls.

ghost use Rattle.std.specs.Prelude.{◌≡◌, [], pos, map, false, IfOk};
ghost use Rattle.std_blocks.specs.Calls.{call};
ghost use Rattle.std_blocks.specs.States.{ton_step, ton_shown, tof_step, tof_shown};
ghost use Rattle.std_blocks.specs.Edges.{trig_step, trig_shown};
ghost use Rattle.logic_cells.specs.Clocks.{showing, stepped, clock_of, clock_step};

use std::alloc::{AllocError, Global};
use std_blocks::{TofState, TonState, TrigState};

/// A standard block of IEC 61131-3: an on-delay timer, an off-delay timer, a rising-edge detector.
#[derive(Clone, Copy, Drop)]
pub enum Standard {
    Ton,
    Tof,
    RTrig,
}

/// The state of a standard block.
#[derive(Clone, Copy, Drop)]
pub enum Timer {
    Ton(TonState),
    Tof(TofState),
    Trig(TrigState),
}

/// The state of a standard block's instance, and what its outputs show since its last call: Q, and ET in milliseconds (0 for R_TRIG).
#[derive(Clone, Copy, Drop)]
pub struct Clock {
    pub timer: Timer,
    pub q: bool,
    pub et: i64,
}

impl Clock {
    /// The clock of an instance before its first call.
    pub fn new(of: Standard) -> Clock
        ensures { result ≡ clock_of of [] }
    {
        let timer = new_timer(of);
        Clock {
            timer,
            q: false,
            et: 0,
        }
    }

    /// Calls the block with IN (or CLK) and PT at a moment, PT and the moment in milliseconds. R_TRIG takes no PT.
    pub fn call(&mut self, input: bool, pt: i64, moment: u64)
        ensures { self.new ≡ clock_step (call input pt moment) self.old }
    {
        *self = clock_called(self.timer, input, pt, moment);
    }
}

fn new_timer(of: Standard) -> Timer
    ensures { record { timer = result; q = false; et = pos 0 } ≡ clock_of of [] }
{
    match of {
        Standard::Ton => Timer::Ton(TonState::new()),
        Standard::Tof => Timer::Tof(TofState::new()),
        Standard::RTrig => Timer::Trig(TrigState::new()),
    }
}

/// A clock before its first call for each standard block.
pub(crate) fn new_clocks(alloc: Global, standards: &[Standard]) -> Result<Vec<Clock>, AllocError>
    ensures { IfOk result (λ clocks. clocks.items
        ≡ map (λ standard. clock_of standard []) standards.now) }
{
    let mut clocks = Vec::new(alloc);
    for standard in standards {
        let timer = new_timer(*standard);
        clocks.push(Clock {
            timer,
            q: false,
            et: 0,
        })?;
    }
    Ok(clocks)
}

fn clock_called(timer: Timer, input: bool, pt: i64, moment: u64) -> Clock
    ensures { result ≡ stepped (call input pt moment) timer }
{
    match timer {
        Timer::Ton(state) => ton_called(state, input, pt, moment),
        Timer::Tof(state) => tof_called(state, input, pt, moment),
        Timer::Trig(state) => trig_called(state, input),
    }
}

fn ton_called(state: TonState, input: bool, pt: i64, moment: u64) -> Clock
    ensures { result
        ≡ showing (Timer.Ton (ton_step (call input pt moment) state))
        (ton_shown (call input pt moment) state) }
{
    let mut next = state;
    let (q, et) = next.call(input, pt, moment);
    Clock {
        timer: Timer::Ton(next),
        q,
        et,
    }
}

fn tof_called(state: TofState, input: bool, pt: i64, moment: u64) -> Clock
    ensures { result
        ≡ showing (Timer.Tof (tof_step (call input pt moment) state))
        (tof_shown (call input pt moment) state) }
{
    let mut next = state;
    let (q, et) = next.call(input, pt, moment);
    Clock {
        timer: Timer::Tof(next),
        q,
        et,
    }
}

fn trig_called(state: TrigState, clk: bool) -> Clock
    ensures { result ≡ showing (Timer.Trig (trig_step clk state)) (trig_shown clk state, pos 0) }
{
    let mut next = state;
    let q = next.call(clk);
    Clock {
        timer: Timer::Trig(next),
        q,
        et: 0,
    }
}
