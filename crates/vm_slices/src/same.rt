//! Whether cells are the same.

ghost use Rattle.std.specs.Prelude.{◌≡◌, ◌↔◌, IsTrue};

use crate::prints::same_values;
use logic_cells::{Cells, Clock, Timer};

/// Whether two states of standard blocks are the same.
fn same_timer(a: Timer, b: Timer) -> bool
    ensures { IsTrue result ↔ (a ≡ b) }
{
    match a {
        Timer::Ton(x) => match b {
            Timer::Ton(y) => x == y,
            Timer::Tof(_) | Timer::Trig(_) => false,
        },
        Timer::Tof(x) => match b {
            Timer::Tof(y) => x == y,
            Timer::Ton(_) | Timer::Trig(_) => false,
        },
        Timer::Trig(x) => match b {
            Timer::Trig(y) => x == y,
            Timer::Ton(_) | Timer::Tof(_) => false,
        },
    }
}

fn same_clock(a: &Clock, b: &Clock) -> bool
    ensures { IsTrue result ↔ (a.now ≡ b.now) }
{
    a.q == b.q && a.et == b.et && same_timer(a.timer, b.timer)
}

/// Whether two rows of clocks are the same.
fn same_clocks(a: &[Clock], b: &[Clock]) -> bool
    ensures { IsTrue result ↔ (a.now ≡ b.now) }
{
    if a.len() != b.len() {
        return false;
    }
    for (i, clock) in a.iter().enumerate() {
        if !same_clock(clock, &b[i]) {
            return false;
        }
    }
    true
}

/// Whether two cells are the same: all values, and all clocks.
pub fn same_cells(a: &Cells, b: &Cells) -> bool
    ensures { IsTrue result ↔ (a.now ≡ b.now) }
{
    same_values(a.as_slice(), b.as_slice()) && same_clocks(a.clocks(), b.clocks())
}
