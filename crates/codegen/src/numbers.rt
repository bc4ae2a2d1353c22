//! Numbers of slots and clocks, and the bases of instances.

ghost use Rattle.std.specs.Prelude.{◌≡◌, ◌<◌, ℕ, ◌+◌, ◌^◌, pos, true, slice_get};
ghost use Rattle.logic_walk.specs.Walks.{HasRoom, slot_of, member_slot, base_of};
ghost use Rattle.codegen.specs.Codes.{output_instr, pt_instr};
ghost use Rattle.codegen.specs.Within.{fits, has_row, has_output, has_pt};

use acc_vm::Instr;
use logic_cells::Standard;
use logic_walk::{Base, Seat, SeatOf};
use plant_types::Bounds;

/// The turns that are left after the first one, as a word.
pub(crate) fn left_of(turns: u128) -> i64
    requires { turns < 2 ^ 63 }
    ensures { result ≡ pos turns }
{
    turns as i64
}

pub(crate) fn slot_of(globals: usize, base: Base, variable: usize) -> u32
    requires { fits (slot_of globals base variable) ≡ true }
    ensures { result ≡ slot_of globals base variable }
{
    if variable < globals {
        variable as u32
    } else {
        (base.values + (variable - globals) as u128) as u32
    }
}

/// The slot of the first element of an array.
pub(crate) fn row_of(globals: usize, base: Base, array: usize, bounds: Bounds) -> u32
    requires { has_row fits (slot_of globals base array) bounds ≡ true }
    ensures { result ≡ slot_of globals base array }
{
    slot_of(globals, base, array)
}

/// The slot of an input or output of an instance.
pub(crate) fn member_slot(base: Base, seat: &Seat, name: usize) -> u32
    requires { fits (member_slot base seat.now name) ≡ true }
    ensures { result ≡ member_slot base seat.now name }
{
    (base.values + seat.values as u128 + name as u128) as u32
}

pub(crate) fn clock_of(base: Base, seat: &Seat) -> u32
    requires { fits (base.clocks + seat.now.clocks) ≡ true }
    ensures { result ≡ base.clocks + seat.now.clocks }
{
    (base.clocks + seat.clocks as u128) as u32
}

/// Where the values and the clocks of an instance begin.
pub(crate) fn base_of(base: Base, seat: &Seat) -> Base
    requires { HasRoom base 1 }
    ensures is { result ≡ base_of base seat.now }
    ensures room { (calls : ℕ) → HasRoom base (calls + 1) → HasRoom result calls }
{
    Base {
        values: base.values + seat.values as u128,
        clocks: base.clocks + seat.clocks as u128,
    }
}

pub(crate) fn output_instr(seats: &[Seat], instance: usize, base: Base, name: usize) -> Instr
    requires { has_output fits fits (slice_get seats.now instance) base name ≡ true }
    ensures { result ≡ output_instr (slice_get seats.now instance) base name }
{
    match seats.get(instance) {
        Some(seat) => match seat.of {
            SeatOf::Standard(_) => {
                let clock = clock_of(base, seat);
                if name > 0 {
                    Instr::ClockEt(clock)
                } else {
                    Instr::ClockQ(clock)
                }
            }
            SeatOf::Frame(_) => Instr::Load(member_slot(base, seat, name)),
        },
        None => Instr::Literal(0),
    }
}

/// What loads PT of a standard block's instance; R_TRIG has none.
pub(crate) fn pt_instr(of: Standard, base: Base, seat: &Seat) -> Instr
    requires { has_pt fits fits of base seat.now ≡ true }
    ensures { result ≡ pt_instr of base seat.now }
{
    match of {
        Standard::Ton | Standard::Tof => Instr::Load(member_slot(base, seat, 1)),
        Standard::RTrig => Instr::Literal(0),
    }
}
