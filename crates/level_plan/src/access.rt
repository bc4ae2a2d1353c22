//! What programs read and write.

ghost use Rattle.std.specs.Prelude.{◌≤◌, ◌+◌, ◌↔◌, IsTrue, All};
ghost use Rattle.level_plan.specs.Accesses.{EndsWithin, StaysWithin, StayWithin};

use std::marker::Model;

/// Globals that stand one after another: the number of the first one, and how many they are.
#[derive(Clone, Copy, Drop)]
pub struct Extent {
    pub first: u32,
    pub count: u32,
}

/// The globals that a program reads and those that it writes, each in one extent or more. Contracts see them as `PlainAccess`.
pub struct Access {
    pub reads: Vec<Extent>,
    pub writes: Vec<Extent>,
}

impl Drop for Access {
    fn drop(self) {
        let Access {
            reads: _,
            writes: _,
        } = self;
    }
}

impl Model for Access {
    ghost use Rattle.level_plan.specs.Accesses.{PlainAccess};

    ghost Value = { PlainAccess };

    ghost view = { λ a. record { reads = a.reads.items; writes = a.writes.items } };
}

/// Whether the globals of each of some extents are below a number.
fn end_within(globals: usize, extents: &[Extent]) -> bool
    ensures { IsTrue result ↔ All (λ extent. EndsWithin globals extent) extents.now }
{
    extents.iter().all(|extent| extent.first as usize + extent.count as usize <= globals)
}

/// Whether each global that a program reads or writes is below a number.
fn stays_within(globals: usize, access: &Access) -> bool
    ensures { IsTrue result ↔ StaysWithin globals access.now }
{
    end_within(globals, &access.reads) && end_within(globals, &access.writes)
}

/// Whether each global that some programs read or write is one of so many.
pub fn stay_within(globals: usize, programs: &[Access]) -> bool
    ensures { IsTrue result ↔ StayWithin globals programs.now }
{
    for access in programs {
        if !stays_within(globals, access) {
            return false;
        }
    }
    true
}
