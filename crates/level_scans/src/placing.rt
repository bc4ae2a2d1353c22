//! Faults by the paths of the plant.

ghost use Rattle.std.specs.Prelude.{◌≡◌, map, All, OnOk};
ghost use Rattle.level_scans.specs.Faults.{IsOfProgram, placed_fault};

use level_jobs::ProgramFault;
use plant_types::{Place, Trap};
use std::alloc::AllocError;
use vm_carry::Framed;

/// A fault, with the number that its path has among those of all programs.
fn placed(framed: &Framed, fault: &ProgramFault) -> (Place, Trap)
    requires { IsOfProgram framed.now fault.now }
    ensures { result ≡ placed_fault framed.now fault.now }
{
    let place = fault.stop.place;
    let base = framed.path_base(fault.program as usize);
    let placed = Place {
        path: base + place.path,
        statement: place.statement,
    };
    (placed, fault.stop.trap)
}

/// Lists faults, with the numbers that their paths have among those of all programs, in place of those listed before.
pub fn list_placed(
    framed: &Framed,
    faults: &[ProgramFault],
    all: &mut Vec<(Place, Trap)>,
) -> Result<(), AllocError>
    requires { All (λ fault. IsOfProgram framed.now fault) faults.now }
    ensures { OnOk result (all.new.items ≡ map (placed_fault framed.now) faults.now) }
{
    all.clear();
    for fault in faults {
        all.push(placed(framed, fault))?;
    }
    Ok(())
}
