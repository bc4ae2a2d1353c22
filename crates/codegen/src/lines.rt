//! Lines that are emitted: an instruction with its place.

ghost use Rattle.std.specs.Prelude.{◌≡◌, ◌++◌, ◌∷◌, [], IfOk};
ghost use Rattle.codegen.specs.Codes.{labels_code};

use acc_vm::Instr;
use plant_types::Place;
use st_tree::Label;
use std::alloc::AllocError;

/// Appends a line.
pub(crate) fn emit(
    out: &mut Vec<(Instr, Place)>,
    instr: Instr,
    place: Place,
) -> Result<(), AllocError>
    ensures { IfOk result (λ _. out.new.items ≡ out.old.items ++ (instr, place) ∷ []) }
{
    out.push((instr, place))?;
    Ok(())
}

/// Appends a jump for each label of a choice.
pub(crate) fn emit_labels(
    out: &mut Vec<(Instr, Place)>,
    place: Place,
    labels: &[Label],
    to: u32,
) -> Result<(), AllocError>
    ensures { IfOk result (λ _. out.new.items ≡ out.old.items ++ labels_code place labels.now to) }
{
    for label in labels {
        emit(out, Instr::JumpWithin(to, *label), place)?;
    }
    Ok(())
}
