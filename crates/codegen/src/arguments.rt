//! Emits what stands around a call: its inputs, its outputs, and the call of a standard block.

ghost use Rattle.std.specs.Prelude.{◌≡◌, ◌+◌, ◌++◌, ◌∷◌, [], map, true, slice_get, IfOk};
ghost use Rattle.std.specs.List.{list_all};
ghost use Rattle.st_tree.specs.View.{view_argument};
ghost use Rattle.st_tree.specs.Mapping.{argument_known};
ghost use Rattle.acc_vm.specs.declared.instr.Instr.TheVariants.{Enter};
ghost use Rattle.logic_walk.specs.Walks.{member_slot};
ghost use Rattle.codegen.specs.Codes.{put_code, pt_instr};
ghost use Rattle.codegen.specs.Emission as code;
ghost use Rattle.codegen.specs.Emission.{named};
ghost use Rattle.codegen.specs.Within.{fits, has_input, has_pt};

use crate::expressions::emit_expr;
use crate::lines::emit;
use crate::numbers::{clock_of, member_slot, output_instr, pt_instr, slot_of};
use crate::scope::PlacedRoutine;
use acc_vm::Instr;
use logic_cells::Standard;
use logic_walk::Seat;
use plant_types::Place;
use st_tree::Argument;
use std::alloc::AllocError;

/// Appends what gives the accumulator to an input of an instance; nothing for an instance that isn't there.
fn emit_put(
    scope: &PlacedRoutine<'_>,
    out: &mut Vec<(Instr, Place)>,
    place: Place,
    instance: usize,
    name: usize,
) -> Result<(), AllocError>
    requires { has_input fits fits (slice_get scope.now.seats.now instance) scope.now.base name ≡ true }
    ensures { IfOk result (λ _. out.new.items
        ≡ out.old.items ++ put_code (slice_get scope.now.seats.now instance) scope.now.base place name) }
{
    match scope.seats.get(instance) {
        Some(seat) => {
            let slot = member_slot(scope.base, seat, name);
            emit(out, Instr::Store(slot), place)
        }
        None => Ok(()),
    }
}

/// Appends the inputs of a call, as written.
pub(crate) fn emit_inputs(
    scope: &PlacedRoutine<'_>,
    out: &mut Vec<(Instr, Place)>,
    place: Place,
    instance: usize,
    arguments: &[Argument<usize>],
) -> Result<(), AllocError>
    requires { list_all (argument_known (named scope.now) instance) (map view_argument arguments.now)
        ≡ true }
    ensures { IfOk result (λ _. out.new.items
        ≡ out.old.items
        ++ code.inputs_code scope.now place (slice_get scope.now.seats.now instance)
        (map view_argument arguments.now)) }
{
    for argument in arguments {
        if let Argument::Input(name, expr) = argument {
            emit_expr(scope, out, place, expr)?;
            emit_put(scope, out, place, instance, *name)?;
        }
    }
    Ok(())
}

/// Appends the outputs of a call, as written.
pub(crate) fn emit_outputs(
    scope: &PlacedRoutine<'_>,
    out: &mut Vec<(Instr, Place)>,
    place: Place,
    instance: usize,
    arguments: &[Argument<usize>],
) -> Result<(), AllocError>
    requires { list_all (argument_known (named scope.now) instance) (map view_argument arguments.now)
        ≡ true }
    ensures { IfOk result (λ _. out.new.items
        ≡ out.old.items
        ++ code.outputs_code scope.now place (slice_get scope.now.seats.now instance)
        (map view_argument arguments.now)) }
{
    for argument in arguments {
        if let Argument::Output(name, variable) = argument {
            let load = output_instr(scope.seats, instance, scope.base, *name);
            let slot = slot_of(scope.globals, scope.base, *variable);
            emit(out, load, place)?;
            emit(out, Instr::Store(slot), place)?;
        }
    }
    Ok(())
}

/// Appends the call of a standard block's clock.
pub(crate) fn emit_standard(
    scope: &PlacedRoutine<'_>,
    out: &mut Vec<(Instr, Place)>,
    place: Place,
    seat: &Seat,
    of: Standard,
) -> Result<(), AllocError>
    requires clock { fits (scope.now.base.clocks + seat.now.clocks) ≡ true }
    requires input { fits (member_slot scope.now.base seat.now 0) ≡ true }
    requires pt { has_pt fits fits of scope.now.base seat.now ≡ true }
    ensures { IfOk result (λ _. out.new.items
        ≡ out.old.items
        ++ ((pt_instr of scope.now.base seat.now, place)
        ∷ ((
          Enter (scope.now.base.clocks + seat.now.clocks) (member_slot scope.now.base seat.now 0),
          place,
        ) ∷ []))) }
{
    let load = pt_instr(of, scope.base, seat);
    let clock = clock_of(scope.base, seat);
    let input = member_slot(scope.base, seat, 0);
    emit(out, load, place)?;
    emit(out, Instr::Enter { clock, input }, place)
}
