//! Emits expressions.

ghost use Rattle.std.specs.Prelude.{◌≡◌, ◌++◌, true, IfOk};
ghost use Rattle.st_tree.specs.View.{view_expr};
ghost use Rattle.st_tree.specs.Mapping.{expr_known};
ghost use Rattle.codegen.specs.Emission as code;
ghost use Rattle.codegen.specs.Emission.{operator_code, named};
ghost use Rattle.codegen.specs.Within.{fits, has_row};
ghost use Rattle.logic_walk.specs.Walks.{slot_of};

use crate::lines::emit;
use crate::numbers::{output_instr, row_of, slot_of};
use crate::scope::PlacedRoutine;
use acc_vm::Instr;
use plant_types::{Bounds, Place};
use st_tree::{Binary, Expr};
use std::alloc::AllocError;

/// Appends the lines of an expression, which leave its value in the accumulator.
#[cycle(expr)]
pub(crate) fn emit_expr(
    scope: &PlacedRoutine<'_>,
    out: &mut Vec<(Instr, Place)>,
    place: Place,
    expr: &Expr<usize>,
) -> Result<(), AllocError>
    requires { expr_known (named scope.now) (view_expr expr.now) ≡ true }
    ensures { IfOk result (λ _. out.new.items
        ≡ out.old.items ++ code.expr_code scope.now place (view_expr expr.now)) }
{
    match expr {
        Expr::Literal(literal) => emit(out, Instr::Literal(literal.worth()), place),
        Expr::Read(variable) => {
            let slot = slot_of(scope.globals, scope.base, *variable);
            emit(out, Instr::Load(slot), place)
        }
        Expr::Output(instance, name) => {
            let load = output_instr(scope.seats, *instance, scope.base, *name);
            emit(out, load, place)
        }
        Expr::Element(array, bounds, at) => {
            let first = row_of(scope.globals, scope.base, *array, *bounds);
            emit_expr(scope, out, place, at)?;
            emit(out, Instr::LoadAt(first, *bounds), place)
        }
        Expr::Unary(op, a) => {
            emit_expr(scope, out, place, a)?;
            emit(out, Instr::Unary(*op), place)
        }
        Expr::Binary(op, a, b) => {
            emit_expr(scope, out, place, a)?;
            emit_operator(scope, out, place, *op, b)
        }
    }
}

/// Appends the lines of an operator behind those of its left operand.
#[cycle(expr)]
fn emit_operator(
    scope: &PlacedRoutine<'_>,
    out: &mut Vec<(Instr, Place)>,
    place: Place,
    op: Binary,
    right: &Expr<usize>,
) -> Result<(), AllocError>
    requires { expr_known (named scope.now) (view_expr right.now) ≡ true }
    ensures { IfOk result (λ _. out.new.items
        ≡ out.old.items
        ++ operator_code scope.now.globals scope.now.base place op (view_expr right.now)
        (code.expr_code scope.now place (view_expr right.now))) }
{
    match right {
        Expr::Literal(literal) => emit(out, Instr::BinaryLiteral(op, literal.worth()), place),
        Expr::Read(variable) => {
            let slot = slot_of(scope.globals, scope.base, *variable);
            emit(out, Instr::BinarySlot(op, slot), place)
        }
        Expr::Output(_, _) | Expr::Element(_, _, _) | Expr::Unary(_, _) | Expr::Binary(_, _, _) => {
            emit(out, Instr::Push, place)?;
            emit_expr(scope, out, place, right)?;
            emit(out, Instr::Binary(op), place)
        }
    }
}

/// Appends an assignment to an element of an array, by its number and its bounds: the index is tested before the right side is evaluated.
pub(crate) fn emit_store(
    scope: &PlacedRoutine<'_>,
    out: &mut Vec<(Instr, Place)>,
    place: Place,
    array: (usize, Bounds),
    index: &Expr<usize>,
    value: &Expr<usize>,
) -> Result<(), AllocError>
    requires row { has_row fits (slot_of scope.now.globals scope.now.base array.0) array.1 ≡ true }
    requires index { expr_known (named scope.now) (view_expr index.now) ≡ true }
    requires value { expr_known (named scope.now) (view_expr value.now) ≡ true }
    ensures { IfOk result (λ _. out.new.items
        ≡ out.old.items
        ++ code.store_code scope.now place array.0 array.1 (view_expr index.now) (view_expr value.now)) }
{
    let first = row_of(scope.globals, scope.base, array.0, array.1);
    emit_expr(scope, out, place, index)?;
    emit(out, Instr::Locate(array.1), place)?;
    emit_expr(scope, out, place, value)?;
    emit(out, Instr::StoreAt(first, array.1), place)
}
