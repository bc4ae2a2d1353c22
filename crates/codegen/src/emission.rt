//! Emits statements, and the bodies of the frames that they call.

ghost use Rattle.std.specs.Prelude.{◌≡◌, ◌<◌, ◌≤◌, ◌+◌, ◌^◌, ◌++◌, ◌∷◌, [], ℕ, List, length, map, Some, true, slice_get, IfOk};
ghost use Rattle.std.specs.List.{list_all};
ghost use Rattle.st_tree.specs.View.{view_argument, view_stmt, view_body, view_branch, view_branches, view_choice, view_choices};
ghost use Rattle.st_tree.specs.Mapping.{argument_known, stmt_known, body_known, expr_known, branches_known, choices_known};
ghost use Rattle.st_tree.specs.Controls.{control_values};
ghost use Rattle.acc_vm.specs.declared.instr.Instr.TheVariants.{Jump, JumpUnless};
ghost use Rattle.vm_sizes.specs.Sizes.{for_lines, frame_lines};
ghost use Rattle.codegen.specs.Codes.{Line, labels_code, for_code, IsSteady, SteadyStmt, SteadyBody, SteadyBranches, SteadyChoices};
ghost use Rattle.codegen.specs.Emission as code;
ghost use Rattle.codegen.specs.Emission.{IsPlaced, IsLaid, named, frame_code, body_long, stmt_long, call_long, enter_long, branches_long, choices_long};

use crate::arguments::{emit_inputs, emit_outputs, emit_standard};
use crate::expressions::{emit_expr, emit_store};
use crate::lines::{emit, emit_labels};
use crate::numbers::{base_of, left_of, slot_of};
use crate::scope::{PlacedFrame, PlacedRoutine};
use acc_vm::Instr;
use logic_walk::SeatOf;
use plant_types::Place;
use st_tree::{Argument, Branch, Choice, Span, Stmt, count_turns};
use std::alloc::AllocError;
use vm_sizes::{
    body_lines, branches_lines, choices_lines, constant_span, expr_lines, inputs_lines, stmt_lines,
};

/// Appends the code of a frame, from a line's number on.
#[cycle(code)]
pub(crate) fn emit_frame(
    placed: &PlacedFrame<'_>,
    out: &mut Vec<(Instr, Place)>,
    pc: u32,
) -> Result<(), AllocError>
    requires placed { IsPlaced placed.now }
    requires long { pc + frame_lines placed.now.frames.now placed.now.limit placed.now.number < 2 ^ 32 }
    ensures { IfOk result (λ _. out.new.items ≡ out.old.items ++ frame_code placed.now pc) }
{
    let frame = &placed.frames[placed.number];
    let scope = PlacedRoutine {
        frames: placed.frames,
        table: &placed.table[..placed.number],
        limit: placed.number,
        seats: &frame.seats,
        globals: placed.globals,
        base: placed.base,
        path: placed.path,
    };
    emit_body(&scope, out, &frame.body, pc)
}

#[cycle(code)]
fn emit_body(
    scope: &PlacedRoutine<'_>,
    out: &mut Vec<(Instr, Place)>,
    body: &[Stmt<usize>],
    pc: u32,
) -> Result<(), AllocError>
    requires laid { IsLaid scope.now }
    requires steady { SteadyBody (view_body body.now) }
    requires named { body_known (named scope.now) (view_body body.now) ≡ true }
    requires long { pc + body_long scope.now (view_body body.now) < 2 ^ 32 }
    ensures { IfOk result (λ _. out.new.items
        ≡ out.old.items ++ code.body_code scope.now (view_body body.now) pc) }
{
    let mut at = pc;
    for stmt in body {
        emit_stmt(scope, out, stmt, at)?;
        at += stmt_lines(scope.table, scope.seats, stmt);
    }
    Ok(())
}

/// Appends a statement.
#[cycle(code)]
fn emit_stmt(
    scope: &PlacedRoutine<'_>,
    out: &mut Vec<(Instr, Place)>,
    stmt: &Stmt<usize>,
    pc: u32,
) -> Result<(), AllocError>
    requires laid { IsLaid scope.now }
    requires steady { SteadyStmt (view_stmt stmt.now) }
    requires named { stmt_known (named scope.now) (view_stmt stmt.now) ≡ true }
    requires long { pc + stmt_long scope.now (view_stmt stmt.now) < 2 ^ 32 }
    ensures { IfOk result (λ _. out.new.items
        ≡ out.old.items ++ code.stmt_code scope.now (view_stmt stmt.now) pc) }
{
    match stmt {
        Stmt::Empty(_) => Ok(()),
        Stmt::Assign(statement, variable, expr) => {
            let place = Place {
                path: scope.path,
                statement: *statement,
            };
            let slot = slot_of(scope.globals, scope.base, *variable);
            emit_expr(scope, out, place, expr)?;
            emit(out, Instr::Store(slot), place)
        }
        Stmt::Store {
            number,
            array,
            bounds,
            index,
            value,
        } => {
            let place = Place {
                path: scope.path,
                statement: *number,
            };
            emit_store(scope, out, place, (*array, *bounds), index, value)
        }
        Stmt::Call(statement, instance, arguments) => {
            let place = Place {
                path: scope.path,
                statement: *statement,
            };
            emit_call(scope, out, place, *instance, arguments, pc)
        }
        Stmt::If(statement, branches, last) => {
            let place = Place {
                path: scope.path,
                statement: *statement,
            };
            let otherwise = body_lines(scope.table, scope.seats, last);
            let end = pc + branches_lines(scope.table, scope.seats, branches, otherwise);
            let at = emit_branches(scope, out, place, branches, pc, end)?;
            emit_body(scope, out, last, at)
        }
        Stmt::Case(statement, selector, choices, last) => {
            let place = Place {
                path: scope.path,
                statement: *statement,
            };
            emit_expr(scope, out, place, selector)?;
            let first = pc + expr_lines(selector);
            let otherwise = body_lines(scope.table, scope.seats, last);
            let end = first + choices_lines(scope.table, scope.seats, choices, otherwise);
            let at = emit_choices(scope, out, place, choices, first, end)?;
            emit_body(scope, out, last, at)
        }
        Stmt::For {
            number,
            variable,
            from,
            to,
            by,
            body,
        } => {
            let place = Place {
                path: scope.path,
                statement: *number,
            };
            let slot = slot_of(scope.globals, scope.base, *variable);
            match constant_span(from, to, by) {
                Some(span) => emit_loop(scope, out, place, slot, span, body, pc),
                None => Ok(()),
            }
        }
    }
}

/// Appends a call: its inputs, what the instance is of, and its outputs.
#[cycle(code)]
fn emit_call(
    scope: &PlacedRoutine<'_>,
    out: &mut Vec<(Instr, Place)>,
    place: Place,
    instance: usize,
    arguments: &[Argument<usize>],
    pc: u32,
) -> Result<(), AllocError>
    requires laid { IsLaid scope.now }
    requires there { (named scope.now).has_instance instance ≡ true }
    requires named { list_all (argument_known (named scope.now) instance)
        (map view_argument arguments.now) ≡ true }
    requires long { pc + call_long scope.now (slice_get scope.now.seats.now instance)
        (map view_argument arguments.now) < 2 ^ 32 }
    ensures { IfOk result (λ _. out.new.items
        ≡ out.old.items
        ++ code.call_code scope.now place (slice_get scope.now.seats.now instance)
        (map view_argument arguments.now) pc) }
{
    emit_inputs(scope, out, place, instance, arguments)?;
    let at = pc + inputs_lines(scope.seats, instance, arguments);
    emit_enter(scope, out, place, instance, at)?;
    emit_outputs(scope, out, place, instance, arguments)
}

/// Appends what an instance is of: the call of a standard block's clock, or the code of a frame at the instance's base.
#[cycle(code)]
fn emit_enter(
    scope: &PlacedRoutine<'_>,
    out: &mut Vec<(Instr, Place)>,
    place: Place,
    instance: usize,
    pc: u32,
) -> Result<(), AllocError>
    requires laid { IsLaid scope.now }
    requires named { (named scope.now).has_instance instance ≡ true }
    requires long { pc + enter_long scope.now (slice_get scope.now.seats.now instance) < 2 ^ 32 }
    ensures { IfOk result (λ _. out.new.items
        ≡ out.old.items ++ code.enter_code scope.now place (slice_get scope.now.seats.now instance) pc) }
{
    match scope.seats.get(instance) {
        Some(seat) => match seat.of {
            SeatOf::Standard(of) => emit_standard(scope, out, place, seat, of),
            SeatOf::Frame(k) => {
                if !seat.is_called || k >= scope.limit {
                    return Ok(());
                }
                let placed = PlacedFrame {
                    frames: scope.frames,
                    table: scope.table,
                    limit: scope.limit,
                    number: k,
                    globals: scope.globals,
                    base: base_of(scope.base, seat),
                    path: scope.path + seat.paths,
                };
                emit_frame(&placed, out, pc)
            }
        },
        None => Ok(()),
    }
}

/// Appends the branches of an IF, whose end is at a line. Returns the line at which what is done where none is taken begins.
#[cycle(code)]
fn emit_branches(
    scope: &PlacedRoutine<'_>,
    out: &mut Vec<(Instr, Place)>,
    place: Place,
    branches: &[Branch<usize>],
    pc: u32,
    end: u32,
) -> Result<u32, AllocError>
    requires laid { IsLaid scope.now }
    requires steady { SteadyBranches (view_branches branches.now) }
    requires named { branches_known (named scope.now) (view_branches branches.now) ≡ true }
    requires long { (n : ℕ) × (pc + branches_long scope.now (view_branches branches.now) n ≡ end) }
    ensures { IfOk result (λ at. (last : ℕ → List Line) (n : ℕ)
        → pc + branches_long scope.now (view_branches branches.now) n ≡ end
        → (at + n ≡ end)
        × (out.new.items ++ last at
        ≡ out.old.items ++ code.branches_code scope.now place (view_branches branches.now) last n pc)) }
{
    let mut at = pc;
    for branch in branches {
        let body = at + expr_lines(&branch.test) + 1;
        let next = body + body_lines(scope.table, scope.seats, &branch.body) + 1;
        emit_branch(scope, out, place, branch, body, next, end)?;
        at = next;
    }
    Ok(at)
}

/// Appends a branch of an IF, by the lines at which its body, the next branch and the end of the IF are.
#[cycle(code)]
fn emit_branch(
    scope: &PlacedRoutine<'_>,
    out: &mut Vec<(Instr, Place)>,
    place: Place,
    branch: &Branch<usize>,
    body: u32,
    next: u32,
    end: u32,
) -> Result<(), AllocError>
    requires laid { IsLaid scope.now }
    requires steady { SteadyBody (view_branch branch.now).1 }
    requires test { expr_known (named scope.now) (view_branch branch.now).0 ≡ true }
    requires named { body_known (named scope.now) (view_branch branch.now).1 ≡ true }
    requires long { body + body_long scope.now (view_branch branch.now).1 < 2 ^ 32 }
    ensures { IfOk result (λ _. out.new.items
        ≡ out.old.items
        ++ (code.expr_code scope.now place (view_branch branch.now).0
        ++ ((JumpUnless next, place)
        ∷ (code.body_code scope.now (view_branch branch.now).1 body ++ (Jump end, place) ∷ [])))) }
{
    emit_expr(scope, out, place, &branch.test)?;
    emit(out, Instr::JumpUnless(next), place)?;
    emit_body(scope, out, &branch.body, body)?;
    emit(out, Instr::Jump(end), place)
}

/// Appends the choices of a CASE, whose end is at a line. Returns the line at which what is done where none fits begins. A choice without a
/// label has no line.
#[cycle(code)]
fn emit_choices(
    scope: &PlacedRoutine<'_>,
    out: &mut Vec<(Instr, Place)>,
    place: Place,
    choices: &[Choice<usize>],
    pc: u32,
    end: u32,
) -> Result<u32, AllocError>
    requires laid { IsLaid scope.now }
    requires steady { SteadyChoices (view_choices choices.now) }
    requires named { choices_known (named scope.now) (view_choices choices.now) ≡ true }
    requires long { (n : ℕ) × (pc + choices_long scope.now (view_choices choices.now) n ≡ end) }
    ensures { IfOk result (λ at. (last : ℕ → List Line) (n : ℕ)
        → pc + choices_long scope.now (view_choices choices.now) n ≡ end
        → (at + n ≡ end)
        × (out.new.items ++ last at
        ≡ out.old.items ++ code.choices_code scope.now place (view_choices choices.now) last n pc)) }
{
    let mut at = pc;
    for choice in choices {
        let labels = choice.labels.len();
        if labels > 0 {
            let body = at + labels as u32 + 1;
            let next = body + body_lines(scope.table, scope.seats, &choice.body) + 1;
            emit_choice(scope, out, place, choice, body, next, end)?;
            at = next;
        }
    }
    Ok(at)
}

/// Appends a choice of a CASE, by the lines at which its body, the next choice and the end of the CASE are.
#[cycle(code)]
fn emit_choice(
    scope: &PlacedRoutine<'_>,
    out: &mut Vec<(Instr, Place)>,
    place: Place,
    choice: &Choice<usize>,
    body: u32,
    next: u32,
    end: u32,
) -> Result<(), AllocError>
    requires laid { IsLaid scope.now }
    requires steady { SteadyBody (view_choice choice.now).1 }
    requires named { body_known (named scope.now) (view_choice choice.now).1 ≡ true }
    requires long { body + body_long scope.now (view_choice choice.now).1 < 2 ^ 32 }
    ensures { IfOk result (λ _. out.new.items
        ≡ out.old.items
        ++ (labels_code place (view_choice choice.now).0 body
        ++ ((Jump next, place)
        ∷ (code.body_code scope.now (view_choice choice.now).1 body ++ (Jump end, place) ∷ [])))) }
{
    emit_labels(out, place, &choice.labels, body)?;
    emit(out, Instr::Jump(next), place)?;
    emit_body(scope, out, &choice.body, body)?;
    emit(out, Instr::Jump(end), place)
}

/// Appends a FOR of a span; nothing if it has no turn.
#[cycle(code)]
fn emit_loop(
    scope: &PlacedRoutine<'_>,
    out: &mut Vec<(Instr, Place)>,
    place: Place,
    slot: u32,
    span: Span,
    body: &[Stmt<usize>],
    pc: u32,
) -> Result<(), AllocError>
    requires laid { IsLaid scope.now }
    requires dints { IsSteady (Some span) }
    requires steady { SteadyBody (view_body body.now) }
    requires named { body_known (named scope.now) (view_body body.now) ≡ true }
    requires long { pc + for_lines (length (control_values span))
        (body_long scope.now (view_body body.now)) < 2 ^ 32 }
    ensures { IfOk result (λ _. out.new.items
        ≡ out.old.items
        ++ for_code place slot (Some span) (code.body_code scope.now (view_body body.now)) pc) }
{
    let turns = count_turns(span);
    if turns == 0 {
        return Ok(());
    }
    let left = left_of(turns - 1);
    let first = pc + 1;
    emit(
        out,
        Instr::Begin {
            slot,
            first: span.from,
            left,
        },
        place,
    )?;
    emit_body(scope, out, body, first)?;
    emit(
        out,
        Instr::Turn {
            slot,
            step: span.step,
            to: first,
        },
        place,
    )
}
