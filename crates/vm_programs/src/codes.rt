//! Makes the codes of programs.

ghost use Rattle.std.specs.Prelude.{◌≡◌, ◌+◌, ◌<◌, ◌≤◌, ◌++◌, ◌∷◌, [], get_or, length, IfOk};
ghost use Rattle.logic_walk.specs.declared.frame.Frame.{Frame};
ghost use Rattle.logic_walk.specs.Frames.{AreInTurn};
ghost use Rattle.codegen.specs.Sizes.{frame_cost};
ghost use Rattle.codegen.specs.Count.{Count};
ghost use Rattle.codegen.specs.Counts.{HasFewLines, AreCounts};
ghost use Rattle.codegen.specs.Codes.{program_base, code_of, AreSteady};
ghost use Rattle.codegen.specs.Within.{NamesFit};
ghost use Rattle.logic_walk.specs.Plain.{view_frame};
ghost use Rattle.vm_programs.specs.Folded.{folded_frame};
ghost use Rattle.vm_programs.specs.Codes.{IsCodeOf, AreCodes, AllNamesFit, AreSmall, CostNoMore, ProgramsUseFirst};

use crate::folding::{fold_frame, fold_frames};
use acc_vm::Code;
use codegen::{FrameCounts, PlacedProgram, compile_counted, count_frame, count_frames};
use const_fold::{
    folded_body_costs_at_most, folded_body_does_same, folded_body_weighs_at_most,
    folded_constants_are_literals, folded_names_stay,
};
use logic_cells::Cells;
use logic_walk::Frame;
use std::alloc::{AllocError, Global};

/// Folds a program's frame, and puts it and its counts behind those of a table.
fn push_program(
    alloc: Global,
    program: Frame,
    folded: &mut Vec<Frame>,
    counts: &mut FrameCounts,
) -> Result<(), AllocError>
    requires counted { AreCounts folded.old.items counts.old }
    requires few { (last : Frame) → view_frame last ≡ folded_frame (view_frame program)
        → HasFewLines (folded.old.items ++ last ∷ []) }
    ensures folded { IfOk result (λ _. (last : Frame)
        × (folded.new.items ≡ folded.old.items ++ last ∷ [])
        × (view_frame last ≡ folded_frame (view_frame program))) }
    ensures counts { IfOk result (λ _. (count : Count)
        × (counts.new.frames.items ≡ counts.old.frames.items ++ count ∷ [])) }
    ensures counted { IfOk result (λ _. AreCounts folded.new.items counts.new) }
{
    let last = fold_frame(alloc, program)?;
    let count = count_frame(&counts.frames, &last);
    counts.frames.push(count)?;
    folded.push(last)?;
    Ok(())
}

/// The code of a program, by the folded frames of its table. Fails as `codes_of` does.
fn code_of(
    alloc: Global,
    folded: &[Frame],
    counts: &FrameCounts,
    program: PlacedProgram,
) -> Result<Code, AllocError>
    requires there { program.first < length folded.now }
    requires counted { AreCounts folded.now counts.now }
    requires in_turn { AreInTurn folded.now }
    requires steady { AreSteady folded.now }
    requires named { NamesFit program.globals folded.now program.first (program_base program) }
    requires few { HasFewLines folded.now }
    requires cost { frame_cost folded.now (length folded.now) program.first ≤ program.cost }
    ensures runs { IfOk result
        (IsCodeOf folded.now program.globals program.first (program_base program) program.cost) }
    ensures is { IfOk result (λ code. code
        ≡ code_of program.globals folded.now program.first (program_base program) program.cost) }
{
    let code = compile_counted(alloc, folded, counts, program)?;
    Ok(code)
}

/// The codes of the programs of a table, which are its frames from a number on, in their order. The rows have the numbers at which the values and the
/// clocks of each program begin, and behind them where those of the last one end. The costs are told by the codes: no program costs more before its
/// constants are folded. Each slot and each clock that a program names is to be a number of 32 bits, and each frame so small that its lines are
/// numbered so, too. A program may have instances of the frames before the first program's alone. The table is taken over: the frames before the
/// programs are let go with the last code, and each program's frame as soon as its code is there.
pub fn codes_of(
    alloc: Global,
    frames: Vec<Frame>,
    globals: usize,
    first: usize,
    values: &[usize],
    clocks: &[usize],
    costs: &[u64],
) -> Result<Vec<Code>, AllocError>
    requires in_turn { AreInTurn frames.items }
    requires steady { AreSteady frames.items }
    requires named { AllNamesFit frames.items globals first values.now clocks.now costs.now }
    requires small { AreSmall frames.items }
    requires values { length frames.items + 1 ≡ first + length values.now }
    requires clocks { length clocks.now ≡ length values.now }
    requires costs { length costs.now + 1 ≡ length values.now }
    requires there { first ≤ length frames.items }
    requires enough { CostNoMore frames.items first costs.now }
    requires apart { ProgramsUseFirst frames.items first }
    ensures { IfOk result (λ codes. AreCodes frames.items globals first values.now clocks.now costs.now
        codes.items) }
{
    folded_body_does_same::<usize, Cells>();
    folded_constants_are_literals::<usize>();
    folded_body_costs_at_most::<usize>();
    folded_body_weighs_at_most::<usize>();
    folded_names_stay::<usize>();
    let mut blocks = frames;
    let programs = blocks.split_off(first)?;
    let mut folded = fold_frames(alloc, blocks)?;
    let mut counts = count_frames(alloc, &folded)?;
    let mut codes = Vec::with_capacity(alloc, programs.len())?;
    for program in programs {
        let n = codes.len();
        push_program(alloc, program, &mut folded, &mut counts)?;
        let placed = PlacedProgram {
            globals,
            first,
            values: values[n],
            clocks: clocks[n],
            cost: costs[n],
        };
        let code = code_of(alloc, &folded, &counts, placed)?;
        folded.truncate(first);
        counts.frames.truncate(first);
        codes.push(code)?;
    }
    Ok(codes)
}

/// The same codes in the same order.
pub fn copy_codes(alloc: Global, codes: &[Code]) -> Result<Vec<Code>, AllocError>
    ensures { IfOk result (λ copies. copies.items ≡ codes.now) }
{
    let mut copies = Vec::with_capacity(alloc, codes.len())?;
    for code in codes {
        copies.push(code.copy(alloc)?)?;
    }
    Ok(copies)
}
