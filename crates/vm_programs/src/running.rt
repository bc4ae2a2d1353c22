//! Runs codes, with one memory for the stack of all runs.

ghost use Rattle.std.specs.Prelude.{◌≡◌, ◌≤◌, ◌<◌, ◌+◌, ◌*◌, ◌-◌, List, length, IfOk, IfErr};
ghost use Rattle.plant_types.specs.Values.{Path};
ghost use Rattle.logic_cells.specs.Runs.{ended};
ghost use Rattle.acc_vm.specs.Machine.{Over};
ghost use Rattle.acc_vm.specs.Codes.{SameShape, run_of};

use acc_vm::{Code, Own, Shared};
use logic_cells::{Cells, Stop};
use std::alloc::{AllocError, Global};
use std::marker::Model;

/// Memory for the stack of runs, one after another. What a run leaves in it doesn't matter. Contracts see how many words it has.
pub struct Stack {
    words: Vec<i64>,
}

impl Drop for Stack {
    fn drop(self) {
        let Stack { words: _ } = self;
    }
}

impl Model for Stack {
    ghost use Rattle.std.specs.Prelude.{ℕ, length};

    ghost Value = { ℕ };

    ghost view = { λ stack. length stack.words.items };
}

impl Stack {
    /// A stack of no words.
    pub fn new(alloc: Global) -> Stack
        ensures { result ≡ 0 }
    {
        Stack {
            words: Vec::new(alloc),
        }
    }

    /// Makes the stack so many words long, unless it has as many. Fails if memory was refused; then it has at least the words that it had.
    pub fn reach(&mut self, words: usize) -> Result<(), AllocError>
        ensures reached { IfOk result (λ _. words ≤ self.new) }
        ensures kept { self.old ≤ self.new }
    {
        if self.words.len() < words {
            self.words.resize(words, 0)?;
        }
        Ok(())
    }
}

/// Runs code over cells at a moment, as `Code::run_counted` does: it tells how many instructions it did. It allocates nothing.
pub fn run_code_counted(
    code: &Code,
    stack: &mut Stack,
    cells: &mut Cells,
    moment: u64,
) -> (Result<(), Stop>, u128)
    requires values { code.now.values ≤ length cells.old.values }
    requires clocks { code.now.clocks ≤ length cells.old.clocks }
    requires room { code.now.stack ≤ stack.old }
    ensures ran { (names : List Path)
        → run_of moment names code.now cells.old
        ≡ Over (ended names result.0 cells.new) (4 * code.now.cost + 4 - result.1) }
    ensures count { result.1 ≤ 4 * code.now.cost + 4 }
    ensures path { IfErr result.0 (λ stop. stop.place.path < code.now.paths) }
    ensures shape { SameShape cells.new cells.old }
{
    let mut own = Own {
        cells,
        stack: stack.words.as_mut_slice(),
    };
    code.run_counted(&mut own, &Shared, moment)
}
