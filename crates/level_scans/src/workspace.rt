//! Memory for the runs of programs.

use level_jobs::Reserve;
use std::alloc::Global;
use vm_carry::Stack;

/// Memory for the programs' runs, which one scan after another uses: for runs in program order, and for the jobs of a crew. What it holds
/// doesn't matter.
pub struct Workspace {
    /// For runs in program order: as long as the codes that have run need.
    pub(crate) stack: Stack,
    /// For a crew's jobs.
    pub(crate) jobs: Reserve,
}

impl Drop for Workspace {
    fn drop(self) {
        let Workspace { stack: _, jobs: _ } = self;
    }
}

impl Workspace {
    /// No memory yet.
    pub fn new(alloc: Global) -> Workspace {
        Workspace {
            stack: Stack::new(alloc),
            jobs: Reserve::new(alloc),
        }
    }
}
