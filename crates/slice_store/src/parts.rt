//! The parts of all programs.

ghost use Rattle.std.specs.Prelude.{◌≡◌, length};
ghost use Rattle.slice_store.specs.Starts.{HasNumber, part_of};

use std::marker::Model;
use vm_slices::Part;

/// The parts of all programs, in program order. Threads share the list as one. Contracts see a list of parts.
pub struct Parts {
    items: Vec<Part>,
}

impl Drop for Parts {
    fn drop(self) {
        let Parts { items: _ } = self;
    }
}

impl Model for Parts {
    ghost use Rattle.std.specs.Prelude.{List};
    ghost use Rattle.vm_slices.specs.Parts.{PlainPart};

    ghost Value = { List PlainPart };

    ghost view = { λ p. p.items.items };
}

impl Parts {
    /// The parts of programs, in program order.
    pub fn new(items: Vec<Part>) -> Parts
        ensures { result ≡ items.items }
    {
        Parts { items }
    }

    /// How many parts there are.
    pub(crate) fn count(&self) -> usize
        ensures { result ≡ length self.now }
    {
        self.items.len()
    }

    pub(crate) fn numbered(&self, number: u32) -> &Part
        requires { HasNumber self.now number }
        ensures { result.now ≡ part_of self.now number }
    {
        &self.items[number as usize - 1]
    }
}
