//! The names of globals, which are found without a look at each.

ghost use Rattle.std.specs.Prelude.{◌≡◌, false, IfOk};
ghost use Rattle.logic_source.specs.Taken.{repeats};
ghost use Rattle.logic_source.specs.Names.{global_words};
ghost use Rattle.vm_logic.specs.Framed.{global_names};

use base_words::Names;
use logic_source::Variable;
use std::alloc::{AllocError, Global};

/// The names of globals in order of declaration, of which no two are the same word.
pub fn global_names(alloc: Global, globals: &[Variable]) -> Result<Names, AllocError>
    requires { repeats (global_words globals.now) ≡ false }
    ensures { IfOk result (λ names. names ≡ global_names globals.now) }
{
    let mut names = Names::new(alloc);
    for global in globals {
        let _is_new = names.add(alloc, global.name.as_str())?;
    }
    Ok(names)
}
