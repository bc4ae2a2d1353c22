//! The instances of a routine by name.

ghost use Rattle.std.specs.Prelude.{◌≡◌, [], List, ℕ, Some, None, length, map, option_map, IfOk, if◌then◌else◌};
ghost use Rattle.plant_types.specs.Words.{same_word};
ghost use Rattle.logic_source.specs.Source.{view_routine};
ghost use Rattle.logic_limits.specs.Measures.{block_of, or_else, AreNamed};

use base_words::Names;
use logic_source::{BlockRef, Instance, Routine};
use plant_types::Text;
use std::alloc::{AllocError, Global};

/// Names of instances, each once, and of which block each is.
pub struct Instances {
    pub names: Names,
    pub blocks: Vec<BlockRef>,
}

impl Drop for Instances {
    fn drop(self) {
        let Instances {
            names: _,
            blocks: _,
        } = self;
    }
}

impl Instances {
    /// The block of the instance of a name, in any letter case; `None` if there is none. It takes no memory.
    pub fn find(&self, name: &Text) -> Option<BlockRef>
        ensures { result ≡ block_of self.now.names self.now.blocks.items name.now }
    {
        let number = self.names.find(name.as_str())?;
        self.blocks.get(number).copied()
    }
}

/// Adds an instance, unless there is one of its name.
fn push_instance(
    alloc: Global,
    instances: &mut Instances,
    instance: &Instance,
) -> Result<(), AllocError>
    requires { length instances.old.names ≡ length instances.old.blocks.items }
    ensures long { IfOk result (λ _. length instances.new.names ≡ length instances.new.blocks.items) }
    ensures found { IfOk result (λ _. (name : List ℕ)
        → block_of instances.new.names instances.new.blocks.items name
        ≡ or_else (block_of instances.old.names instances.old.blocks.items name)
        (if same_word name instance.now.name then Some instance.now.of else None)) }
{
    if !instances.names.add(alloc, instance.name.as_str())? {
        return Ok(());
    }
    instances.blocks.push(instance.of)?;
    Ok(())
}

/// The instances of a routine, of several of one name the first.
pub fn instances_of(alloc: Global, routine: &Routine) -> Result<Instances, AllocError>
    ensures { IfOk result (λ instances. AreNamed (view_routine routine.now) instances.names
        instances.blocks.items) }
{
    let mut instances = Instances {
        names: Names::new(alloc),
        blocks: Vec::new(alloc),
    };
    for instance in &routine.instances {
        push_instance(alloc, &mut instances, instance)?;
    }
    Ok(instances)
}
