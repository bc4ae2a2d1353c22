ghost use Rattle.std.specs.Prelude.{◌≡◌, map};

use std::marker::Model;

/// A block type as it is declared: its name, and for each instance that it declares the word of the instance's type. Contracts see
/// their bytes.
#[derive(Drop)]
pub struct Block<'a> {
    name: &'a str,
    instances: Vec<&'a str>,
}

impl<'a> Model for Block<'a> {
    ghost use Rattle.std.specs.Prelude.{map};
    ghost use Rattle.st_blocks.specs.Blocks.{PlainBlock};

    ghost Value = { PlainBlock };

    ghost view = { λ b. record { name = b.name.now; instances = map (λ word. word.now) b.instances.items } };
}

impl<'a> Block<'a> {
    /// Makes a block type of its name and the words of its instances' types, one for each instance or for each declaration of several.
    pub fn new(name: &'a str, instances: Vec<&'a str>) -> Block<'a>
        ensures name { result.name ≡ name.now }
        ensures instances { result.instances ≡ map (λ word. word.now) instances.entry.items }
    {
        Block { name, instances }
    }

    /// The name as declared.
    pub fn name(&self) -> &'a str
        ensures { result.now ≡ self.now.name }
    {
        self.name
    }

    /// The words of the instances' types, as declared.
    pub fn instances(&self) -> &[&'a str]
        ensures { map (λ word. word.now) result.now ≡ self.now.instances }
    {
        self.instances.as_slice()
    }
}
