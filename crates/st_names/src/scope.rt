//! What the names in a body stand for, as those who judge it ask.

ghost use Rattle.std.specs.Prelude.{◌≡◌, List, is_some};
ghost use Rattle.st_parser.specs.Units.{PlainUnit};
ghost use Rattle.st_names.specs.DeclaredNames.{PlainDeclared};
ghost use Rattle.st_names.specs.Shared.{global_named};
ghost use Rattle.st_names.specs.BlockTypes.{block_type};
ghost use Rattle.st_names.specs.Scopes.{named, variable_kind, array_named, instance_type, input_named, output_named, input_kind, output_kind, global_kind, global_array, is_assignable, is_control};

use plant_types::{Bounds, Kind, Text};

/// What the names in a body stand for, letter case ignored: what the body declares itself, and else what all sources share.
pub trait Scope {
    /// The sources of the plant.
    ghost units: { Self → List PlainUnit };
    /// What the body declares itself, in order of text.
    ghost own: { Self → List PlainDeclared };

    /// Whether a name is that of a variable, an array or an instance.
    fn is_named(&self, name: &Text) -> bool
        ensures { result ≡ is_some (named (units self.now) (own self.now) name.now) };

    /// The kind of the variable of a name; `None` for an instance and an array, and if there is none of the name.
    fn variable_kind(&self, name: &Text) -> Option<Kind>
        ensures { result ≡ variable_kind (units self.now) (own self.now) name.now };

    /// The bounds of the array of a name, and the kind of its elements; `None` if there is none of the name.
    fn array(&self, name: &Text) -> Option<(Bounds, Kind)>
        ensures { result ≡ array_named (units self.now) (own self.now) name.now };

    /// Whether a name is that of a variable to which a body may assign: not that of an input of the plant.
    fn is_assignable(&self, name: &Text) -> bool
        ensures { result ≡ is_assignable (units self.now) (own self.now) name.now };

    /// Whether a name is that of a variable that may control a FOR: a DINT that the body declares itself.
    fn is_control(&self, name: &Text) -> bool
        ensures { result ≡ is_control (own self.now) name.now };

    /// Whether a name is that of an instance of a block type.
    fn is_instance(&self, name: &Text) -> bool
        ensures { result ≡ is_some (instance_type (units self.now) (own self.now) name.now) };

    /// Whether the block type of an instance has an input of a name.
    fn has_input(&self, instance: &Text, name: &Text) -> bool
        ensures { result ≡ is_some (input_named (units self.now) (own self.now) instance.now name.now) };

    /// Whether the block type of an instance has an output of a name.
    fn has_output(&self, instance: &Text, name: &Text) -> bool
        ensures { result
            ≡ is_some (output_named (units self.now) (own self.now) instance.now name.now) };

    /// The kind of the input of a name, of an instance's block type.
    fn input_kind(&self, instance: &Text, name: &Text) -> Option<Kind>
        ensures { result ≡ input_kind (units self.now) (own self.now) instance.now name.now };

    /// The kind of the output of a name, of an instance's block type.
    fn output_kind(&self, instance: &Text, name: &Text) -> Option<Kind>
        ensures { result ≡ output_kind (units self.now) (own self.now) instance.now name.now };

    /// Whether a word is that of a block type: of a standard one, or of a function block of the sources.
    fn is_block_type(&self, word: &Text) -> bool
        ensures { result ≡ is_some (block_type (units self.now) word.now) };

    /// Whether a name is that of a global.
    fn is_global(&self, name: &Text) -> bool
        ensures { result ≡ is_some (global_named (units self.now) name.now) };

    /// The kind of the global of a name.
    fn global_kind(&self, name: &Text) -> Option<Kind>
        ensures { result ≡ global_kind (units self.now) name.now };

    /// The bounds of the global array of a name, and the kind of its elements.
    fn global_array(&self, name: &Text) -> Option<(Bounds, Kind)>
        ensures { result ≡ global_array (units self.now) name.now };
}
