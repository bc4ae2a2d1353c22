//! The names that all sources of a plant share.

ghost use Rattle.std.specs.Prelude.{◌≡◌, ◌||◌, IfOk, Some, map, is_some, option_map, option_and_then, option_copied};
ghost use Rattle.st_parser.specs.Units.{view_unit};
ghost use Rattle.st_names.specs.Shared.{global_named, block_named};
ghost use Rattle.st_names.specs.BlockTypes.{block_type, inputs_of, outputs_of, find_member, timer_inputs, timer_outputs};
ghost use Rattle.st_names.specs.Taken.{is_standard};
ghost use Rattle.st_names.specs.Tables.{value_of};
ghost use Rattle.st_names.specs.Kept.{members_of, shared_entries};

use crate::declared::Declared;
use crate::gather::shared_entries;
use crate::named::{Members, Named};
use crate::standard::{
    is_standard, is_timer, is_trigger, timer_input, timer_output, trigger_input, trigger_output,
};
use crate::table::NameTable;
use plant_types::{Kind, Text};
use st_parser::Unit;
use std::alloc::{AllocError, Global};
use std::marker::Model;

/// The names that all sources of a plant share, in any letter case: globals, function blocks and programs. Contracts see the sources.
pub struct SharedNames<'a> {
    units: &'a [Unit],
    table: NameTable<Named<'a>>,
}

impl Drop for SharedNames<'_> {
    fn drop(self) {
        let SharedNames { units: _, table: _ } = self;
    }
}

impl<'a> Model for SharedNames<'a> {
    ghost use Rattle.std.specs.Prelude.{◌≡◌, List, map};
    ghost use Rattle.st_parser.specs.Units.{PlainUnit, view_unit};
    ghost use Rattle.st_names.specs.Code.{units_code};
    ghost use Rattle.st_names.specs.Kept.{shared_entries};

    ghost Value = { List PlainUnit };

    ghost coded = { units_code };

    ghost view = { λ shared. map view_unit shared.units.now };

    ghost invariant = { λ shared. shared.table ≡ shared_entries (map view_unit shared.units.now) };
}

impl<'a> SharedNames<'a> {
    /// The names that sources share.
    pub fn new(alloc: Global, units: &'a [Unit]) -> Result<SharedNames<'a>, AllocError>
        ensures { IfOk result (λ shared. shared ≡ map view_unit units.now) }
    {
        let table = shared_entries(alloc, units)?;
        Ok(SharedNames { units, table })
    }

    /// The sources.
    pub fn units(&self) -> &'a [Unit]
        ensures { map view_unit result.now ≡ self.now }
    {
        self.units
    }

    /// What is declared first with a name.
    fn find(&self, name: &Text) -> Option<&Named<'a>>
        ensures { option_copied result ≡ value_of (shared_entries self.now) name.now }
    {
        self.table.find(name.as_str())
    }

    /// The global of a name; `None` if what is declared first with the name is none.
    pub fn global(&self, name: &Text) -> Option<&Declared<'a>>
        ensures { option_copied result ≡ global_named self.now name.now }
    {
        match self.find(name) {
            Some(named) => match named {
                Named::Global(declared) => Some(declared),
                Named::Block(_) => None,
                Named::Program => None,
            },
            None => None,
        }
    }

    /// The inputs and outputs of the function block of a name; `None` if what is declared first with the name is none.
    fn block(&self, word: &Text) -> Option<&Members>
        ensures { option_copied result ≡ option_map members_of (block_named self.now word.now) }
    {
        match self.find(word) {
            Some(named) => match named {
                Named::Block(members) => Some(members),
                Named::Global(_) => None,
                Named::Program => None,
            },
            None => None,
        }
    }

    /// Whether a word is that of a block type: of a standard one, or of a function block of the sources.
    pub fn is_block_type(&self, word: &Text) -> bool
        ensures { result ≡ is_some (block_type self.now word.now) }
    {
        is_standard(word) || self.block(word).is_some()
    }

    /// The kind of the input of a name, of the block type of a word; `Some(None)` for an instance or an array in its place, `None` if there is no such input.
    pub fn input(&self, word: &Text, name: &Text) -> Option<Option<Kind>>
        ensures { result
            ≡ option_map (λ m. m.kind)
            (option_and_then (λ t. find_member (inputs_of t) name.now) (block_type self.now word.now)) }
    {
        if is_timer(word) {
            return timer_input(name);
        }
        if is_trigger(word) {
            return trigger_input(name);
        }
        let members = self.block(word)?;
        members.inputs.find(name.as_str()).copied()
    }

    /// The kind of the output of a name, of the block type of a word; `Some(None)` for an instance or an array in its place, `None` if there is no such output.
    pub fn output(&self, word: &Text, name: &Text) -> Option<Option<Kind>>
        ensures { result
            ≡ option_map (λ m. m.kind)
            (option_and_then (λ t. find_member (outputs_of t) name.now) (block_type self.now word.now)) }
    {
        if is_timer(word) {
            return timer_output(name);
        }
        if is_trigger(word) {
            return trigger_output(name);
        }
        let members = self.block(word)?;
        members.outputs.find(name.as_str()).copied()
    }
}
