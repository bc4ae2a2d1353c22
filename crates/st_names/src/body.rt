//! The names of one body.

ghost use Rattle.std.specs.Prelude.{◌≡◌, [], IfOk, map, option_map, option_copied, is_some, option_and_then};
ghost use Rattle.st_parser.specs.Units.{view_section};
ghost use Rattle.st_names.specs.DeclaredNames.{declared_in, find_declared, sort_kind};
ghost use Rattle.st_names.specs.Scopes.{named, region_of, is_input, is_external, can_control, input_named, output_named};
ghost use Rattle.st_names.specs.Kept.{own_entries, word_of};

use crate::declared::{Declared, declared_in};
use crate::named::{sort_array, sort_kind};
use crate::scope::Scope;
use crate::shared::SharedNames;
use crate::table::NameTable;
use plant_types::{Bounds, Kind, Region, Text};
use st_parser::{Section, SectionKind, Sort};
use std::alloc::{AllocError, Global};
use std::marker::Model;

/// What the names in a body stand for, in any letter case: what the body declares itself, and else what all sources share.
#[derive(Drop)]
pub struct BodyScope<'a> {
    shared: &'a SharedNames<'a>,
    declared: Vec<Declared<'a>>,
    own: NameTable<Declared<'a>>,
}

impl<'a> Model for BodyScope<'a> {
    ghost use Rattle.std.specs.Prelude.{◌≡◌};
    ghost use Rattle.st_names.specs.Bodies.{PlainBodyScope, body_scope_code};
    ghost use Rattle.st_names.specs.Kept.{own_entries};

    ghost Value = { PlainBodyScope };

    ghost coded = { body_scope_code };

    ghost view = { λ scope. record { units = scope.shared.now; own = scope.declared.items } };

    ghost invariant = { λ scope. scope.own ≡ own_entries scope.declared.items };
}

/// The first declaration of each name.
fn own_entries<'a>(
    alloc: Global,
    list: &[Declared<'a>],
) -> Result<NameTable<Declared<'a>>, AllocError>
    ensures { IfOk result (λ table. table ≡ own_entries list.now) }
{
    let mut table = NameTable::new(alloc);
    for declared in list {
        let name = declared.name();
        table.add(alloc, name.as_str(), declared.copy())?;
    }
    Ok(table)
}

/// Whether a variable is declared by `VAR_EXTERNAL`.
fn is_external(section: SectionKind) -> bool
    ensures { result ≡ is_external section }
{
    matches!(section, SectionKind::External)
}

fn is_input(region: Option<Region>) -> bool
    ensures { result ≡ is_input region }
{
    matches!(region, Some(Region::Input))
}

fn can_control(declared: Option<&Declared<'_>>) -> bool
    ensures { result ≡ can_control (option_copied declared.entry) }
{
    match declared {
        Some(declared) => {
            !is_external(declared.section())
                && matches!(sort_kind(declared.sort()), Some(Kind::Dint))
        }
        None => false,
    }
}

impl<'a> BodyScope<'a> {
    /// The names of a body with these sections.
    pub fn new(
        alloc: Global,
        shared: &'a SharedNames<'a>,
        sections: &'a [Section],
    ) -> Result<BodyScope<'a>, AllocError>
        ensures units { IfOk result (λ scope. scope.units ≡ shared.now) }
        ensures own { IfOk result (λ scope. scope.own ≡ declared_in (map view_section sections.now)) }
    {
        let declared = declared_in(alloc, sections)?;
        let own = own_entries(alloc, &declared)?;
        Ok(BodyScope {
            shared,
            declared,
            own,
        })
    }

    /// What the body declares itself, in order of text.
    pub fn declared(&self) -> &[Declared<'a>]
        ensures { result.now ≡ self.now.own }
    {
        &self.declared
    }

    /// The body's own declaration of a name.
    fn find_own(&self, name: &Text) -> Option<&Declared<'a>>
        ensures { option_copied result ≡ find_declared self.now.own name.now }
    {
        self.own.find(name.as_str())
    }

    /// The declaration of a name: the body's own, else the global's.
    pub fn find(&self, name: &Text) -> Option<&Declared<'a>>
        ensures { option_copied result ≡ named self.now.units self.now.own name.now }
    {
        match self.find_own(name) {
            Some(declared) => Some(declared),
            None => {
                let shared = self.shared;
                shared.global(name)
            }
        }
    }

    /// The block type's word of the instance of a name; `None` if the name is not that of an instance.
    fn type_word(&self, name: &Text) -> Option<&Text>
        ensures { option_copied result ≡ word_of (named self.now.units self.now.own name.now) }
    {
        match self.find(name) {
            Some(declared) => match declared.sort() {
                Sort::Block(word) => Some(word),
                Sort::Kind(_) | Sort::Array(_, _) => None,
            },
            None => None,
        }
    }

    /// Where what is declared lies: a VAR_EXTERNAL lies where its global does.
    fn region_of(&self, declared: &Declared<'a>) -> Option<Region>
        ensures { result ≡ region_of self.now.units declared.now }
    {
        if is_external(declared.section()) {
            let shared = self.shared;
            match shared.global(declared.name()) {
                Some(global) => global.region(),
                None => None,
            }
        } else {
            declared.region()
        }
    }

    /// The kind of the input of an instance; `None` if there is no such input.
    fn input(&self, instance: &Text, name: &Text) -> Option<Option<Kind>>
        ensures { result
            ≡ option_map (λ m. m.kind) (input_named self.now.units self.now.own instance.now name.now) }
    {
        match self.type_word(instance) {
            Some(word) => {
                let shared = self.shared;
                shared.input(word, name)
            }
            None => None,
        }
    }

    /// The kind of the output of an instance; `None` if there is no such output.
    fn output(&self, instance: &Text, name: &Text) -> Option<Option<Kind>>
        ensures { result
            ≡ option_map (λ m. m.kind) (output_named self.now.units self.now.own instance.now name.now) }
    {
        match self.type_word(instance) {
            Some(word) => {
                let shared = self.shared;
                shared.output(word, name)
            }
            None => None,
        }
    }
}

/// The inner of two options.
fn flattened(kind: Option<Option<Kind>>) -> Option<Kind>
    ensures { result ≡ option_and_then (λ k. k) kind }
{
    match kind {
        Some(kind) => kind,
        None => None,
    }
}

impl<'a> Scope for BodyScope<'a> {
    ghost units = { λ scope. scope.units };

    ghost own = { λ scope. scope.own };

    fn is_named(&self, name: &Text) -> bool {
        self.find(name).is_some()
    }

    fn variable_kind(&self, name: &Text) -> Option<Kind> {
        match self.find(name) {
            Some(declared) => sort_kind(declared.sort()),
            None => None,
        }
    }

    fn array(&self, name: &Text) -> Option<(Bounds, Kind)> {
        match self.find(name) {
            Some(declared) => sort_array(declared.sort()),
            None => None,
        }
    }

    fn is_assignable(&self, name: &Text) -> bool {
        match self.find(name) {
            Some(declared) => {
                sort_kind(declared.sort()).is_some() && !is_input(self.region_of(declared))
            }
            None => false,
        }
    }

    fn is_control(&self, name: &Text) -> bool {
        can_control(self.find_own(name))
    }

    fn is_instance(&self, name: &Text) -> bool {
        match self.type_word(name) {
            Some(word) => self.is_block_type(word),
            None => false,
        }
    }

    fn has_input(&self, instance: &Text, name: &Text) -> bool {
        self.input(instance, name).is_some()
    }

    fn has_output(&self, instance: &Text, name: &Text) -> bool {
        self.output(instance, name).is_some()
    }

    fn input_kind(&self, instance: &Text, name: &Text) -> Option<Kind> {
        flattened(self.input(instance, name))
    }

    fn output_kind(&self, instance: &Text, name: &Text) -> Option<Kind> {
        flattened(self.output(instance, name))
    }

    fn is_block_type(&self, word: &Text) -> bool {
        let shared = self.shared;
        shared.is_block_type(word)
    }

    fn is_global(&self, name: &Text) -> bool {
        let shared = self.shared;
        shared.global(name).is_some()
    }

    fn global_kind(&self, name: &Text) -> Option<Kind> {
        let shared = self.shared;
        match shared.global(name) {
            Some(global) => sort_kind(global.sort()),
            None => None,
        }
    }

    fn global_array(&self, name: &Text) -> Option<(Bounds, Kind)> {
        let shared = self.shared;
        match shared.global(name) {
            Some(global) => sort_array(global.sort()),
            None => None,
        }
    }
}
