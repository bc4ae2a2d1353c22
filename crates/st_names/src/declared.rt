//! What sections declare, name by name.

ghost use Rattle.std.specs.Prelude.{◌≡◌, ◌++◌, [], map, IfOk, option_map};
ghost use Rattle.st_tree.specs.View.{view_expr};
ghost use Rattle.st_parser.specs.Units.{view_declaration, view_section};
ghost use Rattle.st_names.specs.DeclaredNames.{declared_together, declared_by, declared_in, first_declared};

use base_words::Names;
use plant_types::{Region, Text};
use st_parser::{Declaration, Section, SectionKind, Sort};
use st_tree::Expr;
use std::alloc::{AllocError, Global};
use std::marker::Model;

/// A declared name, and what it is declared as.
pub struct Declared<'a> {
    section: SectionKind,
    name: &'a Text,
    region: Option<Region>,
    sort: &'a Sort,
    initial: &'a Option<Expr<Text>>,
}

impl Drop for Declared<'_> {
    fn drop(self) {
        let Declared {
            section: _,
            name: _,
            region: _,
            sort: _,
            initial: _,
        } = self;
    }
}

impl<'a> Model for Declared<'a> {
    ghost use Rattle.std.specs.Prelude.{option_map};
    ghost use Rattle.st_tree.specs.View.{view_expr};
    ghost use Rattle.st_names.specs.DeclaredNames.{PlainDeclared};
    ghost use Rattle.st_names.specs.Code.{declared_code};

    ghost Value = { PlainDeclared };

    ghost coded = { declared_code };

    ghost view = { λ d. record { section = d.section; name = d.name.now; region = d.region; sort = d.sort.now; initial = option_map view_expr d.initial.now } };
}

impl<'a> Declared<'a> {
    /// The kind of section in which the name is declared.
    pub fn section(&self) -> SectionKind
        ensures { result ≡ self.now.section }
    {
        self.section
    }

    /// The name, as it is declared.
    pub fn name(&self) -> &'a Text
        ensures { result.now ≡ self.now.name }
    {
        self.name
    }

    /// The region of a global's address.
    pub fn region(&self) -> Option<Region>
        ensures { result ≡ self.now.region }
    {
        self.region
    }

    /// What the name is declared as: a variable of a kind, an instance of a block type, or an array.
    pub fn sort(&self) -> &'a Sort
        ensures { result.now ≡ self.now.sort }
    {
        self.sort
    }

    /// The initial value, if one is written.
    pub fn initial(&self) -> &'a Option<Expr<Text>>
        ensures { option_map view_expr result.now ≡ self.now.initial }
    {
        self.initial
    }

    /// The same name, declared as the same.
    pub fn copy(&self) -> Declared<'a>
        ensures { result ≡ self.now }
    {
        Declared {
            section: self.section,
            name: self.name,
            region: self.region,
            sort: self.sort,
            initial: self.initial,
        }
    }
}

/// Appends the names that are declared together.
fn push_together<'a>(
    list: &mut Vec<Declared<'a>>,
    section: SectionKind,
    declaration: &'a Declaration,
) -> Result<(), AllocError>
    ensures { IfOk result (λ _. list.new.items
        ≡ list.old.items ++ declared_together section (view_declaration declaration.now)) }
{
    for name in &declaration.names {
        list.push(Declared {
            section,
            name,
            region: declaration.region,
            sort: &declaration.sort,
            initial: &declaration.initial,
        })?;
    }
    Ok(())
}

/// Appends the names that a section declares.
fn push_section<'a>(list: &mut Vec<Declared<'a>>, section: &'a Section) -> Result<(), AllocError>
    ensures { IfOk result (λ _. list.new.items
        ≡ list.old.items ++ declared_by (view_section section.now)) }
{
    for declaration in &section.declarations {
        push_together(list, section.kind, declaration)?;
    }
    Ok(())
}

/// The names that sections declare, in order of text.
pub fn declared_in<'a>(
    alloc: Global,
    sections: &'a [Section],
) -> Result<Vec<Declared<'a>>, AllocError>
    ensures { IfOk result (λ list. list.items ≡ declared_in (map view_section sections.now)) }
{
    let mut list = Vec::new(alloc);
    for section in sections {
        push_section(&mut list, section)?;
    }
    Ok(list)
}

/// Appends the declarations of names that are not among these, letter case ignored, the first of each name.
fn push_firsts<'a>(
    alloc: Global,
    firsts: &mut Vec<Declared<'a>>,
    names: &mut Names,
    list: &[Declared<'a>],
) -> Result<(), AllocError>
    ensures { IfOk result (λ _. firsts.new.items
        ≡ firsts.old.items ++ first_declared names.old list.now) }
{
    for declared in list {
        let name = declared.name();
        if names.add(alloc, name.as_str())? {
            firsts.push(declared.copy())?;
        }
    }
    Ok(())
}

/// The first declaration of each name, letter case ignored, in order of text.
pub fn first_declared<'a>(
    alloc: Global,
    list: &[Declared<'a>],
) -> Result<Vec<Declared<'a>>, AllocError>
    ensures { IfOk result (λ firsts. firsts.items ≡ first_declared [] list.now) }
{
    let mut names = Names::new(alloc);
    let mut firsts = Vec::new(alloc);
    let pushed = push_firsts(alloc, &mut firsts, &mut names, list);
    drop(names);
    match pushed {
        Ok(()) => Ok(firsts),
        Err(refused) => {
            drop(firsts);
            Err(refused)
        }
    }
}
