//! The first unit with a fault of names.

ghost use Rattle.std.specs.Prelude.{◌≡◌, IfOk, map};
ghost use Rattle.st_parser.specs.Units.{view_section, view_pou};
ghost use Rattle.st_names.specs.DeclaredNames.{declared_in};
ghost use Rattle.st_names.specs.Known.{globals_misnamed, pou_misnamed};
ghost use Rattle.st_names.specs.Faults.{is_earlier_pou, is_earlier, earlier, first_misnamed};

use crate::body::BodyScope;
use crate::first::{Judge, first_unit};
use crate::known::{body_known, sections_known};
use crate::place::UnitPlace;
use crate::repeated::repeats;
use crate::shared::SharedNames;
use crate::taken::first_taken;
use st_parser::{Pou, Section};
use std::alloc::{AllocError, Global};

/// Whether a declaration of globals names what isn't there.
fn globals_misnamed(
    alloc: Global,
    shared: &SharedNames<'_>,
    sections: &[Section],
) -> Result<bool, AllocError>
    ensures { IfOk result (λ misnamed. misnamed
        ≡ globals_misnamed shared.now (map view_section sections.now)) }
{
    let scope = BodyScope::new(alloc, shared, &[])?;
    let known = sections_known(&scope, sections);
    drop(scope);
    Ok(!known)
}

/// Whether a block or program of these names declares a name twice, or names what isn't there.
fn is_misnamed(alloc: Global, scope: &BodyScope<'_>, pou: &Pou) -> Result<bool, AllocError>
    requires { scope.now.own ≡ declared_in (map view_section pou.now.sections.items) }
    ensures { IfOk result (λ misnamed. misnamed ≡ pou_misnamed scope.now.units (view_pou pou.now)) }
{
    if repeats(alloc, scope.declared())? {
        return Ok(true);
    }
    if !sections_known(scope, &pou.sections) {
        return Ok(true);
    }
    let known = body_known(alloc, scope, &pou.body)?;
    Ok(!known)
}

/// Whether a block or program declares a name twice, or names what isn't there.
fn pou_misnamed(alloc: Global, shared: &SharedNames<'_>, pou: &Pou) -> Result<bool, AllocError>
    ensures { IfOk result (λ misnamed. misnamed ≡ pou_misnamed shared.now (view_pou pou.now)) }
{
    let scope = BodyScope::new(alloc, shared, &pou.sections)?;
    let misnamed = is_misnamed(alloc, &scope, pou);
    drop(scope);
    misnamed
}

/// Judges units by their names.
#[derive(Drop)]
struct Misnamed<'a> {
    shared: &'a SharedNames<'a>,
}

impl<'a> Judge for Misnamed<'a> {
    ghost bad_globals = { λ judge. globals_misnamed judge.shared.now };

    ghost bad_pou = { λ judge. pou_misnamed judge.shared.now };

    fn globals(&self, alloc: Global, sections: &[Section]) -> Result<bool, AllocError> {
        globals_misnamed(alloc, self.shared, sections)
    }

    fn pou(&self, alloc: Global, pou: &Pou) -> Result<bool, AllocError> {
        pou_misnamed(alloc, self.shared, pou)
    }
}

/// Whether one unit of a source comes before another.
fn is_earlier_pou(a: Option<usize>, b: Option<usize>) -> bool
    ensures { result ≡ is_earlier_pou a b }
{
    match b {
        Some(b) => match a {
            Some(a) => a < b,
            None => true,
        },
        None => false,
    }
}

/// Whether one unit comes before another in order of text.
fn is_earlier(a: UnitPlace, b: UnitPlace) -> bool
    ensures { result ≡ is_earlier a b }
{
    a.source < b.source || (a.source == b.source && is_earlier_pou(a.pou, b.pou))
}

/// The earlier of two units, either of which may be missing.
fn earlier(a: Option<UnitPlace>, b: Option<UnitPlace>) -> Option<UnitPlace>
    ensures { result ≡ earlier a b }
{
    match a {
        Some(first) => match b {
            Some(other) => { if is_earlier(other, first) { b } else { a } }
            None => a,
        },
        None => b,
    }
}

/// The first unit, in order of text, with a fault of names (C6): one that declares a name which is taken, or uses one that isn't there.
pub fn first_misnamed(
    alloc: Global,
    shared: &SharedNames<'_>,
) -> Result<Option<UnitPlace>, AllocError>
    ensures { IfOk result (λ place. place ≡ first_misnamed shared.now) }
{
    let taken = first_taken(alloc, shared.units())?;
    let judge = Misnamed { shared };
    let misnamed = first_unit(alloc, &judge, shared.units())?;
    Ok(earlier(taken, misnamed))
}
