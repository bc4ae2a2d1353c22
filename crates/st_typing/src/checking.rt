//! Checks sources: names, kinds, blocks, constants, then limits.

ghost use Rattle.std.specs.Prelude.{◌≡◌, IfErr, MatchResult, map};
ghost use Rattle.st_names.specs.Units.{view_unit};
ghost use Rattle.st_typing.specs.Faults.{AreKinded, AreApart, AreConstant, IsTyped, IsNested, IsTypeFault};

use crate::blocks::blocks_of;
use crate::constants::{globals_inconstant, pou_inconstant};
use crate::fault::{Mistyped, TypeFault};
use crate::kinds::{globals_misfit, pou_misfit};
use crate::limits::{some_long, some_wide, too_many};
use crate::typed::Typed;
use st_blocks::{NestingFault, order_blocks};
use st_names::{BodyScope, Judge, Pou, Section, SharedNames, Unit, first_misnamed, first_unit};
use std::alloc::{AllocError, Global};

/// Judges units by their kinds.
#[derive(Drop)]
struct KindJudge<'a> {
    shared: &'a SharedNames<'a>,
}

impl<'a> Judge for KindJudge<'a> {
    ghost use Rattle.st_typing.specs.Kinds.{globals_misfit, pou_misfit};

    ghost bad_globals = { λ judge. globals_misfit judge.shared.now };

    ghost bad_pou = { λ judge. pou_misfit judge.shared.now };

    fn globals(&self, alloc: Global, sections: &[Section]) -> Result<bool, AllocError> {
        let scope = BodyScope::new(alloc, self.shared, &[])?;
        Ok(globals_misfit(&scope, sections))
    }

    fn pou(&self, alloc: Global, pou: &Pou) -> Result<bool, AllocError> {
        let scope = BodyScope::new(alloc, self.shared, &pou.sections)?;
        pou_misfit(alloc, &scope, pou)
    }
}

/// Judges units by their constants, the bounds of their arrays and their control variables.
#[derive(Drop)]
struct Inconstant<'a> {
    shared: &'a SharedNames<'a>,
}

impl<'a> Judge for Inconstant<'a> {
    ghost use Rattle.st_typing.specs.Constants.{globals_inconstant, pou_inconstant};

    ghost bad_globals = { λ _. globals_inconstant };

    ghost bad_pou = { λ _. pou_inconstant };

    fn globals(&self, _alloc: Global, sections: &[Section]) -> Result<bool, AllocError> {
        Ok(globals_inconstant(sections))
    }

    fn pou(&self, alloc: Global, pou: &Pou) -> Result<bool, AllocError> {
        let scope = BodyScope::new(alloc, self.shared, &pou.sections)?;
        pou_inconstant(alloc, &scope, pou)
    }
}

/// Fails for the first unit with a name that isn't there or is taken, else for the first with something of another kind than it must have, or if
/// memory is refused.
fn check_kinds(alloc: Global, shared: &SharedNames<'_>) -> Result<(), TypeFault>
    ensures { MatchResult result (λ _. AreKinded shared.now) (IsTypeFault shared.now) }
{
    if let Some(place) = first_misnamed(alloc, shared)? {
        return Err(TypeFault::Name(place));
    }
    if let Some(place) = first_unit(alloc, &KindJudge { shared }, shared.units())? {
        return Err(TypeFault::Kind(place));
    }
    Ok(())
}

/// An order of the function blocks in which each stands after those that it declares; `None` where one is nested too deep. Fails for the first that
/// holds itself, or if memory is refused.
fn block_order(alloc: Global, units: &[Unit]) -> Result<Option<Vec<usize>>, TypeFault>
    requires { AreKinded (map view_unit units.now) }
    ensures { MatchResult result (IsNested (map view_unit units.now))
        (IsTypeFault (map view_unit units.now)) }
{
    let list = blocks_of(alloc, units)?;
    match order_blocks(alloc, &list.blocks) {
        Ok(order) => Ok(Some(order)),
        Err(NestingFault::TooDeep) => Ok(None),
        Err(NestingFault::HoldsItself(number)) => Err(TypeFault::HoldsItself(list.places[number])),
        Err(NestingFault::Memory) => Err(TypeFault::Memory),
    }
}

/// Fails for the first unit with a constant, bounds of an array or a control variable that isn't allowed, or if memory is refused.
fn check_constants(alloc: Global, shared: &SharedNames<'_>) -> Result<(), TypeFault>
    requires { AreApart shared.now }
    ensures { MatchResult result (λ _. AreConstant shared.now) (IsTypeFault shared.now) }
{
    if let Some(place) = first_unit(alloc, &Inconstant { shared }, shared.units())? {
        return Err(TypeFault::Constant(place));
    }
    Ok(())
}

/// The order of the function blocks, if the sources keep the limits. Fails for too many turns, blocks nested too deep, too many programs or an array
/// of too many elements, or if memory is refused.
fn check_limits(
    alloc: Global,
    units: &[Unit],
    order: Option<Vec<usize>>,
) -> Result<Vec<usize>, TypeFault>
    requires constant { AreConstant (map view_unit units.now) }
    requires nested { IsNested (map view_unit units.now) order }
    ensures { MatchResult result (λ order. IsTyped (map view_unit units.now) order.items)
        (IsTypeFault (map view_unit units.now)) }
{
    if some_long(alloc, units)? {
        return Err(TypeFault::Turns);
    }
    let Some(order) = order else {
        return Err(TypeFault::BlockDepth);
    };
    if too_many(units) {
        return Err(TypeFault::Programs);
    }
    if some_wide(units) {
        return Err(TypeFault::Elements);
    }
    Ok(order)
}

/// The order of the function blocks of well-formed sources. Fails as `check` does.
fn order_of(alloc: Global, units: &[Unit]) -> Result<Vec<usize>, TypeFault>
    ensures { MatchResult result (λ order. IsTyped (map view_unit units.now) order.items)
        (IsTypeFault (map view_unit units.now)) }
{
    let shared = SharedNames::new(alloc, units)?;
    if let Err(fault) = check_kinds(alloc, &shared) {
        return Err(fault);
    }
    let order = match block_order(alloc, units) {
        Ok(order) => order,
        Err(fault) => return Err(fault),
    };
    if let Err(fault) = check_constants(alloc, &shared) {
        return Err(fault);
    }
    check_limits(alloc, units, order)
}

/// Checks all sources of a plant: names (C6), kinds (C7), blocks that hold themselves (C8), constants (C9), then turns, depth of blocks,
/// the number of programs and the elements of arrays (C10). What is well formed keeps the sources, and copies nothing of them.
///
/// Fails for the first of these rules that is broken, at the first unit, in order of text, that breaks it, or if memory is refused; and gives the
/// sources back.
pub fn check(alloc: Global, units: Vec<Unit>) -> Result<Typed, Mistyped>
    ensures judged { MatchResult result (λ typed. typed ≡ map view_unit units.items)
        (λ mistyped. IsTypeFault (map view_unit units.items) mistyped.fault) }
    ensures given_back { IfErr result (λ mistyped. mistyped.units.items ≡ units.items) }
{
    match order_of(alloc, units.as_slice()) {
        Ok(order) => Ok(Typed::new(units, order)),
        Err(fault) => Err(Mistyped { fault, units }),
    }
}
