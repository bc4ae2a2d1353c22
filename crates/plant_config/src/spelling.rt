//! The units of a plant's sources, and the faults that are in them.

ghost use Rattle.std.specs.Prelude.{◌≡◌, ℕ, [], IfOk, MatchResult, map, slice_index_or};
ghost use Rattle.st_parser.specs.Units.{view_unit};
ghost use Rattle.plant_file.specs.PlantFiles.{PlainPlantFile};
ghost use Rattle.st_sources.specs.Sources.{IsSourceFault};
ghost use Rattle.st_sources.specs.UnitNames.{unit_name};
ghost use Rattle.vm_logic.specs.Faults.{IsTypeFault};
ghost use Rattle.plant_config.specs.Stages.{IsLimited, HasUnits};
ghost use Rattle.plant_config.specs.Refusals.{IsRefused};

use crate::fault::{ConfigFault, Limit};
use crate::files::Handed;
use base_stamps::Epoch;
use plant_file::PlantFile;
use plant_types::Text;
use st_parser::Unit;
use st_sources::{SourceFault, UnitPlace, unit_name};
use std::alloc::{AllocError, Global};
use std::thread::Threads;
use vm_logic::{Mistyped, TypeFault};

/// The name of a source by its number; empty if there is none.
fn name_at(alloc: Global, sources: &[(&str, &[u8])], number: usize) -> Result<Text, AllocError>
    ensures { IfOk result (λ name. name ≡ slice_index_or (map (λ s. s.0.now) sources.now) number []) }
{
    match sources.get(number) {
        Some(source) => Text::from_str(alloc, source.0),
        None => Text::from_str(alloc, ""),
    }
}

/// The refusal for a source that spells no unit.
#[tactic(auto, unfolding(crate::specs::Refusals::IsRefused))]
fn misspelled(alloc: Global, handed: &Handed<'_>, fault: SourceFault) -> ConfigFault
    requires { IsSourceFault handed.now.sources fault }
    ensures { (file : PlainPlantFile) (epoch : ℕ) → IsLimited handed.now file epoch
        → IsRefused handed.now result }
{
    match fault {
        SourceFault::Memory => ConfigFault::Memory,
        SourceFault::Spelling {
            source,
            line,
            column,
        } => match name_at(alloc, handed.sources, source) {
            Ok(file) => ConfigFault::Spelling { file, line, column },
            Err(_) => ConfigFault::Memory,
        },
        SourceFault::Grammar {
            source,
            line,
            column,
        } => match name_at(alloc, handed.sources, source) {
            Ok(file) => ConfigFault::Grammar { file, line, column },
            Err(_) => ConfigFault::Memory,
        },
    }
}

/// The units of the sources, or the fault of the first that spells none: C4 or C5.
pub fn units_of<H: Threads + Sync>(
    rt: &H,
    alloc: Global,
    handed: &Handed<'_>,
    file: &PlantFile,
    epoch: Epoch,
) -> Result<Vec<Unit>, ConfigFault>
    requires { IsLimited handed.now file.now epoch }
    ensures { MatchResult result
        (λ units. HasUnits handed.now file.now epoch (map view_unit units.items))
        (IsRefused handed.now) }
{
    match st_sources::units_in_threads(rt, alloc, handed.sources) {
        Ok(units) => Ok(units),
        Err(fault) => Err(misspelled(alloc, handed, fault)),
    }
}

/// The name of the source of a unit, and its own.
fn names_of(
    alloc: Global,
    handed: &Handed<'_>,
    units: &[Unit],
    place: UnitPlace,
) -> Result<(Text, Text), AllocError>
    ensures source { IfOk result (λ names. names.0 ≡ slice_index_or handed.now.names place.source []) }
    ensures unit { IfOk result (λ names. names.1 ≡ unit_name (map view_unit units.now) place) }
{
    let file = name_at(alloc, handed.sources, place.source)?;
    let unit = Text::from_str(alloc, unit_name(units, place))?;
    Ok((file, unit))
}

/// The refusal for sources that aren't well formed.
#[tactic(auto, unfolding(crate::specs::Refusals::IsRefused))]
fn mistyped(alloc: Global, handed: &Handed<'_>, units: &[Unit], fault: TypeFault) -> ConfigFault
    requires { IsTypeFault (map view_unit units.now) fault }
    ensures { (file : PlainPlantFile) (epoch : ℕ)
        → HasUnits handed.now file epoch (map view_unit units.now) → IsRefused handed.now result }
{
    match fault {
        TypeFault::Memory => ConfigFault::Memory,
        TypeFault::Name(place) => match names_of(alloc, handed, units, place) {
            Ok((file, unit)) => ConfigFault::Name { file, unit },
            Err(_) => ConfigFault::Memory,
        },
        TypeFault::Kind(place) => match names_of(alloc, handed, units, place) {
            Ok((file, unit)) => ConfigFault::Kind { file, unit },
            Err(_) => ConfigFault::Memory,
        },
        TypeFault::HoldsItself(place) => match names_of(alloc, handed, units, place) {
            Ok((file, unit)) => ConfigFault::HoldsItself { file, unit },
            Err(_) => ConfigFault::Memory,
        },
        TypeFault::Constant(place) => match names_of(alloc, handed, units, place) {
            Ok((file, unit)) => ConfigFault::Constant { file, unit },
            Err(_) => ConfigFault::Memory,
        },
        TypeFault::Turns => ConfigFault::Limit(Limit::Turns),
        TypeFault::BlockDepth => ConfigFault::Limit(Limit::BlockDepth),
        TypeFault::Programs => ConfigFault::Limit(Limit::Programs),
        TypeFault::Elements => ConfigFault::Limit(Limit::Elements),
    }
}

/// The refusal for sources that were judged, and aren't well formed.
pub fn refused(alloc: Global, handed: &Handed<'_>, judged: &Mistyped) -> ConfigFault
    requires { IsTypeFault (map view_unit judged.now.units.items) judged.now.fault }
    ensures { (file : PlainPlantFile) (epoch : ℕ)
        → HasUnits handed.now file epoch (map view_unit judged.now.units.items)
        → IsRefused handed.now result }
{
    mistyped(alloc, handed, judged.units.as_slice(), judged.fault)
}
