//! The names by which units are reported.

ghost use Rattle.std.specs.Prelude.{◌≡◌, map};
ghost use Rattle.st_parser.specs.Units.{view_pou, view_unit};
ghost use Rattle.st_sources.specs.UnitNames.{pou_name, name_in, unit_name};

use st_names::UnitPlace;
use st_parser::{Pou, Unit};

/// The name of the block or program of a number, as declared; empty if there is none.
fn pou_name(pous: &[Pou], number: usize) -> &str
    ensures { result.now ≡ pou_name (map view_pou pous.now) number }
{
    match pous.get(number) {
        Some(pou) => pou.name.as_str(),
        None => "",
    }
}

/// The name of a block or program of a source, or of its globals.
fn name_in(unit: &Unit, pou: Option<usize>) -> &str
    ensures { result.now ≡ name_in (view_unit unit.now) pou }
{
    match pou {
        Some(number) => pou_name(&unit.pous, number),
        None => "VAR_GLOBAL",
    }
}

/// The name by which a unit is reported: that of a block or program as declared, `VAR_GLOBAL` for the globals of a source. It is empty if
/// there is no unit at the place.
pub fn unit_name(units: &[Unit], place: UnitPlace) -> &str
    ensures { result.now ≡ unit_name (map view_unit units.now) place }
{
    match units.get(place.source) {
        Some(unit) => name_in(unit, place.pou),
        None => "",
    }
}
