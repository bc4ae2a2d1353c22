//! From well-formed sources to a plant.

ghost use Rattle.std.specs.Prelude.{◌≡◌, ◌≤◌, MatchResult, None, length};
ghost use Rattle.alarm_db.specs.Databases.{first_fault, rows_of};
ghost use Rattle.plant_file.specs.PlantFiles.{IsPlantFile};
ghost use Rattle.plant_config.specs.Logics.{AreKnown, HasLogic};
ghost use Rattle.plant_config.specs.Stages.{IsWellFormed};
ghost use Rattle.plant_config.specs.Refusals.{IsRefused};

use crate::alarms::{AlarmFault, alarms_of};
use crate::fault::{ConfigFault, Limit};
use crate::files::Handed;
use crate::rows::AlarmRow;
use crate::told::told;
use alarm_db::{AlarmDatabase, DatabaseRow, DbFault};
use base_stamps::Epoch;
use plant_file::PlantFile;
use std::alloc::Global;
use vm_logic::{Framed, LimitFault, Typed};

/// The logic of well-formed sources, made ready to run, or the first limit on slots, size and cost that it is past: C10. The sources are let go.
#[tactic(auto, unfolding(crate::specs::Refusals::IsRefused))]
pub fn logic_of(
    alloc: Global,
    handed: &Handed<'_>,
    file: &PlantFile,
    epoch: Epoch,
    typed: Typed,
) -> Result<Framed, ConfigFault>
    requires { IsWellFormed handed.now file.now epoch typed }
    ensures { MatchResult result (HasLogic handed.now file.now epoch) (IsRefused handed.now) }
{
    match Framed::of(alloc, typed) {
        Ok(logic) => Ok(logic),
        Err(LimitFault::Slots) => Err(ConfigFault::Limit(Limit::Slots)),
        Err(LimitFault::Size) => Err(ConfigFault::Limit(Limit::Size)),
        Err(LimitFault::Cost) => Err(ConfigFault::Limit(Limit::Cost)),
        Err(LimitFault::Memory) => Err(ConfigFault::Memory),
    }
}

/// The alarm database of a plant whose sources keep their limits, or its first fault: C11, C10 ALARMS, C12 or C13.
#[tactic(auto, unfolding(crate::specs::Refusals::IsRefused))]
pub fn database_of(
    alloc: Global,
    handed: &Handed<'_>,
    file: &PlantFile,
    epoch: Epoch,
    logic: &Framed,
) -> Result<AlarmDatabase, ConfigFault>
    requires { HasLogic handed.now file.now epoch logic.now }
    ensures { MatchResult result
        (λ rows. (first_fault handed.now.alarms ≡ None) × (rows ≡ rows_of handed.now.alarms))
        (IsRefused handed.now) }
{
    match alarm_db::read(alloc, handed.alarms) {
        Ok(database) => Ok(database),
        Err(DbFault::Memory) => Err(ConfigFault::Memory),
        Err(DbFault::Header) => Err(ConfigFault::Header(told(alloc, handed, file, logic))),
        Err(DbFault::TooMany) => Err(ConfigFault::Limit(Limit::Alarms)),
        Err(DbFault::Field { row, column }) => Err(ConfigFault::Field {
            row,
            column,
            mistakes: told(alloc, handed, file, logic),
        }),
        Err(DbFault::Twice { row }) => Err(ConfigFault::Twice {
            row,
            mistakes: told(alloc, handed, file, logic),
        }),
    }
}

/// The alarms of the database in the plant, or the first that names what the plant hasn't: C14.
#[tactic(auto, unfolding(crate::specs::Refusals::IsRefused))]
pub fn known_alarms(
    alloc: Global,
    handed: &Handed<'_>,
    file: &PlantFile,
    epoch: Epoch,
    logic: &Framed,
    rows: Vec<DatabaseRow>,
) -> Result<Vec<AlarmRow>, ConfigFault>
    requires logic { HasLogic handed.now file.now epoch logic.now }
    requires database { first_fault handed.now.alarms ≡ None }
    requires rows { rows.items ≡ rows_of handed.now.alarms }
    requires few { length rows.items ≤ 20000 }
    ensures alarms { MatchResult result (λ alarms. AreKnown handed.now file.now logic.now alarms.items)
        (IsRefused handed.now) }
    ensures file { IsPlantFile file.now }
{
    let Ok(areas) = file.area_set(alloc) else {
        return Err(ConfigFault::Memory);
    };
    match alarms_of(alloc, &areas, logic, rows) {
        Ok(alarms) => Ok(alarms),
        Err(AlarmFault::Memory) => Err(ConfigFault::Memory),
        Err(AlarmFault::Unknown { row, column }) => Err(ConfigFault::Unknown {
            row,
            column,
            mistakes: told(alloc, handed, file, logic),
        }),
    }
}
