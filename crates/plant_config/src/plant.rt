//! The plant, its parts and their names.

ghost use Rattle.std.specs.Prelude.{◌≡◌, ◌<◌, ◌++◌, None, Some, get_or, length, map, option_map, position, string_bytes, IfSome, IfOk, IfErr, MatchResult};
ghost use Rattle.std.specs.List.{list_any};
ghost use Rattle.plant_types.specs.Words.{same_word};
ghost use Rattle.st_parser.specs.Units.{view_unit};
ghost use Rattle.plant_file.specs.Read.{plant_file_in};
ghost use Rattle.vm_logic.specs.declared.headings.Heading.{Heading};
ghost use Rattle.plant_config.specs.Files.{files_of, texts_of};
ghost use Rattle.alarm_db.specs.Databases.{IsDatabase, first_fault, rows_of, tags_of as database_tags};
ghost use Rattle.vm_logic.specs.Counts.{program_costs};
ghost use Rattle.plant_file.specs.PlantFiles.{IsPlantFile};
ghost use Rattle.plant_config.specs.Logics.{AreKnown, HasLogic};
ghost use Rattle.plant_config.specs.Plants.{PlainPlant, IsPlant, plant_with, tags_of};
ghost use Rattle.plant_config.specs.Orderers.{has_area, SayWho};
ghost use Rattle.plant_config.specs.Stages.{Accepted, AreParts, HasEpoch, HasUnits, IsLimited, IsWellFormed};
ghost use Rattle.plant_config.specs.Refusals.{IsFileFault, IsRefused};
ghost use Rattle.plant_config.specs.declared.fault.ConfigFault.TheVariants as fault;
ghost use Rattle.plant_config.specs.Names.{alarm_number, globals_of, global_number, program_number, programs_of, program_at, body_paths, body_path, tag_of, area_of, global_of, priority_of};

use crate::epoch::epoch_of;
use crate::fault::ConfigFault;
use crate::files::{Files, Handed, file_of, files_of, listed};
use crate::observer::{Nobody, Observer};
use crate::orderers::{is_orderer, limited_orderers, orderers_in};
use crate::rows::{AlarmRow, copy_rows};
use crate::running::{database_of, known_alarms, logic_of};
use crate::spelling::{refused, units_of};
use alarm_db::Tags;
use base_stamps::Epoch;
use plant_file::{ListedConsole, PlantFile};
use plant_types::{Items, same_word};
use st_parser::Unit;
use std::alloc::{AllocError, Global};
use std::marker::Model;
use std::thread::Threads;
use vm_logic::{Framed, Heading, Typed, Variable, check};

/// An accepted plant. Its areas, alarms, globals and programs are numbered from 0: areas as the plant file lists them, alarms in the order of the
/// database, globals and programs in the order of the sources and, in a source, of its text.
pub struct Plant {
    file: PlantFile,
    epoch: Epoch,
    logic: Framed,
    alarms: Vec<AlarmRow>,
    tags: Tags,
    /// Of each area the numbers of the consoles that may order its alarms.
    orderers: Vec<Items<u32>>,
}

impl Drop for Plant {
    fn drop(self) {
        let Plant {
            file: _,
            epoch: _,
            logic: _,
            alarms: _,
            tags: _,
            orderers: _,
        } = self;
    }
}

impl Model for Plant {
    ghost use Rattle.std.specs.Prelude.{◌≡◌};
    ghost use Rattle.plant_config.specs.Plants.{PlainPlant, IsPlant, tags_of};
    ghost use Rattle.plant_config.specs.Code.{plant_code};
    ghost use Rattle.plant_config.specs.Orderers.{SayWho};

    ghost Value = { PlainPlant };

    ghost coded = { plant_code };

    ghost view = { λ p. record { source = p.logic; areas = p.file.areas; consoles = p.file.consoles; alarms = p.alarms.items; epoch = p.epoch } };

    ghost invariant = { λ p. IsPlant (record { source = p.logic; areas = p.file.areas; consoles = p.file.consoles; alarms = p.alarms.items; epoch = p.epoch }) × (p.tags ≡ tags_of p.alarms.items) × SayWho p.file.consoles p.orderers.items };
}

fn assembled(
    file: PlantFile,
    epoch: Epoch,
    logic: Framed,
    alarms: Vec<AlarmRow>,
    tags: Tags,
    orderers: Vec<Items<u32>>,
) -> Plant
    requires plant { IsPlant (plant_with logic file alarms.items epoch) }
    requires tags { tags ≡ tags_of alarms.items }
    requires orderers { SayWho file.consoles orderers.items }
    ensures { result ≡ plant_with logic file alarms.items epoch }
{
    Plant {
        file,
        epoch,
        logic,
        alarms,
        tags,
        orderers,
    }
}

/// The alarms of a plant's database and the index of their tags, or why there are none.
fn alarms_in(
    alloc: Global,
    handed: &Handed<'_>,
    file: &PlantFile,
    epoch: Epoch,
    logic: &Framed,
) -> Result<(Vec<AlarmRow>, Tags), ConfigFault>
    requires { HasLogic handed.now file.now epoch logic.now }
    ensures alarms { MatchResult result (λ found. AreKnown handed.now file.now logic.now found.0.items)
        (IsRefused handed.now) }
    ensures tags { IfOk result (λ found. found.1 ≡ database_tags (rows_of handed.now.alarms)) }
    ensures right { IfOk result (λ _. first_fault handed.now.alarms ≡ None) }
    ensures database { IfOk result (λ _. IsDatabase (rows_of handed.now.alarms)) }
    ensures file { IfOk result (λ _. IsPlantFile file.now) }
{
    match database_of(alloc, handed, file, epoch, logic) {
        Ok(database) => {
            let (rows, tags) = database.into_parts();
            match known_alarms(alloc, handed, file, epoch, logic, rows) {
                Ok(alarms) => Ok((alarms, tags)),
                Err(fault) => Err(fault),
            }
        }
        Err(fault) => Err(fault),
    }
}

/// The parts of the plant of well-formed sources with logic, or why there are none.
fn with_logic(
    alloc: Global,
    handed: &Handed<'_>,
    file: &PlantFile,
    epoch: Epoch,
    logic: Framed,
) -> Result<(Framed, Vec<AlarmRow>, Tags), ConfigFault>
    requires { HasLogic handed.now file.now epoch logic }
    ensures { MatchResult result
        (λ parts. AreParts handed.now file.now epoch parts.0 parts.1.items parts.2)
        (IsRefused handed.now) }
{
    match alarms_in(alloc, handed, file, epoch, &logic) {
        Ok((alarms, tags)) => Ok((logic, alarms, tags)),
        Err(fault) => Err(fault),
    }
}

/// The parts of the plant of well-formed sources, or why there are none. The sources are let go as soon as they have their codes.
fn parts_of(
    alloc: Global,
    handed: &Handed<'_>,
    file: &PlantFile,
    epoch: Epoch,
    typed: Typed,
) -> Result<(Framed, Vec<AlarmRow>, Tags), ConfigFault>
    requires { IsWellFormed handed.now file.now epoch typed }
    ensures { MatchResult result
        (λ parts. AreParts handed.now file.now epoch parts.0 parts.1.items parts.2)
        (IsRefused handed.now) }
{
    match logic_of(alloc, handed, file, epoch, typed) {
        Ok(logic) => with_logic(alloc, handed, file, epoch, logic),
        Err(fault) => Err(fault),
    }
}

/// Units, where they are well formed, or why they aren't.
fn well_formed(
    alloc: Global,
    handed: &Handed<'_>,
    file: &PlantFile,
    epoch: Epoch,
    units: Vec<Unit>,
) -> Result<Typed, ConfigFault>
    requires { HasUnits handed.now file.now epoch (map view_unit units.items) }
    ensures { MatchResult result (IsWellFormed handed.now file.now epoch) (IsRefused handed.now) }
{
    match check(alloc, units) {
        Ok(typed) => Ok(typed),
        Err(mistyped) => Err(refused(alloc, handed, &mistyped)),
    }
}

/// The well-formed units of the sources of texts whose plant file, epoch and limits of texts are right, or why there are none.
fn typed_in<H: Threads + Sync>(
    rt: &H,
    alloc: Global,
    handed: &Handed<'_>,
    file: &PlantFile,
    epoch: Epoch,
) -> Result<Typed, ConfigFault>
    requires { IsLimited handed.now file.now epoch }
    ensures { MatchResult result (IsWellFormed handed.now file.now epoch) (IsRefused handed.now) }
{
    match units_of(rt, alloc, handed, file, epoch) {
        Ok(units) => well_formed(alloc, handed, file, epoch, units),
        Err(fault) => Err(fault),
    }
}

/// The plant file of texts, and its epoch, or why there is none.
fn dated(alloc: Global, handed: &Handed<'_>) -> Result<(PlantFile, Epoch), ConfigFault>
    ensures { MatchResult result (λ dated. HasEpoch handed.now dated.0 dated.1) (IsRefused handed.now) }
{
    let file = match listed(alloc, handed) {
        Ok(file) => file,
        Err(fault) => return Err(fault),
    };
    match epoch_of(handed, &file) {
        Ok(epoch) => Ok((file, epoch)),
        Err(fault) => Err(fault),
    }
}

/// The plant of texts, or why there is none. An observer sees the units of its sources, once they are well formed.
fn accepted<H: Threads + Sync, O: Observer>(
    rt: &H,
    alloc: Global,
    handed: &Handed<'_>,
    observer: &mut O,
) -> Result<Plant, ConfigFault>
    ensures { MatchResult result (Accepted handed.now) (IsRefused handed.now) }
{
    let (file, epoch) = match dated(alloc, handed) {
        Ok(dated) => dated,
        Err(fault) => return Err(fault),
    };
    let orderers = match limited_orderers(alloc, handed, &file, epoch) {
        Ok(lists) => lists,
        Err(fault) => return Err(fault),
    };
    let typed = match typed_in(rt, alloc, handed, &file, epoch) {
        Ok(typed) => typed,
        Err(fault) => return Err(fault),
    };
    observer.typed(alloc, handed.sources, typed.units());
    match parts_of(alloc, handed, &file, epoch, typed) {
        Ok((logic, alarms, tags)) => Ok(assembled(file, epoch, logic, alarms, tags, orderers)),
        Err(fault) => Err(fault),
    }
}

/// A plant file, the index of tags and the lists of who may order again.
fn copied_names(
    alloc: Global,
    file: &PlantFile,
    tags: &Tags,
) -> Result<(PlantFile, Tags, Vec<Items<u32>>), AllocError>
    ensures names { IfOk result (λ copy. (copy.0 ≡ file.now) × (copy.1 ≡ tags.now)) }
    ensures orderers { IfOk result (λ copy. SayWho file.now.consoles copy.2.items) }
{
    let orderers = orderers_in(alloc, file)?;
    let tags = tags.copy()?;
    Ok((file.copy(alloc)?, tags, orderers))
}

/// Logic and alarms again.
fn copied_logic(
    alloc: Global,
    logic: &Framed,
    alarms: &[AlarmRow],
) -> Result<(Framed, Vec<AlarmRow>), AllocError>
    ensures { IfOk result (λ copy. (copy.0 ≡ logic.now) × (copy.1.items ≡ alarms.now)) }
{
    let rows = copy_rows(alloc, alarms)?;
    Ok((logic.copy(alloc)?, rows))
}

impl Plant {
    /// The files that a plant file names: a caller opens them and hands their texts to `read`.
    ///
    /// Fails with `NotToml` (C1) or `PlantFile` (C2), and with `Memory` if memory is refused.
    pub fn files(alloc: Global, plant: &[u8]) -> Result<Files, ConfigFault>
        ensures files { IfOk result (λ files. option_map files_of (plant_file_in plant.now)
            ≡ Some files) }
        ensures refused { IfErr result (IsFileFault plant.now) }
    {
        match file_of(alloc, plant) {
            Ok(file) => {
                let files = files_of(alloc, &file);
                drop(file);
                Ok(files?)
            }
            Err(fault) => Err(fault),
        }
    }

    /// Reads a plant from the bytes of its plant file, its sources, each by its name and its bytes, and its alarm database. Sources are
    /// Structured Text (IEC 61131-3, this profile). A byte order mark at the start of any of them is skipped.
    ///
    /// Every fault but `Memory` is the first that the texts have, by the order of the refusals: C1, C2, C3; C10 of SOURCES, TEXT, AREAS and
    /// CONSOLES; C4 or C5 of the first source that has one; C6, C7, C8, C9; C10 of TURNS, BLOCK_DEPTH, PROGRAMS, ELEMENTS, SLOTS, SIZE and COST; C11;
    /// C10 of ALARMS; C12, C13, C14. `Memory` comes if memory is refused; where the texts are right, nothing else does.
    ///
    /// Large sources are parsed in threads, as many at once as there are processors.
    pub fn read<H: Threads + Sync>(
        rt: &H,
        alloc: Global,
        plant: &[u8],
        sources: &[(&str, &[u8])],
        alarms: &[u8],
    ) -> Result<Plant, ConfigFault>
        ensures plant { IfOk result
            (Accepted
            (texts_of plant.now (map (λ s. s.0.now) sources.now) (map (λ s. s.1.now) sources.now)
            alarms.now)) }
        ensures refused { IfErr result
            (IsRefused
            (texts_of plant.now (map (λ s. s.0.now) sources.now) (map (λ s. s.1.now) sources.now)
            alarms.now)) }
        ensures accepted { (expected : PlainPlant)
            → Accepted
            (texts_of plant.now (map (λ s. s.0.now) sources.now) (map (λ s. s.1.now) sources.now)
            alarms.now) expected
            → MatchResult result (λ plant. plant ≡ expected) (λ refused. refused ≡ fault.Memory) }
    {
        Plant::read_observed(rt, alloc, plant, sources, alarms, &mut Nobody)
    }

    /// Reads a plant as `read` does. An observer sees the units of its sources, once they are well formed.
    pub fn read_observed<H: Threads + Sync, O: Observer>(
        rt: &H,
        alloc: Global,
        plant: &[u8],
        sources: &[(&str, &[u8])],
        alarms: &[u8],
        observer: &mut O,
    ) -> Result<Plant, ConfigFault>
        ensures plant { IfOk result
            (Accepted
            (texts_of plant.now (map (λ s. s.0.now) sources.now) (map (λ s. s.1.now) sources.now)
            alarms.now)) }
        ensures refused { IfErr result
            (IsRefused
            (texts_of plant.now (map (λ s. s.0.now) sources.now) (map (λ s. s.1.now) sources.now)
            alarms.now)) }
        ensures accepted { (expected : PlainPlant)
            → Accepted
            (texts_of plant.now (map (λ s. s.0.now) sources.now) (map (λ s. s.1.now) sources.now)
            alarms.now) expected
            → MatchResult result (λ plant. plant ≡ expected) (λ refused. refused ≡ fault.Memory) }
    {
        let handed = Handed {
            plant,
            sources,
            alarms,
        };
        accepted(rt, alloc, &handed, observer)
    }

    /// The same plant.
    pub fn copy(&self, alloc: Global) -> Result<Plant, AllocError>
        ensures { IfOk result (λ copy. copy ≡ self.now) }
    {
        let (file, tags, orderers) = copied_names(alloc, &self.file, &self.tags)?;
        let (logic, alarms) = copied_logic(alloc, &self.logic, &self.alarms)?;
        Ok(Plant {
            file,
            epoch: self.epoch,
            logic,
            alarms,
            tags,
            orderers,
        })
    }

    /// The logic.
    pub fn logic(&self) -> &Framed
        ensures source { result.now ≡ self.now.source }
        ensures plant { IsPlant self.now }
    {
        &self.logic
    }

    /// The instant of moment 0: a second of the years 1970 to 2399.
    pub fn epoch(&self) -> &Epoch
        ensures { result.now ≡ self.now.epoch }
    {
        &self.epoch
    }

    /// The globals, in order of declaration: of each its name, its kind and, if it has an address, its region.
    pub fn globals(&self) -> &[Variable]
        ensures globals { result.now ≡ globals_of self.now }
        ensures plant { IsPlant self.now }
    {
        self.logic.globals()
    }

    /// The consoles, in the order in which the plant lists them.
    pub fn consoles(&self) -> &[ListedConsole]
        ensures consoles { result.now ≡ self.now.consoles }
        ensures plant { IsPlant self.now }
    {
        self.file.consoles()
    }

    /// Whether a console may order the alarms of an area: one of this number has it among its areas. It goes through no console's areas.
    pub fn may_order(&self, console: u32, area: u32) -> bool
        ensures { result ≡ list_any (has_area console area) self.now.consoles }
    {
        is_orderer(self.orderers.as_slice(), console, area)
    }

    /// The alarms, in the order of the database.
    pub fn alarm_rows(&self) -> &[AlarmRow]
        ensures rows { result.now ≡ self.now.alarms }
        ensures plant { IsPlant self.now }
    {
        self.alarms.as_slice()
    }

    /// How many alarms there are, at most 20,000.
    pub fn alarms(&self) -> u32
        ensures count { result ≡ length self.now.alarms }
        ensures plant { IsPlant self.now }
    {
        self.alarms.len() as u32
    }

    /// How many areas there are, at most 64.
    pub fn areas(&self) -> u32
        ensures { result ≡ length self.now.areas }
    {
        self.file.areas().len() as u32
    }

    /// How many programs there are.
    pub fn programs(&self) -> u32
        ensures count { result ≡ length (programs_of self.now) }
        ensures plant { IsPlant self.now }
    {
        self.logic.programs().len() as u32
    }

    /// The number of the alarm with a tag; `None` if there is none. Letter case counts.
    pub fn alarm_number(&self, tag: &str) -> Option<u32>
        ensures number { result ≡ alarm_number self.now tag.now }
        ensures within { IfSome result (λ number. number < length self.now.alarms) }
    {
        let number = self.tags.number(tag)?;
        Some(number as u32)
    }

    /// The number of the global with a name, letter case ignored; `None` if there is none. It takes no memory.
    pub fn global_number(&self, name: &str) -> Option<u32>
        ensures number { result ≡ global_number self.now name.now }
        ensures within { IfSome result (λ number. number < length (globals_of self.now)) }
    {
        let number = self.logic.find_global(name)?;
        Some(number as u32)
    }

    /// The number of the program with a name, letter case ignored; `None` if there is none.
    pub fn program_number(&self, name: &str) -> Option<u32>
        ensures number { result ≡ program_number self.now name.now }
        ensures within { IfSome result (λ number. number < length (programs_of self.now)) }
    {
        match program_row(self.logic.programs(), name) {
            Some(number) => Some(number as u32),
            None => None,
        }
    }

    /// The tag of an alarm.
    pub fn tag(&self, alarm: u32) -> &str
        requires { alarm < length self.now.alarms }
        ensures { result.now ≡ tag_of self.now alarm }
    {
        self.tags.tag(alarm as usize)
    }

    /// The priority of an alarm: 1 to 4, 1 the highest.
    pub fn priority(&self, alarm: u32) -> u32
        requires { alarm < length self.now.alarms }
        ensures { result ≡ priority_of self.now alarm }
    {
        self.alarms[alarm as usize].priority
    }

    /// The name of an area.
    pub fn area(&self, area: u32) -> &str
        requires { area < length self.now.areas }
        ensures { result.now ≡ area_of self.now area }
    {
        self.file.areas()[area as usize].as_str()
    }

    /// The name of a global variable, as declared.
    pub fn global(&self, global: u32) -> &str
        requires { global < length (globals_of self.now) }
        ensures { result.now ≡ global_of self.now global }
    {
        self.logic.globals()[global as usize].name.as_str()
    }

    /// The name of a program, as declared.
    pub fn program(&self, program: u32) -> &str
        requires { program < length (programs_of self.now) }
        ensures { result.now ≡ program_at self.now program }
    {
        self.logic.programs()[program as usize].name.as_str()
    }

    /// What a scan of a program costs at most, by the rule of the limit of 2,000,000 (this profile): of the program as it is written.
    pub fn cost(&self, program: u32) -> u64
        requires { program < length (programs_of self.now) }
        ensures { result ≡ get_or (program_costs self.now.source) program 0 }
    {
        self.logic.cost(program as usize)
    }

    /// Appends the path of the body in which a trap occurred, as a fault prints it: the names of the program and of the instances below it, as
    /// declared, with points between them. Fails if memory is refused; what was appended then is of no use.
    pub fn push_body_path(&self, path: u32, text: &mut String) -> Result<(), AllocError>
        requires { path < length (body_paths self.now) }
        ensures { IfOk result (λ _. string_bytes text.new
            ≡ string_bytes text.old ++ body_path self.now path) }
    {
        self.logic.push_path(path, text)
    }

    /// The path of the body in which a trap occurred, as a fault prints it: a text of its own.
    pub fn body_path(&self, alloc: Global, path: u32) -> Result<String, AllocError>
        requires { path < length (body_paths self.now) }
        ensures { IfOk result (λ text. string_bytes text ≡ body_path self.now path) }
    {
        let mut text = String::new(alloc);
        self.push_body_path(path, &mut text)?;
        Ok(text)
    }
}

/// The number of the first program with a name, letter case ignored; `None` if there is none.
fn program_row(programs: &[Heading], name: &str) -> Option<usize>
    ensures number { result
        ≡ position (λ (program : Heading). same_word program.name name.now) programs.now }
    ensures within { IfSome result (λ number. number < length programs.now) }
{
    programs.iter().position(|program| same_word(program.name.as_bytes(), name.as_bytes()))
}
