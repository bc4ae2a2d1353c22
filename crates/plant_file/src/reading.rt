//! Reading a plant file.

ghost use Rattle.std.specs.Prelude.{◌≡◌, IfOk, IfErr, map, option_map, Some, string_bytes};
ghost use Rattle.std.specs.List.{list_all};
ghost use Rattle.toml.specs.View.{table_view};
ghost use Rattle.plant_types.specs.Words.{is_tag, is_sized};
ghost use Rattle.plant_file.specs.PlantFiles.{IsPlantFile, alarms_in, areas_in, name_in, plant_file, sources_in};
ghost use Rattle.plant_file.specs.Read.{IsRefused, document_in, plant_file_in};

use crate::console::{ListedConsole, consoles_in};
use crate::fault::PlantFileFault;
use crate::file::PlantFile;
use crate::mistakes::mistakes_in;
use crate::table::{has_only, is_sized, text_at, texts_at};
use crate::texts::{TextSet, copied};
use crate::unread::Unread;
use plant_types::{Items, Text, is_tag};
use std::alloc::{AllocError, Global};
use std::str;
use toml::Table;

/// The document of bytes. Fails if memory is refused or there is none.
fn document(alloc: Global, bytes: &[u8]) -> Result<Table, PlantFileFault>
    ensures table { IfOk result (λ table. document_in bytes.now ≡ Some (table_view table)) }
    ensures refused { IfErr result (IsRefused bytes.now) }
{
    let Ok(text) = str::from_utf8(bytes) else {
        return Err(PlantFileFault::NotToml(Unread::not_utf8(bytes)));
    };
    match toml::table_from_str(alloc, text) {
        Ok(table) => Ok(table),
        Err(fault) if fault.is_memory() => Err(PlantFileFault::Memory),
        Err(fault) => Err(PlantFileFault::NotToml(Unread::of(fault))),
    }
}

fn are_tags(texts: &[String]) -> bool
    ensures { result ≡ list_all is_tag (map string_bytes texts.now) }
{
    for text in texts {
        if !is_tag(text.as_bytes()) {
            return false;
        }
    }
    true
}

/// Whether each text has so many bytes.
fn are_sized(low: usize, high: usize, texts: &[String]) -> bool
    ensures { result ≡ list_all (is_sized low high) (map string_bytes texts.now) }
{
    for text in texts {
        if !is_sized(low, high, text.as_str()) {
            return false;
        }
    }
    true
}

/// The areas; `None` if what stands under the key is wrong.
pub fn areas_in(alloc: Global, table: &Table) -> Result<Option<TextSet>, AllocError>
    ensures { IfOk result (λ areas. areas ≡ areas_in (table_view table.now)) }
{
    match texts_at(alloc, table, "areas")? {
        Some(areas) if are_tags(areas.as_slice()) => Ok(Some(areas)),
        _ => Ok(None),
    }
}

/// The files of the sources; `None` if what stands under the key is wrong.
fn sources_in(alloc: Global, table: &Table) -> Result<Option<TextSet>, AllocError>
    ensures { IfOk result (λ sources. sources ≡ sources_in (table_view table.now)) }
{
    match texts_at(alloc, table, "sources")? {
        Some(sources) if are_sized(1, 255, sources.as_slice()) => Ok(Some(sources)),
        _ => Ok(None),
    }
}

/// The name; `None` if what stands under the key is wrong.
fn name_in(table: &Table) -> Option<&str>
    ensures { option_map (λ s. s.now) result ≡ name_in (table_view table.now) }
{
    match text_at(table, "name") {
        Some(name) if is_sized(1, 64, name) => Some(name),
        _ => None,
    }
}

/// The file of the alarms; `None` if what stands under the key is wrong.
fn alarms_in(table: &Table) -> Option<&str>
    ensures { option_map (λ s. s.now) result ≡ alarms_in (table_view table.now) }
{
    match text_at(table, "alarms") {
        Some(alarms) if is_sized(1, 255, alarms) => Some(alarms),
        _ => None,
    }
}

/// Makes a plant file of its parts.
fn file_with(
    alloc: Global,
    name: &str,
    epoch: &str,
    areas: &TextSet,
    sources: &TextSet,
    alarms: &str,
    consoles: Items<ListedConsole>,
) -> Result<PlantFile, AllocError>
    requires { IsPlantFile
        (record {
          name = name.now;
          epoch = epoch.now;
          areas = areas.now;
          sources = sources.now;
          alarms = alarms.now;
          consoles = consoles;
        }) }
    ensures { IfOk result (λ file. file
        ≡ record {
          name = name.now;
          epoch = epoch.now;
          areas = areas.now;
          sources = sources.now;
          alarms = alarms.now;
          consoles = consoles;
        }) }
{
    let name = Text::from_str(alloc, name)?;
    let epoch = Text::from_str(alloc, epoch)?;
    let areas = Items::from_vec(copied(alloc, areas.as_slice())?);
    let sources = Items::from_vec(copied(alloc, sources.as_slice())?);
    let alarms = Text::from_str(alloc, alarms)?;
    Ok(PlantFile {
        name,
        epoch,
        areas,
        sources,
        alarms,
        consoles,
    })
}

/// The plant file that a document is; `None` if it is none.
fn plant_file(alloc: Global, table: &Table) -> Result<Option<PlantFile>, AllocError>
    ensures { IfOk result (λ file. file ≡ plant_file (table_view table.now)) }
{
    if !has_only(
        table,
        &["name", "epoch", "areas", "sources", "alarms", "console"],
    ) {
        return Ok(None);
    }
    let Some(name) = name_in(table) else {
        return Ok(None);
    };
    let Some(epoch) = text_at(table, "epoch") else {
        return Ok(None);
    };
    let Some(areas) = areas_in(alloc, table)? else {
        return Ok(None);
    };
    let Some(sources) = sources_in(alloc, table)? else {
        return Ok(None);
    };
    let Some(alarms) = alarms_in(table) else {
        return Ok(None);
    };
    let Some(consoles) = consoles_in(alloc, &areas, table)? else {
        return Ok(None);
    };
    let file = file_with(alloc, name, epoch, &areas, &sources, alarms, consoles)?;
    Ok(Some(file))
}

/// Reads a plant file: a TOML document in UTF-8, whose byte order mark is skipped. Fails if memory is refused, if there is no document, or if the
/// document isn't that of a plant file.
pub fn read(alloc: Global, bytes: &[u8]) -> Result<PlantFile, PlantFileFault>
    ensures file { IfOk result (λ file. plant_file_in bytes.now ≡ Some file) }
    ensures refused { IfErr result (IsRefused bytes.now) }
{
    let table = document(alloc, bytes)?;
    match plant_file(alloc, &table)? {
        Some(file) => Ok(file),
        None => Err(PlantFileFault::Wrong(mistakes_in(alloc, &table)?)),
    }
}
