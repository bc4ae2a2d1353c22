//! Which areas a plant has.

use plant_file::{Mistake, PlantFileFault, TextSet, read};
use std::alloc::{AllocError, Global};
use toml::Value;

/// What is said of an area that the plant hasn't, whose areas its file lists.
pub fn strange_area(alloc: Global, plant: &[u8], area: &str) -> Result<String, AllocError> {
    let mut said = format!(in alloc; "the plant has no area '{area}'; its areas are:")?;
    let table = toml::table_from_slice(alloc, plant).ok();
    if let Some(Value::Array(areas)) = table.as_ref().and_then(|table| table.get("areas")) {
        for area in areas {
            said.push_str(" ")?;
            said.push_str(area.as_str().unwrap_or(""))?;
        }
    }
    Ok(said)
}

/// The texts of the list of areas of a document, of which these mistakes are found; `None` where one is in that list.
fn right_areas(
    alloc: Global,
    plant: &[u8],
    mistakes: &[Mistake],
) -> Result<Option<TextSet>, AllocError> {
    let mut mistakes = mistakes.iter();
    if mistakes.any(|wrong| wrong.console == 0 && wrong.key.as_str() == "areas") {
        return Ok(None);
    }
    let table = toml::table_from_slice(alloc, plant).ok();
    let Some(Value::Array(areas)) = table.as_ref().and_then(|table| table.get("areas")) else {
        return Ok(None);
    };
    let mut texts = TextSet::new(alloc);
    for area in areas {
        texts.add(alloc, area.as_str().unwrap_or(""))?;
    }
    Ok(Some(texts))
}

/// The areas of a plant; `None` where its file isn't right as to these.
pub fn areas_of(alloc: Global, plant: &[u8]) -> Result<Option<TextSet>, AllocError> {
    match read(alloc, plant) {
        Ok(file) => Ok(Some(file.area_set(alloc)?)),
        Err(PlantFileFault::Memory) => Err(AllocError),
        Err(PlantFileFault::NotToml(unread)) => {
            drop(unread);
            Ok(None)
        }
        Err(PlantFileFault::Wrong(mistakes)) => right_areas(alloc, plant, mistakes.as_slice()),
    }
}
