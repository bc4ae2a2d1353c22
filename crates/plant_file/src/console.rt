//! Consoles, as a plant file lists them.

ghost use Rattle.std.specs.Prelude.{◌≡◌, IfOk, map, string_bytes};
ghost use Rattle.toml.specs.View.{items_view, table_view};
ghost use Rattle.plant_file.specs.PlantFiles.{console_number, console_of, consoles_in, consoles_of, number_in, numbers_clash, numbers_of};

use crate::table::{has_key, has_only, integer_at, list_at, texts_at};
use crate::texts::TextSet;
use indexmap::IndexSet;
use plant_types::Items;
use std::alloc::{AllocError, Global};
use toml::{Table, Value};

/// An operator's console.
pub struct ListedConsole {
    /// Its number in the plant file, 1 to 999999999.
    pub number: u32,
    /// The areas whose alarms it may order, each by its number, from 0, in the list of the plant's areas.
    pub areas: Items<usize>,
}

impl Drop for ListedConsole {
    fn drop(self) {
        let ListedConsole {
            number: _,
            areas: _,
        } = self;
    }
}

impl ListedConsole {
    /// The same console.
    pub(crate) fn copy(&self, alloc: Global) -> Result<ListedConsole, AllocError>
        ensures { IfOk result (λ copy. copy ≡ self.now) }
    {
        let areas = Vec::from_slice(alloc, self.areas.as_slice())?;
        Ok(ListedConsole {
            number: self.number,
            areas: Items::from_vec(areas),
        })
    }
}

/// A number that a console may have; `None` if it isn't from 1 to 999999999.
pub fn console_number(number: i64) -> Option<u32>
    ensures { result ≡ console_number number }
{
    if number < 1 {
        return None;
    }
    if number > 999_999_999 {
        return None;
    }
    Some(number as u32)
}

/// The number of a console; `None` if what stands under the key is wrong.
fn number_in(table: &Table) -> Option<u32>
    ensures { result ≡ number_in (table_view table.now) }
{
    match integer_at(table, "number") {
        Some(number) => console_number(number),
        None => None,
    }
}

/// The numbers of names in a list of areas; `None` if one isn't there.
fn numbers_of(
    alloc: Global,
    areas: &TextSet,
    names: &[String],
) -> Result<Option<Items<usize>>, AllocError>
    ensures { IfOk result (λ numbers. numbers ≡ numbers_of areas.now (map string_bytes names.now)) }
{
    let mut numbers = Vec::new(alloc);
    for name in names {
        let Some(number) = areas.number(name.as_str()) else {
            return Ok(None);
        };
        numbers.push(number)?;
    }
    Ok(Some(Items::from_vec(numbers)))
}

/// The console of a table; `None` if it is none.
fn console_of(
    alloc: Global,
    areas: &TextSet,
    table: &Table,
) -> Result<Option<ListedConsole>, AllocError>
    ensures { IfOk result (λ console. console ≡ console_of areas.now (table_view table.now)) }
{
    if !has_only(table, &["number", "areas"]) {
        return Ok(None);
    }
    let Some(number) = number_in(table) else {
        return Ok(None);
    };
    let Some(names) = texts_at(alloc, table, "areas")? else {
        return Ok(None);
    };
    let Some(areas) = numbers_of(alloc, areas, names.as_slice())? else {
        return Ok(None);
    };
    Ok(Some(ListedConsole { number, areas }))
}

/// The consoles of a list; `None` if an item is no console.
fn consoles_of(
    alloc: Global,
    areas: &TextSet,
    items: &[Value],
) -> Result<Option<Items<ListedConsole>>, AllocError>
    ensures { IfOk result (λ consoles. consoles ≡ consoles_of areas.now (items_view items.now)) }
{
    let mut consoles = Vec::new(alloc);
    for item in items {
        let Some(table) = item.as_table() else {
            return Ok(None);
        };
        match console_of(alloc, areas, table)? {
            Some(console) => consoles.push(console)?,
            None => return Ok(None),
        }
    }
    Ok(Some(Items::from_vec(consoles)))
}

/// Whether two consoles have one number.
fn numbers_clash(alloc: Global, consoles: &[ListedConsole]) -> Result<bool, AllocError>
    ensures { IfOk result (λ clash. clash ≡ numbers_clash consoles.now) }
{
    let mut numbers = IndexSet::new(alloc);
    for console in consoles {
        if !numbers.insert(console.number)? {
            return Ok(true);
        }
    }
    Ok(false)
}

/// The consoles under the key `console`, of which there are none without the key; `None` if what stands there is wrong.
pub fn consoles_in(
    alloc: Global,
    areas: &TextSet,
    table: &Table,
) -> Result<Option<Items<ListedConsole>>, AllocError>
    ensures { IfOk result (λ consoles. consoles ≡ consoles_in areas.now (table_view table.now)) }
{
    if !has_key(table, "console") {
        return Ok(Some(Items::from_vec(Vec::new(alloc))));
    }
    let Some(items) = list_at(table, "console") else {
        return Ok(None);
    };
    let Some(consoles) = consoles_of(alloc, areas, items.as_slice())? else {
        return Ok(None);
    };
    if numbers_clash(alloc, consoles.as_slice())? {
        return Ok(None);
    }
    Ok(Some(consoles))
}

/// The same consoles in the same order.
pub fn copy_consoles(
    alloc: Global,
    consoles: &[ListedConsole],
) -> Result<Items<ListedConsole>, AllocError>
    ensures { IfOk result (λ copies. copies ≡ consoles.now) }
{
    let mut copies = Vec::new(alloc);
    for console in consoles {
        copies.push(console.copy(alloc)?)?;
    }
    Ok(Items::from_vec(copies))
}
