//! What is wrong in the document of a plant file, key by key and console by console: for a person. It is asked for where the document is refused.

ghost use Rattle.std.specs.Prelude.{⊤};

use crate::console::console_number;
use crate::reading::areas_in;
use crate::table::{is_among, is_sized};
use crate::texts::TextSet;
use indexmap::IndexSet;
use plant_types::is_tag;
use std::alloc::{AllocError, Global};
use std::marker::Model;
use toml::{Table, Value};

/// The most mistakes that are told.
const MOST_MISTAKES: usize = 20;

/// What is wrong with a key, or with what stands under it.
#[derive(Clone, Copy, PartialEq, Eq, Drop)]
pub enum Why {
    /// There is no such key.
    UnknownKey,
    /// The key isn't there.
    MissingKey,
    /// No text stands there.
    NoText,
    /// No list stands there.
    NoList,
    /// No whole number stands there.
    NoNumber,
    /// No table of a console stands there.
    NoConsole,
    /// The text has so many bytes: none, or more than it may.
    Length { bytes: usize, most: usize },
    /// The text hasn't the form of an area.
    NoAreaName,
    /// The text stands in its list already.
    Again,
    /// The plant has no such area.
    StrangeArea,
    /// The number isn't 1 to 999999999.
    OutOfRange,
    /// An earlier console has the number.
    NumberAgain,
}

/// The list or the table of a key: the key, and to whom it belongs.
#[derive(Clone, Copy, Drop)]
pub struct Under<'a> {
    /// 0 for the plant, else the number of the console in the list of consoles, from 1.
    pub console: usize,
    pub key: &'a str,
}

/// Something that is wrong in a plant file.
#[derive(Drop)]
pub struct Mistake {
    /// Whose key it is: 0 for the plant, else the number of the console in the list of consoles, from 1.
    pub console: usize,
    /// The key; empty where a whole console is wrong.
    pub key: String,
    /// The item of the key's list that is wrong, from 0, where one is.
    pub item: Option<usize>,
    /// The text that is wrong, where one is.
    pub text: String,
    pub why: Why,
}

/// What is wrong in a plant file, 20 mistakes at most. Each is wrong whatever becomes of the others. Contracts see nothing of them.
#[derive(Drop)]
pub struct Mistakes {
    list: Vec<Mistake>,
}

impl Model for Mistakes {
    ghost use Rattle.std.specs.Prelude.{⊤};

    ghost Value = { ⊤ };

    ghost view = { λ _. tt };
}

impl Mistakes {
    /// No mistakes.
    pub fn none(alloc: Global) -> Mistakes {
        Mistakes {
            list: Vec::new(alloc),
        }
    }

    /// The mistakes.
    pub fn as_slice(&self) -> &[Mistake] {
        self.list.as_slice()
    }

    /// Adds a mistake under a key, or in an item of its list, unless there are 20.
    fn add(
        &mut self,
        alloc: Global,
        under: Under<'_>,
        item: Option<(usize, &str)>,
        why: Why,
    ) -> Result<(), AllocError> {
        if self.list.len() >= MOST_MISTAKES {
            return Ok(());
        }
        let (item, text) = match item {
            Some((number, text)) => (Some(number), text),
            None => (None, ""),
        };
        let key = String::from_str(alloc, under.key)?;
        let text = String::from_str(alloc, text)?;
        self.list.push(Mistake {
            console: under.console,
            key,
            item,
            text,
            why,
        })?;
        Ok(())
    }
}

/// What the texts of a list have to be.
#[derive(Clone, Copy, Drop)]
enum Form<'a> {
    /// Names of areas.
    Areas,
    /// Names of files.
    Files,
    /// Areas that stand in this list; anything where there is none.
    Among(Option<&'a TextSet>),
}

fn judge_keys(
    alloc: Global,
    table: &Table,
    console: usize,
    known: &[&str],
    found: &mut Mistakes,
) -> Result<(), AllocError> {
    for key in table.keys() {
        let key = key.as_str();
        if !is_among(known, key) {
            found.add(alloc, Under { console, key }, None, Why::UnknownKey)?;
        }
    }
    Ok(())
}

/// Judges a text of the plant's, of at most so many bytes.
fn judge_text(
    alloc: Global,
    table: &Table,
    key: &str,
    (least, most): (usize, usize),
    found: &mut Mistakes,
) -> Result<(), AllocError> {
    let under = Under { console: 0, key };
    let Some(value) = table.get(key) else {
        return found.add(alloc, under, None, Why::MissingKey);
    };
    match value.as_str() {
        None => found.add(alloc, under, None, Why::NoText),
        Some(text) if !is_sized(least, most, text) => {
            let bytes = text.len();
            found.add(alloc, under, None, Why::Length { bytes, most })
        }
        Some(_) => Ok(()),
    }
}

/// What is wrong with a text of a list by itself.
fn fault_of(text: &str, form: Form<'_>) -> Option<Why> {
    match form {
        Form::Areas if !is_tag(text.as_bytes()) => Some(Why::NoAreaName),
        Form::Files if !is_sized(1, 255, text) => Some(Why::Length {
            bytes: text.len(),
            most: 255,
        }),
        Form::Among(Some(areas)) if areas.number(text).is_none() => Some(Why::StrangeArea),
        _ => None,
    }
}

/// Judges an item of a list, which has these texts before it.
fn judge_item(
    alloc: Global,
    (number, item): (usize, &Value),
    (under, form): (Under<'_>, Form<'_>),
    earlier: &mut TextSet,
    found: &mut Mistakes,
) -> Result<(), AllocError> {
    let Some(text) = item.as_str() else {
        return found.add(alloc, under, Some((number, "")), Why::NoText);
    };
    if !earlier.add(alloc, text)? {
        return found.add(alloc, under, Some((number, text)), Why::Again);
    }
    match fault_of(text, form) {
        Some(why) => found.add(alloc, under, Some((number, text)), why),
        None => Ok(()),
    }
}

/// Judges a list of texts, none of which stands there twice.
fn judge_list(
    alloc: Global,
    table: &Table,
    under: Under<'_>,
    form: Form<'_>,
    found: &mut Mistakes,
) -> Result<(), AllocError> {
    let Some(value) = table.get(under.key) else {
        return found.add(alloc, under, None, Why::MissingKey);
    };
    let Some(items) = value.as_array() else {
        return found.add(alloc, under, None, Why::NoList);
    };
    let mut earlier = TextSet::new(alloc);
    for (number, item) in items.iter().enumerate() {
        judge_item(alloc, (number, item), (under, form), &mut earlier, found)?;
    }
    Ok(())
}

/// Judges the number of a console, where these are the earlier ones.
fn judge_number(
    alloc: Global,
    table: &Table,
    console: usize,
    earlier: &mut IndexSet<u32>,
    found: &mut Mistakes,
) -> Result<(), AllocError> {
    let under = Under {
        console,
        key: "number",
    };
    let Some(value) = table.get("number") else {
        return found.add(alloc, under, None, Why::MissingKey);
    };
    let Some(number) = value.as_integer() else {
        return found.add(alloc, under, None, Why::NoNumber);
    };
    let Some(number) = console_number(number) else {
        return found.add(alloc, under, None, Why::OutOfRange);
    };
    if earlier.insert(number)? {
        Ok(())
    } else {
        found.add(alloc, under, None, Why::NumberAgain)
    }
}

/// Judges the console of a number, counted from 1, whose areas stand in this list: its own number is none of these, to which it is added.
fn judge_console(
    alloc: Global,
    (console, item): (usize, &Value),
    areas: Option<&TextSet>,
    numbers: &mut IndexSet<u32>,
    found: &mut Mistakes,
) -> Result<(), AllocError> {
    let Some(table) = item.as_table() else {
        return found.add(alloc, Under { console, key: "" }, None, Why::NoConsole);
    };
    judge_keys(alloc, table, console, &["number", "areas"], found)?;
    judge_number(alloc, table, console, numbers, found)?;
    let under = Under {
        console,
        key: "areas",
    };
    judge_list(alloc, table, under, Form::Among(areas), found)
}

/// Judges the consoles, whose areas stand in this list.
fn judge_consoles(
    alloc: Global,
    consoles: &[Value],
    areas: Option<&TextSet>,
    found: &mut Mistakes,
) -> Result<(), AllocError> {
    let mut numbers = IndexSet::new(alloc);
    let mut console = 0usize;
    for item in consoles {
        console = console.saturating_add(1);
        judge_console(alloc, (console, item), areas, &mut numbers, found)?;
    }
    Ok(())
}

/// Judges what stands under the key `console`, where the key is there.
fn judge_console_key(alloc: Global, table: &Table, found: &mut Mistakes) -> Result<(), AllocError> {
    let Some(value) = table.get("console") else {
        return Ok(());
    };
    let Some(consoles) = value.as_array() else {
        let under = Under {
            console: 0,
            key: "console",
        };
        return found.add(alloc, under, None, Why::NoList);
    };
    let areas = areas_in(alloc, table)?;
    judge_consoles(alloc, consoles.as_slice(), areas.as_ref(), found)
}

/// What is wrong in a document that isn't that of a plant file.
pub fn mistakes_in(alloc: Global, table: &Table) -> Result<Mistakes, AllocError> {
    let mut found = Mistakes::none(alloc);
    let known = ["name", "epoch", "areas", "sources", "alarms", "console"];
    judge_keys(alloc, table, 0, &known, &mut found)?;
    judge_text(alloc, table, "name", (1, 64), &mut found)?;
    judge_text(alloc, table, "epoch", (0, usize::MAX), &mut found)?;
    let areas = Under {
        console: 0,
        key: "areas",
    };
    judge_list(alloc, table, areas, Form::Areas, &mut found)?;
    let sources = Under {
        console: 0,
        key: "sources",
    };
    judge_list(alloc, table, sources, Form::Files, &mut found)?;
    judge_text(alloc, table, "alarms", (1, 255), &mut found)?;
    judge_console_key(alloc, table, &mut found)?;
    Ok(found)
}
