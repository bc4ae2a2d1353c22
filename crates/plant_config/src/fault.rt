//! Why a plant is refused.

ghost use Rattle.std.specs.Prelude.{◌≡◌, ◌≢◌, ◌++◌, IfOk, string_bytes, codes};
ghost use Rattle.std.specs.Fmt.{decimal};
ghost use Rattle.alarm_db.specs.Columns.{column_name};
ghost use Rattle.plant_config.specs.FaultLine.{config_line, limit_name, place_text, unit_text};
ghost use Rattle.plant_config.specs.declared.fault.ConfigFault.TheVariants as fault;

use crate::told::RowMistakes;
use alarm_db::Column;
use plant_file::{Mistakes, Unread};
use plant_types::Text;
use std::alloc::{AllocError, Global};
use std::fmt;
use thiserror::Error;

/// What a plant has too much of (C10).
#[derive(Clone, Copy, Drop)]
pub enum Limit {
    /// More than 64 sources.
    Sources,
    /// More than 4,194,304 bytes of sources together, 1,048,576 of the plant file or 16,777,216 of the alarm database.
    Text,
    /// More than 64 areas.
    Areas,
    /// More than 32 consoles.
    Consoles,
    /// A FOR of more than 10,000 turns.
    Turns,
    /// Function blocks nested deeper than 16.
    BlockDepth,
    /// More than 512 programs.
    Programs,
    /// An array of more than 4,096 elements.
    Elements,
    /// More than 65,536 slots: variables, elements of arrays, inputs of standard blocks and standard blocks, in each instance anew.
    Slots,
    /// Programs that together are larger than 1,000,000.
    Size,
    /// A program that costs more than 2,000,000.
    Cost,
    /// More than 20,000 alarms.
    Alarms,
}

/// Why a plant isn't accepted. Lines of a source and bytes of a line count from 1, and so do the rows of the alarm database after its header.
///
/// As an `Error` it says which rule isn't kept; `line` says where, too. What a person is told beside the line stands in the fault too: where the plant file is
/// wrong and why, and what is wrong in the rows of the alarm database. Contracts don't see it.
#[derive(Drop, Error)]
pub enum ConfigFault {
    /// Allocation failed.
    #[error("memory was refused")]
    Memory,
    /// C1: the plant file is no TOML document in UTF-8.
    #[error("C1: the plant file is no TOML document")]
    NotToml(Unread),
    /// C2: a key of the plant file is unknown, missing or wrong, or the sources handed in aren't those that it lists.
    #[error("C2: a key of the plant file is unknown, missing or wrong, or the sources are not those that it lists")]
    PlantFile(Mistakes),
    /// C3: the epoch isn't `YYYY-MM-DDTHH:MM:SSZ` of a second of the years 1970 to 2399.
    #[error("C3: the epoch is not a second of the years 1970 to 2399, as YYYY-MM-DDTHH:MM:SSZ")]
    Epoch,
    /// C10: a limit isn't kept.
    #[error("C10: a limit is not kept")]
    Limit(Limit),
    /// C4: a byte that begins no token, a literal that isn't allowed, or an open comment, in a source.
    #[error("C4: a byte begins no token, a literal is not allowed, or a comment is open")]
    Spelling {
        file: Text,
        line: usize,
        column: usize,
    },
    /// C5: a token with which no unit can go on, or the text's end, in a source.
    #[error("C5: a token with which no unit can go on")]
    Grammar {
        file: Text,
        line: usize,
        column: usize,
    },
    /// C6: a name that isn't declared, is declared twice (the later unit) or is a standard block's; an input of a call given twice, or an output
    /// taken twice. A unit is a block or program by its name as declared, or `VAR_GLOBAL`.
    #[error("C6: a name is not declared, or is declared twice")]
    Name {
        file: Text,
        unit: Text,
    },
    /// C7: something of another kind than it must have, or an assigned input; an instance where a variable has to be, or among globals, inputs or
    /// outputs; a call of what is no instance; an initial value of an instance or of a VAR_EXTERNAL.
    #[error("C7: something is of another kind than it must have")]
    Kind {
        file: Text,
        unit: Text,
    },
    /// C8: a function block that holds itself, directly or through others.
    #[error("C8: a function block holds itself")]
    HoldsItself {
        file: Text,
        unit: Text,
    },
    /// C9: an initial value, or a bound or step of a FOR, that reads a variable or traps, a step 0, or a control variable that isn't allowed.
    #[error("C9: a constant, step or control variable is not allowed")]
    Constant {
        file: Text,
        unit: Text,
    },
    /// C11: the alarm database has no header or another one, or a row with another number of fields.
    #[error("C11: the alarm database has another header, or a row another number of fields")]
    Header(RowMistakes),
    /// C12: a field of the alarm database doesn't have its column's form.
    #[error("C12: a field of the alarm database does not have its column's form")]
    Field {
        row: u32,
        column: Column,
        mistakes: RowMistakes,
    },
    /// C13: a tag that an earlier row has.
    #[error("C13: a tag stands twice")]
    Twice {
        row: u32,
        mistakes: RowMistakes,
    },
    /// C14: an area that the plant file doesn't list, or a name that is no BOOL global's.
    #[error("C14: an area or a variable of the alarm database is not in the plant")]
    Unknown {
        row: u32,
        column: Column,
        mistakes: RowMistakes,
    },
}

impl fmt::Debug for ConfigFault {
    /// Writes what `Display` writes: the rule that isn't kept.
    fn fmt<W: fmt::Write>(&self, f: &mut fmt::Formatter<W>) -> Result<(), fmt::Error> {
        fmt::Display::fmt(self, f)
    }
}

impl From<AllocError> for ConfigFault {
    ghost from_gives = { λ _ e. e ≡ fault.Memory };

    fn from(_refused: AllocError) -> ConfigFault {
        ConfigFault::Memory
    }
}

impl Limit {
    /// Its name, as a refusal prints it.
    pub fn name(self) -> &'static str
        ensures { result.now ≡ limit_name self }
    {
        match self {
            Limit::Sources => "SOURCES",
            Limit::Text => "TEXT",
            Limit::Areas => "AREAS",
            Limit::Consoles => "CONSOLES",
            Limit::Turns => "TURNS",
            Limit::BlockDepth => "BLOCK_DEPTH",
            Limit::Programs => "PROGRAMS",
            Limit::Elements => "ELEMENTS",
            Limit::Slots => "SLOTS",
            Limit::Size => "SIZE",
            Limit::Cost => "COST",
            Limit::Alarms => "ALARMS",
        }
    }
}

impl ConfigFault {
    /// The line that reports the fault, without its line feed.
    pub fn line(&self, alloc: Global) -> Result<String, AllocError>
        requires { self.now ≢ fault.Memory }
        ensures { IfOk result (λ text. string_bytes text ≡ config_line self.now) }
    {
        match self {
            ConfigFault::Memory => Ok(String::new(alloc)),
            ConfigFault::NotToml(_) => String::from_str(alloc, "CONFIG C1"),
            ConfigFault::PlantFile(_) => String::from_str(alloc, "CONFIG C2"),
            ConfigFault::Epoch => String::from_str(alloc, "CONFIG C3"),
            ConfigFault::Limit(limit) => line_with_word(alloc, "CONFIG C10 ", limit.name()),
            ConfigFault::Spelling { file, line, column } => {
                line_with_place(alloc, "CONFIG C4 ", file, *line, *column)
            }
            ConfigFault::Grammar { file, line, column } => {
                line_with_place(alloc, "CONFIG C5 ", file, *line, *column)
            }
            ConfigFault::Name { file, unit } => line_with_unit(alloc, "CONFIG C6 ", file, unit),
            ConfigFault::Kind { file, unit } => line_with_unit(alloc, "CONFIG C7 ", file, unit),
            ConfigFault::HoldsItself { file, unit } => {
                line_with_unit(alloc, "CONFIG C8 ", file, unit)
            }
            ConfigFault::Constant { file, unit } => line_with_unit(alloc, "CONFIG C9 ", file, unit),
            ConfigFault::Header(_) => String::from_str(alloc, "CONFIG C11"),
            ConfigFault::Field { row, column, .. } => {
                line_with_column(alloc, "CONFIG C12 ", *row, *column)
            }
            ConfigFault::Twice { row, .. } => line_with_row(alloc, "CONFIG C13 ", *row),
            ConfigFault::Unknown { row, column, .. } => {
                line_with_column(alloc, "CONFIG C14 ", *row, *column)
            }
        }
    }
}

/// The words, then a word.
fn line_with_word(alloc: Global, words: &str, word: &str) -> Result<String, AllocError>
    ensures { IfOk result (λ text. string_bytes text ≡ words.now ++ word.now) }
{
    let mut text = String::from_str(alloc, words)?;
    text.push_str(word)?;
    Ok(text)
}

/// The words, then a file, a line and a column.
fn line_with_place(
    alloc: Global,
    words: &str,
    file: &Text,
    line: usize,
    column: usize,
) -> Result<String, AllocError>
    ensures { IfOk result (λ text. string_bytes text ≡ words.now ++ place_text file.now line column) }
{
    let mut text = String::from_str(alloc, words)?;
    text.push_str(file.as_str())?;
    text.push_str(" ")?;
    let line = line.to_string(alloc)?;
    text.push_str(line.as_str())?;
    text.push_str(" ")?;
    let column = column.to_string(alloc)?;
    text.push_str(column.as_str())?;
    Ok(text)
}

/// The words, then a file and the name of a unit.
fn line_with_unit(
    alloc: Global,
    words: &str,
    file: &Text,
    unit: &Text,
) -> Result<String, AllocError>
    ensures { IfOk result (λ text. string_bytes text ≡ words.now ++ unit_text file.now unit.now) }
{
    let mut text = String::from_str(alloc, words)?;
    text.push_str(file.as_str())?;
    text.push_str(" ")?;
    text.push_str(unit.as_str())?;
    Ok(text)
}

/// The words, then the number of a row.
fn line_with_row(alloc: Global, words: &str, row: u32) -> Result<String, AllocError>
    ensures { IfOk result (λ text. string_bytes text ≡ words.now ++ decimal row) }
{
    let mut text = String::from_str(alloc, words)?;
    let row = row.to_string(alloc)?;
    text.push_str(row.as_str())?;
    Ok(text)
}

/// The words, then the number of a row and the name of a column.
fn line_with_column(
    alloc: Global,
    words: &str,
    row: u32,
    column: Column,
) -> Result<String, AllocError>
    ensures { IfOk result (λ text. string_bytes text
        ≡ words.now ++ decimal row ++ codes " " ++ column_name column) }
{
    let mut text = line_with_row(alloc, words, row)?;
    text.push_str(" ")?;
    text.push_str(column.name())?;
    Ok(text)
}
