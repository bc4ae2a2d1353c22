//! Who has a name for itself that another unit hasn't, and how an instance is declared.

use crate::hints::{Behind, Wanted};
use crate::slips::{Said, plain, with_words};
use explain_tokens::fits;
use explain_trees::{DeclaredName, Form, Trees};
use plant_types::Text;
use st_names::sort_kind;
use st_parser::SectionKind;
use st_tree::Argument;
use std::alloc::AllocError;

/// The blocks that are there from the start.
const STANDARD: [&str; 3] = ["TON", "TOF", "R_TRIG"];

/// Whether what a unit has for itself is what is wanted.
fn suits(entry: &DeclaredName<'_>, wanted: Wanted) -> bool {
    let kind = entry.sort().and_then(|sort| sort_kind(sort));
    match wanted {
        Wanted::Instance => entry.block().is_some(),
        Wanted::Of(wanted) | Wanted::TargetOf(wanted) => kind == Some(wanted),
        Wanted::Called => false,
        Wanted::Array => entry.block().is_none() && kind.is_none(),
        _ => kind.is_some(),
    }
}

/// The section of a block in which a name is declared; `None` where its owner is a program.
fn section_in_block(entries: &[DeclaredName<'_>], entry: &DeclaredName<'_>) -> Option<SectionKind> {
    let mut owners = entries.iter();
    let is_block = owners.any(|owner| {
        matches!(&owner.form, Form::Block(_)) && owner.is_called(entry.owner)
    });
    match &entry.form {
        Form::Declared(declared) if is_block => Some(declared.section()),
        _ => None,
    }
}

/// What is said of a name that another unit has for itself and that is read; `None` where none has it as what is wanted, or nothing helps: a short name, as i, is
/// that of another thing in each unit.
pub fn owner_hint<'t>(
    entries: &[DeclaredName<'t>],
    name: &'t str,
    wanted: Wanted,
) -> Option<Said<'t>> {
    let mut owned = entries.iter();
    let entry = owned.find(|entry| {
        !entry.owner.is_empty() && entry.is_called(name) && suits(entry, wanted)
    })?;
    let section = section_in_block(entries, entry);
    let text = match section {
        Some(SectionKind::Output) =>
            "; % has an output of this name, which is read from an instance, behind a point",
        _ if name.len() < 3 => return None,
        _ if matches!(wanted, Wanted::Instance) =>
            "; % has an instance of this name for itself: assign its output to a global there",
        None =>
            "; % has one of this name for itself, and what several read is a global (VAR_GLOBAL)",
        Some(SectionKind::Local) =>
            "; % has one of this name for itself: as VAR_OUTPUT it is read from an instance, behind a point",
        Some(_) => return None,
    };
    Some(with_words(text, entry.owner, ""))
}

/// Whether a block has all arguments of a call.
pub fn takes_all(plant: &Trees<'_>, block: &Text, arguments: &[Argument<Text>]) -> bool {
    let mut arguments = arguments.iter();
    arguments.all(|argument| match argument {
        Argument::Input(name, _) => plant.shared.input(block, name).is_some(),
        Argument::Output(name, _) => plant.shared.output(block, name).is_some(),
    })
}

/// Whether a block has an output.
pub fn has_output(plant: &Trees<'_>, block: &Text, output: &Text) -> bool {
    plant.shared.output(block, output).is_some()
}

/// Whether a block that is there from the start has an output, or one of the sources.
fn is_output(plant: &Trees<'_>, output: &Text) -> bool {
    let mut entries = plant.entries.iter();
    fits("Q|ET", output.as_str())
        || entries.any(|entry| match &entry.form {
            Form::Block(pou) => has_output(plant, &pou.name, output),
            _ => false,
        })
}

/// What is said of a word that nothing is called and behind whose point a global stands, as behind the name of a list of globals; `None` where it may be an
/// instance.
pub fn list_hint<'t>(plant: &Trees<'_>, word: &Text, behind: Behind<'t>) -> Option<Said<'t>> {
    let Behind::Output(global) = behind else {
        return None;
    };
    let (mut entries, mut globals) = (plant.entries.iter(), plant.entries.iter());
    let is_there = entries.any(|entry| entry.is_called(word.as_str()));
    let is_global = globals.any(|entry| {
        entry.is_global(None) && entry.is_called(global.as_str())
    });
    if is_there || !is_global || is_output(plant, global) {
        return None;
    }
    let text = "; globals are named without the name of a list: %";
    Some(with_words(text, global.as_str(), ""))
}

/// The blocks of which an instance may be that is called with these arguments, as many as are told.
fn blocks_of<'t>(
    plant: &Trees<'t>,
    arguments: &[Argument<Text>],
) -> Result<Vec<&'t str>, AllocError> {
    let mut blocks = Vec::new(plant.alloc);
    for standard in STANDARD {
        let word = Text::from_str(plant.alloc, standard)?;
        if takes_all(plant, &word, arguments) {
            blocks.push(standard)?;
        }
    }
    for entry in &plant.entries {
        if let (Form::Block(pou), true) = (&entry.form, blocks.len() < 3) {
            if takes_all(plant, &pou.name, arguments) {
                blocks.push(pou.name.as_str())?;
            }
        }
    }
    Ok(blocks)
}

/// How an instance is declared: where it is called with arguments, of which blocks it may be.
pub fn instance_hint<'t>(plant: &Trees<'t>, behind: Behind<'_>) -> Result<Said<'t>, AllocError> {
    let Behind::Call(arguments) = behind else {
        return Ok(plain("; an instance is declared in VAR, with its block"));
    };
    let blocks = blocks_of(plant, arguments)?;
    Ok(match blocks.as_slice() {
        [block] => {
            let text =
                "; an instance is declared in VAR before it is called: block % has what this call names";
            with_words(text, *block, "")
        }
        [block, other] => {
            let text =
                "; an instance is declared in VAR before it is called: blocks % and % have what this call names";
            with_words(text, *block, *other)
        }
        _ => plain("; an instance is declared in VAR before it is called, with its block"),
    })
}
