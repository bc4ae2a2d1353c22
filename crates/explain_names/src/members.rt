//! The inputs and outputs of blocks.

use crate::slips::{Slips, question_or_nothing};
use explain_tokens::{fits, said_of};
use explain_trees::{Form, Trees, filled};
use plant_types::{Text, same_word};
use st_names::declared_in;
use st_parser::SectionKind;
use st_tree::Argument;
use std::alloc::AllocError;

/// How a name behind a call's parenthesis or an instance's point is used.
#[derive(Clone, Copy, PartialEq, Eq, Drop)]
pub enum Member {
    /// An input that a call gives.
    Given,
    /// An output that a call takes.
    Taken,
    /// An output that is read, behind a point.
    Read,
}

/// The names of the inputs or outputs that the blocks from the start have.
const STANDARD_MEMBERS: [&str; 5] = ["IN", "PT", "CLK", "Q", "ET"];

/// Names that other dialects have for the inputs and outputs of timers, and those that they have here.
const DIALECTS: &str = "\
DN Q
ACC|CV ET
PRE|PV PT
TimerEnable IN
";

/// Adds the inputs or outputs of a block that is there from the start, or of one of the sources.
fn add_members<'t>(
    plant: &Trees<'t>,
    word: &Text,
    are_inputs: bool,
    names: &mut Vec<&'t str>,
) -> Result<(), AllocError> {
    for standard in STANDARD_MEMBERS {
        let name = Text::from_str(plant.alloc, standard)?;
        if plant.is_standard_member(word, &name, are_inputs) {
            names.push(standard)?;
        }
    }
    let Some(pou) = plant.block(word) else {
        return Ok(());
    };
    let list = declared_in(plant.alloc, &pou.sections)?;
    for declared in &list {
        match declared.section() {
            SectionKind::Input if are_inputs => names.push(declared.name().as_str())?,
            SectionKind::Output if !are_inputs => names.push(declared.name().as_str())?,
            _ => {}
        }
    }
    Ok(())
}

/// Whether a call names an input or an output.
fn is_given(arguments: &[Argument<Text>], name: &str) -> bool {
    let mut arguments = arguments.iter();
    arguments.any(|argument| match argument {
        Argument::Input(word, _) | Argument::Output(word, _) => {
            same_word(word.as_bytes(), name.as_bytes())
        }
    })
}

/// Whether a word is a long name without one or two letters, as feedbk of feedback.
fn is_shortened(word: &[u8], name: &[u8]) -> bool {
    let mut found = 0usize;
    for letter in name {
        if let Some(sought) = word.get(found) {
            if sought.eq_ignore_ascii_case(letter) {
                found = found.saturating_add(1);
            }
        }
    }
    let left_out = name.len().saturating_sub(word.len());
    word.len() > 5 && found == word.len() && matches!(left_out, 1 | 2)
}

/// The inputs of a block, or its outputs, each behind a blank, and a question for the one that is meant by a name that it hasn't: none that the call with these
/// arguments names too.
pub fn members_of<'t>(
    plant: &Trees<'t>,
    word: &Text,
    (name, member): (&'t Text, Member),
    arguments: &[Argument<Text>],
) -> Result<(String, String), AllocError> {
    let mut names = Vec::new(plant.alloc);
    add_members(plant, word, member == Member::Given, &mut names)?;
    let mut list = String::new(plant.alloc);
    let mut slips = Slips::of(name.as_str());
    let mut longer = Slips::of(name.as_str());
    let other = said_of(DIALECTS, &[name.as_str()]);
    let (is_timer, mut has_other) = (fits("TON|TOF", word.as_str()), false);
    for member in names {
        list.push(' ')?;
        list.push_str(member)?;
        if !is_given(arguments, member) {
            slips.offer(member);
            let is_other = same_word(member.as_bytes(), other.as_bytes());
            has_other = has_other || is_timer && is_other;
        }
        if is_shortened(name.as_bytes(), member.as_bytes()) {
            longer.keep(member);
        }
    }
    let meant = match slips.likely() {
        "" if has_other => other,
        "" => longer.only(),
        near => near,
    };
    let (hint, words) = question_or_nothing(meant);
    let hint = filled(plant.alloc, &[hint], "", &words)?;
    Ok((list, hint))
}

/// Whether a name stands in a VAR of a block.
fn is_local(plant: &Trees<'_>, word: &Text, name: &Text) -> bool {
    let mut entries = plant.entries.iter();
    entries.any(|entry| match &entry.form {
        Form::Declared(declared) => {
            let is_there = same_word(entry.owner.as_bytes(), word.as_bytes());
            let is_local = matches!(declared.section(), SectionKind::Local);
            is_there && is_local && entry.is_called(name.as_str())
        }
        _ => false,
    })
}

/// What is said beside a name that a block has, but not for this use, of which it has none, or others; empty where it hasn't it.
pub fn other_use(
    plant: &Trees<'_>,
    word: &Text,
    (name, member): (&Text, Member),
    has_none: bool,
) -> &'static str {
    let is_input = plant.shared.input(word, name).is_some();
    let is_output = plant.shared.output(word, name).is_some();
    match member {
        Member::Given if is_output && has_none => {
            "it stands in VAR_OUTPUT there, and an input stands in VAR_INPUT"
        }
        _ if is_input && has_none => {
            "it stands in VAR_INPUT there, and an output stands in VAR_OUTPUT"
        }
        Member::Given if is_output => "it is an output, which a call takes by =>, as in q => x",
        Member::Taken if is_input => "it is an input, which a call gives by :=, as in in := x",
        Member::Read if is_input => {
            "it is an input, which is given in a call and can't be read from outside"
        }
        Member::Given if is_local(plant, word, name) => {
            "it stands in VAR there, and an input stands in VAR_INPUT"
        }
        _ if is_local(plant, word, name) => {
            "it stands in VAR there, and an output stands in VAR_OUTPUT"
        }
        _ => "",
    }
}
