//! What a person is told of a plant on standard error.

ghost use Rattle.std.specs.Prelude.{◌≢◌};
ghost use Rattle.plant_config.specs.declared.fault.ConfigFault.TheVariants as config_fault;

use crate::copies::KeptSources;
use crate::greeting::greet;
use crate::missing::why_missing;
use crate::shelves::Ordinary;
use explain_listing::listing;
use explain_plant::{Warner, explain_all, explain_from, explain_missing, warn};
use explain_statements::statement_table;
use plant_config::{ConfigFault, Observer, Plant, Unit};
use serve_runs::{Folder, Listener, PlantTexts};
use std::alloc::{AllocError, Global};
use std::rt::Files;

/// What a person is told of a plant that is accepted.
#[derive(Clone, Copy)]
pub enum OfAccepted<'a> {
    /// Nothing: it is served.
    Nothing,
    /// How to begin, as soon as the first is accepted, with a command that may be the first. The sources of each are kept here, for what is told while it is
    /// served.
    Greeting(&'a KeptSources, &'static str),
    /// What is likely to be wrong in it.
    Warnings,
    /// What there is in it, and what is likely to be wrong.
    Listing,
}

/// Tells a text on standard error, where there is one; nothing where it can't be written.
fn tell_text(rt: &impl Eprint, text: &Option<String>) {
    if let Some(text) = text {
        let _ = eprint!(rt; "{text}");
    }
}

/// What there is in a plant: the lines of its statements, and its tables.
fn told_of_plant(
    alloc: Global,
    texts: &PlantTexts<'_>,
    plant: &Plant,
) -> Result<String, AllocError> {
    let mut text = statement_table(alloc, texts)?;
    let tables = listing(alloc, plant)?;
    text.push_str(tables.as_str())?;
    Ok(text)
}

/// Why a plant is refused that is read from files: where its own file is, also what is wrong in those that it lists.
fn told_of_files<R: Files>(
    rt: &R,
    alloc: Global,
    texts: &PlantTexts<'_>,
    fault: &ConfigFault,
) -> Result<String, AllocError>
    requires { fault.now ≢ config_fault.Memory }
{
    match fault {
        ConfigFault::NotToml(_) | ConfigFault::PlantFile(_) => {
            let shelf = Ordinary { files: rt };
            explain_from(alloc, &shelf, texts.path, texts.plant, fault)
        }
        _ => explain_all(alloc, texts, fault),
    }
}

/// A listener that keeps what a person is to be told of a plant, until the plant's line has been written: why it is refused, or where that is asked for,
/// what there is in an accepted one, and what is likely to be wrong in it. How to begin it tells at once, since no line is written for a plant that is served;
/// and so it does why a plant is refused that is to take the place of the one that is served.
#[derive(Drop)]
pub struct Telling<'a, R: Files> {
    rt: &'a R,
    /// The path of the plant file, where the plant is read from files.
    path: &'a str,
    of_accepted: OfAccepted<'a>,
    /// Whether a plant has been accepted, which is served if that was asked for.
    has_accepted: bool,
    /// Who saw the plant's sources, where warnings are asked for.
    warner: Option<Warner>,
    /// What there is in the plant; `None` where that isn't to be told, or where memory was refused for it.
    listing: Option<String>,
    /// What else is to be told, likewise.
    text: Option<String>,
}

impl<'a, R: Files> Telling<'a, R> {
    /// A listener that has heard nothing, of a plant that is read from files by the path of its plant file; an empty one where it isn't. Of an accepted plant it
    /// tells what is asked for here.
    pub fn new(rt: &'a R, path: &'a str, of_accepted: OfAccepted<'a>) -> Telling<'a, R> {
        Telling {
            rt,
            path,
            of_accepted,
            has_accepted: false,
            warner: None,
            listing: None,
            text: None,
        }
    }

    /// Tells on standard error what there is to tell; nothing where that can't be written.
    pub fn tell(&self, rt: &impl Eprint) {
        tell_text(rt, &self.listing);
        tell_text(rt, &self.text);
    }
}

impl<'a, R: Files> Observer for Telling<'a, R> {
    fn typed(&mut self, alloc: Global, sources: &[(&str, &[u8])], units: &[Unit]) {
        if let OfAccepted::Warnings | OfAccepted::Listing = self.of_accepted {
            let mut warner = Warner::default();
            warner.typed(alloc, sources, units);
            self.warner = Some(warner);
        }
    }
}

impl<'a, R: Files + Eprint> Listener for Telling<'a, R> {
    fn accepted(&mut self, alloc: Global, texts: &PlantTexts<'_>, plant: &Plant) {
        match self.of_accepted {
            OfAccepted::Nothing => {}
            OfAccepted::Greeting(kept, first) => {
                kept.keep(alloc, texts);
                if !self.has_accepted {
                    kept.take_place();
                    greet(self.rt, first);
                }
            }
            OfAccepted::Warnings => {}
            OfAccepted::Listing => self.listing = told_of_plant(alloc, texts, plant).ok(),
        }
        if let Some(warner) = self.warner.take() {
            self.text = warn(alloc, texts, plant, warner).ok();
        }
        self.has_accepted = true;
    }

    fn refused(&mut self, alloc: Global, texts: &PlantTexts<'_>, fault: &ConfigFault) {
        if self.has_accepted {
            self.text = explain_all(alloc, texts, fault).ok();
            tell_text(self.rt, &self.text);
        } else {
            self.text = told_of_files(self.rt, alloc, texts, fault).ok();
        }
    }

    fn missing<F: Folder>(&mut self, alloc: Global, _folder: &F, path: &str, name: &str) {
        let mut told = why_missing(self.rt, alloc, path, name).ok();
        let shelf = Ordinary { files: self.rt };
        let rest = explain_missing(alloc, &shelf, self.path, name);
        if let (Some(text), Ok(rest)) = (told.as_mut(), rest) {
            let _ = text.push_str(rest.as_str());
        }
        self.text = told;
    }
}
