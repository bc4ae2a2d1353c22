//! All units of a plant are walked.

use crate::teller::Teller;
use base_words::Names;
use explain_names::Behind;
use explain_trees::{Body, BrokenRule, Cursor, Mistake, Parsed, Told, Trees, steps_of};
use st_names::SharedNames;
use st_parser::{Pou, PouKind, Section, Unit};
use std::alloc::{AllocError, Global};

/// So many blocks are looked at for circles, where the plant isn't refused for one.
const MOST_BLOCKS: usize = 20_000;

impl<'t> Teller<'t> {
    /// Begins a unit of a name that declares these sections itself.
    fn begin(&mut self, name: &'t str, sections: &'t [Section], is_open: bool) {
        self.missing = Names::new(self.alloc);
        self.kept.clear();
        let body = Body::new(self.plant, name, sections, is_open);
        if let Some(body) = self.told.got(body) {
            self.body = body;
        }
    }

    /// Walks a block or a program.
    fn pou(&mut self, pou: &'t Pou) {
        let number = self.cursor.pass_name(&pou.name);
        self.shared_name(&pou.name, number);
        let is_open = self.plant.unknown.has_owner(self.source);
        let is_first = self.plant.find(&pou.name).is_some_and(|first| {
            first.source == self.source && first.name.at() == pou.name.at()
        });
        self.is_block = is_first && matches!(pou.kind, PouKind::Block);
        self.begin(pou.name.as_str(), &pou.sections, is_open);
        self.sections(&pou.sections);
        let steps = steps_of(self.alloc, &pou.body);
        if let Some(steps) = self.told.got(steps) {
            for step in steps {
                self.stmt(step);
            }
        }
    }

    /// Walks the globals of a source and its blocks and programs, these until as many mistakes are found as are told.
    fn unit(&mut self, unit: &'t Unit) {
        self.begin("VAR_GLOBAL", &[], false);
        self.sections(&unit.globals);
        for pou in &unit.pous {
            if self.told.is_full() {
                return;
            }
            self.pou(pou);
        }
    }
}

/// The mistakes of a plant's units.
fn mistakes_in<'t>(
    plant: &'t Trees<'t>,
    refused: Option<BrokenRule>,
) -> Result<Vec<Mistake>, AllocError> {
    let alloc = plant.alloc;
    let mut teller = Teller {
        alloc,
        plant,
        source: 0,
        cursor: Cursor::new(b"", &[]),
        body: Body::new(plant, "", &[], false)?,
        is_block: false,
        controls: Vec::new(alloc),
        behind: Behind::Nothing,
        arguments: &[],
        missing: Names::new(alloc),
        kept: Vec::new(alloc),
        strays: Names::new(alloc),
        given: Names::new(alloc),
        told: Told::new(alloc, refused),
        blocks_left: MOST_BLOCKS,
    };
    for (number, source) in plant.sources.iter().enumerate() {
        if let Some(unit) = plant.units.get(number) {
            teller.source = number;
            teller.cursor = Cursor::new(source.text, source.tokens.as_slice());
            teller.unit(unit);
        }
    }
    let Teller { told, .. } = teller;
    told.into_list(alloc)
}

/// The mistakes of units whose names are known.
fn in_units(
    alloc: Global,
    parsed: Parsed<'_>,
    shared: &SharedNames<'_>,
    (alarms, refused): (&[u8], Option<BrokenRule>),
) -> Result<Vec<Mistake>, AllocError> {
    let standard = SharedNames::new(alloc, &[])?;
    let plant = Trees::new(alloc, parsed, shared, &standard, alarms)?;
    mistakes_in(&plant, refused)
}

/// What is wrong in the units of the sources of a plant, as far as these are known, in order of text, 20 mistakes in all at most. Where the plant is refused by
/// a rule, the first mistake that breaks this rule comes first. The alarm database is looked into for names that aren't declared: where it has one, that is no
/// slip.
pub fn mistakes(
    alloc: Global,
    parsed: Parsed<'_>,
    alarms: &[u8],
    refused: Option<BrokenRule>,
) -> Result<Vec<Mistake>, AllocError> {
    let shared = SharedNames::new(alloc, parsed.units)?;
    in_units(alloc, parsed, &shared, (alarms, refused))
}
