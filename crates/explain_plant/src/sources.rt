//! What is wrong in the sources: in their spelling and their grammar (C4, C5), or in their units (C6 to C9); and behind that in the rows of the alarm database
//! (C11 to C14).

use crate::misplaced::lacking;
use crate::readable::Readable;
use crate::telling::{MOST_FAULTS, REFUSALS, Refused};
use explain_bodies::{BrokenRule, Mistake, mistakes};
use explain_files::Mark;
use explain_limits::too_long;
use explain_sources::{Budget, tell, ungrammatical};
use explain_spelling::misspelled_at;
use explain_tokens::{Cause, FileOf, Spot, byte_at, cause_of, part};
use explain_trees::{Parsed, Unknown};
use explain_uses::{OpenComment, swallower};
use plant_types::Text;
use std::alloc::{AllocError, Global};

/// So many tokens are read at least, and one more for each byte of the sources.
const LEAST_TOKENS: usize = 100_000;

/// No source has so many bytes.
const LONGEST_SOURCE: usize = 16_777_218;

/// The same cause once more.
fn copy_of(alloc: Global, cause: &Cause) -> Result<Cause, AllocError> {
    let said = String::from_str(alloc, cause.said.as_str())?;
    Ok(Cause { said, ..*cause })
}

/// Adds what is wrong in a file to what was found, but for what stands at a place of which it is told already.
fn add_others(
    file: FileOf,
    causes: Vec<Cause>,
    first: Option<(FileOf, Option<Mark>)>,
    found: &mut Vec<Spot>,
) -> Result<(), AllocError> {
    for cause in causes {
        if first != Some((file, cause.mark)) {
            found.push(Spot { file, cause })?;
        }
    }
    Ok(())
}

impl<'t> Refused<'t> {
    pub fn source_of(&self, name: &Text) -> FileOf {
        let mut sources = self.sources.iter();
        let number = sources.position(|source| source.0 == name.as_str());
        FileOf::Source(number.unwrap_or(self.sources.len()))
    }

    /// The text of a source; empty where there is none.
    fn text_of(&self, file: FileOf) -> &'t [u8] {
        match file {
            FileOf::Source(number) => self
                .sources
                .get(number)
                .map_or(b"".as_slice(), |source| source.1),
            _ => b"",
        }
    }

    /// Tells what is wrong in the sources of a plant that is refused for their spelling or their grammar: first at the place of the refusal, by a line and a byte
    /// of the line, and then what `in_all_sources` tells.
    pub fn in_sources(
        &mut self,
        (name, line, column): (&Text, usize, usize),
        is_spelling: bool,
    ) -> Result<(), AllocError> {
        let (alloc, file) = (self.alloc, self.source_of(name));
        if self.is_misplaced(file) {
            self.in_misplaced()?;
            return self.in_all_sources(None);
        }
        let text = self.text_of(file);
        let at = byte_at(text, line, column);
        let cause = if is_spelling {
            misspelled_at(alloc, text, at)?
        } else {
            ungrammatical(alloc, text, at)?
        };
        let first = (file, cause.mark);
        self.tell(file, cause)?;
        self.in_misplaced()?;
        self.in_all_sources(Some(first))
    }

    /// Finds what is wrong in the spelling and the grammar of the sources, in order of text, as far as it is certain, but for what stands at a place of which it
    /// is told already, and what of them can be read.
    fn find_in_sources(
        &self,
        first: Option<(FileOf, Option<Mark>)>,
        readable: &mut Readable<'t>,
        found: &mut Vec<Spot>,
    ) -> Result<(), AllocError> {
        let (causes, tokens) = (MOST_FAULTS, LEAST_TOKENS);
        let mut left = Budget { causes, tokens };
        for (number, source) in self.sources.iter().enumerate() {
            left.tokens = left.tokens.saturating_add(source.1.len());
            let told = tell(self.alloc, source.1, left)?;
            left = told.left;
            readable.add(number, *source, told.units)?;
            add_others(FileOf::Source(number), told.causes, first, found)?;
        }
        Ok(())
    }

    /// Tells what is wrong in the spelling and the grammar of the sources, as `in_all_sources` does, and what of them can be read; returns whether anything is wrong.
    fn in_spelling(
        &mut self,
        first: Option<(FileOf, Option<Mark>)>,
        comments: &[(usize, OpenComment<'t>)],
        readable: &mut Readable<'t>,
    ) -> Result<bool, AllocError> {
        let mut found = Vec::new(self.alloc);
        self.find_in_sources(first, readable, &mut found)?;
        let is_wrong = first.is_some() || !found.is_empty();
        if is_wrong {
            self.add_comments(comments, &mut found)?;
        }
        for spot in found {
            self.told.push(spot)?;
        }
        Ok(is_wrong)
    }

    /// Tells what `in_all_sources` does, beside comments that swallow what follows.
    fn in_sources_beside(
        &mut self,
        first: Option<(FileOf, Option<Mark>)>,
        comments: &[(usize, OpenComment<'t>)],
    ) -> Result<(), AllocError> {
        let mut readable = Readable::new(self.alloc, self.are_all);
        let told = match self.in_spelling(first, comments, &mut readable) {
            Ok(is_wrong) => self.in_readable(&readable, comments, is_wrong),
            Err(refused) => Err(refused),
        };
        drop(readable);
        told
    }

    /// Tells what is wrong in the spelling and the grammar of the sources, in order of text, as far as it is certain, but for what stands at a place of which it
    /// is told already; behind these in the units that can be read, and in the rows of the alarm database.
    pub fn in_all_sources(
        &mut self,
        first: Option<(FileOf, Option<Mark>)>,
    ) -> Result<(), AllocError> {
        let comments = self.swallowers()?;
        let told = self.in_sources_beside(first, comments.as_slice());
        drop(comments);
        told
    }

    /// Adds the comments that swallow what follows to what was found in sources, in order of text.
    fn add_comments(
        &self,
        comments: &[(usize, OpenComment<'t>)],
        found: &mut Vec<Spot>,
    ) -> Result<(), AllocError> {
        for (number, comment) in comments {
            let file = FileOf::Source(*number);
            let cause = copy_of(self.alloc, &comment.cause)?;
            found.push(Spot { file, cause })?;
        }
        found.sort_by_key(|spot: &Spot| {
            let at = spot.cause.mark.map_or(0, |mark| mark.0);
            match spot.file {
                FileOf::Source(number) => number.saturating_mul(LONGEST_SOURCE).saturating_add(at),
                _ => at,
            }
        })?;
        Ok(())
    }

    /// Tells of mistakes in the units that can be read, but for those that may be by comments alone or by something around them that can't be read.
    fn in_found(
        &mut self,
        readable: &Readable<'t>,
        comments: &[(usize, OpenComment<'t>)],
        found: Vec<Mistake>,
    ) -> Result<(), AllocError> {
        for told in found {
            let mut mistake = told;
            let (source, blurs_loops) = readable.origin(mistake.source);
            mistake.source = source;
            let is_open = blurs_loops && mistake.rule == BrokenRule::Constants;
            let is_hidden = self.is_hidden(comments, &mistake);
            if !is_open && !is_hidden && !readable.has_gap(source, mistake.cause.mark) {
                self.tell(FileOf::Source(source), mistake.cause)?;
            }
        }
        Ok(())
    }

    /// Tells of FORs and arrays that are too long, in the units that can be read.
    fn in_long(&mut self, readable: &Readable<'t>) -> Result<(), AllocError> {
        let parsed = readable.parsed();
        for (part, cause) in too_long(self.alloc, parsed.sources, parsed.units)? {
            let (source, _) = readable.origin(part);
            if !readable.has_gap(source, cause.mark) {
                self.tell(FileOf::Source(source), cause)?;
            }
        }
        Ok(())
    }

    /// Tells what is wrong in the units that can be read, as far as it is certain, and in the rows: not what may be wrong only since something around it can't
    /// be read, or by comments that swallow what follows, which are told too, unless they are (`is_told`).
    fn in_readable(
        &mut self,
        readable: &Readable<'t>,
        comments: &[(usize, OpenComment<'t>)],
        is_told: bool,
    ) -> Result<(), AllocError> {
        let parsed = readable.parsed();
        let found = mistakes(self.alloc, parsed, self.alarms, None)?;
        let mut names = found.iter();
        if !is_told && names.any(|mistake| mistake.rule == BrokenRule::Names) {
            self.add_comments_told(comments)?;
        }
        self.in_found(readable, comments, found)?;
        self.in_long(readable)?;
        if comments.is_empty() && !readable.unknown.globals {
            return self.in_rows_beside(parsed.units);
        }
        self.in_rows_beside(&[])
    }

    /// Tells of the comments that swallow what follows.
    fn add_comments_told(
        &mut self,
        comments: &[(usize, OpenComment<'t>)],
    ) -> Result<(), AllocError> {
        for (number, comment) in comments {
            let cause = copy_of(self.alloc, &comment.cause)?;
            self.tell(FileOf::Source(*number), cause)?;
        }
        Ok(())
    }

    /// The comments that swallow what follows, the first of each source, by the source's number.
    fn swallowers(&self) -> Result<Vec<(usize, OpenComment<'t>)>, AllocError> {
        let mut comments = Vec::new(self.alloc);
        for (number, source) in self.sources.iter().enumerate() {
            if let Some(comment) = swallower(self.alloc, source.1)? {
                comments.push((number, comment))?;
            }
        }
        Ok(comments)
    }

    /// Whether a mistake may be one by comments alone that swallow what follows.
    fn is_hidden(&self, comments: &[(usize, OpenComment<'t>)], mistake: &Mistake) -> bool {
        let (from, until) = mistake.cause.mark.unwrap_or((0, 0));
        let word = part(self.text_of(FileOf::Source(mistake.source)), from, until);
        let mut comments = comments.iter();
        comments.any(|(number, comment)| {
            comment.hides((*number == mistake.source).then_some(from), word)
        })
    }

    /// Tells of a unit by its name alone.
    fn in_unit_alone(&mut self, name: &Text, unit: &Text) -> Result<(), AllocError> {
        let (file, unit) = (self.source_of(name), unit.as_str());
        let said = format!(in self.alloc; "what the line above says stands in {unit}")?;
        self.tell(file, cause_of(said, REFUSALS))
    }

    /// Tells of mistakes in units, but for those that may be by comments alone that swallow what follows.
    fn tell_all(
        &mut self,
        found: Vec<Mistake>,
        comments: &[(usize, OpenComment<'t>)],
    ) -> Result<(), AllocError> {
        for mistake in found {
            if !self.is_hidden(comments, &mistake) {
                self.tell(FileOf::Source(mistake.source), mistake.cause)?;
            }
        }
        Ok(())
    }

    /// Tells of FORs and arrays that are too long.
    fn tell_long(&mut self, parsed: Parsed<'_>) -> Result<(), AllocError> {
        for (source, cause) in too_long(self.alloc, parsed.sources, parsed.units)? {
            self.tell(FileOf::Source(source), cause)?;
        }
        Ok(())
    }

    /// Tells what is wrong in units beside what isn't known of them, and in rows: of what these name only where all globals are known.
    fn in_known(&mut self, parsed: Parsed<'_>) -> Result<(), AllocError> {
        let found = mistakes(self.alloc, parsed, self.alarms, None)?;
        self.tell_all(found, &[])?;
        self.tell_long(parsed)?;
        if parsed.unknown.globals {
            return self.in_rows_beside(&[]);
        }
        self.in_rows_beside(parsed.units)
    }

    /// Tells what is wrong in the units though another source has globals, or blocks.
    fn in_units_without(
        &mut self,
        parsed: Parsed<'_>,
        (lacks_globals, lacks_blocks): (bool, bool),
    ) -> Result<(), AllocError> {
        let mut unknown = Unknown::nothing(self.alloc);
        unknown.globals = lacks_globals;
        unknown.blocks = lacks_blocks;
        let told = self.in_known(Parsed {
            unknown: &unknown,
            ..parsed
        });
        drop(unknown);
        told
    }

    /// Tells of comments that swallow what follows, behind what is told first.
    fn insert_comments(
        &mut self,
        comments: Vec<(usize, OpenComment<'t>)>,
    ) -> Result<(), AllocError> {
        for (number, OpenComment { cause, .. }) in comments {
            let (second, file) = (self.told.len().min(1), FileOf::Source(number));
            self.told.insert(second, Spot { file, cause })?;
        }
        Ok(())
    }

    /// Tells of mistakes in units for one of which the plant is refused, of FORs and arrays that are too long, and of rows. Where a name is missing, comments
    /// that swallow what follows come second, and what may be wrong by them alone isn't told.
    fn in_mistakes(
        &mut self,
        parsed: Parsed<'_>,
        rule: BrokenRule,
        found: Vec<Mistake>,
    ) -> Result<(), AllocError> {
        let comments = match rule {
            BrokenRule::Names => self.swallowers()?,
            _ => Vec::new(self.alloc),
        };
        self.tell_all(found, comments.as_slice())?;
        self.tell_long(parsed)?;
        let are_known = comments.is_empty();
        self.insert_comments(comments)?;
        if are_known {
            return self.in_rows_beside(parsed.units);
        }
        self.in_rows_beside(&[])
    }

    /// Tells what is wrong in the units of a plant, as `in_units` does.
    fn in_parsed(
        &mut self,
        parsed: Parsed<'_>,
        rule: BrokenRule,
        (name, unit): (&Text, &Text),
    ) -> Result<(), AllocError> {
        let found = mistakes(self.alloc, parsed, self.alarms, Some(rule))?;
        let lacks = lacking(parsed.units, found.as_slice());
        if lacks.0 || lacks.1 {
            self.in_few_sources(found.as_slice(), lacks.0)?;
            return self.in_units_without(parsed, lacks);
        }
        if found.first().map(|first| first.rule) != Some(rule) {
            self.in_unit_alone(name, unit)?;
        }
        self.in_mistakes(parsed, rule, found)
    }

    /// Tells what is wrong in the units of a plant that is refused for one by a rule: first why it is refused, by the name of the unit where no more of it is
    /// known, and then others in order of text. Behind these come FORs and arrays that are too long, and rows. Where a name is missing, comments that swallow
    /// what follows come second, the first of each source, and what may be wrong by them alone isn't told.
    pub fn in_units(
        &mut self,
        rule: BrokenRule,
        name: &Text,
        unit: &Text,
    ) -> Result<(), AllocError> {
        let readable = Readable::of_right(self.alloc, self.sources)?;
        let told = self.in_parsed(readable.parsed(), rule, (name, unit));
        drop(readable);
        told
    }
}
