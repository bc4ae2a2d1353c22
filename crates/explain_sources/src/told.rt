//! All causes of a source.

use crate::grammar::cause_at_token;
use crate::holes::{Lexed, tokens_with_holes};
use crate::mend::{Mend, way_on};
use crate::read_units::ReadUnits;
use explain_spelling::misspelled_at;
use explain_tokens::{Cause, TokenPlace, fits, part, tokens_of};
use explain_words::{misnomer, statement_start};
use st_lexer::Token;
use st_parser::{ParseFault, Unit, parse};
use std::alloc::{AllocError, Global};
use std::mem::replace;

/// A unit is read at most so often.
const MOST_READINGS: usize = 40;

/// So many tokens behind a unit are looked at.
const AHEAD: usize = 2;

/// How much is left to be told and to be read.
#[derive(Clone, Copy, Drop)]
pub struct Budget {
    /// How many causes.
    pub causes: usize,
    /// How many tokens.
    pub tokens: usize,
}

/// The numbers of the first and the last token around one at which a unit stops: from where its statement or its declaration begins to where that is left out.
fn numbers_around(place: TokenPlace<'_>, mend: Option<Mend>) -> (usize, usize) {
    let start = statement_start(place).min(place.number);
    let (from, until) = mend.map_or((start, 0), |mend| (mend.from.min(start), mend.until));
    (from, place.number.max(until.saturating_sub(1)))
}

/// The bytes around a token at which a unit stops.
fn around(place: TokenPlace<'_>, mend: Option<Mend>) -> (usize, usize) {
    let (first, last) = numbers_around(place, mend);
    (place.at(first).mark().0, place.at(last).mark().1)
}

/// Whether what can't be read around a token may be declarations: it has a `:`, or a word that begins or ends a section, also one of another dialect.
fn may_declare(place: TokenPlace<'_>, mend: Option<Mend>) -> bool {
    let (first, last) = numbers_around(place, mend);
    let mut tokens = (first..last.saturating_add(1)).map(|number| place.at(number));
    let is_of_section = |place: TokenPlace<'_>| {
        let word = part(place.word().as_bytes(), 0, 3);
        fits(":|END_VAR", place.sign()) || word.eq_ignore_ascii_case(b"VAR")
    };
    place.is_declared() || place.stand() == "head" || tokens.any(is_of_section)
}

/// Whether a token is told by a word that is written otherwise, where no bytes between that and a number begin no token.
fn is_word_before(lexed: &Lexed<'_>, place: TokenPlace<'_>, from: usize) -> bool {
    let told = misnomer(place);
    told.is_some_and(|told| !lexed.has_hole(from, told.0.mark().1))
}

/// Whether words are left out between the one behind a unit's keyword and its first section, at which it stops: then it isn't certain which of them is its
/// name.
fn blurs_name(place: TokenPlace<'_>, mend: Mend) -> bool {
    mend.from == 2 && mend.until == place.number && fits("SECTION", place.sign())
}

/// The tokens of a unit with a mend at one of them.
fn mended(alloc: Global, tokens: &[Token], mend: Mend) -> Result<Vec<Token>, AllocError> {
    let at = tokens.get(mend.from).map_or(0, |token| token.from);
    let mut all = Vec::from_slice(alloc, tokens.get(..mend.from).unwrap_or(tokens))?;
    for token in tokens_of(alloc, mend.put.as_bytes())?.as_slice() {
        all.push(Token {
            kind: token.kind,
            from: at,
            until: at,
        })?;
    }
    all.extend_from_slice(tokens.get(mend.until..).unwrap_or(&[]))?;
    Ok(all)
}

/// What is told of a source.
#[derive(Drop)]
pub struct ToldSource {
    /// What is wrong in its spelling and its grammar, in order of text.
    pub causes: Vec<Cause>,
    /// What is left to be told and to be read.
    pub left: Budget,
    /// Its units that can be read.
    pub units: ReadUnits,
}

/// What comes of reading the tokens of a unit once.
#[derive(Drop)]
enum Once {
    /// They aren't read, since no more are.
    Unread,
    /// They can't go on with the token of a number.
    Stops(usize),
    Whole(Unit),
}

/// A unit that is read, and mended where it stops.
#[derive(Drop)]
struct Draft {
    /// Its tokens, and some that follow it.
    tokens: Vec<Token>,
    /// How many follow it.
    ahead: usize,
    /// Whether the unit above it has no end.
    is_apart: bool,
    /// Where it stopped last.
    last: Option<usize>,
    /// Whether it isn't certain which FORs stand around its statements.
    blurs: bool,
    /// Whether it may declare more than its tree will have.
    lacks: bool,
}

impl Draft {
    /// How many tokens are its own.
    fn len(&self) -> usize {
        self.tokens.len().saturating_sub(self.ahead)
    }

    /// Its own tokens, which are none of it any more.
    fn own_tokens(&mut self, alloc: Global) -> Vec<Token> {
        let len = self.len();
        let mut tokens = replace(&mut self.tokens, Vec::new(alloc));
        tokens.truncate(len);
        tokens
    }
}

/// Whether the tokens from one to before another are those of a program, which has nothing that others have.
fn is_program(first: TokenPlace<'_>, end: TokenPlace<'_>) -> bool {
    let closing = first.ahead("END_PROGRAM|END_FUNCTION_BLOCK");
    let is_closed = closing.sign() == "END_PROGRAM" && closing.next().number == end.number;
    first.sign() == "PROGRAM" && is_closed
}

impl ToldSource {
    /// Tells the cause at a token.
    fn tell(&mut self, alloc: Global, place: TokenPlace<'_>) -> Result<(), AllocError> {
        self.causes.push(cause_at_token(alloc, place)?)?;
        self.left.causes = self.left.causes.saturating_sub(1);
        Ok(())
    }

    /// Reads the tokens of a unit once.
    fn read_once(
        &mut self,
        alloc: Global,
        text: &[u8],
        unit: &[Token],
    ) -> Result<Once, AllocError> {
        if self.left.tokens < unit.len() {
            return Ok(Once::Unread);
        }
        self.left.tokens = self.left.tokens.saturating_sub(unit.len());
        match parse(alloc, text, unit) {
            Ok(unit) => Ok(Once::Whole(unit)),
            Err(ParseFault::Memory) => Err(AllocError),
            Err(ParseFault::At { token }) => Ok(Once::Stops(token)),
        }
    }

    /// Notes what is left out around a token at which a unit stops, and what may be missing for that.
    fn note_gap(
        &mut self,
        place: TokenPlace<'_>,
        mend: Option<Mend>,
        gap: (usize, usize),
    ) -> Result<(), AllocError> {
        let is_blurred = mend.is_some_and(|mend| blurs_name(place, mend));
        self.units.lacks_blocks = self.units.lacks_blocks || is_blurred;
        self.units.gaps.push(gap)?;
        Ok(())
    }

    /// Tells why a unit stops at a token, if that isn't behind one at which it stopped before, nor comes of bytes that begin no token.
    fn tell_stop(
        &mut self,
        alloc: Global,
        lexed: &Lexed<'_>,
        place: TokenPlace<'_>,
        (gap, last): ((usize, usize), Option<usize>),
    ) -> Result<(), AllocError> {
        let (from, until) = gap;
        let is_told = || !lexed.has_hole(from, until) || is_word_before(lexed, place, from);
        if last.is_none_or(|last| last < place.mark().0) && is_told() {
            self.tell(alloc, place)?;
        }
        Ok(())
    }

    /// Mends a unit at a token of its own at which it stops; whether it is read once more.
    fn mend(
        &mut self,
        alloc: Global,
        lexed: &Lexed<'_>,
        draft: &mut Draft,
        number: usize,
    ) -> Result<bool, AllocError> {
        let tokens = draft.tokens.as_slice();
        let place = TokenPlace::new(lexed.text, tokens, number);
        let mend = way_on(place);
        let gap = around(place, mend);
        self.tell_stop(alloc, lexed, place, (gap, draft.last))?;
        self.note_gap(place, mend, gap)?;
        draft.last = Some(place.mark().0);
        draft.blurs = draft.blurs || mend.is_some_and(|mend| mend.blurs_loops(tokens));
        draft.lacks = draft.lacks || may_declare(place, mend);
        let Some(mend) = mend else {
            return Ok(false);
        };
        if self.left.causes == 0 {
            return Ok(false);
        }
        draft.tokens = mended(alloc, tokens, mend)?;
        Ok(true)
    }

    /// Goes on with a unit that stops at a token, its own or one behind it; whether it ends before these, once that is known.
    fn stop(
        &mut self,
        alloc: Global,
        lexed: &Lexed<'_>,
        draft: &mut Draft,
        number: usize,
    ) -> Result<Option<bool>, AllocError> {
        let is_behind = number >= draft.len();
        let place = TokenPlace::new(lexed.text, draft.tokens.as_slice(), number);
        if is_behind && (draft.ahead > 0 || !lexed.is_cut) {
            self.tell(alloc, place)?;
        }
        if is_behind || !draft.is_apart && place.stand() == "behind" {
            return Ok(Some(!is_behind));
        }
        let is_mended = self.mend(alloc, lexed, draft, number)?;
        Ok(if is_mended { None } else { Some(true) })
    }

    /// Reads a unit once, and keeps its tree or mends it; whether it ends before the tokens behind it, once that is known.
    fn go_on(
        &mut self,
        alloc: Global,
        lexed: &Lexed<'_>,
        draft: &mut Draft,
    ) -> Result<Option<bool>, AllocError> {
        let len = draft.len();
        let unit = draft.tokens.as_slice().get(..len).unwrap_or(&[]);
        match self.read_once(alloc, lexed.text, unit)? {
            Once::Unread => Ok(Some(true)),
            Once::Stops(number) => self.stop(alloc, lexed, draft, number),
            Once::Whole(unit) => {
                let tokens = draft.own_tokens(alloc);
                self.units.keep(tokens, unit, (draft.blurs, draft.lacks))?;
                Ok(Some(true))
            }
        }
    }

    /// Reads a unit as often as it is mended, and keeps its tree, where it comes to have one; whether it ends before the tokens behind it.
    fn read_draft(
        &mut self,
        alloc: Global,
        lexed: &Lexed<'_>,
        draft: &mut Draft,
    ) -> Result<bool, AllocError> {
        draft.lacks = self.units.add_holes(lexed, draft.tokens.as_slice())?;
        for _ in 0..MOST_READINGS {
            if let Some(ends) = self.go_on(alloc, lexed, draft)? {
                return Ok(ends);
            }
        }
        Ok(true)
    }

    /// Reads a unit, whose tokens stand before some that follow it, as often as it is mended, and keeps its tree, where it comes to have one; whether it ends
    /// before these. What is behind its end isn't told where the unit above has none (`is_apart`).
    fn read_unit(
        &mut self,
        alloc: Global,
        lexed: &Lexed<'_>,
        tokens: Vec<Token>,
        (ahead, is_apart): (usize, bool),
    ) -> Result<bool, AllocError> {
        let mut draft = Draft {
            tokens,
            ahead,
            is_apart,
            last: None,
            blurs: false,
            lacks: false,
        };
        let read = self.read_draft(alloc, lexed, &mut draft);
        drop(draft);
        read
    }

    /// Tells what is wrong in the units and the sections of globals, each of which begins with its keyword, and keeps their trees.
    fn read_units(&mut self, alloc: Global, lexed: &Lexed<'_>) -> Result<(), AllocError> {
        let tokens = lexed.tokens.as_slice();
        let mut first = TokenPlace::new(lexed.text, tokens, 0);
        let mut is_closed = true;
        let mut has_units = false;
        for _ in 0..tokens.len() {
            if first.number >= tokens.len() {
                return Ok(());
            }
            if self.left.causes == 0 {
                self.units.lose();
                return Ok(());
            }
            let kept = self.units.list.len();
            let end = first.next().ahead("UNIT|VAR_GLOBAL");
            let are_globals = first.sign() == "VAR_GLOBAL";
            if are_globals && has_units && is_closed {
                self.tell(alloc, first)?;
            }
            if is_closed || !are_globals {
                let ahead = AHEAD.min(tokens.len().saturating_sub(end.number));
                let unit = tokens.get(first.number..end.number.saturating_add(ahead));
                let unit = Vec::from_slice(alloc, unit.unwrap_or(&[]))?;
                is_closed = self.read_unit(alloc, lexed, unit, (ahead, is_closed))?;
            }
            has_units = has_units || fits("UNIT", first.sign());
            if self.units.list.len() == kept && !is_program(first, end) {
                self.units.lose();
            }
            first = end;
        }
        Ok(())
    }

    /// Leaves out the causes that may come of bytes that begin no token, and tells these.
    fn tell_holes(&mut self, alloc: Global, lexed: &Lexed<'_>) -> Result<(), AllocError> {
        for cause in replace(&mut self.causes, Vec::new(alloc)) {
            if !lexed.is_behind_hole(cause.mark) {
                self.causes.push(cause)?;
            }
        }
        for hole in lexed.holes.as_slice() {
            let cause = misspelled_at(alloc, lexed.text, hole.0)?;
            self.causes.push(cause)?;
        }
        Ok(())
    }

    /// Tells what is wrong in the tokens of a source, and between them, in order of text.
    fn tell_all(&mut self, alloc: Global, lexed: &Lexed<'_>) -> Result<(), AllocError> {
        self.read_units(alloc, lexed)?;
        if lexed.is_cut {
            self.units.lose();
        }
        self.tell_holes(alloc, lexed)?;
        let start_of = |cause: &Cause| cause.mark.map_or(0, |mark| mark.0);
        self.causes.sort_by_key(start_of)
    }
}

/// What is wrong in the spelling and the grammar of a source, as far as that is left to be told and to be read.
pub fn tell(alloc: Global, text: &[u8], left: Budget) -> Result<ToldSource, AllocError> {
    let lexed = tokens_with_holes(alloc, text)?;
    let mut told = ToldSource {
        causes: Vec::new(alloc),
        left,
        units: ReadUnits::none(alloc),
    };
    let whole = told.tell_all(alloc, &lexed);
    drop(lexed);
    whole?;
    Ok(told)
}
