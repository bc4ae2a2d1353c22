//! How a source is read on behind a token with which it can't go on: what is left out, and what is put in its place.

use crate::grammar::{has_nested, unopened};
use explain_tokens::{TokenPlace, closing_of, fits, opens_section, sign_at};
use explain_words::{
    begins_statement, closed_in, has_else, has_loose_end, is_behind_cased, is_behind_title,
    is_chosen, is_colon, is_in_case, is_in_line, is_label, is_labelling, is_marked, is_second_kind,
    lacks_end_var, misnomer, next_end, parted_len, parts_arguments, parts_case, statement_start,
};
use plant_types::same_word;
use st_lexer::Token;

/// What is left out of tokens, from the one of a number to before another, and what is put in its place, as it is written.
#[derive(Clone, Copy, Drop)]
pub struct Mend {
    pub from: usize,
    pub until: usize,
    pub put: &'static str,
}

impl Mend {
    /// Whether it isn't certain any more which FORs stand around what, where it is done to tokens: it puts in a FOR's head or end, or leaves one out.
    pub fn blurs_loops(self, tokens: &[Token]) -> bool {
        let mut left_out = (self.from..self.until).map(|number| sign_at(tokens, number));
        let is_put = self.put.starts_with("END_FOR") || self.put.ends_with("DO");
        is_put || left_out.any(|sign| fits("FOR|END_FOR", sign))
    }
}

/// Puts what is written in the place of tokens.
fn with(from: usize, until: usize, put: &'static str) -> Mend {
    Mend { from, until, put }
}

/// Puts what is written in the place of a token.
fn instead(place: TokenPlace<'_>, put: &'static str) -> Mend {
    with(place.number, place.next().number, put)
}

/// The token behind the statement or the declaration in which a token stands: behind its `;`, unless a `)` follows that closes nothing, or what ends the
/// statements around it. `None` where it isn't certain.
fn statement_end(place: TokenPlace<'_>) -> Option<TokenPlace<'_>> {
    let mut end = next_end(place);
    for _ in 0..8 {
        if end.sign() != ";" {
            break;
        }
        let behind = end.next();
        end = next_end(behind);
        let mut between = (behind.number..end.number).map(|number| place.at(number));
        if !between.any(|place| place.sign() == ")" && place.parenthesis().is_none()) {
            return Some(behind);
        }
    }
    let is_certain = !fits("none|THEN|DO|OF|TO|BY", end.sign());
    is_certain.then_some(end)
}

/// Without the statement or the declaration in which a token stands. Not where a statement may be a declaration, or a word that closes something.
fn past_statement(place: TokenPlace<'_>) -> Option<Mend> {
    let (from, end) = (statement_start(place), statement_end(place)?);
    let is_word = from.saturating_add(1) == place.number && place.sign() == ";";
    let mut inside = (from..end.number).map(|number| place.at(number));
    let is_certain = match place.opener() {
        opener if opens_section(opener) => end.before(1) == ";" || end.sign() == "END_VAR",
        _ => !is_word
            && !inside.any(|place| place.sign() == ":" && fits("word|KIND", place.behind(1))),
    };
    is_certain.then_some(with(from, end.number, ""))
}

/// Behind the loop of another dialect, which ends with a word and a `;`.
fn past_loop(place: TokenPlace<'_>, end: &str) -> Option<Mend> {
    let mut behind = (place.number..place.tokens.len()).map(|number| place.at(number));
    let end = behind
        .find(|place| same_word(place.word().as_bytes(), end.as_bytes()))?
        .next();
    (end.sign() == ";").then_some(with(place.number, end.next().number, ""))
}

/// Behind a comment that ends too early, since another one stands in it: without what follows up to the next `*)`.
fn past_comment(place: TokenPlace<'_>) -> Option<Mend> {
    let both = [place.previous(), place];
    let first = both.into_iter().find(|place| has_nested(place.gap()))?;
    let mut behind = (first.number..place.tokens.len()).map(|number| place.at(number));
    let end = behind.find(|place| [place.sign(), place.behind(1)] == ["*", ")"])?;
    Some(with(first.number, end.next().next().number, ""))
}

/// In the head of a statement: with one that is right.
fn past_head(place: TokenPlace<'_>, head: TokenPlace<'_>) -> Option<Mend> {
    let put = match head.sign() {
        "CASE" => "0 OF",
        "FOR" => "i := 0 TO 0 DO",
        _ => "TRUE THEN",
    };
    let end = place.ahead(";|THEN|DO|OF|PART|SECTION|UNIT");
    let end = if end.sign() == ";" { end.next() } else { end };
    let mend = with(head.next().number, end.next().number, put);
    fits("THEN|DO|OF", end.sign()).then_some(mend)
}

/// At a keyword that closes something else than what is open, or nothing: with what closes that before it, or in its place where the unit has too many of it and
/// too few of that; where nothing is open that it closes, else without it.
fn past_keyword(place: TokenPlace<'_>) -> Option<Mend> {
    let closing = match place.opener() {
        opener @ ("IF" | "CASE" | "FOR") => closing_of(opener),
        _ => "",
    };
    let is_other = |sign| {
        let is_lacking = !closing.is_empty() && closed_in(place, closing).is_lt();
        is_lacking && fits("CLOSING", sign) && closed_in(place, sign).is_gt()
    };
    match (unopened(place), place.sign()) {
        ("", sign) if is_other(sign) => Some(instead(place, closing)),
        ("", _) => (!closing.is_empty()).then_some(with(place.number, place.number, closing)),
        (_, "ELSIF") if closed_in(place, "END_IF").is_gt() => Some(instead(place, "IF")),
        (_, "ELSIF") if closing == "END_CASE" => {
            let end = place.next().ahead(";|OUTER");
            let is_head = end.sign() == "THEN";
            let last = if is_head { end } else { place };
            Some(with(place.number, last.next().number, "ELSE"))
        }
        _ if !closing.is_empty() && closed_in(place, closing).is_lt() => Some(instead(
            place, closing,
        )),
        _ if place.behind(1) == ";" => Some(with(place.number, place.next().next().number, "")),
        _ => None,
    }
}

/// Where a label is wrong: with another one, or without a word and its `:`.
fn past_label(place: TokenPlace<'_>) -> Option<Mend> {
    let colon = place.ahead(":|;|KEYWORD");
    let mend = match place.stand() {
        "begun" => with(statement_start(place), colon.next().number, ""),
        _ => with(statement_start(place), colon.number, "0"),
    };
    (colon.sign() == ":").then_some(mend)
}

/// At a label outside of a CASE: with what closes the statement before it in one, or with the head of a CASE, where the unit has one end too many.
fn past_loose_label(place: TokenPlace<'_>) -> Option<Mend> {
    let put = match place.opener() {
        "IF" if parts_case(place) => "END_IF;",
        "FOR" if parts_case(place) => "END_FOR;",
        _ if !is_in_case(place) && closed_in(place, "END_CASE").is_gt() => "CASE 0 OF",
        _ => return past_statement(place),
    };
    Some(with(place.number, place.number, put))
}

/// At a `:` with which nothing begins: with a label before it, where one may stand, or without it.
fn past_colon(place: TokenPlace<'_>) -> Mend {
    if [place.opener(), place.before(1)] == ["CASE", ";"] && !has_else(place) {
        with(place.number, place.number, "0")
    } else {
        instead(place, "")
    }
}

/// Behind the line of a word, which has the place of the head of a CASE; behind that word alone, where OF ends the head.
fn past_line(place: TokenPlace<'_>) -> Mend {
    if place.ahead(";|:|OF|OUTER").sign() == "OF" {
        return instead(place, "CASE");
    }
    let mut behind = (place.next().number..place.tokens.len()).map(|number| place.at(number));
    let end = behind.find(|other| !is_in_line(*other));
    let end = end.map_or(place.tokens.len(), |end| end.number);
    with(place.number, end, "CASE 0 OF")
}

/// How to read on behind a word that is written otherwise.
fn past_word(place: TokenPlace<'_>, way: &'static str) -> Option<Mend> {
    let (here, len) = (place.number, parted_len(place, way));
    let until = here.saturating_add(len);
    let (closing, closed) = (
        closing_of(place.opener()),
        closing_of(place.at(until).before(1)),
    );
    match way {
        "_" if len > 1 && closed.is_empty() => Some(with(here, until, closing)),
        "_" if len > 1 => Some(with(here, until, closed)),
        _ if len > 1 => Some(with(here, until, way)),
        "_" if fits("END", place.word()) && closed_in(place, closing).is_lt() => Some(instead(
            place, closing,
        )),
        "<" | ">" | "&" => Some(with(place.previous().number, place.next().next().number, way)),
        "head" => Some(past_line(place)),
        "END_WHILE" | "END_REPEAT" => past_loop(place, way),
        "skip" => Some(instead(place, "")),
        "_" => opens_section(place.before(1)).then_some(instead(place, "")),
        keyword => Some(instead(place, keyword)),
    }
}

/// What is put before a token that lacks something there: of a call whose `(` nothing closes before the next `;` its end, so that no more is told of that.
fn missing(place: TokenPlace<'_>) -> &'static str {
    let (lacking, end) = (place.lacking().0, next_end(place));
    if lacking == "," && end.sign() == ";" && end.parenthesis().is_some() {
        ");"
    } else {
        lacking
    }
}

/// Whether the token before one is a `;` behind the name of a unit or behind an END_VAR, where none stands.
fn follows_loose_end(place: TokenPlace<'_>) -> bool {
    is_behind_title(place) || [place.before(2), place.before(1)] == ["END_VAR", ";"]
}

/// At an ELSE behind the last part of its IF or its CASE: with what closes that, where the unit has too few of it, or else without it; where none is open, with
/// the head of one, where the unit has an end too many.
fn past_else(place: TokenPlace<'_>) -> Mend {
    let (here, is_loose) = (place.number, !unopened(place).is_empty());
    match place.opener() {
        "FOR" => with(here, here, "END_FOR;"),
        "IF" if closed_in(place, "END_IF").is_lt() => with(here, here, "END_IF;"),
        "CASE" if closed_in(place, "END_CASE").is_lt() => with(here, here, "END_CASE;"),
        _ if is_loose && closed_in(place, "END_IF").is_gt() => instead(place, "IF TRUE THEN"),
        _ if is_loose && closed_in(place, "END_CASE").is_gt() => instead(
            place,
            "CASE 0 OF 0: ELSE",
        ),
        _ => instead(place, ""),
    }
}

/// At a `;` that ends a value too early: without it, or with a `,` between arguments.
fn past_early_end(place: TokenPlace<'_>) -> Option<Mend> {
    if place.stand() == "valued" && fits("THEN|DO|OF", place.behind(1)) {
        Some(instead(place, ""))
    } else {
        parts_arguments(place).then_some(instead(place, ","))
    }
}

/// At a CASE in the place of a label: without it before a label, and else without the head that it begins.
fn past_second_head(place: TokenPlace<'_>) -> Option<Mend> {
    if is_label(place.next()) {
        return Some(instead(place, ""));
    }
    let end = place.next().ahead(";|:|OF|OUTER");
    (end.sign() == "OF").then_some(with(place.number, end.next().number, ""))
}

/// At the mark behind a label that has a CASE of its own: without that, where it stands in another one.
fn past_cased(place: TokenPlace<'_>) -> Option<Mend> {
    let case = place.open("CASE", "", "OUTER")?;
    is_in_case(case).then_some(instead(case, ""))
}

/// At a slip in a value or behind one: without an IF that chooses between values, without the ELSE behind a CASE of which it is the last part, or without the
/// CASE before a label.
fn past_slip_in_value(place: TokenPlace<'_>) -> Option<Mend> {
    let (here, previous, is_first) = (
        place.number,
        place.previous().number,
        place.stand() == "value",
    );
    match place.sign() {
        ";" if !is_first => past_early_end(place),
        ":" | "," | ".." if is_behind_cased(place) => past_cased(place),
        "IF" if is_chosen(place) => {
            let put = if is_first { "0" } else { "" };
            Some(with(here, place.ahead(";").number, put))
        }
        "ELSE" if is_first && place.before(1) == "CASE" => Some(with(previous, here, "")),
        _ => None,
    }
}

/// At a slip behind the end of a statement: without a keyword that closes it once more, or with the `;` for another mark.
fn past_slip_behind(place: TokenPlace<'_>) -> Option<Mend> {
    match place.sign() {
        "IF" | "CASE" | "FOR" if place.behind(1) == ";" => Some(instead(place, "")),
        "." | "," | ":" if !has_loose_end(place) => Some(instead(place, ";")),
        _ => None,
    }
}

/// At a token that is too many, or stands for another one, where the rest of its statement or declaration seems right: without it, or with that one.
fn past_slip(place: TokenPlace<'_>) -> Option<Mend> {
    let (here, sign) = (place.number, place.sign());
    let mend = match place.stand() {
        "statement" | "head" | "declaration" if fits("+|-", sign) && is_marked(place) => Some(
            instead(place, ""),
        ),
        "declaration" => (sign == ";").then_some(instead(place, "")),
        "value" | "valued" => past_slip_in_value(place),
        "taken" if sign == ";" => past_early_end(place),
        "begun" | "assigned" if fits(";|.|:", sign) && place.behind(1) == "=" => Some(with(
            here,
            place.next().next().number,
            ":=",
        )),
        "label" if sign == "CASE" => past_second_head(place),
        "ended" => past_slip_behind(place),
        "declared" | "addressed" => is_colon(place).then_some(instead(place, ":")),
        "name" if fits("KIND", sign) => Some(with(place.previous().number, here, ":")),
        _ => None,
    };
    match mend {
        None => is_second_kind(place).then_some(instead(place, "")),
        mend => mend,
    }
}

/// At a word that can't be the name of a declaration, with a `:` or a `,` behind it: without what stands up to the next `;`.
fn past_name(place: TokenPlace<'_>) -> Mend {
    with(place.number, place.ahead(";").next().number, "")
}

/// At a token with which no declaration goes on: with the END of its section before a statement or another section, or else without the declaration.
fn past_declaration(place: TokenPlace<'_>) -> Option<Mend> {
    let (here, previous) = (place.number, place.previous().number);
    match (place.stand(), place.sign()) {
        ("declared", _) if lacks_end_var(place) => Some(with(previous, previous, "END_VAR")),
        ("declaration", _) if fits(":|,", place.behind(1)) => Some(past_name(place)),
        ("declaration", sign) if fits("IF|CASE|FOR|SECTION", sign) => Some(with(
            here, here, "END_VAR",
        )),
        _ => past_statement(place),
    }
}

/// At a token with which no statement goes on: with a head that is right, where it stands in one, or else without the statement.
fn past_inside(place: TokenPlace<'_>) -> Option<Mend> {
    let ends = ";|THEN|DO|OF|ELSE|CLOSING|SECTION|UNIT";
    match place.open("IF|ELSIF|CASE|FOR", "", ends) {
        Some(head) => past_head(place, head),
        None => past_statement(place),
    }
}

/// At a token with which no statement begins.
fn past_first(place: TokenPlace<'_>) -> Option<Mend> {
    let (here, previous, sign) = (place.number, place.previous().number, place.sign());
    match sign {
        ":" => Some(past_colon(place)),
        "ELSE" => Some(past_else(place)),
        "END_VAR" => Some(instead(place, "")),
        _ if is_label(place) => past_loose_label(place),
        _ if fits("SECTION", sign) && follows_loose_end(place) => Some(with(previous, here, "")),
        _ if fits("SECTION", sign) => {
            let end = place.next().ahead("OUTER");
            (end.sign() == "END_VAR").then_some(with(here, end.next().number, ""))
        }
        _ if fits("ELSIF|CLOSING", sign) => past_keyword(place),
        _ => past_inside(place),
    }
}

/// Whether a statement that begins before a token seems to be a label.
fn follows_label(place: TokenPlace<'_>) -> bool {
    let is_parted = [place.sign(), place.opener()] == [":", "CASE"];
    is_parted && begins_statement(place.next()) || is_labelling(place)
}

/// At a token between the name of a unit and its first statement: with VAR for inputs or outputs of a program, or without an END_VAR that ends nothing.
fn past_title(place: TokenPlace<'_>) -> Option<Mend> {
    match place.sign() {
        "END_VAR" => Some(instead(place, "")),
        "VAR_INPUT" | "VAR_OUTPUT" => Some(instead(place, "VAR")),
        _ => None,
    }
}

/// At a token outside of declarations, before which nothing is missing.
fn past_stop(place: TokenPlace<'_>) -> Option<Mend> {
    match place.stand() {
        "label" | "labelled" => past_label(place),
        "begun" if follows_label(place) => past_label(place),
        "statement" => past_first(place),
        "head" => past_title(place),
        "top" | "behind" | "title" => None,
        _ => past_inside(place),
    }
}

/// What is left out and put in at a token with which no source can go on; `None` where that isn't certain, and nothing where no statement can be left out.
fn mend_at(place: TokenPlace<'_>) -> Option<Mend> {
    let (here, told) = (place.number, misnomer(place));
    let certain = match told {
        Some((place, way, ..)) if way != "part" => return past_word(place, way),
        _ => past_slip(place),
    };
    match certain {
        None if told.is_none() && place.lacks_end() => Some(with(here, here, missing(place))),
        None if place.is_declared() => past_declaration(place),
        None => past_stop(place),
        mend => mend,
    }
}

/// How to read on behind a token with which no source can go on; `None` where that isn't certain.
pub fn way_on(place: TokenPlace<'_>) -> Option<Mend> {
    let mend = past_comment(place).or_else(|| mend_at(place));
    mend.filter(|mend| mend.from < mend.until || !mend.put.is_empty())
}
