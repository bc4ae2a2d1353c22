//! The token with which no source can go on (C5).

use crate::rules::{told_by_place, too_deep, wanted};
use explain_tokens::{Cause, TokenPlace, cause_at, closing_of, fits, part, tokens_of};
use explain_words::{
    GRAMMAR, begins_call, closed_in, is_braced, is_label, is_second_kind, lacks_end_var, misnomer,
    parts_case,
};
use plant_types::same_word;
use st_lexer::place_of;
use std::alloc::{AllocError, Global};

/// Whether a comment stands between tokens in which another one begins: the first end of a comment ends it.
pub fn has_nested(gap: &[u8]) -> bool {
    let mut is_open = false;
    for pair in gap.windows(2) {
        match pair {
            [b'(', b'*'] if is_open => return true,
            [b'(', b'*'] => is_open = true,
            [b'*', b')'] => is_open = false,
            _ => {}
        }
    }
    false
}

/// What opens something that should be closed before a token: that closes something else, parts an IF or a CASE around it, begins a unit or globals, or is of a
/// statement among declarations.
fn left_open(place: TokenPlace<'_>) -> Option<TokenPlace<'_>> {
    let opened = place.opened()?;
    let closing = closing_of(opened.sign());
    let is_left = match (place.stand(), opened.sign(), place.sign()) {
        ("statement", "IF", "ELSE" | "ELSIF") | ("statement", "CASE", "ELSE") => false,
        ("declaration", ..) if fits(":|,", place.behind(1)) => false,
        ("declaration", _, "IF" | "CASE" | "FOR") => true,
        ("declaration", _, sign) if fits("SECTION", sign) => place.before(1) == ";",
        ("declared", _, "(" | "[" | ":=") => lacks_end_var(place),
        ("statement", "IF" | "FOR", _) if parts_case(place) => true,
        ("head", _, sign) if fits("END_PROGRAM|END_FUNCTION_BLOCK", sign) => sign != closing,
        ("statement" | "declaration", _, sign) => {
            fits("ELSE|ELSIF|UNIT|VAR_GLOBAL|CLOSING", sign) && sign != closing
        }
        _ => false,
    };
    is_left.then_some(opened)
}

/// What may have led to something that isn't closed before a token: an `ELSE IF`, or a comment that has swallowed its end.
fn led_to(
    alloc: Global,
    place: TokenPlace<'_>,
    opened: TokenPlace<'_>,
) -> Result<String, AllocError> {
    let mut behind = (opened.number..place.number.saturating_add(1)).map(|number| place.at(number));
    if let Some(behind) = behind.find(|place| has_nested(place.gap())) {
        let line = behind.line();
        return format!(in alloc;
            " (before line {line} stands a comment in which another one begins: what has swallowed it?)"
        );
    }
    let mut between = (opened.number..place.number).map(|number| place.at(number));
    match between.find(|other| other.sign() == "ELSE" && other.behind(1) == "IF") {
        Some(other) if opened.sign() == "IF" => {
            let line = other.line();
            format!(in alloc; " ('ELSE IF' in line {line} opens an IF of its own; ELSIF doesn't)")
        }
        _ => Ok(String::new(alloc)),
    }
}

/// What is said where something is open that should be closed before a token: at that, or at the word before it, with which a call
/// or an assignment begins.
fn unclosed(
    alloc: Global,
    place: TokenPlace<'_>,
    opened: TokenPlace<'_>,
) -> Result<Cause, AllocError> {
    let (line, open, sign) = (opened.line(), opened.sign(), place.sign());
    if fits("UNIT", open) && fits("END_PROGRAM|END_FUNCTION_BLOCK", sign) {
        let said = format!(in alloc;
            "{sign} closes no {open}, which line {line} begins: one of the two keywords is wrong"
        )?;
        return Ok(cause_at(place.mark(), said, GRAMMAR));
    }
    let closing = closing_of(open);
    let behind = led_to(alloc, place, opened)?;
    let said = format!(in alloc; "{closing} is missing for the {open} of line {line}{behind}")?;
    let is_behind = fits("(|[|:=", sign);
    let mark = if is_behind {
        place.previous().mark()
    } else {
        place.mark()
    };
    Ok(cause_at(mark, said, GRAMMAR))
}

/// The `(` or the `[` that isn't closed before a token at which a value certainly ends.
fn unpaired(place: TokenPlace<'_>) -> Option<TokenPlace<'_>> {
    let (stand, sign, is_call) = (place.stand(), place.sign(), place.within() == "call");
    let is_keyword = fits("KEYWORD", sign) && sign != "NOT";
    let parts_bounds = fits(":|TO", sign) && fits("int|-", place.behind(1));
    let is_bound = stand == "array" && !fits("[|-", place.before(1)) && !parts_bounds;
    let ends_index = is_keyword || fits(";|:=|:|)|=>", sign);
    let begins_one = [place.behind(1), place.behind(2)] == ["(", "word"]
        && fits(":=|=>", place.behind(3));
    let ends = match sign {
        "word" => !is_call && (place.behind(1) == ":=" || begins_one),
        "," => !is_call,
        _ => is_keyword || sign == ";",
    };
    match place.bracket() {
        _ if begins_call(place) => place.parenthesis(),
        Some(open) if ends_index && !is_braced(place) && (is_bound || stand == "valued") => Some(
            open,
        ),
        _ if ends && fits("valued|taken", stand) => place.parenthesis(),
        _ => None,
    }
}

/// Whether a token is the one before it once more, by its text and a pattern of signs.
fn is_doubled(place: TokenPlace<'_>, signs: &str) -> bool {
    let word = place.previous().word().as_bytes();
    let sign = place.sign();
    place.number > 0
        && fits(signs, sign)
        && same_word(place.word().as_bytes(), word)
        && (!fits("CLOSING", sign) || closed_in(place, sign).is_gt())
}

/// What seems to be missing before a token: among the arguments of a call a `,` alone before another argument.
fn lacking_said(place: TokenPlace<'_>) -> &'static str {
    let is_argument = place.sign() == "word" && fits(":=|=>", place.behind(1));
    if is_argument && place.within() == "call" {
        "a ','"
    } else {
        place.lacking().1
    }
}

/// Whether a remark begins behind a token in its line with // and has a `;`, by what stands between that and the next one.
fn hides_end(gap: &[u8]) -> bool {
    let mut lines = gap.split(|byte| *byte == b'\n');
    let line = lines.next().unwrap_or(b"");
    let remark = line
        .windows(2)
        .position(|pair| matches!(pair, [b'/', b'/']));
    remark.is_some_and(|from| part(line, from, line.len()).contains(&b';'))
}

/// What is said of a token by where it stands, or where it stands twice; empty where that says nothing.
fn told_of(place: TokenPlace<'_>) -> &'static str {
    let is_alone = !place.lacks_end() || is_second_kind(place) || fits("CLOSING", place.sign());
    let may_double = place.stand() != "argued" && is_alone;
    let is_part = place.lacks_end() && is_label(place);
    match told_by_place(place) {
        _ if may_double && is_doubled(place, "word|KEYWORD") => "it stands here twice",
        "" if !is_part && is_doubled(place, ":=|=>|:|,|.|+|*|/|=|<|>|int|literal|address") => {
            "it stands here twice"
        }
        told => told,
    }
}

/// What is said of a parenthesis or a bracket that isn't closed before a token.
fn unpaired_said(alloc: Global, open: TokenPlace<'_>) -> Result<String, AllocError> {
    let opening = open.sign();
    let closing = if opening == "[" { "]" } else { ")" };
    let (line, column) = place_of(open.text, open.tokens, open.number);
    format!(in alloc;
        "the '{opening}' of line {line}, column {column} has no '{closing}' before it"
    )
}

/// What is said where something seems to be missing before a token.
fn missing_said(alloc: Global, place: TokenPlace<'_>) -> Result<String, AllocError> {
    let line = place.previous().line();
    if hides_end(place.gap()) {
        return format!(in alloc;
            "the ';' of line {line} stands in a remark, which begins with //; a quotient is written n / 2"
        );
    }
    let lacking = lacking_said(place);
    format!(in alloc; "{lacking} seems to be missing before it, in line {line}")
}

/// What is said behind a token.
fn told(alloc: Global, place: TokenPlace<'_>) -> Result<String, AllocError> {
    let told = told_of(place);
    if let Some(open) = unpaired(place) {
        if told.is_empty() || open.sign() == "[" || begins_call(place) {
            return unpaired_said(alloc, open);
        }
    }
    if told.is_empty() && place.lacks_end() {
        return missing_said(alloc, place);
    }
    let told = if told.is_empty() { wanted(place) } else { told };
    String::from_str(alloc, told)
}

/// What a keyword closes or parts that isn't open; empty where that is open.
pub fn unopened(place: TokenPlace<'_>) -> &'static str {
    let (opening, closing) = match place.sign() {
        "END_IF" | "ELSIF" => ("IF", "END_IF"),
        "END_CASE" => ("CASE", "END_CASE"),
        "END_FOR" => ("FOR", "END_FOR"),
        "ELSE" => ("IF|CASE", "END_IF|END_CASE"),
        "END_VAR" if place.is_declared() => return "",
        "END_VAR" => return "VAR",
        _ => return "",
    };
    match place.open(opening, closing, "") {
        Some(_) => "",
        None if opening == "IF|CASE" => "IF and no CASE",
        None => opening,
    }
}

/// The cause at a token, where no word tells it.
fn cause_of_token(alloc: Global, place: TokenPlace<'_>) -> Result<Cause, AllocError> {
    let (word, deep, unopened) = (place.word(), too_deep(place), unopened(place));
    let said = if has_nested(place.gap()) || has_nested(place.previous().gap()) {
        format!(in alloc;
            "found '{word}': the comment before it ends at the first *), since comments don't stand in one another"
        )?
    } else if !unopened.is_empty() && fits("head|statement|top|behind", place.stand()) {
        format!(in alloc; "found '{word}': no {unopened} is open here")?
    } else if let Some(opened) = left_open(place) {
        return unclosed(alloc, place, opened);
    } else if !deep.is_empty() {
        String::from_str(alloc, deep)?
    } else {
        let told = told(alloc, place)?;
        format!(in alloc; "found '{word}': {told}")?
    };
    Ok(cause_at(place.mark(), said, GRAMMAR))
}

/// The cause at a token: a word there or before it that is written otherwise, or what it is itself; behind the last one, why the text ends too early.
pub fn cause_at_token(alloc: Global, place: TokenPlace<'_>) -> Result<Cause, AllocError> {
    if let Some((place, _, (said, keyword, end), page)) = misnomer(place) {
        let word = place.word();
        let said = format!(in alloc; "'{word}' {said}{keyword}{end}")?;
        return Ok(cause_at(place.mark(), said, page));
    }
    if place.number < place.tokens.len() {
        return cause_of_token(alloc, place);
    }
    if let Some(opened) = place.opened() {
        return unclosed(alloc, place, opened);
    }
    let said = String::from_str(alloc, "the text ends too early")?;
    Ok(cause_at(place.mark(), said, GRAMMAR))
}

/// The cause of a fault of grammar at a byte of a source: the token there, or the text's end.
pub fn ungrammatical(alloc: Global, text: &[u8], at: usize) -> Result<Cause, AllocError> {
    let tokens = tokens_of(alloc, text)?;
    let number = tokens.as_slice().iter().position(|token| token.from >= at);
    let number = number.unwrap_or(tokens.len());
    cause_at_token(alloc, TokenPlace::new(text, tokens.as_slice(), number))
}
