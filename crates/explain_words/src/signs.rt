//! The signs of tokens as the rules tell them: some are told by what else stands around them.

use crate::around::{
    closed_in, has_else, has_loose_end, is_behind_note, is_chosen, is_colon, is_element,
    is_in_case, is_in_line, is_label, is_labelling, is_prose, is_right_side, is_second_kind,
    is_standard, kind_sign, valued_sign,
};
use explain_tokens::{TokenPlace, fits, said_of};
use st_lexer::{Token, TokenKind};

/// The sections that a program or a block may have.
const SECTIONS: &str = "VAR|VAR_INPUT|VAR_OUTPUT|VAR_EXTERNAL";

/// What a section or a unit's name outside of units is, by what closes something below it.
const HEADLESS_UNITS: &str = "\
section END_PROGRAM program
section END_FUNCTION_BLOCK block
title END_PROGRAM program's
title END_FUNCTION_BLOCK block's
";

/// What a comma between the digits of a number is, at a token or before it: `digits` where three follow it, else `decimals`; empty where there is none.
fn comma_sign(place: TokenPlace<'_>) -> &'static str {
    let mut both = [place, place.previous()].into_iter();
    let comma = both.find(|comma| {
        comma.sign() == ","
            && [comma.before(1), comma.behind(1)] == ["int", "int"]
            && comma.gap().is_empty()
            && comma.next().gap().is_empty()
    });
    match comma.map_or(0, |comma| comma.next().word().len()) {
        0 => "",
        3 => "digits",
        _ => "decimals",
    }
}

/// Whether a `;` stands between the name of a unit and a token.
pub fn is_behind_title(place: TokenPlace<'_>) -> bool {
    [place.before(1), place.before(2)] == [";", "word"] && fits("UNIT", place.before(3))
}

/// Whether a token stands in a condition: THEN ends it.
fn is_condition(place: TokenPlace<'_>) -> bool {
    place.ahead(";|OUTER").sign() == "THEN"
}

/// Whether a value is given in parentheses behind the name of a declaration.
fn is_given(place: TokenPlace<'_>) -> bool {
    [place.before(2), place.sign()] == ["(", ":="] && place.is_declared()
}

/// What the word before a token is.
fn word_before(place: TokenPlace<'_>) -> &'static str {
    let word = place.previous();
    let stand = place.stand();
    if place.before(2) == "." {
        "output"
    } else if place.before(2) == "ELSE" && is_condition(place) {
        "otherwise"
    } else if is_given(place) {
        "given"
    } else if stand == "begun" && fits("KIND", kind_sign(word)) && is_right_side(place) {
        "variable"
    } else if stand == "declared" && is_standard(word) {
        "block"
    } else {
        "word"
    }
}

/// The sign of the token before another one, as the rules tell it.
pub fn told_before(place: TokenPlace<'_>) -> &'static str {
    match place.before(1) {
        "word" => word_before(place),
        "*" if place.sign() == "/" && !place.gap().is_empty() => "times",
        ";" if is_behind_title(place) => "titled",
        sign => sign,
    }
}

/// Whether a mark or a number with which nothing begins has words side by side behind it, as a remark has, or a `(` the end of one in its line.
fn is_remark(place: TokenPlace<'_>) -> bool {
    let are_words = [place.behind(1), place.behind(2)] == ["word", "word"];
    let mut behind = (place.next().number..place.tokens.len()).map(|number| place.at(number));
    let ends = |other: TokenPlace<'_>| {
        [other.sign(), other.behind(1)] == ["*", ")"] && other.next().gap().is_empty()
    };
    match place.sign() {
        "(" if place.behind(1) != "*" => behind
            .find(|other| !is_in_line(*other) || ends(*other))
            .is_some_and(ends),
        sign => fits("/|*|-|int", sign) && are_words && is_in_line(place.next().next()),
    }
}

/// Whether a statement or a declaration follows a sign that begins a line, as in a list of changes.
pub fn is_marked(place: TokenPlace<'_>) -> bool {
    let begins = match (place.behind(1), place.behind(2)) {
        ("word", ":=") => true,
        ("word", "(") => [place.behind(3), place.behind(4)] == ["word", ":="],
        ("word", ":" | ",") => place.is_declared(),
        (first, _) => fits("PART", first),
    };
    fits("+|-", place.sign()) && begins && (place.number == 0 || !is_in_line(place))
}

/// Whether a value that is no variable is assigned something.
fn is_reversed(place: TokenPlace<'_>) -> bool {
    match place.sign() {
        "NOT" => place.ahead(";|:=|OUTER").sign() == ":=",
        sign => fits("TRUE|FALSE|int|literal", sign) && place.behind(1) == ":=",
    }
}

/// Whether a `:` begins a line of a CASE behind a statement, and a statement follows in that line: so a label is missing before it.
fn lacks_label(place: TokenPlace<'_>) -> bool {
    let behind = place.next();
    let begins = behind.sign() == "word" || fits("IF|CASE|FOR", behind.sign());
    let is_first = place.before(1) == ";" && !is_in_line(place);
    is_first && begins && is_in_line(behind) && !has_else(place)
}

/// Whether a call begins at a token, a `(`, but for the name of its instance: it gives an input of a standard block, or has several arguments.
fn is_unnamed(place: TokenPlace<'_>) -> bool {
    let end = place.ahead(")|;|OUTER");
    let mut inside = (place.number..end.number).map(|number| place.at(number));
    let is_call = fits("IN|PT|CLK", place.next().word()) || inside.any(|other| other.sign() == ",");
    let signs = [place.sign(), place.behind(1)];
    let gives = signs == ["(", "word"] && fits(":=|=>", place.behind(2));
    gives && is_call && place.before(1) != "word"
}

/// What a label is where a statement may begin: outside of a CASE, or behind the last part of one; empty elsewhere.
fn label_sign(place: TokenPlace<'_>) -> &'static str {
    match place.opener() {
        "CASE" if has_else(place) => "late",
        _ if is_in_case(place) => "",
        _ if closed_in(place, "END_CASE").is_gt() => "label",
        _ => "loose",
    }
}

/// What a `:` is where a statement may begin.
fn stray_sign(place: TokenPlace<'_>) -> &'static str {
    if place.opener() == "CASE" && lacks_label(place) {
        "unlabelled"
    } else if is_in_case(place) && place.before(1) == ";" {
        "stray"
    } else {
        ""
    }
}

/// What a token is where a statement or a section may begin; empty where that is told by its sign.
fn statement_sign(place: TokenPlace<'_>) -> &'static str {
    if is_label(place) {
        label_sign(place)
    } else if place.sign() == ":" {
        stray_sign(place)
    } else if is_unnamed(place) {
        "unnamed"
    } else if is_marked(place) {
        "marked"
    } else if is_reversed(place) {
        "reversed"
    } else if fits("(|NOT|TRUE|FALSE", place.sign()) && is_condition(place) {
        "headless"
    } else if is_remark(place) {
        "remark"
    } else {
        ""
    }
}

/// What a word is behind the first word of a statement.
fn second_sign(place: TokenPlace<'_>) -> &'static str {
    match place.behind(1) {
        _ if !is_in_line(place) => "apart",
        _ if is_prose(place) => "remark",
        "=" if fits("S|R", place.word()) => "set",
        ":=" if has_loose_end(place) || kind_sign(place.previous()) == "word" => "bare",
        ":=" => "parted",
        _ => "",
    }
}

/// Whether a condition goes on behind its first word, without IF before that.
fn is_headless(place: TokenPlace<'_>) -> bool {
    let goes_on = fits(".|AND|OR|XOR|=|<|>|<=|>=|<>|THEN", place.sign());
    goes_on && place.before(2) != "ELSE" && is_condition(place)
}

/// What a `:` is behind the first word of a statement.
fn colon_sign(place: TokenPlace<'_>) -> &'static str {
    match [place.behind(1), place.behind(2)] {
        ["word", ";"] if is_standard(place.next()) => "declaring",
        ["word", ";"] => "given",
        _ => "",
    }
}

/// What a token is behind the first word of a statement; empty where that is told by its sign.
fn begun_sign(place: TokenPlace<'_>) -> &'static str {
    if is_headless(place) {
        return "headless";
    }
    match place.sign() {
        "word" => second_sign(place),
        ":" => colon_sign(place),
        _ if is_labelling(place) => "labelling",
        "=>" if has_loose_end(place) => "outlet",
        sign if fits("NOT|TRUE|FALSE|int|literal", sign) && is_right_side(place) => "right",
        _ => "",
    }
}

/// What a token is behind the name of a declaration; empty where that is told by its sign.
fn declared_sign(place: TokenPlace<'_>) -> &'static str {
    match (place.sign(), place.behind(1)) {
        ("word", ";" | ":=") if is_standard(place) => "block",
        ("word", _) if is_prose(place) => "remark",
        ("word", _) if is_behind_note(place) => "noted",
        ("(", "word") if fits(":=|=>", place.behind(2)) => "call",
        _ => "",
    }
}

/// Whether a word seems to name a unit: it stands behind what closes another one, and before a section or another word.
fn names_unit(place: TokenPlace<'_>) -> bool {
    fits("END_VAR|CLOSING", place.before(1))
        && place.sign() == "word"
        && fits("word|SECTION", place.behind(1))
}

/// Whether a word with which a line begins seems to name a unit: a section stands behind it.
fn is_title(place: TokenPlace<'_>) -> bool {
    let is_first = place.number == 0 || !is_in_line(place);
    place.sign() == "word" && is_first && fits(SECTIONS, place.behind(1))
}

/// Whether a section begins at a token, and no word before another one seems to name a unit.
fn begins_section(place: TokenPlace<'_>, end: usize) -> bool {
    let mut between = (place.number..end).map(|number| place.at(number));
    fits(SECTIONS, place.sign()) && !between.any(names_unit)
}

/// What a token is outside of blocks and programs; empty where that is told by its sign.
fn outer_sign(place: TokenPlace<'_>) -> &'static str {
    let closing = place.ahead("UNIT|VAR_GLOBAL|END_PROGRAM|END_FUNCTION_BLOCK");
    let begun = if begins_section(place, closing.number) {
        "section"
    } else if is_title(place) {
        "title"
    } else {
        "none"
    };
    match said_of(HEADLESS_UNITS, &[begun, closing.sign()]) {
        "" if is_remark(place) => "remark",
        said => said,
    }
}

/// What a token is where a declaration may begin; empty where that is told by its sign.
fn declaration_sign(place: TokenPlace<'_>) -> &'static str {
    if is_marked(place) {
        "marked"
    } else if is_remark(place) {
        "remark"
    } else {
        ""
    }
}

/// What a token is where an argument may begin, or behind the name of one; empty where that is told by its sign.
fn argument_sign(place: TokenPlace<'_>, stand: &str) -> &'static str {
    let is_call = [place.sign(), place.behind(1)] == ["(", "word"];
    if is_element(place) {
        "element"
    } else if stand == "argument" && is_call && fits(":=|=>", place.behind(2)) {
        "double"
    } else {
        ""
    }
}

/// What is asked of a token by where it stands.
const ASKED: &str = "\
top|behind outer
statement|head statement
declared|addressed declared
valued|taken valued
argument|argued argument
";

/// What a token is where no other rule than these is asked; empty where that is told by its sign.
fn single_sign(place: TokenPlace<'_>, stand: &str) -> &'static str {
    match stand {
        "begun" => begun_sign(place),
        "declaration" => declaration_sign(place),
        "value" if is_chosen(place) => "chosen",
        "kinded" if is_second_kind(place) => "another",
        _ => "",
    }
}

/// What a token is by where it stands; empty where that is told by its sign.
fn sign_there(place: TokenPlace<'_>, stand: &str) -> &'static str {
    match said_of(ASKED, &[stand]) {
        "outer" => outer_sign(place),
        "statement" => statement_sign(place),
        "valued" => valued_sign(place),
        "argument" => argument_sign(place, stand),
        "declared" if is_colon(place) => "colon",
        "declared" if stand == "declared" => declared_sign(place),
        _ => single_sign(place, stand),
    }
}

/// The sign of a token, as the rules tell it.
pub fn told_sign(place: TokenPlace<'_>, stand: &str) -> &'static str {
    let is_index = place.bracket().is_some();
    let is_least = |token: &Token| token.kind == TokenKind::Integer(2147483648);
    let there = sign_there(place, stand);
    let comma = comma_sign(place);
    match (place.sign(), place.head()) {
        _ if !comma.is_empty() && stand != "addressed" && !is_index => comma,
        _ if !there.is_empty() => there,
        (")", _) if place.parenthesis().is_none() => "unopened)",
        ("]", _) if !is_index => "unopened]",
        (",", _) if is_index => "second",
        ("..", _) if is_index => "range",
        ("int", _) if place.tokens.get(place.number).is_some_and(is_least) => "least",
        (":=", "IF" | "ELSIF") => "condition",
        (":=", head) if !head.is_empty() => "within",
        (sign, _) => sign,
    }
}
