//! What stands around a token with which no source can go on: whether it is a label, a name that is declared, or behind something that isn't closed.

use explain_tokens::{TokenPlace, closing_of, fits, part, sign_of};
use plant_types::same_word;
use std::cmp::Ordering;

/// So many uses of a word are looked at for its declaration.
const MOST_USES: usize = 64;

/// The number of the first token of the declaration, or behind the labels before it of the statement, in which a token stands.
pub fn statement_start(place: TokenPlace<'_>) -> usize {
    let ends = if place.is_declared() {
        ";|SECTION"
    } else {
        ";|:|THEN|DO|ELSE|OF|CLOSING|UNIT"
    };
    match place.open(ends, "", "") {
        Some(end) if fits("UNIT", end.sign()) => end.number.saturating_add(2).min(place.number),
        Some(end) => end.next().number,
        None => 0,
    }
}

/// The first keyword from a token on with which something else begins or ends, or the first `;`; else the place behind the last token.
pub fn next_end(place: TokenPlace<'_>) -> TokenPlace<'_> {
    place.ahead(if place.is_declared() {
        ";|OUTER"
    } else {
        ";|OF|OUTER"
    })
}

/// Whether a label of a CASE begins at a token.
pub fn is_label(place: TokenPlace<'_>) -> bool {
    let number = if place.sign() == "-" {
        place.next()
    } else {
        place
    };
    number.sign() == "int" && fits(":|,|..", number.behind(1))
}

/// Whether a label that has a CASE of its own before it stands before a token.
pub fn is_behind_cased(place: TokenPlace<'_>) -> bool {
    let last = place.previous();
    let first = if last.before(1) == "-" {
        last.previous()
    } else {
        last
    };
    first.before(1) == "CASE" && is_label(first)
}

/// Whether a comparison with a number stands behind the first word of a statement in the place of a label.
pub fn is_labelling(place: TokenPlace<'_>) -> bool {
    let is_compared = fits("=|<|>|<=|>=|<>", place.sign());
    is_compared && [place.behind(1), place.behind(2)] == ["int", ":"] && place.opener() == "CASE"
}

/// Whether a CASE is open around a token, perhaps with other statements in it.
pub fn is_in_case(place: TokenPlace<'_>) -> bool {
    place.open("CASE", "END_CASE", "UNIT").is_some()
}

/// Whether the IF or the CASE in which a token stands has its ELSE above it.
pub fn has_else(place: TokenPlace<'_>) -> bool {
    let Some(opened) = place.opened() else {
        return false;
    };
    let mut inside = (opened.number..place.number).map(|number| place.at(number));
    inside.any(|other| {
        let is_its = |around: TokenPlace<'_>| around.number == opened.number;
        other.sign() == "ELSE" && other.opened().is_some_and(is_its)
    })
}

/// How often a keyword that closes something stands in a unit.
fn count_closed(place: TokenPlace<'_>, closing: &str) -> usize {
    let tokens = place.tokens.iter();
    tokens
        .filter(|token| sign_of(token.kind) == closing)
        .count()
}

/// How often what a keyword closes is opened in a unit.
fn count_opened(place: TokenPlace<'_>, closing: &str) -> usize {
    let tokens = place.tokens.iter();
    tokens
        .filter(|token| closing_of(sign_of(token.kind)) == closing)
        .count()
}

/// Whether a keyword stands more often in a unit than what it closes is opened there, or less often.
pub fn closed_in(place: TokenPlace<'_>, closing: &str) -> Ordering {
    count_closed(place, closing).cmp(&count_opened(place, closing))
}

/// Whether a label at a token parts a CASE around an IF, a FOR or a CASE with its ELSE that isn't closed, of which its unit has too few ends.
pub fn parts_case(place: TokenPlace<'_>) -> bool {
    let Some(opened) = place.opened() else {
        return false;
    };
    let may_be = fits("IF|FOR", opened.sign()) || opened.sign() == "CASE" && has_else(place);
    let is_inner = is_label(place) && may_be && is_in_case(opened);
    is_inner && closed_in(place, closing_of(opened.sign())).is_lt()
}

/// Whether the section of declarations in which a call or an assignment stands isn't closed below it, before other statements or another section.
pub fn lacks_end_var(place: TokenPlace<'_>) -> bool {
    let end = place.ahead("CLOSING|SECTION|UNIT|IF|CASE|FOR");
    let mut behind = (place.number..end.number).map(|number| place.at(number));
    let is_body = place.opener() != "VAR_GLOBAL" && !behind.any(|other| other.sign() == ":");
    let may_be = match place.sign() {
        "(" => true,
        ":=" => is_body,
        "[" => is_body && place.previous().is_assigned(),
        _ => false,
    };
    may_be && end.sign() != "END_VAR"
}

/// Whether a token is a word where a declaration may name it.
fn names_word(place: TokenPlace<'_>, word: &[u8]) -> bool {
    let may_be = place.sign() == "word" && fits(":|,|AT", place.behind(1));
    may_be && same_word(place.word().as_bytes(), word)
}

/// Whether a token is a name in a declaration behind the beginning of a unit, or among the globals of its source.
fn is_name(place: TokenPlace<'_>, unit: usize) -> bool {
    fits("declaration|name", place.stand())
        && (place.number > unit || place.opener() == "VAR_GLOBAL")
}

/// The declaration above a word in which it is a name: in its unit, or among the globals of its source.
fn declared_at(place: TokenPlace<'_>) -> Option<TokenPlace<'_>> {
    if place.sign() != "word" {
        return None;
    }
    let word = place.word().as_bytes();
    let unit = place.open("UNIT", "", "").map_or(0, |unit| unit.number);
    let above = (0..place.number).map(|number| place.at(number));
    let mut same = above
        .filter(|other| names_word(*other, word))
        .take(MOST_USES);
    same.find(|other| is_name(*other, unit))
}

/// Whether a word is a name that is declared above it, in its unit or among the globals of its source.
pub fn is_variable(place: TokenPlace<'_>) -> bool {
    declared_at(place).is_some()
}

/// The sign of the kind with which a word is declared above it, in its unit or among the globals of its source; `word` where it is an instance, and empty where
/// it isn't declared there.
pub fn kind_sign(place: TokenPlace<'_>) -> &'static str {
    match declared_at(place).map(|name| name.ahead(":|;|OUTER")) {
        Some(colon) if colon.sign() == ":" => colon.behind(1),
        _ => "",
    }
}

/// Whether what stands from a token to the next `;` may be the right side of an assignment.
pub fn is_right_side(place: TokenPlace<'_>) -> bool {
    let end = place.ahead(";|:|:=|=>|..|,|OF|OUTER");
    let mut inside = (place.number..end.number).map(|number| place.at(number));
    let parts = |one: TokenPlace<'_>| {
        fits("word|int|literal|TRUE|FALSE|)|]", one.sign())
            && fits("word|int|literal|TRUE|FALSE|NOT|(", one.behind(1))
    };
    let begins = fits("word|int|literal|TRUE|FALSE|NOT|(|-", place.sign());
    end.sign() == ";" && begins && !inside.any(parts)
}

/// Whether a token and the word before it end a line, in which they stand alone behind a `;`.
fn ends_line(place: TokenPlace<'_>) -> bool {
    let is_behind = place.before(2) == ";" && is_in_line(place.previous());
    is_behind && is_in_line(place) && !is_in_line(place.next())
}

/// Whether three words or more stand side by side in a line, of which a token is the second, and no name of three parts is assigned, called or declared by them;
/// or two that end a line behind a `;`.
pub fn is_prose(place: TokenPlace<'_>) -> bool {
    let mut behind = (place.number..place.tokens.len()).map(|number| place.at(number));
    let end = behind.find(|other| other.sign() != "word" || !is_in_line(*other));
    let end = end.unwrap_or(place.at(place.tokens.len()));
    let is_name = fits(":=|(|[|:|,", end.sign()) && is_in_line(end);
    (end.number > place.next().number || ends_line(place)) && !is_name
}

/// Whether a word in another line stands before a token, alone behind a `;` in its line.
pub fn is_behind_note(place: TokenPlace<'_>) -> bool {
    let is_behind = place.before(2) == ";" && is_in_line(place.previous());
    is_behind && !is_in_line(place)
}

/// Whether a word is the name of a standard block.
pub fn is_standard(place: TokenPlace<'_>) -> bool {
    place.sign() == "word" && fits("TON|TOF|R_TRIG|TP|F_TRIG", place.word())
}

/// Whether a token stands in the line of the one before it.
pub fn is_in_line(place: TokenPlace<'_>) -> bool {
    !place.gap().contains(&b'\n')
}

/// Whether a word behind the kind of a declaration is another kind.
pub fn is_second_kind(place: TokenPlace<'_>) -> bool {
    let signs = [place.stand(), place.sign(), place.behind(1)];
    signs == ["kinded", "word", ";"] && is_in_line(place)
}

/// Whether a `)` with nothing open to close stands behind a token, in what ends with the next `;` or keyword.
pub fn has_loose_end(place: TokenPlace<'_>) -> bool {
    let behind = place.next();
    let end = behind.ahead(";|OUTER");
    let mut between = (behind.number..end.number).map(|number| place.at(number));
    between.any(|other| other.sign() == ")" && other.parenthesis().is_none())
}

/// Whether a `;` stands between the arguments of a call.
pub fn parts_arguments(place: TokenPlace<'_>) -> bool {
    let is_closed = || place.next().ahead("(|)|OUTER").sign() == ")" || has_loose_end(place);
    place.sign() == ";"
        && place.within() == "call"
        && place.behind(1) == "word"
        && fits(":=|=>", place.behind(2))
        && is_closed()
}

/// Whether a `:=` gives an argument of a call that has brackets for its parentheses.
pub fn is_braced(place: TokenPlace<'_>) -> bool {
    let end = place.ahead(";|OUTER");
    let count = |mark: &str| {
        (place.number..end.number)
            .filter(|number| place.at(*number).sign() == mark)
            .count()
    };
    let before = [place.before(3), place.before(2), place.before(1)];
    before == ["word", "[", "word"]
        && place.sign() == ":="
        && statement_start(place).saturating_add(3) == place.number
        && count("[") < count("]")
}

/// Whether what seems to be a call is assigned: it is an element with parentheses for its brackets.
pub fn is_element(place: TokenPlace<'_>) -> bool {
    let Some(open) = place.parenthesis() else {
        return false;
    };
    let end = place.ahead(")|;|OUTER");
    let mut inside = (open.number..place.number).map(|number| place.at(number));
    open.before(1) == "word"
        && [end.sign(), end.behind(1)] == [")", ":="]
        && !inside.any(|other| fits(",|:=|=>", other.sign()))
}

/// Whether a token begins a call in a line of its own, among the arguments of another one.
pub fn begins_call(place: TokenPlace<'_>) -> bool {
    [place.stand(), place.sign(), place.behind(1)] == ["argued", "(", "word"]
        && fits(":=|=>", place.behind(2))
        && !is_in_line(place.previous())
}

/// Whether three digits stand behind a number and a blank, and no label of a CASE begins with them.
fn is_group(place: TokenPlace<'_>) -> bool {
    let is_free = place.within() == "call" || !fits(":|,|..", place.behind(1));
    place.word().len() == 3 && is_in_line(place) && is_free
}

/// Whether an IF stands in the place of a value or behind one as the operator of another language does, which chooses between two values.
pub fn is_chosen(place: TokenPlace<'_>) -> bool {
    let end = place.next().ahead(";|ELSE|CLOSING|CASE|FOR");
    let may_be = match place.stand() {
        "value" => true,
        stand => stand == "valued" && is_in_line(place),
    };
    [place.sign(), end.sign()] == ["IF", "ELSE"] && may_be
}

/// Whether a statement or a part of one seems to begin at a token, or nothing follows.
pub fn begins_statement(place: TokenPlace<'_>) -> bool {
    match place.sign() {
        "word" => fits(":=|(|[", place.behind(1)),
        sign => fits("none|PART", sign),
    }
}

/// Whether two words are the parts of a third one.
pub fn is_joined(first: &str, second: &str, word: &str) -> bool {
    let (first, second, word) = (first.as_bytes(), second.as_bytes(), word.as_bytes());
    let len = first.len();
    same_word(part(word, 0, len), first) && same_word(part(word, len, word.len()), second)
}

/// Whether a mark stands before the kind of a declaration in the place of its colon.
pub fn is_colon(place: TokenPlace<'_>) -> bool {
    let is_kind = fits("KIND|ARRAY", place.behind(1)) || is_standard(place.next());
    fits("declared|addressed", place.stand()) && fits(";|.|,|<|>|-|=", place.sign()) && is_kind
}

/// Whether an argument seems to begin behind a token.
fn is_before_argument(place: TokenPlace<'_>) -> bool {
    place.within() == "call" && place.behind(1) == "word" && fits(":=|=>", place.behind(2))
}

/// Whether a word behind a number in its line seems to be its unit: an operator, or what ends an expression, stands behind it.
fn is_measure(place: TokenPlace<'_>) -> bool {
    let ends = ";|,|)|]|THEN|DO|OF|TO|BY|AND|OR|XOR|MOD|+|-|*|/|=|<|>|<=|>=|<>|&";
    is_in_line(place) && fits(ends, place.behind(1))
}

/// Whether a token stands among statements, and outside of all parentheses and brackets.
fn is_free(place: TokenPlace<'_>) -> bool {
    place.within().is_empty() && !place.is_declared()
}

/// Whether a `:=` stands in the line behind a word, and that behind an operator that lacks its right side in the line before.
fn is_unfinished(place: TokenPlace<'_>) -> bool {
    let operators = "+|-|*|/|=|<|>|<=|>=|<>|&|AND|OR|XOR|MOD|NOT|:=|.";
    is_free(place) && !is_in_line(place.previous()) && fits(operators, place.before(2))
}

/// What a `:=` behind a value is.
fn assigned_sign(place: TokenPlace<'_>) -> &'static str {
    match place.before(1) {
        "word" if is_braced(place) => "braced",
        "word" if is_unfinished(place) => "unfinished",
        _ if place.within() == "call" => "assigning",
        _ => "",
    }
}

/// Whether a word stands in the line behind an instance as its output would behind a point.
fn is_output(place: TokenPlace<'_>) -> bool {
    is_in_line(place) && !place.lacks_end() && kind_sign(place.previous()) == "word"
}

/// What a word or a number behind a value is.
fn word_sign(place: TokenPlace<'_>) -> &'static str {
    match (place.sign(), place.before(1)) {
        ("int", "int") if is_group(place) => "thousands",
        ("word", "int") if is_measure(place) => "measure",
        ("word", "word") if is_output(place) => "unpointed",
        (_, "word") if is_in_line(place) && !place.lacks_end() => "beside",
        _ => "",
    }
}

/// What a `,`, a `;` or a `:` behind a value is.
fn parting_sign(place: TokenPlace<'_>) -> &'static str {
    match place.sign() {
        ";" if parts_arguments(place) => "parting",
        "," if is_free(place) && has_loose_end(place) => "beyond",
        ":" | "," if is_free(place) && begins_statement(place.next()) => "ending",
        _ => "",
    }
}

/// Whether a `..` between two words stands in the place of a point.
fn is_dots(place: TokenPlace<'_>) -> bool {
    let is_between = [place.before(1), place.behind(1)] == ["word", "word"];
    is_between && !fits("FOR|TO", place.head())
}

/// What a token is that stands behind a value, or behind a variable that takes an output; empty where that is told by its sign.
pub fn valued_sign(place: TokenPlace<'_>) -> &'static str {
    match place.sign() {
        ":" | "," | ".." if is_behind_cased(place) => "label",
        ":=" => assigned_sign(place),
        "word" | "int" => word_sign(place),
        "," | ";" | ":" => parting_sign(place),
        "." if place.before(1) == "int" && is_before_argument(place) => "point",
        ".." if is_dots(place) => "dots",
        "IF" if is_chosen(place) => "chosen",
        _ => "",
    }
}
