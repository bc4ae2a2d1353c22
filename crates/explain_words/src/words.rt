//! Words that are written otherwise here: those of other dialects, and words that are nearly a keyword (C5).

use crate::around::{closed_in, is_in_line, is_joined, is_right_side, is_variable};
use explain_tokens::{TokenPlace, closing_of, fits, part, said_of, within_one};
use plant_types::same_word;

/// Where the grammar stands.
pub const GRAMMAR: &str = "docs/LANGUAGE.md, \"Grammar\"";

/// Where it stands what of the standard isn't there.
const STANDARD: &str = "docs/LANGUAGE.md, \"What of IEC 61131-3 is here\"";

/// Words of other dialects, or nearly those of this one, beside something: behind a `number`, as an `operator` behind another value, before the list of which a
/// value is a `member`, between & and ; as an `entity` of a page, behind a `bound` of a FOR, in the place of a `kind`, before the `title` or behind the name of
/// a `unit`, or in a `pair` with BLOCK. Behind each stands how a source is read on (`Misnomer`), and what is said.
const BESIDE: &str = "\
number s|ms|m|h|d part is no unit here: a duration is written as T#5s, without blanks
number|operator ANDN part isn't part of the language: both, the second of them not, is written a AND NOT b
number|operator ORN part isn't part of the language: either, the second of them not, is written a OR NOT b
number|operator XORN part isn't part of the language: it is written a XOR NOT b
number|operator NAND part isn't part of the language: not both is written NOT (a AND b)
number|operator NOR part isn't part of the language: neither is written NOT (a OR b)
number|operator XNOR part isn't part of the language: equal is written =
number|operator DIV part isn't part of the language: a quotient is written n / 2
number|operator STEP part isn't part of the language: the step of a FOR stands behind BY
number|operator DOWNTO part isn't part of the language: a FOR counts down with BY -1
number|operator AND_THEN part isn't part of the language: both is written AND
number|operator OR_ELSE part isn't part of the language: either is written OR
number|operator IS|EQ part isn't part of the language: equal is written =
number|operator NE part isn't part of the language: unequal is written <>
number|operator LT part isn't part of the language: less is written <
number|operator GT part isn't part of the language: greater is written >
number|operator LE part isn't part of the language: at most is written <=
number|operator GE part isn't part of the language: at least is written >=
number|operator REM part isn't part of the language: a remainder is written n MOD 2
number|operator FO OF is written OF
number|operator YB BY is written BY
bound OD DO is written DO
bound OT TO is written TO
member IN part isn't part of the language: one of several is written n = 1 OR n = 2
entity LT < with its & and ; is how a page writes <: that itself stands here
entity GT > with its & and ; is how a page writes >: that itself stands here
entity AMP & with its & and ; is how a page writes &: that itself stands here
number|operator ANDNOT AND is two words: AND NOT
number|operator ORNOT OR is two words: OR NOT
number|operator XORNOT XOR is two words: XOR NOT
number|operator IN part isn't part of the language: CASE n OF has labels behind OF, and FOR i := 1 TO 8 its bounds behind :=
kind POINTER|REFERENCE|REF_TO part isn't part of the language: there are no pointers, and a variable is named itself
kind STRING|WSTRING part isn't part of the language: it has no texts, and its kinds are BOOL, DINT and TIME
kind STRUCT|UNION _ isn't part of the language: its kinds are BOOL, DINT and TIME
unit VERSION|TITLE|AUTHOR|FAMILY|NAME|KNOW_HOW_PROTECT _ isn't part of the language: a unit has a name alone, and a remark may tell the rest
title PUBLIC|PRIVATE|PROTECTED|INTERNAL|FINAL|ABSTRACT skip isn't part of the language: a unit has a name alone
pair FUNCTION _ and BLOCK are one word: FUNCTION_BLOCK
pair END_FUNCTION _ and BLOCK are one word: END_FUNCTION_BLOCK
";

/// Words of other dialects that begin something, the way to read on behind each, and what is said.
const WORDS: &str = "\
WHILE END_WHILE isn't part of the language: its loop is FOR, with constant bounds
REPEAT END_REPEAT isn't part of the language: its loop is FOR, with constant bounds
UNTIL|END_WHILE|END_REPEAT|LOOP _ isn't part of the language: its loop is FOR, with constant bounds
EXIT|CONTINUE|RETURN|GOTO|JMP part isn't part of the language: an IF around the rest does the same
LD|LDN|ST|STN _ isn't part of the language: there are no lists of instructions, and a value is assigned as in n := m;
__TRY _ isn't part of the language: a program that traps stops until an operator restarts it
BREAK part isn't part of the language: the statements of a label end before the next one
ELSEIF|ELIF ELSIF is written ELSIF
IFNOT IF is two words: IF NOT
ELSIFNOT ELSIF is two words: ELSIF NOT
ENDIF|FI END_IF is written END_IF
ENDCASE END_CASE is written END_CASE
ENDFOR END_FOR is written END_FOR
NEXT _ isn't part of the language: a FOR ends with END_FOR
SWITCH head is written CASE n OF
WHEN _ isn't part of the language: IF and CASE choose
OTHERWISE ELSE is written ELSE
DEFAULT|OTHERS part isn't part of the language: the last part of a CASE is ELSE, without a :
END _ is no keyword: END_IF, END_CASE, END_FOR, END_VAR and END_PROGRAM are one word each
FUNCTION _ isn't part of the language: a FUNCTION_BLOCK with an output does the same
END_FUNCTION|END_FB END_FUNCTION_BLOCK is written END_FUNCTION_BLOCK
FB FUNCTION_BLOCK is written FUNCTION_BLOCK
ORGANIZATION_BLOCK|CONFIGURATION|RESOURCE|TASK _ isn't part of the language: each program runs once in a scan, in the order of the sources
DATA_BLOCK|VAR_ACCESS _ isn't part of the language: VAR_GLOBAL has what several units use
TYPE|STRUCT|UNION|END_TYPE|END_STRUCT _ isn't part of the language: its kinds are BOOL, DINT and TIME
NAMESPACE|USING|IMPORT|LIBRARY _ isn't part of the language: all sources of a plant share their globals and blocks
METHOD|PROPERTY|ACTION|EXTENDS|IMPLEMENTS|PUBLIC _ isn't part of the language: a FUNCTION_BLOCK has variables and one body
PRIVATE|PROTECTED|INTERNAL|FINAL|CLASS|ABSTRACT|INTERFACE _ isn't part of the language: a FUNCTION_BLOCK has variables and one body
BEGIN skip isn't part of the language: statements begin behind END_VAR, and those of an IF or a FOR behind THEN, ELSE or DO
REGION|END_REGION _ isn't part of the language: statements begin behind the last END_VAR, and a remark may part them
CONSTANT _ isn't part of the language: a variable that nothing assigns keeps its initial value
RETAIN|NON_RETAIN|PERSISTENT _ isn't part of the language: a variable keeps its value from scan to scan, and none beyond a run
VAR_TEMP VAR isn't part of the language: VAR is, and keeps its values from scan to scan
VAR_IN|INPUT VAR_INPUT is written VAR_INPUT
OUTPUT|VAR_OUT VAR_OUTPUT is written VAR_OUTPUT
GLOBAL|GLOBAL_VAR VAR_GLOBAL is written VAR_GLOBAL
VAR_STAT|VAR_INST VAR is written VAR
VAR_CONFIG _ isn't part of the language: an address stands in VAR_GLOBAL, as in pump AT %QX0.0 : BOOL
VAR_IN_OUT VAR isn't part of the language: VAR_INPUT takes a value, and VAR_OUTPUT gives one
CONST _ isn't part of the language: VAR is, with initial values that nothing assigns
JSR|SBR|RET part isn't part of the language: each program runs once in a scan, in the order of the sources
INC|INCR part isn't part of the language: one more is written n := n + 1
DEC|DECR part isn't part of the language: one less is written n := n - 1
CAL|CALL part isn't part of the language: an instance is called as t(IN := a);
PASS part isn't part of the language: an empty statement is a ; alone
";

/// The keywords that may stand where a token does, by the word for that; those that are looked at first stand first.
const KEYWORDS: &str = "\
value NOT
valued THEN AND XOR MOD OR
top|behind PROGRAM FUNCTION_BLOCK VAR_GLOBAL
declaration VAR VAR_INPUT VAR_OUTPUT VAR_EXTERNAL END_VAR
statement|label IF CASE FOR ELSE ELSIF END_IF END_CASE END_FOR END_PROGRAM END_FUNCTION_BLOCK
head VAR VAR_INPUT VAR_OUTPUT VAR_EXTERNAL END_VAR IF CASE FOR ELSE ELSIF END_IF END_CASE END_FOR END_PROGRAM END_FUNCTION_BLOCK
";

/// A word that is written otherwise here; how a source is read on; what is said behind the word, in three parts; and where to read more. A source is read on
/// with a keyword in its place, or behind what it ends with, END_WHILE or END_REPEAT; without it (`skip`), or without the statement or the declaration of which
/// it is a `part`, or with the `head` of a CASE in the place of its line; where that isn't certain, there stands `_`.
pub type Misnomer<'a> = (TokenPlace<'a>, &'static str, Said, &'static str);

/// What is said behind a word, in three parts.
pub type Said = (&'static str, &'static str, &'static str);

/// What is said of a word by its site, or else by itself where it `is_first`; empty of a word of the language.
fn said_at(site: &str, word: &str, is_first: bool) -> &'static str {
    match said_of(BESIDE, &[site, word]) {
        "" if is_first => said_of(WORDS, &[word]),
        told => told,
    }
}

/// Words of other dialects that are hardly names, so that one is no variable which lacks the := behind it.
const UNNAMED: &str =
    "WHILE|REPEAT|EXIT|CONTINUE|RETURN|GOTO|JMP|ELSEIF|ELIF|ENDIF|ENDCASE|ENDFOR|OTHERWISE|VAR_TEMP|VAR_IN_OUT|INC|DEC|JSR";

/// Whether a word may be a variable, perhaps of another source, by what follows it: behind a value no value, at the beginning of a statement the right side of
/// an assignment or an operator, and in a declaration a kind.
fn may_be_name(place: TokenPlace<'_>, site: &str, stand: &str) -> bool {
    let (behind, next) = (place.behind(1), place.next());
    match (site, stand) {
        ("operator", _) => !fits("word|int|literal|TRUE|FALSE|NOT|(|[|-", behind),
        ("unit", _) => fits("KIND|ARRAY", place.behind(2)) || fits(";|:=", place.behind(3)),
        (_, "declaration") => {
            fits("KIND|ARRAY|,|:", behind) || behind == "word" && fits(";|:=", place.behind(2))
        }
        (_, "statement") if fits("NEXT", place.word()) => !closed_in(place, "END_FOR").is_lt(),
        (_, "head" | "statement" | "label") => {
            let is_operand = fits("THEN|AND|OR|XOR|MOD|=|<|>|<=|>=|<>|+|-|*|/|&|[", behind);
            !fits(UNNAMED, place.word()) && (is_operand || is_right_side(next))
        }
        _ => false,
    }
}

/// Whether a word stands between & and ; without blanks, as in a page.
fn is_entity(place: TokenPlace<'_>) -> bool {
    let around = [place.before(1), place.behind(1)];
    around == ["&", ";"] && place.gap().is_empty() && place.next().gap().is_empty()
}

/// Where a word behind a value stands, as the tables tell it.
fn operator_site(place: TokenPlace<'_>, stand: &str) -> &'static str {
    match stand {
        "valued" if fits("IN", place.word()) && !fits("FOR|CASE", place.head()) => "member",
        "valued" if fits("OD|OT", place.word()) && fits("FOR|TO|BY", place.head()) => "bound",
        _ if fits(":=|=>|.", place.behind(1)) => "",
        "valued" if fits("int|literal", place.before(1)) => "number",
        _ => "operator",
    }
}

/// Where a word stands that may be one of another dialect, as the tables tell it.
fn site_of(place: TokenPlace<'_>, stand: &str) -> &'static str {
    let behind = place.behind(1);
    match stand {
        _ if is_entity(place) => "entity",
        "kind" => "kind",
        "title" if behind == "word" => "title",
        "head" if fits(":|=", behind) => "unit",
        _ if fits("valued|assigned|controlled", stand) => operator_site(place, stand),
        _ if same_word(place.next().word().as_bytes(), b"BLOCK") => "pair",
        _ => "",
    }
}

/// The word of another dialect that a token is; `None` where it is none.
fn foreign(place: TokenPlace<'_>) -> Option<Misnomer<'_>> {
    let (word, stand) = (place.word(), place.stand());
    let site = site_of(place, stand);
    let is_first = fits("top|behind|head|declaration|statement|label", stand)
        && !fits(":=|=>|.", place.behind(1));
    let (way, said) = said_at(site, word, is_first).split_once(" ")?;
    let is_told = !may_be_name(place, site, stand);
    is_told.then_some((place, way, (said, "", ""), STANDARD))
}

/// Whether a word begins a declaration, with its name or names behind it, or a section whose keyword is misspelled.
fn begins_names(place: TokenPlace<'_>) -> bool {
    place.behind(1) == "word" && fits(":|,|AT", place.behind(2))
}

/// Whether a keyword that closes something may stand where a word does, by what follows that.
fn may_close(place: TokenPlace<'_>) -> bool {
    let behind = place.behind(1);
    let is_value = fits("NOT|TRUE|FALSE|KIND|ARRAY", behind);
    let goes_on = behind == "word" && fits(":=|(|[|.", place.behind(2));
    let is_last = behind == "." && place.behind(2) != "word";
    goes_on || is_last || fits("none|;|KEYWORD", behind) && !is_value
}

/// The signs of which one stands right behind a keyword.
const FOLLOWED: &str = "\
THEN word|;|PART
AND|XOR|MOD word|int|literal|TRUE|FALSE|NOT|(|-
NOT word|TRUE|FALSE
OR word|TRUE|FALSE|NOT|(
PROGRAM|FUNCTION_BLOCK word
";

/// The keyword that ends the head of a statement, behind the one that begins it.
const HEADS: &str = "\
IF|ELSIF THEN
CASE OF
FOR TO
";

/// Whether a keyword that begins an ELSE or a section, or closes something, may stand where a word does, by what follows that.
fn may_part(place: TokenPlace<'_>, keyword: &str) -> bool {
    let behind = place.behind(1);
    let begins = behind == "word" && fits(":=|(|[", place.behind(2));
    match keyword {
        "ELSE" => begins || fits("IF|CASE|FOR", behind),
        _ if fits("SECTION", keyword) => begins_names(place) || behind == "END_VAR",
        _ => may_close(place),
    }
}

/// Whether a keyword may stand where a word does, by what follows that.
fn may_stand(place: TokenPlace<'_>, keyword: &str) -> bool {
    let is_free = keyword != "THEN" || fits("IF|ELSIF", place.head());
    match (said_of(FOLLOWED, &[keyword]), said_of(HEADS, &[keyword])) {
        ("", "") => may_part(place, keyword),
        ("", last) => place.next().ahead(";|OF|OUTER").sign() == last,
        (signs, _) => fits(signs, place.behind(1)) && is_free,
    }
}

/// Whether a word begins as a keyword does, and nearly is that one, or is its first part.
fn is_near(place: TokenPlace<'_>, keyword: &str) -> bool {
    let (word, other) = (place.word().as_bytes(), keyword.as_bytes());
    let begins = same_word(part(word, 0, 1), part(other, 0, 1));
    begins && (within_one(word, other) || joins(place, keyword))
}

/// The first keyword that may stand where a word does and that it nearly is.
fn near_keyword(place: TokenPlace<'_>) -> Option<&'static str> {
    let mut keywords = said_of(KEYWORDS, &[place.stand()]).split(" ");
    keywords.find(|keyword| is_near(place, keyword))
}

/// Whether a keyword goes on as a word does that nearly is that one: a short word may be a name.
fn may_be_meant(place: TokenPlace<'_>, keyword: &str) -> bool {
    if joins(place, keyword) {
        return may_stand(place.next(), keyword);
    }
    let least = if fits("value|valued", place.stand()) {
        2
    } else {
        3
    };
    place.word().len() >= least && may_stand(place, keyword)
}

/// The keyword that a word nearly is, but for one letter that isn't its first, or two that changed places, and which goes on as that does. `None` where it is none.
fn meant(place: TokenPlace<'_>) -> Option<Misnomer<'_>> {
    match near_keyword(place) {
        Some(keyword) if may_be_meant(place, keyword) => {
            Some((
                place,
                keyword,
                ("is no keyword; did you mean ", keyword, "?"),
                GRAMMAR,
            ))
        }
        _ => None,
    }
}

/// Whether a word and the one behind it in its line are the parts of a keyword.
fn joins(place: TokenPlace<'_>, keyword: &str) -> bool {
    let next = place.next();
    is_joined(place.word(), next.word(), keyword) && is_in_line(next)
}

/// How many tokens a word has that stands for a keyword: more than 1 where this is parted, as in END IF, END-IF or END_I F.
pub fn parted_len(place: TokenPlace<'_>, keyword: &str) -> usize {
    let is_end = fits("END|END_", place.word()) && is_in_line(place.next());
    match place.behind(1) {
        "-" if is_end && !closing_of(place.behind(2)).is_empty() => 3,
        opening if is_end && !closing_of(opening).is_empty() => 2,
        _ if is_end && joins(place, closing_of(place.opener())) => 2,
        _ if joins(place, keyword) => 2,
        _ => 1,
    }
}

/// The keyword that closes what is open, where a word begins as those do that close something; `None` where it doesn't.
fn closing(place: TokenPlace<'_>) -> Option<Misnomer<'_>> {
    let keyword = closing_of(place.opener());
    let len = parted_len(place, keyword);
    let is_end = same_word(part(place.word().as_bytes(), 0, 3), b"END") || len > 1;
    let said = ("is no keyword: ", keyword, " closes what is open here");
    let may_end = fits("statement|declaration", place.stand()) && (may_close(place) || len > 1);
    (is_end && may_end).then_some((place, keyword, said, GRAMMAR))
}

/// What is said of a word that begins as those do that open a section, where declarations follow it; `None` of any other.
fn section(place: TokenPlace<'_>) -> Option<Misnomer<'_>> {
    if !same_word(part(place.word().as_bytes(), 0, 4), b"VAR_") {
        return None;
    }
    let may_open = fits("top|behind|head|declaration|statement", place.stand());
    let said = (
        "opens no section: VAR, VAR_INPUT, VAR_OUTPUT, VAR_EXTERNAL and VAR_GLOBAL do",
        "",
        "",
    );
    (may_open && begins_names(place)).then_some((place, "_", said, GRAMMAR))
}

/// The rules by which a word is told: those that are asked first stand first.
#[derive(Clone, Copy, Drop)]
enum Rule {
    Foreign,
    Meant,
    Section,
    Closing,
}

/// What a rule says of a token; `None` where it is no word, or one that is declared.
fn told_by(rule: Rule, place: TokenPlace<'_>) -> Option<Misnomer<'_>> {
    if place.sign() != "word" {
        return None;
    }
    let told = match rule {
        Rule::Foreign => foreign(place),
        Rule::Meant => meant(place),
        Rule::Section => section(place),
        Rule::Closing => closing(place),
    };
    told.filter(|told| !is_variable(told.0))
}

/// What a rule says of the first of the words by which a token can't be there: that one, the one before it, the one with which its call begins or the one behind
/// its unit's keyword.
fn told_around(place: TokenPlace<'_>, rule: Rule) -> Option<Misnomer<'_>> {
    let (here, before) = (told_by(rule, place), told_by(rule, place.previous()));
    let (call, unit) = (told_by(rule, called(place)), told_by(rule, titled(place)));
    here.or(before).or(call).or(unit)
}

/// The word with which a statement begins as a call does, among whose arguments a token stands; else that token.
fn called(place: TokenPlace<'_>) -> TokenPlace<'_> {
    let open = place
        .parenthesis()
        .filter(|_| fits("argument|argued", place.stand()));
    open.map_or(place, |open| open.previous())
}

/// The word behind the keyword of a unit, where the second one behind it stands before a token; else that token.
fn titled(place: TokenPlace<'_>) -> TokenPlace<'_> {
    if place.before(1) == "word" && fits("UNIT", place.before(3)) {
        place.previous().previous()
    } else {
        place
    }
}

/// The word by which a token can't be there, unless it is a name that is declared; behind the last token one that is meant to close what is open.
pub fn misnomer(place: TokenPlace<'_>) -> Option<Misnomer<'_>> {
    let closing = told_around(place, Rule::Closing);
    if place.number >= place.tokens.len() {
        return closing;
    }
    let foreign = told_around(place, Rule::Foreign);
    let meant = told_around(place, Rule::Meant);
    foreign
        .or(meant)
        .or(told_around(place, Rule::Section))
        .or(closing)
}
