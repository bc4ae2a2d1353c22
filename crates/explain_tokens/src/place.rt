//! The tokens of a source, what they stand in, and what may stand there.

use crate::cause::part;
use crate::patterns::{fits, said_of};
use crate::tokens::{Nesting, nesting_of, opens_section, sign_at, sign_before, span_of, word_at};
use st_lexer::{Token, place_of};

/// Where a token stands, by what opens that in which it does, what is known of the token before it (`role`), the one before that and the one before it. It is
/// one of these words:
///
/// - outside of units: `top` above all of them, `behind` one;
/// - at the beginning of a unit: `title` behind PROGRAM or FUNCTION_BLOCK, `head` behind its name or a section of it;
/// - among declarations: `declaration` where one may begin, `name` behind a comma, `declared` behind a name, `address` behind AT, `addressed` behind an
///   address, `kind` behind the colon, `array` behind ARRAY, `kinded` behind the kind;
/// - among statements: `statement` where one may begin, `begun` behind its first word, `assigned` behind an element with which it begins, `ended` behind what
///   closes one, where its `;` has to stand, `control` behind FOR, `controlled` behind its variable, `label` where one has to stand, `labelled` behind one;
/// - in a call: `argument` where one may begin, `argued` behind its name, `taker` behind `=>`, `taken` behind the variable there;
/// - in an expression: `value` where one has to stand, `valued` behind one, `member` behind an instance and a point.
const STANDS: &str = "\
_ _ _ none top
_ _ _ UNIT title
_ _ _ END_PROGRAM|END_FUNCTION_BLOCK behind
none _ _ END_VAR top
_ _ _ END_VAR head
_ _ _ . member
SECTION _ _ ;|SECTION declaration
SECTION _ _ , name
SECTION _ _ : kind
SECTION _ _ AT address
SECTION _ _ address addressed
SECTION _ _ KIND kinded
SECTION _ : word kinded
SECTION _ ;|,|SECTION word declared
SECTION _ _ word valued
SECTION array _ _ array
_ _ UNIT word head
_ _ FOR word controlled
_ _ => word taken
_ call (|, word argued
_ first _ word begun
_ first _ ) ended
_ first _ ] assigned
_ _ _ ;|:|THEN|DO|ELSE statement
_ _ _ END_IF|END_CASE|END_FOR ended
_ _ _ FOR control
_ _ _ => taker
_ call _ (|, argument
_ _ _ ,|..|OF label
_ label _ int labelled
CASE _ ,|..|OF|;|: - label
_ _ _ :=|(|[|+|-|*|/|=|<>|<|>|<=|>=|& value
_ _ _ IF|ELSIF|CASE|TO|BY|NOT|AND|OR|XOR|MOD value
_ _ _ _ valued
";

/// A token of a source, by its number; behind the last one there is none.
#[derive(Clone, Copy, Drop)]
pub struct TokenPlace<'a> {
    pub text: &'a [u8],
    pub tokens: &'a [Token],
    pub number: usize,
}

impl<'a> TokenPlace<'a> {
    /// The token of a number.
    pub fn new(text: &'a [u8], tokens: &'a [Token], number: usize) -> TokenPlace<'a> {
        TokenPlace {
            text,
            tokens,
            number,
        }
    }

    /// The token of another number.
    pub fn at(self, number: usize) -> TokenPlace<'a> {
        TokenPlace { number, ..self }
    }

    /// The token before it; the first one itself.
    pub fn previous(self) -> TokenPlace<'a> {
        self.at(self.number.saturating_sub(1))
    }

    /// The token behind it.
    pub fn next(self) -> TokenPlace<'a> {
        self.at(self.number.saturating_add(1))
    }

    /// Its sign; empty where there is no token.
    pub fn sign(self) -> &'static str {
        sign_at(self.tokens, self.number)
    }

    /// The sign of the token so many before it; empty where there is none.
    pub fn before(self, back: usize) -> &'static str {
        sign_before(self.tokens, self.number, back)
    }

    /// The sign of the token so many behind it; empty where there is none.
    pub fn behind(self, by: usize) -> &'static str {
        sign_at(self.tokens, self.number.saturating_add(by))
    }

    /// Its text.
    pub fn word(self) -> &'a str {
        word_at(self.text, self.tokens, self.number)
    }

    /// The line in which it stands, from 1.
    pub fn line(self) -> usize {
        place_of(self.text, self.tokens, self.number).0
    }

    /// Its bytes, from one number to before another.
    pub fn mark(self) -> (usize, usize) {
        let next = self.number.saturating_add(1);
        span_of(self.text, self.tokens, self.number, next)
    }

    /// The bytes between the token before it and this one.
    pub fn gap(self) -> &'a [u8] {
        let before = self
            .number
            .checked_sub(1)
            .map(|before| self.at(before).mark().1);
        part(self.text, before.unwrap_or(0), self.mark().0)
    }

    /// The last token before it that opens something by its sign, and that another one doesn't close before it; `None` where a sign ends the search before.
    pub fn open(self, opens: &str, closes: &str, ends: &str) -> Option<TokenPlace<'a>> {
        let mut closed = 0usize;
        for number in (0..self.number).rev() {
            let sign = sign_at(self.tokens, number);
            if fits(closes, sign) {
                closed = closed.saturating_add(1);
            } else if fits(opens, sign) {
                if closed == 0 {
                    return Some(self.at(number));
                }
                closed = closed.saturating_sub(1);
            } else if fits(ends, sign) {
                return None;
            }
        }
        None
    }

    /// The first token from it on that has one of these signs; else the place behind the last one.
    pub fn ahead(self, pattern: &str) -> TokenPlace<'a> {
        let mut numbers = self.number..self.tokens.len();
        let found = numbers.find(|number| fits(pattern, sign_at(self.tokens, *number)));
        self.at(found.unwrap_or(self.tokens.len()))
    }

    /// The keyword that opens what it stands in: a statement, a section of declarations or a unit.
    pub fn opened(self) -> Option<TokenPlace<'a>> {
        let mut closed = 0usize;
        for number in (0..self.number).rev() {
            let token = self.tokens.get(number);
            match token.and_then(|token| nesting_of(token.kind)) {
                Some(Nesting::Closes) => closed = closed.saturating_add(1),
                Some(Nesting::Opens) if closed == 0 => return Some(self.at(number)),
                Some(Nesting::Opens) => closed = closed.saturating_sub(1),
                None => {}
            }
        }
        None
    }

    /// The sign of what opens that in which it stands; empty outside of all.
    pub fn opener(self) -> &'static str {
        self.opened().map_or("", |opened| opened.sign())
    }

    /// Whether it stands among declarations.
    pub fn is_declared(self) -> bool {
        opens_section(self.opener())
    }

    /// The last `(` before it that isn't closed before it.
    pub fn parenthesis(self) -> Option<TokenPlace<'a>> {
        self.open("(", ")", ";|OF|OUTER")
    }

    /// The last `[` before it that isn't closed before it, where no `(` is open behind it.
    pub fn bracket(self) -> Option<TokenPlace<'a>> {
        let open = self.open("(|[", ")|]", ";|:=|=>");
        open.filter(|open| open.sign() == "[")
    }

    /// In what an expression stands here: a `call`, other parentheses as `(`, or by its keyword the head of an IF, ELSIF, CASE or FOR, or behind these TO or
    /// BY; empty where it stands in none.
    pub fn within(self) -> &'static str {
        match self.parenthesis() {
            Some(open) if open.before(1) == "word" => "call",
            Some(_) => "(",
            None => self.head(),
        }
    }

    /// The keyword in whose head it stands: IF, ELSIF, CASE or FOR, or behind these TO or BY; empty where it stands in none.
    pub fn head(self) -> &'static str {
        let head = self.open("IF|ELSIF|CASE|FOR|TO|BY", "", ";|OF|OUTER");
        head.map_or("", |head| head.sign())
    }

    /// Whether the token before it is a label of a CASE.
    pub fn is_behind_label(self) -> bool {
        let is_negative = self.before(2) == "-";
        let before = if is_negative {
            self.before(3)
        } else {
            self.before(2)
        };
        self.before(1) == "int" && fits("OF|;|:|,|..", before)
    }

    /// Whether the token before it is a word with which a statement begins.
    fn is_behind_first(self) -> bool {
        let is_behind_name = self.before(2) == "word" && fits("UNIT", self.before(3));
        self.before(1) == "word"
            && (is_behind_name || fits(";|:|THEN|DO|ELSE|END_VAR", self.before(2)))
    }

    /// What is known of the token before it: it stands behind the ARRAY of its declaration (`array`), it is a `label` of a CASE, the `first` word of a
    /// statement or what closes its `(` or `[`, or it stands among the arguments of a `call`.
    fn role(self) -> &'static str {
        let opened = match self.before(1) {
            ")" => self.previous().parenthesis(),
            "]" => self.previous().bracket(),
            _ => Some(self),
        };
        if self.open("ARRAY", "", ";|:=|OUTER").is_some() {
            "array"
        } else if self.is_behind_label() {
            "label"
        } else if opened.is_some_and(|opened| opened.is_behind_first()) {
            "first"
        } else if self.within() == "call" {
            "call"
        } else {
            ""
        }
    }

    /// Where it stands, as the table of these words tells it: a source can go on with the tokens before it.
    pub fn stand(self) -> &'static str {
        let signs = [self.opener(), self.role(), self.before(2), self.before(1)];
        said_of(STANDS, &signs)
    }

    /// What seems to be missing before it, as it is spelled, and how that is told: what ends a label, or parts what stands in parentheses, or ends the head of
    /// an IF, a CASE or a FOR, or else a statement.
    pub fn lacking(self) -> (&'static str, &'static str) {
        match self.within() {
            _ if self.is_behind_label() => (":", "a ':'"),
            "call" | "(" => (",", "a ',', a ')' or an operator"),
            "IF" | "ELSIF" => ("THEN", "THEN"),
            "CASE" => ("OF", "OF"),
            "" => (";", "a ';'"),
            _ => ("DO", "DO"),
        }
    }

    /// Whether an assignment seems to begin at it: a := stands behind it, or behind its index.
    pub fn is_assigned(self) -> bool {
        let end = self.ahead(":=|;|OUTER");
        match self.behind(1) {
            "[" => [end.before(1), end.sign()] == ["]", ":="],
            behind => behind == ":=",
        }
    }

    /// Whether something seems to be missing before it: what ends a statement, the head of one, a declaration or a label.
    pub fn lacks_end(self) -> bool {
        let (sign, behind) = (self.sign(), self.behind(1));
        let is_in_line = self.within() == "call" || !self.gap().contains(&b'\n');
        match (self.stand(), sign) {
            ("ended", _) => fits("PART|word|int", sign),
            ("kinded", _) => fits("PART|word", sign),
            ("labelled", _) => fits("word|;", sign),
            ("valued", "word") => fits("=>|(", behind) || self.is_assigned() || !is_in_line,
            ("valued", "int") if self.opener() == "CASE" && fits(":|,|..", behind) => true,
            ("valued", "int") => self.lacking().0 == "OF",
            ("valued", _) => fits("PART", sign),
            _ => false,
        }
    }
}
