//! The names for which a word may be a slip.

use explain_tokens::{part, within_one};

/// So many names are kept that are near.
pub const MOST_NAMES: usize = 3;

/// Whether two names differ in nothing but digits.
fn are_twins(a: &[u8], b: &[u8]) -> bool {
    let mut others = b.iter().filter(|byte| !byte.is_ascii_digit());
    for letter in a.iter().filter(|byte| !byte.is_ascii_digit()) {
        match others.next() {
            Some(other) if other.eq_ignore_ascii_case(letter) => {}
            _ => return false,
        }
    }
    others.next().is_none()
}

/// Whether two bytes that stand side by side are letters of one part of a name, as not in PT_DIS, DOOR1 or doorHeater.
fn are_joined(a: u8, b: u8) -> bool {
    let is_hump = a.is_ascii_lowercase() && b.is_ascii_uppercase();
    a.is_ascii_alphabetic() && b.is_ascii_alphabetic() && !is_hump
}

/// How many letters the part of a name has before the byte of a number, and behind it.
fn part_around(name: &[u8], at: usize) -> (usize, usize) {
    let before = part(name, 0, at).iter().rev();
    let here = part(name, 0, at.saturating_add(1)).iter().rev();
    let pairs = before.zip(here);
    let before = pairs.take_while(|(a, b)| are_joined(**a, **b)).count();
    let here = part(name, at, name.len()).iter();
    let behind = part(name, at.saturating_add(1), name.len()).iter();
    let pairs = here.zip(behind);
    let behind = pairs.take_while(|(a, b)| are_joined(**a, **b)).count();
    (before, behind)
}

/// How many letters the part of a name has to which the byte of a number belongs, with this one.
fn part_len(name: &[u8], at: usize) -> usize {
    let (before, behind) = part_around(name, at);
    before.saturating_add(behind).saturating_add(1)
}

/// Whether the byte of a number is inside of a part of a name of four letters or more.
fn is_inside(name: &[u8], at: usize) -> bool {
    let (before, behind) = part_around(name, at);
    before > 0 && behind > 0 && before.saturating_add(behind) > 2
}

/// Whether a digit and a letter look alike.
fn look_alike(a: u8, b: u8) -> bool {
    let is_o = |byte: u8| matches!(byte, b'O' | b'o');
    let is_bar = |byte: u8| matches!(byte, b'I' | b'i' | b'L' | b'l');
    let looks = |digit: u8, letter: u8| {
        digit == b'0' && is_o(letter) || digit == b'1' && is_bar(letter)
    };
    looks(a, b) || looks(b, a)
}

/// Whether a letter tells things of one kind apart, as in pumpA and pumpB, or FAN_L and FAN_R.
fn tells_apart(letter: u8) -> bool {
    b"ABCDEFLRHNWXYZ".contains(&letter.to_ascii_uppercase())
}

/// Whether two names look alike: where one has a letter, the other may have the digit that looks like it.
fn have_one_look(a: &[u8], b: &[u8]) -> bool {
    let mut pairs = a.iter().zip(b);
    a.len() == b.len() && pairs.all(|(x, y)| x.eq_ignore_ascii_case(y) || look_alike(*x, *y))
}

/// How surely a name is meant by a word.
#[derive(Clone, Copy, PartialEq, Eq, Drop)]
pub enum Nearness {
    /// It isn't near.
    Far,
    /// One letter is another one, is put in or left out, or two are changed about; but the two may well be names of two things, as PT_DIS and TT_DIS, LIM_HI
    /// and LIM_HH, pumpA and pumpB.
    Near,
    /// The same, in a part of three letters or more of a name of some length, and not by letters that tell things apart.
    Likely,
    /// The same inside of a part of four letters or more, or two are changed about, or a letter stands twice, or `_` is left out, or a digit is a letter that
    /// looks like it: a slip of the fingers.
    Slip,
}

/// How near two names are of which the longer one has the byte of a number more.
fn nearness_put(longer: &[u8], at: usize) -> Nearness {
    let letter = longer.get(at).copied().unwrap_or(b' ');
    let previous = part(longer, 0, at).last().copied().unwrap_or(b' ');
    let is_double = letter.eq_ignore_ascii_case(&previous);
    let (before, behind) = part_around(longer, at);
    let letters = before.saturating_add(behind).saturating_add(1);
    let is_first = at > 0 && before == 0 && letters > 4;
    let is_apart = behind == 0 && tells_apart(letter);
    if letter == b'_' || (is_double && letters > 2) || is_first || is_inside(longer, at) {
        Nearness::Slip
    } else if letters > 2 && !is_apart {
        Nearness::Likely
    } else {
        Nearness::Near
    }
}

/// How near two names of one length are that differ in one byte, that of a number.
fn nearness_changed(a: &[u8], b: &[u8], at: usize) -> Nearness {
    let letter = a.get(at).copied().unwrap_or(b' ');
    let other = b.get(at).copied().unwrap_or(b' ');
    let letters = part_len(a, at).max(part_len(b, at));
    let is_long = letters > 3 || letters > 2 && a.len() > 5;
    let are_marks = letter == b'_' || other == b'_';
    let are_apart = tells_apart(letter) && tells_apart(other);
    let is_slip = letters > 2 && is_inside(a, at) && is_inside(b, at);
    if is_slip || look_alike(letter, other) {
        Nearness::Slip
    } else if is_long && !are_marks && !are_apart {
        Nearness::Likely
    } else {
        Nearness::Near
    }
}

/// How near a name is to a word.
pub fn nearness_of(word: &str, name: &str) -> Nearness {
    let (a, b) = (word.as_bytes(), name.as_bytes());
    if a.len().min(b.len()) < 2 || a.len().max(b.len()) > 64 || !within_one(a, b) {
        return Nearness::Far;
    }
    let pairs = a.iter().zip(b);
    let same = pairs
        .take_while(|(x, y)| x.eq_ignore_ascii_case(*y))
        .count();
    if a.len() > b.len() {
        return nearness_put(a, same);
    }
    if a.len() < b.len() {
        return nearness_put(b, same);
    }
    let pairs = a.iter().zip(b);
    let others = pairs.filter(|(x, y)| !x.eq_ignore_ascii_case(*y)).count();
    if others < 2 {
        return nearness_changed(a, b, same);
    }
    let has_mark = part(b, same, same.saturating_add(2)).contains(&b'_');
    if has_mark || part_len(b, same) > 2 {
        Nearness::Slip
    } else {
        Nearness::Near
    }
}

/// A name that is sought among others: those that are near.
#[derive(Clone, Copy, Drop)]
pub struct Slips<'n> {
    pub word: &'n str,
    /// The near names, and how many they are, which may be more than are kept.
    names: [&'n str; MOST_NAMES],
    count: usize,
    /// Whether a name differs from the word in digits alone: then none is meant for certain.
    has_twin: bool,
    /// A name that looks like the word; empty where none does.
    image: &'n str,
}

impl<'n> Slips<'n> {
    /// Seeks a word.
    pub fn of(word: &'n str) -> Slips<'n> {
        Slips {
            word,
            names: [""; MOST_NAMES],
            count: 0,
            has_twin: false,
            image: "",
        }
    }

    /// Whether a name is kept.
    fn has(&self, name: &str) -> bool {
        let mut kept = self.names.iter();
        kept.any(|kept| kept.eq_ignore_ascii_case(name))
    }

    /// Keeps a name, where it isn't kept and there is room, and counts it; returns whether it is new.
    pub fn keep(&mut self, name: &'n str) -> bool {
        if self.has(name) {
            return false;
        }
        let count = self.count;
        self.count = count.saturating_add(1);
        if let Some(place) = self.names.get_mut(count) {
            *place = name;
        }
        true
    }

    /// Takes a name that may be meant; returns whether it is near and new.
    pub fn offer(&mut self, name: &'n str) -> bool {
        let (word, bytes) = (self.word.as_bytes(), name.as_bytes());
        if have_one_look(word, bytes) {
            self.image = name;
        }
        if are_twins(word, bytes) {
            self.has_twin = true;
            return false;
        }
        nearness_of(self.word, name) != Nearness::Far && self.keep(name)
    }

    /// The near names, and behind them empty ones; none where they are more than are kept, or one differs in digits alone.
    pub fn near(&self) -> [&'n str; MOST_NAMES] {
        if self.has_twin || self.count > MOST_NAMES {
            return [""; MOST_NAMES];
        }
        self.names
    }

    /// Whether a name is near, or differs in digits alone.
    pub fn has_near(&self) -> bool {
        self.has_twin || self.count > 0
    }

    /// The one name that is near; empty where there is none, or another one is near too.
    pub fn only(&self) -> &'n str {
        let [name, other, _] = self.near();
        if other.is_empty() { name } else { "" }
    }

    /// The name that looks like the word, or the one that is near, where the word is a slip for it.
    pub fn slip(&self) -> &'n str {
        self.meant(false)
    }

    /// The name that looks like the word, or the one that is near, where it is likely meant.
    pub fn likely(&self) -> &'n str {
        self.meant(true)
    }

    fn meant(&self, is_likely: bool) -> &'n str {
        let name = self.only();
        if !self.image.is_empty() {
            return self.image;
        }
        match nearness_of(self.word, name) {
            Nearness::Slip => name,
            Nearness::Likely if is_likely => name,
            _ => "",
        }
    }
}

/// What is said beside a name that isn't there: a text with holes, and the words in these.
pub type Said<'t> = (&'t str, [&'t str; MOST_NAMES]);

/// A text with two words in its holes.
pub fn with_words<'t>(text: &'t str, one: &'t str, other: &'t str) -> Said<'t> {
    let words = [one, other, ""];
    (text, words)
}

/// A text without holes.
pub fn plain(text: &str) -> Said<'_> {
    with_words(text, "", "")
}

/// Nothing.
pub fn nothing<'t>() -> Said<'t> {
    with_words("", "", "")
}

/// A question for a name, or nothing, where it is empty.
pub fn question_or_nothing(name: &str) -> Said<'_> {
    question(name).unwrap_or(nothing())
}

/// A question for a name; `None` where it is empty.
pub fn question(name: &str) -> Option<Said<'_>> {
    if name.is_empty() {
        return None;
    }
    Some(with_words("; did you mean '%'?", name, ""))
}
