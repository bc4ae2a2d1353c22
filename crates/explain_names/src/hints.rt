//! The names that may be meant by one that isn't there.

use crate::owners::{has_output, instance_hint, list_hint, owner_hint, takes_all};
use crate::slips::{
    Nearness, Said, Slips, nearness_of, nothing, plain, question, question_or_nothing, with_words,
};
use crate::uses::{Count, Given, NEVER, Uses, given_by_calls, is_changed, is_in_table, is_read};
use crate::words::literal_hint;
use explain_tokens::part;
use explain_trees::{Body, DeclaredName, Form, Trees, kind_text};
use plant_types::{Kind, Text};
use st_names::{Declared, Scope, sort_kind};
use st_parser::Sort;
use st_tree::Argument;
use std::alloc::AllocError;

/// What a name has to be.
#[derive(Clone, Copy, Drop)]
pub enum Wanted {
    /// A variable.
    Any,
    /// A variable of a kind.
    Of(Kind),
    /// A DINT or a TIME.
    Number,
    /// A variable that may be assigned.
    Target,
    /// A variable of a kind that may be assigned.
    TargetOf(Kind),
    /// A DINT that the unit declares itself.
    Control,
    /// An instance of a block, of which an output is read.
    Instance,
    /// An instance of a block that is called.
    Called,
    /// An array.
    Array,
}

impl Wanted {
    /// What has to be of a kind, where that is known.
    pub fn of(kind: Option<Kind>) -> Wanted {
        kind.map_or(Wanted::Any, Wanted::Of)
    }

    /// What is assigned and has to be of a kind, where that is known.
    pub fn target_of(kind: Option<Kind>) -> Wanted {
        kind.map_or(Wanted::Target, Wanted::TargetOf)
    }

    /// Whether an instance is wanted.
    fn is_instance(self) -> bool {
        matches!(self, Wanted::Instance | Wanted::Called)
    }

    /// What is said of a variable of a kind that isn't what is wanted.
    fn said_of_other(self, kind: Kind) -> &'static str {
        match self {
            Wanted::Target => "; '%' is there, and can't be assigned here",
            Wanted::TargetOf(wanted) if wanted == kind =>
                "; '%' is there, and can't be assigned here",
            Wanted::Control if kind == Kind::Dint =>
                "; '%' is there, and doesn't stand in VAR of this unit",
            _ => "; '%' is there, and is a %",
        }
    }
}

/// What stands behind the name of an instance.
#[derive(Clone, Copy, Drop)]
pub enum Behind<'t> {
    /// Not known.
    Nothing,
    /// The arguments of a call.
    Call(&'t [Argument<Text>]),
    /// An output that is read, behind a point.
    Output(&'t Text),
}

/// Whether instances of a block may stand before this.
fn may_stand(body: &Body<'_>, block: &Text, behind: Behind<'_>) -> bool {
    match behind {
        Behind::Nothing => true,
        Behind::Call(arguments) => takes_all(body.plant, block, arguments),
        Behind::Output(output) => has_output(body.plant, block, output),
    }
}

/// Whether a name that is declared as something is what is wanted.
fn fits(body: &Body<'_>, declared: &Declared<'_>, wanted: Wanted, behind: Behind<'_>) -> bool {
    let (name, sort) = (declared.name(), declared.sort());
    let kind = sort_kind(sort);
    match wanted {
        Wanted::Any => kind.is_some(),
        Wanted::Of(wanted) => kind == Some(wanted),
        Wanted::Number => matches!(kind, Some(Kind::Dint | Kind::Time)),
        Wanted::Target => body.scope.is_assignable(name),
        Wanted::TargetOf(wanted) => kind == Some(wanted) && body.scope.is_assignable(name),
        Wanted::Control => body.scope.is_control(name),
        Wanted::Instance | Wanted::Called => match sort {
            Sort::Block(block) => may_stand(body, block, behind),
            _ => false,
        },
        Wanted::Array => matches!(sort, Sort::Array(_, _)),
    }
}

/// The near ones of the names that a unit may use: of those that are what is wanted, and of the others.
#[derive(Drop)]
struct Near<'n> {
    wanted: Wanted,
    behind: Behind<'n>,
    fit: Slips<'n>,
    /// Those that are what is wanted, and are the word with `_` and a letter or two behind it.
    longer: Slips<'n>,
    other: Slips<'n>,
    /// What the first of the near others is declared as.
    sort: Option<&'n Sort>,
    /// What is said of an instance with whose name and `_` the word begins.
    instance: Option<Said<'n>>,
}

/// Whether a name is a shorter one with `_` and more behind it: so many bytes in all at most.
fn goes_on(name: &str, shorter: &str, most: usize) -> bool {
    let (name, shorter) = (name.as_bytes(), shorter.as_bytes());
    let begins = part(name, 0, shorter.len()).eq_ignore_ascii_case(shorter);
    let more = part(name, shorter.len(), name.len());
    begins && matches!(more, [b'_', _, ..]) && more.len() <= most
}

impl<'n> Near<'n> {
    /// The names that are near one that a unit hasn't.
    fn of(body: &Body<'n>, name: &'n Text, wanted: Wanted, behind: Behind<'n>) -> Near<'n> {
        let word = name.as_str();
        let mut near = Near {
            wanted,
            behind,
            fit: Slips::of(word),
            longer: Slips::of(word),
            other: Slips::of(word),
            sort: None,
            instance: None,
        };
        for declared in body.scope.declared() {
            near.offer(body, declared);
        }
        for entry in &body.plant.entries {
            match &entry.form {
                Form::Declared(declared) if entry.owner.is_empty() => near.offer(body, declared),
                _ => {}
            }
        }
        near
    }

    /// Takes a name that a unit may use.
    fn offer(&mut self, body: &Body<'_>, declared: &Declared<'n>) {
        let name = declared.name().as_str();
        let word = self.fit.word;
        if let (Sort::Block(block), true) = (declared.sort(), goes_on(word, name, 3)) {
            let text = "; '%' is there, and is an instance of %";
            self.instance = Some(with_words(text, name, block.as_str()));
        }
        let does_fit = fits(body, declared, self.wanted, self.behind);
        if does_fit && word.len() > 2 && goes_on(name, word, 3) {
            self.longer.keep(name);
        } else if does_fit {
            self.fit.offer(name);
        } else if self.other.offer(name) && self.sort.is_none() {
            self.sort = Some(declared.sort());
        }
    }

    /// The one of the near names that are what is wanted which no body uses; empty where there is none, or several are.
    fn unused(&self, plant: &Trees<'n>, uses: &Uses<'_>, is_often: bool) -> &'n str {
        let word = self.fit.word;
        let mut unused = Slips::of(word);
        let near = self.fit.near();
        let names = near.iter().take_while(|name| !name.is_empty());
        for (number, name) in names.enumerate() {
            let count = uses.count(number.saturating_add(1)).all();
            let is_kept = nearness_of(word, name) != Nearness::Slip && is_point(plant, name);
            if count == 0 && !is_kept && !(is_often && is_in_table(plant.alarms, name)) {
                unused.keep(*name);
            }
        }
        let name = unused.only();
        match nearness_of(word, name) {
            Nearness::Near if !self.wanted.is_instance() => "",
            _ => name,
        }
    }

    /// What is said of the one name that is near and isn't what is wanted, or of the instance with whose name the word begins, as down_Q.
    fn other(&self) -> Option<Said<'n>> {
        let name = self.other.slip();
        if name.is_empty() {
            return self.instance;
        }
        match self.sort? {
            Sort::Kind(kind) => {
                let text = self.wanted.said_of_other(*kind);
                Some(with_words(text, name, kind_text(*kind)))
            }
            Sort::Block(word) => {
                let text = "; '%' is there, and is an instance of %";
                Some(with_words(text, name, word.as_str()))
            }
            Sort::Array(_, _) => Some(with_words("; '%' is there, and is an array", name, "")),
        }
    }
}

/// Whether a name is that of a global with an address: one that nothing uses may be a spare point.
fn is_point(plant: &Trees<'_>, name: &str) -> bool {
    let mut entries = plant.entries.iter();
    entries.any(|entry| {
        entry.is_global(None) && entry.is_called(name) && entry.region().is_some()
    })
}

/// What is said of a name whose declaration is missing, by where it is used; `is_listed` tells whether an alarm names it.
fn missing(wanted: Wanted, count: Count, is_listed: bool) -> &'static str {
    if matches!(wanted, Wanted::Control) {
        "; the variable of a FOR is declared in VAR of its unit, or another one is meant"
    } else if is_listed || count.elsewhere > 0 {
        "; its declaration is missing: VAR_GLOBAL hasn't it"
    } else {
        "; its declaration is missing: neither this unit nor VAR_GLOBAL has it"
    }
}

/// What is said of a name of a block that its calls give or take, or that is read from its instances; `None` where it isn't.
fn called_for<'t>(body: &Body<'t>, name: &Text) -> Result<Option<Said<'t>>, AllocError> {
    let given = given_by_calls(body.plant, body.name, name.as_str())?;
    let text = match given {
        Given::Input => "; its declaration is missing: VAR_INPUT hasn't it, and calls of % give it",
        Given::Output =>
            "; its declaration is missing: VAR_OUTPUT hasn't it, and calls of % take it",
        Given::Not if is_read(body.plant, body.name, name.as_str()) =>
            "; its declaration is missing: VAR_OUTPUT hasn't it, and it is read from instances of %",
        Given::Not => return Ok(None),
    };
    Ok(Some(with_words(text, body.name, "")))
}

/// A name that a unit hasn't: what it has to be, how often it is used, whether an alarm names it, and who has it for itself.
#[derive(Drop)]
struct Lacking<'t> {
    wanted: Wanted,
    count: Count,
    is_listed: bool,
    /// What is said of a unit that has it for itself.
    owner: Option<Said<'t>>,
    /// The near name that nothing uses; empty where there is none.
    unused: &'t str,
}

impl<'t> Lacking<'t> {
    /// What is said where it is used in one place: it may be a slip.
    fn once(&self, near: &Near<'t>) -> Option<Said<'t>> {
        let is_read = matches!(self.wanted, Wanted::Instance);
        let word = near.fit.word;
        let name = match (self.unused, near.fit.likely(), near.longer.only()) {
            ("", "", longer) if is_read && near.fit.only().is_empty() => longer,
            ("", likely, _) => likely,
            (unused, _, _) => unused,
        };
        let told = self.owner.or(question(name));
        let told = told.or(literal_hint(word, self.wanted, false));
        told.or(near.other())
    }

    /// What is said where it is used in several places, or an alarm names it: then its declaration is missing.
    fn often(&self, near: &Near<'t>) -> Option<Said<'t>> {
        if !self.unused.is_empty() {
            let text = "; its declaration is missing, and '%' is declared, which nothing uses";
            return Some(with_words(text, self.unused, ""));
        }
        if self.owner.is_some() && !self.is_listed {
            return self.owner;
        }
        if self.wanted.is_instance() {
            return None;
        }
        let told = literal_hint(near.fit.word, self.wanted, true);
        told.or(Some(plain(missing(self.wanted, self.count, self.is_listed))))
    }
}

/// What is said of a name that a unit hasn't and that isn't an argument of its calls.
fn by_uses<'t>(
    body: &Body<'t>,
    name: &'t Text,
    wanted: Wanted,
    behind: Behind<'t>,
) -> Result<Option<Said<'t>>, AllocError> {
    let (plant, word) = (body.plant, name.as_str());
    let near = Near::of(body, name, wanted, behind);
    let [one, other, third] = near.fit.near();
    let words = [word, one, other, third];
    let uses = Uses::of(plant, body.name, &words);
    let count = uses.count(0);
    let is_listed = is_in_table(plant.alarms, word);
    let is_often = is_listed || count.all() > 1;
    let may_be_slip = !is_often && (near.fit.has_near() || near.longer.has_near());
    let owner = if may_be_slip || is_changed(plant, body.name, word)? {
        None
    } else {
        owner_hint(plant.entries.as_slice(), word, wanted)
    };
    let lacking = Lacking {
        wanted,
        count,
        is_listed,
        owner,
        unused: near.unused(plant, &uses, is_often),
    };
    Ok(if is_often {
        lacking.often(&near)
    } else {
        lacking.once(&near)
    })
}

/// What is said beside a name that a unit hasn't: that its declaration is missing, where it is used so; else a question for the name that is likely meant, or what
/// the near other one is, or who has one of this name for itself. Of an instance it is said which blocks it may be of, or that globals are named without the name
/// of a list. Empty where there is none of these.
pub fn variable_hint<'t>(
    body: &Body<'t>,
    name: &'t Text,
    wanted: Wanted,
    behind: Behind<'t>,
) -> Result<Said<'t>, AllocError> {
    if !wanted.is_instance() {
        if let Some(told) = called_for(body, name)? {
            return Ok(told);
        }
    } else if let Some(told) = list_hint(body.plant, name, behind) {
        return Ok(told);
    }
    match by_uses(body, name, wanted, behind)? {
        Some(told) => Ok(told),
        None if wanted.is_instance() => instance_hint(body.plant, behind),
        None if matches!(wanted, Wanted::Control) => { Ok(plain(missing(wanted, NEVER, false))) }
        None => Ok(nothing()),
    }
}

/// The globals that are near a name, of a kind or of any where none is given.
pub fn near_globals<'t>(
    entries: &[DeclaredName<'t>],
    name: &'t str,
    kind: Option<Kind>,
) -> Slips<'t> {
    let mut slips = Slips::of(name);
    for entry in entries {
        if entry.is_global(kind) {
            slips.offer(entry.name.as_str());
        }
    }
    slips
}

/// A question for the global that is meant by a name that none has.
pub fn nearest_global<'t>(entries: &[DeclaredName<'t>], name: &'t str) -> Said<'t> {
    question_or_nothing(near_globals(entries, name, None).slip())
}
