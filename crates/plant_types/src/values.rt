ghost use Rattle.std.specs.Prelude.{◌≡◌, IsTrue};
ghost use Rattle.plant_types.specs.Values.{kind_of, worth, value_of_kind, is_in_range, fitted, trap_text, has_index};

/// What a variable can hold (IEC 61131-3's BOOL, DINT and TIME).
#[derive(Clone, Copy, PartialEq, Eq, Drop)]
pub enum Kind {
    /// TRUE or FALSE.
    Bool,
    /// A signed integer of 32 bits.
    Dint,
    /// A duration in milliseconds, signed, of 64 bits (this profile).
    Time,
}

/// A variable's value, within its kind's range.
#[derive(Clone, Copy, Drop)]
pub enum Value {
    Bool(bool),
    Dint(i32),
    /// Milliseconds.
    Time(i64),
}

/// Where a variable's address lies: `%I` is an input, `%Q` an output, `%M` plain memory (IEC 61131-3).
#[derive(Clone, Copy, Debug, PartialEq, Eq, Drop)]
pub enum Region {
    Input,
    Output,
    Plain,
}

/// Why a program stopped before its end (this profile).
#[derive(Clone, Copy, PartialEq, Eq, Drop)]
pub enum Trap {
    /// A result out of its kind's range.
    Overflow,
    /// A division by 0.
    DivZero,
    /// An index outside the bounds of an array.
    Index,
}

impl Trap {
    /// Its word, as `OVERFLOW`.
    pub fn text(self) -> &'static str
        ensures { result.now ≡ trap_text self }
    {
        match self {
            Trap::Overflow => "OVERFLOW",
            Trap::DivZero => "DIVZERO",
            Trap::Index => "INDEX",
        }
    }
}

/// The bounds of an array: its elements have the indexes from `low` to `high`, both among them (IEC 61131-3).
#[derive(Clone, Copy, PartialEq, Eq, Drop)]
pub struct Bounds {
    pub low: i32,
    pub high: i32,
}

impl Bounds {
    /// Whether an array with these bounds has an element of an index.
    #[inline(always)]
    pub fn has_index(self, index: i64) -> bool
        ensures { result ≡ has_index self index }
    {
        i64::from(self.low) <= index && index <= i64::from(self.high)
    }
}

/// A statement of a program: the number of its body's path of names, and its own number in that body, from 1.
#[derive(Clone, Copy, PartialEq, Eq, Drop)]
pub struct Place {
    pub path: u32,
    pub statement: u32,
}

/// What a scan gives for an input: a truth value, or a whole number, which may be outside every kind's range.
#[derive(Clone, Copy, Drop)]
pub enum Given {
    Truth(bool),
    Whole(i128),
}

impl Value {
    /// The kind of the value.
    pub fn kind(self) -> Kind
        ensures { result ≡ kind_of self }
    {
        match self {
            Value::Bool(_) => Kind::Bool,
            Value::Dint(_) => Kind::Dint,
            Value::Time(_) => Kind::Time,
        }
    }

    /// The value as a whole number: 0 or 1 for a BOOL, milliseconds for a TIME.
    pub fn worth(self) -> i64
        ensures { result ≡ worth self }
    {
        match self {
            Value::Bool(truth) => { if truth { 1 } else { 0 } }
            Value::Dint(n) => n as i64,
            Value::Time(n) => n,
        }
    }

    /// The value of this kind for a whole number of its range: a BOOL is TRUE unless the number is 0.
    pub fn of_kind(kind: Kind, n: i64) -> Value
        requires { IsTrue (is_in_range kind n) }
        ensures { result ≡ value_of_kind kind n }
    {
        match kind {
            Kind::Bool => Value::Bool(n != 0),
            Kind::Dint => Value::Dint(n as i32),
            Kind::Time => Value::Time(n),
        }
    }
}

/// The value that was given, if it fits the kind: a BOOL takes a truth value or the number 0 or 1, DINT and TIME a number of their range (this profile).
/// `None` otherwise.
pub fn fitted(kind: Kind, given: Given) -> Option<Value>
    ensures { result ≡ fitted kind given }
{
    match (kind, given) {
        (Kind::Bool, Given::Truth(truth)) => Some(Value::Bool(truth)),
        (Kind::Bool, Given::Whole(0)) => Some(Value::Bool(false)),
        (Kind::Bool, Given::Whole(1)) => Some(Value::Bool(true)),
        (Kind::Dint, Given::Whole(n)) if (-2147483648..=2147483647).contains(&n) => {
            Some(Value::Dint(n as i32))
        }
        (Kind::Time, Given::Whole(n))
            if (-9223372036854775808..=9223372036854775807).contains(&n) => {
            Some(Value::Time(n as i64))
        }
        _ => None,
    }
}
