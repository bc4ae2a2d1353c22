//! What stands behind the names in a routine.

ghost use Rattle.std.specs.Prelude.{◌≡◌, ◌<◌, ◌^◌};
ghost use Rattle.logic_source.specs.Seats.{timer_number};
ghost use Rattle.logic_frames.specs.Numbers.{timer_shows};
ghost use Rattle.logic_frames.specs.Scoped.{mapping_of, scope_kinds, scope_globals, array_in, scope_variable, scope_kind, scope_instance, own_number, own_kind_of, input_among, output_among, output_kind_by, scope_input, scope_output, scope_output_kind};

use crate::names::{Instances, Laid, Variables};
use logic_source::BlockRef;
use plant_types::{Bounds, Kind, same_word};

/// The names that a routine may use: the globals, its own variables, the arrays of both, its instances, and the variables of each block type by number.
#[derive(Drop)]
pub struct RoutineNames<'a> {
    pub globals: &'a Variables,
    pub own: &'a Variables,
    pub instances: &'a Instances,
    pub members: &'a [Variables],
}

/// The number of a block type's own variable of a name; `None` if there is none.
fn own_number(members: &[Variables], block: usize, name: &str) -> Option<usize>
    ensures { result ≡ own_number members.now block name.now }
{
    let variables = members.get(block)?;
    variables.names.find(name)
}

/// The kind of a block type's own variable of a name; `None` if there is none.
fn own_kind_of(members: &[Variables], block: usize, name: &str) -> Option<Kind>
    ensures { result ≡ own_kind_of members.now block name.now }
{
    let variables = members.get(block)?;
    variables.kind(name)
}

/// The number of a timer's input; `None` if it has none of the name.
fn timer_number(name: &str) -> Option<usize>
    ensures { result ≡ timer_number name.now }
{
    if same_word(name.as_bytes(), b"IN") {
        Some(0)
    } else if same_word(name.as_bytes(), b"PT") {
        Some(1)
    } else {
        None
    }
}

/// The number of an input of a block; `None` if it has none of the name.
fn input_among(members: &[Variables], block: Option<BlockRef>, name: &str) -> Option<usize>
    ensures { result ≡ input_among members.now block name.now }
{
    match block? {
        BlockRef::Ton | BlockRef::Tof => timer_number(name),
        BlockRef::RTrig => {
            if same_word(name.as_bytes(), b"CLK") {
                Some(0)
            } else {
                None
            }
        }
        BlockRef::Declared(number) => own_number(members, number, name),
    }
}

/// The number of a timer's output; `None` if it has none of the name.
fn timer_shows(name: &str) -> Option<usize>
    ensures { result ≡ timer_shows name.now }
{
    if same_word(name.as_bytes(), b"Q") {
        Some(0)
    } else if same_word(name.as_bytes(), b"ET") {
        Some(1)
    } else {
        None
    }
}

/// The number of an output of a block; `None` if it has none of the name.
fn output_among(members: &[Variables], block: Option<BlockRef>, name: &str) -> Option<usize>
    ensures { result ≡ output_among members.now block name.now }
{
    match block? {
        BlockRef::Ton | BlockRef::Tof => timer_shows(name),
        BlockRef::RTrig => {
            if same_word(name.as_bytes(), b"Q") {
                Some(0)
            } else {
                None
            }
        }
        BlockRef::Declared(number) => own_number(members, number, name),
    }
}

/// The kind of an output of a block: for a timer TIME for ET, and else BOOL; that of a block type's own variable.
fn output_kind_by(members: &[Variables], block: Option<BlockRef>, name: &str) -> Kind
    ensures { result ≡ output_kind_by members.now block name.now }
{
    match block {
        None | Some(BlockRef::RTrig) => Kind::Bool,
        Some(BlockRef::Ton | BlockRef::Tof) => {
            if same_word(name.as_bytes(), b"ET") {
                Kind::Time
            } else {
                Kind::Bool
            }
        }
        Some(BlockRef::Declared(number)) => match own_kind_of(members, number, name) {
            Some(kind) => kind,
            None => Kind::Bool,
        },
    }
}

impl<'a> RoutineNames<'a> {
    /// How many cells the globals have: one for each variable, and one for each element of an array.
    fn global_cells(&self) -> usize
        ensures count { result ≡ scope_globals self.now }
        ensures small { result < 2 ^ 32 }
    {
        self.globals.arrays.end as usize
    }

    /// The number of the variable of a name, in any letter case: the globals have the first numbers, and the routine's own variables those
    /// after them. One of its own hides a global.
    pub fn variable(&self, name: &str) -> usize
        ensures { result ≡ scope_variable self.now name.now }
    {
        let count = self.global_cells();
        let _small = self.own.names.len();
        match self.own.names.find(name) {
            Some(number) => count + number,
            None => self.globals.names.find(name).unwrap_or(0),
        }
    }

    /// The kind of the variable of a name.
    pub fn kind(&self, name: &str) -> Kind
        ensures { result ≡ scope_kind self.now name.now }
    {
        match self.own.kind(name) {
            Some(kind) => kind,
            None => self.globals.kind(name).unwrap_or(Kind::Bool),
        }
    }

    /// The array of a name, in any letter case: one of the routine's own hides a global one.
    fn array_named(&self, name: &str) -> Option<Laid>
        ensures { result ≡ array_in self.now name.now }
    {
        match self.own.arrays.find(name) {
            Some(array) => Some(array),
            None => self.globals.arrays.find(name),
        }
    }

    /// The number of the array of a name, that of its first element: the global arrays follow the global variables, and the routine's own
    /// arrays its own variables.
    pub fn array(&self, name: &str) -> usize
        ensures { result ≡ (mapping_of self.now).array name.now }
    {
        match self.own.arrays.find(name) {
            Some(array) => self.global_cells() + array.first as usize,
            None => match self.globals.arrays.find(name) {
                Some(array) => array.first as usize,
                None => 0,
            },
        }
    }

    /// The declared bounds of the array of a name.
    pub fn bounds(&self, name: &str) -> Bounds
        ensures { result ≡ (scope_kinds self.now).bounds name.now }
    {
        match self.array_named(name) {
            Some(array) => array.bounds,
            None => Bounds { low: 0, high: 0 },
        }
    }

    /// The kind of an array's elements.
    pub fn element_kind(&self, name: &str) -> Kind
        ensures { result ≡ (scope_kinds self.now).element name.now }
    {
        match self.array_named(name) {
            Some(array) => array.kind,
            None => Kind::Bool,
        }
    }

    /// The number of the instance of a name.
    pub fn instance(&self, name: &str) -> usize
        ensures { result ≡ scope_instance self.now name.now }
    {
        self.instances.names.find(name).unwrap_or(0)
    }

    /// The number of an input of an instance.
    pub fn input(&self, instance: &str, name: &str) -> usize
        ensures { result ≡ scope_input self.now instance.now name.now }
    {
        input_among(self.members, self.instances.block(instance), name).unwrap_or(0)
    }

    /// The number of an output of an instance.
    pub fn output(&self, instance: &str, name: &str) -> usize
        ensures { result ≡ scope_output self.now instance.now name.now }
    {
        output_among(self.members, self.instances.block(instance), name).unwrap_or(0)
    }

    /// The kind of an output of an instance.
    pub fn output_kind(&self, instance: &str, name: &str) -> Kind
        ensures { result ≡ scope_output_kind self.now instance.now name.now }
    {
        output_kind_by(self.members, self.instances.block(instance), name)
    }
}
